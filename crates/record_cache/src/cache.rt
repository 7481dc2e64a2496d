//! The records of a cache as bytes, sealed with the version of their types.
ghost use Rattle.std.specs.Prelude.{IfOk, IfErr};
ghost use Rattle.bitcode.specs.ByHand.{HasLongListing, IsOpeningOfAny, IsRefusalOfAny, IsSealingOf};
ghost use Rattle.bitcode.specs.ByHand.{IsWritingRefusal};

use crate::file_id::FileId;
use crate::file_record::FileRecord;
use bitcode::coder::HoldsData;
use bitcode::sealed::{Expected, Label, OpenError, ReadsVersions, Versioned, open_any, seal};
use bitcode::{Decoder, Error, HasDecoder, Shaped};
use std::alloc::Global;
use std::collections::HashMap;

/// The records of files.
pub type Records = HashMap<FileId, FileRecord>;

type RecordsDecoder<'a> = <Records as HasDecoder<'a>>::Decoder;

type RecordsVersions = <Records as Versioned>::Versions;

/// What a cache is sealed under. The version goes up with each change of `FileId` or `FileRecord`,
/// whose declarations say what each version had. A file of version 2 is still read, and one of
/// version 1 is refused, and not read as something else.
pub const CACHE: Label = Label {
    kind: 0x4341_4348,
    version: 3,
};

/// What is opened. A cache of over 64 MiB is none of this program's.
pub const EXPECTED: Expected = Expected {
    label: CACHE,
    most_bytes: 1 << 26,
};

/// The bytes of a file that keeps the records.
pub fn to_bytes(alloc: Global, records: &Records) -> Result<Vec<u8>, Error>
    ensures written { IfOk result (λ bytes. IsSealingOf ⟦<Records as Shaped>⟧.data.lists
        ⟦<Records as Shaped>⟧.data.shape CACHE records.now bytes.items) }
    ensures refused { IfErr result (λ e. IsWritingRefusal e.reason
        (HasLongListing ⟦<Records as Shaped>⟧.data.lists ⟦<Records as Shaped>⟧.data.shape
        records.now)) }
{
    seal(alloc, CACHE, records)
}

/// The records that are kept in the bytes of a file of this version or of version 2. Older, damaged
/// and cut-off ones are refused, with what is at fault.
pub fn from_bytes<'a>(alloc: Global, bytes: &'a [u8]) -> Result<Records, OpenError>
    ensures found { IfOk result (λ records. IsOpeningOfAny ⟦<Records as Shaped>⟧.data.makes
        ⟦<Records as Shaped>⟧.data.shape
        ⟦<RecordsVersions as ReadsVersions<'a, Records>>⟧.includes
        ⟦<RecordsVersions as ReadsVersions<'a, Records>>⟧.opens EXPECTED bytes.now records) }
    ensures refused { IfErr result (λ e. IsRefusalOfAny
        ⟦<RecordsDecoder<'a> as Decoder<Records>>⟧.makes_free
        ⟦<RecordsDecoder<'a> as HoldsData>⟧.shape ⟦<Records as Shaped>⟧.data.shape
        ⟦<RecordsVersions as ReadsVersions<'a, Records>>⟧.includes
        ⟦<RecordsVersions as ReadsVersions<'a, Records>>⟧.refuses EXPECTED bytes.now e) }
{
    open_any::<Records>(alloc, &EXPECTED, bytes)
}
