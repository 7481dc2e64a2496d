//! `FileRecord` corresponds to the tuple of its fields. What is below its declaration was written by
//! `scripts/new_type`.
ghost use Rattle.std.specs.Prelude.{◌≡◌};
ghost use Rattle.bitcode.specs.ByHand.{data_as, field_alike, pair_alike, refl};

use bitcode::own::{DecoderOfFields, HasField, InFields, Nth};
use bitcode::sealed::{
    Earlier, Expected, OpenError, ReadsVersions, Version, Versioned, open_version,
};
use bitcode::{ConvertFrom, DecodeOwned, Error, HasDecoder, HasEncoder, Shaped};
use std::alloc::Global;

/// What was found when the file was last read whole.
#[derive(Debug, Clone, Copy, PartialEq)]
pub struct FileRecord {
    pub bytes: u64,
    pub modified: i64,
    pub checksum: u32,
    /// How many times it was read whole.
    pub reads: u32,
}

impl Shaped for FileRecord {
    ghost data = { data_as (λ t. (t.bytes, t.modified, t.checksum, t.reads))
        (λ p. (record { bytes = p.0; modified = p.1; checksum = p.2; reads = p.3 }, refl))
        (λ t. refl) ⟦<(u64, i64, u32, u32) as Shaped>⟧.data };

    fn told(&self) {
        self.bytes.told();
        self.modified.told();
        self.checksum.told();
        self.reads.told();
    }
}

impl ConvertFrom<(u64, i64, u32, u32)> for FileRecord {
    fn convert_from(
        _alloc: Global,
        (bytes, modified, checksum, reads): (u64, i64, u32, u32),
    ) -> Result<Self, Error> {
        Ok(FileRecord {
            bytes,
            modified,
            checksum,
            reads,
        })
    }

    ghost same_shape = { refl };
}

impl HasField<0> for FileRecord {
    type Field = u64;

    ghost field = { λ t. t.bytes };

    fn field(&self) -> &u64 {
        &self.bytes
    }
}

impl HasField<1> for FileRecord {
    type Field = i64;

    ghost field = { λ t. t.modified };

    fn field(&self) -> &i64 {
        &self.modified
    }
}

impl HasField<2> for FileRecord {
    type Field = u32;

    ghost field = { λ t. t.checksum };

    fn field(&self) -> &u32 {
        &self.checksum
    }
}

impl HasField<3> for FileRecord {
    type Field = u32;

    ghost field = { λ t. t.reads };

    fn field(&self) -> &u32 {
        &self.reads
    }
}

impl InFields for FileRecord {
    type Numbers = ((Nth<0>, Nth<1>), (Nth<2>, Nth<3>));

    type Inside = (u64, i64, u32, u32);

    ghost same_columns = { refl };

    ghost of_fields = { λ d h. h };

    ghost same_listings = { λ t. pair_alike (pair_alike field_alike field_alike)
        (pair_alike field_alike field_alike) };
}

impl HasEncoder for FileRecord {
    type Encoder = <(u64, i64, u32, u32) as HasEncoder>::Encoder;
}

impl<'a> HasDecoder<'a> for FileRecord {
    type Decoder = DecoderOfFields<'a, (u64, i64, u32, u32)>;
}

impl DecodeOwned for FileRecord {}

/// `FileRecord` as it was in version 2.
pub type FileRecordOf2 = (u64, i64, u32);

impl Earlier<2> for FileRecord {
    type Before = FileRecordOf2;

    ghost is_upgrade = { λ b t. (t.bytes ≡ b.0) × (t.modified ≡ b.1) × (t.checksum ≡ b.2)
        × (t.reads ≡ 1) };

    fn upgrade(_alloc: Global, (bytes, modified, checksum): FileRecordOf2) -> Result<Self, Error> {
        Ok(FileRecord {
            bytes,
            modified,
            checksum,
            reads: 1,
        })
    }
}

/// Opens version 2 of `FileRecord`.
pub struct FileRecordVersion2 {}

impl<'a> ReadsVersions<'a, FileRecord> for FileRecordVersion2 {
    type Inside = ();

    ghost includes = { ⟦<Version<2> as ReadsVersions<'a, FileRecord>>⟧.includes };

    ghost opens = { ⟦<Version<2> as ReadsVersions<'a, FileRecord>>⟧.opens };

    ghost refuses = { ⟦<Version<2> as ReadsVersions<'a, FileRecord>>⟧.refuses };

    fn includes(version: u16) -> bool {
        version == 2
    }

    fn open_earlier(
        alloc: Global,
        expected: &Expected,
        bytes: &'a [u8],
    ) -> Result<FileRecord, OpenError> {
        open_version::<Version<2>, FileRecord>(alloc, expected, bytes)
    }
}

impl Versioned for FileRecord {
    type Versions = FileRecordVersion2;

    type Numbers = Version<2>;
}
