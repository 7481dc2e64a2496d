//! At types without sets, maps and heaps, what is read strictly is what is written; a set comes back.
ghost use Rattle.std.specs.Prelude.{◌≡◌, IfOk, IfErr};
ghost use Rattle.bitcode_derive.specs.Strict.{IsStrictDecodingOf};
ghost use Rattle.bitcode_derive.specs.Whole.{IsEncodingOf, HasShortLengths};

use bitcode::laws::{comes_back_strictly, strictly_written};
use bitcode::{Error, Reason, Shaped, decode_strict};
use std::alloc::Global;
use std::collections::BTreeSet;

/// A flag is read strictly from the bytes that are written for it, and from no others.
pub fn flag_is_written(flag: &bool, bytes: &[u8])
    ensures written { IsStrictDecodingOf ⟦<bool as Shaped>⟧.data.makes ⟦<bool as Shaped>⟧.data.shape
        bytes.now
        flag.now → IsEncodingOf ⟦<bool as Shaped>⟧.data.lists ⟦<bool as Shaped>⟧.data.shape flag.now
        bytes.now }
    ensures read { HasShortLengths ⟦<bool as Shaped>⟧.data.lists ⟦<bool as Shaped>⟧.data.shape
        flag.now
        → IsEncodingOf ⟦<bool as Shaped>⟧.data.lists ⟦<bool as Shaped>⟧.data.shape flag.now
        bytes.now
        → IsStrictDecodingOf ⟦<bool as Shaped>⟧.data.makes ⟦<bool as Shaped>⟧.data.shape bytes.now
        flag.now }
{
    strictly_written(flag, bytes);
}

/// The same of a number.
pub fn number_is_written(number: &u32, bytes: &[u8])
    ensures written { IsStrictDecodingOf ⟦<u32 as Shaped>⟧.data.makes ⟦<u32 as Shaped>⟧.data.shape
        bytes.now
        number.now → IsEncodingOf ⟦<u32 as Shaped>⟧.data.lists ⟦<u32 as Shaped>⟧.data.shape
        number.now
        bytes.now }
    ensures read { HasShortLengths ⟦<u32 as Shaped>⟧.data.lists ⟦<u32 as Shaped>⟧.data.shape
        number.now
        → IsEncodingOf ⟦<u32 as Shaped>⟧.data.lists ⟦<u32 as Shaped>⟧.data.shape number.now
        bytes.now
        → IsStrictDecodingOf ⟦<u32 as Shaped>⟧.data.makes ⟦<u32 as Shaped>⟧.data.shape bytes.now
        number.now }
{
    strictly_written(number, bytes);
}

/// A set that is read strictly from the bytes that were written for it is equal to it.
pub fn numbers_come_back(
    alloc: Global,
    numbers: &BTreeSet<u32>,
    bytes: &[u8],
) -> Result<BTreeSet<u32>, Error>
    ensures equal { IsEncodingOf ⟦<BTreeSet<u32> as Shaped>⟧.data.lists
        ⟦<BTreeSet<u32> as Shaped>⟧.data.shape
        numbers.now bytes.now
        → HasShortLengths ⟦<BTreeSet<u32> as Shaped>⟧.data.lists
        ⟦<BTreeSet<u32> as Shaped>⟧.data.shape
        numbers.now
        → IfOk result (λ again. ⟦<BTreeSet<u32> as Shaped>⟧.data.same numbers.now again) }
    ensures refused { IsEncodingOf ⟦<BTreeSet<u32> as Shaped>⟧.data.lists
        ⟦<BTreeSet<u32> as Shaped>⟧.data.shape
        numbers.now bytes.now
        → HasShortLengths ⟦<BTreeSet<u32> as Shaped>⟧.data.lists
        ⟦<BTreeSet<u32> as Shaped>⟧.data.shape
        numbers.now
        → IfErr result (λ e. e.reason ≡ Reason.OutOfMemory) }
{
    let again = decode_strict(alloc, bytes);
    comes_back_strictly(numbers, bytes, &again);
    again
}
