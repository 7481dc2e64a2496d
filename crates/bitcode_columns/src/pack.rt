//! Packing bools and bytes.
ghost use Rattle.std.specs.Prelude.{◌≡◌, ◌+◌, ◌<◌, ◌++◌, length, vec_len, vec_capacity, IsOk, OnOk, IfErr, OnErr};
ghost use Rattle.bitcode_columns.specs.BoolColumn.{SpellsBools, bool_text};
ghost use Rattle.bitcode_columns.specs.ByteColumn.{level_of_base, base_at_level};
ghost use Rattle.bitcode_columns.specs.Digits.{radix, digits_in_byte, base_for};
ghost use Rattle.bitcode_memory.specs.Fast.{cow_rest};
ghost use Rattle.bitcode_columns.specs.Reading.{Reads, IsEndOf, Names, bools_fault};

use crate::digits::{pack_digits, unpack_digits};
pub use crate::pack::bytes::{pack_bytes, unpack_bytes};
pub use crate::pack::variants::{pack_bytes_less_than, unpack_bytes_less_than};
use crate::single::single_bool;
use bitcode_memory::consume::consume_byte;
use bitcode_memory::error::{Error, Reason};
use bitcode_memory::fast::CowSlice;
use std::alloc::Global;

/// A byte column of at most this many entries has no tag.
pub const MOST_WITHOUT_TAG: usize = 2;

pub(crate) mod bytes;
pub(crate) mod variants;

/// The number of values of a digit of a packed byte: two to sixteen, or all 256 of a whole byte.
#[derive(Clone, Copy, PartialEq, Eq)]
pub enum Base {
    /// One entry of 0 to 255.
    Whole,
    /// Two entries below 16.
    Sixteen,
    /// Three entries below 6.
    Six,
    /// Four entries below 4.
    Four,
    /// Five entries below 3.
    Three,
    /// Eight entries below 2.
    Two,
}

impl Base {
    /// The base as a number: each digit is below it.
    pub(crate) fn radix(self) -> u16
        ensures { result ≡ radix self }
    {
        match self {
            Base::Whole => 256,
            Base::Sixteen => 16,
            Base::Six => 6,
            Base::Four => 4,
            Base::Three => 3,
            Base::Two => 2,
        }
    }

    /// The smallest base that has a digit for this number.
    fn for_greatest(greatest: u8) -> Base
        ensures { result ≡ base_for greatest }
    {
        match greatest {
            0..=1 => Base::Two,
            2 => Base::Three,
            3 => Base::Four,
            4..=5 => Base::Six,
            6..=15 => Base::Sixteen,
            _ => Base::Whole,
        }
    }

    /// The level of the base: the higher the level, the smaller the digits.
    pub(crate) fn level(self) -> u8
        ensures { result ≡ level_of_base self }
    {
        match self {
            Base::Whole => 0,
            Base::Sixteen => 1,
            Base::Six => 2,
            Base::Four => 3,
            Base::Three => 4,
            Base::Two => 5,
        }
    }

    /// The base of a level.
    fn at_level(level: u8) -> Base
        ensures { result ≡ base_at_level level }
    {
        match level {
            0 => Base::Whole,
            1 => Base::Sixteen,
            2 => Base::Six,
            3 => Base::Four,
            4 => Base::Three,
            _ => Base::Two,
        }
    }

    /// The number of digits in a byte.
    pub(crate) fn digits_in_byte(self) -> usize
        ensures { result ≡ digits_in_byte self }
    {
        match self {
            Base::Whole => 1,
            Base::Sixteen => 2,
            Base::Six => 3,
            Base::Four => 4,
            Base::Three => 5,
            Base::Two => 8,
        }
    }
}

/// Appends a column of bools, eight to a byte, the first in the lowest bit.
///
/// If an allocation fails, the error is `out of memory`, and `out` still begins with what it held before.
///
/// ```rust
/// let mut out = Vec::new(alloc);
/// pack_bools(&[true, false, true], &mut out)?;
/// assert_eq!(rt; out.as_slice(), [5].as_slice());
/// ```
pub fn pack_bools(bools: &[bool], out: &mut Vec<u8>) -> Result<(), Error>
    ensures written { OnOk result (out.new.items ≡ out.old.items ++ bool_text bools.now) }
    ensures reason { IfErr result (λ e. e.reason ≡ Reason.OutOfMemory) }
    ensures unchanged { OnErr result (out.new.items ≡ out.old.items) }
    ensures full { OnErr result
        (vec_capacity out.old < vec_len out.old + length (bool_text bools.now)) }
{
    pack_digits(&[], Base::Two, bools, out)
}

/// Reads a column of `count` bools from the front of the input into `out`: one bool without allocating, and others in
/// memory that `out` owns.
///
/// If bytes are missing, the error is `EOF`; if an allocation fails, `out of memory`. After an error the input is a
/// suffix of what it was, and `out` must be filled again before use.
///
/// ```rust
/// let mut input: &[u8] = &[5, 9];
/// let mut bools = CowSlice::new(alloc);
/// unpack_bools(alloc, &mut input, 3, &mut bools)?;
/// assert_eq!(rt; bools.as_slice(), [true, false, true].as_slice());
/// assert_eq!(rt; input, [9].as_slice());
/// ```
pub fn unpack_bools<'a>(
    alloc: Global,
    input: &mut &'a [u8],
    count: usize,
    out: &mut CowSlice<'a, bool>,
) -> Result<(), Error>
    ensures read { OnOk result
        (Reads SpellsBools count input.old.now (cow_rest out.new) input.new.now) }
    ensures refused { IfErr result (λ e. Names e.reason (bools_fault count input.old.now)) }
    ensures rest { OnErr result (IsEndOf input.old.now input.new.now) }
    ensures empty { count ≡ 0 → IsOk result }
{
    if count == 1 {
        let byte = consume_byte(input)?;
        out.set_borrowed(single_bool(byte));
        return Ok(());
    }
    out.set_owned(unpack_digits(alloc, Base::Two, input, count)?);
    Ok(())
}
