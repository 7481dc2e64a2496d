// Written by scripts/tables/integers.
//! `usize` and `isize`, which are written as 64 bits.
ghost use Rattle.std.specs.Prelude.{pos, true, false, refl};
ghost use Rattle.std.proofs.Common.{inl, inr};

use crate::error::Error;
use crate::ints::{Int, consume_numbers};

impl Int for usize {
    type Une = [u8; 8];

    type Unsigned = u64;

    ghost width = { 8 };

    ghost signed = { false };

    ghost number = { λ n. pos n };

    ghost une_bytes = { λ bytes. bytes };

    fn width() -> usize {
        8
    }

    fn is_signed() -> bool {
        false
    }

    fn from_unaligned(unaligned: [u8; 8]) -> usize {
        u64::from_le_bytes(unaligned) as usize
    }

    fn to_unaligned(self) -> [u8; 8] {
        u64::to_le_bytes(self as u64)
    }

    fn to_unsigned(self) -> u64 {
        self as u64
    }

    fn from_unsigned(unsigned: u64) -> usize {
        unsigned as usize
    }

    fn is_less(self, other: usize) -> bool {
        self < other
    }

    fn consume_unaligned<'a>(input: &mut &'a [u8], count: usize) -> Result<&'a [[u8; 8]], Error> {
        consume_numbers(input, count)
    }

    ghost width_law = { inr (inr (inr (inl refl))) };

    ghost unsigned_law = { refl };
}

impl Int for isize {
    type Une = [u8; 8];

    type Unsigned = u64;

    ghost width = { 8 };

    ghost signed = { true };

    ghost number = { λ z. z };

    ghost une_bytes = { λ bytes. bytes };

    fn width() -> usize {
        8
    }

    fn is_signed() -> bool {
        true
    }

    fn from_unaligned(unaligned: [u8; 8]) -> isize {
        i64::from_le_bytes(unaligned) as isize
    }

    fn to_unaligned(self) -> [u8; 8] {
        i64::to_le_bytes(self as i64)
    }

    fn to_unsigned(self) -> u64 {
        self.cast_unsigned() as u64
    }

    fn from_unsigned(unsigned: u64) -> isize {
        unsigned.cast_signed() as isize
    }

    fn is_less(self, other: isize) -> bool {
        self < other
    }

    fn consume_unaligned<'a>(input: &mut &'a [u8], count: usize) -> Result<&'a [[u8; 8]], Error> {
        consume_numbers(input, count)
    }

    ghost width_law = { inr (inr (inr (inl refl))) };

    ghost unsigned_law = { refl };
}
