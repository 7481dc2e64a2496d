// Written by scripts/tables/integers.
//! The integers of 128 bits.
ghost use Rattle.std.specs.Prelude.{◌-◌, ◌/◌, ◌^◌, pos, negsuc, true, false, refl};
ghost use Rattle.std.proofs.Common.{inr};

use crate::error::Error;
use crate::ints::{Int, SizedInt, SizedUInt, consume_array, consume_numbers, push_bytes};

impl SizedUInt for u128 {
    ghost width = { 16 };

    ghost value = { λ n. n };

    fn to_wide(self) -> u128 {
        self
    }

    fn from_wide(wide: u128) -> u128 {
        wide
    }

    fn wrapping_add(self, right: u128) -> u128 {
        u128::wrapping_add(self, right)
    }

    fn wrapping_sub(self, right: u128) -> u128 {
        u128::wrapping_sub(self, right)
    }

    fn read(input: &mut &[u8]) -> Result<u128, Error> {
        let bytes = consume_array::<16>(input)?;
        Ok(u128::from_le_bytes(bytes))
    }

    fn write(self, out: &mut Vec<u8>) -> Result<(), Error> {
        let bytes = self.to_le_bytes();
        out.extend_from_slice(&bytes)?;
        Ok(())
    }

    fn size() -> usize {
        16
    }

    fn push(self, out: &mut Vec<u8>) {
        push_bytes(&self.to_le_bytes(), out);
    }

    fn put(self, bytes: &mut [u8]) {
        bytes.copy_from_slice(&self.to_le_bytes());
    }

    ghost width_law = { inr (inr (inr (inr refl))) };
}

impl Int for u128 {
    type Une = [u8; 16];

    type Unsigned = u128;

    ghost width = { 16 };

    ghost signed = { false };

    ghost number = { λ n. pos n };

    ghost une_bytes = { λ bytes. bytes };

    fn width() -> usize {
        16
    }

    fn is_signed() -> bool {
        false
    }

    fn from_unaligned(unaligned: [u8; 16]) -> u128 {
        u128::from_le_bytes(unaligned)
    }

    fn to_unaligned(self) -> [u8; 16] {
        u128::to_le_bytes(self)
    }

    fn to_unsigned(self) -> u128 {
        self
    }

    fn from_unsigned(unsigned: u128) -> u128 {
        unsigned
    }

    fn is_less(self, other: u128) -> bool {
        self < other
    }

    fn consume_unaligned<'a>(input: &mut &'a [u8], count: usize) -> Result<&'a [[u8; 16]], Error> {
        consume_numbers(input, count)
    }

    ghost width_law = { inr (inr (inr (inr refl))) };

    ghost unsigned_law = { refl };
}

impl SizedInt for u128 {
    const MIN: u128 = u128::MIN;

    const MAX: u128 = u128::MAX;

    ghost MIN = { 0 };

    ghost MAX = { 256 ^ 16 - 1 };

    ghost bounds_law = { (refl, refl) };
}

impl Int for i128 {
    type Une = [u8; 16];

    type Unsigned = u128;

    ghost width = { 16 };

    ghost signed = { true };

    ghost number = { λ z. z };

    ghost une_bytes = { λ bytes. bytes };

    fn width() -> usize {
        16
    }

    fn is_signed() -> bool {
        true
    }

    fn from_unaligned(unaligned: [u8; 16]) -> i128 {
        i128::from_le_bytes(unaligned)
    }

    fn to_unaligned(self) -> [u8; 16] {
        i128::to_le_bytes(self)
    }

    fn to_unsigned(self) -> u128 {
        self.cast_unsigned()
    }

    fn from_unsigned(unsigned: u128) -> i128 {
        unsigned.cast_signed()
    }

    fn is_less(self, other: i128) -> bool {
        self < other
    }

    fn consume_unaligned<'a>(input: &mut &'a [u8], count: usize) -> Result<&'a [[u8; 16]], Error> {
        consume_numbers(input, count)
    }

    ghost width_law = { inr (inr (inr (inr refl))) };

    ghost unsigned_law = { refl };
}

impl SizedInt for i128 {
    const MIN: i128 = i128::MIN;

    const MAX: i128 = i128::MAX;

    ghost MIN = { negsuc (256 ^ 16 / 2 - 1) };

    ghost MAX = { pos (256 ^ 16 / 2 - 1) };

    ghost bounds_law = { (refl, refl) };
}
