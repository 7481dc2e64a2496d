// Written by scripts/tables/integers.
//! The signed integers of 8 to 64 bits.
ghost use Rattle.std.specs.Prelude.{◌-◌, ◌/◌, ◌^◌, pos, negsuc, true, refl};
ghost use Rattle.std.proofs.Common.{inl, inr};

use crate::error::Error;
use crate::ints::{Int, SizedInt, consume_numbers};

impl Int for i8 {
    type Une = [u8; 1];

    type Unsigned = u8;

    ghost width = { 1 };

    ghost signed = { true };

    ghost number = { λ z. z };

    ghost une_bytes = { λ bytes. bytes };

    fn width() -> usize {
        1
    }

    fn is_signed() -> bool {
        true
    }

    fn from_unaligned(unaligned: [u8; 1]) -> i8 {
        i8::from_le_bytes(unaligned)
    }

    fn to_unaligned(self) -> [u8; 1] {
        i8::to_le_bytes(self)
    }

    fn to_unsigned(self) -> u8 {
        self.cast_unsigned()
    }

    fn from_unsigned(unsigned: u8) -> i8 {
        unsigned.cast_signed()
    }

    fn is_less(self, other: i8) -> bool {
        self < other
    }

    fn consume_unaligned<'a>(input: &mut &'a [u8], count: usize) -> Result<&'a [[u8; 1]], Error> {
        consume_numbers(input, count)
    }

    ghost width_law = { inl refl };

    ghost unsigned_law = { refl };
}

impl SizedInt for i8 {
    const MIN: i8 = i8::MIN;

    const MAX: i8 = i8::MAX;

    ghost MIN = { negsuc (256 ^ 1 / 2 - 1) };

    ghost MAX = { pos (256 ^ 1 / 2 - 1) };

    ghost bounds_law = { (refl, refl) };
}

impl Int for i16 {
    type Une = [u8; 2];

    type Unsigned = u16;

    ghost width = { 2 };

    ghost signed = { true };

    ghost number = { λ z. z };

    ghost une_bytes = { λ bytes. bytes };

    fn width() -> usize {
        2
    }

    fn is_signed() -> bool {
        true
    }

    fn from_unaligned(unaligned: [u8; 2]) -> i16 {
        i16::from_le_bytes(unaligned)
    }

    fn to_unaligned(self) -> [u8; 2] {
        i16::to_le_bytes(self)
    }

    fn to_unsigned(self) -> u16 {
        self.cast_unsigned()
    }

    fn from_unsigned(unsigned: u16) -> i16 {
        unsigned.cast_signed()
    }

    fn is_less(self, other: i16) -> bool {
        self < other
    }

    fn consume_unaligned<'a>(input: &mut &'a [u8], count: usize) -> Result<&'a [[u8; 2]], Error> {
        consume_numbers(input, count)
    }

    ghost width_law = { inr (inl refl) };

    ghost unsigned_law = { refl };
}

impl SizedInt for i16 {
    const MIN: i16 = i16::MIN;

    const MAX: i16 = i16::MAX;

    ghost MIN = { negsuc (256 ^ 2 / 2 - 1) };

    ghost MAX = { pos (256 ^ 2 / 2 - 1) };

    ghost bounds_law = { (refl, refl) };
}

impl Int for i32 {
    type Une = [u8; 4];

    type Unsigned = u32;

    ghost width = { 4 };

    ghost signed = { true };

    ghost number = { λ z. z };

    ghost une_bytes = { λ bytes. bytes };

    fn width() -> usize {
        4
    }

    fn is_signed() -> bool {
        true
    }

    fn from_unaligned(unaligned: [u8; 4]) -> i32 {
        i32::from_le_bytes(unaligned)
    }

    fn to_unaligned(self) -> [u8; 4] {
        i32::to_le_bytes(self)
    }

    fn to_unsigned(self) -> u32 {
        self.cast_unsigned()
    }

    fn from_unsigned(unsigned: u32) -> i32 {
        unsigned.cast_signed()
    }

    fn is_less(self, other: i32) -> bool {
        self < other
    }

    fn consume_unaligned<'a>(input: &mut &'a [u8], count: usize) -> Result<&'a [[u8; 4]], Error> {
        consume_numbers(input, count)
    }

    ghost width_law = { inr (inr (inl refl)) };

    ghost unsigned_law = { refl };
}

impl SizedInt for i32 {
    const MIN: i32 = i32::MIN;

    const MAX: i32 = i32::MAX;

    ghost MIN = { negsuc (256 ^ 4 / 2 - 1) };

    ghost MAX = { pos (256 ^ 4 / 2 - 1) };

    ghost bounds_law = { (refl, refl) };
}

impl Int for i64 {
    type Une = [u8; 8];

    type Unsigned = u64;

    ghost width = { 8 };

    ghost signed = { true };

    ghost number = { λ z. z };

    ghost une_bytes = { λ bytes. bytes };

    fn width() -> usize {
        8
    }

    fn is_signed() -> bool {
        true
    }

    fn from_unaligned(unaligned: [u8; 8]) -> i64 {
        i64::from_le_bytes(unaligned)
    }

    fn to_unaligned(self) -> [u8; 8] {
        i64::to_le_bytes(self)
    }

    fn to_unsigned(self) -> u64 {
        self.cast_unsigned()
    }

    fn from_unsigned(unsigned: u64) -> i64 {
        unsigned.cast_signed()
    }

    fn is_less(self, other: i64) -> bool {
        self < other
    }

    fn consume_unaligned<'a>(input: &mut &'a [u8], count: usize) -> Result<&'a [[u8; 8]], Error> {
        consume_numbers(input, count)
    }

    ghost width_law = { inr (inr (inr (inl refl))) };

    ghost unsigned_law = { refl };
}

impl SizedInt for i64 {
    const MIN: i64 = i64::MIN;

    const MAX: i64 = i64::MAX;

    ghost MIN = { negsuc (256 ^ 8 / 2 - 1) };

    ghost MAX = { pos (256 ^ 8 / 2 - 1) };

    ghost bounds_law = { (refl, refl) };
}
