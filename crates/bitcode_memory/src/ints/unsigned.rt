// Written by scripts/tables/integers.
//! The unsigned integers of 8 to 64 bits.
ghost use Rattle.std.specs.Prelude.{◌-◌, ◌^◌, pos, false, refl};
ghost use Rattle.std.proofs.Common.{inl, inr};

use crate::consume::consume_byte;
use crate::error::Error;
use crate::ints::{Int, SizedInt, SizedUInt, consume_array, consume_numbers, push_bytes};

impl SizedUInt for u8 {
    ghost width = { 1 };

    ghost value = { λ n. n };

    fn to_wide(self) -> u128 {
        self as u128
    }

    fn from_wide(wide: u128) -> u8 {
        (wide % 0x100) as u8
    }

    fn wrapping_add(self, right: u8) -> u8 {
        u8::wrapping_add(self, right)
    }

    fn wrapping_sub(self, right: u8) -> u8 {
        u8::wrapping_sub(self, right)
    }

    fn read(input: &mut &[u8]) -> Result<u8, Error> {
        consume_byte(input)
    }

    fn write(self, out: &mut Vec<u8>) -> Result<(), Error> {
        out.push(self)?;
        Ok(())
    }

    fn size() -> usize {
        1
    }

    fn push(self, out: &mut Vec<u8>) {
        out.push_reserved(self);
    }

    fn put(self, bytes: &mut [u8]) {
        bytes.copy_from_slice(&self.to_le_bytes());
    }

    ghost width_law = { inl refl };
}

impl Int for u8 {
    type Une = [u8; 1];

    type Unsigned = u8;

    ghost width = { 1 };

    ghost signed = { false };

    ghost number = { λ n. pos n };

    ghost une_bytes = { λ bytes. bytes };

    fn width() -> usize {
        1
    }

    fn is_signed() -> bool {
        false
    }

    fn from_unaligned(unaligned: [u8; 1]) -> u8 {
        u8::from_le_bytes(unaligned)
    }

    fn to_unaligned(self) -> [u8; 1] {
        u8::to_le_bytes(self)
    }

    fn to_unsigned(self) -> u8 {
        self
    }

    fn from_unsigned(unsigned: u8) -> u8 {
        unsigned
    }

    fn is_less(self, other: u8) -> bool {
        self < other
    }

    fn consume_unaligned<'a>(input: &mut &'a [u8], count: usize) -> Result<&'a [[u8; 1]], Error> {
        consume_numbers(input, count)
    }

    ghost width_law = { inl refl };

    ghost unsigned_law = { refl };
}

impl SizedInt for u8 {
    const MIN: u8 = u8::MIN;

    const MAX: u8 = u8::MAX;

    ghost MIN = { 0 };

    ghost MAX = { 256 ^ 1 - 1 };

    ghost bounds_law = { (refl, refl) };
}

impl SizedUInt for u16 {
    ghost width = { 2 };

    ghost value = { λ n. n };

    fn to_wide(self) -> u128 {
        self as u128
    }

    fn from_wide(wide: u128) -> u16 {
        (wide % 0x1_0000) as u16
    }

    fn wrapping_add(self, right: u16) -> u16 {
        u16::wrapping_add(self, right)
    }

    fn wrapping_sub(self, right: u16) -> u16 {
        u16::wrapping_sub(self, right)
    }

    fn read(input: &mut &[u8]) -> Result<u16, Error> {
        let bytes = consume_array::<2>(input)?;
        Ok(u16::from_le_bytes(bytes))
    }

    fn write(self, out: &mut Vec<u8>) -> Result<(), Error> {
        let bytes = self.to_le_bytes();
        out.extend_from_slice(&bytes)?;
        Ok(())
    }

    fn size() -> usize {
        2
    }

    fn push(self, out: &mut Vec<u8>) {
        push_bytes(&self.to_le_bytes(), out);
    }

    fn put(self, bytes: &mut [u8]) {
        bytes.copy_from_slice(&self.to_le_bytes());
    }

    ghost width_law = { inr (inl refl) };
}

impl Int for u16 {
    type Une = [u8; 2];

    type Unsigned = u16;

    ghost width = { 2 };

    ghost signed = { false };

    ghost number = { λ n. pos n };

    ghost une_bytes = { λ bytes. bytes };

    fn width() -> usize {
        2
    }

    fn is_signed() -> bool {
        false
    }

    fn from_unaligned(unaligned: [u8; 2]) -> u16 {
        u16::from_le_bytes(unaligned)
    }

    fn to_unaligned(self) -> [u8; 2] {
        u16::to_le_bytes(self)
    }

    fn to_unsigned(self) -> u16 {
        self
    }

    fn from_unsigned(unsigned: u16) -> u16 {
        unsigned
    }

    fn is_less(self, other: u16) -> bool {
        self < other
    }

    fn consume_unaligned<'a>(input: &mut &'a [u8], count: usize) -> Result<&'a [[u8; 2]], Error> {
        consume_numbers(input, count)
    }

    ghost width_law = { inr (inl refl) };

    ghost unsigned_law = { refl };
}

impl SizedInt for u16 {
    const MIN: u16 = u16::MIN;

    const MAX: u16 = u16::MAX;

    ghost MIN = { 0 };

    ghost MAX = { 256 ^ 2 - 1 };

    ghost bounds_law = { (refl, refl) };
}

impl SizedUInt for u32 {
    ghost width = { 4 };

    ghost value = { λ n. n };

    fn to_wide(self) -> u128 {
        self as u128
    }

    fn from_wide(wide: u128) -> u32 {
        (wide % 0x1_0000_0000) as u32
    }

    fn wrapping_add(self, right: u32) -> u32 {
        u32::wrapping_add(self, right)
    }

    fn wrapping_sub(self, right: u32) -> u32 {
        u32::wrapping_sub(self, right)
    }

    fn read(input: &mut &[u8]) -> Result<u32, Error> {
        let bytes = consume_array::<4>(input)?;
        Ok(u32::from_le_bytes(bytes))
    }

    fn write(self, out: &mut Vec<u8>) -> Result<(), Error> {
        let bytes = self.to_le_bytes();
        out.extend_from_slice(&bytes)?;
        Ok(())
    }

    fn size() -> usize {
        4
    }

    fn push(self, out: &mut Vec<u8>) {
        push_bytes(&self.to_le_bytes(), out);
    }

    fn put(self, bytes: &mut [u8]) {
        bytes.copy_from_slice(&self.to_le_bytes());
    }

    ghost width_law = { inr (inr (inl refl)) };
}

impl Int for u32 {
    type Une = [u8; 4];

    type Unsigned = u32;

    ghost width = { 4 };

    ghost signed = { false };

    ghost number = { λ n. pos n };

    ghost une_bytes = { λ bytes. bytes };

    fn width() -> usize {
        4
    }

    fn is_signed() -> bool {
        false
    }

    fn from_unaligned(unaligned: [u8; 4]) -> u32 {
        u32::from_le_bytes(unaligned)
    }

    fn to_unaligned(self) -> [u8; 4] {
        u32::to_le_bytes(self)
    }

    fn to_unsigned(self) -> u32 {
        self
    }

    fn from_unsigned(unsigned: u32) -> u32 {
        unsigned
    }

    fn is_less(self, other: u32) -> bool {
        self < other
    }

    fn consume_unaligned<'a>(input: &mut &'a [u8], count: usize) -> Result<&'a [[u8; 4]], Error> {
        consume_numbers(input, count)
    }

    ghost width_law = { inr (inr (inl refl)) };

    ghost unsigned_law = { refl };
}

impl SizedInt for u32 {
    const MIN: u32 = u32::MIN;

    const MAX: u32 = u32::MAX;

    ghost MIN = { 0 };

    ghost MAX = { 256 ^ 4 - 1 };

    ghost bounds_law = { (refl, refl) };
}

impl SizedUInt for u64 {
    ghost width = { 8 };

    ghost value = { λ n. n };

    fn to_wide(self) -> u128 {
        self as u128
    }

    fn from_wide(wide: u128) -> u64 {
        (wide % 0x1_0000_0000_0000_0000) as u64
    }

    fn wrapping_add(self, right: u64) -> u64 {
        u64::wrapping_add(self, right)
    }

    fn wrapping_sub(self, right: u64) -> u64 {
        u64::wrapping_sub(self, right)
    }

    fn read(input: &mut &[u8]) -> Result<u64, Error> {
        let bytes = consume_array::<8>(input)?;
        Ok(u64::from_le_bytes(bytes))
    }

    fn write(self, out: &mut Vec<u8>) -> Result<(), Error> {
        let bytes = self.to_le_bytes();
        out.extend_from_slice(&bytes)?;
        Ok(())
    }

    fn size() -> usize {
        8
    }

    fn push(self, out: &mut Vec<u8>) {
        push_bytes(&self.to_le_bytes(), out);
    }

    fn put(self, bytes: &mut [u8]) {
        bytes.copy_from_slice(&self.to_le_bytes());
    }

    ghost width_law = { inr (inr (inr (inl refl))) };
}

impl Int for u64 {
    type Une = [u8; 8];

    type Unsigned = u64;

    ghost width = { 8 };

    ghost signed = { false };

    ghost number = { λ n. pos n };

    ghost une_bytes = { λ bytes. bytes };

    fn width() -> usize {
        8
    }

    fn is_signed() -> bool {
        false
    }

    fn from_unaligned(unaligned: [u8; 8]) -> u64 {
        u64::from_le_bytes(unaligned)
    }

    fn to_unaligned(self) -> [u8; 8] {
        u64::to_le_bytes(self)
    }

    fn to_unsigned(self) -> u64 {
        self
    }

    fn from_unsigned(unsigned: u64) -> u64 {
        unsigned
    }

    fn is_less(self, other: u64) -> bool {
        self < other
    }

    fn consume_unaligned<'a>(input: &mut &'a [u8], count: usize) -> Result<&'a [[u8; 8]], Error> {
        consume_numbers(input, count)
    }

    ghost width_law = { inr (inr (inr (inl refl))) };

    ghost unsigned_law = { refl };
}

impl SizedInt for u64 {
    const MIN: u64 = u64::MIN;

    const MAX: u64 = u64::MAX;

    ghost MIN = { 0 };

    ghost MAX = { 256 ^ 8 - 1 };

    ghost bounds_law = { (refl, refl) };
}
