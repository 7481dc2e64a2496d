// Written by scripts/tables/integers.
//! The signed integers.
ghost use Rattle.std.specs.Prelude.{[], ◌∷◌, true, refl};
ghost use Rattle.std.proofs.Common.{inl, inr};

use crate::column_int::{ColumnInt, FEW_BYTES, pack_each_byte, unpack_each_byte};
use crate::pack_ints::single::pack_int;
use crate::pack_ints::{pack_int_slice, pack_ints};
use crate::strict::read_ints;
use bitcode_memory::error::Error;
use bitcode_memory::fast::CowSlice;
use bitcode_memory::ints::Int;
use std::alloc::Global;

impl ColumnInt for i8 {
    type Une = u8;

    ghost width = { 1 };

    ghost signed = { true };

    ghost number = { λ z. z };

    ghost une_bytes = { λ byte. byte ∷ [] };

    fn pack(_alloc: Global, ints: &mut [i8], out: &mut Vec<u8>) -> Result<(), Error> {
        pack_each_byte(ints, out)
    }

    fn pack_one(alloc: Global, int: i8, out: &mut Vec<u8>) -> Result<(), Error> {
        <i8 as ColumnInt>::pack(alloc, &mut [int], out)
    }

    fn pack_slice(_alloc: Global, ints: &[i8], out: &mut Vec<u8>) -> Result<bool, Error> {
        if ints.len() > FEW_BYTES {
            return Ok(false);
        }
        let mut copies = [0; FEW_BYTES];
        let few = &mut copies[..ints.len()];
        few.copy_from_slice(ints);
        pack_each_byte(few, out)?;
        Ok(true)
    }

    #[inline(always)]
    fn unpack<'a>(
        alloc: Global,
        input: &mut &'a [u8],
        count: usize,
        out: &mut CowSlice<'a, u8>,
        strict: bool,
    ) -> Result<bool, Error> {
        unpack_each_byte::<i8>(alloc, input, count, out, strict)
    }

    fn from_unaligned(unaligned: u8) -> i8 {
        <i8 as Int>::from_unaligned([unaligned])
    }

    ghost width_law = { inl refl };
}

impl ColumnInt for i16 {
    type Une = [u8; 2];

    ghost width = { 2 };

    ghost signed = { true };

    ghost number = { λ z. z };

    ghost une_bytes = { λ bytes. bytes };

    fn pack(alloc: Global, ints: &mut [i16], out: &mut Vec<u8>) -> Result<(), Error> {
        pack_ints(alloc, ints, out)
    }

    fn pack_one(alloc: Global, int: i16, out: &mut Vec<u8>) -> Result<(), Error> {
        <i16 as ColumnInt>::pack(alloc, &mut [int], out)
    }

    fn pack_slice(alloc: Global, ints: &[i16], out: &mut Vec<u8>) -> Result<bool, Error> {
        pack_int_slice(alloc, ints, out)?;
        Ok(true)
    }

    #[inline(always)]
    fn unpack<'a>(
        alloc: Global,
        input: &mut &'a [u8],
        count: usize,
        out: &mut CowSlice<'a, [u8; 2]>,
        strict: bool,
    ) -> Result<bool, Error> {
        read_ints::<i16>(alloc, input, count, out, strict)
    }

    fn from_unaligned(unaligned: [u8; 2]) -> i16 {
        <i16 as Int>::from_unaligned(unaligned)
    }

    ghost width_law = { inr (inl refl) };
}

impl ColumnInt for i32 {
    type Une = [u8; 4];

    ghost width = { 4 };

    ghost signed = { true };

    ghost number = { λ z. z };

    ghost une_bytes = { λ bytes. bytes };

    fn pack(alloc: Global, ints: &mut [i32], out: &mut Vec<u8>) -> Result<(), Error> {
        pack_ints(alloc, ints, out)
    }

    fn pack_one(_alloc: Global, int: i32, out: &mut Vec<u8>) -> Result<(), Error> {
        pack_int(int, out)
    }

    fn pack_slice(alloc: Global, ints: &[i32], out: &mut Vec<u8>) -> Result<bool, Error> {
        pack_int_slice(alloc, ints, out)?;
        Ok(true)
    }

    #[inline(always)]
    fn unpack<'a>(
        alloc: Global,
        input: &mut &'a [u8],
        count: usize,
        out: &mut CowSlice<'a, [u8; 4]>,
        strict: bool,
    ) -> Result<bool, Error> {
        read_ints::<i32>(alloc, input, count, out, strict)
    }

    fn from_unaligned(unaligned: [u8; 4]) -> i32 {
        <i32 as Int>::from_unaligned(unaligned)
    }

    ghost width_law = { inr (inr (inl refl)) };
}

impl ColumnInt for i64 {
    type Une = [u8; 8];

    ghost width = { 8 };

    ghost signed = { true };

    ghost number = { λ z. z };

    ghost une_bytes = { λ bytes. bytes };

    fn pack(alloc: Global, ints: &mut [i64], out: &mut Vec<u8>) -> Result<(), Error> {
        pack_ints(alloc, ints, out)
    }

    fn pack_one(_alloc: Global, int: i64, out: &mut Vec<u8>) -> Result<(), Error> {
        pack_int(int, out)
    }

    fn pack_slice(alloc: Global, ints: &[i64], out: &mut Vec<u8>) -> Result<bool, Error> {
        pack_int_slice(alloc, ints, out)?;
        Ok(true)
    }

    #[inline(always)]
    fn unpack<'a>(
        alloc: Global,
        input: &mut &'a [u8],
        count: usize,
        out: &mut CowSlice<'a, [u8; 8]>,
        strict: bool,
    ) -> Result<bool, Error> {
        read_ints::<i64>(alloc, input, count, out, strict)
    }

    fn from_unaligned(unaligned: [u8; 8]) -> i64 {
        <i64 as Int>::from_unaligned(unaligned)
    }

    ghost width_law = { inr (inr (inr (inl refl))) };
}

impl ColumnInt for i128 {
    type Une = [u8; 16];

    ghost width = { 16 };

    ghost signed = { true };

    ghost number = { λ z. z };

    ghost une_bytes = { λ bytes. bytes };

    fn pack(alloc: Global, ints: &mut [i128], out: &mut Vec<u8>) -> Result<(), Error> {
        pack_ints(alloc, ints, out)
    }

    fn pack_one(_alloc: Global, int: i128, out: &mut Vec<u8>) -> Result<(), Error> {
        pack_int(int, out)
    }

    fn pack_slice(alloc: Global, ints: &[i128], out: &mut Vec<u8>) -> Result<bool, Error> {
        pack_int_slice(alloc, ints, out)?;
        Ok(true)
    }

    #[inline(always)]
    fn unpack<'a>(
        alloc: Global,
        input: &mut &'a [u8],
        count: usize,
        out: &mut CowSlice<'a, [u8; 16]>,
        strict: bool,
    ) -> Result<bool, Error> {
        read_ints::<i128>(alloc, input, count, out, strict)
    }

    fn from_unaligned(unaligned: [u8; 16]) -> i128 {
        <i128 as Int>::from_unaligned(unaligned)
    }

    ghost width_law = { inr (inr (inr (inr refl))) };
}

impl ColumnInt for isize {
    type Une = [u8; 8];

    ghost width = { 8 };

    ghost signed = { true };

    ghost number = { λ z. z };

    ghost une_bytes = { λ bytes. bytes };

    fn pack(alloc: Global, ints: &mut [isize], out: &mut Vec<u8>) -> Result<(), Error> {
        pack_ints(alloc, ints, out)
    }

    fn pack_one(_alloc: Global, int: isize, out: &mut Vec<u8>) -> Result<(), Error> {
        pack_int(int, out)
    }

    fn pack_slice(alloc: Global, ints: &[isize], out: &mut Vec<u8>) -> Result<bool, Error> {
        pack_int_slice(alloc, ints, out)?;
        Ok(true)
    }

    #[inline(always)]
    fn unpack<'a>(
        alloc: Global,
        input: &mut &'a [u8],
        count: usize,
        out: &mut CowSlice<'a, [u8; 8]>,
        strict: bool,
    ) -> Result<bool, Error> {
        read_ints::<isize>(alloc, input, count, out, strict)
    }

    fn from_unaligned(unaligned: [u8; 8]) -> isize {
        <isize as Int>::from_unaligned(unaligned)
    }

    ghost width_law = { inr (inr (inr (inl refl))) };
}
