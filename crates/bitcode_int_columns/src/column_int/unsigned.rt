// Written by scripts/tables/integers.
//! The unsigned integers.
ghost use Rattle.std.specs.Prelude.{[], ◌∷◌, pos, false, refl};
ghost use Rattle.std.proofs.Common.{inl, inr};

use crate::column_int::{ColumnInt, FEW_BYTES, pack_each_byte, unpack_each_byte};
use crate::pack_ints::single::pack_int;
use crate::pack_ints::{pack_int_slice, pack_ints};
use crate::strict::read_ints;
use bitcode_memory::error::Error;
use bitcode_memory::fast::CowSlice;
use bitcode_memory::ints::Int;
use std::alloc::Global;

impl ColumnInt for u8 {
    type Une = u8;

    ghost width = { 1 };

    ghost signed = { false };

    ghost number = { λ n. pos n };

    ghost une_bytes = { λ byte. byte ∷ [] };

    fn pack(_alloc: Global, ints: &mut [u8], out: &mut Vec<u8>) -> Result<(), Error> {
        pack_each_byte(ints, out)
    }

    fn pack_one(alloc: Global, int: u8, out: &mut Vec<u8>) -> Result<(), Error> {
        <u8 as ColumnInt>::pack(alloc, &mut [int], out)
    }

    fn pack_slice(_alloc: Global, ints: &[u8], out: &mut Vec<u8>) -> Result<bool, Error> {
        if ints.len() > FEW_BYTES {
            return Ok(false);
        }
        let mut copies = [0; FEW_BYTES];
        let few = &mut copies[..ints.len()];
        few.copy_from_slice(ints);
        pack_each_byte(few, out)?;
        Ok(true)
    }

    #[inline(always)]
    fn unpack<'a>(
        alloc: Global,
        input: &mut &'a [u8],
        count: usize,
        out: &mut CowSlice<'a, u8>,
        strict: bool,
    ) -> Result<bool, Error> {
        unpack_each_byte::<u8>(alloc, input, count, out, strict)
    }

    fn from_unaligned(unaligned: u8) -> u8 {
        <u8 as Int>::from_unaligned([unaligned])
    }

    ghost width_law = { inl refl };
}

impl ColumnInt for u16 {
    type Une = [u8; 2];

    ghost width = { 2 };

    ghost signed = { false };

    ghost number = { λ n. pos n };

    ghost une_bytes = { λ bytes. bytes };

    fn pack(alloc: Global, ints: &mut [u16], out: &mut Vec<u8>) -> Result<(), Error> {
        pack_ints(alloc, ints, out)
    }

    fn pack_one(alloc: Global, int: u16, out: &mut Vec<u8>) -> Result<(), Error> {
        <u16 as ColumnInt>::pack(alloc, &mut [int], out)
    }

    fn pack_slice(alloc: Global, ints: &[u16], out: &mut Vec<u8>) -> Result<bool, Error> {
        pack_int_slice(alloc, ints, out)?;
        Ok(true)
    }

    #[inline(always)]
    fn unpack<'a>(
        alloc: Global,
        input: &mut &'a [u8],
        count: usize,
        out: &mut CowSlice<'a, [u8; 2]>,
        strict: bool,
    ) -> Result<bool, Error> {
        read_ints::<u16>(alloc, input, count, out, strict)
    }

    fn from_unaligned(unaligned: [u8; 2]) -> u16 {
        <u16 as Int>::from_unaligned(unaligned)
    }

    ghost width_law = { inr (inl refl) };
}

impl ColumnInt for u32 {
    type Une = [u8; 4];

    ghost width = { 4 };

    ghost signed = { false };

    ghost number = { λ n. pos n };

    ghost une_bytes = { λ bytes. bytes };

    fn pack(alloc: Global, ints: &mut [u32], out: &mut Vec<u8>) -> Result<(), Error> {
        pack_ints(alloc, ints, out)
    }

    fn pack_one(_alloc: Global, int: u32, out: &mut Vec<u8>) -> Result<(), Error> {
        pack_int(int, out)
    }

    fn pack_slice(alloc: Global, ints: &[u32], out: &mut Vec<u8>) -> Result<bool, Error> {
        pack_int_slice(alloc, ints, out)?;
        Ok(true)
    }

    #[inline(always)]
    fn unpack<'a>(
        alloc: Global,
        input: &mut &'a [u8],
        count: usize,
        out: &mut CowSlice<'a, [u8; 4]>,
        strict: bool,
    ) -> Result<bool, Error> {
        read_ints::<u32>(alloc, input, count, out, strict)
    }

    fn from_unaligned(unaligned: [u8; 4]) -> u32 {
        <u32 as Int>::from_unaligned(unaligned)
    }

    ghost width_law = { inr (inr (inl refl)) };
}

impl ColumnInt for u64 {
    type Une = [u8; 8];

    ghost width = { 8 };

    ghost signed = { false };

    ghost number = { λ n. pos n };

    ghost une_bytes = { λ bytes. bytes };

    fn pack(alloc: Global, ints: &mut [u64], out: &mut Vec<u8>) -> Result<(), Error> {
        pack_ints(alloc, ints, out)
    }

    fn pack_one(_alloc: Global, int: u64, out: &mut Vec<u8>) -> Result<(), Error> {
        pack_int(int, out)
    }

    fn pack_slice(alloc: Global, ints: &[u64], out: &mut Vec<u8>) -> Result<bool, Error> {
        pack_int_slice(alloc, ints, out)?;
        Ok(true)
    }

    #[inline(always)]
    fn unpack<'a>(
        alloc: Global,
        input: &mut &'a [u8],
        count: usize,
        out: &mut CowSlice<'a, [u8; 8]>,
        strict: bool,
    ) -> Result<bool, Error> {
        read_ints::<u64>(alloc, input, count, out, strict)
    }

    fn from_unaligned(unaligned: [u8; 8]) -> u64 {
        <u64 as Int>::from_unaligned(unaligned)
    }

    ghost width_law = { inr (inr (inr (inl refl))) };
}

impl ColumnInt for u128 {
    type Une = [u8; 16];

    ghost width = { 16 };

    ghost signed = { false };

    ghost number = { λ n. pos n };

    ghost une_bytes = { λ bytes. bytes };

    fn pack(alloc: Global, ints: &mut [u128], out: &mut Vec<u8>) -> Result<(), Error> {
        pack_ints(alloc, ints, out)
    }

    fn pack_one(_alloc: Global, int: u128, out: &mut Vec<u8>) -> Result<(), Error> {
        pack_int(int, out)
    }

    fn pack_slice(alloc: Global, ints: &[u128], out: &mut Vec<u8>) -> Result<bool, Error> {
        pack_int_slice(alloc, ints, out)?;
        Ok(true)
    }

    #[inline(always)]
    fn unpack<'a>(
        alloc: Global,
        input: &mut &'a [u8],
        count: usize,
        out: &mut CowSlice<'a, [u8; 16]>,
        strict: bool,
    ) -> Result<bool, Error> {
        read_ints::<u128>(alloc, input, count, out, strict)
    }

    fn from_unaligned(unaligned: [u8; 16]) -> u128 {
        <u128 as Int>::from_unaligned(unaligned)
    }

    ghost width_law = { inr (inr (inr (inr refl))) };
}

impl ColumnInt for usize {
    type Une = [u8; 8];

    ghost width = { 8 };

    ghost signed = { false };

    ghost number = { λ n. pos n };

    ghost une_bytes = { λ bytes. bytes };

    fn pack(alloc: Global, ints: &mut [usize], out: &mut Vec<u8>) -> Result<(), Error> {
        pack_ints(alloc, ints, out)
    }

    fn pack_one(_alloc: Global, int: usize, out: &mut Vec<u8>) -> Result<(), Error> {
        pack_int(int, out)
    }

    fn pack_slice(alloc: Global, ints: &[usize], out: &mut Vec<u8>) -> Result<bool, Error> {
        pack_int_slice(alloc, ints, out)?;
        Ok(true)
    }

    #[inline(always)]
    fn unpack<'a>(
        alloc: Global,
        input: &mut &'a [u8],
        count: usize,
        out: &mut CowSlice<'a, [u8; 8]>,
        strict: bool,
    ) -> Result<bool, Error> {
        read_ints::<usize>(alloc, input, count, out, strict)
    }

    fn from_unaligned(unaligned: [u8; 8]) -> usize {
        <usize as Int>::from_unaligned(unaligned)
    }

    ghost width_law = { inr (inr (inr (inl refl))) };
}
