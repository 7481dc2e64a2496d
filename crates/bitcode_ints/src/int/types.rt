// Written by scripts/tables/integers.
//! Integers, which are written unchanged.
ghost use Rattle.std.specs.Prelude.{refl};

use crate::int::{AsInt, Integer, list_of_bytes, one_int, push_themselves, write_themselves};
use bitcode_memory::error::Error;
use bitcode_memory::fast::{CowSlice, FastVec};
use std::alloc::Global;

impl AsInt<u8> for u8 {
    fn to_int(&self) -> u8 {
        *self
    }

    fn push_ints(values: &[u8], ints: &mut FastVec<u8>) {
        push_themselves(values, ints);
    }

    fn write_ints(alloc: Global, values: &[u8], out: &mut Vec<u8>) -> Result<bool, Error> {
        write_themselves(alloc, values, out)
    }

    ghost as_int_columns = { λ ds. refl };
}

impl Integer for u8 {
    fn list_unchecked<'a>(
        alloc: Global,
        bytes: &mut CowSlice<'a, u8>,
        n: usize,
    ) -> Result<Vec<u8>, Error> {
        list_of_bytes(alloc, bytes, n)
    }

    #[inline(always)]
    fn read_int(alloc: Global, input: &mut &[u8]) -> Option<u8> {
        one_int::<u8>(alloc, input)
    }

    ghost integer_shape = { refl };

    ghost integer_makes = { λ t. refl };
}

impl AsInt<u16> for u16 {
    fn to_int(&self) -> u16 {
        *self
    }

    fn push_ints(values: &[u16], ints: &mut FastVec<u16>) {
        push_themselves(values, ints);
    }

    fn write_ints(alloc: Global, values: &[u16], out: &mut Vec<u8>) -> Result<bool, Error> {
        write_themselves(alloc, values, out)
    }

    ghost as_int_columns = { λ ds. refl };
}

impl Integer for u16 {
    #[inline(always)]
    fn read_int(alloc: Global, input: &mut &[u8]) -> Option<u16> {
        one_int::<u16>(alloc, input)
    }

    ghost integer_shape = { refl };

    ghost integer_makes = { λ t. refl };
}

impl AsInt<u32> for u32 {
    fn to_int(&self) -> u32 {
        *self
    }

    fn push_ints(values: &[u32], ints: &mut FastVec<u32>) {
        push_themselves(values, ints);
    }

    fn write_ints(alloc: Global, values: &[u32], out: &mut Vec<u8>) -> Result<bool, Error> {
        write_themselves(alloc, values, out)
    }

    ghost as_int_columns = { λ ds. refl };
}

impl Integer for u32 {
    #[inline(always)]
    fn read_int(alloc: Global, input: &mut &[u8]) -> Option<u32> {
        one_int::<u32>(alloc, input)
    }

    ghost integer_shape = { refl };

    ghost integer_makes = { λ t. refl };
}

impl AsInt<u64> for u64 {
    fn to_int(&self) -> u64 {
        *self
    }

    fn push_ints(values: &[u64], ints: &mut FastVec<u64>) {
        push_themselves(values, ints);
    }

    fn write_ints(alloc: Global, values: &[u64], out: &mut Vec<u8>) -> Result<bool, Error> {
        write_themselves(alloc, values, out)
    }

    ghost as_int_columns = { λ ds. refl };
}

impl Integer for u64 {
    #[inline(always)]
    fn read_int(alloc: Global, input: &mut &[u8]) -> Option<u64> {
        one_int::<u64>(alloc, input)
    }

    ghost integer_shape = { refl };

    ghost integer_makes = { λ t. refl };
}

impl AsInt<u128> for u128 {
    fn to_int(&self) -> u128 {
        *self
    }

    fn push_ints(values: &[u128], ints: &mut FastVec<u128>) {
        push_themselves(values, ints);
    }

    fn write_ints(alloc: Global, values: &[u128], out: &mut Vec<u8>) -> Result<bool, Error> {
        write_themselves(alloc, values, out)
    }

    ghost as_int_columns = { λ ds. refl };
}

impl Integer for u128 {
    #[inline(always)]
    fn read_int(alloc: Global, input: &mut &[u8]) -> Option<u128> {
        one_int::<u128>(alloc, input)
    }

    ghost integer_shape = { refl };

    ghost integer_makes = { λ t. refl };
}

impl AsInt<usize> for usize {
    fn to_int(&self) -> usize {
        *self
    }

    fn push_ints(values: &[usize], ints: &mut FastVec<usize>) {
        push_themselves(values, ints);
    }

    fn write_ints(alloc: Global, values: &[usize], out: &mut Vec<u8>) -> Result<bool, Error> {
        write_themselves(alloc, values, out)
    }

    ghost as_int_columns = { λ ds. refl };
}

impl Integer for usize {
    #[inline(always)]
    fn read_int(alloc: Global, input: &mut &[u8]) -> Option<usize> {
        one_int::<usize>(alloc, input)
    }

    ghost integer_shape = { refl };

    ghost integer_makes = { λ t. refl };
}

impl AsInt<i8> for i8 {
    fn to_int(&self) -> i8 {
        *self
    }

    fn push_ints(values: &[i8], ints: &mut FastVec<i8>) {
        push_themselves(values, ints);
    }

    fn write_ints(alloc: Global, values: &[i8], out: &mut Vec<u8>) -> Result<bool, Error> {
        write_themselves(alloc, values, out)
    }

    ghost as_int_columns = { λ ds. refl };
}

impl Integer for i8 {
    #[inline(always)]
    fn read_int(alloc: Global, input: &mut &[u8]) -> Option<i8> {
        one_int::<i8>(alloc, input)
    }

    ghost integer_shape = { refl };

    ghost integer_makes = { λ t. refl };
}

impl AsInt<i16> for i16 {
    fn to_int(&self) -> i16 {
        *self
    }

    fn push_ints(values: &[i16], ints: &mut FastVec<i16>) {
        push_themselves(values, ints);
    }

    fn write_ints(alloc: Global, values: &[i16], out: &mut Vec<u8>) -> Result<bool, Error> {
        write_themselves(alloc, values, out)
    }

    ghost as_int_columns = { λ ds. refl };
}

impl Integer for i16 {
    #[inline(always)]
    fn read_int(alloc: Global, input: &mut &[u8]) -> Option<i16> {
        one_int::<i16>(alloc, input)
    }

    ghost integer_shape = { refl };

    ghost integer_makes = { λ t. refl };
}

impl AsInt<i32> for i32 {
    fn to_int(&self) -> i32 {
        *self
    }

    fn push_ints(values: &[i32], ints: &mut FastVec<i32>) {
        push_themselves(values, ints);
    }

    fn write_ints(alloc: Global, values: &[i32], out: &mut Vec<u8>) -> Result<bool, Error> {
        write_themselves(alloc, values, out)
    }

    ghost as_int_columns = { λ ds. refl };
}

impl Integer for i32 {
    #[inline(always)]
    fn read_int(alloc: Global, input: &mut &[u8]) -> Option<i32> {
        one_int::<i32>(alloc, input)
    }

    ghost integer_shape = { refl };

    ghost integer_makes = { λ t. refl };
}

impl AsInt<i64> for i64 {
    fn to_int(&self) -> i64 {
        *self
    }

    fn push_ints(values: &[i64], ints: &mut FastVec<i64>) {
        push_themselves(values, ints);
    }

    fn write_ints(alloc: Global, values: &[i64], out: &mut Vec<u8>) -> Result<bool, Error> {
        write_themselves(alloc, values, out)
    }

    ghost as_int_columns = { λ ds. refl };
}

impl Integer for i64 {
    #[inline(always)]
    fn read_int(alloc: Global, input: &mut &[u8]) -> Option<i64> {
        one_int::<i64>(alloc, input)
    }

    ghost integer_shape = { refl };

    ghost integer_makes = { λ t. refl };
}

impl AsInt<i128> for i128 {
    fn to_int(&self) -> i128 {
        *self
    }

    fn push_ints(values: &[i128], ints: &mut FastVec<i128>) {
        push_themselves(values, ints);
    }

    fn write_ints(alloc: Global, values: &[i128], out: &mut Vec<u8>) -> Result<bool, Error> {
        write_themselves(alloc, values, out)
    }

    ghost as_int_columns = { λ ds. refl };
}

impl Integer for i128 {
    #[inline(always)]
    fn read_int(alloc: Global, input: &mut &[u8]) -> Option<i128> {
        one_int::<i128>(alloc, input)
    }

    ghost integer_shape = { refl };

    ghost integer_makes = { λ t. refl };
}

impl AsInt<isize> for isize {
    fn to_int(&self) -> isize {
        *self
    }

    fn push_ints(values: &[isize], ints: &mut FastVec<isize>) {
        push_themselves(values, ints);
    }

    fn write_ints(alloc: Global, values: &[isize], out: &mut Vec<u8>) -> Result<bool, Error> {
        write_themselves(alloc, values, out)
    }

    ghost as_int_columns = { λ ds. refl };
}

impl Integer for isize {
    #[inline(always)]
    fn read_int(alloc: Global, input: &mut &[u8]) -> Option<isize> {
        one_int::<isize>(alloc, input)
    }

    ghost integer_shape = { refl };

    ghost integer_makes = { λ t. refl };
}
