//! The entries of a column, as a list in decimal.
ghost use Rattle.std.specs.Prelude.{◌≤◌};

use crate::column::kinds::Kind;
use bitcode::own::decode_each;
use bitcode::{
    BoolDecoder, CowSlice, Decoder, Error, IntDecoder, LengthDecoder, NewDecoder, Shaped,
    StrDecoder, View, unpack_bytes_less_than,
};
use std::alloc::Global;
use std::fmt::Debug;

/// Reads so many values that one column holds.
fn values<'a, T: Shaped + Drop, D: NewDecoder + View<'a> + Decoder<T> + Drop>(
    alloc: Global,
    input: &mut &'a [u8],
    count: usize,
) -> Result<Vec<T>, Error> {
    let mut column = D::new(alloc);
    column.populate(input, count)?;
    decode_each(alloc, &mut column, count)
}

/// Reads so many integers that one column holds, and lists them.
fn integers<'a, T: Shaped + Drop + Debug, D: NewDecoder + View<'a> + Decoder<T> + Drop>(
    alloc: Global,
    input: &mut &'a [u8],
    count: usize,
) -> Result<String, Error> {
    let numbers = values::<T, D>(alloc, input, count)?;
    Ok(format!(in alloc; "{numbers:?}")?)
}

fn bools(alloc: Global, input: &mut &[u8], count: usize) -> Result<String, Error> {
    let mut bits: Vec<u8> = Vec::new(alloc);
    for bit in values::<bool, BoolDecoder>(alloc, input, count)? {
        bits.push(bit as u8)?;
    }
    Ok(format!(in alloc; "{bits:?}")?)
}

fn lengths(alloc: Global, input: &mut &[u8], count: usize) -> Result<String, Error> {
    let mut column = LengthDecoder::new(alloc);
    column.populate(input, count)?;
    let mut lengths: Vec<usize> = Vec::new(alloc);
    for _ in 0..count {
        lengths.push(column.decode())?;
    }
    Ok(format!(in alloc; "{lengths:?}")?)
}

/// Each text as the list of its bytes.
fn texts<'a>(alloc: Global, input: &mut &'a [u8], count: usize) -> Result<String, Error> {
    let mut texts: Vec<&[u8]> = Vec::new(alloc);
    for text in values::<&'a str, StrDecoder<'a>>(alloc, input, count)? {
        texts.push(text.as_bytes())?;
    }
    Ok(format!(in alloc; "{texts:?}")?)
}

/// The indices of so many of `N` variants.
fn variants<const N: usize>(alloc: Global, input: &mut &[u8], count: usize) -> Result<String, Error>
    requires { N ≤ 256 }
{
    let mut column = CowSlice::new(alloc);
    unpack_bytes_less_than::<N, 0>(alloc, input, count, &mut column)?;
    let variants = column.as_slice();
    Ok(format!(in alloc; "{variants:?}")?)
}

/// Reads so many entries of a column from the front of the input, and lists them.
pub fn list(alloc: Global, kind: Kind, input: &mut &[u8], count: usize) -> Result<String, Error> {
    match kind {
        Kind::Bool => bools(alloc, input, count),
        Kind::U8 => integers::<u8, IntDecoder<u8>>(alloc, input, count),
        Kind::U16 => integers::<u16, IntDecoder<u16>>(alloc, input, count),
        Kind::U32 => integers::<u32, IntDecoder<u32>>(alloc, input, count),
        Kind::U64 => integers::<u64, IntDecoder<u64>>(alloc, input, count),
        Kind::U128 => integers::<u128, IntDecoder<u128>>(alloc, input, count),
        Kind::I8 => integers::<i8, IntDecoder<i8>>(alloc, input, count),
        Kind::I16 => integers::<i16, IntDecoder<i16>>(alloc, input, count),
        Kind::I32 => integers::<i32, IntDecoder<i32>>(alloc, input, count),
        Kind::I64 => integers::<i64, IntDecoder<i64>>(alloc, input, count),
        Kind::I128 => integers::<i128, IntDecoder<i128>>(alloc, input, count),
        Kind::Length => lengths(alloc, input, count),
        Kind::Text => texts(alloc, input, count),
        Kind::Variant2 => variants::<2>(alloc, input, count),
        Kind::Variant3 => variants::<3>(alloc, input, count),
        Kind::Variant5 => variants::<5>(alloc, input, count),
        Kind::Variant6 => variants::<6>(alloc, input, count),
        Kind::Variant17 => variants::<17>(alloc, input, count),
    }
}
