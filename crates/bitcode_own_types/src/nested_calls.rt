//! Calls that decode a tuple of 16 fields and deeply nested lists, and encode the lists again. All are proved.

use bitcode::{Decode, Encode, Error, decode, encode};
use std::alloc::Global;

/// Sixteen fields, the most that a tuple may have.
pub type Sixteen = (
    u8,
    u8,
    u8,
    u8,
    u8,
    u8,
    u8,
    u8,
    u8,
    u8,
    u8,
    u8,
    u8,
    u8,
    u8,
    u8,
);

/// Options of nine numbers.
pub type Options = Vec<Option<(u64, u64, u64, u64, u64, u64, u64, u64, u64)>>;

/// Lists in lists, six deep.
pub type Deep = Vec<Vec<Vec<Vec<Vec<Vec<u8>>>>>>;

/// Reads sixteen bytes. `bitcode_vectors` has a row that writes them.
pub fn sixteen(alloc: Global, bytes: &[u8]) -> Result<Sixteen, Error> {
    decode(alloc, bytes)
}

/// Reads options of nine numbers each, and writes them again.
pub fn options(alloc: Global, bytes: &[u8]) -> Result<Vec<u8>, Error> {
    let options: Options = decode(alloc, bytes)?;
    encode(alloc, &options)
}

/// Reads lists in lists, six deep, and writes them again.
pub fn deep(alloc: Global, bytes: &[u8]) -> Result<Vec<u8>, Error> {
    let lists: Deep = decode(alloc, bytes)?;
    encode(alloc, &lists)
}

/// Reads records of any type, and writes them again.
pub fn all_of<'a, R: Drop>(alloc: Global, bytes: &'a [u8]) -> Result<Vec<u8>, Error>
where
    Vec<R>: Decode<'a> + Encode,
{
    let records: Vec<R> = decode(alloc, bytes)?;
    encode(alloc, &records)
}
