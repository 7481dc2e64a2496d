//! The rows of byte columns.
use bitcode::Reason;
use bitcode_test_support::Got;
use bitcode_test_support::byte_columns::{packs_bytes, unpack_bytes_refuses};
use std::alloc::Global;

/// Bytes are packed in the base that they need, and without the least where that needs a smaller one.
pub fn bytes_packed(alloc: Global) -> Result<(), Got> {
    packs_bytes(alloc, &mut [1u8, 2, 3, 4, 5, 6, 7], &[2, 33, 67, 101, 7])?;
    packs_bytes(
        alloc,
        &mut [201u8, 202, 203, 204, 205, 206, 207],
        &[1, 201, 16, 50, 84, 6],
    )?;
    packs_bytes(
        alloc,
        &mut [201u8, 202, 203, 204, 205],
        &[0, 201, 202, 203, 204, 205],
    )?;
    packs_bytes(
        alloc,
        &mut [-3i8, -2, -1, 0, 1, 2, 3],
        &[1, 253, 16, 50, 84, 6],
    )
}

/// A tag that no byte column has, and a missing least byte.
pub fn bytes_unpacked(alloc: Global) -> Result<(), Got> {
    unpack_bytes_refuses(alloc, &[255], 5, Reason::InvalidPacking)?;
    unpack_bytes_refuses(alloc, &[1], 5, Reason::Eof)
}
