//! The rows of length columns.
use bitcode::Reason;
use bitcode_test_support::Got;
use bitcode_test_support::lengths::{reads_lengths, refuses_lengths, writes_lengths};
use std::alloc::Global;

/// A large length stands behind the bytes of all lengths.
pub fn lengths_written(alloc: Global) -> Result<(), Got> {
    writes_lengths(alloc, &[1, 255, 2], &[0, 1, 255, 2, 6, 255])?;
    reads_lengths(alloc, &[0, 1, 255, 2, 6, 255], &[1, 255, 2], 0)
}

/// The greatest length that is read, and the least that is huge.
pub fn lengths_read(alloc: Global) -> Result<(), Got> {
    let greatest = [255, 0, 254, 255, 255, 255, 255, 255, 7, 0];
    reads_lengths(alloc, &greatest, &[2251799813685246], 0)?;
    let huge = [255, 0, 255, 255, 255, 255, 255, 255, 7, 0];
    refuses_lengths(alloc, &huge, 1, Reason::HugeLength)
}
