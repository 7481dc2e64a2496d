//! The rows of tuples, pointers, markers and UUIDs.
use crate::rows::untyped;
use bitcode_test_support::{Got, encodes};
use std::alloc::Global;
use std::marker::PhantomData;
use std::rc::RcStr;
use uuid::Uuid;

/// Sixteen bytes.
type Bytes = (
    u8,
    u8,
    u8,
    u8,
    u8,
    u8,
    u8,
    u8,
    u8,
    u8,
    u8,
    u8,
    u8,
    u8,
    u8,
    u8,
);

/// A tuple is the columns of its fields in order.
fn sixteen_bytes(alloc: Global) -> Result<(), Got> {
    let written: Bytes = (0, 1, 2, 3, 4, 5, 6, 7, 8, 9, 10, 11, 12, 13, 14, 15);
    encodes(
        alloc,
        &written,
        &[0, 1, 2, 3, 4, 5, 6, 7, 8, 9, 10, 11, 12, 13, 14, 15],
    )
}

/// A box and a shared text are written as what they point to, and a marker takes no bytes.
fn pointers(alloc: Global) -> Result<(), Got> {
    encodes(alloc, &Box::new(alloc, 123u8)?, &[123])?;
    let text = RcStr::from_str(alloc, "box")?;
    encodes(alloc, &text, &[3, 98, 111, 120])?;
    let marker: PhantomData<u8> = PhantomData;
    encodes(alloc, &marker, &[])
}

/// A tuple of sixteen fields, a box, a shared text and a marker.
pub fn fields_and_pointers(alloc: Global) -> Result<(), Got> {
    sixteen_bytes(alloc)?;
    pointers(alloc)
}

/// A UUID is the array of its sixteen bytes.
pub fn identifier(alloc: Global) -> Result<(), Got> {
    let bytes = [
        161, 162, 163, 164, 177, 178, 193, 194, 209, 210, 211, 212, 213, 214, 215, 216,
    ];
    let written = [
        0, 161, 162, 163, 164, 177, 178, 193, 194, 209, 210, 211, 212, 213, 214, 215, 216,
    ];
    encodes(alloc, &Uuid::from_bytes(bytes), &written)?;
    untyped::sequences::signed_bytes(alloc)
}
