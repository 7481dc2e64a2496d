//! The stored rows of vectors and texts of a fixed capacity.
use arrayvec::{ArrayString, ArrayVec};
use bitcode::{Reason, decode};
use bitcode_test_support::{Got, decodes, encodes, refuses};
use std::alloc::Global;

/// What was read is this.
fn is(same: bool) -> Result<(), Got> {
    if same { Ok(()) } else { Err(Got::AnotherValue) }
}

/// A vector of two fits capacity two and more; below capacity 255 no length is an escape.
pub fn two_bytes(alloc: Global) -> Result<(), Got> {
    let two: ArrayVec<u8, 2> = decode(alloc, &[2, 0, 1])?;
    is(two.as_slice() == [0, 1].as_slice())?;
    refuses::<ArrayVec<u8, 1>>(alloc, &[2, 0, 1], Reason::InvalidArrayVec)?;
    let escaped = [255, 6, 2, 0, 1];
    decodes::<Vec<u8>>(alloc, &escaped, vec![in alloc; 0, 1]?)?;
    refuses::<ArrayVec<u8, 2>>(alloc, &escaped, Reason::InvalidArrayVec)?;
    let large: ArrayVec<u8, 500> = decode(alloc, &escaped)?;
    is(large.as_slice() == [0, 1].as_slice())
}

/// A full vector of five hundred bytes is too long for one of less.
pub fn five_hundred_bytes(alloc: Global) -> Result<(), Got> {
    let mut full: ArrayVec<u8, 500> = ArrayVec::new();
    let mut bytes = vec![in alloc; 255, 4, 244, 1, 0]?;
    for place in 0..500u64 {
        let byte = (place % 256) as u8;
        let _room = full.try_push(byte);
        bytes.push(byte)?;
    }
    encodes(alloc, &full, bytes.as_slice())?;
    refuses::<ArrayVec<u8, 499>>(alloc, bytes.as_slice(), Reason::InvalidArrayVec)
}

/// A text of two bytes is one of at most two, and of at most three.
pub fn two_letters(alloc: Global) -> Result<(), Got> {
    let exact: ArrayString<2> = decode(alloc, &[2, 48, 49])?;
    is(exact.as_str() == "01")?;
    refuses::<ArrayString<1>>(alloc, &[2, 48, 49], Reason::InvalidArrayString)?;
    let larger: ArrayString<3> = decode(alloc, &[2, 48, 49])?;
    is(larger.as_str() == "01")?;
    let none: ArrayVec<u8, 0> = decode(alloc, &[0])?;
    is(none.is_empty())
}
