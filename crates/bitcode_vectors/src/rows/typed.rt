//! The stored rows of the first format. Each has one or more parts, and gives what the first wrong part gave.
use bitcode::Reason;
use bitcode_test_support::{Got, decodes, encodes, holds, refuses};
use std::alloc::Global;

pub mod arrays;
pub mod buffers;
pub mod byte_columns;
pub mod chunks;
pub mod fixed_capacity;
pub mod heaps;
pub mod lengths;
pub mod lists;
pub mod maps;
pub mod room;
pub mod sets;
pub mod strict;
pub mod tuples;
pub mod variants;

/// The unit takes no bytes.
pub fn unit(alloc: Global) -> Result<(), Got> {
    holds(alloc, (), &[], &[(&[0], Reason::ExpectedEof)])
}

/// A bool is the lowest bit of its byte.
pub fn bools(alloc: Global) -> Result<(), Got> {
    let bytes: [([u8; 1], bool); 4] = [([0], false), ([1], true), ([2], false), ([255], true)];
    for (byte, expected) in &bytes {
        decodes(alloc, byte, *expected)?;
    }
    refuses::<bool>(alloc, &[], Reason::Eof)
}

/// A pair is the column of its first field and then that of its second.
pub fn pair(alloc: Global) -> Result<(), Got> {
    encodes(alloc, &(true, 7u16), &[1, 7, 0])?;
    refuses::<(bool, u16)>(alloc, &[1, 7], Reason::Eof)
}

/// One integer of four bytes takes as few as hold it, and its tag.
pub fn words_written(alloc: Global) -> Result<(), Got> {
    let words: [(u32, &[u8]); 3] = [
        (255, &[4, 255]),
        (65535, &[2, 255, 255]),
        (65536, &[0, 0, 0, 1, 0]),
    ];
    for (word, bytes) in &words {
        encodes(alloc, word, bytes)?;
    }
    encodes(alloc, &-1i32, &[0, 255, 255, 255, 255])
}

/// Shifted integers wrap, tags over 6 are refused, and missing bytes too.
pub fn words_read(alloc: Global) -> Result<(), Got> {
    for (bytes, word) in [([3, 1, 0, 0, 0, 254], 255), ([3, 255, 255, 255, 255, 2], 1)] {
        decodes::<u32>(alloc, &bytes, word)?;
    }
    refuses::<u32>(alloc, &[5, 0], Reason::InvalidPacking)?;
    refuses::<u32>(alloc, &[4], Reason::Eof)
}

/// Arrays, tuples and pointers have the columns of what is in them.
pub fn composites(alloc: Global) -> Result<(), Got> {
    arrays::seven_signed_bytes(alloc)?;
    tuples::fields_and_pointers(alloc)
}

/// Equal elements in a set and in a heap, and a hashed map.
pub fn sets_and_heaps(alloc: Global) -> Result<(), Got> {
    sets::equal_elements(alloc)?;
    heaps::heap_of_three(alloc)?;
    maps::hashed_pair(alloc)
}
