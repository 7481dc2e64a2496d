//! The stored rows of lists and options that are written in chunks.
use bitcode_test_support::{Got, encodes};
use std::alloc::Global;

/// As many lists of this one byte.
fn lists_of_one(alloc: Global, count: usize) -> Result<Vec<Vec<u8>>, Got> {
    let mut lists = Vec::with_capacity(alloc, count)?;
    for _ in 0..count {
        lists.push(vec![in alloc; 1]?)?;
    }
    Ok(lists)
}

/// As many ones.
fn ones(alloc: Global, count: usize) -> Result<Vec<u8>, Got> {
    let mut bytes = Vec::with_capacity(alloc, count)?;
    for _ in 0..count {
        bytes.push(1)?;
    }
    Ok(bytes)
}

/// Several times some bytes, and behind them as many of 255 as are wanted.
fn around_full_bytes(alloc: Global, parts: &[(&[u8], usize)]) -> Result<Vec<u8>, Got> {
    let mut bytes = Vec::new(alloc);
    for (part, full) in parts {
        bytes.extend_from_slice(part)?;
        for _ in 0..*full {
            bytes.push(255)?;
        }
    }
    Ok(bytes)
}

/// A chunk more begins behind 64 lists.
pub fn two_chunks_of_lists(alloc: Global) -> Result<(), Got> {
    let bytes = around_full_bytes(alloc, &[(&[65, 10], 8), (&[1, 10], 8), (&[1], 0)])?;
    encodes(alloc, &lists_of_one(alloc, 65)?, bytes.as_slice())
}

/// Lists that are longer than what a chunk's lists were so far.
pub fn longer_lists(alloc: Global) -> Result<(), Got> {
    let nine = vec![in alloc; vec![in alloc; 1]?, ones(alloc, 9)?]?;
    encodes(alloc, &nine, &[2, 1, 9, 10, 255, 3])?;
    let more = vec![in alloc; vec![in alloc; 1]?, ones(alloc, 65)?]?;
    let bytes = around_full_bytes(alloc, &[(&[2, 1, 65, 10], 8), (&[3], 0)])?;
    encodes(alloc, &more, bytes.as_slice())?;
    let large = vec![in alloc; vec![in alloc;]?, ones(alloc, 255)?]?;
    let bytes = around_full_bytes(alloc, &[(&[2, 0, 255, 6, 255, 10], 31), (&[127], 0)])?;
    encodes(alloc, &large, bytes.as_slice())?;
    let larger = vec![in alloc; vec![in alloc;]?, ones(alloc, 256)?]?;
    let bytes = around_full_bytes(alloc, &[(&[2, 0, 255, 4, 0, 1, 10], 32)])?;
    encodes(alloc, &larger, bytes.as_slice())
}

/// Two options without a value, of arrays of which no two have their place.
pub fn no_huge_arrays(alloc: Global) -> Result<(), Got> {
    let none: Vec<Option<[(); 9223372036854775808]>> = vec![in alloc; None, None]?;
    encodes(alloc, &none, &[2, 0])
}
