//! The stored rows of vectors and slices.
use bitcode::Reason;
use bitcode_test_support::{Got, encodes, refuses};
use std::alloc::Global;

/// Seven integers are shifted by their least one, the first five of them stand raw.
pub fn shifted_integers(alloc: Global) -> Result<(), Got> {
    let waves: Vec<i16> = vec![in alloc; 0, -1, 0, -1, 0, -1, 0]?;
    encodes(alloc, &waves, &[7, 1, 255, 255, 10, 85])?;
    let five: Vec<i16> = vec![in alloc; 0, -1, 0, -1, 0]?;
    let raw = [5, 0, 0, 0, 255, 255, 0, 0, 255, 255, 0, 0];
    encodes(alloc, &five, &raw)
}

/// The bytes of a row: some that come first, and then as many more of one value.
fn bytes_of(alloc: Global, first: &[u8], more: u8, count: usize) -> Result<Vec<u8>, Got> {
    let mut bytes = Vec::with_capacity(alloc, count)?;
    bytes.extend_from_slice(first)?;
    for _ in 0..count {
        bytes.push(more)?;
    }
    Ok(bytes)
}

/// A length of 255 is an escape, and 255 bools take 32 bytes.
pub fn many_bools(alloc: Global) -> Result<(), Got> {
    let mut trues: Vec<bool> = Vec::with_capacity(alloc, 255)?;
    for _ in 0..255 {
        trues.push(true)?;
    }
    let mut bytes = bytes_of(alloc, &[255, 6, 255], 255, 31)?;
    refuses::<Vec<bool>>(alloc, bytes.as_slice(), Reason::Eof)?;
    bytes.push(127)?;
    encodes(alloc, &trues, bytes.as_slice())
}

/// The least of all entries is what they are shifted by, wherever it stands.
pub fn late_least(alloc: Global) -> Result<(), Got> {
    let mut shorts: Vec<u16> = Vec::with_capacity(alloc, 17)?;
    for _ in 0..16 {
        shorts.push(300)?;
    }
    shorts.push(299)?;
    let bytes = [17, 1, 43, 1, 10, 255, 255, 0];
    encodes(alloc, &shorts, &bytes)
}

/// The lengths of all lists come before the elements of all lists.
pub fn nested_lists(alloc: Global) -> Result<(), Got> {
    let lists: Vec<Vec<u8>> = vec![in alloc; vec![in alloc;]?, vec![in alloc; 1, 2, 3]?]?;
    let bytes = [2, 0, 3, 6, 57];
    encodes(alloc, &lists.as_slice(), &bytes)?;
    encodes(alloc, &lists, &bytes)
}
