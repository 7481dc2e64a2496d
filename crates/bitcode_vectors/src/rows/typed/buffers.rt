//! The stored rows of values that are written one after the other into one buffer.
use bitcode::{Buffer, Decode, Encode};
use bitcode_test_support::Got;
use std::alloc::Global;

/// The buffer writes the value as these bytes.
fn writes<T: Encode>(
    alloc: Global,
    buffer: &mut Buffer<T>,
    t: &T,
    expected: &[u8],
) -> Result<(), Got> {
    match buffer.encode(t) {
        Ok(bytes) if bytes == expected => Ok(()),
        Ok(bytes) => Err(Got::Bytes(Vec::from_slice(alloc, bytes)?)),
        Err(error) => Err(Got::Refused(error)),
    }
}

/// The buffer reads the bytes as this value.
fn reads<'a, T: Encode + Decode<'a> + PartialEq>(
    buffer: &mut Buffer<T>,
    bytes: &'a [u8],
    expected: T,
) -> Result<(), Got> {
    match buffer.decode(bytes) {
        Ok(t) if t == expected => Ok(()),
        Ok(_) => Err(Got::AnotherValue),
        Err(error) => Err(Got::Refused(error)),
    }
}

/// A list is followed by one without elements.
pub fn emptied_list(alloc: Global) -> Result<(), Got> {
    let mut buffer = Buffer::new(alloc);
    let list: Vec<u8> = vec![in alloc; 1, 2, 3]?;
    writes(alloc, &mut buffer, &list, &[3, 6, 57])?;
    writes(alloc, &mut buffer, &Vec::new(alloc), &[0])
}

/// What was written before leaves nothing in what is written next.
pub fn one_after_the_other(alloc: Global) -> Result<(), Got> {
    let mut bools = Buffer::new(alloc);
    writes(alloc, &mut bools, &false, &[0])?;
    writes(alloc, &mut bools, &true, &[1])?;
    reads(&mut bools, &[0], false)?;
    reads(&mut bools, &[1], true)?;
    lists_one_after_the_other(alloc)
}

/// And so in lists.
fn lists_one_after_the_other(alloc: Global) -> Result<(), Got> {
    let mut lists = Buffer::new(alloc);
    let three: Vec<u8> = vec![in alloc; 1, 2, 3]?;
    let nine: Vec<u8> = vec![in alloc; 9]?;
    writes(alloc, &mut lists, &three, &[3, 6, 57])?;
    writes(alloc, &mut lists, &nine, &[1, 9])
}
