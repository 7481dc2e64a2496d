//! Length columns: how they are written, read and refused.
use crate::Got;
use bitcode::coder::Buffer as _;
use bitcode::{Error, LengthDecoder, LengthEncoder, Reason};
use std::alloc::Global;

fn length_bytes(alloc: Global, lengths: &[usize]) -> Result<Vec<u8>, Error> {
    let mut encoder = LengthEncoder::new(alloc);
    for length in lengths {
        encoder.reserve(1)?;
        encoder.encode(*length)?;
    }
    let mut bytes = Vec::new(alloc);
    encoder.collect_into(&mut bytes)?;
    Ok(bytes)
}

/// The column of the lengths is these bytes.
pub fn writes_lengths(alloc: Global, lengths: &[usize], expected: &[u8]) -> Result<(), Got> {
    let bytes = length_bytes(alloc, lengths)?;
    if bytes.as_slice() == expected {
        Ok(())
    } else {
        Err(Got::Bytes(bytes))
    }
}

/// The bytes are read as these lengths and their sum, and so many bytes are left.
pub fn reads_lengths(
    alloc: Global,
    mut bytes: &[u8],
    expected: &[usize],
    rest: usize,
) -> Result<(), Got> {
    let mut decoder = LengthDecoder::new(alloc);
    decoder.populate(&mut bytes, expected.len())?;
    let mut sum = 0usize;
    for length in expected {
        if decoder.decode() != *length {
            return Err(Got::AnotherValue);
        }
        sum = sum.wrapping_add(*length);
    }
    if decoder.length() == sum && bytes.len() == rest {
        Ok(())
    } else {
        Err(Got::AnotherValue)
    }
}

/// So many lengths are refused for this reason.
pub fn refuses_lengths(
    alloc: Global,
    mut bytes: &[u8],
    count: usize,
    expected: Reason,
) -> Result<(), Got> {
    let mut decoder = LengthDecoder::new(alloc);
    match decoder.populate(&mut bytes, count) {
        Ok(()) => Err(Got::AnotherValue),
        Err(error) if error.reason == expected => Ok(()),
        Err(error) => Err(Got::Refused(error)),
    }
}
