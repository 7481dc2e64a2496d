//! The rows of arrays.
use bitcode::coder::Buffer as _;
use bitcode::{ArrayEncoder, EmptyCoder, Error, Reason};
use bitcode_test_support::{Got, decodes, encodes, refuses};
use std::alloc::Global;

/// The call refuses for this reason.
fn refused(answer: Result<(), Error>, expected: Reason) -> Result<(), Got> {
    match answer {
        Ok(()) => Err(Got::AnotherValue),
        Err(error) if error.reason == expected => Ok(()),
        Err(error) => Err(Got::Refused(error)),
    }
}

/// An array is the column of its elements: how many there are is known.
pub fn three_bytes(alloc: Global) -> Result<(), Got> {
    encodes(alloc, &[0u8, 1, 2], &[8, 21])?;
    encodes(alloc, &(0usize, 1isize), &[6, 0, 6, 1])
}

/// So many arrays that their elements have no length, and one less.
pub fn more_bytes_than_a_length(alloc: Global) -> Result<(), Got> {
    let too_many = [255, 0, 0, 0, 0, 0, 0, 0, 4, 0];
    refuses::<Vec<[u8; 16384]>>(alloc, &too_many, Reason::LengthOverflow)?;
    let fits = [255, 0, 255, 255, 255, 255, 255, 255, 3, 0];
    refuses::<Vec<[u8; 16384]>>(alloc, &fits, Reason::Eof)
}

/// Each text of an array is UTF-8 for itself.
pub fn two_texts(alloc: Global) -> Result<(), Got> {
    refuses::<[&str; 2]>(alloc, &[1, 2, 226, 152, 186], Reason::InvalidUtf8)?;
    decodes(alloc, &[3, 3, 226, 152, 186, 226, 152, 186], ["☺", "☺"])
}

/// Lengths whose sum no length is, a sum that is too large to be read, and a small one.
pub fn sums_of_lengths(alloc: Global) -> Result<(), Got> {
    let too_many = [
        255, 255, 0, 255, 255, 255, 255, 255, 255, 255, 255, 255, 255, 255, 255, 255, 255, 255, 255,
    ];
    refuses::<[Vec<()>; 2]>(alloc, &too_many, Reason::LengthOverflow)?;
    let huge = [255, 0, 255, 255, 255, 255, 255, 255, 255, 255];
    refuses::<Vec<()>>(alloc, &huge, Reason::HugeLength)?;
    let units: Vec<()> = vec![in alloc; (), (), ()]?;
    encodes(alloc, &units, &[3])
}

/// More than five entries stand less their least, and arrays of nothing take no bytes.
pub fn seven_signed_bytes(alloc: Global) -> Result<(), Got> {
    encodes(alloc, &[0i8, -1, 0, -1, 0, -1, 0], &[9, 255, 85])?;
    let mut nothings: Vec<[u8; 0]> = Vec::with_capacity(alloc, 100)?;
    for _ in 0..100 {
        nothings.push([])?;
    }
    encodes(alloc, &nothings, &[100])
}

/// Two arrays of half as many elements as no length is: room for one of them is there, and for two it is refused.
pub fn more_units_than_a_length(alloc: Global) -> Result<(), Got> {
    let mut one: ArrayEncoder<EmptyCoder, 9223372036854775808> = ArrayEncoder::new(alloc);
    one.reserve(1).map_err(Got::Refused)?;
    let mut two: ArrayEncoder<EmptyCoder, 9223372036854775808> = ArrayEncoder::new(alloc);
    refused(two.reserve(2), Reason::LengthOverflow)
}
