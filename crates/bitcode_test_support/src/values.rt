//! Whole values: how they are written, read and refused.
use crate::Got;
use bitcode::coder::Buffer;
use bitcode::{
    DecodeOwned, Decoder, Encoder, HasDecoder, HasEncoder, NewDecoder, Reason, Shaped, View,
    decode, encode,
};
use std::alloc::Global;

/// The value is written as these bytes.
pub fn encodes<T: HasEncoder + Shaped>(alloc: Global, t: &T, expected: &[u8]) -> Result<(), Got>
where
    T::Encoder: Buffer + Encoder<T> + Drop,
{
    match encode(alloc, t) {
        Ok(bytes) if bytes.as_slice() == expected => Ok(()),
        Ok(bytes) => Err(Got::Bytes(bytes)),
        Err(error) => Err(Got::Refused(error)),
    }
}

/// The bytes are read as this value.
pub fn decodes<'a, T: HasDecoder<'a> + Shaped + Drop + PartialEq>(
    alloc: Global,
    bytes: &'a [u8],
    expected: T,
) -> Result<(), Got>
where
    T::Decoder: NewDecoder + View<'a> + Decoder<T> + Drop,
{
    match decode::<T>(alloc, bytes) {
        Ok(t) if t == expected => Ok(()),
        Ok(_) => Err(Got::AnotherValue),
        Err(error) => Err(Got::Refused(error)),
    }
}

/// The bytes are refused for this reason.
pub fn refuses<'a, T: HasDecoder<'a> + Shaped + Drop>(
    alloc: Global,
    bytes: &'a [u8],
    expected: Reason,
) -> Result<(), Got>
where
    T::Decoder: NewDecoder + View<'a> + Decoder<T> + Drop,
{
    match decode::<T>(alloc, bytes) {
        Ok(_) => Err(Got::AnotherValue),
        Err(error) if error.reason == expected => Ok(()),
        Err(error) => Err(Got::Refused(error)),
    }
}

/// The value is written as these bytes, and the bytes are read as the value.
pub fn both_ways<'a, T: HasEncoder + HasDecoder<'a> + Shaped + Drop + PartialEq>(
    alloc: Global,
    t: T,
    bytes: &'a [u8],
) -> Result<(), Got>
where
    T::Encoder: Buffer + Encoder<T> + Drop,
    T::Decoder: NewDecoder + View<'a> + Decoder<T> + Drop,
{
    encodes(alloc, &t, bytes)?;
    decodes(alloc, bytes, t)
}

/// The value is written as these bytes, they are read as the value, and others are refused for these reasons.
pub fn holds<'a, T: HasEncoder + HasDecoder<'a> + Shaped + Drop + PartialEq>(
    alloc: Global,
    t: T,
    bytes: &'a [u8],
    refused: &[(&'a [u8], Reason)],
) -> Result<(), Got>
where
    T::Encoder: Buffer + Encoder<T> + Drop,
    T::Decoder: NewDecoder + View<'a> + Decoder<T> + Drop,
{
    both_ways(alloc, t, bytes)?;
    for (other, reason) in refused {
        refuses::<T>(alloc, other, *reason)?;
    }
    Ok(())
}

/// What the bytes of a value are read as, which are these. Nothing of it is borrowed from them.
pub fn written_and_read<'a, T: HasEncoder + HasDecoder<'a> + DecodeOwned + Shaped + Drop>(
    alloc: Global,
    t: &T,
    bytes: &'a [u8],
) -> Result<T, Got>
where
    T::Encoder: Buffer + Encoder<T> + Drop,
    T::Decoder: NewDecoder + View<'a> + Decoder<T> + Drop,
{
    encodes(alloc, t, bytes)?;
    Ok(decode(alloc, bytes)?)
}

/// What was read is this.
pub fn agrees(same: bool) -> Result<(), Got> {
    if same { Ok(()) } else { Err(Got::AnotherValue) }
}
