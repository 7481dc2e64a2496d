//! Whole values that are read strictly.
use crate::Got;
use bitcode::{Decoder, HasDecoder, NewDecoder, Reason, Shaped, View, decode_strict};
use std::alloc::Global;

/// Read strictly, the bytes are this value.
pub fn decodes_strictly<'a, T: HasDecoder<'a> + Shaped + Drop + PartialEq>(
    alloc: Global,
    bytes: &'a [u8],
    expected: T,
) -> Result<(), Got>
where
    T::Decoder: NewDecoder + View<'a> + Decoder<T> + Drop,
{
    match decode_strict::<T>(alloc, bytes) {
        Ok(t) if t == expected => Ok(()),
        Ok(_) => Err(Got::AnotherValue),
        Err(error) => Err(Got::Refused(error)),
    }
}

/// Read strictly, the bytes are refused for this reason.
pub fn refuses_strictly<'a, T: HasDecoder<'a> + Shaped + Drop>(
    alloc: Global,
    bytes: &'a [u8],
    expected: Reason,
) -> Result<(), Got>
where
    T::Decoder: NewDecoder + View<'a> + Decoder<T> + Drop,
{
    match decode_strict::<T>(alloc, bytes) {
        Ok(_) => Err(Got::AnotherValue),
        Err(error) if error.reason == expected => Ok(()),
        Err(error) => Err(Got::Refused(error)),
    }
}
