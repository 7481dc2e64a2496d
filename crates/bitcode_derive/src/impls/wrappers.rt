//! The coders of numbers whose operators wrap or saturate: those of the numbers.
use crate::derive::{DecodeOwned, HasDecoder, HasEncoder};
use bitcode_parts::convert::ConvertFromDecoder;
use bitcode_parts::pointers::deref::DerefEncoder;
use std::num::{Saturating, Wrapping};

impl<T: HasEncoder> HasEncoder for Wrapping<T> {
    type Encoder = DerefEncoder<T::Encoder>;
}

impl<'a, T: HasDecoder<'a>> HasDecoder<'a> for Wrapping<T> {
    type Decoder = ConvertFromDecoder<T, T::Decoder>;
}

impl<T: DecodeOwned> DecodeOwned for Wrapping<T> {}

impl<T: HasEncoder> HasEncoder for Saturating<T> {
    type Encoder = DerefEncoder<T::Encoder>;
}

impl<'a, T: HasDecoder<'a>> HasDecoder<'a> for Saturating<T> {
    type Decoder = ConvertFromDecoder<T, T::Decoder>;
}

impl<T: DecodeOwned> DecodeOwned for Saturating<T> {}
