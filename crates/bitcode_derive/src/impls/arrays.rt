//! The coders of arrays.
use crate::derive::{DecodeOwned, HasDecoder, HasEncoder};
use bitcode_parts::arrays::{ArrayDecoder, ArrayEncoder};

impl<T: HasEncoder, const N: usize> HasEncoder for [T; N] {
    type Encoder = ArrayEncoder<T::Encoder, N>;
}

impl<'a, T: HasDecoder<'a>, const N: usize> HasDecoder<'a> for [T; N] {
    type Decoder = ArrayDecoder<T::Decoder, N>;
}

impl<T: DecodeOwned, const N: usize> DecodeOwned for [T; N] {}
