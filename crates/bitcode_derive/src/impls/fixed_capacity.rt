//! The coders of vectors and texts of a fixed capacity.
use crate::derive::{DecodeOwned, HasDecoder, HasEncoder};
use arrayvec::{ArrayString, ArrayVec};
use bitcode_coder::str::{ArrayStringDecoder, StrEncoder};
use bitcode_parts::fixed_capacity::ArrayVecDecoder;
use bitcode_parts::lists::vec::VecEncoder;
use std::default::Default;

impl<const N: usize> HasEncoder for ArrayString<N> {
    type Encoder = StrEncoder;
}

impl<'a, const N: usize> HasDecoder<'a> for ArrayString<N> {
    type Decoder = ArrayStringDecoder<'a, N>;
}

impl<const N: usize> DecodeOwned for ArrayString<N> {}

impl<T: HasEncoder, const N: usize> HasEncoder for ArrayVec<T, N> {
    type Encoder = VecEncoder<T::Encoder>;
}

impl<'a, T: HasDecoder<'a> + Default, const N: usize> HasDecoder<'a> for ArrayVec<T, N> {
    type Decoder = ArrayVecDecoder<'a, T::Decoder, N>;
}

impl<T: DecodeOwned + Default, const N: usize> DecodeOwned for ArrayVec<T, N> {}
