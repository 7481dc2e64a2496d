//! The coders of heaps: those of lists.
use crate::derive::{DecodeOwned, HasDecoder, HasEncoder};
use bitcode_parts::lists::vec::{VecDecoder, VecEncoder};
use std::cmp::Ord;
use std::collections::BinaryHeap;

impl<T: HasEncoder + Ord> HasEncoder for BinaryHeap<T> {
    type Encoder = VecEncoder<T::Encoder>;
}

impl<'a, T: HasDecoder<'a> + Ord> HasDecoder<'a> for BinaryHeap<T> {
    type Decoder = VecDecoder<'a, T::Decoder>;
}

impl<T: DecodeOwned + Ord> DecodeOwned for BinaryHeap<T> {}
