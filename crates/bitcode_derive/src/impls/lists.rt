//! The coders of vectors, slices, queues and linked lists.
use crate::derive::{DecodeOwned, HasDecoder, HasEncoder};
use bitcode_parts::lists::vec::{VecDecoder, VecEncoder};
use std::collections::{LinkedList, VecDeque};

impl<T: HasEncoder> HasEncoder for Vec<T> {
    type Encoder = VecEncoder<T::Encoder>;
}

impl<'a, T: HasDecoder<'a>> HasDecoder<'a> for Vec<T> {
    type Decoder = VecDecoder<'a, T::Decoder>;
}

impl<T: DecodeOwned> DecodeOwned for Vec<T> {}

impl<'a, T: HasEncoder> HasEncoder for &'a [T] {
    type Encoder = VecEncoder<T::Encoder>;
}

impl<T: HasEncoder> HasEncoder for VecDeque<T> {
    type Encoder = VecEncoder<T::Encoder>;
}

impl<'a, T: HasDecoder<'a>> HasDecoder<'a> for VecDeque<T> {
    type Decoder = VecDecoder<'a, T::Decoder>;
}

impl<T: DecodeOwned> DecodeOwned for VecDeque<T> {}

impl<T: HasEncoder> HasEncoder for LinkedList<T> {
    type Encoder = VecEncoder<T::Encoder>;
}

impl<'a, T: HasDecoder<'a>> HasDecoder<'a> for LinkedList<T> {
    type Decoder = VecDecoder<'a, T::Decoder>;
}

impl<T: DecodeOwned> DecodeOwned for LinkedList<T> {}
