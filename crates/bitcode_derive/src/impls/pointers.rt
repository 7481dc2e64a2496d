//! The coders of boxes, shared pointers and their slices.
use crate::derive::{DecodeOwned, HasDecoder, HasEncoder};
use bitcode_parts::convert::ConvertFromDecoder;
use bitcode_parts::lists::vec::{VecDecoder, VecEncoder};
use bitcode_parts::pointers::deref::DerefEncoder;
use std::boxed::BoxedSlice;
use std::rc::{Rc, RcSlice};
use std::sync::{Arc, ArcSlice};

impl<T: HasEncoder> HasEncoder for Box<T> {
    type Encoder = DerefEncoder<T::Encoder>;
}

impl<'a, T: HasDecoder<'a>> HasDecoder<'a> for Box<T> {
    type Decoder = ConvertFromDecoder<T, T::Decoder>;
}

impl<T: DecodeOwned> DecodeOwned for Box<T> {}

impl<T: HasEncoder> HasEncoder for Rc<T> {
    type Encoder = DerefEncoder<T::Encoder>;
}

impl<'a, T: HasDecoder<'a>> HasDecoder<'a> for Rc<T> {
    type Decoder = ConvertFromDecoder<T, T::Decoder>;
}

impl<T: DecodeOwned> DecodeOwned for Rc<T> {}

impl<T: HasEncoder> HasEncoder for Arc<T> {
    type Encoder = DerefEncoder<T::Encoder>;
}

impl<'a, T: HasDecoder<'a>> HasDecoder<'a> for Arc<T> {
    type Decoder = ConvertFromDecoder<T, T::Decoder>;
}

impl<T: DecodeOwned> DecodeOwned for Arc<T> {}

impl<T: HasEncoder> HasEncoder for BoxedSlice<T> {
    type Encoder = DerefEncoder<VecEncoder<T::Encoder>>;
}

impl<'a, T: HasDecoder<'a>> HasDecoder<'a> for BoxedSlice<T> {
    type Decoder = ConvertFromDecoder<Vec<T>, VecDecoder<'a, T::Decoder>>;
}

impl<T: DecodeOwned> DecodeOwned for BoxedSlice<T> {}

impl<T: HasEncoder> HasEncoder for RcSlice<T> {
    type Encoder = DerefEncoder<VecEncoder<T::Encoder>>;
}

impl<'a, T: HasDecoder<'a>> HasDecoder<'a> for RcSlice<T> {
    type Decoder = ConvertFromDecoder<Vec<T>, VecDecoder<'a, T::Decoder>>;
}

impl<T: DecodeOwned> DecodeOwned for RcSlice<T> {}

impl<T: HasEncoder> HasEncoder for ArcSlice<T> {
    type Encoder = DerefEncoder<VecEncoder<T::Encoder>>;
}

impl<'a, T: HasDecoder<'a>> HasDecoder<'a> for ArcSlice<T> {
    type Decoder = ConvertFromDecoder<Vec<T>, VecDecoder<'a, T::Decoder>>;
}

impl<T: DecodeOwned> DecodeOwned for ArcSlice<T> {}
