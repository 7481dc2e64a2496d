//! The coder of markers of types.
use crate::derive::{DecodeOwned, HasDecoder, HasEncoder};
use bitcode_parts::empty::EmptyCoder;
use std::marker::PhantomData;

impl<T> HasEncoder for PhantomData<T> {
    type Encoder = EmptyCoder;
}

impl<'a, T> HasDecoder<'a> for PhantomData<T> {
    type Decoder = EmptyCoder;
}

impl<T: 'static> DecodeOwned for PhantomData<T> {}
