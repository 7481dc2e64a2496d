//! The coders of ranges: those of the pairs of their ends.
use crate::derive::{DecodeOwned, HasDecoder, HasEncoder};
use bitcode_parts::convert::ConvertFromDecoder;
use bitcode_tuples::decoder::TupleDecoder;
use bitcode_tuples::encoder::TupleEncoder;
use bitcode_tuples::struct_encoder::StructEncoder;
use std::ops::{Range, RangeInclusive};

impl<T: HasEncoder> HasEncoder for Range<T> {
    type Encoder = StructEncoder<TupleEncoder<T::Encoder, T::Encoder>>;
}

impl<'a, T: HasDecoder<'a>> HasDecoder<'a> for Range<T> {
    type Decoder = ConvertFromDecoder<(T, T), TupleDecoder<T::Decoder, T::Decoder>>;
}

impl<T: DecodeOwned> DecodeOwned for Range<T> {}

impl<T: HasEncoder> HasEncoder for RangeInclusive<T> {
    type Encoder = StructEncoder<TupleEncoder<T::Encoder, T::Encoder>>;
}

impl<'a, T: HasDecoder<'a>> HasDecoder<'a> for RangeInclusive<T> {
    type Decoder = ConvertFromDecoder<(T, T), TupleDecoder<T::Decoder, T::Decoder>>;
}

impl<T: DecodeOwned> DecodeOwned for RangeInclusive<T> {}
