//! The coders of floats.
use crate::derive::{DecodeOwned, HasDecoder, HasEncoder};
use bitcode_floats::float32::{F32Decoder, F32Encoder};
use bitcode_floats::float64::{F64Decoder, F64Encoder};

impl HasEncoder for f32 {
    type Encoder = F32Encoder;
}

impl<'a> HasDecoder<'a> for f32 {
    type Decoder = F32Decoder<'a>;
}

impl DecodeOwned for f32 {}

impl HasEncoder for f64 {
    type Encoder = F64Encoder;
}

impl<'a> HasDecoder<'a> for f64 {
    type Decoder = F64Decoder<'a>;
}

impl DecodeOwned for f64 {}
