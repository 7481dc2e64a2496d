//! The coders of options and results.
use crate::derive::{DecodeOwned, HasDecoder, HasEncoder};
use bitcode_parts::choices::option::{OptionDecoder, OptionEncoder};
use bitcode_parts::choices::result::{ResultDecoder, ResultEncoder};

impl<T: HasEncoder> HasEncoder for Option<T> {
    type Encoder = OptionEncoder<T::Encoder>;
}

impl<'a, T: HasDecoder<'a>> HasDecoder<'a> for Option<T> {
    type Decoder = OptionDecoder<'a, T::Decoder>;
}

impl<T: DecodeOwned> DecodeOwned for Option<T> {}

impl<T: HasEncoder, E: HasEncoder> HasEncoder for Result<T, E> {
    type Encoder = ResultEncoder<T::Encoder, E::Encoder>;
}

impl<'a, T: HasDecoder<'a>, E: HasDecoder<'a>> HasDecoder<'a> for Result<T, E> {
    type Decoder = ResultDecoder<'a, T::Decoder, E::Decoder>;
}

impl<T: DecodeOwned, E: DecodeOwned> DecodeOwned for Result<T, E> {}
