//! The coders of tuples of one field: the coders of the field.
use crate::derive::{DecodeOwned, HasDecoder, HasEncoder};
use bitcode_parts::convert::ConvertFromDecoder;
use bitcode_parts::pointers::deref::DerefEncoder;

impl<A: HasEncoder> HasEncoder for (A,) {
    type Encoder = DerefEncoder<A::Encoder>;
}

impl<'a, A: HasDecoder<'a>> HasDecoder<'a> for (A,) {
    type Decoder = ConvertFromDecoder<A, A::Decoder>;
}

impl<A: DecodeOwned> DecodeOwned for (A,) {}
