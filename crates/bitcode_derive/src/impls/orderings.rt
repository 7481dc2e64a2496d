//! The coders of `Ordering`.
use crate::derive::{DecodeOwned, HasDecoder, HasEncoder};
use bitcode_parts::choices::bare::BareEncoder;
use bitcode_parts::choices::variant::VariantDecoder;
use std::cmp::Ordering;

impl HasEncoder for Ordering {
    type Encoder = BareEncoder<3>;
}

impl<'a> HasDecoder<'a> for Ordering {
    type Decoder = VariantDecoder<'a, 3, true>;
}

impl DecodeOwned for Ordering {}
