//! The coders of UUIDs.
use crate::derive::{DecodeOwned, HasDecoder, HasEncoder};
use bitcode_ints::int::{IntDecoder, IntEncoder};
use bitcode_parts::arrays::{ArrayDecoder, ArrayEncoder};
use bitcode_parts::convert::{ConvertFromDecoder, ConvertIntoEncoder};
use bitcode_parts::uuids::UuidConversion;
use uuid::Uuid;

impl HasEncoder for Uuid {
    type Encoder = ConvertIntoEncoder<UuidConversion, ArrayEncoder<IntEncoder<u8>, 16>>;
}

impl<'a> HasDecoder<'a> for Uuid {
    type Decoder = ConvertFromDecoder<UuidConversion, ArrayDecoder<IntDecoder<'a, u8>, 16>>;
}

impl DecodeOwned for Uuid {}
