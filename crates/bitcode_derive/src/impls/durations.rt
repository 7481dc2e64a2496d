//! The coders of durations.
use crate::derive::{DecodeOwned, HasDecoder, HasEncoder};
use crate::durations::{DurationDecoder, DurationEncoder};
use bitcode_ints::checked::CheckedIntDecoder;
use bitcode_shapes::nanosecond::Nanosecond;
use std::time::Duration;

impl HasEncoder for Duration {
    type Encoder = DurationEncoder;
}

impl<'a> HasDecoder<'a> for Duration {
    type Decoder = DurationDecoder<'a>;
}

impl DecodeOwned for Duration {}

impl<'a> HasDecoder<'a> for Nanosecond {
    type Decoder = CheckedIntDecoder<'a, Nanosecond, u32>;
}

impl DecodeOwned for Nanosecond {}
