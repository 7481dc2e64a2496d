// Written by scripts/tables/integers.
//! The coders of nonzero integers and of chars.
use crate::derive::{DecodeOwned, HasDecoder, HasEncoder};
use bitcode_ints::checked::CheckedIntDecoder;
use bitcode_ints::int::IntEncoder;
use std::num::{
    NonZeroI8, NonZeroI16, NonZeroI32, NonZeroI64, NonZeroI128, NonZeroIsize, NonZeroU8,
    NonZeroU16, NonZeroU32, NonZeroU64, NonZeroU128, NonZeroUsize,
};

impl HasEncoder for NonZeroU8 {
    type Encoder = IntEncoder<u8>;
}

impl<'a> HasDecoder<'a> for NonZeroU8 {
    type Decoder = CheckedIntDecoder<'a, NonZeroU8, u8>;
}

impl DecodeOwned for NonZeroU8 {}

impl HasEncoder for NonZeroU16 {
    type Encoder = IntEncoder<u16>;
}

impl<'a> HasDecoder<'a> for NonZeroU16 {
    type Decoder = CheckedIntDecoder<'a, NonZeroU16, u16>;
}

impl DecodeOwned for NonZeroU16 {}

impl HasEncoder for NonZeroU32 {
    type Encoder = IntEncoder<u32>;
}

impl<'a> HasDecoder<'a> for NonZeroU32 {
    type Decoder = CheckedIntDecoder<'a, NonZeroU32, u32>;
}

impl DecodeOwned for NonZeroU32 {}

impl HasEncoder for NonZeroU64 {
    type Encoder = IntEncoder<u64>;
}

impl<'a> HasDecoder<'a> for NonZeroU64 {
    type Decoder = CheckedIntDecoder<'a, NonZeroU64, u64>;
}

impl DecodeOwned for NonZeroU64 {}

impl HasEncoder for NonZeroU128 {
    type Encoder = IntEncoder<u128>;
}

impl<'a> HasDecoder<'a> for NonZeroU128 {
    type Decoder = CheckedIntDecoder<'a, NonZeroU128, u128>;
}

impl DecodeOwned for NonZeroU128 {}

impl HasEncoder for NonZeroUsize {
    type Encoder = IntEncoder<usize>;
}

impl<'a> HasDecoder<'a> for NonZeroUsize {
    type Decoder = CheckedIntDecoder<'a, NonZeroUsize, usize>;
}

impl DecodeOwned for NonZeroUsize {}

impl HasEncoder for NonZeroI8 {
    type Encoder = IntEncoder<i8>;
}

impl<'a> HasDecoder<'a> for NonZeroI8 {
    type Decoder = CheckedIntDecoder<'a, NonZeroI8, i8>;
}

impl DecodeOwned for NonZeroI8 {}

impl HasEncoder for NonZeroI16 {
    type Encoder = IntEncoder<i16>;
}

impl<'a> HasDecoder<'a> for NonZeroI16 {
    type Decoder = CheckedIntDecoder<'a, NonZeroI16, i16>;
}

impl DecodeOwned for NonZeroI16 {}

impl HasEncoder for NonZeroI32 {
    type Encoder = IntEncoder<i32>;
}

impl<'a> HasDecoder<'a> for NonZeroI32 {
    type Decoder = CheckedIntDecoder<'a, NonZeroI32, i32>;
}

impl DecodeOwned for NonZeroI32 {}

impl HasEncoder for NonZeroI64 {
    type Encoder = IntEncoder<i64>;
}

impl<'a> HasDecoder<'a> for NonZeroI64 {
    type Decoder = CheckedIntDecoder<'a, NonZeroI64, i64>;
}

impl DecodeOwned for NonZeroI64 {}

impl HasEncoder for NonZeroI128 {
    type Encoder = IntEncoder<i128>;
}

impl<'a> HasDecoder<'a> for NonZeroI128 {
    type Decoder = CheckedIntDecoder<'a, NonZeroI128, i128>;
}

impl DecodeOwned for NonZeroI128 {}

impl HasEncoder for NonZeroIsize {
    type Encoder = IntEncoder<isize>;
}

impl<'a> HasDecoder<'a> for NonZeroIsize {
    type Decoder = CheckedIntDecoder<'a, NonZeroIsize, isize>;
}

impl DecodeOwned for NonZeroIsize {}

impl HasEncoder for char {
    type Encoder = IntEncoder<u32>;
}

impl<'a> HasDecoder<'a> for char {
    type Decoder = CheckedIntDecoder<'a, char, u32>;
}

impl DecodeOwned for char {}
