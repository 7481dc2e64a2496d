// Written by scripts/tables/integers.
//! The coders of integers.
use crate::derive::{DecodeOwned, HasDecoder, HasEncoder};
use bitcode_ints::signed_coders::{
    I8Decoder, I8Encoder, I16Decoder, I16Encoder, I32Decoder, I32Encoder, I64Decoder, I64Encoder,
    I128Decoder, I128Encoder, IsizeDecoder, IsizeEncoder,
};
use bitcode_ints::unsigned_coders::{
    U8Decoder, U8Encoder, U16Decoder, U16Encoder, U32Decoder, U32Encoder, U64Decoder, U64Encoder,
    U128Decoder, U128Encoder, UsizeDecoder, UsizeEncoder,
};

impl HasEncoder for u8 {
    type Encoder = U8Encoder;
}

impl<'a> HasDecoder<'a> for u8 {
    type Decoder = U8Decoder<'a>;
}

impl DecodeOwned for u8 {}

impl HasEncoder for u16 {
    type Encoder = U16Encoder;
}

impl<'a> HasDecoder<'a> for u16 {
    type Decoder = U16Decoder<'a>;
}

impl DecodeOwned for u16 {}

impl HasEncoder for u32 {
    type Encoder = U32Encoder;
}

impl<'a> HasDecoder<'a> for u32 {
    type Decoder = U32Decoder<'a>;
}

impl DecodeOwned for u32 {}

impl HasEncoder for u64 {
    type Encoder = U64Encoder;
}

impl<'a> HasDecoder<'a> for u64 {
    type Decoder = U64Decoder<'a>;
}

impl DecodeOwned for u64 {}

impl HasEncoder for u128 {
    type Encoder = U128Encoder;
}

impl<'a> HasDecoder<'a> for u128 {
    type Decoder = U128Decoder<'a>;
}

impl DecodeOwned for u128 {}

impl HasEncoder for usize {
    type Encoder = UsizeEncoder;
}

impl<'a> HasDecoder<'a> for usize {
    type Decoder = UsizeDecoder<'a>;
}

impl DecodeOwned for usize {}

impl HasEncoder for i8 {
    type Encoder = I8Encoder;
}

impl<'a> HasDecoder<'a> for i8 {
    type Decoder = I8Decoder<'a>;
}

impl DecodeOwned for i8 {}

impl HasEncoder for i16 {
    type Encoder = I16Encoder;
}

impl<'a> HasDecoder<'a> for i16 {
    type Decoder = I16Decoder<'a>;
}

impl DecodeOwned for i16 {}

impl HasEncoder for i32 {
    type Encoder = I32Encoder;
}

impl<'a> HasDecoder<'a> for i32 {
    type Decoder = I32Decoder<'a>;
}

impl DecodeOwned for i32 {}

impl HasEncoder for i64 {
    type Encoder = I64Encoder;
}

impl<'a> HasDecoder<'a> for i64 {
    type Decoder = I64Decoder<'a>;
}

impl DecodeOwned for i64 {}

impl HasEncoder for i128 {
    type Encoder = I128Encoder;
}

impl<'a> HasDecoder<'a> for i128 {
    type Decoder = I128Decoder<'a>;
}

impl DecodeOwned for i128 {}

impl HasEncoder for isize {
    type Encoder = IsizeEncoder;
}

impl<'a> HasDecoder<'a> for isize {
    type Decoder = IsizeDecoder<'a>;
}

impl DecodeOwned for isize {}
