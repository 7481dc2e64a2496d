//! The coders of texts.
use crate::derive::{DecodeOwned, HasDecoder, HasEncoder};
use bitcode_coder::str::{StrDecoder, StrEncoder};
use bitcode_ints::u8_char::{U8Char, U8CharEncoder};
use std::borrow::CowStr;
use std::boxed::BoxedStr;
use std::rc::RcStr;
use std::sync::ArcStr;

impl<'a> HasEncoder for &'a str {
    type Encoder = StrEncoder;
}

impl<'a> HasDecoder<'a> for &'a str {
    type Decoder = StrDecoder<'a>;
}

impl HasEncoder for String {
    type Encoder = StrEncoder;
}

impl<'a> HasDecoder<'a> for String {
    type Decoder = StrDecoder<'a>;
}

impl DecodeOwned for String {}

impl HasEncoder for BoxedStr {
    type Encoder = StrEncoder;
}

impl<'a> HasDecoder<'a> for BoxedStr {
    type Decoder = StrDecoder<'a>;
}

impl DecodeOwned for BoxedStr {}

impl HasEncoder for RcStr {
    type Encoder = StrEncoder;
}

impl<'a> HasDecoder<'a> for RcStr {
    type Decoder = StrDecoder<'a>;
}

impl DecodeOwned for RcStr {}

impl HasEncoder for ArcStr {
    type Encoder = StrEncoder;
}

impl<'a> HasDecoder<'a> for ArcStr {
    type Decoder = StrDecoder<'a>;
}

impl DecodeOwned for ArcStr {}

impl<'a> HasEncoder for CowStr<'a> {
    type Encoder = StrEncoder;
}

impl<'a> HasDecoder<'a> for CowStr<'a> {
    type Decoder = StrDecoder<'a>;
}

impl HasEncoder for U8Char {
    type Encoder = U8CharEncoder;
}
