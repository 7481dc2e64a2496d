//! A buffer that encodes and decodes values of one type, one after another.
ghost use Rattle.std.specs.Prelude.{◌≡◌, ◌≢◌, IfOk, IfErr, vec_capacity};
ghost use Rattle.bitcode_shapes.specs.Datum.{Datum};
ghost use Rattle.bitcode_coder.specs.Coder.{IsWritingRefusal, IsReadingReason};
ghost use Rattle.bitcode_derive.specs.Strict.{IsStrictDecodingOf, IsStrictRefusal};
ghost use Rattle.bitcode_derive.specs.Whole.{IsEncodingOf, HasLongListing, IsDecodingOf, SpellsDatum, SpellsAtMostOne};
ghost use Rattle.bitcode_derive.specs.Whole.{IsBoundedByBytes, NamesWholeFault};

use crate::derive::{HasDecoder, HasEncoder};
use crate::whole;
use bitcode_coder::coder::{Buffer as EncoderBuffer, Decoder, Encoder, NewDecoder, View};
use bitcode_coder::one::write_one;
use bitcode_memory::error::{Error, Reason};
use bitcode_shapes::shaped::Shaped;
use std::alloc::Global;

/// Encodes values of one type, one after another, in memory that it keeps for the next call.
///
/// The calls are independent: what they return does not depend on earlier calls, even failed ones.
///
/// ```rust
/// let mut buffer: Buffer<(bool, u16)> = Buffer::new(alloc);
/// assert_eq!(rt; buffer.encode(&(true, 7))?, [1, 7, 0].as_slice());
/// ```
#[derive(Drop)]
pub struct Buffer<T: HasEncoder> {
    alloc: Global,
    encoder: T::Encoder,
    bytes: Vec<u8>,
}

impl<T: HasEncoder + Shaped> Buffer<T>
where
    T::Encoder: EncoderBuffer + Encoder<T> + Drop,
{
    /// Creates an empty buffer without allocating.
    pub fn new(alloc: Global) -> Self
        ensures columns { T.Encoder.capacity result.encoder ≡ 0 }
        ensures bytes { vec_capacity result.bytes ≡ 0 }
    {
        Buffer {
            alloc,
            encoder: T::Encoder::new(alloc),
            bytes: Vec::new(alloc),
        }
    }

    /// Encodes a value, to bytes that `whole::encode` may return for it.
    ///
    /// Errors: `length overflow` if some number of arrays in the value times their size exceeds 18446744073709551615,
    /// and `out of memory` if an allocation fails.
    ///
    /// ```rust
    /// let mut buffer: Buffer<(bool, u16)> = Buffer::new(alloc);
    /// let bytes = buffer.encode(&(true, 7))?;
    /// ```
    pub fn encode(&mut self, t: &T) -> Result<&[u8], Error>
        ensures written { IfOk result
            (λ bytes. IsEncodingOf T.data.lists T.data.shape t.now bytes.now) }
        ensures refused { IfErr result
            (λ e. IsWritingRefusal e.reason (HasLongListing T.data.lists T.data.shape t.now)) }
    {
        self.encoder.clear();
        self.bytes.clear();
        write_one(&mut self.encoder, t, &mut self.bytes)?;
        Ok(self.bytes.as_slice())
    }

    /// Decodes the bytes, which must encode exactly one value, as `whole::decode` does.
    ///
    /// Errors: the first fault of the input, `Expected EOF` if bytes are left after the value, and `out of memory` if
    /// an allocation fails.
    ///
    /// ```rust
    /// let mut buffer: Buffer<(bool, u16)> = Buffer::new(alloc);
    /// let pair = buffer.decode(&[1, 7, 0])?;
    /// assert!(rt; pair == (true, 7));
    /// ```
    pub fn decode<'a>(&mut self, bytes: &'a [u8]) -> Result<T, Error>
    where
        T: HasDecoder<'a> + Shaped + Drop,
        T::Decoder: NewDecoder + View<'a> + Decoder<T> + Drop,
        ensures found { IfOk result (λ t. IsDecodingOf T.data.makes T.data.shape bytes.now t) }
        ensures unambiguous { SpellsAtMostOne T.data.shape bytes.now }
        ensures bounded { IsBoundedByBytes T.data.shape bytes.now }
        ensures reasons { IfErr result (λ e. IsReadingReason e.reason) }
        ensures refused { IfErr result
            (λ e. e.reason ≢ Reason.OutOfMemory → (d : Datum) → SpellsDatum T.data.shape bytes.now d
            → ⊥) }
        ensures exact { IfErr result
            (λ e. NamesWholeFault T.Decoder.makes_free T.Decoder.shape e.reason
            bytes.now) }
    {
        whole::decode(self.alloc, bytes)
    }

    /// Decodes the bytes, which must be exactly those that are written for the columns of one value, as
    /// `whole::decode_strict` does.
    ///
    /// Errors: those of [`Buffer::decode`], and `not the written text` if some column has different bytes.
    ///
    /// ```
    /// let pair = buffer.decode_strict(&[1, 7, 0])?;
    /// ```
    pub fn decode_strict<'a>(&mut self, bytes: &'a [u8]) -> Result<T, Error>
    where
        T: HasDecoder<'a> + Shaped + Drop,
        T::Decoder: NewDecoder + View<'a> + Decoder<T> + Drop,
        ensures found { IfOk result
            (λ t. IsStrictDecodingOf T.data.makes T.data.shape bytes.now t) }
        ensures unambiguous { SpellsAtMostOne T.data.shape bytes.now }
        ensures bounded { IsBoundedByBytes T.data.shape bytes.now }
        ensures refused { IfErr result (λ e. IsStrictRefusal T.data.shape e.reason bytes.now) }
        ensures exact { IfErr result
            (λ e. e.reason ≢ Reason.NotTheWrittenText
            → NamesWholeFault T.Decoder.makes_free T.Decoder.shape e.reason
            bytes.now) }
    {
        whole::decode_strict(self.alloc, bytes)
    }
}
