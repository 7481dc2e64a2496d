//! Sealing and opening values: one in the whole input, or one at its front.
ghost use Rattle.std.specs.Prelude.{◌≡◌, IfOk, OnOk, IfErr, OnErr};
ghost use Rattle.bitcode_coder.specs.Coder.{IsWritingRefusal};
ghost use Rattle.bitcode_derive.specs.Whole.{HasLongListing, IsDecodingOf};
ghost use Rattle.bitcode_sealed.specs.Sealing.{IsSealingOf, IsSealedBehind};
ghost use Rattle.bitcode_sealed.specs.Opening.{IsOpeningOf, IsOpeningOfFront, IsDecodingRefusal, IsRefusal};
ghost use Rattle.bitcode_sealed.specs.Opening.{IsRefusalOfFront};

use crate::bytes::{seal_bytes, split_sealed};
use crate::error::OpenError;
use crate::label::{Expected, Label};
use bitcode_coder::coder::{Buffer, Decoder, Encoder, NewDecoder, View};
use bitcode_derive::derive::{HasDecoder, HasEncoder};
use bitcode_derive::whole::{decode, encode};
use bitcode_memory::error::Error;
use bitcode_shapes::shaped::Shaped;
use std::alloc::Global;

/// Appends a sealed value to `out`, as `seal` would return it.
///
/// `open_front` opens several values that were sealed like this one by one.
///
/// Errors: those of `encode`, and `out of memory` if `out` cannot grow. Then `out` is unchanged.
///
/// ```text
/// let mut out = Vec::new(alloc);
/// seal_into(alloc, RECORDS, &first, &mut out)?;
/// seal_into(alloc, RECORDS, &second, &mut out)?;
/// ```
pub fn seal_into<T: HasEncoder + Shaped>(
    alloc: Global,
    label: Label,
    t: &T,
    out: &mut Vec<u8>,
) -> Result<(), Error>
where
    T::Encoder: Buffer + Encoder<T> + Drop,
    ensures written { OnOk result
        (IsSealedBehind T.data.lists T.data.shape label t.now out.old.items out.new.items) }
    ensures unchanged { OnErr result (out.new.items ≡ out.old.items) }
    ensures refused { IfErr result
        (λ e. IsWritingRefusal e.reason (HasLongListing T.data.lists T.data.shape t.now)) }
{
    let value = encode(alloc, t)?;
    seal_bytes(label, &value, out)
}

/// Seals a value: the bytes from `encode`, with a header that identifies them and a checksum.
///
/// This adds 24 bytes. `open` accepts bytes from a file or a network, and rejects them if they are cut off, damaged or
/// have another label.
///
/// Errors: those of `encode`, and `out of memory` if the allocation for the bytes fails.
///
/// ```text
/// let bytes = seal(alloc, RECORDS, &record)?;
/// ```
pub fn seal<T: HasEncoder + Shaped>(alloc: Global, label: Label, t: &T) -> Result<Vec<u8>, Error>
where
    T::Encoder: Buffer + Encoder<T> + Drop,
    ensures written { IfOk result
        (λ bytes. IsSealingOf T.data.lists T.data.shape label t.now bytes.items) }
    ensures refused { IfErr result
        (λ e. IsWritingRefusal e.reason (HasLongListing T.data.lists T.data.shape t.now)) }
{
    let mut bytes = Vec::new(alloc);
    seal_into(alloc, label, t, &mut bytes)?;
    Ok(bytes)
}

// The value that the bytes spell, as `decode` reads it.
fn decode_value<'a, T: HasDecoder<'a> + Shaped + Drop>(
    alloc: Global,
    value: &'a [u8],
) -> Result<T, OpenError>
where
    T::Decoder: NewDecoder + View<'a> + Decoder<T> + Drop,
    ensures found { IfOk result (λ t. IsDecodingOf T.data.makes T.data.shape value.now t) }
    ensures refused { IfErr result
        (λ e. IsDecodingRefusal T.Decoder.makes_free T.Decoder.shape T.data.shape
        value.now e) }
{
    match decode(alloc, value) {
        Ok(t) => Ok(t),
        Err(e) => Err(OpenError::Value(e)),
    }
}

/// Opens sealed bytes: decodes the one value that is sealed in the whole input.
///
/// It reads the value only after its checksum was verified. The call keeps no memory.
///
/// Errors: the first `OpenError` that applies, in the order of their declaration. `Value` contains the error of
/// `decode`, and comes last.
///
/// ```text
/// let record: Record = open(alloc, &EXPECTED, &bytes)?;
/// ```
pub fn open<'a, T: HasDecoder<'a> + Shaped + Drop>(
    alloc: Global,
    expected: &Expected,
    bytes: &'a [u8],
) -> Result<T, OpenError>
where
    T::Decoder: NewDecoder + View<'a> + Decoder<T> + Drop,
    ensures found { IfOk result
        (λ t. IsOpeningOf T.data.makes T.data.shape expected.now bytes.now t) }
    ensures refused { IfErr result
        (λ e. IsRefusal T.Decoder.makes_free T.Decoder.shape T.data.shape
        expected.now
        bytes.now e) }
{
    let (value, rest) = split_sealed(expected, bytes)?;
    if !rest.is_empty() {
        return Err(OpenError::BytesLeftOver {
            count: rest.len() as u64,
        });
    }
    decode_value(alloc, value)
}

/// Opens the sealed bytes at the front of the input, and advances the input past them.
///
/// So values that were sealed one after another can be opened one by one. It reads the value only after its checksum
/// was verified.
///
/// Errors: the first `OpenError` that applies, in the order of their declaration, but never `BytesLeftOver`. The input
/// is then unchanged: a reader of a stream appends to it after `CutOff`, and [`split_sealed`] skips a value that
/// `decode` rejects.
///
/// ```text
/// let mut input = bytes.as_slice();
/// while !input.is_empty() {
///     let record: Record = open_front(alloc, &EXPECTED, &mut input)?;
/// }
/// ```
pub fn open_front<'a, T: HasDecoder<'a> + Shaped + Drop>(
    alloc: Global,
    expected: &Expected,
    input: &mut &'a [u8],
) -> Result<T, OpenError>
where
    T::Decoder: NewDecoder + View<'a> + Decoder<T> + Drop,
    ensures found { IfOk result
        (λ t. IsOpeningOfFront T.data.makes T.data.shape expected.now input.old.now t
        input.new.now) }
    ensures refused { IfErr result
        (λ e. IsRefusalOfFront T.Decoder.makes_free T.Decoder.shape T.data.shape
        expected.now input.old.now e) }
    ensures unchanged { OnErr result (input.new.now ≡ input.old.now) }
{
    let (value, rest) = split_sealed(expected, *input)?;
    let t = decode_value(alloc, value)?;
    *input = rest;
    Ok(t)
}
