//! Calls for whole values: encoding one value, and decoding all bytes of an input or a prefix of it.
ghost use Rattle.std.specs.Prelude.{◌≢◌, ℕ, List, IsErrOf, IfSome, IfOk, OnOk, IfErr, OnErr};
ghost use Rattle.bitcode_columns.specs.Reading.{IsEndOf};
ghost use Rattle.bitcode_shapes.specs.Datum.{Datum};
ghost use Rattle.bitcode_coder.specs.Coder.{BeginsWith, IsWritingRefusal, IsReadingReason};
ghost use Rattle.bitcode_derive.specs.Front.{IsWrittenBehind, BeginsWithDatum, IsDecodingOfFront, BeginsWithAtMostOne};
ghost use Rattle.bitcode_derive.specs.Front.{IsBoundedByFront, NamesFrontFault};
ghost use Rattle.bitcode_derive.specs.Strict.{IsStrictDecodingOf, IsStrictRefusal};
ghost use Rattle.bitcode_derive.specs.StrictFront.{IsStrictDecodingOfFront, IsStrictFrontRefusal};
ghost use Rattle.bitcode_derive.specs.Whole.{IsEncodingOf, HasLongListing, IsDecodingOf, SpellsDatum, SpellsAtMostOne};
ghost use Rattle.bitcode_derive.specs.Whole.{IsBoundedByBytes, NamesWholeFault};
ghost use Rattle.bitcode_derive.specs.Within.{IsDecodingWithin, IsRefusalWithin, NamesFaultWithin};

use crate::derive::{HasDecoder, HasEncoder};
use bitcode_coder::coder::{Buffer, Decoder, Encoder, NewDecoder, View};
use bitcode_coder::one::write_one;
use bitcode_memory::consume::expect_eof;
use bitcode_memory::error::{Error, Reason};
use bitcode_memory::refuse::err;
use bitcode_shapes::shaped::Shaped;
use std::alloc::Global;

// For so many bytes `encode` asks at once: most single records fit, which would else be moved as they grow.
const FIRST_ROOM: usize = 64;

/// Appends the encoding of a value to `out`.
///
/// Several values appended like this can be decoded one by one with `decode_front`.
///
/// Errors: `length overflow` if some number of arrays in the value times their size exceeds 18446744073709551615, and
/// `out of memory` if an allocation fails. `out` then still begins with what it held before.
///
/// ```rust
/// let mut out = Vec::new(alloc);
/// encode_into(alloc, &true, &mut out)?;
/// encode_into(alloc, &7u16, &mut out)?;
/// assert_eq!(rt; out.as_slice(), [1, 7, 0].as_slice());
/// ```
pub fn encode_into<T: HasEncoder + Shaped>(
    alloc: Global,
    t: &T,
    out: &mut Vec<u8>,
) -> Result<(), Error>
where
    T::Encoder: Buffer + Encoder<T> + Drop,
    ensures written { OnOk result
        (IsWrittenBehind T.data.lists T.data.shape t.now out.old.items out.new.items) }
    ensures begins { BeginsWith out.old.items out.new.items }
    ensures refused { IfErr result
        (λ e. IsWritingRefusal e.reason (HasLongListing T.data.lists T.data.shape t.now)) }
{
    let mut encoder = T::Encoder::new(alloc);
    write_one(&mut encoder, t, out)
}

/// Encodes a value: the concatenated texts of its columns.
///
/// Only a value with hashed containers or heaps inside can have several encodings. The call keeps no memory.
///
/// Errors: `length overflow` if some number of arrays in the value times their size exceeds 18446744073709551615, and
/// `out of memory` if an allocation fails.
///
/// ```rust
/// let bytes = encode(alloc, &(true, 7u16))?;
/// assert_eq!(rt; bytes.as_slice(), [1, 7, 0].as_slice());
/// ```
pub fn encode<T: HasEncoder + Shaped>(alloc: Global, t: &T) -> Result<Vec<u8>, Error>
where
    T::Encoder: Buffer + Encoder<T> + Drop,
    ensures written { IfOk result
        (λ bytes. IsEncodingOf T.data.lists T.data.shape t.now bytes.items) }
    ensures refused { IfErr result
        (λ e. IsWritingRefusal e.reason (HasLongListing T.data.lists T.data.shape t.now)) }
{
    let mut bytes = Vec::with_capacity(alloc, FIRST_ROOM)?;
    encode_into(alloc, t, &mut bytes)?;
    Ok(bytes)
}

// Reads a value straight from the front of the input, if its decoder does that, and gives what is left behind it.
#[inline(always)]
fn read_front<'a, T: Shaped, D: Decoder<T>>(alloc: Global, bytes: &'a [u8]) -> Option<(T, &'a [u8])>
    ensures { IfSome result
        (λ read. IsDecodingOfFront T.data.makes T.data.shape bytes.now read.0 read.1.now) }
{
    if !D::READS_ONE {
        return None;
    }
    let mut rest = bytes;
    let t = D::read_one(alloc, &mut rest)?;
    Some((t, rest))
}

// Reads a value straight from the whole input, if its decoder does that and nothing is left behind it.
#[inline(always)]
fn read_whole<T: Shaped + Drop, D: Decoder<T>>(alloc: Global, bytes: &[u8]) -> Option<T>
    ensures { IfSome result (λ t. IsDecodingOf T.data.makes T.data.shape bytes.now t) }
{
    let (t, rest) = read_front::<T, D>(alloc, bytes)?;
    if rest.is_empty() { Some(t) } else { None }
}

/// Decodes the bytes, which must encode exactly one value.
///
/// It validates the input completely, and accepts no trailing bytes. The call keeps no memory.
///
/// Errors: the first fault of the input, `Expected EOF` if bytes are left after the value, and `out of memory` if an
/// allocation fails: for a column, once all its bytes are there, or for the value, once the bytes are known to encode
/// one. Every other error means that the bytes encode no value.
///
/// ```rust
/// let pair: (bool, u16) = decode(alloc, &[1, 7, 0])?;
/// assert!(rt; pair == (true, 7));
/// ```
pub fn decode<'a, T: HasDecoder<'a> + Shaped + Drop>(
    alloc: Global,
    bytes: &'a [u8],
) -> Result<T, Error>
where
    T::Decoder: NewDecoder + View<'a> + Decoder<T> + Drop,
    ensures found { IfOk result (λ t. IsDecodingOf T.data.makes T.data.shape bytes.now t) }
    ensures unambiguous { SpellsAtMostOne T.data.shape bytes.now }
    ensures bounded { IsBoundedByBytes T.data.shape bytes.now }
    ensures reasons { IfErr result (λ e. IsReadingReason e.reason) }
    ensures refused { IfErr result
        (λ e. e.reason ≢ Reason.OutOfMemory → (d : Datum) → SpellsDatum T.data.shape bytes.now d
        → ⊥) }
    ensures exact { IfErr result
        (λ e. NamesWholeFault T.Decoder.makes_free T.Decoder.shape e.reason
        bytes.now) }
{
    if let Some(t) = read_whole::<T, T::Decoder>(alloc, bytes) {
        return Ok(t);
    }
    let mut input = bytes;
    let mut decoder = T::Decoder::new(alloc);
    decoder.populate(&mut input, 1)?;
    expect_eof(input)?;
    // Nothing else refers to the moved decoder, so its positions can stay in registers.
    let mut unshared = decoder;
    unshared.decode()
}

/// Decodes the bytes, which must encode exactly one value, as [`decode`] does, if the value has at most `most` elements
/// without columns in all: elements of lists, sets and arrays, and keys of maps. Only these occupy no bytes.
///
/// Errors: those of `decode`, and `too many zero sized types` if the bytes encode a value with more such elements. No
/// part of the value is made then. If the bytes have another fault, the error is that fault.
///
/// ```rust
/// let units = encode(alloc, &[(), (), ()])?; // no bytes
/// let few: Result<[(); 3], Error> = decode_within(alloc, &units, 2);
/// assert_eq!(rt; few, err(Reason::TooManyZeroSizedTypes));
/// let pair: (bool, u16) = decode_within(alloc, &[1, 7, 0], 0)?;
/// assert!(rt; pair == (true, 7));
/// ```
pub fn decode_within<'a, T: HasDecoder<'a> + Shaped + Drop>(
    alloc: Global,
    bytes: &'a [u8],
    most: usize,
) -> Result<T, Error>
where
    T::Decoder: NewDecoder + View<'a> + Decoder<T> + Drop,
    ensures found { IfOk result (λ t. IsDecodingWithin most T.data.makes T.data.shape bytes.now t) }
    ensures unambiguous { SpellsAtMostOne T.data.shape bytes.now }
    ensures bounded { IsBoundedByBytes T.data.shape bytes.now }
    ensures refused { IfErr result (λ e. IsRefusalWithin most T.data.shape e.reason bytes.now) }
    ensures exact { IfErr result
        (λ e. NamesFaultWithin most T.Decoder.makes_free T.Decoder.shape e.reason
        bytes.now) }
{
    let mut rest = bytes;
    let mut decoder = T::Decoder::new(alloc);
    decoder.populate(&mut rest, 1)?;
    expect_eof(rest)?;
    if decoder.column_free().inside > most as u128 {
        return err(Reason::TooManyZeroSizedTypes);
    }
    let mut unshared = decoder;
    unshared.decode()
}

/// Decodes the bytes, which must encode exactly one value, as [`decode`] does, and must be those that are written for
/// the entries of each column. So it accepts each list of columns in only one form.
///
/// Errors: those of `decode`, and `not the written text` if the bytes encode a value but some column has different
/// bytes. If the bytes have another fault, the error is that fault.
///
/// ```
/// let flag: bool = decode_strict(alloc, &[1])?;
/// let same: bool = decode(alloc, &[255])?; // its unused digits are not 0, so `decode_strict` refuses it
/// ```
pub fn decode_strict<'a, T: HasDecoder<'a> + Shaped + Drop>(
    alloc: Global,
    bytes: &'a [u8],
) -> Result<T, Error>
where
    T::Decoder: NewDecoder + View<'a> + Decoder<T> + Drop,
    ensures found { IfOk result (λ t. IsStrictDecodingOf T.data.makes T.data.shape bytes.now t) }
    ensures unambiguous { SpellsAtMostOne T.data.shape bytes.now }
    ensures bounded { IsBoundedByBytes T.data.shape bytes.now }
    ensures refused { IfErr result (λ e. IsStrictRefusal T.data.shape e.reason bytes.now) }
    ensures exact { IfErr result
        (λ e. e.reason ≢ Reason.NotTheWrittenText
        → NamesWholeFault T.Decoder.makes_free T.Decoder.shape e.reason
        bytes.now) }
{
    let mut input = bytes;
    let mut decoder = T::Decoder::new(alloc);
    let written = decoder.populate_strict(&mut input, 1)?;
    expect_eof(input)?;
    if !written {
        return err(Reason::NotTheWrittenText);
    }
    let mut unshared = decoder;
    unshared.decode()
}

/// Decodes the one value at the front of the input, and advances the input past it.
///
/// It validates all of that prefix.
///
/// Errors: the first fault of the input, and `out of memory` if an allocation fails: for a column, once all its bytes
/// are there, or for the value, once a prefix is known to encode one. The input is then a suffix of what it was. Every
/// other error means that no prefix encodes a value.
///
/// ```rust
/// let mut input: &[u8] = &[1, 7, 0];
/// let flag: bool = decode_front(alloc, &mut input)?;
/// let number: u16 = decode_front(alloc, &mut input)?;
/// assert!(rt; flag && number == 7 && input.is_empty());
/// ```
pub fn decode_front<'a, T: HasDecoder<'a> + Shaped + Drop>(
    alloc: Global,
    input: &mut &'a [u8],
) -> Result<T, Error>
where
    T::Decoder: NewDecoder + View<'a> + Decoder<T> + Drop,
    ensures found { IfOk result
        (λ t. IsDecodingOfFront T.data.makes T.data.shape input.old.now t input.new.now) }
    ensures unambiguous { BeginsWithAtMostOne T.data.shape input.old.now }
    ensures bounded { IsBoundedByFront T.data.shape input.old.now }
    ensures reasons { IfErr result (λ e. IsReadingReason e.reason) }
    ensures refused { IfErr result
        (λ e. e.reason ≢ Reason.OutOfMemory → (d : Datum) (rest : List ℕ)
        → BeginsWithDatum T.data.shape input.old.now d rest → ⊥) }
    ensures exact { IfErr result
        (λ e. NamesFrontFault T.Decoder.makes_free T.Decoder.shape e.reason
        input.old.now) }
    ensures rest { OnErr result (IsEndOf input.old.now input.new.now) }
{
    if let Some((t, rest)) = read_front::<T, T::Decoder>(alloc, *input) {
        *input = rest;
        return Ok(t);
    }
    let mut decoder = T::Decoder::new(alloc);
    decoder.populate(input, 1)?;
    let mut unshared = decoder;
    unshared.decode()
}

/// Decodes the one value at the front of the input, as [`decode_front`] does, and advances the input past it. The bytes
/// must be those that are written for the entries of each column.
///
/// Errors: those of `decode_front`, and `not the written text` if a prefix encodes a value but some column has
/// different bytes. If the bytes have another fault, the error is that fault. After `not the written text`, the input
/// begins after the value.
///
/// ```rust
/// let mut input: &[u8] = &[1, 7, 0];
/// let flag: bool = decode_front_strict(alloc, &mut input)?;
/// let number: u16 = decode_front_strict(alloc, &mut input)?;
/// assert!(rt; flag && number == 7 && input.is_empty());
/// ```
pub fn decode_front_strict<'a, T: HasDecoder<'a> + Shaped + Drop>(
    alloc: Global,
    input: &mut &'a [u8],
) -> Result<T, Error>
where
    T::Decoder: NewDecoder + View<'a> + Decoder<T> + Drop,
    ensures found { IfOk result
        (λ t. IsStrictDecodingOfFront T.data.makes T.data.shape input.old.now t input.new.now) }
    ensures unambiguous { BeginsWithAtMostOne T.data.shape input.old.now }
    ensures bounded { IsBoundedByFront T.data.shape input.old.now }
    ensures refused { IfErr result
        (λ e. IsStrictFrontRefusal T.data.shape e.reason input.old.now input.new.now) }
    ensures exact { IfErr result (λ e. e.reason ≢ Reason.NotTheWrittenText
        → NamesFrontFault T.Decoder.makes_free T.Decoder.shape e.reason
        input.old.now) }
    ensures rest { OnErr result (IsEndOf input.old.now input.new.now) }
{
    let mut decoder = T::Decoder::new(alloc);
    let written = decoder.populate_strict(input, 1)?;
    if !written {
        return err(Reason::NotTheWrittenText);
    }
    let mut unshared = decoder;
    unshared.decode()
}

/// The error for a type without a variant of the index that was read: `invalid enum variant`.
///
/// ```
/// let none: Result<u8, Error> = invalid_enum_variant();
/// ```
pub fn invalid_enum_variant<T>() -> Result<T, Error>
    ensures { IsErrOf result (record { reason = Reason.InvalidEnumVariant }) }
{
    err(Reason::InvalidEnumVariant)
}
