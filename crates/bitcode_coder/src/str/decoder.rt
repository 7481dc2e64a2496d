//! The decoder of texts.
ghost use Rattle.std.specs.Prelude.{◌≡◌, ℕ, ◌+◌, ◌<◌, ◌≤◌, List, [], ◌∷◌, ◌++◌, None, true, false, refl, length};
ghost use Rattle.std.specs.Prelude.{drop, map, sum, vec_len, vec_capacity, All, IsUtf8, MatchBool, IsTrue, IfSome};
ghost use Rattle.std.specs.Prelude.{IfOk, OnOk, IfErr, OnErr};
ghost use Rattle.std.specs.Str.{IsAscii, IsCharBoundary};
ghost use Rattle.std.proofs.Props.{props};
ghost use Rattle.bitcode_memory.specs.Fast.{slice_rest};
ghost use Rattle.bitcode_columns.specs.Reading.{Reads, IsEndOf};
ghost use Rattle.bitcode_shapes.specs.Datum.{text};
ghost use Rattle.bitcode_shapes.specs.Shape.{text_shape};
ghost use Rattle.bitcode_coder.specs.Coder.{ReadsValue, ReadsValues};
ghost use Rattle.bitcode_coder.specs.Cutting.{cut};
ghost use Rattle.bitcode_coder.specs.JoinedTexts.{ends_from};
ghost use Rattle.bitcode_coder.specs.Length.{short_left, large_left, lengths_left, lengths_owned};
ghost use Rattle.bitcode_coder.specs.LengthParts.{ReadsParts};
ghost use Rattle.bitcode_coder.specs.Spelling.{Spells};
ghost use Rattle.bitcode_coder.specs.Strict.{JudgesData};
ghost use Rattle.bitcode_coder.specs.TextParts.{NamesTextFault};

use crate::coder::{Decoder, HoldsData, NewDecoder, View};
use crate::column_free::ColumnFree;
use crate::length::LengthDecoder;
use bitcode_memory::consume::consume_bytes;
use bitcode_memory::error::{Error, Reason};
use bitcode_memory::fast::{FastSlice, NextUnchecked};
use bitcode_memory::refuse::err;
use bitcode_shapes::shaped::Shaped;
use std::alloc::Global;
use std::borrow::CowStr;
use std::boxed::BoxedStr;
use std::rc::RcStr;
use std::str::{from_utf8, from_utf8_unchecked};
use std::sync::ArcStr;

// Fewer bytes are looked at one by one.
const FEW: usize = 64;

/// The column that texts are read from.
///
/// A `&str` borrows from the input without allocating. The other types of texts are copies.
///
/// ```
/// let mut column = StrDecoder::new(alloc);
/// column.populate(&mut input, 2)?; // [2, 1, 97, 98, 99]
/// let first: &str = column.decode()?; // "ab"
/// let second: String = column.decode()?; // "c"
/// ```
#[derive(Drop)]
pub struct StrDecoder<'a> {
    alloc: Global,
    pub(super) lengths: LengthDecoder<'a>,
    bytes: FastSlice<'a, u8>,
    ghost utf8: { All IsUtf8 (cut (lengths_left lengths) (slice_rest bytes)) } by { Prim.hlevel
        props },
}

// Whether each text of such lengths ends where a character of the whole text begins, or where that ends.
fn ends_at_chars(whole: &str, lengths: &LengthDecoder<'_>) -> bool
    requires { sum (lengths_left lengths.now) ≡ length whole.now }
    ensures { MatchBool result
        (All (IsCharBoundary whole.now) (ends_from 0 (lengths_left lengths.now)))
        (All (IsCharBoundary whole.now) (ends_from 0 (lengths_left lengths.now)) → ⊥) }
{
    let mut rest = lengths.borrowed_clone();
    let mut place = 0;
    for _ in 0..lengths.remaining() {
        place += rest.decode();
        if !whole.is_char_boundary(place) {
            return false;
        }
    }
    true
}

// The greater of two bytes.
#[inline(always)]
fn greater(a: u8, b: u8) -> u8
    ensures first { a ≤ result }
    ensures second { b ≤ result }
{
    if a < b { b } else { a }
}

// The greatest of the bytes, and 0 of none: the compiler compares many at once.
fn greatest_byte(bytes: &[u8]) -> u8
    ensures { All (λ byte. byte ≤ result) bytes.now }
{
    let mut greatest = 0;
    for byte in bytes {
        greatest = greater(greatest, *byte);
    }
    greatest
}

// Whether all bytes are ASCII.
fn are_ascii(bytes: &[u8]) -> bool
    ensures { IsTrue result → IsAscii bytes.now }
{
    if bytes.len() < FEW {
        bytes.is_ascii()
    } else {
        greatest_byte(bytes) < 128
    }
}

// Cuts the first `count` texts of such lengths off the bytes, and pushes them. Room for them was reserved. The list is
// taken and given back: behind a reference its length would be read and written at each push.
fn push_texts<'a>(
    lengths: &[u8],
    count: usize,
    bytes: &'a [u8],
    mut texts: Vec<&'a str>,
) -> (Vec<&'a str>, &'a [u8])
    requires left { count ≤ length (cut lengths.now bytes.now) }
    requires utf8 { All IsUtf8 (cut lengths.now bytes.now) }
    requires room { vec_len texts + count ≤ vec_capacity texts }
    ensures joined { map (λ t. t.now) result.0.items ++ cut (drop count lengths.now) result.1.now
        ≡ map (λ t. t.now) texts.entry.items ++ cut lengths.now bytes.now }
    ensures size { vec_len result.0 ≡ vec_len texts.entry + count }
    ensures utf8 { All IsUtf8 (cut (drop count lengths.now) result.1.now) }
{
    let mut rest = bytes;
    for place in 0..count {
        let (text, behind) = rest.split_at(lengths[place] as usize);
        texts.push_reserved(unsafe { from_utf8_unchecked(text) });
        rest = behind;
    }
    (texts, rest)
}

// Whether each text of such lengths is UTF-8: the bytes are, and they are cut at characters.
fn are_texts(bytes: &[u8], lengths: &LengthDecoder<'_>) -> bool
    requires { sum (lengths_left lengths.now) ≡ length bytes.now }
    ensures { MatchBool result (All IsUtf8 (cut (lengths_left lengths.now) bytes.now))
        (All IsUtf8 (cut (lengths_left lengths.now) bytes.now) → ⊥) }
{
    // An ASCII text is UTF-8 wherever it is cut.
    if are_ascii(bytes) {
        return true;
    }
    match from_utf8(bytes) {
        Ok(whole) => ends_at_chars(whole, lengths),
        Err(_) => false,
    }
}

impl<'a> StrDecoder<'a> {
    // Reads a column, all checks included. Where `strict`, the answer is whether its bytes are its text.
    #[inline(always)]
    pub(super) fn read_column(
        &mut self,
        input: &mut &'a [u8],
        k: usize,
        strict: bool,
    ) -> Result<bool, Error>
        ensures read { OnOk result
            (Reads (Spells (text_shape None)) k input.old.now
            (map text (cut (lengths_left self.new.lengths) (slice_rest self.new.bytes)))
            input.new.now) }
        ensures judged { IsTrue strict → IfOk result
            (λ written. JudgesData (text_shape None)
            (map text (cut (lengths_left self.new.lengths) (slice_rest self.new.bytes))) written
            input.old.now input.new.now) }
        ensures parts { OnOk result
            ((middle : List ℕ) × ReadsParts k input.old.now (short_left self.new.lengths)
            (large_left self.new.lengths) middle) }
        ensures refused { IfErr result (λ e. NamesTextFault e.reason k input.old.now) }
        ensures rest { OnErr result (IsEndOf input.old.now input.new.now) }
    {
        let none: &[u8] = &[];
        self.bytes = FastSlice::from(none);
        let written = self.lengths.read(input, k, strict)?;
        let bytes = consume_bytes(input, self.lengths.length())?;
        if !are_texts(bytes, &self.lengths) {
            return err(Reason::InvalidUtf8);
        }
        self.bytes = FastSlice::from(bytes);
        Ok(written)
    }

    // Takes the next text, a slice of the input.
    pub(super) fn take_text(&mut self) -> &'a str
        requires { 0 < length (cut (lengths_left self.old.lengths) (slice_rest self.old.bytes)) }
        ensures { cut (lengths_left self.old.lengths) (slice_rest self.old.bytes) ≡ result.now ∷ cut
            (lengths_left self.new.lengths) (slice_rest self.new.bytes) }
    {
        let length = self.lengths.decode();
        let bytes = self.bytes.chunk_unchecked(length);
        unsafe { from_utf8_unchecked(bytes) }
    }

    // Takes the next texts one by one, and pushes them. Room for them was reserved.
    fn take_each(&mut self, mut texts: Vec<&'a str>, count: usize) -> Vec<&'a str>
        requires left { count ≤ length
            (cut (lengths_left self.old.lengths) (slice_rest self.old.bytes)) }
        requires room { vec_len texts + count ≤ vec_capacity texts }
        ensures joined { map (λ t. t.now) result.items ++ cut (lengths_left self.new.lengths)
            (slice_rest self.new.bytes)
            ≡ map (λ t. t.now) texts.entry.items ++ cut (lengths_left self.old.lengths)
            (slice_rest self.old.bytes) }
        ensures size { vec_len result ≡ vec_len texts.entry + count }
    {
        for _taken in 0..count {
            texts.push_reserved(self.take_text());
        }
        texts
    }
}

impl<'a> HoldsData for StrDecoder<'a> {
    ghost shape = { text_shape None };

    ghost held = { λ d. map text (cut (lengths_left d.lengths) (slice_rest d.bytes)) };

    ghost owned = { λ d. lengths_owned d.lengths };

    ghost free_inside = { λ d. 0 };
}

impl<'a> NewDecoder for StrDecoder<'a> {
    fn new(alloc: Global) -> Self {
        let none: &[u8] = &[];
        StrDecoder {
            alloc,
            lengths: LengthDecoder::new(alloc),
            bytes: FastSlice::from(none),
        }
    }

    fn column_free(&self) -> ColumnFree {
        ColumnFree::entries()
    }
}

impl<'a> View<'a> for StrDecoder<'a> {
    #[inline(always)]
    fn read(&mut self, input: &mut &'a [u8], k: usize, strict: bool) -> Result<bool, Error> {
        self.read_column(input, k, strict)
    }
}

impl<'a> Decoder<&'a str> for StrDecoder<'a> {
    ghost makes_free = { true };

    fn decode(&mut self) -> Result<&'a str, Error> {
        Ok(self.take_text())
    }

    fn decode_many(&mut self, alloc: Global, count: usize) -> Result<Vec<&'a str>, Error> {
        let texts = Vec::with_capacity(alloc, count)?;
        let Some(lengths) = self.lengths.as_short() else {
            return Ok(self.take_each(texts, count));
        };
        let (texts, rest) = push_texts(lengths, count, self.bytes.as_slice(), texts);
        self.bytes = FastSlice::from(rest);
        self.lengths.pass_short(count);
        Ok(texts)
    }

    ghost same_shape = { refl };
}

impl<'a> Decoder<String> for StrDecoder<'a> {
    ghost makes_free = { false };

    fn decode(&mut self) -> Result<String, Error> {
        let text = self.take_text();
        Ok(String::from_str(self.alloc, text)?)
    }

    const READS_ONE: bool = true;

    #[inline(always)]
    fn read_one(alloc: Global, input: &mut &[u8]) -> Option<String>
        ensures { IfSome result
            (λ t. ReadsValue ⟦<String as Shaped>⟧.data.makes (text_shape None) input.old.now t
            input.new.now) }
    {
        let mut column = StrDecoder::new(alloc);
        let Ok(_) = column.read(input, 1, false) else {
            return None;
        };
        let first: Result<String, Error> = column.decode();
        let Ok(first) = first else {
            return None;
        };
        Some(first)
    }

    const READS_LISTS: bool = true;

    fn read_list(alloc: Global, input: &mut &[u8], count: usize) -> Option<Vec<String>>
        ensures { IfSome result
            (λ items. ReadsValues ⟦<String as Shaped>⟧.data.makes (text_shape None) count
            input.old.now items.items
            input.new.now) }
    {
        let mut column = StrDecoder::new(alloc);
        let Ok(_) = column.read(input, count, false) else {
            return None;
        };
        // Nothing else refers to the moved decoder, so its positions can stay in registers.
        let mut unshared = column;
        let items: Result<Vec<String>, Error> = unshared.decode_many(alloc, count);
        let Ok(items) = items else {
            return None;
        };
        Some(items)
    }

    ghost same_shape = { refl };
}

impl<'a> Decoder<BoxedStr> for StrDecoder<'a> {
    ghost makes_free = { false };

    fn decode(&mut self) -> Result<BoxedStr, Error> {
        let text = self.take_text();
        Ok(BoxedStr::from_str(self.alloc, text)?)
    }

    ghost same_shape = { refl };
}

impl<'a> Decoder<RcStr> for StrDecoder<'a> {
    ghost makes_free = { false };

    fn decode(&mut self) -> Result<RcStr, Error> {
        let text = self.take_text();
        Ok(RcStr::from_str(self.alloc, text)?)
    }

    ghost same_shape = { refl };
}

impl<'a> Decoder<ArcStr> for StrDecoder<'a> {
    ghost makes_free = { false };

    fn decode(&mut self) -> Result<ArcStr, Error> {
        let text = self.take_text();
        Ok(ArcStr::from_str(self.alloc, text)?)
    }

    ghost same_shape = { refl };
}

impl<'a> Decoder<CowStr<'a>> for StrDecoder<'a> {
    ghost makes_free = { true };

    fn decode(&mut self) -> Result<CowStr<'a>, Error> {
        Ok(CowStr::Borrowed(self.take_text()))
    }

    ghost same_shape = { refl };
}
