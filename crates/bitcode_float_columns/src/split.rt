//! Packing and unpacking the bits of 4-byte floats.
ghost use Rattle.std.specs.Prelude.{◌≡◌, ◌+◌, ◌-◌, ◌*◌, ◌/◌, ◌<◌, ◌≤◌, ◌++◌, [], ◌∷◌, ◌↔◌};
ghost use Rattle.std.specs.Prelude.{Some, length, map, take, drop, to_bits, from_bits, vec_len};
ghost use Rattle.std.specs.Prelude.{vec_capacity, IsTrue, IsOk, IfOk, OnOk, IfErr, OnErr, All, MatchBool};
ghost use Rattle.std.specs.Float.{binary32};
ghost use Rattle.bitcode_memory.specs.LittleEndian.{raw_text};
ghost use Rattle.bitcode_columns.specs.Reading.{Reads, missing};
ghost use Rattle.bitcode_float_columns.specs.FloatColumn.{canonical, low_of, top_of, split_text, SpellsSplit};
ghost use Rattle.bitcode_float_columns.specs.Split.{split_rest};

use crate::bits::{bits_of_f32s, f32s_with_bits, is_canonical_f32};
use bitcode_memory::error::{Error, Reason};
use bitcode_memory::fast::{FastSlice, NextUnchecked};
use bitcode_memory::ints::{known_bytes, push_bytes};
use bitcode_memory::refuse::err;
use std::alloc::Global;
use std::mem::replace;
use std::num::{f32_from_bits_with_nan, f32_to_bits_with_nan};
use std::simd::prelude::*;

// The four floats of a block.
#[inline(always)]
fn four_at(floats: &[f32], block: usize) -> f32x4
    requires { block < length floats.now / 4 }
    ensures items { result ≡ take 4 (drop (4 * block) floats.now) }
    ensures len { length result ≡ 4 }
{
    f32x4::from_slice(&floats[4 * block..])
}

// The text of four floats alone: the three low bytes of each, and then the top byte of each.
#[inline(always)]
fn text_of_four(floats: f32x4) -> [u8; 16]
    requires { length floats ≡ 4 }
    ensures { result ≡ split_text (map (λ x. to_bits binary32 x) floats) }
{
    let bytes = bits_of_f32s(floats).to_le_bytes();
    let text: u8x16 = bytes.swizzle([0, 1, 2, 4, 5, 6, 8, 9, 10, 12, 13, 14, 3, 7, 11, 15]);
    text.to_array()
}

// Appends the three low bytes of each of a few floats. The caller must have reserved the room.
fn push_few_lows(floats: &[f32], mut out: Vec<u8>) -> Vec<u8>
    requires { vec_len out + 3 * length floats.now ≤ vec_capacity out }
    ensures written { result.items ≡ out.items ++ raw_text 3
        (map (λ x. low_of (to_bits binary32 x)) floats.now) }
    ensures len { vec_len result ≡ vec_len out + 3 * length floats.now }
    ensures capacity { vec_capacity result ≡ vec_capacity out }
{
    for float in floats {
        let bits = f32_to_bits_with_nan(*float);
        let low = (bits % 0x100) as u8;
        let middle = (bits / 0x100 % 0x100) as u8;
        let high = (bits / 0x1_0000 % 0x100) as u8;
        push_bytes(&[low, middle, high], &mut out);
    }
    out
}

// Appends the top byte of each of a few floats. The caller must have reserved the room.
fn push_few_tops(floats: &[f32], mut out: Vec<u8>) -> Vec<u8>
    requires { vec_len out + length floats.now ≤ vec_capacity out }
    ensures { result.items ≡ out.items ++ map (λ x. top_of (to_bits binary32 x)) floats.now }
{
    for float in floats {
        out.push_reserved((f32_to_bits_with_nan(*float) >> 24) as u8);
    }
    out
}

// Appends the three low bytes of each float, four floats at a time. The caller must have reserved the room.
//
// The list is handed over and given back: its length is then kept in a register while bytes are written.
fn push_lows(floats: &[f32], mut out: Vec<u8>) -> Vec<u8>
    requires { vec_len out + 3 * length floats.now ≤ vec_capacity out }
    ensures written { result.items ≡ out.items ++ raw_text 3
        (map (λ x. low_of (to_bits binary32 x)) floats.now) }
    ensures len { vec_len result ≡ vec_len out + 3 * length floats.now }
    ensures capacity { vec_capacity result ≡ vec_capacity out }
{
    let blocks = floats.len() / 4;
    for block in 0..blocks {
        let text = text_of_four(four_at(floats, block));
        push_bytes(&text[..12], &mut out);
    }
    let behind = 4 * blocks;
    let (_, rest) = floats.split_at(behind);
    push_few_lows(rest, out)
}

// Appends the top byte of each float, four floats at a time. The caller must have reserved the room.
fn push_tops(floats: &[f32], mut out: Vec<u8>) -> Vec<u8>
    requires { vec_len out + length floats.now ≤ vec_capacity out }
    ensures { result.items ≡ out.items ++ map (λ x. top_of (to_bits binary32 x)) floats.now }
{
    let blocks = floats.len() / 4;
    for block in 0..blocks {
        let text = text_of_four(four_at(floats, block));
        push_bytes(&text[12..], &mut out);
    }
    let behind = 4 * blocks;
    let (_, rest) = floats.split_at(behind);
    push_few_tops(rest, out)
}

/// Appends a column of floats: the three low bytes of each, and then the top byte of each. A NaN is written as the
/// quiet one without a sign, whatever its bits are.
///
/// If an allocation fails, the error is `out of memory` and `out` is unchanged.
///
/// ```rust
/// let mut out = Vec::new(alloc);
/// pack_f32s(&[1.0, -2.0], &mut out)?;
/// assert_eq!(rt; out.as_slice(), [0, 0, 128, 0, 0, 0, 63, 192].as_slice());
/// ```
pub fn pack_f32s(floats: &[f32], out: &mut Vec<u8>) -> Result<(), Error>
    ensures written { OnOk result
        (out.new.items ≡ out.old.items ++ split_text (map (λ x. to_bits binary32 x) floats.now)) }
    ensures unchanged { OnErr result (out.new.items ≡ out.old.items) }
    ensures reason { IfErr result (λ e. e.reason ≡ Reason.OutOfMemory) }
{
    let Some(size) = floats.len().checked_mul(4) else {
        return err(Reason::OutOfMemory);
    };
    out.reserve(size)?;
    let alloc = *out.allocator();
    let held = replace(out, Vec::new(alloc));
    let lows = push_lows(floats, held);
    *out = push_tops(floats, lows);
    Ok(())
}

// Appends four floats. The caller must have reserved the room.
#[inline(always)]
fn push_four(floats: [f32; 4], out: &mut Vec<f32>)
    requires { vec_len out.old + 4 ≤ vec_capacity out.old }
    ensures written { out.new.items ≡ out.old.items ++ floats }
    ensures len { vec_len out.new ≡ vec_len out.old + 4 }
    ensures capacity { vec_capacity out.new ≡ vec_capacity out.old }
{
    for float in &floats {
        out.push_reserved(*float);
    }
}

/// The bits of floats that are read from a column, front to back. They are borrowed from the input.
#[derive(Clone, Copy)]
pub struct SplitBits<'a> {
    // the three low bytes of each
    lows: FastSlice<'a, u8>,
    tops: FastSlice<'a, u8>,
}

impl<'a> SplitBits<'a> {
    /// Creates an empty list.
    pub fn new() -> Self
        ensures { split_rest result ≡ [] }
    {
        let none: &[u8] = &[];
        SplitBits {
            lows: FastSlice::from(none),
            tops: FastSlice::from(none),
        }
    }

    /// Takes the next bits.
    pub fn next_unchecked(&mut self) -> u32
        requires { 0 < length (split_rest self.old) }
        ensures { split_rest self.old ≡ result ∷ split_rest self.new }
    {
        let low = self.lows.chunk_unchecked(3);
        let top = self.tops.next_unchecked();
        u32::from_le_bytes([low[0], low[1], low[2], top])
    }

    // Takes the next four as floats. Two more must be left, so that sixteen low bytes can be looked at.
    #[inline(always)]
    fn next_four(&mut self) -> f32x4
        requires { 6 ≤ length (split_rest self.old) }
        ensures floats { result ≡ map (λ b. from_bits binary32 b) (take 4 (split_rest self.old)) }
        ensures rest { split_rest self.new ≡ drop 4 (split_rest self.old) }
        ensures len { length result ≡ 4 }
    {
        known_bytes(self.lows.as_slice());
        known_bytes(self.tops.as_slice());
        let lows = u8x16::from_slice(self.lows.as_slice());
        let tops = self.tops.chunk_unchecked(4);
        let tops = u8x16::from_array([
            tops[0], tops[1], tops[2], tops[3], 0, 0, 0, 0, 0, 0, 0, 0, 0, 0, 0, 0,
        ]);
        self.lows.advance(12);
        let bytes: u8x16 = lows.shuffle(
            tops,
            [0, 1, 2, 16, 3, 4, 5, 17, 6, 7, 8, 18, 9, 10, 11, 19],
        );
        f32s_with_bits(u32x4::from_le_bytes(bytes))
    }

    // Appends so many blocks of four floats. Two more floats must be left, and the room must be reserved.
    fn push_fours(&mut self, blocks: usize, mut floats: Vec<f32>) -> Vec<f32>
        requires left { 4 * blocks ≤ length (split_rest self.old) - 2 }
        requires room { vec_len floats + 4 * blocks ≤ vec_capacity floats }
        ensures taken { result.items ≡ floats.items
            ++ map (λ b. from_bits binary32 b) (take (4 * blocks) (split_rest self.old)) }
        ensures rest { split_rest self.new ≡ drop (4 * blocks) (split_rest self.old) }
        ensures len { vec_len result ≡ vec_len floats + 4 * blocks }
        ensures capacity { vec_capacity result ≡ vec_capacity floats }
    {
        let mut rest = *self;
        for _block in 0..blocks {
            push_four(rest.next_four().to_array(), &mut floats);
        }
        *self = rest;
        floats
    }

    // Appends so many floats, one by one. The room must be reserved.
    fn push_few(&mut self, count: usize, mut floats: Vec<f32>) -> Vec<f32>
        requires left { count ≤ length (split_rest self.old) }
        requires room { vec_len floats + count ≤ vec_capacity floats }
        ensures taken { result.items ≡ floats.items
            ++ map (λ b. from_bits binary32 b) (take count (split_rest self.old)) }
        ensures rest { split_rest self.new ≡ drop count (split_rest self.old) }
    {
        let mut rest = *self;
        for _taken in 0..count {
            floats.push_reserved(f32_from_bits_with_nan(rest.next_unchecked()));
        }
        *self = rest;
        floats
    }

    /// Takes the next `count` bits as the floats with these bits. At least as many must be left.
    ///
    /// If an allocation fails, the error is `out of memory`. It never does for a `count` of 0.
    pub fn floats_unchecked(&mut self, alloc: Global, count: usize) -> Result<Vec<f32>, Error>
        requires { count ≤ length (split_rest self.old) }
        ensures taken { IfOk result
            (λ floats. floats.items ≡ map (from_bits binary32) (take count (split_rest self.old))) }
        ensures rest { OnOk result (split_rest self.new ≡ drop count (split_rest self.old)) }
        ensures reason { IfErr result (λ e. e.reason ≡ Reason.OutOfMemory) }
        ensures none { count ≡ 0 → IsOk result }
    {
        let floats = Vec::with_capacity(alloc, count)?;
        let blocks = count.saturating_sub(2) / 4;
        let floats = self.push_fours(blocks, floats);
        Ok(self.push_few(count - 4 * blocks, floats))
    }
}

/// Reads a column of `count` floats from the front of the input into `out`, without allocating.
///
/// If bytes are missing, the error is `EOF`, and the input is unchanged.
pub fn unpack_f32s<'a>(
    input: &mut &'a [u8],
    count: usize,
    out: &mut SplitBits<'a>,
) -> Result<(), Error>
    ensures read { OnOk result
        (Reads SpellsSplit count input.old.now (split_rest out.new) input.new.now) }
    ensures refused { IfErr result (λ e. missing (count * 4) input.old.now ≡ Some e.reason) }
    ensures unchanged { OnErr result (input.new.now ≡ input.old.now) }
{
    let bytes = *input;
    if bytes.len() / 4 < count {
        return err(Reason::Eof);
    }
    known_bytes(bytes);
    let (lows, behind) = bytes.split_at(count * 3);
    let (tops, rest) = behind.split_at(count);
    out.lows = FastSlice::from(lows);
    out.tops = FastSlice::from(tops);
    *input = rest;
    Ok(())
}

// Whether an encoder writes each of these bits.
fn are_canonical(all: &SplitBits, count: usize) -> bool
    requires { count ≡ length (split_rest all.now) }
    ensures { MatchBool result (All (λ b. canonical binary32 b ≡ b) (split_rest all.now))
        (All (λ b. canonical binary32 b ≡ b) (split_rest all.now) → ⊥) }
{
    let mut rest = *all;
    for _taken in 0..count {
        let bits = rest.next_unchecked();
        if !is_canonical_f32(bits) {
            return false;
        }
    }
    true
}

/// Reads a column of floats as [`unpack_f32s`] does. If `strict`, it returns whether the bytes are those that would be
/// written for the floats: whether each NaN is the one that is written. Otherwise the returned bool has no meaning.
pub fn read_f32s<'a>(
    input: &mut &'a [u8],
    count: usize,
    out: &mut SplitBits<'a>,
    strict: bool,
) -> Result<bool, Error>
    ensures read { OnOk result
        (Reads SpellsSplit count input.old.now (split_rest out.new) input.new.now) }
    ensures judged { IsTrue strict → IfOk result
        (λ written. IsTrue written
        ↔ (input.old.now ≡ split_text (map (canonical binary32) (split_rest out.new))
        ++ input.new.now)) }
    ensures refused { IfErr result (λ e. missing (count * 4) input.old.now ≡ Some e.reason) }
    ensures unchanged { OnErr result (input.new.now ≡ input.old.now) }
{
    unpack_f32s(input, count, out)?;
    if !strict {
        return Ok(true);
    }
    Ok(are_canonical(out, count))
}
