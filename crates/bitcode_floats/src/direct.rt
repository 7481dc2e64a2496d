//! Writing the column of a slice of 8-byte floats without a copy of it, where its numbers keep their whole width.
ghost use Rattle.std.specs.Prelude.{◌≡◌, ◌+◌, ◌*◌, ◌^◌, ◌<◌, ◌≤◌, ◌∷◌, ◌++◌, pos, length, map, take, drop, All};
ghost use Rattle.std.specs.Prelude.{to_bits, vec_len};
ghost use Rattle.std.specs.Prelude.{vec_capacity, IsTrue, OnOk, IfErr, OnErr};
ghost use Rattle.std.specs.Float.{binary64, NotNan};
ghost use Rattle.bitcode_memory.specs.LittleEndian.{raw_text};
ghost use Rattle.bitcode_columns.specs.IntColumn.{int_text};

use bitcode_float_columns::bits::bits_of_f64s;
use bitcode_memory::error::{Error, Reason};
use bitcode_memory::ints::{SizedUInt, push_bytes};
use bitcode_memory::minmax::bounds;
use bitcode_memory::refuse::err;
use std::alloc::Global;
use std::mem::replace;
use std::num::f64_to_bits_with_nan;
use std::simd::prelude::*;

// Numbers that lie so far apart take eight bytes each.
const FAR: u64 = 0x1_0000_0000;

// So many floats are a block.
const BLOCK: usize = 64;

// The bits of each float have eight bytes. It does nothing; its contract is for proofs.
fn known_bits(floats: &[f64])
    ensures { All (λ x. to_bits binary64 x < 256 ^ 8) floats.now }
{
    for float in floats {
        let _bits = f64_to_bits_with_nan(*float);
    }
}

// Whether the bits of the first four floats lie so far apart that the column of all is their bits behind the tag 0.
pub(crate) fn keep_whole_width(floats: &[f64]) -> bool
    ensures { IsTrue result → int_text 8 (map (λ x. pos (to_bits binary64 x)) floats.now)
        ≡ 0 ∷ raw_text 8 (map (λ x. to_bits binary64 x) floats.now) }
{
    if floats.len() < 4 {
        return false;
    }
    known_bits(floats);
    let four = bits_of_f64s(f64x4::from_slice(floats)).to_array();
    match bounds(&four) {
        Some((least, greatest)) => greatest.saturating_sub(least) >= FAR,
        None => false,
    }
}

// The bytes of the bits of four floats.
#[inline(always)]
fn text_of_four(floats: f64x4) -> [u8; 32]
    requires { length floats ≡ 4 }
    ensures { result ≡ raw_text 8 (map (λ x. to_bits binary64 x) floats) }
{
    bits_of_f64s(floats).to_le_bytes().to_array()
}

// Appends the bytes of the bits of each float, one by one. The caller must have reserved the room.
fn push_each(floats: &[f64], mut out: Vec<u8>) -> Vec<u8>
    requires { vec_len out + 8 * length floats.now ≤ vec_capacity out }
    ensures written { result.items ≡ out.items ++ raw_text 8
        (map (λ x. to_bits binary64 x) floats.now) }
    ensures len { vec_len result ≡ vec_len out + 8 * length floats.now }
    ensures capacity { vec_capacity result ≡ vec_capacity out }
{
    for float in floats {
        f64_to_bits_with_nan(*float).push(&mut out);
    }
    out
}

// Appends the bytes of the bits of each float, four at a time. The caller must have reserved the room. The list is
// handed over and given back, so that its length is kept in a register.
fn push_fours(floats: &[f64], mut out: Vec<u8>) -> Vec<u8>
    requires { vec_len out + 8 * length floats.now ≤ vec_capacity out }
    ensures { result.items ≡ out.items ++ raw_text 8 (map (λ x. to_bits binary64 x) floats.now) }
{
    let blocks = floats.len() / 4;
    for block in 0..blocks {
        let text = text_of_four(f64x4::from_slice(&floats[4 * block..]));
        push_bytes(&text, &mut out);
    }
    let behind = 4 * blocks;
    let (_, rest) = floats.split_at(behind);
    push_each(rest, out)
}

// Whether no float of these is a NaN.
#[inline(always)]
fn are_numbers(first: f64x4, second: f64x4, third: f64x4, fourth: f64x4) -> bool
    requires first { length first ≡ 4 }
    requires second { length second ≡ 4 }
    requires third { length third ≡ 4 }
    requires fourth { length fourth ≡ 4 }
    ensures { IsTrue result → All NotNan (first ++ second ++ third ++ fourth) }
{
    let front = first.simd_ne(first) | second.simd_ne(second);
    let back = third.simd_ne(third) | fourth.simd_ne(fourth);
    let is_nan = front | back;
    !is_nan.any()
}

// The four floats from a place on.
#[inline(always)]
fn four_at(floats: &[f64], at: usize) -> f64x4
    requires { at + 4 ≤ length floats.now }
    ensures items { result ≡ take 4 (drop at floats.now) }
    ensures len { length result ≡ 4 }
{
    f64x4::from_slice(&floats[at..])
}

// Whether no float of a block is a NaN.
fn is_block_of_numbers(floats: &[f64; BLOCK]) -> bool
    ensures { IsTrue result → All NotNan floats.now }
{
    for sixteen in 0..BLOCK / 16 {
        let at = 16 * sixteen;
        let first = four_at(floats, at);
        let second = four_at(floats, at + 4);
        let third = four_at(floats, at + 8);
        let fourth = four_at(floats, at + 12);
        if !are_numbers(first, second, third, fourth) {
            return false;
        }
    }
    true
}

// Appends the bytes of the bits of a block of floats. The caller must have reserved the room.
//
// The loop is over a copy of the block, which no write to the list can change. So the compiler makes one copy, from the
// block to the list.
fn push_numbers(floats: &[f64; BLOCK], mut out: Vec<u8>) -> Vec<u8>
    requires numbers { All NotNan floats.now }
    requires room { vec_len out + 512 ≤ vec_capacity out }
    ensures written { result.items ≡ out.items ++ raw_text 8
        (map (λ x. to_bits binary64 x) floats.now) }
    ensures len { vec_len result ≡ vec_len out + 512 }
    ensures capacity { vec_capacity result ≡ vec_capacity out }
{
    let copy = *floats;
    for float in &copy {
        float.to_bits().push(&mut out);
    }
    out
}

// Appends the bytes of the bits of a block of floats, with or without a NaN. The caller must have reserved the room.
fn push_block(floats: &[f64; BLOCK], out: Vec<u8>) -> Vec<u8>
    requires { vec_len out + 512 ≤ vec_capacity out }
    ensures written { result.items ≡ out.items ++ raw_text 8
        (map (λ x. to_bits binary64 x) floats.now) }
    ensures len { vec_len result ≡ vec_len out + 512 }
    ensures capacity { vec_capacity result ≡ vec_capacity out }
{
    if is_block_of_numbers(floats) {
        push_numbers(floats, out)
    } else {
        push_each(floats, out)
    }
}

// Appends the bytes of the bits of each float, block by block. The caller must have reserved the room.
fn push_all(floats: &[f64], mut out: Vec<u8>) -> Vec<u8>
    requires { vec_len out + 8 * length floats.now ≤ vec_capacity out }
    ensures { result.items ≡ out.items ++ raw_text 8 (map (λ x. to_bits binary64 x) floats.now) }
{
    let (blocks, rest) = floats.as_chunks::<BLOCK>();
    for block in blocks {
        out = push_block(block, out);
    }
    push_fours(rest, out)
}

// Appends the tag 0 and the bytes of the bits of each float.
//
// If an allocation fails, the error is `out of memory`, and `out` is unchanged.
pub(crate) fn write_whole(floats: &[f64], out: &mut Vec<u8>) -> Result<(), Error>
    ensures written { OnOk result (out.new.items ≡ out.old.items
        ++ 0 ∷ raw_text 8 (map (λ x. to_bits binary64 x) floats.now)) }
    ensures unchanged { OnErr result (out.new.items ≡ out.old.items) }
    ensures reason { IfErr result (λ e. e.reason ≡ Reason.OutOfMemory) }
{
    let Some(size) = floats.len().checked_mul(8) else {
        return err(Reason::OutOfMemory);
    };
    out.reserve(size.saturating_add(1))?;
    out.push_reserved(0);
    let alloc = *out.allocator();
    let held = replace(out, Vec::new(alloc));
    *out = push_all(floats, held);
    Ok(())
}
