//! The coders of a column of `f64`: their bits, as integers.
ghost use Rattle.std.specs.Prelude.{◌≡◌, ◌+◌, ◌≤◌, ◌++◌, length, map, to_bits, from_bits, true, refl, All};
ghost use Rattle.std.specs.Prelude.{IsTrue, IsOk, IfSome, IfOk, OnOk, IfErr, OnErr, MatchBool};
ghost use Rattle.std.specs.Float.{binary64};
ghost use Rattle.bitcode_memory.specs.Fast.{fast_items, fast_room, fast_capacity, cow_rest, cow_owned};
ghost use Rattle.bitcode_columns.specs.Reading.{Reads, IsEndOf};
ghost use Rattle.bitcode_float_columns.specs.FloatColumn.{canonical};
ghost use Rattle.bitcode_shapes.specs.Shape.{float_shape};
ghost use Rattle.bitcode_coder.specs.ColumnFree.{free_count, saturated};
ghost use Rattle.bitcode_coder.specs.Columns.{floats, one};
ghost use Rattle.bitcode_coder.specs.Spelling.{Spells, natural};
ghost use Rattle.bitcode_coder.specs.Coder.{IsReadingRefusal, ReadsValue, ReadsValues};
ghost use Rattle.bitcode_coder.specs.FirstFault.{IsFirstFault};
ghost use Rattle.bitcode_coder.specs.Strict.{JudgesData};
ghost use Rattle.bitcode_floats.specs.Floats.{data_of_bits, long_bits, residue_of};

use crate::direct::{keep_whole_width, write_whole};
use bitcode_coder::coder::{
    Buffer, Decoder, EncodeMany, Encoder, HoldsColumns, HoldsData, NewDecoder, View, both,
};
use bitcode_coder::column_free::ColumnFree;
use bitcode_coder::part::{Itself, Part};
use bitcode_float_columns::bits::{bits_of_f64s, is_canonical_f64};
use bitcode_int_columns::column_int::ColumnInt;
use bitcode_memory::error::{Error, Reason};
use bitcode_memory::fast::{CowSlice, FastVec, PushUnchecked};
use bitcode_shapes::shaped::Shaped;
use std::alloc::Global;
use std::mem::replace;
use std::num::{f64_from_bits_with_nan, f64_to_bits_with_nan};
use std::simd::prelude::*;

// Pushes the bits of a part of each item. The caller must have reserved the room. The list is passed by value and
// returned: through a reference, each push would load and store its length.
fn push_parts<S, W: Part<S, f64>>(items: &[S], which: &W, mut bits: FastVec<u64>) -> FastVec<u64>
    requires { length items.now ≤ fast_room bits }
    ensures written { fast_items result ≡ fast_items bits ++ map
        (λ item. to_bits binary64 (W.of which.now item)) items.now }
    ensures room { fast_room bits ≤ fast_room result + length items.now }
{
    for item in items {
        bits.push_unchecked(f64_to_bits_with_nan(*which.part(item)));
    }
    bits
}

// Pushes four entries. The caller must have reserved the room.
#[inline(always)]
fn push_bits(four: [u64; 4], mut bits: FastVec<u64>) -> FastVec<u64>
    requires { 4 ≤ fast_room bits }
    ensures written { fast_items result ≡ fast_items bits ++ four }
    ensures room { fast_room bits ≡ fast_room result + 4 }
{
    for entry in &four {
        bits.push_unchecked(*entry);
    }
    bits
}

// Pushes the bits of each float, four at a time. The caller must have reserved the room.
fn push_all(floats: &[f64], mut bits: FastVec<u64>) -> FastVec<u64>
    requires { length floats.now ≤ fast_room bits }
    ensures written { fast_items result ≡ fast_items bits
        ++ map (λ x. to_bits binary64 x) floats.now }
    ensures room { fast_room bits ≤ fast_room result + length floats.now }
{
    let blocks = floats.len() / 4;
    for block in 0..blocks {
        let four = f64x4::from_slice(&floats[4 * block..]);
        bits = push_bits(bits_of_f64s(four).to_array(), bits);
    }
    let behind = 4 * blocks;
    let (_, rest) = floats.split_at(behind);
    push_parts(rest, &Itself, bits)
}

/// The column that `f64`s are written to.
///
/// ```
/// let mut column = F64Encoder::new(alloc);
/// column.reserve(1)?;
/// column.encode(&1.0)?;
/// column.collect_into(&mut bytes)?; // [0, 0, 0, 0, 0, 0, 0, 240, 63]
/// ```
#[derive(Drop)]
pub struct F64Encoder {
    alloc: Global,
    bits: FastVec<u64>,
}

impl HoldsColumns for F64Encoder {
    ghost columns = { λ e. one (floats binary64) (map natural (fast_items e.bits)) };

    ghost room = { λ e. fast_room e.bits };

    ghost capacity = { λ e. fast_capacity e.bits };

    ghost surely_overflows = { λ e n. ⊥ };

    ghost overflows = { λ e n. ⊥ };

    ghost writes_free = { true };
}

impl Buffer for F64Encoder {
    fn new(alloc: Global) -> Self {
        F64Encoder {
            alloc,
            bits: FastVec::new(alloc),
        }
    }

    fn reserve(&mut self, n: usize) -> Result<(), Error> {
        self.bits.reserve(n)
    }

    fn collect_into(&mut self, out: &mut Vec<u8>) -> Result<(), Error> {
        <u64 as ColumnInt>::pack(self.alloc, self.bits.as_mut_slice(), out)?;
        self.bits.clear();
        Ok(())
    }

    fn clear(&mut self) {
        self.bits.clear();
    }
}

impl Encoder<f64> for F64Encoder {
    fn encode(&mut self, t: &f64) -> Result<(), Error> {
        self.bits.push_unchecked(f64_to_bits_with_nan(*t));
        Ok(())
    }

    fn write_directly(&mut self, t: &f64, out: &mut Vec<u8>) -> Result<bool, Error> {
        <u64 as ColumnInt>::pack_one(self.alloc, f64_to_bits_with_nan(*t), out)?;
        Ok(true)
    }

    ghost of_shape = { λ e. refl };

    ghost surely = { λ e n never. absurd never };
}

impl EncodeMany<f64> for F64Encoder {
    fn is_primitive() -> bool {
        true
    }

    fn encode_slice(&mut self, items: &[f64]) -> Result<(), Error> {
        let bits = replace(&mut self.bits, FastVec::new(self.alloc));
        self.bits = push_all(items, bits);
        Ok(())
    }

    fn write_slice_directly(&self, items: &[f64], out: &mut Vec<u8>) -> Result<bool, Error> {
        if !keep_whole_width(items) {
            return Ok(false);
        }
        write_whole(items, out)?;
        Ok(true)
    }

    fn encode_part_of_each<S, W: Part<S, f64>>(
        &mut self,
        items: &[S],
        which: &W,
        _first: &f64,
    ) -> Result<(), Error> {
        let bits = replace(&mut self.bits, FastVec::new(self.alloc));
        self.bits = push_parts(items, which, bits);
        Ok(())
    }

    ghost of_shape = { λ e. refl };

    ghost surely = { λ e n never. absurd never };
}

// The bits whose bytes these are, the lowest first.
fn bits_of(bytes: [u8; 8]) -> u64
    ensures { result ≡ residue_of bytes }
{
    u64::from_le_bytes(bytes)
}

// The floats with these bits.
fn floats_of(alloc: Global, entries: &[[u8; 8]]) -> Result<Vec<f64>, Error>
    ensures floats { IfOk result
        (λ floats. floats.items ≡ map (λ entry. from_bits binary64 (residue_of entry))
        entries.now) }
    ensures reason { IfErr result (λ e. e.reason ≡ Reason.OutOfMemory) }
    ensures none { length entries.now ≡ 0 → IsOk result }
{
    let mut floats = Vec::with_capacity(alloc, entries.len())?;
    for entry in entries {
        floats.push_reserved(f64_from_bits_with_nan(bits_of(*entry)));
    }
    Ok(floats)
}

// Whether an encoder writes each of these bits.
fn are_canonical(entries: &[[u8; 8]]) -> bool
    ensures { MatchBool result
        (All (λ entry. canonical binary64 (residue_of entry) ≡ residue_of entry) entries.now)
        (All (λ entry. canonical binary64 (residue_of entry) ≡ residue_of entry) entries.now
        → ⊥) }
{
    for entry in entries {
        if !is_canonical_f64(bits_of(*entry)) {
            return false;
        }
    }
    true
}

/// The column that `f64`s are read from.
#[derive(Drop)]
pub struct F64Decoder<'a> {
    alloc: Global,
    values: CowSlice<'a, [u8; 8]>,
}

impl<'a> HoldsData for F64Decoder<'a> {
    ghost shape = { float_shape binary64 };

    ghost held = { λ d. data_of_bits binary64 (long_bits (cow_rest d.values)) };

    ghost owned = { λ d. cow_owned d.values };

    ghost free_inside = { λ d. 0 };
}

impl<'a> NewDecoder for F64Decoder<'a> {
    fn new(alloc: Global) -> Self {
        F64Decoder {
            alloc,
            values: CowSlice::new(alloc),
        }
    }

    fn column_free(&self) -> ColumnFree {
        ColumnFree::entries()
    }
}

impl<'a> View<'a> for F64Decoder<'a> {
    fn read(&mut self, input: &mut &'a [u8], k: usize, strict: bool) -> Result<bool, Error>
        ensures read { OnOk result
            (Reads (Spells (float_shape binary64)) k input.old.now
            (data_of_bits binary64 (long_bits (cow_rest self.new.values))) input.new.now) }
        ensures counted { OnOk result
            (saturated 0 ≡ saturated (free_count (float_shape binary64)
            (data_of_bits binary64 (long_bits (cow_rest self.new.values))))) }
        ensures judged { IsTrue strict → IfOk result
            (λ written. JudgesData (float_shape binary64)
            (data_of_bits binary64 (long_bits (cow_rest self.new.values))) written input.old.now
            input.new.now) }
        ensures refused { IfErr result
            (λ e. IsReadingRefusal (float_shape binary64) e.reason k input.old.now) }
        ensures rest { OnErr result (IsEndOf input.old.now input.new.now) }
        ensures exact { IfErr result
            (λ e. IsFirstFault (float_shape binary64) e.reason k input.old.now) }
    {
        let written = <u64 as ColumnInt>::unpack(self.alloc, input, k, &mut self.values, strict)?;
        if !strict {
            return Ok(true);
        }
        let canonical = are_canonical(self.values.as_slice());
        Ok(both(canonical, written))
    }
}

impl<'a> Decoder<f64> for F64Decoder<'a> {
    ghost makes_free = { true };

    fn decode(&mut self) -> Result<f64, Error> {
        let bits = bits_of(self.values.next_unchecked());
        Ok(f64_from_bits_with_nan(bits))
    }

    fn decode_many(&mut self, alloc: Global, count: usize) -> Result<Vec<f64>, Error> {
        floats_of(alloc, self.values.chunk_unchecked(count))
    }

    const READS_ONE: bool = true;

    #[inline(always)]
    fn read_one(alloc: Global, input: &mut &[u8]) -> Option<f64>
        ensures { IfSome result
            (λ t. ReadsValue ⟦<f64 as Shaped>⟧.data.makes (float_shape binary64) input.old.now t
            input.new.now) }
    {
        let mut column = F64Decoder::new(alloc);
        let Ok(_) = column.read(input, 1, false) else {
            return None;
        };
        let Ok(first) = column.decode() else {
            return None;
        };
        Some(first)
    }

    const READS_LISTS: bool = true;

    fn read_list(alloc: Global, input: &mut &[u8], count: usize) -> Option<Vec<f64>>
        ensures { IfSome result
            (λ items. ReadsValues ⟦<f64 as Shaped>⟧.data.makes (float_shape binary64) count
            input.old.now items.items input.new.now) }
    {
        let mut column = F64Decoder::new(alloc);
        let Ok(_) = column.read(input, count, false) else {
            return None;
        };
        let Ok(items) = column.decode_many(alloc, count) else {
            return None;
        };
        Some(items)
    }

    ghost same_shape = { refl };
}
