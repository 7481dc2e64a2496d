//! The coders of a column of `f32`.
ghost use Rattle.std.specs.Prelude.{◌≡◌, ◌+◌, ◌≤◌, ◌++◌, length, map, true, refl, IsTrue, IfSome, IfOk, OnOk, IfErr};
ghost use Rattle.std.specs.Prelude.{OnErr};
ghost use Rattle.std.specs.Float.{binary32};
ghost use Rattle.bitcode_memory.specs.Fast.{fast_items, fast_room, fast_capacity};
ghost use Rattle.bitcode_columns.specs.Reading.{Reads, IsEndOf};
ghost use Rattle.bitcode_float_columns.specs.Split.{split_rest};
ghost use Rattle.bitcode_shapes.specs.Shape.{float_shape};
ghost use Rattle.bitcode_coder.specs.ColumnFree.{free_count, saturated};
ghost use Rattle.bitcode_coder.specs.Columns.{floats, one};
ghost use Rattle.bitcode_coder.specs.Spelling.{Spells};
ghost use Rattle.bitcode_coder.specs.Coder.{IsReadingRefusal, ReadsValue, ReadsValues};
ghost use Rattle.bitcode_coder.specs.FirstFault.{IsFirstFault};
ghost use Rattle.bitcode_coder.specs.Strict.{JudgesData};
ghost use Rattle.bitcode_floats.specs.Floats.{data_of_floats, data_of_bits};

use bitcode_coder::coder::{
    Buffer, Decoder, EncodeMany, Encoder, HoldsColumns, HoldsData, NewDecoder, View,
};
use bitcode_coder::column_free::ColumnFree;
use bitcode_coder::part::Part;
use bitcode_float_columns::split::{SplitBits, pack_f32s, read_f32s};
use bitcode_memory::error::{Error, Reason};
use bitcode_memory::fast::{FastVec, PushUnchecked};
use bitcode_shapes::shaped::Shaped;
use std::alloc::Global;
use std::mem::replace;
use std::num::f32_from_bits_with_nan;

// Pushes a part of each item. The caller must have reserved the room. The list is passed by value and returned: through
// a reference, each push would load and store its length.
fn push_parts<S, W: Part<S, f32>>(items: &[S], which: &W, mut values: FastVec<f32>) -> FastVec<f32>
    requires { length items.now ≤ fast_room values }
    ensures written { fast_items result ≡ fast_items values ++ map (W.of which.now) items.now }
    ensures room { fast_room values ≤ fast_room result + length items.now }
{
    for item in items {
        values.push_unchecked(*which.part(item));
    }
    values
}

/// The column that `f32`s are written to.
///
/// ```
/// let mut column = F32Encoder::new(alloc);
/// column.reserve(1)?;
/// column.encode(&1.0)?;
/// column.collect_into(&mut bytes)?; // [0, 0, 128, 63]
/// ```
#[derive(Drop)]
pub struct F32Encoder {
    alloc: Global,
    values: FastVec<f32>,
}

impl HoldsColumns for F32Encoder {
    ghost columns = { λ e. one (floats binary32) (data_of_floats binary32 (fast_items e.values)) };

    ghost room = { λ e. fast_room e.values };

    ghost capacity = { λ e. fast_capacity e.values };

    ghost surely_overflows = { λ e n. ⊥ };

    ghost overflows = { λ e n. ⊥ };

    ghost writes_free = { true };
}

impl Buffer for F32Encoder {
    fn new(alloc: Global) -> Self {
        F32Encoder {
            alloc,
            values: FastVec::new(alloc),
        }
    }

    fn reserve(&mut self, n: usize) -> Result<(), Error> {
        self.values.reserve(n)
    }

    fn collect_into(&mut self, out: &mut Vec<u8>) -> Result<(), Error> {
        pack_f32s(self.values.as_slice(), out)?;
        self.values.clear();
        Ok(())
    }

    fn clear(&mut self) {
        self.values.clear();
    }
}

impl Encoder<f32> for F32Encoder {
    fn encode(&mut self, t: &f32) -> Result<(), Error> {
        self.values.push_unchecked(*t);
        Ok(())
    }

    fn write_directly(&mut self, t: &f32, out: &mut Vec<u8>) -> Result<bool, Error> {
        pack_f32s(&[*t], out)?;
        Ok(true)
    }

    ghost of_shape = { λ e. refl };

    ghost surely = { λ e n never. absurd never };
}

impl EncodeMany<f32> for F32Encoder {
    fn is_primitive() -> bool {
        true
    }

    fn encode_slice(&mut self, items: &[f32]) -> Result<(), Error> {
        self.values.extend_unchecked(items);
        Ok(())
    }

    fn write_slice_directly(&self, items: &[f32], out: &mut Vec<u8>) -> Result<bool, Error> {
        pack_f32s(items, out)?;
        Ok(true)
    }

    fn encode_part_of_each<S, W: Part<S, f32>>(
        &mut self,
        items: &[S],
        which: &W,
        _first: &f32,
    ) -> Result<(), Error> {
        let values = replace(&mut self.values, FastVec::new(self.alloc));
        self.values = push_parts(items, which, values);
        Ok(())
    }

    ghost of_shape = { λ e. refl };

    ghost surely = { λ e n never. absurd never };
}

/// The column that `f32`s are read from. It borrows the input.
#[derive(Clone, Copy)]
pub struct F32Decoder<'a> {
    bits: SplitBits<'a>,
}

impl<'a> HoldsData for F32Decoder<'a> {
    ghost shape = { float_shape binary32 };

    ghost held = { λ d. data_of_bits binary32 (split_rest d.bits) };

    ghost owned = { λ d. 0 };

    ghost free_inside = { λ d. 0 };
}

impl<'a> NewDecoder for F32Decoder<'a> {
    fn new(_alloc: Global) -> Self {
        F32Decoder {
            bits: SplitBits::new(),
        }
    }

    fn column_free(&self) -> ColumnFree {
        ColumnFree::entries()
    }
}

impl<'a> View<'a> for F32Decoder<'a> {
    fn read(&mut self, input: &mut &'a [u8], k: usize, strict: bool) -> Result<bool, Error>
        ensures read { OnOk result
            (Reads (Spells (float_shape binary32)) k input.old.now
            (data_of_bits binary32 (split_rest self.new.bits)) input.new.now) }
        ensures counted { OnOk result
            (saturated 0 ≡ saturated (free_count (float_shape binary32)
            (data_of_bits binary32 (split_rest self.new.bits)))) }
        ensures judged { IsTrue strict → IfOk result
            (λ written. JudgesData (float_shape binary32)
            (data_of_bits binary32 (split_rest self.new.bits)) written input.old.now
            input.new.now) }
        ensures refused { IfErr result
            (λ e. IsReadingRefusal (float_shape binary32) e.reason k input.old.now) }
        ensures rest { OnErr result (IsEndOf input.old.now input.new.now) }
        ensures exact { IfErr result
            (λ e. IsFirstFault (float_shape binary32) e.reason k input.old.now) }
    {
        read_f32s(input, k, &mut self.bits, strict)
    }
}

impl<'a> Decoder<f32> for F32Decoder<'a> {
    ghost makes_free = { true };

    fn decode(&mut self) -> Result<f32, Error> {
        Ok(f32_from_bits_with_nan(self.bits.next_unchecked()))
    }

    fn decode_many(&mut self, alloc: Global, count: usize) -> Result<Vec<f32>, Error> {
        self.bits.floats_unchecked(alloc, count)
    }

    const READS_ONE: bool = true;

    #[inline(always)]
    fn read_one(alloc: Global, input: &mut &[u8]) -> Option<f32>
        ensures { IfSome result
            (λ t. ReadsValue ⟦<f32 as Shaped>⟧.data.makes (float_shape binary32) input.old.now t
            input.new.now) }
    {
        let mut column = F32Decoder::new(alloc);
        let Ok(_) = column.read(input, 1, false) else {
            return None;
        };
        let Ok(first) = column.decode() else {
            return None;
        };
        Some(first)
    }

    const READS_LISTS: bool = true;

    fn read_list(alloc: Global, input: &mut &[u8], count: usize) -> Option<Vec<f32>>
        ensures { IfSome result
            (λ items. ReadsValues ⟦<f32 as Shaped>⟧.data.makes (float_shape binary32) count
            input.old.now items.items input.new.now) }
    {
        let mut column = F32Decoder::new(alloc);
        let Ok(_) = column.read(input, count, false) else {
            return None;
        };
        let Ok(items) = column.decode_many(alloc, count) else {
            return None;
        };
        Some(items)
    }

    ghost same_shape = { refl };
}
