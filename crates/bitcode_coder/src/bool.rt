//! The coders of a column of bools.
#![tactic(auto, using(crate::proofs::BoolLemmas::truths_in, crate::proofs::BoolLemmas::bools_read, crate::proofs::BoolLemmas::bools_refused, crate::proofs::BoolLemmas::bools_exact))]

ghost use Rattle.std.specs.Prelude.{◌≡◌, ◌+◌, ◌≤◌, ◌++◌, length, map, true, refl, IsTrue, IfSome, IfOk, OnOk, IfErr};
ghost use Rattle.std.specs.Prelude.{OnErr};
ghost use Rattle.bitcode_memory.specs.Fast.{fast_items, fast_room, cow_rest, fast_capacity, cow_owned};
ghost use Rattle.bitcode_columns.specs.Reading.{Reads, IsEndOf};
ghost use Rattle.bitcode_shapes.specs.Shape.{bool_shape};
ghost use Rattle.bitcode_coder.specs.Coder.{ReadsValue, ReadsValues};
ghost use Rattle.bitcode_coder.specs.Columns.{bools, one};
ghost use Rattle.bitcode_coder.specs.ColumnFree.{free_count, saturated};
ghost use Rattle.bitcode_coder.specs.Spelling.{Spells, truth};
ghost use Rattle.bitcode_coder.specs.Coder.{IsReadingRefusal};
ghost use Rattle.bitcode_coder.specs.FirstFault.{IsFirstFault};
ghost use Rattle.bitcode_coder.specs.Strict.{JudgesData};

use crate::coder::{
    Buffer, Decoder, EncodeMany, Encoder, HoldsColumns, HoldsData, NewDecoder, View,
};
use crate::column_free::ColumnFree;
use crate::part::Part;
use bitcode_columns::pack::pack_bools;
use bitcode_columns::strict::read_bools;
use bitcode_memory::error::{Error, Reason};
use bitcode_memory::fast::{CowSlice, FastVec, PushUnchecked};
use bitcode_shapes::shaped::Shaped;
use std::alloc::Global;
use std::mem::replace;

// Pushes a part of each item. The caller must have reserved the room. The list is passed by value and returned: through
// a reference, each push would load and store its length.
fn push_parts<S, W: Part<S, bool>>(
    items: &[S],
    which: &W,
    mut values: FastVec<bool>,
) -> FastVec<bool>
    requires { length items.now ≤ fast_room values }
    ensures written { fast_items result ≡ fast_items values ++ map (W.of which.now) items.now }
    ensures room { fast_room values ≤ fast_room result + length items.now }
{
    for item in items {
        values.push_unchecked(*which.part(item));
    }
    values
}

/// The column that bools are written to.
#[derive(Drop)]
pub struct BoolEncoder {
    alloc: Global,
    values: FastVec<bool>,
}

impl HoldsColumns for BoolEncoder {
    ghost columns = { λ e. one bools (map truth (fast_items e.values)) };

    ghost room = { λ e. fast_room e.values };

    ghost capacity = { λ e. fast_capacity e.values };

    ghost surely_overflows = { λ e n. ⊥ };

    ghost overflows = { λ e n. ⊥ };

    ghost writes_free = { true };
}

impl Buffer for BoolEncoder {
    fn new(alloc: Global) -> Self {
        BoolEncoder {
            alloc,
            values: FastVec::new(alloc),
        }
    }

    fn reserve(&mut self, n: usize) -> Result<(), Error> {
        self.values.reserve(n)
    }

    fn collect_into(&mut self, out: &mut Vec<u8>) -> Result<(), Error> {
        pack_bools(self.values.as_slice(), out)?;
        self.values.clear();
        Ok(())
    }

    fn clear(&mut self) {
        self.values.clear();
    }
}

impl Encoder<bool> for BoolEncoder {
    fn encode(&mut self, t: &bool) -> Result<(), Error> {
        self.values.push_unchecked(*t);
        Ok(())
    }

    fn write_directly(&mut self, t: &bool, out: &mut Vec<u8>) -> Result<bool, Error> {
        out.push(*t as u8)?;
        Ok(true)
    }

    ghost of_shape = { λ e. refl };

    ghost surely = { λ e n never. absurd never };
}

impl EncodeMany<bool> for BoolEncoder {
    fn is_primitive() -> bool {
        true
    }

    fn encode_slice(&mut self, items: &[bool]) -> Result<(), Error> {
        self.values.extend_unchecked(items);
        Ok(())
    }

    fn encode_part_of_each<S, W: Part<S, bool>>(
        &mut self,
        items: &[S],
        which: &W,
        _first: &bool,
    ) -> Result<(), Error> {
        let values = replace(&mut self.values, FastVec::new(self.alloc));
        self.values = push_parts(items, which, values);
        Ok(())
    }

    ghost of_shape = { λ e. refl };

    ghost surely = { λ e n never. absurd never };
}

/// The column that bools are read from.
#[derive(Drop)]
pub struct BoolDecoder<'a> {
    alloc: Global,
    values: CowSlice<'a, bool>,
}

impl<'a> HoldsData for BoolDecoder<'a> {
    ghost shape = { bool_shape };

    ghost held = { λ d. map truth (cow_rest d.values) };

    ghost owned = { λ d. cow_owned d.values };

    ghost free_inside = { λ d. 0 };
}

impl<'a> NewDecoder for BoolDecoder<'a> {
    fn new(alloc: Global) -> Self {
        BoolDecoder {
            alloc,
            values: CowSlice::new(alloc),
        }
    }

    fn column_free(&self) -> ColumnFree {
        ColumnFree::entries()
    }
}

impl<'a> View<'a> for BoolDecoder<'a> {
    fn read(&mut self, input: &mut &'a [u8], k: usize, strict: bool) -> Result<bool, Error>
        ensures read { OnOk result
            (Reads (Spells bool_shape) k input.old.now (map truth (cow_rest self.new.values))
            input.new.now) }
        ensures counted { OnOk result
            (saturated 0 ≡ saturated (free_count bool_shape
            (map truth (cow_rest self.new.values)))) }
        ensures judged { IsTrue strict → IfOk result
            (λ written. JudgesData bool_shape (map truth (cow_rest self.new.values)) written
            input.old.now input.new.now) }
        ensures refused { IfErr result (λ e. IsReadingRefusal bool_shape e.reason k input.old.now) }
        ensures rest { OnErr result (IsEndOf input.old.now input.new.now) }
        ensures exact { IfErr result (λ e. IsFirstFault bool_shape e.reason k input.old.now) }
    {
        read_bools(self.alloc, input, k, &mut self.values, strict)
    }
}

impl<'a> Decoder<bool> for BoolDecoder<'a> {
    ghost makes_free = { true };

    fn decode(&mut self) -> Result<bool, Error> {
        Ok(self.values.next_unchecked())
    }

    fn decode_many(&mut self, alloc: Global, count: usize) -> Result<Vec<bool>, Error> {
        self.values.list_unchecked(alloc, count)
    }

    const READS_ONE: bool = true;

    #[inline(always)]
    fn read_one(alloc: Global, input: &mut &[u8]) -> Option<bool>
        ensures { IfSome result
            (λ t. ReadsValue ⟦<bool as Shaped>⟧.data.makes bool_shape input.old.now t
            input.new.now) }
    {
        let mut column = BoolDecoder::new(alloc);
        let Ok(_) = column.read(input, 1, false) else {
            return None;
        };
        let first: Result<bool, Error> = column.decode();
        let Ok(first) = first else {
            return None;
        };
        Some(first)
    }

    const READS_LISTS: bool = true;

    fn read_list(alloc: Global, input: &mut &[u8], count: usize) -> Option<Vec<bool>>
        ensures { IfSome result
            (λ items. ReadsValues ⟦<bool as Shaped>⟧.data.makes bool_shape count input.old.now
            items.items
            input.new.now) }
    {
        let mut column = BoolDecoder::new(alloc);
        let Ok(_) = column.read(input, count, false) else {
            return None;
        };
        let items: Result<Vec<bool>, Error> = column.decode_many(alloc, count);
        let Ok(items) = items else {
            return None;
        };
        Some(items)
    }

    ghost same_shape = { refl };
}
