//! The decoder of vectors with a fixed capacity: the decoder of sequences, with a limit on the lengths.
#![tactic(auto, unfolding(bitcode_coder::specs::Length::lengths_left, bitcode_coder::specs::Length::lengths_sum))]

ghost use Rattle.std.specs.Prelude.{◌+◌, ◌≤◌, Some, All, IfSome, false, refl};
ghost use Rattle.std.proofs.Common.{ap};
ghost use Rattle.std.proofs.Props.{props};
ghost use Rattle.bitcode_shapes.specs.Shape.{seq_shape};
ghost use Rattle.bitcode_coder.specs.Coder.{ReadsValue, ReadsValues};
ghost use Rattle.bitcode_coder.specs.ColumnFree.{has_entry, count_if_free};
ghost use Rattle.bitcode_coder.specs.Length.{lengths_left, lengths_owned, lengths_sum};
ghost use Rattle.bitcode_parts.specs.Lists.{lists_of};

use crate::lists::sequence::{Sequence, encode_each};
use arrayvec::ArrayVec;
use bitcode_coder::coder::{Decoder, EncodeMany, HoldsData, NewDecoder, View, both};
use bitcode_coder::column_free::ColumnFree;
use bitcode_coder::length::LengthDecoder;
use bitcode_memory::error::{Error, Reason};
use bitcode_memory::refuse::err;
use bitcode_shapes::shaped::Shaped;
use std::alloc::Global;
use std::default::Default;

/// The decoder of vectors with a fixed capacity. It reads the lengths of all of them, and then the elements of all of
/// them.
///
/// It makes the elements with their decoder, front to back, and returns that decoder's errors. If lengths and elements
/// are valid and a length exceeds `N`, the error is `invalid ArrayVec`. For `N` below 255, every length after an escape
/// byte 255 exceeds it.
///
/// ```
/// let mut lists: ArrayVecDecoder<IntDecoder<u8>, 4> = ArrayVecDecoder::new(alloc);
/// lists.populate(&mut input, 1)?;              // [3, 6, 57]
/// let list: ArrayVec<u8, 4> = lists.decode()?; // 1, 2 and 3
/// ```
#[derive(Drop)]
pub struct ArrayVecDecoder<'a, D, const N: usize> {
    alloc: Global,
    lengths: LengthDecoder<'a>,
    elements: D,
    ghost capped: { All (λ n. n ≤ N) (lengths_left lengths) } by { Prim.hlevel props },
}

impl<'a, D: HoldsData, const N: usize> HoldsData for ArrayVecDecoder<'a, D, N> {
    ghost shape = { seq_shape (Some N) D.shape };

    ghost held = { λ d. lists_of (lengths_left d.lengths) (D.held d.elements) };

    ghost owned = { λ d. lengths_owned d.lengths + D.owned d.elements };

    ghost free_inside = { λ d. count_if_free (has_entry D.shape) (lengths_sum d.lengths)
        + D.free_inside d.elements };
}

impl<'a, D: NewDecoder, const N: usize> NewDecoder for ArrayVecDecoder<'a, D, N> {
    fn new(alloc: Global) -> Self {
        ArrayVecDecoder {
            alloc,
            lengths: LengthDecoder::new(alloc),
            elements: D::new(alloc),
        }
    }

    fn column_free(&self) -> ColumnFree {
        ColumnFree {
            has_entry: true,
            inside: self.elements.column_free().in_lists(self.lengths.length()),
        }
    }
}

impl<'a, D: View<'a>, const N: usize> View<'a> for ArrayVecDecoder<'a, D, N> {
    fn read(&mut self, input: &mut &'a [u8], k: usize, strict: bool) -> Result<bool, Error> {
        let mut lengths = LengthDecoder::new(self.alloc);
        let lengths_written = lengths.read(input, k, strict)?;
        let elements_written = self.elements.read(input, lengths.length(), strict)?;
        if lengths.any_greater_than::<N>() {
            return err(Reason::InvalidArrayVec);
        }
        self.lengths = lengths;
        Ok(both(lengths_written, elements_written))
    }
}

impl<'a, T: Shaped + Default + Drop, D: Decoder<T>, const N: usize> Decoder<ArrayVec<T, N>>
    for ArrayVecDecoder<'a, D, N> {
    ghost makes_free = { false };

    fn decode(&mut self) -> Result<ArrayVec<T, N>, Error> {
        let count = self.lengths.decode();
        let mut vec = ArrayVec::new();
        for _made in 0..count {
            vec.push(self.elements.decode()?);
        }
        Ok(vec)
    }

    // All four are written here: the toolchain does not allow the trait's own where a size depends on `N`.
    const READS_ONE: bool = false;

    fn read_one(_alloc: Global, _input: &mut &[u8]) -> Option<ArrayVec<T, N>>
        ensures { IfSome result (λ t. ReadsValue ⟦<ArrayVec<T, N> as Shaped>⟧.data.makes
            (seq_shape (Some N) D.shape) _input.old.now t _input.new.now) }
    {
        None
    }

    const READS_LISTS: bool = false;

    fn read_list(_alloc: Global, _input: &mut &[u8], _count: usize) -> Option<Vec<ArrayVec<T, N>>>
        ensures { IfSome result (λ items. ReadsValues ⟦<ArrayVec<T, N> as Shaped>⟧.data.makes
            (seq_shape (Some N) D.shape) _count _input.old.now items.items _input.new.now) }
    {
        None
    }

    ghost same_shape = { ap (seq_shape (Some N)) D.same_shape };
}

impl<T: Shaped, const N: usize> Sequence for ArrayVec<T, N> {
    type Element = T;

    ghost items = { λ v. v.items };

    fn element_count(&self) -> usize {
        self.len()
    }

    fn encode_elements<E: EncodeMany<T>>(&self, elements: &mut E) -> Result<(), Error> {
        encode_each(elements, self.as_slice())
    }

    ghost items_are = { λ t h. h.each };

    ghost items_list = { λ t d l. l };

    ghost items_columns = { λ ds. refl };
}
