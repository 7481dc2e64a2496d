//! Heaps, as the sequences of their elements.
ghost use Rattle.std.specs.Prelude.{◌≡◌, refl, IfOk, IfErr, None, false};
ghost use Rattle.std.specs.BinaryHeap.{heap_items};
ghost use Rattle.std.proofs.lemmas.List.Sorted.{IsPermutation-refl};
ghost use Rattle.bitcode_parts.specs.Elements.{MakesOfElements};
ghost use Rattle.std.proofs.Common.{ap};
ghost use Rattle.bitcode_shapes.specs.Shape.{seq_shape};

use crate::lists::sequence::{FromElements, Sequence, encode_each};
use crate::lists::vec::VecDecoder;
use bitcode_coder::coder::{Decoder, EncodeMany};
use bitcode_memory::error::{Error, Reason};
use bitcode_shapes::shaped::Shaped;
use std::alloc::Global;
use std::cmp::Ord;
use std::collections::BinaryHeap;

impl<T: Shaped + Ord> Sequence for BinaryHeap<T> {
    type Element = T;

    ghost items = { λ h. heap_items h };

    fn element_count(&self) -> usize {
        self.len()
    }

    fn encode_elements<E: EncodeMany<T>>(&self, elements: &mut E) -> Result<(), Error> {
        encode_each(elements, self.as_slice())
    }

    ghost items_are = { λ t h. h };

    ghost items_list = { λ t d l. record
        { order = heap_items t; reordered = IsPermutation-refl (heap_items t); listing = l } };

    ghost items_columns = { λ ds. refl };
}

impl<T: Shaped + Ord + Drop> FromElements for BinaryHeap<T> {
    type Part = T;

    fn from_elements(_alloc: Global, elements: Vec<T>) -> Result<BinaryHeap<T>, Error>
        ensures made { IfOk result
            (λ t. MakesOfElements ⟦<BinaryHeap<T> as Shaped>⟧.data.makes T.data.makes t
            elements.items) }
        ensures refused { IfErr result (λ e. e.reason ≡ Reason.OutOfMemory) }
    {
        Ok(BinaryHeap::from(elements))
    }
}

impl<'a, T: Shaped + Ord + Drop, D: Decoder<T>> Decoder<BinaryHeap<T>> for VecDecoder<'a, D> {
    ghost makes_free = { false };

    fn decode(&mut self) -> Result<BinaryHeap<T>, Error> {
        self.decode_as()
    }

    ghost same_shape = { ap (seq_shape None) D.same_shape };
}
