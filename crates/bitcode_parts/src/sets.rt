//! Sets as the sequences of their elements.
ghost use Rattle.std.specs.Prelude.{◌≡◌, refl, IfOk, IfErr, None, false};
ghost use Rattle.std.proofs.lemmas.List.Sorted.{IsPermutation-refl};
ghost use Rattle.bitcode_parts.specs.Elements.{MakesOfElements};
ghost use Rattle.std.proofs.Common.{ap};
ghost use Rattle.bitcode_shapes.specs.Shape.{seq_shape};

use crate::lists::sequence::{FromElements, Sequence, encode_lent};
use crate::lists::vec::VecDecoder;
use bitcode_coder::coder::{Decoder, EncodeMany};
use bitcode_memory::error::{Error, Reason};
use bitcode_shapes::keys::Key;
use bitcode_shapes::lists::told_each;
use bitcode_shapes::shaped::Shaped;
use std::alloc::Global;
use std::collections::{BTreeSet, HashSet};
use std::hash::Hash;

impl<T: Key> Sequence for BTreeSet<T> {
    type Element = T;

    ghost items = { λ s. s.keys };

    fn element_count(&self) -> usize {
        self.len()
    }

    fn encode_elements<E: EncodeMany<T>>(&self, elements: &mut E) -> Result<(), Error> {
        encode_lent(elements, self.iter())
    }

    ghost items_are = { λ t h. h.each };

    ghost items_list = { λ t d l. l };

    ghost items_columns = { λ ds. refl };
}

impl<T: Key + Hash> Sequence for HashSet<T> {
    type Element = T;

    ghost items = { λ s. s.keys };

    fn element_count(&self) -> usize {
        self.len()
    }

    fn encode_elements<E: EncodeMany<T>>(&self, elements: &mut E) -> Result<(), Error> {
        encode_lent(elements, self.iter())
    }

    ghost items_are = { λ t h. h.each };

    ghost items_list = { λ t d l. record
        { order = t.keys; reordered = IsPermutation-refl t.keys; listing = l } };

    ghost items_columns = { λ ds. refl };
}

impl<T: Key + Drop> FromElements for BTreeSet<T> {
    type Part = T;

    fn from_elements(alloc: Global, elements: Vec<T>) -> Result<BTreeSet<T>, Error>
        ensures made { IfOk result
            (λ t. MakesOfElements ⟦<BTreeSet<T> as Shaped>⟧.data.makes T.data.makes t
            elements.items) }
        ensures refused { IfErr result (λ e. e.reason ≡ Reason.OutOfMemory) }
    {
        told_each(elements.as_slice());
        Ok(BTreeSet::from_iter(alloc, elements)?)
    }
}

impl<T: Key + Hash + Drop> FromElements for HashSet<T> {
    type Part = T;

    fn from_elements(alloc: Global, elements: Vec<T>) -> Result<HashSet<T>, Error>
        ensures made { IfOk result
            (λ t. MakesOfElements ⟦<HashSet<T> as Shaped>⟧.data.makes T.data.makes t
            elements.items) }
        ensures refused { IfErr result (λ e. e.reason ≡ Reason.OutOfMemory) }
    {
        told_each(elements.as_slice());
        let mut set = HashSet::new(alloc);
        for element in elements {
            let _added = set.insert(element)?;
        }
        Ok(set)
    }
}

impl<'a, T: Key + Drop, D: Decoder<T>> Decoder<BTreeSet<T>> for VecDecoder<'a, D> {
    ghost makes_free = { false };

    fn decode(&mut self) -> Result<BTreeSet<T>, Error> {
        self.decode_as()
    }

    ghost same_shape = { ap (seq_shape None) D.same_shape };
}

impl<'a, T: Key + Hash + Drop, D: Decoder<T>> Decoder<HashSet<T>> for VecDecoder<'a, D> {
    ghost makes_free = { false };

    fn decode(&mut self) -> Result<HashSet<T>, Error> {
        self.decode_as()
    }

    ghost same_shape = { ap (seq_shape None) D.same_shape };
}
