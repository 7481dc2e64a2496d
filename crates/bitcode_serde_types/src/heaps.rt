//! Heaps: their elements, in the heap's internal order, and read in any order.
#![tactic(auto)]

ghost use Rattle.std.specs.Prelude.{refl};
ghost use Rattle.std.specs.BinaryHeap.{heap_items};
ghost use Rattle.bitcode_serde_types.specs.Heaps.{heap_tree};
ghost use Rattle.bitcode_serde_types.specs.Lists.{list_datum};

use crate::deserialize_as::DeserializeAs;
use crate::entering::read_at;
use crate::has_shape::HasShape;
use crate::lists::write_lent;
use crate::serialize_as::SerializeAs;
use bitcode_memory::error::Error;
use bitcode_serde::budget::Budget;
use bitcode_serde::reader::Reader;
use bitcode_serde::writer::Writer;
use std::alloc::Global;
use std::cmp::Ord;
use std::collections::BinaryHeap;

impl<T: HasShape + Ord> HasShape for BinaryHeap<T> {
    ghost tree = { λ left. heap_tree (T.tree left) };

    ghost datum = { λ h. list_datum T.datum (heap_items h) };

    ghost sound = { λ left. (T.sound left, refl) };
}

impl<T: SerializeAs + Ord> SerializeAs for BinaryHeap<T> {
    fn write(&self, writer: &mut Writer, left: usize, place: usize) -> Result<(), Error> {
        write_lent(self.as_slice().iter(), self.len(), writer, left, place)
    }
}

impl<'a, T: DeserializeAs<'a> + Ord> DeserializeAs<'a> for BinaryHeap<T> {
    fn is_free() -> bool {
        false
    }

    fn read(
        alloc: Global,
        reader: &mut Reader<'a>,
        budget: &mut Budget,
        left: usize,
        place: usize,
    ) -> Result<BinaryHeap<T>, Error> {
        let values: Vec<T> = read_at(alloc, reader, budget, left, place)?;
        Ok(BinaryHeap::from(values))
    }
}
