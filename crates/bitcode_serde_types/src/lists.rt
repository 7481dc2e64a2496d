//! Queues, linked lists, and slices: their elements, front to back.
#![tactic(auto)]

ghost use Rattle.std.specs.Prelude.{◌≡◌, ◌≤◌, length};
ghost use Rattle.std.specs.Arc.{arc_slice_items};
ghost use Rattle.std.specs.Box.{boxed_slice_items};
ghost use Rattle.std.specs.Rc.{rc_slice_items};
ghost use Rattle.std.specs.VecDeque.{deque_items};
ghost use Rattle.bitcode_untyped.specs.ShapeTree.{seq_tree};
ghost use Rattle.bitcode_serde.specs.Serializing.{Outcome};
ghost use Rattle.bitcode_serde_types.specs.DeepFaults.{deep_faults};
ghost use Rattle.bitcode_serde_types.specs.Lists.{list_datum};

use crate::deserialize_as::DeserializeAs;
use crate::entering::read_at;
use crate::has_shape::HasShape;
use crate::serialize_as::SerializeAs;
use bitcode_coder::lends::Lends;
use bitcode_memory::error::Error;
use bitcode_serde::budget::Budget;
use bitcode_serde::reader::Reader;
use bitcode_serde::walk::element_below;
use bitcode_serde::write_column::Entry;
use bitcode_serde::writer::Writer;
use std::alloc::Global;
use std::boxed::BoxedSlice;
use std::collections::{LinkedList, VecDeque};
use std::rc::RcSlice;
use std::sync::ArcSlice;

/// Writes a list of `count` elements that are lent.
pub(crate) fn write_lent<'b, T: SerializeAs + 'b, L: Lends<'b, T>>(
    mut lent: L,
    count: usize,
    writer: &mut Writer,
    left: usize,
    place: usize,
) -> Result<(), Error>
    requires place { place ≤ length writer.old.places.below.items }
    requires all { length (L.rest lent) ≡ count }
    ensures { Outcome writer.old (seq_tree (T.tree left)) place (list_datum T.datum (L.rest lent))
        (deep_faults (seq_tree (T.tree left)) (list_datum T.datum (L.rest lent))) result
        writer.new }
{
    writer.put(place, Entry::Length(count))?;
    let element = element_below(writer, place)?;
    while let Some(value) = lent.lend() {
        value.write(writer, left, element)?;
    }
    Ok(())
}

impl<'b, T: HasShape> HasShape for &'b [T] {
    ghost tree = { λ left. seq_tree (T.tree left) };

    ghost datum = { λ l. list_datum T.datum l.now };

    ghost sound = { T.sound };
}

impl<'b, T: SerializeAs> SerializeAs for &'b [T] {
    fn write(&self, writer: &mut Writer, left: usize, place: usize) -> Result<(), Error> {
        write_lent((*self).iter(), self.len(), writer, left, place)
    }
}

impl<T: HasShape> HasShape for BoxedSlice<T> {
    ghost tree = { λ left. seq_tree (T.tree left) };

    ghost datum = { λ l. list_datum T.datum (boxed_slice_items l) };

    ghost sound = { T.sound };
}

impl<T: SerializeAs> SerializeAs for BoxedSlice<T> {
    fn write(&self, writer: &mut Writer, left: usize, place: usize) -> Result<(), Error> {
        write_lent(self.as_slice().iter(), self.len(), writer, left, place)
    }
}

impl<'a, T: DeserializeAs<'a>> DeserializeAs<'a> for BoxedSlice<T> {
    fn is_free() -> bool {
        false
    }

    fn read(
        alloc: Global,
        reader: &mut Reader<'a>,
        budget: &mut Budget,
        left: usize,
        place: usize,
    ) -> Result<BoxedSlice<T>, Error> {
        let values: Vec<T> = read_at(alloc, reader, budget, left, place)?;
        Ok(values.into_boxed_slice())
    }
}

impl<T: HasShape> HasShape for RcSlice<T> {
    ghost tree = { λ left. seq_tree (T.tree left) };

    ghost datum = { λ l. list_datum T.datum (rc_slice_items l) };

    ghost sound = { T.sound };
}

impl<T: SerializeAs> SerializeAs for RcSlice<T> {
    fn write(&self, writer: &mut Writer, left: usize, place: usize) -> Result<(), Error> {
        write_lent(self.as_slice().iter(), self.len(), writer, left, place)
    }
}

impl<'a, T: DeserializeAs<'a>> DeserializeAs<'a> for RcSlice<T> {
    fn is_free() -> bool {
        false
    }

    fn read(
        alloc: Global,
        reader: &mut Reader<'a>,
        budget: &mut Budget,
        left: usize,
        place: usize,
    ) -> Result<RcSlice<T>, Error> {
        let values: Vec<T> = read_at(alloc, reader, budget, left, place)?;
        Ok(RcSlice::from_vec(values)?)
    }
}

impl<T: HasShape> HasShape for ArcSlice<T> {
    ghost tree = { λ left. seq_tree (T.tree left) };

    ghost datum = { λ l. list_datum T.datum (arc_slice_items l) };

    ghost sound = { T.sound };
}

impl<T: SerializeAs> SerializeAs for ArcSlice<T> {
    fn write(&self, writer: &mut Writer, left: usize, place: usize) -> Result<(), Error> {
        write_lent(self.as_slice().iter(), self.len(), writer, left, place)
    }
}

impl<'a, T: DeserializeAs<'a>> DeserializeAs<'a> for ArcSlice<T> {
    fn is_free() -> bool {
        false
    }

    fn read(
        alloc: Global,
        reader: &mut Reader<'a>,
        budget: &mut Budget,
        left: usize,
        place: usize,
    ) -> Result<ArcSlice<T>, Error> {
        let values: Vec<T> = read_at(alloc, reader, budget, left, place)?;
        Ok(ArcSlice::from_vec(values)?)
    }
}

impl<T: HasShape> HasShape for VecDeque<T> {
    ghost tree = { λ left. seq_tree (T.tree left) };

    ghost datum = { λ l. list_datum T.datum (deque_items l) };

    ghost sound = { T.sound };
}

impl<T: SerializeAs> SerializeAs for VecDeque<T> {
    fn write(&self, writer: &mut Writer, left: usize, place: usize) -> Result<(), Error> {
        write_lent(self.iter(), self.len(), writer, left, place)
    }
}

impl<'a, T: DeserializeAs<'a>> DeserializeAs<'a> for VecDeque<T> {
    fn is_free() -> bool {
        false
    }

    fn read(
        alloc: Global,
        reader: &mut Reader<'a>,
        budget: &mut Budget,
        left: usize,
        place: usize,
    ) -> Result<VecDeque<T>, Error> {
        let values: Vec<T> = read_at(alloc, reader, budget, left, place)?;
        Ok(VecDeque::from(values))
    }
}

impl<T: HasShape> HasShape for LinkedList<T> {
    ghost tree = { λ left. seq_tree (T.tree left) };

    ghost datum = { λ l. list_datum T.datum l };

    ghost sound = { T.sound };
}

impl<T: SerializeAs> SerializeAs for LinkedList<T> {
    fn write(&self, writer: &mut Writer, left: usize, place: usize) -> Result<(), Error> {
        write_lent(self.iter(), self.len(), writer, left, place)
    }
}

impl<'a, T: DeserializeAs<'a>> DeserializeAs<'a> for LinkedList<T> {
    fn is_free() -> bool {
        false
    }

    fn read(
        alloc: Global,
        reader: &mut Reader<'a>,
        budget: &mut Budget,
        left: usize,
        place: usize,
    ) -> Result<LinkedList<T>, Error> {
        let values: Vec<T> = read_at(alloc, reader, budget, left, place)?;
        Ok(LinkedList::from_iter(alloc, values)?)
    }
}
