//! Ranges, as the pairs of their ends.
#![tactic(auto)]

ghost use Rattle.std.specs.Range.{range_inclusive_end, range_inclusive_start};

use crate::deserialize_as::DeserializeAs;
use crate::entering::read_at;
use crate::fields::write_tuple;
use crate::has_shape::HasShape;
use crate::serialize_as::SerializeAs;
use bitcode_memory::error::Error;
use bitcode_serde::budget::Budget;
use bitcode_serde::reader::Reader;
use bitcode_serde::writer::Writer;
use std::alloc::Global;
use std::ops::{Range, RangeInclusive};

impl<T: HasShape> HasShape for Range<T> {
    ghost tree = { ⟦<(T, T) as HasShape>⟧.tree };

    ghost datum = { λ t. ⟦<(T, T) as HasShape>⟧.datum (t.start, t.end) };

    ghost sound = { ⟦<(T, T) as HasShape>⟧.sound };
}

impl<T: SerializeAs> SerializeAs for Range<T> {
    fn write(&self, writer: &mut Writer, left: usize, place: usize) -> Result<(), Error> {
        write_tuple(&(&self.start, (&self.end, ())), 2, writer, left, place)
    }
}

impl<'a, T: DeserializeAs<'a>> DeserializeAs<'a> for Range<T> {
    fn is_free() -> bool {
        <(T, T) as DeserializeAs<'a>>::is_free()
    }

    fn read(
        alloc: Global,
        reader: &mut Reader<'a>,
        budget: &mut Budget,
        left: usize,
        place: usize,
    ) -> Result<Range<T>, Error> {
        let ends: (T, T) = read_at(alloc, reader, budget, left, place)?;
        let (start, end) = ends;
        Ok(Range { start, end })
    }
}

impl<T: HasShape> HasShape for RangeInclusive<T> {
    ghost tree = { ⟦<(T, T) as HasShape>⟧.tree };

    ghost datum = { λ t. ⟦<(T, T) as HasShape>⟧.datum
        (range_inclusive_start t, range_inclusive_end t) };

    ghost sound = { ⟦<(T, T) as HasShape>⟧.sound };
}

impl<T: SerializeAs> SerializeAs for RangeInclusive<T> {
    fn write(&self, writer: &mut Writer, left: usize, place: usize) -> Result<(), Error> {
        write_tuple(&(self.start(), (self.end(), ())), 2, writer, left, place)
    }
}

impl<'a, T: DeserializeAs<'a>> DeserializeAs<'a> for RangeInclusive<T> {
    fn is_free() -> bool {
        <(T, T) as DeserializeAs<'a>>::is_free()
    }

    fn read(
        alloc: Global,
        reader: &mut Reader<'a>,
        budget: &mut Budget,
        left: usize,
        place: usize,
    ) -> Result<RangeInclusive<T>, Error> {
        let ends: (T, T) = read_at(alloc, reader, budget, left, place)?;
        let (start, end) = ends;
        Ok(RangeInclusive::new(start, end))
    }
}
