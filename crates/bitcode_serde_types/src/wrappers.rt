//! Numbers whose operators wrap or saturate, as the numbers themselves.
#![tactic(auto)]

use crate::deserialize_as::DeserializeAs;
use crate::has_shape::HasShape;
use crate::serialize_as::SerializeAs;
use bitcode_memory::error::Error;
use bitcode_serde::budget::Budget;
use bitcode_serde::reader::Reader;
use bitcode_serde::writer::Writer;
use std::alloc::Global;
use std::num::{Saturating, Wrapping};

impl<T: HasShape> HasShape for Wrapping<T> {
    ghost tree = { T.tree };

    ghost datum = { λ t. T.datum t.0 };

    ghost sound = { T.sound };
}

impl<T: SerializeAs> SerializeAs for Wrapping<T> {
    fn write(&self, writer: &mut Writer, left: usize, place: usize) -> Result<(), Error> {
        self.0.write(writer, left, place)
    }
}

impl<'a, T: DeserializeAs<'a>> DeserializeAs<'a> for Wrapping<T> {
    fn is_free() -> bool {
        T::is_free()
    }

    fn read(
        alloc: Global,
        reader: &mut Reader<'a>,
        budget: &mut Budget,
        left: usize,
        place: usize,
    ) -> Result<Wrapping<T>, Error> {
        let value: T = T::read(alloc, reader, budget, left, place)?;
        Ok(Wrapping(value))
    }
}

impl<T: HasShape> HasShape for Saturating<T> {
    ghost tree = { T.tree };

    ghost datum = { λ t. T.datum t.0 };

    ghost sound = { T.sound };
}

impl<T: SerializeAs> SerializeAs for Saturating<T> {
    fn write(&self, writer: &mut Writer, left: usize, place: usize) -> Result<(), Error> {
        self.0.write(writer, left, place)
    }
}

impl<'a, T: DeserializeAs<'a>> DeserializeAs<'a> for Saturating<T> {
    fn is_free() -> bool {
        T::is_free()
    }

    fn read(
        alloc: Global,
        reader: &mut Reader<'a>,
        budget: &mut Budget,
        left: usize,
        place: usize,
    ) -> Result<Saturating<T>, Error> {
        let value: T = T::read(alloc, reader, budget, left, place)?;
        Ok(Saturating(value))
    }
}
