//! Durations: seconds, and nanoseconds below one second.
#![tactic(auto)]

ghost use Rattle.bitcode_shapes.specs.LawfulInts.{width_4};
ghost use Rattle.bitcode_coder.specs.Spelling.{natural};
ghost use Rattle.bitcode_serde_types.specs.Durations.{nanosecond_tree, duration_tree};
ghost use Rattle.bitcode_serde_types.specs.Durations.{duration_datum, duration_sound};

use crate::deserialize_as::DeserializeAs;
use crate::entering::read_at;
use crate::fields::write_tuple;
use crate::has_shape::HasShape;
use crate::read_leaves::read_number;
use crate::serialize_as::SerializeAs;
use bitcode_memory::error::{Error, Reason};
use bitcode_memory::refuse::err;
use bitcode_serde::budget::Budget;
use bitcode_serde::reader::Reader;
use bitcode_serde::writer::Writer;
use bitcode_shapes::nanosecond::Nanosecond;
use std::alloc::Global;
use std::time::Duration;

impl HasShape for Nanosecond {
    ghost tree = { λ left. nanosecond_tree };

    ghost datum = { λ n. natural n.nanos };

    ghost sound = { λ left. width_4 };
}

impl SerializeAs for Nanosecond {
    fn write(&self, writer: &mut Writer, left: usize, place: usize) -> Result<(), Error> {
        self.into_inner().write(writer, left, place)
    }
}

impl<'a> DeserializeAs<'a> for Nanosecond {
    fn is_free() -> bool {
        false
    }

    fn read(
        _alloc: Global,
        reader: &mut Reader<'a>,
        budget: &mut Budget,
        _left: usize,
        place: usize,
    ) -> Result<Nanosecond, Error> {
        let number: u32 = read_number(reader, budget, place)?;
        match Nanosecond::new(number) {
            Some(nanos) => Ok(nanos),
            None => err(Reason::InvalidBitPattern),
        }
    }
}

impl HasShape for Duration {
    ghost tree = { λ left. duration_tree };

    ghost datum = { duration_datum };

    ghost sound = { duration_sound };
}

impl SerializeAs for Duration {
    fn write(&self, writer: &mut Writer, left: usize, place: usize) -> Result<(), Error> {
        write_tuple(
            &(&self.as_secs(), (&self.subsec_nanos(), ())),
            2,
            writer,
            left,
            place,
        )
    }
}

impl<'a> DeserializeAs<'a> for Duration {
    fn is_free() -> bool {
        false
    }

    fn read(
        alloc: Global,
        reader: &mut Reader<'a>,
        budget: &mut Budget,
        left: usize,
        place: usize,
    ) -> Result<Duration, Error> {
        let parts: (u64, Nanosecond) = read_at(alloc, reader, budget, left, place)?;
        let (seconds, nanos) = parts;
        Ok(Duration::new(seconds, nanos.into_inner()))
    }
}
