//! Options.
#![tactic(auto)]

ghost use Rattle.bitcode_untyped.specs.ShapeTree.{option_tree};
ghost use Rattle.bitcode_serde_types.specs.Options.{option_datum};

use crate::deserialize_as::DeserializeAs;
use crate::entering::enter_variant;
use crate::has_shape::HasShape;
use crate::serialize_as::SerializeAs;
use crate::variants::write_variant;
use bitcode_memory::error::{Error, Reason};
use bitcode_serde::budget::Budget;
use bitcode_serde::reader::Reader;
use bitcode_serde::writer::Writer;
use std::alloc::Global;

impl<T: HasShape> HasShape for Option<T> {
    ghost tree = { λ left. option_tree (T.tree left) };

    ghost datum = { option_datum T.datum };

    ghost sound = { λ left. (tt, (T.sound left, tt)) };
}

impl<T: SerializeAs> SerializeAs for Option<T> {
    fn write(&self, writer: &mut Writer, left: usize, place: usize) -> Result<(), Error> {
        match self {
            None => write_variant(&(), 0, writer, left, place),
            Some(inside) => write_variant(inside, 1, writer, left, place),
        }
    }
}

impl<'a, T: DeserializeAs<'a>> DeserializeAs<'a> for Option<T> {
    fn is_free() -> bool {
        false
    }

    fn read(
        alloc: Global,
        reader: &mut Reader<'a>,
        budget: &mut Budget,
        left: usize,
        place: usize,
    ) -> Result<Option<T>, Error> {
        let found = enter_variant(reader, budget, 2, Reason::InvalidOption, place)?;
        if found.index == 0 {
            budget.take(1);
            return Ok(None);
        }
        let value: T = T::read(alloc, reader, budget, left, found.place)?;
        Ok(Some(value))
    }
}
