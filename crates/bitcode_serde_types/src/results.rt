//! Results.
#![tactic(auto)]

ghost use Rattle.bitcode_serde_types.specs.Results.{result_tree, result_datum};

use crate::deserialize_as::DeserializeAs;
use crate::entering::enter_variant;
use crate::has_shape::HasShape;
use crate::serialize_as::SerializeAs;
use crate::variants::write_variant;
use bitcode_memory::error::{Error, Reason};
use bitcode_serde::budget::Budget;
use bitcode_serde::reader::Reader;
use bitcode_serde::writer::Writer;
use std::alloc::Global;

impl<T: HasShape, E: HasShape> HasShape for Result<T, E> {
    ghost tree = { λ left. result_tree (T.tree left) (E.tree left) };

    ghost datum = { result_datum T.datum E.datum };

    ghost sound = { λ left. (T.sound left, (E.sound left, tt)) };
}

impl<T: SerializeAs, E: SerializeAs> SerializeAs for Result<T, E> {
    fn write(&self, writer: &mut Writer, left: usize, place: usize) -> Result<(), Error> {
        match self {
            Ok(value) => write_variant(value, 0, writer, left, place),
            Err(error) => write_variant(error, 1, writer, left, place),
        }
    }
}

impl<'a, T: DeserializeAs<'a>, E: DeserializeAs<'a>> DeserializeAs<'a> for Result<T, E> {
    fn is_free() -> bool {
        false
    }

    fn read(
        alloc: Global,
        reader: &mut Reader<'a>,
        budget: &mut Budget,
        left: usize,
        place: usize,
    ) -> Result<Result<T, E>, Error> {
        let found = enter_variant(reader, budget, 2, Reason::InvalidEnumVariant, place)?;
        if found.index == 0 {
            let value: T = T::read(alloc, reader, budget, left, found.place)?;
            return Ok(Ok(value));
        }
        let error: E = E::read(alloc, reader, budget, left, found.place)?;
        Ok(Err(error))
    }
}
