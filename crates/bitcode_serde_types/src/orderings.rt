//! Orderings, as enums without fields: less, equal, greater.
#![tactic(auto)]

ghost use Rattle.bitcode_serde_types.specs.Orderings.{ordering_datum, ordering_tree};

use crate::deserialize_as::DeserializeAs;
use crate::entering::enter_variant;
use crate::has_shape::HasShape;
use crate::serialize_as::SerializeAs;
use crate::variants::write_variant;
use bitcode_memory::error::{Error, Reason};
use bitcode_serde::budget::Budget;
use bitcode_serde::reader::Reader;
use bitcode_serde::writer::Writer;
use std::alloc::Global;
use std::cmp::Ordering;

impl HasShape for Ordering {
    ghost tree = { λ left. ordering_tree };

    ghost datum = { ordering_datum };

    ghost sound = { λ left. (tt, (tt, (tt, tt))) };
}

impl SerializeAs for Ordering {
    fn write(&self, writer: &mut Writer, left: usize, place: usize) -> Result<(), Error> {
        match self {
            Ordering::Less => write_variant(&(), 0, writer, left, place),
            Ordering::Equal => write_variant(&(), 1, writer, left, place),
            Ordering::Greater => write_variant(&(), 2, writer, left, place),
        }
    }
}

impl<'a> DeserializeAs<'a> for Ordering {
    fn is_free() -> bool {
        false
    }

    fn read(
        _alloc: Global,
        reader: &mut Reader<'a>,
        budget: &mut Budget,
        _left: usize,
        place: usize,
    ) -> Result<Ordering, Error> {
        let found = enter_variant(reader, budget, 3, Reason::InvalidEnumVariant, place)?;
        budget.take(1);
        if found.index == 0 {
            return Ok(Ordering::Less);
        }
        if found.index == 1 {
            return Ok(Ordering::Equal);
        }
        Ok(Ordering::Greater)
    }
}
