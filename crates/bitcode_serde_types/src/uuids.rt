//! UUIDs: lists of their sixteen bytes.
#![tactic(auto)]

ghost use Rattle.std.specs.Prelude.{refl};
ghost use Rattle.bitcode_shapes.specs.LawfulInts.{width_1};
ghost use Rattle.bitcode_serde_types.specs.Uuids.{uuid_datum, uuid_tree};

use crate::deserialize_as::DeserializeAs;
use crate::has_shape::HasShape;
use crate::lists::write_lent;
use crate::sequences::{Limits, read_limited};
use crate::serialize_as::SerializeAs;
use bitcode_memory::error::{Error, Reason};
use bitcode_serde::budget::Budget;
use bitcode_serde::reader::Reader;
use bitcode_serde::writer::Writer;
use std::alloc::Global;
use uuid::Uuid;

impl HasShape for Uuid {
    ghost tree = { λ left. uuid_tree };

    ghost datum = { uuid_datum };

    ghost sound = { λ left. (width_1, refl) };
}

impl SerializeAs for Uuid {
    fn write(&self, writer: &mut Writer, left: usize, place: usize) -> Result<(), Error> {
        let bytes = self.into_bytes();
        write_lent(bytes.as_slice().iter(), 16, writer, left, place)
    }
}

impl<'a> DeserializeAs<'a> for Uuid {
    fn is_free() -> bool {
        false
    }

    fn read(
        alloc: Global,
        reader: &mut Reader<'a>,
        budget: &mut Budget,
        left: usize,
        place: usize,
    ) -> Result<Uuid, Error> {
        let limits = Limits {
            least: 16,
            most: 16,
            otherwise: Reason::InvalidBitPattern,
        };
        let bytes: Vec<u8> = read_limited(alloc, reader, budget, left, place, limits)?;
        match <[u8; 16]>::try_from(bytes) {
            Ok(all) => Ok(Uuid::from_bytes(all)),
            // The budget is spent, so that not all bytes were kept.
            Err(_some) => Ok(Uuid::nil()),
        }
    }
}
