//! `Desk` in the second format. What is below the declarations was written by `scripts/second_format`.

use arrayvec::{ArrayString, ArrayVec};
use bitcode_serde_types::written::{
    Budget, DeserializeAs, DeserializeFields, Error, HasShape, Reader, SerializeAs, Writer,
    read_tuple, write_tuple,
};
use std::alloc::Global;
use std::collections::BinaryHeap;
use uuid::Uuid;

/// A desk, and what waits at it.
#[derive(Drop)]
pub struct Desk {
    pub id: Uuid,
    pub label: ArrayString<12>,
    pub open: ArrayVec<u8, 4>,
    pub waiting: BinaryHeap<u32>,
}

impl HasShape for Desk {
    ghost use Rattle.bitcode_recursive_types.specs.DeskShape.{desk_tree, desk_datum, desk_sound};

    ghost tree = { desk_tree };

    ghost datum = { desk_datum };

    ghost sound = { desk_sound };
}

impl SerializeAs for Desk {
    fn write(&self, writer: &mut Writer, left: usize, place: usize) -> Result<(), Error> {
        let fields = (&self.id, (&self.label, (&self.open, (&self.waiting, ()))));
        write_tuple(&fields, 4, writer, left, place)
    }
}

impl<'a> DeserializeAs<'a> for Desk {
    fn is_free() -> bool {
        <(
            Uuid,
            (ArrayString<12>, (ArrayVec<u8, 4>, (BinaryHeap<u32>, ()))),
        ) as DeserializeFields<'a>>::are_free()
    }

    fn read(
        alloc: Global,
        reader: &mut Reader<'a>,
        budget: &mut Budget,
        left: usize,
        place: usize,
    ) -> Result<Desk, Error> {
        let fields: (
            Uuid,
            (ArrayString<12>, (ArrayVec<u8, 4>, (BinaryHeap<u32>, ()))),
        ) = read_tuple(alloc, reader, budget, left, place, 4)?;
        let (id, (label, (field2, (waiting, _end)))) = fields;
        Ok(Desk {
            id,
            label,
            open: field2,
            waiting,
        })
    }
}
