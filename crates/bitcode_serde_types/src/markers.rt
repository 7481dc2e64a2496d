//! Markers of types, as units.
#![tactic(auto)]

ghost use Rattle.bitcode_shapes.specs.Datum.{unit};
ghost use Rattle.bitcode_untyped.specs.ShapeTree.{unit_tree};

use crate::deserialize_as::DeserializeAs;
use crate::has_shape::HasShape;
use crate::serialize_as::SerializeAs;
use bitcode_memory::error::Error;
use bitcode_serde::budget::Budget;
use bitcode_serde::reader::Reader;
use bitcode_serde::writer::Writer;
use std::alloc::Global;
use std::marker::PhantomData;

impl<T> HasShape for PhantomData<T> {
    ghost tree = { λ left. unit_tree };

    ghost datum = { λ m. unit };

    ghost sound = { λ left. tt };
}

impl<T> SerializeAs for PhantomData<T> {
    fn write(&self, _writer: &mut Writer, _left: usize, _place: usize) -> Result<(), Error> {
        Ok(())
    }
}

impl<'a, T> DeserializeAs<'a> for PhantomData<T> {
    fn is_free() -> bool {
        true
    }

    fn read(
        _alloc: Global,
        _reader: &mut Reader<'a>,
        budget: &mut Budget,
        _left: usize,
        _place: usize,
    ) -> Result<PhantomData<T>, Error> {
        budget.take(1);
        Ok(PhantomData)
    }
}
