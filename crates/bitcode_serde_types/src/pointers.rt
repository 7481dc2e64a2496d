//! References, boxes and shared pointers, which stand where their targets stand.
#![tactic(auto)]

ghost use Rattle.std.specs.Arc.{arc_value};
ghost use Rattle.std.specs.Rc.{rc_value};

use crate::deserialize_as::DeserializeAs;
use crate::has_shape::HasShape;
use crate::serialize_as::SerializeAs;
use bitcode_memory::error::Error;
use bitcode_serde::budget::Budget;
use bitcode_serde::reader::Reader;
use bitcode_serde::writer::Writer;
use std::alloc::Global;
use std::rc::Rc;
use std::sync::Arc;

impl<T: HasShape> HasShape for &T {
    ghost tree = { T.tree };

    ghost datum = { λ r. T.datum r.now };

    ghost sound = { T.sound };
}

impl<T: SerializeAs> SerializeAs for &T {
    #[inline(always)]
    fn write(&self, writer: &mut Writer, left: usize, place: usize) -> Result<(), Error> {
        (**self).write(writer, left, place)
    }
}

impl<T: HasShape> HasShape for Box<T> {
    ghost tree = { T.tree };

    ghost datum = { λ b. T.datum b.value };

    ghost sound = { T.sound };
}

impl<T: SerializeAs> SerializeAs for Box<T> {
    fn write(&self, writer: &mut Writer, left: usize, place: usize) -> Result<(), Error> {
        (**self).write(writer, left, place)
    }
}

impl<'a, T: DeserializeAs<'a>> DeserializeAs<'a> for Box<T> {
    fn is_free() -> bool {
        T::is_free()
    }

    fn read(
        alloc: Global,
        reader: &mut Reader<'a>,
        budget: &mut Budget,
        left: usize,
        place: usize,
    ) -> Result<Box<T>, Error> {
        let value: T = T::read(alloc, reader, budget, left, place)?;
        Ok(Box::new(alloc, value)?)
    }
}

impl<T: HasShape> HasShape for Rc<T> {
    ghost tree = { T.tree };

    ghost datum = { λ p. T.datum (rc_value p) };

    ghost sound = { T.sound };
}

impl<T: SerializeAs> SerializeAs for Rc<T> {
    fn write(&self, writer: &mut Writer, left: usize, place: usize) -> Result<(), Error> {
        self.as_ref().write(writer, left, place)
    }
}

impl<'a, T: DeserializeAs<'a>> DeserializeAs<'a> for Rc<T> {
    fn is_free() -> bool {
        T::is_free()
    }

    fn read(
        alloc: Global,
        reader: &mut Reader<'a>,
        budget: &mut Budget,
        left: usize,
        place: usize,
    ) -> Result<Rc<T>, Error> {
        let value: T = T::read(alloc, reader, budget, left, place)?;
        Ok(Rc::new(alloc, value)?)
    }
}

impl<T: HasShape> HasShape for Arc<T> {
    ghost tree = { T.tree };

    ghost datum = { λ p. T.datum (arc_value p) };

    ghost sound = { T.sound };
}

impl<T: SerializeAs> SerializeAs for Arc<T> {
    fn write(&self, writer: &mut Writer, left: usize, place: usize) -> Result<(), Error> {
        self.as_ref().write(writer, left, place)
    }
}

impl<'a, T: DeserializeAs<'a>> DeserializeAs<'a> for Arc<T> {
    fn is_free() -> bool {
        T::is_free()
    }

    fn read(
        alloc: Global,
        reader: &mut Reader<'a>,
        budget: &mut Budget,
        left: usize,
        place: usize,
    ) -> Result<Arc<T>, Error> {
        let value: T = T::read(alloc, reader, budget, left, place)?;
        Ok(Arc::new(alloc, value)?)
    }
}
