//! Boxes, shared pointers, boxed and shared slices, and tuples of one field: the coders of what they contain.
ghost use Rattle.std.specs.Prelude.{refl, false};
ghost use Rattle.std.specs.Arc.{arc_value};
ghost use Rattle.std.specs.Box.{box_value};
ghost use Rattle.std.specs.Rc.{rc_value};

use crate::convert::ConvertFrom;
use crate::pointers::deref::Points;
use bitcode_memory::error::Error;
use bitcode_shapes::shaped::Shaped;
use std::alloc::Global;
use std::boxed::BoxedSlice;
use std::rc::{Rc, RcSlice};
use std::sync::{Arc, ArcSlice};

pub mod deref;
mod pointed;

impl<T: Shaped> Points for Box<T> {
    type Target = T;

    ghost points_to = { box_value };

    fn target(&self) -> &T {
        self.as_ref()
    }

    ghost same_shape = { refl };

    ghost lists_too = { λ p d listed. listed };
}

impl<T: Shaped + Drop> ConvertFrom<T> for Box<T> {
    ghost is_free = { false };

    fn convert_from(alloc: Global, value: T) -> Result<Self, Error> {
        Ok(Box::new(alloc, value)?)
    }

    ghost same_shape = { refl };
}

impl<T: Shaped> Points for Rc<T> {
    type Target = T;

    ghost points_to = { rc_value };

    fn target(&self) -> &T {
        self.as_ref()
    }

    ghost same_shape = { refl };

    ghost lists_too = { λ p d listed. listed };
}

impl<T: Shaped + Drop> ConvertFrom<T> for Rc<T> {
    ghost is_free = { false };

    fn convert_from(alloc: Global, value: T) -> Result<Self, Error> {
        Ok(Rc::new(alloc, value)?)
    }

    ghost same_shape = { refl };
}

impl<T: Shaped> Points for Arc<T> {
    type Target = T;

    ghost points_to = { arc_value };

    fn target(&self) -> &T {
        self.as_ref()
    }

    ghost same_shape = { refl };

    ghost lists_too = { λ p d listed. listed };
}

impl<T: Shaped + Drop> ConvertFrom<T> for Arc<T> {
    ghost is_free = { false };

    fn convert_from(alloc: Global, value: T) -> Result<Self, Error> {
        Ok(Arc::new(alloc, value)?)
    }

    ghost same_shape = { refl };
}

impl<T: Shaped + Drop> ConvertFrom<Vec<T>> for BoxedSlice<T> {
    fn convert_from(_alloc: Global, value: Vec<T>) -> Result<Self, Error> {
        Ok(value.into_boxed_slice())
    }

    ghost same_shape = { refl };
}

impl<T: Shaped + Drop> ConvertFrom<Vec<T>> for RcSlice<T> {
    ghost is_free = { false };

    fn convert_from(_alloc: Global, value: Vec<T>) -> Result<Self, Error> {
        Ok(RcSlice::from_vec(value)?)
    }

    ghost same_shape = { refl };
}

impl<T: Shaped + Drop> ConvertFrom<Vec<T>> for ArcSlice<T> {
    ghost is_free = { false };

    fn convert_from(_alloc: Global, value: Vec<T>) -> Result<Self, Error> {
        Ok(ArcSlice::from_vec(value)?)
    }

    ghost same_shape = { refl };
}

impl<T: Shaped> Points for (T,) {
    type Target = T;

    ghost points_to = { λ t. t.0 };

    fn target(&self) -> &T {
        &self.0
    }

    ghost same_shape = { refl };

    ghost lists_too = { λ p d listed. listed };
}

impl<T: Shaped + Drop> ConvertFrom<T> for (T,) {
    fn convert_from(_alloc: Global, value: T) -> Result<Self, Error> {
        Ok((value,))
    }

    ghost same_shape = { refl };
}
