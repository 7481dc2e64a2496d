//! Numbers whose operators wrap or saturate, as the numbers themselves.
ghost use Rattle.std.specs.Prelude.{refl};

use crate::convert::ConvertFrom;
use crate::pointers::deref::Points;
use bitcode_memory::error::Error;
use bitcode_shapes::shaped::Shaped;
use std::alloc::Global;
use std::num::{Saturating, Wrapping};

impl<T: Shaped> Points for Wrapping<T> {
    type Target = T;

    ghost points_to = { λ t. t.0 };

    fn target(&self) -> &T {
        &self.0
    }

    ghost same_shape = { refl };

    ghost lists_too = { λ p d listed. listed };
}

impl<T: Shaped + Drop> ConvertFrom<T> for Wrapping<T> {
    fn convert_from(_alloc: Global, value: T) -> Result<Self, Error> {
        Ok(Wrapping(value))
    }

    ghost same_shape = { refl };
}

impl<T: Shaped> Points for Saturating<T> {
    type Target = T;

    ghost points_to = { λ t. t.0 };

    fn target(&self) -> &T {
        &self.0
    }

    ghost same_shape = { refl };

    ghost lists_too = { λ p d listed. listed };
}

impl<T: Shaped + Drop> ConvertFrom<T> for Saturating<T> {
    fn convert_from(_alloc: Global, value: T) -> Result<Self, Error> {
        Ok(Saturating(value))
    }

    ghost same_shape = { refl };
}
