//! Ranges, made from the pairs of their ends. `bitcode_tuples` writes the ends one by one, as the fields of a struct.
ghost use Rattle.std.specs.Prelude.{refl};

use crate::convert::ConvertFrom;
use bitcode_memory::error::Error;
use bitcode_shapes::shaped::Shaped;
use std::alloc::Global;
use std::ops::{Range, RangeInclusive};

impl<T: Shaped + Drop> ConvertFrom<(T, T)> for Range<T> {
    fn convert_from(_alloc: Global, value: (T, T)) -> Result<Self, Error> {
        let (start, end) = value;
        Ok(Range { start, end })
    }

    ghost same_shape = { refl };
}

impl<T: Shaped + Drop> ConvertFrom<(T, T)> for RangeInclusive<T> {
    fn convert_from(_alloc: Global, value: (T, T)) -> Result<Self, Error> {
        let (start, end) = value;
        Ok(RangeInclusive::new(start, end))
    }

    ghost same_shape = { refl };
}
