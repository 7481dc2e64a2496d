//! The fields of ranges: their ends.
ghost use Rattle.std.specs.Prelude.{refl};
ghost use Rattle.std.specs.Range.{range_inclusive_end, range_inclusive_start};
ghost use Rattle.bitcode_tuples.specs.FieldLaws.{field_alike, pair_alike};

use crate::has_field::{HasField, Nth};
use crate::struct_encoder::InFields;
use bitcode_shapes::shaped::Shaped;
use std::ops::{Range, RangeInclusive};

impl<T: Shaped> HasField<0> for Range<T> {
    type Field = T;

    ghost field = { λ t. t.start };

    fn field(&self) -> &T {
        &self.start
    }
}

impl<T: Shaped> HasField<1> for Range<T> {
    type Field = T;

    ghost field = { λ t. t.end };

    fn field(&self) -> &T {
        &self.end
    }
}

impl<T: Shaped> InFields for Range<T> {
    type Numbers = (Nth<0>, Nth<1>);

    type Inside = T;

    ghost same_columns = { refl };

    ghost of_fields = { λ d h. h };

    ghost same_listings = { λ t. pair_alike field_alike field_alike };
}

impl<T: Shaped> HasField<0> for RangeInclusive<T> {
    type Field = T;

    ghost field = { λ t. range_inclusive_start t };

    fn field(&self) -> &T {
        self.start()
    }
}

impl<T: Shaped> HasField<1> for RangeInclusive<T> {
    type Field = T;

    ghost field = { λ t. range_inclusive_end t };

    fn field(&self) -> &T {
        self.end()
    }
}

impl<T: Shaped> InFields for RangeInclusive<T> {
    type Numbers = (Nth<0>, Nth<1>);

    type Inside = T;

    ghost same_columns = { refl };

    ghost of_fields = { λ d h. h };

    ghost same_listings = { λ t. pair_alike field_alike field_alike };
}
