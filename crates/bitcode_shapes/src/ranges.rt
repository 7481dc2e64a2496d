//! Ranges: the pair of their ends. That an iteration has passed the end of a `RangeInclusive` is not kept.
ghost use Rattle.std.specs.Prelude.{false, refl};
ghost use Rattle.std.specs.Range.{range_inclusive_end, range_inclusive_start};
ghost use Rattle.bitcode_shapes.specs.DataOf.{data_as, pointed_data};

use crate::shaped::Shaped;
use std::ops::{Range, RangeInclusive};

impl<T: Shaped> Shaped for Range<T> {
    ghost data = { data_as (λ t. (t.start, t.end))
        (λ p. (record { start = p.0; end = p.1 }, refl)) (λ t. refl) ⟦<(T, T) as Shaped>⟧.data };

    fn told(&self) {
        self.start.told();
        self.end.told();
    }
}

impl<T: Shaped> Shaped for RangeInclusive<T> {
    ghost data = { pointed_data (λ t. (range_inclusive_start t, range_inclusive_end t))
        (λ g p. (record { start = p.0; end = p.1; exhausted = false }, refl))
        ⟦<(T, T) as Shaped>⟧.data };

    fn told(&self) {
        self.start().told();
        self.end().told();
    }
}
