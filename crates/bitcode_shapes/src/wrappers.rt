//! Numbers whose operators wrap or saturate: the numbers themselves.
ghost use Rattle.std.specs.Prelude.{refl};
ghost use Rattle.bitcode_shapes.specs.DataOf.{data_as};

use crate::keys::Key;
use crate::shaped::Shaped;
use std::num::{Saturating, Wrapping};

impl<T: Shaped> Shaped for Wrapping<T> {
    ghost data = { data_as (λ t. t.0) (λ p. (record { 0 = p }, refl)) (λ t. refl) T.data };

    fn told(&self) {
        self.0.told();
    }
}

impl<T: Key> Key for Wrapping<T> {
    ghost equal = { λ i t u. T.equal i t.0 u.0 };

    ghost ordered = { λ i t u. T.ordered i t.0 u.0 };
}

impl<T: Shaped> Shaped for Saturating<T> {
    ghost data = { data_as (λ t. t.0) (λ p. (record { 0 = p }, refl)) (λ t. refl) T.data };

    fn told(&self) {
        self.0.told();
    }
}

impl<T: Key> Key for Saturating<T> {
    ghost equal = { λ i t u. T.equal i t.0 u.0 };

    ghost ordered = { λ i t u. T.ordered i t.0 u.0 };
}
