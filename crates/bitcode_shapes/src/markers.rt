//! Type markers: no data.
ghost use Rattle.std.specs.Prelude.{refl};
ghost use Rattle.bitcode_shapes.specs.LeafData.{unit_data};

use crate::keys::Key;
use crate::shaped::Shaped;
use std::marker::PhantomData;

impl<T> Shaped for PhantomData<T> {
    ghost data = { unit_data (record {}) (λ t u. refl) };

    fn told(&self) {}
}

impl<T> Key for PhantomData<T> {
    ghost equal = { refl };

    ghost ordered = { refl };
}
