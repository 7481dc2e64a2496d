//! The unit: no data.
ghost use Rattle.std.specs.Prelude.{refl};
ghost use Rattle.bitcode_shapes.specs.LeafData.{unit_data};

use crate::keys::Key;
use crate::shaped::Shaped;

impl Shaped for () {
    ghost data = { unit_data (record {}) (λ t u. refl) };

    fn told(&self) {}
}

impl Key for () {
    ghost equal = { refl };

    ghost ordered = { refl };
}
