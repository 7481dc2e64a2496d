//! Bools: the number 0 or 1.
ghost use Rattle.std.specs.Prelude.{refl};
ghost use Rattle.bitcode_shapes.specs.LeafData.{bool_data};

use crate::keys::Key;
use crate::shaped::Shaped;

impl Shaped for bool {
    ghost data = { bool_data };

    fn told(&self) {}
}

impl Key for bool {
    ghost equal = { refl };

    ghost ordered = { refl };
}
