//! Floats: their bits, where all NaNs have the same. They are no keys, since `==` is another relation.
ghost use Rattle.std.specs.Float.{binary32, binary64};
ghost use Rattle.bitcode_shapes.specs.Floats.{IsFloatValue};
ghost use Rattle.bitcode_shapes.specs.LeafData.{float_data};

use crate::shaped::Shaped;

// A float is a value of its format. It does nothing; its contract is for proofs.
fn known_f32(x: f32)
    ensures { IsFloatValue binary32 x }
{
    let _value = x;
}

// The same for an `f64`.
fn known_f64(x: f64)
    ensures { IsFloatValue binary64 x }
{
    let _value = x;
}

impl Shaped for f32 {
    ghost data = { float_data binary32 };

    fn told(&self) {
        known_f32(*self);
    }
}

impl Shaped for f64 {
    ghost data = { float_data binary64 };

    fn told(&self) {
        known_f64(*self);
    }
}
