//! Nanoseconds below one second.
ghost use Rattle.std.specs.Prelude.{refl};
ghost use Rattle.bitcode_shapes.specs.Checked.{below_second};

use crate::checked::Checked;
use bitcode_shapes::nanosecond::Nanosecond;

impl Checked<u32> for Nanosecond {
    ghost allowed = { below_second };

    fn from_bits(bits: u32) -> Option<Self> {
        Nanosecond::new(bits)
    }

    ghost checked_shape = { refl };
}
