// Written by scripts/tables/integers.
//! Types that allow only some integers: nonzero integers, and chars.
#![tactic(auto, using(crate::proofs::CheckedLemmas::unsigned_from_bits, crate::proofs::CheckedLemmas::signed_from_bits))]

ghost use Rattle.std.specs.Prelude.{refl};
ghost use Rattle.bitcode_shapes.specs.Shape.{nonzero, scalar};

use crate::checked::Checked;
use std::num::{
    NonZeroI8, NonZeroI16, NonZeroI32, NonZeroI64, NonZeroI128, NonZeroIsize, NonZeroU8,
    NonZeroU16, NonZeroU32, NonZeroU64, NonZeroU128, NonZeroUsize,
};

impl Checked<u8> for NonZeroU8 {
    ghost allowed = { nonzero };

    fn from_bits(bits: u8) -> Option<Self> {
        NonZeroU8::new(bits)
    }

    ghost checked_shape = { refl };
}

impl Checked<u16> for NonZeroU16 {
    ghost allowed = { nonzero };

    fn from_bits(bits: u16) -> Option<Self> {
        NonZeroU16::new(bits)
    }

    ghost checked_shape = { refl };
}

impl Checked<u32> for NonZeroU32 {
    ghost allowed = { nonzero };

    fn from_bits(bits: u32) -> Option<Self> {
        NonZeroU32::new(bits)
    }

    ghost checked_shape = { refl };
}

impl Checked<u64> for NonZeroU64 {
    ghost allowed = { nonzero };

    fn from_bits(bits: u64) -> Option<Self> {
        NonZeroU64::new(bits)
    }

    ghost checked_shape = { refl };
}

impl Checked<u128> for NonZeroU128 {
    ghost allowed = { nonzero };

    fn from_bits(bits: u128) -> Option<Self> {
        NonZeroU128::new(bits)
    }

    ghost checked_shape = { refl };
}

impl Checked<usize> for NonZeroUsize {
    ghost allowed = { nonzero };

    fn from_bits(bits: usize) -> Option<Self> {
        NonZeroUsize::new(bits)
    }

    ghost checked_shape = { refl };
}

impl Checked<i8> for NonZeroI8 {
    ghost allowed = { nonzero };

    fn from_bits(bits: i8) -> Option<Self> {
        NonZeroI8::new(bits)
    }

    ghost checked_shape = { refl };
}

impl Checked<i16> for NonZeroI16 {
    ghost allowed = { nonzero };

    fn from_bits(bits: i16) -> Option<Self> {
        NonZeroI16::new(bits)
    }

    ghost checked_shape = { refl };
}

impl Checked<i32> for NonZeroI32 {
    ghost allowed = { nonzero };

    fn from_bits(bits: i32) -> Option<Self> {
        NonZeroI32::new(bits)
    }

    ghost checked_shape = { refl };
}

impl Checked<i64> for NonZeroI64 {
    ghost allowed = { nonzero };

    fn from_bits(bits: i64) -> Option<Self> {
        NonZeroI64::new(bits)
    }

    ghost checked_shape = { refl };
}

impl Checked<i128> for NonZeroI128 {
    ghost allowed = { nonzero };

    fn from_bits(bits: i128) -> Option<Self> {
        NonZeroI128::new(bits)
    }

    ghost checked_shape = { refl };
}

impl Checked<isize> for NonZeroIsize {
    ghost allowed = { nonzero };

    fn from_bits(bits: isize) -> Option<Self> {
        NonZeroIsize::new(bits)
    }

    ghost checked_shape = { refl };
}

impl Checked<u32> for char {
    ghost allowed = { scalar };

    fn from_bits(bits: u32) -> Option<Self> {
        char::from_u32(bits)
    }

    ghost checked_shape = { refl };
}
