// Written by scripts/tables/integers.
//! Types that allow only some numbers: nonzero integers, and chars.
#![tactic(auto, using(crate::proofs::CheckedLemmas::nonzero_unsigned, crate::proofs::CheckedLemmas::nonzero_signed))]

ghost use Rattle.std.specs.Prelude.{refl};
ghost use Rattle.std.specs.Int.NonZero.{non_zero_u8_get, non_zero_u16_get, non_zero_u32_get, non_zero_u64_get};
ghost use Rattle.std.specs.Int.NonZero.{non_zero_u128_get, non_zero_usize_get, non_zero_i8_get, non_zero_i16_get};
ghost use Rattle.std.specs.Int.NonZero.{non_zero_i32_get, non_zero_i64_get, non_zero_i128_get, non_zero_isize_get};
ghost use Rattle.bitcode_shapes.specs.LawfulInts.{width_1, width_2, width_4, width_8, width_16};
ghost use Rattle.bitcode_shapes.specs.LeafData.{char_data, signed_nonzero_data, unsigned_nonzero_data};

use crate::keys::Key;
use crate::shaped::Shaped;
use std::num::{
    NonZeroI8, NonZeroI16, NonZeroI32, NonZeroI64, NonZeroI128, NonZeroIsize, NonZeroU8,
    NonZeroU16, NonZeroU32, NonZeroU64, NonZeroU128, NonZeroUsize,
};

impl Shaped for NonZeroU8 {
    ghost data = { unsigned_nonzero_data non_zero_u8_get 1 width_1
        (λ n h. (record { value = n; ok = h }, refl)) };

    fn told(&self) {
        let _value = self.get();
    }
}

impl Key for NonZeroU8 {
    ghost equal = { refl };

    ghost ordered = { refl };
}

impl Shaped for NonZeroU16 {
    ghost data = { unsigned_nonzero_data non_zero_u16_get 2 width_2
        (λ n h. (record { value = n; ok = h }, refl)) };

    fn told(&self) {
        let _value = self.get();
    }
}

impl Key for NonZeroU16 {
    ghost equal = { refl };

    ghost ordered = { refl };
}

impl Shaped for NonZeroU32 {
    ghost data = { unsigned_nonzero_data non_zero_u32_get 4 width_4
        (λ n h. (record { value = n; ok = h }, refl)) };

    fn told(&self) {
        let _value = self.get();
    }
}

impl Key for NonZeroU32 {
    ghost equal = { refl };

    ghost ordered = { refl };
}

impl Shaped for NonZeroU64 {
    ghost data = { unsigned_nonzero_data non_zero_u64_get 8 width_8
        (λ n h. (record { value = n; ok = h }, refl)) };

    fn told(&self) {
        let _value = self.get();
    }
}

impl Key for NonZeroU64 {
    ghost equal = { refl };

    ghost ordered = { refl };
}

impl Shaped for NonZeroU128 {
    ghost data = { unsigned_nonzero_data non_zero_u128_get 16 width_16
        (λ n h. (record { value = n; ok = h }, refl)) };

    fn told(&self) {
        let _value = self.get();
    }
}

impl Key for NonZeroU128 {
    ghost equal = { refl };

    ghost ordered = { refl };
}

impl Shaped for NonZeroUsize {
    ghost data = { unsigned_nonzero_data non_zero_usize_get 8 width_8
        (λ n h. (record { value = n; ok = h }, refl)) };

    fn told(&self) {
        let _value = self.get();
    }
}

impl Key for NonZeroUsize {
    ghost equal = { refl };

    ghost ordered = { refl };
}

impl Shaped for NonZeroI8 {
    ghost data = { signed_nonzero_data non_zero_i8_get 1 width_1
        (λ z h. (record { value = z; ok = h }, refl)) };

    fn told(&self) {
        let _value = self.get();
    }
}

impl Key for NonZeroI8 {
    ghost equal = { refl };

    ghost ordered = { refl };
}

impl Shaped for NonZeroI16 {
    ghost data = { signed_nonzero_data non_zero_i16_get 2 width_2
        (λ z h. (record { value = z; ok = h }, refl)) };

    fn told(&self) {
        let _value = self.get();
    }
}

impl Key for NonZeroI16 {
    ghost equal = { refl };

    ghost ordered = { refl };
}

impl Shaped for NonZeroI32 {
    ghost data = { signed_nonzero_data non_zero_i32_get 4 width_4
        (λ z h. (record { value = z; ok = h }, refl)) };

    fn told(&self) {
        let _value = self.get();
    }
}

impl Key for NonZeroI32 {
    ghost equal = { refl };

    ghost ordered = { refl };
}

impl Shaped for NonZeroI64 {
    ghost data = { signed_nonzero_data non_zero_i64_get 8 width_8
        (λ z h. (record { value = z; ok = h }, refl)) };

    fn told(&self) {
        let _value = self.get();
    }
}

impl Key for NonZeroI64 {
    ghost equal = { refl };

    ghost ordered = { refl };
}

impl Shaped for NonZeroI128 {
    ghost data = { signed_nonzero_data non_zero_i128_get 16 width_16
        (λ z h. (record { value = z; ok = h }, refl)) };

    fn told(&self) {
        let _value = self.get();
    }
}

impl Key for NonZeroI128 {
    ghost equal = { refl };

    ghost ordered = { refl };
}

impl Shaped for NonZeroIsize {
    ghost data = { signed_nonzero_data non_zero_isize_get 8 width_8
        (λ z h. (record { value = z; ok = h }, refl)) };

    fn told(&self) {
        let _value = self.get();
    }
}

impl Key for NonZeroIsize {
    ghost equal = { refl };

    ghost ordered = { refl };
}

impl Shaped for char {
    ghost data = { char_data };

    fn told(&self) {
        let _value = *self;
    }
}

impl Key for char {
    ghost equal = { refl };

    ghost ordered = { refl };
}
