// Written by scripts/tables/integers.
//! Integers: their numbers. As keys they compare by number.
ghost use Rattle.std.specs.Prelude.{refl};
ghost use Rattle.bitcode_shapes.specs.LawfulInts.{width_1, width_2, width_4, width_8, width_16};
ghost use Rattle.bitcode_shapes.specs.LeafData.{signed_data, unsigned_data};

use crate::keys::Key;
use crate::shaped::Shaped;

impl Shaped for u8 {
    ghost data = { unsigned_data 1 width_1 };

    fn told(&self) {
        let _value = *self;
    }
}

impl Key for u8 {
    ghost equal = { refl };

    ghost ordered = { refl };
}

impl Shaped for u16 {
    ghost data = { unsigned_data 2 width_2 };

    fn told(&self) {
        let _value = *self;
    }
}

impl Key for u16 {
    ghost equal = { refl };

    ghost ordered = { refl };
}

impl Shaped for u32 {
    ghost data = { unsigned_data 4 width_4 };

    fn told(&self) {
        let _value = *self;
    }
}

impl Key for u32 {
    ghost equal = { refl };

    ghost ordered = { refl };
}

impl Shaped for u64 {
    ghost data = { unsigned_data 8 width_8 };

    fn told(&self) {
        let _value = *self;
    }
}

impl Key for u64 {
    ghost equal = { refl };

    ghost ordered = { refl };
}

impl Shaped for u128 {
    ghost data = { unsigned_data 16 width_16 };

    fn told(&self) {
        let _value = *self;
    }
}

impl Key for u128 {
    ghost equal = { refl };

    ghost ordered = { refl };
}

impl Shaped for usize {
    ghost data = { unsigned_data 8 width_8 };

    fn told(&self) {
        let _value = *self;
    }
}

impl Key for usize {
    ghost equal = { refl };

    ghost ordered = { refl };
}

impl Shaped for i8 {
    ghost data = { signed_data 1 width_1 };

    fn told(&self) {
        let _value = *self;
    }
}

impl Key for i8 {
    ghost equal = { refl };

    ghost ordered = { refl };
}

impl Shaped for i16 {
    ghost data = { signed_data 2 width_2 };

    fn told(&self) {
        let _value = *self;
    }
}

impl Key for i16 {
    ghost equal = { refl };

    ghost ordered = { refl };
}

impl Shaped for i32 {
    ghost data = { signed_data 4 width_4 };

    fn told(&self) {
        let _value = *self;
    }
}

impl Key for i32 {
    ghost equal = { refl };

    ghost ordered = { refl };
}

impl Shaped for i64 {
    ghost data = { signed_data 8 width_8 };

    fn told(&self) {
        let _value = *self;
    }
}

impl Key for i64 {
    ghost equal = { refl };

    ghost ordered = { refl };
}

impl Shaped for i128 {
    ghost data = { signed_data 16 width_16 };

    fn told(&self) {
        let _value = *self;
    }
}

impl Key for i128 {
    ghost equal = { refl };

    ghost ordered = { refl };
}

impl Shaped for isize {
    ghost data = { signed_data 8 width_8 };

    fn told(&self) {
        let _value = *self;
    }
}

impl Key for isize {
    ghost equal = { refl };

    ghost ordered = { refl };
}
