// Written by scripts/tables/integers.
//! Types that allow only some integers, which are written as those.
ghost use Rattle.std.specs.Prelude.{refl};

use crate::int::AsInt;
use std::num::{
    NonZeroI8, NonZeroI16, NonZeroI32, NonZeroI64, NonZeroI128, NonZeroIsize, NonZeroU8,
    NonZeroU16, NonZeroU32, NonZeroU64, NonZeroU128, NonZeroUsize,
};

impl AsInt<u8> for NonZeroU8 {
    fn to_int(&self) -> u8 {
        self.get()
    }

    ghost as_int_columns = { λ ds. refl };
}

impl AsInt<u16> for NonZeroU16 {
    fn to_int(&self) -> u16 {
        self.get()
    }

    ghost as_int_columns = { λ ds. refl };
}

impl AsInt<u32> for NonZeroU32 {
    fn to_int(&self) -> u32 {
        self.get()
    }

    ghost as_int_columns = { λ ds. refl };
}

impl AsInt<u64> for NonZeroU64 {
    fn to_int(&self) -> u64 {
        self.get()
    }

    ghost as_int_columns = { λ ds. refl };
}

impl AsInt<u128> for NonZeroU128 {
    fn to_int(&self) -> u128 {
        self.get()
    }

    ghost as_int_columns = { λ ds. refl };
}

impl AsInt<usize> for NonZeroUsize {
    fn to_int(&self) -> usize {
        self.get()
    }

    ghost as_int_columns = { λ ds. refl };
}

impl AsInt<i8> for NonZeroI8 {
    fn to_int(&self) -> i8 {
        self.get()
    }

    ghost as_int_columns = { λ ds. refl };
}

impl AsInt<i16> for NonZeroI16 {
    fn to_int(&self) -> i16 {
        self.get()
    }

    ghost as_int_columns = { λ ds. refl };
}

impl AsInt<i32> for NonZeroI32 {
    fn to_int(&self) -> i32 {
        self.get()
    }

    ghost as_int_columns = { λ ds. refl };
}

impl AsInt<i64> for NonZeroI64 {
    fn to_int(&self) -> i64 {
        self.get()
    }

    ghost as_int_columns = { λ ds. refl };
}

impl AsInt<i128> for NonZeroI128 {
    fn to_int(&self) -> i128 {
        self.get()
    }

    ghost as_int_columns = { λ ds. refl };
}

impl AsInt<isize> for NonZeroIsize {
    fn to_int(&self) -> isize {
        self.get()
    }

    ghost as_int_columns = { λ ds. refl };
}

impl AsInt<u32> for char {
    fn to_int(&self) -> u32 {
        *self as u32
    }

    ghost as_int_columns = { λ ds. refl };
}
