// Written by scripts/tables/serde_nonzero.
//! Integers that are not 0.
#![tactic(auto)]

ghost use Rattle.std.specs.Int.NonZero.{non_zero_u8_get, non_zero_u16_get, non_zero_u32_get, non_zero_u64_get};
ghost use Rattle.std.specs.Int.NonZero.{non_zero_u128_get, non_zero_usize_get, non_zero_i8_get, non_zero_i16_get};
ghost use Rattle.std.specs.Int.NonZero.{non_zero_i32_get, non_zero_i64_get, non_zero_i128_get, non_zero_isize_get};
ghost use Rattle.bitcode_shapes.specs.Datum.{number};
ghost use Rattle.bitcode_shapes.specs.LawfulInts.{width_1, width_2, width_4, width_8, width_16};
ghost use Rattle.bitcode_coder.specs.Spelling.{natural};
ghost use Rattle.bitcode_serde_types.specs.Checked.{nonzero_natural_tree, nonzero_integer_tree};

use crate::deserialize_as::DeserializeAs;
use crate::has_shape::HasShape;
use crate::read_leaves::read_number;
use crate::serialize_as::SerializeAs;
use bitcode_memory::error::{Error, Reason};
use bitcode_memory::refuse::err;
use bitcode_serde::budget::Budget;
use bitcode_serde::reader::Reader;
use bitcode_serde::writer::Writer;
use std::alloc::Global;
use std::num::{
    NonZeroI8, NonZeroI16, NonZeroI32, NonZeroI64, NonZeroI128, NonZeroIsize, NonZeroU8,
    NonZeroU16, NonZeroU32, NonZeroU64, NonZeroU128, NonZeroUsize,
};

impl HasShape for NonZeroU8 {
    ghost tree = { λ left. nonzero_natural_tree 1 };

    ghost datum = { λ n. natural (non_zero_u8_get n) };

    ghost sound = { λ left. width_1 };
}

impl SerializeAs for NonZeroU8 {
    #[inline(always)]
    fn write(&self, writer: &mut Writer, left: usize, place: usize) -> Result<(), Error> {
        self.get().write(writer, left, place)
    }
}

impl<'a> DeserializeAs<'a> for NonZeroU8 {
    fn is_free() -> bool {
        false
    }

    #[inline(always)]
    fn read(
        _alloc: Global,
        reader: &mut Reader<'a>,
        budget: &mut Budget,
        _left: usize,
        place: usize,
    ) -> Result<NonZeroU8, Error> {
        let n: u8 = read_number(reader, budget, place)?;
        match NonZeroU8::new(n) {
            Some(nonzero) => Ok(nonzero),
            None => err(Reason::InvalidBitPattern),
        }
    }
}

impl HasShape for NonZeroU16 {
    ghost tree = { λ left. nonzero_natural_tree 2 };

    ghost datum = { λ n. natural (non_zero_u16_get n) };

    ghost sound = { λ left. width_2 };
}

impl SerializeAs for NonZeroU16 {
    #[inline(always)]
    fn write(&self, writer: &mut Writer, left: usize, place: usize) -> Result<(), Error> {
        self.get().write(writer, left, place)
    }
}

impl<'a> DeserializeAs<'a> for NonZeroU16 {
    fn is_free() -> bool {
        false
    }

    #[inline(always)]
    fn read(
        _alloc: Global,
        reader: &mut Reader<'a>,
        budget: &mut Budget,
        _left: usize,
        place: usize,
    ) -> Result<NonZeroU16, Error> {
        let n: u16 = read_number(reader, budget, place)?;
        match NonZeroU16::new(n) {
            Some(nonzero) => Ok(nonzero),
            None => err(Reason::InvalidBitPattern),
        }
    }
}

impl HasShape for NonZeroU32 {
    ghost tree = { λ left. nonzero_natural_tree 4 };

    ghost datum = { λ n. natural (non_zero_u32_get n) };

    ghost sound = { λ left. width_4 };
}

impl SerializeAs for NonZeroU32 {
    #[inline(always)]
    fn write(&self, writer: &mut Writer, left: usize, place: usize) -> Result<(), Error> {
        self.get().write(writer, left, place)
    }
}

impl<'a> DeserializeAs<'a> for NonZeroU32 {
    fn is_free() -> bool {
        false
    }

    #[inline(always)]
    fn read(
        _alloc: Global,
        reader: &mut Reader<'a>,
        budget: &mut Budget,
        _left: usize,
        place: usize,
    ) -> Result<NonZeroU32, Error> {
        let n: u32 = read_number(reader, budget, place)?;
        match NonZeroU32::new(n) {
            Some(nonzero) => Ok(nonzero),
            None => err(Reason::InvalidBitPattern),
        }
    }
}

impl HasShape for NonZeroU64 {
    ghost tree = { λ left. nonzero_natural_tree 8 };

    ghost datum = { λ n. natural (non_zero_u64_get n) };

    ghost sound = { λ left. width_8 };
}

impl SerializeAs for NonZeroU64 {
    #[inline(always)]
    fn write(&self, writer: &mut Writer, left: usize, place: usize) -> Result<(), Error> {
        self.get().write(writer, left, place)
    }
}

impl<'a> DeserializeAs<'a> for NonZeroU64 {
    fn is_free() -> bool {
        false
    }

    #[inline(always)]
    fn read(
        _alloc: Global,
        reader: &mut Reader<'a>,
        budget: &mut Budget,
        _left: usize,
        place: usize,
    ) -> Result<NonZeroU64, Error> {
        let n: u64 = read_number(reader, budget, place)?;
        match NonZeroU64::new(n) {
            Some(nonzero) => Ok(nonzero),
            None => err(Reason::InvalidBitPattern),
        }
    }
}

impl HasShape for NonZeroU128 {
    ghost tree = { λ left. nonzero_natural_tree 16 };

    ghost datum = { λ n. natural (non_zero_u128_get n) };

    ghost sound = { λ left. width_16 };
}

impl SerializeAs for NonZeroU128 {
    #[inline(always)]
    fn write(&self, writer: &mut Writer, left: usize, place: usize) -> Result<(), Error> {
        self.get().write(writer, left, place)
    }
}

impl<'a> DeserializeAs<'a> for NonZeroU128 {
    fn is_free() -> bool {
        false
    }

    #[inline(always)]
    fn read(
        _alloc: Global,
        reader: &mut Reader<'a>,
        budget: &mut Budget,
        _left: usize,
        place: usize,
    ) -> Result<NonZeroU128, Error> {
        let n: u128 = read_number(reader, budget, place)?;
        match NonZeroU128::new(n) {
            Some(nonzero) => Ok(nonzero),
            None => err(Reason::InvalidBitPattern),
        }
    }
}

impl HasShape for NonZeroUsize {
    ghost tree = { λ left. nonzero_natural_tree 8 };

    ghost datum = { λ n. natural (non_zero_usize_get n) };

    ghost sound = { λ left. width_8 };
}

impl SerializeAs for NonZeroUsize {
    #[inline(always)]
    fn write(&self, writer: &mut Writer, left: usize, place: usize) -> Result<(), Error> {
        self.get().write(writer, left, place)
    }
}

impl<'a> DeserializeAs<'a> for NonZeroUsize {
    fn is_free() -> bool {
        false
    }

    #[inline(always)]
    fn read(
        _alloc: Global,
        reader: &mut Reader<'a>,
        budget: &mut Budget,
        _left: usize,
        place: usize,
    ) -> Result<NonZeroUsize, Error> {
        let n: u64 = read_number(reader, budget, place)?;
        match NonZeroUsize::new(n as usize) {
            Some(nonzero) => Ok(nonzero),
            None => err(Reason::InvalidBitPattern),
        }
    }
}

impl HasShape for NonZeroI8 {
    ghost tree = { λ left. nonzero_integer_tree 1 };

    ghost datum = { λ n. number (non_zero_i8_get n) };

    ghost sound = { λ left. width_1 };
}

impl SerializeAs for NonZeroI8 {
    #[inline(always)]
    fn write(&self, writer: &mut Writer, left: usize, place: usize) -> Result<(), Error> {
        self.get().write(writer, left, place)
    }
}

impl<'a> DeserializeAs<'a> for NonZeroI8 {
    fn is_free() -> bool {
        false
    }

    #[inline(always)]
    fn read(
        _alloc: Global,
        reader: &mut Reader<'a>,
        budget: &mut Budget,
        _left: usize,
        place: usize,
    ) -> Result<NonZeroI8, Error> {
        let n: i8 = read_number(reader, budget, place)?;
        match NonZeroI8::new(n) {
            Some(nonzero) => Ok(nonzero),
            None => err(Reason::InvalidBitPattern),
        }
    }
}

impl HasShape for NonZeroI16 {
    ghost tree = { λ left. nonzero_integer_tree 2 };

    ghost datum = { λ n. number (non_zero_i16_get n) };

    ghost sound = { λ left. width_2 };
}

impl SerializeAs for NonZeroI16 {
    #[inline(always)]
    fn write(&self, writer: &mut Writer, left: usize, place: usize) -> Result<(), Error> {
        self.get().write(writer, left, place)
    }
}

impl<'a> DeserializeAs<'a> for NonZeroI16 {
    fn is_free() -> bool {
        false
    }

    #[inline(always)]
    fn read(
        _alloc: Global,
        reader: &mut Reader<'a>,
        budget: &mut Budget,
        _left: usize,
        place: usize,
    ) -> Result<NonZeroI16, Error> {
        let n: i16 = read_number(reader, budget, place)?;
        match NonZeroI16::new(n) {
            Some(nonzero) => Ok(nonzero),
            None => err(Reason::InvalidBitPattern),
        }
    }
}

impl HasShape for NonZeroI32 {
    ghost tree = { λ left. nonzero_integer_tree 4 };

    ghost datum = { λ n. number (non_zero_i32_get n) };

    ghost sound = { λ left. width_4 };
}

impl SerializeAs for NonZeroI32 {
    #[inline(always)]
    fn write(&self, writer: &mut Writer, left: usize, place: usize) -> Result<(), Error> {
        self.get().write(writer, left, place)
    }
}

impl<'a> DeserializeAs<'a> for NonZeroI32 {
    fn is_free() -> bool {
        false
    }

    #[inline(always)]
    fn read(
        _alloc: Global,
        reader: &mut Reader<'a>,
        budget: &mut Budget,
        _left: usize,
        place: usize,
    ) -> Result<NonZeroI32, Error> {
        let n: i32 = read_number(reader, budget, place)?;
        match NonZeroI32::new(n) {
            Some(nonzero) => Ok(nonzero),
            None => err(Reason::InvalidBitPattern),
        }
    }
}

impl HasShape for NonZeroI64 {
    ghost tree = { λ left. nonzero_integer_tree 8 };

    ghost datum = { λ n. number (non_zero_i64_get n) };

    ghost sound = { λ left. width_8 };
}

impl SerializeAs for NonZeroI64 {
    #[inline(always)]
    fn write(&self, writer: &mut Writer, left: usize, place: usize) -> Result<(), Error> {
        self.get().write(writer, left, place)
    }
}

impl<'a> DeserializeAs<'a> for NonZeroI64 {
    fn is_free() -> bool {
        false
    }

    #[inline(always)]
    fn read(
        _alloc: Global,
        reader: &mut Reader<'a>,
        budget: &mut Budget,
        _left: usize,
        place: usize,
    ) -> Result<NonZeroI64, Error> {
        let n: i64 = read_number(reader, budget, place)?;
        match NonZeroI64::new(n) {
            Some(nonzero) => Ok(nonzero),
            None => err(Reason::InvalidBitPattern),
        }
    }
}

impl HasShape for NonZeroI128 {
    ghost tree = { λ left. nonzero_integer_tree 16 };

    ghost datum = { λ n. number (non_zero_i128_get n) };

    ghost sound = { λ left. width_16 };
}

impl SerializeAs for NonZeroI128 {
    #[inline(always)]
    fn write(&self, writer: &mut Writer, left: usize, place: usize) -> Result<(), Error> {
        self.get().write(writer, left, place)
    }
}

impl<'a> DeserializeAs<'a> for NonZeroI128 {
    fn is_free() -> bool {
        false
    }

    #[inline(always)]
    fn read(
        _alloc: Global,
        reader: &mut Reader<'a>,
        budget: &mut Budget,
        _left: usize,
        place: usize,
    ) -> Result<NonZeroI128, Error> {
        let n: i128 = read_number(reader, budget, place)?;
        match NonZeroI128::new(n) {
            Some(nonzero) => Ok(nonzero),
            None => err(Reason::InvalidBitPattern),
        }
    }
}

impl HasShape for NonZeroIsize {
    ghost tree = { λ left. nonzero_integer_tree 8 };

    ghost datum = { λ n. number (non_zero_isize_get n) };

    ghost sound = { λ left. width_8 };
}

impl SerializeAs for NonZeroIsize {
    #[inline(always)]
    fn write(&self, writer: &mut Writer, left: usize, place: usize) -> Result<(), Error> {
        self.get().write(writer, left, place)
    }
}

impl<'a> DeserializeAs<'a> for NonZeroIsize {
    fn is_free() -> bool {
        false
    }

    #[inline(always)]
    fn read(
        _alloc: Global,
        reader: &mut Reader<'a>,
        budget: &mut Budget,
        _left: usize,
        place: usize,
    ) -> Result<NonZeroIsize, Error> {
        let n: i64 = read_number(reader, budget, place)?;
        match NonZeroIsize::new(n as isize) {
            Some(nonzero) => Ok(nonzero),
            None => err(Reason::InvalidBitPattern),
        }
    }
}
