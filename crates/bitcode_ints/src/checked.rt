//! Types that allow only some integers, and their decoder.
ghost use Rattle.std.specs.Prelude.{◌≡◌, true, All, MatchBool, MatchOption, IfSome};
ghost use Rattle.std.proofs.Common.{sym};
ghost use Rattle.bitcode_memory.specs.Fast.{cow_rest, cow_owned};
ghost use Rattle.bitcode_memory.specs.LittleEndian.{little_endian};
ghost use Rattle.bitcode_memory.specs.Ints.{number_of};
ghost use Rattle.bitcode_shapes.specs.Datum.{number};
ghost use Rattle.bitcode_shapes.specs.Shape.{Allowed, IsAllowed, number_shape};
ghost use Rattle.bitcode_coder.specs.Coder.{ReadsValue};
ghost use Rattle.bitcode_ints.specs.CheckedColumn.{numbers_of, checked_data};

use crate::int::Integer;
use bitcode_coder::coder::{Decoder, HoldsData, NewDecoder, View};
use bitcode_coder::column_free::ColumnFree;
use bitcode_int_columns::column_int::ColumnInt;
use bitcode_memory::error::{Error, Reason};
use bitcode_memory::fast::CowSlice;
use bitcode_memory::refuse::err;
use bitcode_shapes::shaped::Shaped;
use std::alloc::Global;
use std::marker::PhantomData;

mod nanosecond;
mod types;

/// A type whose values are some of the integers `I`, as those of `char` are some `u32`.
pub trait Checked<I: ColumnInt>: Shaped + Drop {
    // which integers have a value
    ghost allowed: { Allowed };

    /// The value of an integer, if the type allows it: `NonZeroU8` does not allow 0.
    fn from_bits(bits: I) -> Option<Self>
        ensures { MatchOption result (IsAllowed allowed (I.number bits) → ⊥)
            (λ t. IsAllowed allowed (I.number bits) × Self.data.makes (number (I.number bits)) t) };

    ghost checked_shape: { Self.data.shape ≡ number_shape I.width I.signed allowed };
}

/// The column that values of `C` are read from: integers `I`, each of which `C` allows.
///
/// ```
/// let mut column: CheckedIntDecoder<char, u32> = CheckedIntDecoder::new(alloc);
/// column.populate(&mut input, 1)?; // [4, 97]
/// let first: char = column.decode()?; // 'a'
/// ```
#[derive(Drop)]
pub struct CheckedIntDecoder<'a, C: Checked<I>, I: ColumnInt> {
    alloc: Global,
    values: CowSlice<'a, I::Une>,
    of: PhantomData<C>,
}

// Whether each of the integers is allowed.
fn are_allowed<C: Checked<I>, I: ColumnInt>(entries: &[I::Une]) -> bool
    ensures { MatchBool result
        (All (λ entry. IsAllowed C.allowed
        (number_of I.width I.signed (little_endian (I.une_bytes entry)))) entries.now)
        (All (λ entry. IsAllowed C.allowed
        (number_of I.width I.signed (little_endian (I.une_bytes entry)))) entries.now → ⊥) }
{
    for entry in entries {
        if C::from_bits(I::from_unaligned(*entry)).is_none() {
            return false;
        }
    }
    true
}

impl<'a, C: Checked<I>, I: ColumnInt> HoldsData for CheckedIntDecoder<'a, C, I> {
    ghost shape = { number_shape I.width I.signed C.allowed };

    ghost held = { λ d. checked_data C.allowed
        (numbers_of I.width I.signed I.une_bytes (cow_rest d.values)) };

    ghost owned = { λ d. cow_owned d.values };

    ghost free_inside = { λ d. 0 };
}

impl<'a, C: Checked<I>, I: ColumnInt> NewDecoder for CheckedIntDecoder<'a, C, I> {
    fn new(alloc: Global) -> Self {
        CheckedIntDecoder {
            alloc,
            values: CowSlice::new(alloc),
            of: PhantomData,
        }
    }

    fn column_free(&self) -> ColumnFree {
        ColumnFree::entries()
    }
}

impl<'a, C: Checked<I>, I: ColumnInt> View<'a> for CheckedIntDecoder<'a, C, I> {
    fn read(&mut self, input: &mut &'a [u8], k: usize, strict: bool) -> Result<bool, Error> {
        let written = I::unpack(self.alloc, input, k, &mut self.values, strict)?;
        if !are_allowed::<C, I>(self.values.as_slice()) {
            return err(Reason::InvalidBitPattern);
        }
        Ok(written)
    }
}

impl<'a, C: Checked<I>, I: Integer> Decoder<C> for CheckedIntDecoder<'a, C, I> {
    ghost makes_free = { true };

    fn decode(&mut self) -> Result<C, Error> {
        let bits = I::from_unaligned(self.values.next_unchecked());
        Ok(C::from_bits(bits).unwrap())
    }

    const READS_ONE: bool = true;

    #[inline(always)]
    fn read_one(alloc: Global, input: &mut &[u8]) -> Option<C>
        ensures { IfSome result
            (λ t. ReadsValue C.data.makes (number_shape I.width I.signed C.allowed) input.old.now t
            input.new.now) }
    {
        C::from_bits(I::read_int(alloc, input)?)
    }

    ghost same_shape = { sym C.checked_shape };
}
