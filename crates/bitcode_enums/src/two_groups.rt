//! The coders of consecutive variants, as two groups.
ghost use Rattle.std.specs.Prelude.{◌+◌, ◌++◌, ◌&&◌};
ghost use Rattle.bitcode_enums.specs.ByNumberLaws.{both_groups, counted_beside, shapes_beside};
ghost use Rattle.bitcode_enums.specs.HeldColumns.{payloads_beside};

use crate::columns::{HoldsVariantColumns, VariantColumns};
use crate::enums::Enum;
use crate::number::VariantNumber;
use crate::payloads::{HoldsPayloads, NewPayloads, PayloadsDecoder, PayloadsOf, PayloadsView};
use crate::writes::WritesVariants;
use bitcode_memory::error::Error;
use std::alloc::Global;
use std::marker::PhantomData;

/// Combines the coders of some variants with those of the variants from the number `Second` on: the columns of both
/// groups, or the payloads of both.
///
/// An enum of many variants has coders for small groups of them, combined two by two:
/// `TwoGroups<At<8>, TwoGroups<At<4>, A, B>, TwoGroups<At<12>, C, D>>`.
#[derive(Drop)]
pub struct TwoGroups<Second, F, S> {
    first: F,
    second: S,
    of: PhantomData<Second>,
}

impl<Second: VariantNumber, F: HoldsVariantColumns, S: HoldsVariantColumns> HoldsVariantColumns
    for TwoGroups<Second, F, S> {
    ghost columns = { record {
      lists = λ e. F.columns.lists e.first ++ S.columns.lists e.second;
      capacity = λ e. F.columns.capacity e.first + S.columns.capacity e.second;
    } };
}

impl<Second: VariantNumber, F: VariantColumns, S: VariantColumns> VariantColumns
    for TwoGroups<Second, F, S> {
    fn new(alloc: Global) -> Self {
        TwoGroups {
            first: F::new(alloc),
            second: S::new(alloc),
            of: PhantomData,
        }
    }

    fn collect_all(&mut self, out: &mut Vec<u8>) -> Result<(), Error> {
        self.first.collect_all(out)?;
        self.second.collect_all(out)
    }

    fn clear_all(&mut self) {
        self.first.clear_all();
        self.second.clear_all();
    }
}

impl<
    First: VariantNumber,
    Second: VariantNumber,
    End: VariantNumber,
    F: HoldsVariantColumns,
    S: HoldsVariantColumns,
    T: WritesVariants<First, Second, F> + WritesVariants<Second, End, S>,
> WritesVariants<First, End, TwoGroups<Second, F, S>> for T {
    fn write(&self, to: &mut TwoGroups<Second, F, S>) -> Result<(), Error> {
        if (self.variant() as usize) < Second::value() {
            WritesVariants::<First, Second, F>::write(self, &mut to.first)
        } else {
            WritesVariants::<Second, End, S>::write(self, &mut to.second)
        }
    }

    ghost are_columns = { λ c. both_groups T.each.variants.shapes First.value Second.value End.value
        (F.columns.lists c.first) (S.columns.lists c.second)
        (T.WritesVariants-1.are_columns c.first)
        (T.WritesVariants-2.are_columns c.second) };
}

impl<Second: VariantNumber, F: HoldsPayloads, S: HoldsPayloads> HoldsPayloads
    for TwoGroups<Second, F, S> {
    ghost held = { payloads_beside (λ d. d.first) (λ d. d.second) F.held S.held };
}

impl<Second: VariantNumber, F: NewPayloads, S: NewPayloads> NewPayloads
    for TwoGroups<Second, F, S> {
    fn new(alloc: Global) -> Self {
        TwoGroups {
            first: F::new(alloc),
            second: S::new(alloc),
            of: PhantomData,
        }
    }
}

impl<
    First: VariantNumber,
    Second: VariantNumber,
    End: VariantNumber,
    T: Enum,
    F: PayloadsOf<First, Second, T>,
    S: PayloadsOf<Second, End, T>,
> PayloadsOf<First, End, T> for TwoGroups<Second, F, S> {
    ghost counted = { counted_beside (λ d. d.first) (λ d. d.second) F.counted S.counted };
}

impl<
    'a,
    First: VariantNumber,
    Second: VariantNumber,
    End: VariantNumber,
    T: Enum,
    F: PayloadsView<'a, First, Second, T>,
    S: PayloadsView<'a, Second, End, T>,
> PayloadsView<'a, First, End, T> for TwoGroups<Second, F, S> {
    fn read_at(
        &mut self,
        number: usize,
        input: &mut &'a [u8],
        k: usize,
        strict: bool,
        free: &mut u128,
    ) -> Result<bool, Error> {
        if number < Second::value() {
            self.first.read_at(number, input, k, strict, free)
        } else {
            self.second.read_at(number, input, k, strict, free)
        }
    }
}

impl<
    First: VariantNumber,
    Second: VariantNumber,
    End: VariantNumber,
    T: Enum,
    F: PayloadsDecoder<First, Second, T>,
    S: PayloadsDecoder<Second, End, T>,
> PayloadsDecoder<First, End, T> for TwoGroups<Second, F, S> {
    ghost makes_free = { F.makes_free && S.makes_free };

    ghost same_shapes = { shapes_beside T.each.variants.shapes First.value Second.value
        F.held.shapes S.held.shapes F.counted.shapes F.same_shapes S.same_shapes };

    fn decode_at(&mut self, number: usize) -> Result<T, Error> {
        if number < Second::value() {
            self.first.decode_at(number)
        } else {
            self.second.decode_at(number)
        }
    }
}
