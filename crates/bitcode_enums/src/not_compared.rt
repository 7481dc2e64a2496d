//! Coders that the checker does not compare field by field.
ghost use Rattle.bitcode_enums.specs.ByNumberLaws.{counted_in};
ghost use Rattle.bitcode_enums.specs.HeldColumns.{columns_in, payloads_in};
ghost use Rattle.bitcode_enums.specs.declared.not_compared.NotCompared.{NotCompared};

use crate::columns::{HoldsVariantColumns, VariantColumns};
use crate::enums::Enum;
use crate::number::VariantNumber;
use crate::payloads::{HoldsPayloads, NewPayloads, PayloadsDecoder, PayloadsOf, PayloadsView};
use crate::writes::WritesVariants;
use bitcode_memory::error::Error;
use std::alloc::Global;
use std::convert::Infallible;

/// An enum around the coders of some variants. The coders of an enum with many variants consist of several of these.
///
/// The checker compares structs field by field where they are dropped, but not enums. `Never` has no value, so each
/// value is `All`. A `match` tells the checker so.
#[derive(Drop)]
pub enum NotCompared<D> {
    /// The coders.
    All(D),
    /// Never exists.
    Never(Infallible),
}

impl<C: HoldsVariantColumns> HoldsVariantColumns for NotCompared<C> {
    ghost columns = { columns_in
        (elim [ NotCompared.All c ↦ c | NotCompared.Never n ↦ elim n [ ] ]) C.columns };
}

impl<C: VariantColumns> VariantColumns for NotCompared<C> {
    fn new(alloc: Global) -> Self {
        NotCompared::All(C::new(alloc))
    }

    fn collect_all(&mut self, out: &mut Vec<u8>) -> Result<(), Error> {
        match self {
            NotCompared::All(all) => all.collect_all(out),
            NotCompared::Never(never) => match *never {},
        }
    }

    fn clear_all(&mut self) {
        match self {
            NotCompared::All(all) => all.clear_all(),
            NotCompared::Never(never) => match *never {},
        }
    }
}

impl<
    First: VariantNumber,
    End: VariantNumber,
    C: HoldsVariantColumns,
    T: WritesVariants<First, End, C>,
> WritesVariants<First, End, NotCompared<C>> for T {
    fn write(&self, to: &mut NotCompared<C>) -> Result<(), Error> {
        match to {
            NotCompared::All(all) => WritesVariants::<First, End, C>::write(self, all),
            NotCompared::Never(never) => match *never {},
        }
    }

    ghost are_columns = { elim [
      | NotCompared.All c ↦ T.are_columns c
      | NotCompared.Never n ↦ elim n [ ]
    ] };
}

impl<D: HoldsPayloads> HoldsPayloads for NotCompared<D> {
    ghost held = { payloads_in
        (elim [ NotCompared.All d ↦ d | NotCompared.Never n ↦ elim n [ ] ]) D.held };
}

impl<D: NewPayloads> NewPayloads for NotCompared<D> {
    fn new(alloc: Global) -> Self {
        NotCompared::All(D::new(alloc))
    }
}

impl<First: VariantNumber, End: VariantNumber, T: Enum, D: PayloadsOf<First, End, T>> PayloadsOf<
    First,
    End,
    T,
> for NotCompared<D> {
    ghost counted = { counted_in
        (elim [ NotCompared.All d ↦ d | NotCompared.Never n ↦ elim n [ ] ]) D.counted };
}

impl<
    'a,
    First: VariantNumber,
    End: VariantNumber,
    T: Enum,
    D: PayloadsView<'a, First, End, T>,
> PayloadsView<'a, First, End, T> for NotCompared<D> {
    fn read_at(
        &mut self,
        number: usize,
        input: &mut &'a [u8],
        k: usize,
        strict: bool,
        free: &mut u128,
    ) -> Result<bool, Error> {
        match self {
            NotCompared::All(all) => all.read_at(number, input, k, strict, free),
            NotCompared::Never(never) => match *never {},
        }
    }
}

impl<
    First: VariantNumber,
    End: VariantNumber,
    T: Enum,
    D: PayloadsDecoder<First, End, T>,
> PayloadsDecoder<First, End, T> for NotCompared<D> {
    ghost makes_free = { D.makes_free };

    ghost same_shapes = { D.same_shapes };

    fn decode_at(&mut self, number: usize) -> Result<T, Error> {
        match self {
            NotCompared::All(all) => Ok(all.decode_at(number)?),
            NotCompared::Never(never) => match *never {},
        }
    }
}
