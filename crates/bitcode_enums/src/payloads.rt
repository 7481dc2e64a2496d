//! The payloads from which values of an enum are made, by the numbers of the variants.
ghost use Rattle.std.specs.Prelude.{◌≡◌, ◌+◌, ◌-◌, ◌<◌, ◌≤◌, Bool, [], map, length, IsTrue, IsOk, IfOk, OnOk};
ghost use Rattle.std.specs.Prelude.{IfErr, OnErr};
ghost use Rattle.bitcode_memory.specs.declared.error.Reason.{Reason};
ghost use Rattle.bitcode_columns.specs.Reading.{Reads, IsEndOf};
ghost use Rattle.bitcode_coder.specs.Coder.{IsReadingRefusal};
ghost use Rattle.bitcode_coder.specs.FirstFault.{IsFirstFault};
ghost use Rattle.bitcode_coder.specs.ColumnFree.{free_count, saturated};
ghost use Rattle.bitcode_coder.specs.Spelling.{Spells};
ghost use Rattle.bitcode_coder.specs.Strict.{JudgesData};
ghost use Rattle.bitcode_parts.specs.Payloads.{payloads_of};
ghost use Rattle.bitcode_enums.specs.HeldColumns.{HeldPayloads, AreCounted};
ghost use Rattle.bitcode_enums.specs.ByNumber.{shape_among, AreShapesOf, KeepsOthers};

use crate::enums::Enum;
use crate::number::VariantNumber;
use bitcode_coder::coder::{NewDecoder, View};
use bitcode_memory::error::{Error, Reason};
use std::alloc::Global;

/// Reads payloads as `View::read` does, and adds the number of elements without columns inside them to `free`, up to
/// 2^128 - 1.
///
/// ```rust
/// use bitcode_enums::payloads::read_and_count;
///
/// let mut input: &[u8] = &[1];
/// let mut flags = BoolDecoder::new(alloc);
/// let mut free = 0;
/// read_and_count(&mut flags, &mut input, 1, false, &mut free)?;
/// assert_eq!(rt; free, 0);
/// ```
pub fn read_and_count<'a, D: NewDecoder + View<'a>>(
    decoder: &mut D,
    input: &mut &'a [u8],
    k: usize,
    strict: bool,
    free: &mut u128,
) -> Result<bool, Error>
    ensures read { OnOk result
        (Reads (Spells D.shape) k input.old.now (D.held decoder.new) input.new.now) }
    ensures counted { OnOk result
        (free.new ≡ saturated (free.old + free_count D.shape (D.held decoder.new))) }
    ensures judged { IsTrue strict → IfOk result
        (λ written. JudgesData D.shape (D.held decoder.new) written input.old.now input.new.now) }
    ensures refused { IfErr result (λ e. IsReadingRefusal D.shape e.reason k input.old.now) }
    ensures exact { IfErr result (λ e. IsFirstFault D.shape e.reason k input.old.now) }
    ensures rest { OnErr result (IsEndOf input.old.now input.new.now) }
{
    let written = decoder.read(input, k, strict)?;
    *free = free.saturating_add(decoder.column_free().inside);
    Ok(written)
}

/// What holds the data of the payloads of consecutive variants: `Decoders2` to `Decoders4`, with one decoder for each
/// variant, [`TwoGroups`](crate::two_groups::TwoGroups) and [`NotCompared`](crate::not_compared::NotCompared) of these,
/// and a struct that belongs to an enum.
///
/// The struct forwards each call to the payloads of all variants of the enum. So code that reads values does not depend
/// on the payload types. [`NewPayloads`], [`PayloadsView`] and [`PayloadsDecoder`] are apart, since each asks the
/// payloads' decoders for one trait only: what a bound asks for, the checker passes with each call.
///
/// ```rust,from:crates/bitcode_own_types/src/two.rt
/// #[derive(Drop)]
/// pub struct TwoPayloads<'a>(Decoders<'a>);
///
/// impl<'a> HoldsPayloads for TwoPayloads<'a> {
///     ghost held = { payloads_in (λ d. d.0) ⟦<Decoders<'a> as HoldsPayloads>⟧.held };
/// }
///
/// impl<'a> NewPayloads for TwoPayloads<'a> {
///     fn new(alloc: Global) -> Self {
///         TwoPayloads(NewPayloads::new(alloc))
///     }
/// }
///
/// impl<'a> PayloadsOf<At<0>, At<2>, Two> for TwoPayloads<'a> {
///     ghost counted = { record { shapes = refl; lists = λ d. refl } };
/// }
///
/// impl<'a> PayloadsView<'a, At<0>, At<2>, Two> for TwoPayloads<'a> {
///     fn read_at(
///         &mut self,
///         number: usize,
///         input: &mut &'a [u8],
///         k: usize,
///         strict: bool,
///         free: &mut u128,
///     ) -> Result<bool, Error> {
///         PayloadsView::<At<0>, At<2>, Two>::read_at(&mut self.0, number, input, k, strict, free)
///     }
/// }
///
/// impl<'a> PayloadsDecoder<At<0>, At<2>, Two> for TwoPayloads<'a> {
///     ghost makes_free = { ⟦<Decoders<'a> as PayloadsDecoder<At<0>, At<2>, Two>>⟧.makes_free };
///
///     ghost same_shapes = { refl };
///
///     fn decode_at(&mut self, number: usize) -> Result<Two, Error> {
///         PayloadsDecoder::<At<0>, At<2>, Two>::decode_at(&mut self.0, number)
///     }
/// }
/// ```
pub trait HoldsPayloads {
    // the remaining payloads
    ghost held: { HeldPayloads Self };
}

/// Payloads that are made without an input.
pub trait NewPayloads: HoldsPayloads {
    /// Creates an empty decoder without allocating.
    fn new(alloc: Global) -> Self
        ensures empty { Self.held.lists result ≡ map (λ payloads. []) (Self.held.lists result) }
        ensures owned { Self.held.owned result ≡ 0 };
}

/// Payloads of the variants of `T` from the number `First` to the one before `End`.
pub trait PayloadsOf<First: VariantNumber, End: VariantNumber, T: Enum>: HoldsPayloads {
    // there is a list of payloads for each of the variants
    ghost counted: { AreCounted Self.held First.value End.value };
}

/// Payloads of these variants that are read from an input.
pub trait PayloadsView<'a, First: VariantNumber, End: VariantNumber, T: Enum>: PayloadsOf<
    First,
    End,
    T,
> {
    /// Reads `k` payloads of the variant with this number from the front of the input, as `View::read` does, and adds
    /// the number of elements without columns inside them to `free`, up to 2^128 - 1.
    fn read_at(
        &mut self,
        number: usize,
        input: &mut &'a [u8],
        k: usize,
        strict: bool,
        free: &mut u128,
    ) -> Result<bool, Error>
        requires { (First.value ≤ number) × (number < End.value) }
        ensures others { KeepsOthers [] (number - First.value) (Self.held.lists self.old)
            (Self.held.lists self.new) }
        ensures read { OnOk result
            (Reads (Spells (shape_among (number - First.value) Self.held.shapes)) k input.old.now
            (payloads_of (number - First.value) (Self.held.lists self.new)) input.new.now) }
        ensures counted { OnOk result
            (free.new ≡ saturated (free.old + free_count
            (shape_among (number - First.value) Self.held.shapes)
            (payloads_of (number - First.value) (Self.held.lists self.new)))) }
        ensures judged { IsTrue strict → IfOk result
            (λ written. JudgesData (shape_among (number - First.value) Self.held.shapes)
            (payloads_of (number - First.value) (Self.held.lists self.new)) written input.old.now
            input.new.now) }
        ensures refused { IfErr result
            (λ e. IsReadingRefusal (shape_among (number - First.value) Self.held.shapes) e.reason k
            input.old.now) }
        ensures exact { IfErr result
            (λ e. IsFirstFault (shape_among (number - First.value) Self.held.shapes) e.reason k
            input.old.now) }
        ensures rest { OnErr result (IsEndOf input.old.now input.new.now) };
}

/// Payloads of these variants from which values of `T` are made.
pub trait PayloadsDecoder<First: VariantNumber, End: VariantNumber, T: Enum>: PayloadsOf<
    First,
    End,
    T,
> {
    // making a value takes no memory
    ghost makes_free: { Bool };

    /// Makes a value of the variant with this number from its next payload. At least one must be left.
    ///
    /// The only error is `out of memory`.
    fn decode_at(&mut self, number: usize) -> Result<T, Error>
        requires known { (First.value ≤ number) × (number < End.value) }
        requires left { 0 < length (payloads_of (number - First.value) (Self.held.lists self.old)) }
        ensures others { IsOk result → KeepsOthers [] (number - First.value)
            (Self.held.lists self.old) (Self.held.lists self.new) }
        ensures number { IfOk result (λ t. T.each.variants.index t ≡ number) }
        ensures made { IfOk result
            (λ t. T.each.variants.takes t
            (payloads_of (number - First.value) (Self.held.lists self.old))
            (payloads_of (number - First.value) (Self.held.lists self.new))) }
        ensures refused { IfErr result (λ e. e.reason ≡ Reason.OutOfMemory) }
        ensures free { IsTrue makes_free → IsOk result };

    // the payloads have the shapes of these variants
    ghost same_shapes: { AreShapesOf T.each.variants.shapes First.value Self.held.shapes };
}
