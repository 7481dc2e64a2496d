// Written by scripts/tables/variants.
//! The coders of two consecutive variants.
ghost use Rattle.std.specs.Prelude.{◌≡◌, ◌+◌, ◌-◌, ◌&&◌, [], ◌∷◌, OnOk, IfErr};
ghost use Rattle.bitcode_coder.specs.Columns.{no_columns, emptied};
ghost use Rattle.bitcode_coder.specs.Coder.{IsWritingRefusal};
ghost use Rattle.bitcode_enums.specs.ByNumber.{columns_at, KeepsOthers};
ghost use Rattle.bitcode_enums.specs.VariantsOf.{IsVariant};
ghost use Rattle.bitcode_enums.specs.OneOf.{of_one_of_2};
ghost use Rattle.bitcode_enums.specs.PlacedShapes.{shapes_of_2};

use crate::columns::{HoldsVariantColumns, VariantColumns};
use crate::enums::Enum;
use crate::number::VariantNumber;
use crate::payloads::{
    HoldsPayloads, NewPayloads, PayloadsDecoder, PayloadsOf, PayloadsView, read_and_count,
};
use crate::writes::{WritesVariants, encode_payload_fields};
use bitcode_coder::coder::{Buffer, Decoder, Encoder, HoldsColumns, HoldsData, NewDecoder, View};
use bitcode_derive::derive::{HasDecoder, HasEncoder};
use bitcode_memory::error::Error;
use bitcode_shapes::shaped::Shaped;
use bitcode_tuples::fields::{Fields, FieldsEncoder};
use std::alloc::Global;
use std::marker::PhantomData;

/// The encoders of two consecutive variants, from the number `First` on. The other type parameters are the encoders;
/// `EncodersOf2` derives them from the payloads.
#[derive(Drop)]
pub struct Encoders2<First, E1, E2> {
    first: E1,
    second: E2,
    of: PhantomData<First>,
}

/// The encoders of two consecutive variants, given the types of their payloads.
pub type EncodersOf2<First, P1, P2> = Encoders2<
    First,
    <P1 as HasEncoder>::Encoder,
    <P2 as HasEncoder>::Encoder,
>;

/// The decoders of two consecutive variants, from the number `First` on. `P` is the tuple of their payloads, and the
/// other type parameters are the decoders; `DecodersOf2` derives all of these from the payloads.
#[derive(Drop)]
pub struct Decoders2<First, P, D1, D2> {
    first: D1,
    second: D2,
    of: PhantomData<(First, P)>,
}

/// The decoders of two consecutive variants, given the types of their payloads.
pub type DecodersOf2<'a, First, P1, P2> = Decoders2<
    First,
    (P1, P2),
    <P1 as HasDecoder<'a>>::Decoder,
    <P2 as HasDecoder<'a>>::Decoder,
>;

/// The payload of one of two variants.
pub enum OneOf2<P1, P2> {
    First(P1),
    Second(P2),
}

/// An enum with two consecutive variants, from the number `First` to the one before `End`. The type parameters are
/// their payloads: `()` for a variant without fields, the field for a variant with one, and otherwise the tuple of the
/// fields. For an enum with two variants:
///
/// ```rust,from:crates/bitcode_own_types/src/two.rt
/// impl Variants2<At<0>, At<2>, u8, i8> for Two {
///     ghost values = { (λ p. Two.A p, λ p. Two.B p) };
///
///     ghost are = { (
///       is_variant refl (λ p. refl) (λ p old new h. h) (λ p old h. h) (λ p old new h. h),
///       is_variant refl (λ p. refl) (λ p old new h. h) (λ p old h. h) (λ p old new h. h),
///       refl,
///     ) };
///
///     fn of_payload(payload: OneOf2<u8, i8>) -> Self
///         ensures { result ≡ of_one_of_2 (λ p. Two.A p) (λ p. Two.B p) payload }
///     {
///         match payload {
///             OneOf2::First(a) => Two::A(a),
///             OneOf2::Second(a) => Two::B(a),
///         }
///     }
/// }
/// ```
pub trait Variants2<First: VariantNumber, End: VariantNumber, P1: Shaped, P2: Shaped>: Enum {
    // the value with a payload, for each of these variants
    ghost values: { (P1 → Self) × (P2 → Self) };

    /// The value with this payload.
    fn of_payload(payload: OneOf2<P1, P2>) -> Self
        ensures { result ≡ of_one_of_2 values.0 values.1 payload };

    // these are the variants with the numbers from `First` on, and no others stand before `End`
    ghost are: { IsVariant Self.Enum.each.variants First.value P1.data.shape P1.data.lists
        P1.data.makes values.0 × IsVariant Self.Enum.each.variants (First.value + 1) P2.data.shape
        P2.data.lists P2.data.makes values.1 × (First.value + 2 ≡ End.value) };
}

impl<First: VariantNumber, E1: Buffer, E2: HoldsColumns> Encoders2<First, E1, E2> {
    /// Reserves room for the payload of a value of the first variant, and appends it to that variant's columns.
    ///
    /// Errors: those of [`WritesVariants::write`].
    ///
    /// ```text
    /// Order::First(field) => to.encode_first(self, &field),
    /// ```
    pub fn encode_first<
        End: VariantNumber,
        P2: Shaped,
        T: Variants2<First, End, F::Whole, P2>,
        F: Fields,
    >(&mut self, t: &T, fields: &F) -> Result<(), Error>
    where
        E1: Encoder<F::Whole> + FieldsEncoder<F>,
        requires { t.now ≡ T.values.0 (F.whole fields.now) }
        ensures others { KeepsOthers no_columns (T.each.variants.index t.now - First.value)
            (⟦<Encoders2<First, E1, E2> as HoldsVariantColumns>⟧.columns.lists self.old)
            (⟦<Encoders2<First, E1, E2> as HoldsVariantColumns>⟧.columns.lists self.new) }
        ensures joined { OnOk result
            (T.each.variants.joins t.now
            (columns_at (T.each.variants.index t.now - First.value)
            (⟦<Encoders2<First, E1, E2> as HoldsVariantColumns>⟧.columns.lists self.old))
            (columns_at (T.each.variants.index t.now - First.value)
            (⟦<Encoders2<First, E1, E2> as HoldsVariantColumns>⟧.columns.lists self.new))) }
        ensures form { emptied
            (columns_at (T.each.variants.index t.now - First.value)
            (⟦<Encoders2<First, E1, E2> as HoldsVariantColumns>⟧.columns.lists self.new)) ≡ emptied
            (columns_at (T.each.variants.index t.now - First.value)
            (⟦<Encoders2<First, E1, E2> as HoldsVariantColumns>⟧.columns.lists self.old)) }
        ensures refused { IfErr result
            (λ e. IsWritingRefusal e.reason
            (T.each.variants.overflows t.now
            (columns_at (T.each.variants.index t.now - First.value)
            (⟦<Encoders2<First, E1, E2> as HoldsVariantColumns>⟧.columns.lists self.old)))) }
    {
        encode_payload_fields(&mut self.first, fields)
    }
}

impl<First: VariantNumber, E1: HoldsColumns, E2: Buffer> Encoders2<First, E1, E2> {
    /// Reserves room for the payload of a value of the second variant, and appends it to that variant's columns.
    ///
    /// Errors: those of [`WritesVariants::write`].
    ///
    /// ```text
    /// Order::Second(field) => to.encode_second(self, &field),
    /// ```
    pub fn encode_second<
        End: VariantNumber,
        P1: Shaped,
        T: Variants2<First, End, P1, F::Whole>,
        F: Fields,
    >(&mut self, t: &T, fields: &F) -> Result<(), Error>
    where
        E2: Encoder<F::Whole> + FieldsEncoder<F>,
        requires { t.now ≡ T.values.1 (F.whole fields.now) }
        ensures others { KeepsOthers no_columns (T.each.variants.index t.now - First.value)
            (⟦<Encoders2<First, E1, E2> as HoldsVariantColumns>⟧.columns.lists self.old)
            (⟦<Encoders2<First, E1, E2> as HoldsVariantColumns>⟧.columns.lists self.new) }
        ensures joined { OnOk result
            (T.each.variants.joins t.now
            (columns_at (T.each.variants.index t.now - First.value)
            (⟦<Encoders2<First, E1, E2> as HoldsVariantColumns>⟧.columns.lists self.old))
            (columns_at (T.each.variants.index t.now - First.value)
            (⟦<Encoders2<First, E1, E2> as HoldsVariantColumns>⟧.columns.lists self.new))) }
        ensures form { emptied
            (columns_at (T.each.variants.index t.now - First.value)
            (⟦<Encoders2<First, E1, E2> as HoldsVariantColumns>⟧.columns.lists self.new)) ≡ emptied
            (columns_at (T.each.variants.index t.now - First.value)
            (⟦<Encoders2<First, E1, E2> as HoldsVariantColumns>⟧.columns.lists self.old)) }
        ensures refused { IfErr result
            (λ e. IsWritingRefusal e.reason
            (T.each.variants.overflows t.now
            (columns_at (T.each.variants.index t.now - First.value)
            (⟦<Encoders2<First, E1, E2> as HoldsVariantColumns>⟧.columns.lists self.old)))) }
    {
        encode_payload_fields(&mut self.second, fields)
    }
}

impl<First: VariantNumber, E1: HoldsColumns, E2: HoldsColumns> HoldsVariantColumns
    for Encoders2<First, E1, E2> {
    ghost columns = { record {
      lists = λ e. E1.columns e.first ∷ E2.columns e.second ∷ [];
      capacity = λ e. E1.capacity e.first + E2.capacity e.second;
    } };
}

impl<First: VariantNumber, E1: Buffer, E2: Buffer> VariantColumns for Encoders2<First, E1, E2> {
    fn new(alloc: Global) -> Self {
        Encoders2 {
            first: E1::new(alloc),
            second: E2::new(alloc),
            of: PhantomData,
        }
    }

    fn collect_all(&mut self, out: &mut Vec<u8>) -> Result<(), Error> {
        self.first.collect_into(out)?;
        self.second.collect_into(out)
    }

    fn clear_all(&mut self) {
        self.first.clear();
        self.second.clear();
    }
}

impl<First: VariantNumber, P, D1: HoldsData, D2: HoldsData> HoldsPayloads
    for Decoders2<First, P, D1, D2> {
    ghost held = { record {
      shapes = D1.shape ∷ D2.shape ∷ [];
      lists = λ d. D1.held d.first ∷ D2.held d.second ∷ [];
      owned = λ d. D1.owned d.first + D2.owned d.second;
    } };
}

impl<First: VariantNumber, P, D1: NewDecoder, D2: NewDecoder> NewPayloads
    for Decoders2<First, P, D1, D2> {
    fn new(alloc: Global) -> Self {
        Decoders2 {
            first: D1::new(alloc),
            second: D2::new(alloc),
            of: PhantomData,
        }
    }
}

impl<
    First: VariantNumber,
    End: VariantNumber,
    P1: Shaped,
    P2: Shaped,
    D1: HoldsData,
    D2: HoldsData,
    T: Variants2<First, End, P1, P2>,
> PayloadsOf<First, End, T> for Decoders2<First, (P1, P2), D1, D2> {
    ghost counted = { record { shapes = T.are.2; lists = λ d. T.are.2 } };
}

impl<
    'a,
    First: VariantNumber,
    End: VariantNumber,
    P1: Shaped,
    P2: Shaped,
    D1: NewDecoder + View<'a>,
    D2: NewDecoder + View<'a>,
    T: Variants2<First, End, P1, P2>,
> PayloadsView<'a, First, End, T> for Decoders2<First, (P1, P2), D1, D2> {
    fn read_at(
        &mut self,
        number: usize,
        input: &mut &'a [u8],
        k: usize,
        strict: bool,
        free: &mut u128,
    ) -> Result<bool, Error> {
        match number - First::value() {
            0 => read_and_count(&mut self.first, input, k, strict, free),
            1 => read_and_count(&mut self.second, input, k, strict, free),
            _ => unreachable!(),
        }
    }
}

impl<
    First: VariantNumber,
    End: VariantNumber,
    P1: Shaped,
    P2: Shaped,
    D1: Decoder<P1>,
    D2: Decoder<P2>,
    T: Variants2<First, End, P1, P2>,
> PayloadsDecoder<First, End, T> for Decoders2<First, (P1, P2), D1, D2> {
    ghost makes_free = { D1.makes_free && D2.makes_free };

    ghost same_shapes = { shapes_of_2 T.each.variants.shapes First.value T.are.0.has_shape
        D1.same_shape T.are.1.has_shape D2.same_shape };

    fn decode_at(&mut self, number: usize) -> Result<T, Error> {
        match number - First::value() {
            0 => Ok(T::of_payload(OneOf2::First(self.first.decode()?))),
            1 => Ok(T::of_payload(OneOf2::Second(self.second.decode()?))),
            _ => unreachable!(),
        }
    }
}
