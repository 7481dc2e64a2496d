//! `Two` is written by the numbers of its variants. What is below its declaration was written by `scripts/new_type`.
ghost use Rattle.std.specs.Prelude.{◌≡◌};
ghost use Rattle.bitcode.specs.ByHand.{columns_in, each_variant, enum_data, is_variant, last_payload, of_one_of_2};
ghost use Rattle.bitcode.specs.ByHand.{payload_and, payloads_in, refl};
ghost use Rattle.bitcode_own_types.specs.declared.two.Two.{Two};

use bitcode::own::{
    At, DecodersOf2, EncodersOf2, Enum, EnumDecoder, EnumEncoder, EnumOf, HoldsPayloads,
    HoldsVariantColumns, NewPayloads, OneOf2, PayloadsDecoder, PayloadsOf, PayloadsView,
    VariantColumns, Variants2, WritesVariants, told_as,
};
use bitcode::{DecodeOwned, Error, HasDecoder, HasEncoder, Shaped};
use std::alloc::Global;

/// A byte without sign or one with a sign.
#[derive(Debug, Clone, Copy, PartialEq)]
pub enum Two {
    A(u8),
    B(i8),
}

impl Enum for Two {
    ghost each = { each_variant
        (payload_and ⟦<u8 as Shaped>⟧.data (last_payload ⟦<i8 as Shaped>⟧.data)) refl
        (λ at. elim [ Two.A a ↦ at 0 a | Two.B a ↦ at 1 a ])
        ((λ p. (Two.A p, refl)), λ p. (Two.B p, refl)) (elim [ Two.A a ↦ refl | Two.B a ↦ refl ]) };

    fn variant(&self) -> u8 {
        match self {
            Two::A(a) => told_as(0, &a),
            Two::B(a) => told_as(1, &a),
        }
    }
}

impl Shaped for Two {
    ghost data = { enum_data ⟦<Two as Enum>⟧.each };

    fn told(&self) {
        let _number = self.variant();
    }
}

impl EnumOf<2> for Two {
    ghost counted = { (refl, refl) };

    ghost lists_variants = { λ t d listed. listed };

    ghost makes_variants = { λ d t made. made };
}

impl Variants2<At<0>, At<2>, u8, i8> for Two {
    ghost values = { (λ p. Two.A p, λ p. Two.B p) };

    ghost are = { (
      is_variant refl (λ p. refl) (λ p old new h. h) (λ p old h. h) (λ p old new h. h),
      is_variant refl (λ p. refl) (λ p old new h. h) (λ p old h. h) (λ p old new h. h),
      refl,
    ) };

    fn of_payload(payload: OneOf2<u8, i8>) -> Self
        ensures { result ≡ of_one_of_2 (λ p. Two.A p) (λ p. Two.B p) payload }
    {
        match payload {
            OneOf2::First(a) => Two::A(a),
            OneOf2::Second(a) => Two::B(a),
        }
    }
}

type Columns = EncodersOf2<At<0>, u8, i8>;

impl WritesVariants<At<0>, At<2>, Columns> for Two {
    fn write(&self, to: &mut Columns) -> Result<(), Error> {
        match self {
            Two::A(a) => to.encode_first(self, &a),
            Two::B(a) => to.encode_second(self, &a),
        }
    }

    ghost are_columns = { λ c. (refl, refl) };
}

type Decoders<'a> = DecodersOf2<'a, At<0>, u8, i8>;

/// The columns of the payloads of `Two`.
#[derive(Drop)]
pub struct TwoColumns(Columns);

impl HoldsVariantColumns for TwoColumns {
    ghost columns = { columns_in (λ c. c.0) ⟦<Columns as HoldsVariantColumns>⟧.columns };
}

impl VariantColumns for TwoColumns {
    fn new(alloc: Global) -> Self {
        TwoColumns(VariantColumns::new(alloc))
    }

    fn collect_all(&mut self, out: &mut Vec<u8>) -> Result<(), Error> {
        self.0.collect_all(out)
    }

    fn clear_all(&mut self) {
        self.0.clear_all();
    }
}

impl WritesVariants<At<0>, At<2>, TwoColumns> for Two {
    fn write(&self, to: &mut TwoColumns) -> Result<(), Error> {
        WritesVariants::<At<0>, At<2>, Columns>::write(self, &mut to.0)
    }

    ghost are_columns = { λ c. (refl, refl) };
}

/// The payloads that values of `Two` are made of.
#[derive(Drop)]
pub struct TwoPayloads<'a>(Decoders<'a>);

impl<'a> HoldsPayloads for TwoPayloads<'a> {
    ghost held = { payloads_in (λ d. d.0) ⟦<Decoders<'a> as HoldsPayloads>⟧.held };
}

impl<'a> NewPayloads for TwoPayloads<'a> {
    fn new(alloc: Global) -> Self {
        TwoPayloads(NewPayloads::new(alloc))
    }
}

impl<'a> PayloadsOf<At<0>, At<2>, Two> for TwoPayloads<'a> {
    ghost counted = { record { shapes = refl; lists = λ d. refl } };
}

impl<'a> PayloadsView<'a, At<0>, At<2>, Two> for TwoPayloads<'a> {
    fn read_at(
        &mut self,
        number: usize,
        input: &mut &'a [u8],
        k: usize,
        strict: bool,
        free: &mut u128,
    ) -> Result<bool, Error> {
        PayloadsView::<At<0>, At<2>, Two>::read_at(&mut self.0, number, input, k, strict, free)
    }
}

impl<'a> PayloadsDecoder<At<0>, At<2>, Two> for TwoPayloads<'a> {
    ghost makes_free = { ⟦<Decoders<'a> as PayloadsDecoder<At<0>, At<2>, Two>>⟧.makes_free };

    ghost same_shapes = { refl };

    fn decode_at(&mut self, number: usize) -> Result<Two, Error> {
        PayloadsDecoder::<At<0>, At<2>, Two>::decode_at(&mut self.0, number)
    }
}

impl HasEncoder for Two {
    type Encoder = EnumEncoder<2, TwoColumns>;
}

impl<'a> HasDecoder<'a> for Two {
    type Decoder = EnumDecoder<'a, 2, Two, TwoPayloads<'a>>;
}

impl DecodeOwned for Two {}
