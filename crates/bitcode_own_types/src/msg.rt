//! `Msg` is a generic enum, with the items that `scripts/new_type` writes for an enum without type parameters. Its
//! columns and payloads have the coders as type parameters.
ghost use Rattle.std.specs.Prelude.{◌≡◌, ◌&&◌};
ghost use Rattle.bitcode.specs.ByHand.{columns_in, each_variant, enum_data, first_and, is_variant, last_payload};
ghost use Rattle.bitcode.specs.ByHand.{of_one_of_3, payload_and, payloads_in, refl};
ghost use Rattle.bitcode_own_types.specs.declared.msg.Msg.{Msg};

use bitcode::coder::{Buffer, Decoder, Encoder, HoldsColumns, HoldsData, NewDecoder, View};
use bitcode::own::{
    At, Decoders3, Encoders3, Enum, EnumDecoder, EnumEncoder, EnumOf, HoldsPayloads,
    HoldsVariantColumns, NewPayloads, OneOf3, PayloadsDecoder, PayloadsOf, PayloadsView,
    VariantColumns, Variants3, WritesVariants, told_as,
};
use bitcode::{DecodeOwned, Error, HasDecoder, HasEncoder, Shaped};
use std::alloc::Global;

/// One value, several or none.
#[derive(Debug, PartialEq, Drop)]
pub enum Msg<T> {
    One(T),
    Many(Vec<T>),
    Nothing,
}

impl<T: Shaped> Enum for Msg<T> {
    ghost each = { each_variant (payload_and T.data
        (payload_and ⟦<Vec<T> as Shaped>⟧.data (last_payload ⟦<() as Shaped>⟧.data))) refl
        (λ at. elim [ Msg.One a ↦ at 0 a | Msg.Many a ↦ at 1 a | Msg.Nothing ↦ at 2 tt ])
        ((λ p. (Msg.One p, refl)), ((λ p. (Msg.Many p, refl)), λ p. (Msg.Nothing, refl)))
        (elim [ Msg.One a ↦ refl | Msg.Many a ↦ refl | Msg.Nothing ↦ refl ]) };

    fn variant(&self) -> u8 {
        match self {
            Msg::One(a) => told_as(0, &a),
            Msg::Many(a) => told_as(1, &a),
            Msg::Nothing => 2,
        }
    }
}

impl<T: Shaped> Shaped for Msg<T> {
    ghost data = { enum_data ⟦<Msg<T> as Enum>⟧.each };

    fn told(&self) {
        let _number = self.variant();
    }
}

impl<T: Shaped> EnumOf<3> for Msg<T> {
    ghost counted = { (refl, refl) };

    ghost lists_variants = { λ t d listed. listed };

    ghost makes_variants = { λ d t made. made };
}

impl<T: Shaped> Variants3<At<0>, At<3>, T, Vec<T>, ()> for Msg<T> {
    ghost values = { (λ p. Msg.One p, λ p. Msg.Many p, λ p. Msg.Nothing) };

    ghost are = { (
      is_variant refl (λ p. refl) (λ p old new h. h) (λ p old h. h) (λ p old new h. h),
      is_variant refl (λ p. refl) (λ p old new h. h) (λ p old h. h) (λ p old new h. h),
      is_variant refl (λ p. refl) (λ p old new h. h) (λ p old h. h) (λ p old new h. h),
      refl,
    ) };

    fn of_payload(payload: OneOf3<T, Vec<T>, ()>) -> Self
        ensures { result ≡ of_one_of_3 (λ p. Msg.One p) (λ p. Msg.Many p) (λ p. Msg.Nothing)
            payload }
    {
        match payload {
            OneOf3::First(a) => Msg::One(a),
            OneOf3::Second(a) => Msg::Many(a),
            OneOf3::Third(()) => Msg::Nothing,
        }
    }
}

impl<
    T: Shaped,
    E1: Buffer + Encoder<T>,
    E2: Buffer + Encoder<Vec<T>>,
    E3: Buffer + Encoder<()>,
> WritesVariants<At<0>, At<3>, Encoders3<At<0>, E1, E2, E3>> for Msg<T> {
    fn write(&self, to: &mut Encoders3<At<0>, E1, E2, E3>) -> Result<(), Error> {
        match self {
            Msg::One(a) => to.encode_first(self, &a),
            Msg::Many(a) => to.encode_second(self, &a),
            Msg::Nothing => to.encode_third(self, &&()),
        }
    }

    ghost are_columns = { λ c. (
      refl,
      first_and (E1.of_shape c.first)
          (first_and (E2.of_shape c.second) (first_and (E3.of_shape c.third) refl)),
    ) };
}

/// The columns of the payloads of `Msg`, by their encoders.
#[derive(Drop)]
pub struct MsgColumns<E1, E2, E3>(Encoders3<At<0>, E1, E2, E3>);

impl<E1: HoldsColumns, E2: HoldsColumns, E3: HoldsColumns> HoldsVariantColumns
    for MsgColumns<E1, E2, E3> {
    ghost columns = { columns_in (λ c. c.0)
        ⟦<Encoders3<At<0>, E1, E2, E3> as HoldsVariantColumns>⟧.columns };
}

impl<E1: Buffer, E2: Buffer, E3: Buffer> VariantColumns for MsgColumns<E1, E2, E3> {
    fn new(alloc: Global) -> Self {
        MsgColumns(VariantColumns::new(alloc))
    }

    fn collect_all(&mut self, out: &mut Vec<u8>) -> Result<(), Error> {
        self.0.collect_all(out)
    }

    fn clear_all(&mut self) {
        self.0.clear_all();
    }
}

impl<
    T: Shaped,
    E1: Buffer + Encoder<T>,
    E2: Buffer + Encoder<Vec<T>>,
    E3: Buffer + Encoder<()>,
> WritesVariants<At<0>, At<3>, MsgColumns<E1, E2, E3>> for Msg<T> {
    fn write(&self, to: &mut MsgColumns<E1, E2, E3>) -> Result<(), Error> {
        WritesVariants::<At<0>, At<3>, Encoders3<At<0>, E1, E2, E3>>::write(self, &mut to.0)
    }

    ghost are_columns = { λ c. (
      refl,
      first_and (E1.of_shape c.0.first)
          (first_and (E2.of_shape c.0.second) (first_and (E3.of_shape c.0.third) refl)),
    ) };
}

/// The payloads that values of `Msg` are made of, by their decoders.
#[derive(Drop)]
pub struct MsgPayloads<V1, D1, D2, D3>(Decoders3<At<0>, V1, D1, D2, D3>);

impl<V1, D1: HoldsData, D2: HoldsData, D3: HoldsData> HoldsPayloads
    for MsgPayloads<V1, D1, D2, D3> {
    ghost held = { payloads_in (λ d. d.0)
        ⟦<Decoders3<At<0>, V1, D1, D2, D3> as HoldsPayloads>⟧.held };
}

impl<V1, D1: NewDecoder, D2: NewDecoder, D3: NewDecoder> NewPayloads
    for MsgPayloads<V1, D1, D2, D3> {
    fn new(alloc: Global) -> Self {
        MsgPayloads(NewPayloads::new(alloc))
    }
}

impl<T: Shaped, D1: HoldsData, D2: HoldsData, D3: HoldsData> PayloadsOf<At<0>, At<3>, Msg<T>>
    for MsgPayloads<(T, Vec<T>, ()), D1, D2, D3> {
    ghost counted = { record { shapes = refl; lists = λ d. refl } };
}

impl<
    'a,
    T: Shaped,
    D1: NewDecoder + View<'a>,
    D2: NewDecoder + View<'a>,
    D3: NewDecoder + View<'a>,
> PayloadsView<'a, At<0>, At<3>, Msg<T>> for MsgPayloads<(T, Vec<T>, ()), D1, D2, D3> {
    fn read_at(
        &mut self,
        number: usize,
        input: &mut &'a [u8],
        k: usize,
        strict: bool,
        free: &mut u128,
    ) -> Result<bool, Error> {
        PayloadsView::<At<0>, At<3>, Msg<T>>::read_at(&mut self.0, number, input, k, strict, free)
    }
}

impl<T: Shaped, D1: Decoder<T>, D2: Decoder<Vec<T>>, D3: Decoder<()>> PayloadsDecoder<
    At<0>,
    At<3>,
    Msg<T>,
> for MsgPayloads<(T, Vec<T>, ()), D1, D2, D3> {
    ghost makes_free = { D1.makes_free && D2.makes_free && D3.makes_free };

    ghost same_shapes = { first_and D1.same_shape
        (first_and D2.same_shape (first_and D3.same_shape refl)) };

    fn decode_at(&mut self, number: usize) -> Result<Msg<T>, Error> {
        PayloadsDecoder::<At<0>, At<3>, Msg<T>>::decode_at(&mut self.0, number)
    }
}

type Columns<T> = MsgColumns<
    <T as HasEncoder>::Encoder,
    <Vec<T> as HasEncoder>::Encoder,
    <() as HasEncoder>::Encoder,
>;

type Decoders<'a, T> = MsgPayloads<
    (T, Vec<T>, ()),
    <T as HasDecoder<'a>>::Decoder,
    <Vec<T> as HasDecoder<'a>>::Decoder,
    <() as HasDecoder<'a>>::Decoder,
>;

impl<T: HasEncoder> HasEncoder for Msg<T> {
    type Encoder = EnumEncoder<3, Columns<T>>;
}

impl<'a, T: HasDecoder<'a>> HasDecoder<'a> for Msg<T> {
    type Decoder = EnumDecoder<'a, 3, Msg<T>, Decoders<'a, T>>;
}

impl<T: DecodeOwned> DecodeOwned for Msg<T> {}
