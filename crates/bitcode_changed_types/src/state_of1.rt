//! `StateOf1` is written by the numbers of its variants. What is below its declaration was written by
//! `scripts/new_type`.
ghost use Rattle.std.specs.Prelude.{◌≡◌};
ghost use Rattle.bitcode.specs.ByHand.{each_variant, enum_data, is_variant, last_payload, of_one_of_2, payload_and};
ghost use Rattle.bitcode.specs.ByHand.{payloads_in, refl};
ghost use Rattle.bitcode_changed_types.specs.declared.state_of1.StateOf1.{StateOf1};

use bitcode::own::{
    At, DecodersOf2, Enum, EnumDecoder, EnumOf, HoldsPayloads, NewPayloads, OneOf2,
    PayloadsDecoder, PayloadsOf, PayloadsView, Variants2, told_as,
};
use bitcode::{DecodeOwned, Error, HasDecoder, Shaped};
use std::alloc::Global;

/// `State` as it was in version 1.
#[derive(Drop)]
pub enum StateOf1 {
    Waiting,
    Running(u32),
}

impl Enum for StateOf1 {
    ghost each = { each_variant
        (payload_and ⟦<() as Shaped>⟧.data (last_payload ⟦<u32 as Shaped>⟧.data)) refl
        (λ at. elim [ StateOf1.Waiting ↦ at 0 tt | StateOf1.Running a ↦ at 1 a ])
        ((λ p. (StateOf1.Waiting, refl)), λ p. (StateOf1.Running p, refl))
        (elim [ StateOf1.Waiting ↦ refl | StateOf1.Running a ↦ refl ]) };

    fn variant(&self) -> u8 {
        match self {
            StateOf1::Waiting => 0,
            StateOf1::Running(a) => told_as(1, &a),
        }
    }
}

impl Shaped for StateOf1 {
    ghost data = { enum_data ⟦<StateOf1 as Enum>⟧.each };

    fn told(&self) {
        let _number = self.variant();
    }
}

impl EnumOf<2> for StateOf1 {
    ghost counted = { (refl, refl) };

    ghost lists_variants = { λ t d listed. listed };

    ghost makes_variants = { λ d t made. made };
}

impl Variants2<At<0>, At<2>, (), u32> for StateOf1 {
    ghost values = { (λ p. StateOf1.Waiting, λ p. StateOf1.Running p) };

    ghost are = { (
      is_variant refl (λ p. refl) (λ p old new h. h) (λ p old h. h) (λ p old new h. h),
      is_variant refl (λ p. refl) (λ p old new h. h) (λ p old h. h) (λ p old new h. h),
      refl,
    ) };

    fn of_payload(payload: OneOf2<(), u32>) -> Self
        ensures { result ≡ of_one_of_2 (λ p. StateOf1.Waiting) (λ p. StateOf1.Running p) payload }
    {
        match payload {
            OneOf2::First(()) => StateOf1::Waiting,
            OneOf2::Second(a) => StateOf1::Running(a),
        }
    }
}

type Decoders<'a> = DecodersOf2<'a, At<0>, (), u32>;

/// The payloads that values of `StateOf1` are made of.
#[derive(Drop)]
pub struct StateOf1Payloads<'a>(Decoders<'a>);

impl<'a> HoldsPayloads for StateOf1Payloads<'a> {
    ghost held = { payloads_in (λ d. d.0) ⟦<Decoders<'a> as HoldsPayloads>⟧.held };
}

impl<'a> NewPayloads for StateOf1Payloads<'a> {
    fn new(alloc: Global) -> Self {
        StateOf1Payloads(NewPayloads::new(alloc))
    }
}

impl<'a> PayloadsOf<At<0>, At<2>, StateOf1> for StateOf1Payloads<'a> {
    ghost counted = { record { shapes = refl; lists = λ d. refl } };
}

impl<'a> PayloadsView<'a, At<0>, At<2>, StateOf1> for StateOf1Payloads<'a> {
    fn read_at(
        &mut self,
        number: usize,
        input: &mut &'a [u8],
        k: usize,
        strict: bool,
        free: &mut u128,
    ) -> Result<bool, Error> {
        PayloadsView::<At<0>, At<2>, StateOf1>::read_at(&mut self.0, number, input, k, strict, free)
    }
}

impl<'a> PayloadsDecoder<At<0>, At<2>, StateOf1> for StateOf1Payloads<'a> {
    ghost makes_free = { ⟦<Decoders<'a> as PayloadsDecoder<At<0>, At<2>, StateOf1>>⟧.makes_free };

    ghost same_shapes = { refl };

    fn decode_at(&mut self, number: usize) -> Result<StateOf1, Error> {
        PayloadsDecoder::<At<0>, At<2>, StateOf1>::decode_at(&mut self.0, number)
    }
}

impl<'a> HasDecoder<'a> for StateOf1 {
    type Decoder = EnumDecoder<'a, 2, StateOf1, StateOf1Payloads<'a>>;
}

impl DecodeOwned for StateOf1 {}
