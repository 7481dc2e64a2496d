//! `StateOf2` is written by the numbers of its variants. What is below its declaration was written by
//! `scripts/new_type`.
ghost use Rattle.std.specs.Prelude.{◌≡◌};
ghost use Rattle.bitcode.specs.ByHand.{each_variant, enum_data, is_variant, last_payload, of_one_of_3, payload_and};
ghost use Rattle.bitcode.specs.ByHand.{payloads_in, refl};
ghost use Rattle.bitcode_changed_types.specs.declared.state_of2.StateOf2.{StateOf2};

use bitcode::own::{
    At, DecodersOf3, Enum, EnumDecoder, EnumOf, HoldsPayloads, NewPayloads, OneOf3,
    PayloadsDecoder, PayloadsOf, PayloadsView, Variants3, told_as,
};
use bitcode::{DecodeOwned, Error, HasDecoder, Shaped};
use std::alloc::Global;

/// `State` as it was in version 2.
#[derive(Drop)]
pub enum StateOf2 {
    Waiting,
    Running(u32),
    Failed { code: u16 },
}

impl Enum for StateOf2 {
    ghost each = { each_variant (payload_and ⟦<() as Shaped>⟧.data
        (payload_and ⟦<u32 as Shaped>⟧.data (last_payload ⟦<u16 as Shaped>⟧.data))) refl
        (λ at. elim [
          | StateOf2.Waiting ↦ at 0 tt
          | StateOf2.Running a ↦ at 1 a
          | StateOf2.Failed a ↦ at 2 a
        ]) (
          (λ p. (StateOf2.Waiting, refl)),
          ((λ p. (StateOf2.Running p, refl)), λ p. (StateOf2.Failed p, refl)),
        )
        (elim [ StateOf2.Waiting ↦ refl | StateOf2.Running a ↦ refl | StateOf2.Failed a ↦ refl ]) };

    fn variant(&self) -> u8 {
        match self {
            StateOf2::Waiting => 0,
            StateOf2::Running(a) => told_as(1, &a),
            StateOf2::Failed { code } => told_as(2, &code),
        }
    }
}

impl Shaped for StateOf2 {
    ghost data = { enum_data ⟦<StateOf2 as Enum>⟧.each };

    fn told(&self) {
        let _number = self.variant();
    }
}

impl EnumOf<3> for StateOf2 {
    ghost counted = { (refl, refl) };

    ghost lists_variants = { λ t d listed. listed };

    ghost makes_variants = { λ d t made. made };
}

impl Variants3<At<0>, At<3>, (), u32, u16> for StateOf2 {
    ghost values = { (λ p. StateOf2.Waiting, λ p. StateOf2.Running p, λ p. StateOf2.Failed p) };

    ghost are = { (
      is_variant refl (λ p. refl) (λ p old new h. h) (λ p old h. h) (λ p old new h. h),
      is_variant refl (λ p. refl) (λ p old new h. h) (λ p old h. h) (λ p old new h. h),
      is_variant refl (λ p. refl) (λ p old new h. h) (λ p old h. h) (λ p old new h. h),
      refl,
    ) };

    fn of_payload(payload: OneOf3<(), u32, u16>) -> Self
        ensures { result ≡ of_one_of_3 (λ p. StateOf2.Waiting) (λ p. StateOf2.Running p)
            (λ p. StateOf2.Failed p) payload }
    {
        match payload {
            OneOf3::First(()) => StateOf2::Waiting,
            OneOf3::Second(a) => StateOf2::Running(a),
            OneOf3::Third(code) => StateOf2::Failed { code },
        }
    }
}

type Decoders<'a> = DecodersOf3<'a, At<0>, (), u32, u16>;

/// The payloads that values of `StateOf2` are made of.
#[derive(Drop)]
pub struct StateOf2Payloads<'a>(Decoders<'a>);

impl<'a> HoldsPayloads for StateOf2Payloads<'a> {
    ghost held = { payloads_in (λ d. d.0) ⟦<Decoders<'a> as HoldsPayloads>⟧.held };
}

impl<'a> NewPayloads for StateOf2Payloads<'a> {
    fn new(alloc: Global) -> Self {
        StateOf2Payloads(NewPayloads::new(alloc))
    }
}

impl<'a> PayloadsOf<At<0>, At<3>, StateOf2> for StateOf2Payloads<'a> {
    ghost counted = { record { shapes = refl; lists = λ d. refl } };
}

impl<'a> PayloadsView<'a, At<0>, At<3>, StateOf2> for StateOf2Payloads<'a> {
    fn read_at(
        &mut self,
        number: usize,
        input: &mut &'a [u8],
        k: usize,
        strict: bool,
        free: &mut u128,
    ) -> Result<bool, Error> {
        PayloadsView::<At<0>, At<3>, StateOf2>::read_at(&mut self.0, number, input, k, strict, free)
    }
}

impl<'a> PayloadsDecoder<At<0>, At<3>, StateOf2> for StateOf2Payloads<'a> {
    ghost makes_free = { ⟦<Decoders<'a> as PayloadsDecoder<At<0>, At<3>, StateOf2>>⟧.makes_free };

    ghost same_shapes = { refl };

    fn decode_at(&mut self, number: usize) -> Result<StateOf2, Error> {
        PayloadsDecoder::<At<0>, At<3>, StateOf2>::decode_at(&mut self.0, number)
    }
}

impl<'a> HasDecoder<'a> for StateOf2 {
    type Decoder = EnumDecoder<'a, 3, StateOf2, StateOf2Payloads<'a>>;
}

impl DecodeOwned for StateOf2 {}
