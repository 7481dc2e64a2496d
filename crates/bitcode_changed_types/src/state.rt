//! `State` is written by the numbers of its variants. What is below its declaration was written by `scripts/new_type`.
ghost use Rattle.std.specs.Prelude.{true, ◌≡◌};
ghost use Rattle.bitcode.specs.ByHand.{columns_in, each_variant, enum_data, is_variant, last_payload, of_one_of_3};
ghost use Rattle.bitcode.specs.ByHand.{payload_and, payloads_in, refl};
ghost use Rattle.bitcode_changed_types.specs.declared.state.State.{State};

use crate::state_of1::StateOf1;
use crate::state_of2::StateOf2;
use bitcode::own::{
    At, DecodersOf3, EncodersOf3, Enum, EnumDecoder, EnumEncoder, EnumOf, HoldsPayloads,
    HoldsVariantColumns, NewPayloads, OneOf3, PayloadsDecoder, PayloadsOf, PayloadsView,
    VariantColumns, Variants3, WritesVariants, told_as,
};
use bitcode::sealed::{
    Earlier, Expected, OpenError, ReadsVersions, Version, Versioned, open_version,
};
use bitcode::{DecodeOwned, Error, HasDecoder, HasEncoder, Shaped};
use std::alloc::Global;

/// Where a piece of work is.
#[derive(Debug, PartialEq, Drop)]
pub enum State {
    Waiting,
    Running(u32),
    Failed { code: u16, is_final: bool },
}

impl Enum for State {
    ghost each = { each_variant (payload_and ⟦<() as Shaped>⟧.data
        (payload_and ⟦<u32 as Shaped>⟧.data (last_payload ⟦<(u16, bool) as Shaped>⟧.data))) refl
        (λ at. elim [
          | State.Waiting ↦ at 0 tt
          | State.Running a ↦ at 1 a
          | State.Failed a b ↦ at 2 (a, b)
        ]) (
          (λ p. (State.Waiting, refl)),
          ((λ p. (State.Running p, refl)), λ p. (State.Failed p.0 p.1, refl)),
        ) (elim [ State.Waiting ↦ refl | State.Running a ↦ refl | State.Failed a b ↦ refl ]) };

    fn variant(&self) -> u8 {
        match self {
            State::Waiting => 0,
            State::Running(a) => told_as(1, &a),
            State::Failed { code, is_final } => told_as(2, &(code, is_final)),
        }
    }
}

impl Shaped for State {
    ghost data = { enum_data ⟦<State as Enum>⟧.each };

    fn told(&self) {
        let _number = self.variant();
    }
}

impl EnumOf<3> for State {
    ghost counted = { (refl, refl) };

    ghost lists_variants = { λ t d listed. listed };

    ghost makes_variants = { λ d t made. made };
}

impl Variants3<At<0>, At<3>, (), u32, (u16, bool)> for State {
    ghost values = { (λ p. State.Waiting, λ p. State.Running p, λ p. State.Failed p.0 p.1) };

    ghost are = { (
      is_variant refl (λ p. refl) (λ p old new h. h) (λ p old h. h) (λ p old new h. h),
      is_variant refl (λ p. refl) (λ p old new h. h) (λ p old h. h) (λ p old new h. h),
      is_variant refl (λ p. refl) (λ p old new h. h) (λ p old h. h) (λ p old new h. h),
      refl,
    ) };

    fn of_payload(payload: OneOf3<(), u32, (u16, bool)>) -> Self
        ensures { result ≡ of_one_of_3 (λ p. State.Waiting) (λ p. State.Running p)
            (λ p. State.Failed p.0 p.1) payload }
    {
        match payload {
            OneOf3::First(()) => State::Waiting,
            OneOf3::Second(a) => State::Running(a),
            OneOf3::Third((code, is_final)) => State::Failed { code, is_final },
        }
    }
}

type Columns = EncodersOf3<At<0>, (), u32, (u16, bool)>;

impl WritesVariants<At<0>, At<3>, Columns> for State {
    fn write(&self, to: &mut Columns) -> Result<(), Error> {
        match self {
            State::Waiting => to.encode_first(self, &&()),
            State::Running(a) => to.encode_second(self, &a),
            State::Failed { code, is_final } => to.encode_third::<_, _, _, _, (&u16, &bool)>(
                self,
                &(code, is_final),
            ),
        }
    }

    ghost are_columns = { λ c. (refl, refl) };
}

type Decoders<'a> = DecodersOf3<'a, At<0>, (), u32, (u16, bool)>;

/// The columns of the payloads of `State`.
#[derive(Drop)]
pub struct StateColumns(Columns);

impl HoldsVariantColumns for StateColumns {
    ghost columns = { columns_in (λ c. c.0) ⟦<Columns as HoldsVariantColumns>⟧.columns };
}

impl VariantColumns for StateColumns {
    fn new(alloc: Global) -> Self {
        StateColumns(VariantColumns::new(alloc))
    }

    fn collect_all(&mut self, out: &mut Vec<u8>) -> Result<(), Error> {
        self.0.collect_all(out)
    }

    fn clear_all(&mut self) {
        self.0.clear_all();
    }
}

impl WritesVariants<At<0>, At<3>, StateColumns> for State {
    fn write(&self, to: &mut StateColumns) -> Result<(), Error> {
        WritesVariants::<At<0>, At<3>, Columns>::write(self, &mut to.0)
    }

    ghost are_columns = { λ c. (refl, refl) };
}

/// The payloads that values of `State` are made of.
#[derive(Drop)]
pub struct StatePayloads<'a>(Decoders<'a>);

impl<'a> HoldsPayloads for StatePayloads<'a> {
    ghost held = { payloads_in (λ d. d.0) ⟦<Decoders<'a> as HoldsPayloads>⟧.held };
}

impl<'a> NewPayloads for StatePayloads<'a> {
    fn new(alloc: Global) -> Self {
        StatePayloads(NewPayloads::new(alloc))
    }
}

impl<'a> PayloadsOf<At<0>, At<3>, State> for StatePayloads<'a> {
    ghost counted = { record { shapes = refl; lists = λ d. refl } };
}

impl<'a> PayloadsView<'a, At<0>, At<3>, State> for StatePayloads<'a> {
    fn read_at(
        &mut self,
        number: usize,
        input: &mut &'a [u8],
        k: usize,
        strict: bool,
        free: &mut u128,
    ) -> Result<bool, Error> {
        PayloadsView::<At<0>, At<3>, State>::read_at(&mut self.0, number, input, k, strict, free)
    }
}

impl<'a> PayloadsDecoder<At<0>, At<3>, State> for StatePayloads<'a> {
    ghost makes_free = { ⟦<Decoders<'a> as PayloadsDecoder<At<0>, At<3>, State>>⟧.makes_free };

    ghost same_shapes = { refl };

    fn decode_at(&mut self, number: usize) -> Result<State, Error> {
        PayloadsDecoder::<At<0>, At<3>, State>::decode_at(&mut self.0, number)
    }
}

impl HasEncoder for State {
    type Encoder = EnumEncoder<3, StateColumns>;
}

impl<'a> HasDecoder<'a> for State {
    type Decoder = EnumDecoder<'a, 3, State, StatePayloads<'a>>;
}

impl DecodeOwned for State {}

impl Earlier<2> for State {
    ghost use Rattle.bitcode_changed_types.specs.declared.state.State.{State};
    ghost use Rattle.bitcode_changed_types.specs.declared.state_of2.StateOf2.{StateOf2};

    type Before = StateOf2;

    ghost is_upgrade = { elim [
      | StateOf2.Waiting ↦ λ t. (t ≡ State.Waiting)
      | StateOf2.Running a ↦ λ t. (t ≡ State.Running a)
      | StateOf2.Failed a ↦ λ t. (new1 : _) × ((new1 ≡ true) × (t ≡ State.Failed a new1))
    ] };

    fn upgrade(_alloc: Global, before: StateOf2) -> Result<Self, Error> {
        match before {
            StateOf2::Waiting => Ok(State::Waiting),
            StateOf2::Running(a) => Ok(State::Running(a)),
            StateOf2::Failed { code: a } => Ok(State::Failed {
                code: a,
                is_final: true,
            }),
        }
    }
}

/// Opens version 2 of `State`.
pub struct StateVersion2 {}

impl<'a> ReadsVersions<'a, State> for StateVersion2 {
    type Inside = ();

    ghost includes = { ⟦<Version<2> as ReadsVersions<'a, State>>⟧.includes };

    ghost opens = { ⟦<Version<2> as ReadsVersions<'a, State>>⟧.opens };

    ghost refuses = { ⟦<Version<2> as ReadsVersions<'a, State>>⟧.refuses };

    fn includes(version: u16) -> bool {
        version == 2
    }

    fn open_earlier(
        alloc: Global,
        expected: &Expected,
        bytes: &'a [u8],
    ) -> Result<State, OpenError> {
        open_version::<Version<2>, State>(alloc, expected, bytes)
    }
}

impl Earlier<1> for State {
    ghost use Rattle.bitcode_changed_types.specs.declared.state.State.{State};
    ghost use Rattle.bitcode_changed_types.specs.declared.state_of1.StateOf1.{StateOf1};

    type Before = StateOf1;

    ghost is_upgrade = { elim [
      | StateOf1.Waiting ↦ λ t. (t ≡ State.Waiting)
      | StateOf1.Running a ↦ λ t. (t ≡ State.Running a)
    ] };

    fn upgrade(_alloc: Global, before: StateOf1) -> Result<Self, Error> {
        match before {
            StateOf1::Waiting => Ok(State::Waiting),
            StateOf1::Running(a) => Ok(State::Running(a)),
        }
    }
}

/// Opens version 1 of `State`.
pub struct StateVersion1 {}

impl<'a> ReadsVersions<'a, State> for StateVersion1 {
    type Inside = ();

    ghost includes = { ⟦<Version<1> as ReadsVersions<'a, State>>⟧.includes };

    ghost opens = { ⟦<Version<1> as ReadsVersions<'a, State>>⟧.opens };

    ghost refuses = { ⟦<Version<1> as ReadsVersions<'a, State>>⟧.refuses };

    fn includes(version: u16) -> bool {
        version == 1
    }

    fn open_earlier(
        alloc: Global,
        expected: &Expected,
        bytes: &'a [u8],
    ) -> Result<State, OpenError> {
        open_version::<Version<1>, State>(alloc, expected, bytes)
    }
}

impl Versioned for State {
    type Versions = (StateVersion2, StateVersion1);

    type Numbers = (Version<2>, Version<1>);
}
