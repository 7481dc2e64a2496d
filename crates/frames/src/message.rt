//! `Message` is written by the numbers of its variants. What is below its declaration was written by
//! `scripts/new_type`.
ghost use Rattle.std.specs.Prelude.{◌≡◌};
ghost use Rattle.bitcode.specs.ByHand.{columns_in, each_variant, enum_data, is_variant, last_payload, of_one_of_4};
ghost use Rattle.bitcode.specs.ByHand.{payload_and, payloads_in, refl};
ghost use Rattle.frames.specs.declared.message.Message.{Message};

use crate::celsius::Celsius;
use crate::level::Level;
use bitcode::own::{
    At, DecodersOf4, EncodersOf4, Enum, EnumDecoder, EnumEncoder, EnumOf, HoldsPayloads,
    HoldsVariantColumns, NewPayloads, OneOf4, PayloadsDecoder, PayloadsOf, PayloadsView,
    VariantColumns, Variants4, WritesVariants, told_as,
};
use bitcode::{Error, HasDecoder, HasEncoder, Shaped};
use std::alloc::Global;

/// What a device sends.
#[derive(Debug, Clone, Copy, PartialEq)]
pub enum Message<'a> {
    Hello { name: &'a str, version: u16 },
    Measured { sensor: u32, value: Celsius },
    Log(Level, &'a str),
    Bye,
}

impl<'a> Enum for Message<'a> {
    ghost each = { each_variant (payload_and ⟦<(&'a str, u16) as Shaped>⟧.data
        (payload_and ⟦<(u32, Celsius) as Shaped>⟧.data
        (payload_and ⟦<(Level, &'a str) as Shaped>⟧.data (last_payload ⟦<() as Shaped>⟧.data))))
        refl (λ at. elim [
          | Message.Hello a b ↦ at 0 (a, b)
          | Message.Measured a b ↦ at 1 (a, b)
          | Message.Log a b ↦ at 2 (a, b)
          | Message.Bye ↦ at 3 tt
        ]) (
          (λ p. (Message.Hello p.0 p.1, refl)),
          (
            (λ p. (Message.Measured p.0 p.1, refl)),
            ((λ p. (Message.Log p.0 p.1, refl)), λ p. (Message.Bye, refl)),
          ),
        ) (elim [
          | Message.Hello a b ↦ refl
          | Message.Measured a b ↦ refl
          | Message.Log a b ↦ refl
          | Message.Bye ↦ refl
        ]) };

    fn variant(&self) -> u8 {
        match self {
            Message::Hello { name, version } => told_as(0, &(name, version)),
            Message::Measured { sensor, value } => told_as(1, &(sensor, value)),
            Message::Log(a, b) => told_as(2, &(a, b)),
            Message::Bye => 3,
        }
    }
}

impl<'a> Shaped for Message<'a> {
    ghost data = { enum_data ⟦<Message<'a> as Enum>⟧.each };

    fn told(&self) {
        let _number = self.variant();
    }
}

impl<'a> EnumOf<4> for Message<'a> {
    ghost counted = { (refl, refl) };

    ghost lists_variants = { λ t d listed. listed };

    ghost makes_variants = { λ d t made. made };
}

impl<'a> Variants4<At<0>, At<4>, (&'a str, u16), (u32, Celsius), (Level, &'a str), ()>
    for Message<'a> {
    ghost values = { (
      λ p. Message.Hello p.0 p.1,
      λ p. Message.Measured p.0 p.1,
      λ p. Message.Log p.0 p.1,
      λ p. Message.Bye,
    ) };

    ghost are = { (
      is_variant refl (λ p. refl) (λ p old new h. h) (λ p old h. h) (λ p old new h. h),
      is_variant refl (λ p. refl) (λ p old new h. h) (λ p old h. h) (λ p old new h. h),
      is_variant refl (λ p. refl) (λ p old new h. h) (λ p old h. h) (λ p old new h. h),
      is_variant refl (λ p. refl) (λ p old new h. h) (λ p old h. h) (λ p old new h. h),
      refl,
    ) };

    fn of_payload(payload: OneOf4<(&'a str, u16), (u32, Celsius), (Level, &'a str), ()>) -> Self
        ensures { result ≡ of_one_of_4 (λ p. Message.Hello p.0 p.1) (λ p. Message.Measured p.0 p.1)
            (λ p. Message.Log p.0 p.1) (λ p. Message.Bye) payload.entry }
    {
        match payload {
            OneOf4::First((name, version)) => Message::Hello { name, version },
            OneOf4::Second((sensor, value)) => Message::Measured { sensor, value },
            OneOf4::Third((a, b)) => Message::Log(a, b),
            OneOf4::Fourth(()) => Message::Bye,
        }
    }
}

type Columns = EncodersOf4<At<0>, (&'static str, u16), (u32, Celsius), (Level, &'static str), ()>;

impl<'a> WritesVariants<At<0>, At<4>, Columns> for Message<'a> {
    fn write(&self, to: &mut Columns) -> Result<(), Error> {
        match self {
            Message::Hello { name, version } => to.encode_first::<_, _, _, _, _, (&&'a str, &u16)>(
                self,
                &(name, version),
            ),
            Message::Measured { sensor, value } => to.encode_second::<
                _,
                _,
                _,
                _,
                _,
                (&u32, &Celsius),
            >(self, &(sensor, value)),
            Message::Log(a, b) => to.encode_third::<_, _, _, _, _, (&Level, &&'a str)>(
                self,
                &(a, b),
            ),
            Message::Bye => to.encode_fourth(self, &&()),
        }
    }

    ghost are_columns = { λ c. (refl, refl) };
}

type Decoders<'a> = DecodersOf4<'a, At<0>, (&'a str, u16), (u32, Celsius), (Level, &'a str), ()>;

/// The columns of the payloads of `Message`.
#[derive(Drop)]
pub struct MessageColumns(Columns);

impl HoldsVariantColumns for MessageColumns {
    ghost columns = { columns_in (λ c. c.0) ⟦<Columns as HoldsVariantColumns>⟧.columns };
}

impl VariantColumns for MessageColumns {
    fn new(alloc: Global) -> Self {
        MessageColumns(VariantColumns::new(alloc))
    }

    fn collect_all(&mut self, out: &mut Vec<u8>) -> Result<(), Error> {
        self.0.collect_all(out)
    }

    fn clear_all(&mut self) {
        self.0.clear_all();
    }
}

impl<'a> WritesVariants<At<0>, At<4>, MessageColumns> for Message<'a> {
    fn write(&self, to: &mut MessageColumns) -> Result<(), Error> {
        WritesVariants::<At<0>, At<4>, Columns>::write(self, &mut to.0)
    }

    ghost are_columns = { λ c. (refl, refl) };
}

/// The payloads that values of `Message` are made of.
#[derive(Drop)]
pub struct MessagePayloads<'a>(Decoders<'a>);

impl<'a> HoldsPayloads for MessagePayloads<'a> {
    ghost held = { payloads_in (λ d. d.0) ⟦<Decoders<'a> as HoldsPayloads>⟧.held };
}

impl<'a> NewPayloads for MessagePayloads<'a> {
    fn new(alloc: Global) -> Self {
        MessagePayloads(NewPayloads::new(alloc))
    }
}

impl<'a> PayloadsOf<At<0>, At<4>, Message<'a>> for MessagePayloads<'a> {
    ghost counted = { record { shapes = refl; lists = λ d. refl } };
}

impl<'a> PayloadsView<'a, At<0>, At<4>, Message<'a>> for MessagePayloads<'a> {
    fn read_at(
        &mut self,
        number: usize,
        input: &mut &'a [u8],
        k: usize,
        strict: bool,
        free: &mut u128,
    ) -> Result<bool, Error> {
        PayloadsView::<At<0>, At<4>, Message<'a>>::read_at(
            &mut self.0,
            number,
            input,
            k,
            strict,
            free,
        )
    }
}

impl<'a> PayloadsDecoder<At<0>, At<4>, Message<'a>> for MessagePayloads<'a> {
    ghost makes_free = { ⟦<Decoders<'a> as PayloadsDecoder<At<0>, At<4>, Message<'a>>>⟧.makes_free };

    ghost same_shapes = { refl };

    fn decode_at(&mut self, number: usize) -> Result<Message<'a>, Error> {
        PayloadsDecoder::<At<0>, At<4>, Message<'a>>::decode_at(&mut self.0, number)
    }
}

impl<'a> HasEncoder for Message<'a> {
    type Encoder = EnumEncoder<4, MessageColumns>;
}

impl<'a> HasDecoder<'a> for Message<'a> {
    type Decoder = EnumDecoder<'a, 4, Message<'a>, MessagePayloads<'a>>;
}
