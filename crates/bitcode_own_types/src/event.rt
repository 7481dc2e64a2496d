//! `Event` is written by the numbers of its variants. What is below its declaration was written by `scripts/new_type`.
ghost use Rattle.std.specs.Prelude.{◌≡◌};
ghost use Rattle.bitcode.specs.ByHand.{columns_in, each_variant, enum_data, is_variant, last_payload, of_one_of_4};
ghost use Rattle.bitcode.specs.ByHand.{payload_and, payloads_in, refl};
ghost use Rattle.bitcode_own_types.specs.declared.event.Event.{Event};

use bitcode::own::{
    At, DecodersOf4, EncodersOf4, Enum, EnumDecoder, EnumEncoder, EnumOf, HoldsPayloads,
    HoldsVariantColumns, NewPayloads, OneOf4, PayloadsDecoder, PayloadsOf, PayloadsView,
    VariantColumns, Variants4, WritesVariants, told_as,
};
use bitcode::{DecodeOwned, Error, HasDecoder, HasEncoder, Shaped};
use std::alloc::Global;

/// What happens in a game.
#[derive(Debug, PartialEq, Drop)]
pub enum Event {
    Tick,
    Spawn(u64, String),
    Move { id: u64, dx: i8, dy: i8 },
    Quit(Option<u16>),
}

impl Enum for Event {
    ghost each = { each_variant (payload_and ⟦<() as Shaped>⟧.data
        (payload_and ⟦<(u64, String) as Shaped>⟧.data
        (payload_and ⟦<(u64, (i8, i8)) as Shaped>⟧.data
        (last_payload ⟦<Option<u16> as Shaped>⟧.data)))) refl (λ at. elim [
          | Event.Tick ↦ at 0 tt
          | Event.Spawn a b ↦ at 1 (a, b)
          | Event.Move a b c ↦ at 2 (a, (b, c))
          | Event.Quit a ↦ at 3 a
        ]) (
          (λ p. (Event.Tick, refl)),
          (
            (λ p. (Event.Spawn p.0 p.1, refl)),
            ((λ p. (Event.Move p.0 p.1.0 p.1.1, refl)), λ p. (Event.Quit p, refl)),
          ),
        ) (elim [
          | Event.Tick ↦ refl
          | Event.Spawn a b ↦ refl
          | Event.Move a b c ↦ refl
          | Event.Quit a ↦ refl
        ]) };

    fn variant(&self) -> u8 {
        match self {
            Event::Tick => 0,
            Event::Spawn(a, b) => told_as(1, &(a, b)),
            Event::Move { id, dx, dy } => told_as(2, &(id, (dx, dy))),
            Event::Quit(a) => told_as(3, &a),
        }
    }
}

impl Shaped for Event {
    ghost data = { enum_data ⟦<Event as Enum>⟧.each };

    fn told(&self) {
        let _number = self.variant();
    }
}

impl EnumOf<4> for Event {
    ghost counted = { (refl, refl) };

    ghost lists_variants = { λ t d listed. listed };

    ghost makes_variants = { λ d t made. made };
}

impl Variants4<At<0>, At<4>, (), (u64, String), (u64, (i8, i8)), Option<u16>> for Event {
    ghost values = { (
      λ p. Event.Tick,
      λ p. Event.Spawn p.0 p.1,
      λ p. Event.Move p.0 p.1.0 p.1.1,
      λ p. Event.Quit p,
    ) };

    ghost are = { (
      is_variant refl (λ p. refl) (λ p old new h. h) (λ p old h. h) (λ p old new h. h),
      is_variant refl (λ p. refl) (λ p old new h. h) (λ p old h. h) (λ p old new h. h),
      is_variant refl (λ p. refl) (λ p old new h. h) (λ p old h. h) (λ p old new h. h),
      is_variant refl (λ p. refl) (λ p old new h. h) (λ p old h. h) (λ p old new h. h),
      refl,
    ) };

    fn of_payload(payload: OneOf4<(), (u64, String), (u64, (i8, i8)), Option<u16>>) -> Self
        ensures { result ≡ of_one_of_4 (λ p. Event.Tick) (λ p. Event.Spawn p.0 p.1)
            (λ p. Event.Move p.0 p.1.0 p.1.1) (λ p. Event.Quit p) payload }
    {
        match payload {
            OneOf4::First(()) => Event::Tick,
            OneOf4::Second((a, b)) => Event::Spawn(a, b),
            OneOf4::Third((id, (dx, dy))) => Event::Move { id, dx, dy },
            OneOf4::Fourth(a) => Event::Quit(a),
        }
    }
}

type Columns = EncodersOf4<At<0>, (), (u64, String), (u64, (i8, i8)), Option<u16>>;

impl WritesVariants<At<0>, At<4>, Columns> for Event {
    fn write(&self, to: &mut Columns) -> Result<(), Error> {
        match self {
            Event::Tick => to.encode_first(self, &&()),
            Event::Spawn(a, b) => to.encode_second::<_, _, _, _, _, (&u64, &String)>(self, &(a, b)),
            Event::Move { id, dx, dy } => to.encode_third::<_, _, _, _, _, (&u64, (&i8, &i8))>(
                self,
                &(id, (dx, dy)),
            ),
            Event::Quit(a) => to.encode_fourth(self, &a),
        }
    }

    ghost are_columns = { λ c. (refl, refl) };
}

type Decoders<'a> = DecodersOf4<'a, At<0>, (), (u64, String), (u64, (i8, i8)), Option<u16>>;

/// The columns of the payloads of `Event`.
#[derive(Drop)]
pub struct EventColumns(Columns);

impl HoldsVariantColumns for EventColumns {
    ghost columns = { columns_in (λ c. c.0) ⟦<Columns as HoldsVariantColumns>⟧.columns };
}

impl VariantColumns for EventColumns {
    fn new(alloc: Global) -> Self {
        EventColumns(VariantColumns::new(alloc))
    }

    fn collect_all(&mut self, out: &mut Vec<u8>) -> Result<(), Error> {
        self.0.collect_all(out)
    }

    fn clear_all(&mut self) {
        self.0.clear_all();
    }
}

impl WritesVariants<At<0>, At<4>, EventColumns> for Event {
    fn write(&self, to: &mut EventColumns) -> Result<(), Error> {
        WritesVariants::<At<0>, At<4>, Columns>::write(self, &mut to.0)
    }

    ghost are_columns = { λ c. (refl, refl) };
}

/// The payloads that values of `Event` are made of.
#[derive(Drop)]
pub struct EventPayloads<'a>(Decoders<'a>);

impl<'a> HoldsPayloads for EventPayloads<'a> {
    ghost held = { payloads_in (λ d. d.0) ⟦<Decoders<'a> as HoldsPayloads>⟧.held };
}

impl<'a> NewPayloads for EventPayloads<'a> {
    fn new(alloc: Global) -> Self {
        EventPayloads(NewPayloads::new(alloc))
    }
}

impl<'a> PayloadsOf<At<0>, At<4>, Event> for EventPayloads<'a> {
    ghost counted = { record { shapes = refl; lists = λ d. refl } };
}

impl<'a> PayloadsView<'a, At<0>, At<4>, Event> for EventPayloads<'a> {
    fn read_at(
        &mut self,
        number: usize,
        input: &mut &'a [u8],
        k: usize,
        strict: bool,
        free: &mut u128,
    ) -> Result<bool, Error> {
        PayloadsView::<At<0>, At<4>, Event>::read_at(&mut self.0, number, input, k, strict, free)
    }
}

impl<'a> PayloadsDecoder<At<0>, At<4>, Event> for EventPayloads<'a> {
    ghost makes_free = { ⟦<Decoders<'a> as PayloadsDecoder<At<0>, At<4>, Event>>⟧.makes_free };

    ghost same_shapes = { refl };

    fn decode_at(&mut self, number: usize) -> Result<Event, Error> {
        PayloadsDecoder::<At<0>, At<4>, Event>::decode_at(&mut self.0, number)
    }
}

impl HasEncoder for Event {
    type Encoder = EnumEncoder<4, EventColumns>;
}

impl<'a> HasDecoder<'a> for Event {
    type Decoder = EnumDecoder<'a, 4, Event, EventPayloads<'a>>;
}

impl DecodeOwned for Event {}
