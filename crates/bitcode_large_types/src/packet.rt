//! `Packet` is written by the numbers of its variants. What is below its declaration was written by `scripts/new_type`.
ghost use Rattle.std.specs.Prelude.{◌≡◌};
ghost use Rattle.bitcode.specs.ByHand.{columns_in, each_variant, enum_data, is_variant, last_payload, of_one_of_4};
ghost use Rattle.bitcode.specs.ByHand.{payload_and, payloads_in, refl};
ghost use Rattle.bitcode_large_types.specs.declared.packet.Packet.{Packet};

use bitcode::own::{
    At, DecodersOf4, EncodersOf4, Enum, EnumDecoder, EnumEncoder, EnumOf, HoldsPayloads,
    HoldsVariantColumns, NewPayloads, NotCompared, OneOf4, PayloadsDecoder, PayloadsOf,
    PayloadsView, TwoGroups, VariantColumns, Variants4, WritesVariants, told_as,
};
use bitcode::{DecodeOwned, Error, HasDecoder, HasEncoder, Shaped};
use std::alloc::Global;

/// What the players and the server of a game send each other.
#[derive(Debug, PartialEq, Drop)]
pub enum Packet {
    Ping,
    Pong,
    Login(String, u64),
    Logout,
    Welcome { id: u32, name: String },
    Refused(String),
    Join(u16),
    Leave(u16),
    Say(String),
    Whisper { to: u32, text: String },
    Move { x: i32, y: i32 },
    Turn(i16),
    Attack(u32),
    Hit { by: u32, damage: u16 },
    Heal(u16),
    Take(u64, u16),
    Drop(u64),
    Inventory(Vec<u16>),
    Score(Option<u32>),
    Quit,
}

impl Enum for Packet {
    ghost each = { each_variant (payload_and ⟦<() as Shaped>⟧.data
        (payload_and ⟦<() as Shaped>⟧.data (payload_and ⟦<(String, u64) as Shaped>⟧.data
        (payload_and ⟦<() as Shaped>⟧.data (payload_and ⟦<(u32, String) as Shaped>⟧.data
        (payload_and ⟦<String as Shaped>⟧.data (payload_and ⟦<u16 as Shaped>⟧.data
        (payload_and ⟦<u16 as Shaped>⟧.data (payload_and ⟦<String as Shaped>⟧.data
        (payload_and ⟦<(u32, String) as Shaped>⟧.data (payload_and ⟦<(i32, i32) as Shaped>⟧.data
        (payload_and ⟦<i16 as Shaped>⟧.data (payload_and ⟦<u32 as Shaped>⟧.data
        (payload_and ⟦<(u32, u16) as Shaped>⟧.data (payload_and ⟦<u16 as Shaped>⟧.data
        (payload_and ⟦<(u64, u16) as Shaped>⟧.data (payload_and ⟦<u64 as Shaped>⟧.data
        (payload_and ⟦<Vec<u16> as Shaped>⟧.data (payload_and ⟦<Option<u32> as Shaped>⟧.data
        (last_payload ⟦<() as Shaped>⟧.data)))))))))))))))))))) refl (λ at. elim [
          | Packet.Ping ↦ at 0 tt
          | Packet.Pong ↦ at 1 tt
          | Packet.Login a b ↦ at 2 (a, b)
          | Packet.Logout ↦ at 3 tt
          | Packet.Welcome a b ↦ at 4 (a, b)
          | Packet.Refused a ↦ at 5 a
          | Packet.Join a ↦ at 6 a
          | Packet.Leave a ↦ at 7 a
          | Packet.Say a ↦ at 8 a
          | Packet.Whisper a b ↦ at 9 (a, b)
          | Packet.Move a b ↦ at 10 (a, b)
          | Packet.Turn a ↦ at 11 a
          | Packet.Attack a ↦ at 12 a
          | Packet.Hit a b ↦ at 13 (a, b)
          | Packet.Heal a ↦ at 14 a
          | Packet.Take a b ↦ at 15 (a, b)
          | Packet.Drop a ↦ at 16 a
          | Packet.Inventory a ↦ at 17 a
          | Packet.Score a ↦ at 18 a
          | Packet.Quit ↦ at 19 tt
        ]) (
          (λ p. (Packet.Ping, refl)),
          (
            (λ p. (Packet.Pong, refl)),
            (
              (λ p. (Packet.Login p.0 p.1, refl)),
              (
                (λ p. (Packet.Logout, refl)),
                (
                  (λ p. (Packet.Welcome p.0 p.1, refl)),
                  (
                    (λ p. (Packet.Refused p, refl)),
                    (
                      (λ p. (Packet.Join p, refl)),
                      (
                        (λ p. (Packet.Leave p, refl)),
                        (
                          (λ p. (Packet.Say p, refl)),
                          (
                            (λ p. (Packet.Whisper p.0 p.1, refl)),
                            (
                              (λ p. (Packet.Move p.0 p.1, refl)),
                              (
                                (λ p. (Packet.Turn p, refl)),
                                (
                                  (λ p. (Packet.Attack p, refl)),
                                  (
                                    (λ p. (Packet.Hit p.0 p.1, refl)),
                                    (
                                      (λ p. (Packet.Heal p, refl)),
                                      (
                                        (λ p. (Packet.Take p.0 p.1, refl)),
                                        (
                                          (λ p. (Packet.Drop p, refl)),
                                          (
                                            (λ p. (Packet.Inventory p, refl)),
                                            (
                                              (λ p. (Packet.Score p, refl)),
                                              λ p. (Packet.Quit, refl),
                                            ),
                                          ),
                                        ),
                                      ),
                                    ),
                                  ),
                                ),
                              ),
                            ),
                          ),
                        ),
                      ),
                    ),
                  ),
                ),
              ),
            ),
          ),
        ) (elim [
          | Packet.Ping ↦ refl
          | Packet.Pong ↦ refl
          | Packet.Login a b ↦ refl
          | Packet.Logout ↦ refl
          | Packet.Welcome a b ↦ refl
          | Packet.Refused a ↦ refl
          | Packet.Join a ↦ refl
          | Packet.Leave a ↦ refl
          | Packet.Say a ↦ refl
          | Packet.Whisper a b ↦ refl
          | Packet.Move a b ↦ refl
          | Packet.Turn a ↦ refl
          | Packet.Attack a ↦ refl
          | Packet.Hit a b ↦ refl
          | Packet.Heal a ↦ refl
          | Packet.Take a b ↦ refl
          | Packet.Drop a ↦ refl
          | Packet.Inventory a ↦ refl
          | Packet.Score a ↦ refl
          | Packet.Quit ↦ refl
        ]) };

    fn variant(&self) -> u8 {
        match self {
            Packet::Ping => 0,
            Packet::Pong => 1,
            Packet::Login(a, b) => told_as(2, &(a, b)),
            Packet::Logout => 3,
            Packet::Welcome { id, name } => told_as(4, &(id, name)),
            Packet::Refused(a) => told_as(5, &a),
            Packet::Join(a) => told_as(6, &a),
            Packet::Leave(a) => told_as(7, &a),
            Packet::Say(a) => told_as(8, &a),
            Packet::Whisper { to: to_, text } => told_as(9, &(to_, text)),
            Packet::Move { x, y } => told_as(10, &(x, y)),
            Packet::Turn(a) => told_as(11, &a),
            Packet::Attack(a) => told_as(12, &a),
            Packet::Hit { by, damage } => told_as(13, &(by, damage)),
            Packet::Heal(a) => told_as(14, &a),
            Packet::Take(a, b) => told_as(15, &(a, b)),
            Packet::Drop(a) => told_as(16, &a),
            Packet::Inventory(a) => told_as(17, &a),
            Packet::Score(a) => told_as(18, &a),
            Packet::Quit => 19,
        }
    }
}

impl Shaped for Packet {
    ghost data = { enum_data ⟦<Packet as Enum>⟧.each };

    fn told(&self) {
        let _number = self.variant();
    }
}

impl EnumOf<20> for Packet {
    ghost counted = { (refl, refl) };

    ghost lists_variants = { λ t d listed. listed };

    ghost makes_variants = { λ d t made. made };
}

impl Variants4<At<0>, At<4>, (), (), (String, u64), ()> for Packet {
    ghost values = { (
      λ p. Packet.Ping,
      λ p. Packet.Pong,
      λ p. Packet.Login p.0 p.1,
      λ p. Packet.Logout,
    ) };

    ghost are = { (
      is_variant refl (λ p. refl) (λ p old new h. h) (λ p old h. h) (λ p old new h. h),
      is_variant refl (λ p. refl) (λ p old new h. h) (λ p old h. h) (λ p old new h. h),
      is_variant refl (λ p. refl) (λ p old new h. h) (λ p old h. h) (λ p old new h. h),
      is_variant refl (λ p. refl) (λ p old new h. h) (λ p old h. h) (λ p old new h. h),
      refl,
    ) };

    fn of_payload(payload: OneOf4<(), (), (String, u64), ()>) -> Self
        ensures { result ≡ of_one_of_4 (λ p. Packet.Ping) (λ p. Packet.Pong)
            (λ p. Packet.Login p.0 p.1) (λ p. Packet.Logout) payload }
    {
        match payload {
            OneOf4::First(()) => Packet::Ping,
            OneOf4::Second(()) => Packet::Pong,
            OneOf4::Third((a, b)) => Packet::Login(a, b),
            OneOf4::Fourth(()) => Packet::Logout,
        }
    }
}

impl WritesVariants<At<0>, At<4>, EncodersOf4<At<0>, (), (), (String, u64), ()>> for Packet {
    fn write(&self, to: &mut EncodersOf4<At<0>, (), (), (String, u64), ()>) -> Result<(), Error> {
        match self {
            Packet::Ping => to.encode_first(self, &&()),
            Packet::Pong => to.encode_second(self, &&()),
            Packet::Login(a, b) => to.encode_third::<_, _, _, _, _, (&String, &u64)>(self, &(a, b)),
            Packet::Logout => to.encode_fourth(self, &&()),
            _ => unreachable!(),
        }
    }

    ghost are_columns = { λ c. (refl, refl) };
}

impl Variants4<At<4>, At<8>, (u32, String), String, u16, u16> for Packet {
    ghost values = { (
      λ p. Packet.Welcome p.0 p.1,
      λ p. Packet.Refused p,
      λ p. Packet.Join p,
      λ p. Packet.Leave p,
    ) };

    ghost are = { (
      is_variant refl (λ p. refl) (λ p old new h. h) (λ p old h. h) (λ p old new h. h),
      is_variant refl (λ p. refl) (λ p old new h. h) (λ p old h. h) (λ p old new h. h),
      is_variant refl (λ p. refl) (λ p old new h. h) (λ p old h. h) (λ p old new h. h),
      is_variant refl (λ p. refl) (λ p old new h. h) (λ p old h. h) (λ p old new h. h),
      refl,
    ) };

    fn of_payload(payload: OneOf4<(u32, String), String, u16, u16>) -> Self
        ensures { result ≡ of_one_of_4 (λ p. Packet.Welcome p.0 p.1) (λ p. Packet.Refused p)
            (λ p. Packet.Join p) (λ p. Packet.Leave p) payload }
    {
        match payload {
            OneOf4::First((id, name)) => Packet::Welcome { id, name },
            OneOf4::Second(a) => Packet::Refused(a),
            OneOf4::Third(a) => Packet::Join(a),
            OneOf4::Fourth(a) => Packet::Leave(a),
        }
    }
}

type ColumnsOf4To7 = EncodersOf4<At<4>, (u32, String), String, u16, u16>;

impl WritesVariants<At<4>, At<8>, ColumnsOf4To7> for Packet {
    fn write(&self, to: &mut ColumnsOf4To7) -> Result<(), Error> {
        match self {
            Packet::Welcome { id, name } => to.encode_first::<_, _, _, _, _, (&u32, &String)>(
                self,
                &(id, name),
            ),
            Packet::Refused(a) => to.encode_second(self, &a),
            Packet::Join(a) => to.encode_third(self, &a),
            Packet::Leave(a) => to.encode_fourth(self, &a),
            _ => unreachable!(),
        }
    }

    ghost are_columns = { λ c. (refl, refl) };
}

impl Variants4<At<8>, At<12>, String, (u32, String), (i32, i32), i16> for Packet {
    ghost values = { (
      λ p. Packet.Say p,
      λ p. Packet.Whisper p.0 p.1,
      λ p. Packet.Move p.0 p.1,
      λ p. Packet.Turn p,
    ) };

    ghost are = { (
      is_variant refl (λ p. refl) (λ p old new h. h) (λ p old h. h) (λ p old new h. h),
      is_variant refl (λ p. refl) (λ p old new h. h) (λ p old h. h) (λ p old new h. h),
      is_variant refl (λ p. refl) (λ p old new h. h) (λ p old h. h) (λ p old new h. h),
      is_variant refl (λ p. refl) (λ p old new h. h) (λ p old h. h) (λ p old new h. h),
      refl,
    ) };

    fn of_payload(payload: OneOf4<String, (u32, String), (i32, i32), i16>) -> Self
        ensures { result ≡ of_one_of_4 (λ p. Packet.Say p) (λ p. Packet.Whisper p.0 p.1)
            (λ p. Packet.Move p.0 p.1) (λ p. Packet.Turn p) payload }
    {
        match payload {
            OneOf4::First(a) => Packet::Say(a),
            OneOf4::Second((to_, text)) => Packet::Whisper { to: to_, text },
            OneOf4::Third((x, y)) => Packet::Move { x, y },
            OneOf4::Fourth(a) => Packet::Turn(a),
        }
    }
}

type ColumnsOf8To11 = EncodersOf4<At<8>, String, (u32, String), (i32, i32), i16>;

impl WritesVariants<At<8>, At<12>, ColumnsOf8To11> for Packet {
    fn write(&self, to: &mut ColumnsOf8To11) -> Result<(), Error> {
        match self {
            Packet::Say(a) => to.encode_first(self, &a),
            Packet::Whisper { to: to_, text } => to.encode_second::<_, _, _, _, _, (&u32, &String)>(
                self,
                &(to_, text),
            ),
            Packet::Move { x, y } => to.encode_third::<_, _, _, _, _, (&i32, &i32)>(self, &(x, y)),
            Packet::Turn(a) => to.encode_fourth(self, &a),
            _ => unreachable!(),
        }
    }

    ghost are_columns = { λ c. (refl, refl) };
}

impl Variants4<At<12>, At<16>, u32, (u32, u16), u16, (u64, u16)> for Packet {
    ghost values = { (
      λ p. Packet.Attack p,
      λ p. Packet.Hit p.0 p.1,
      λ p. Packet.Heal p,
      λ p. Packet.Take p.0 p.1,
    ) };

    ghost are = { (
      is_variant refl (λ p. refl) (λ p old new h. h) (λ p old h. h) (λ p old new h. h),
      is_variant refl (λ p. refl) (λ p old new h. h) (λ p old h. h) (λ p old new h. h),
      is_variant refl (λ p. refl) (λ p old new h. h) (λ p old h. h) (λ p old new h. h),
      is_variant refl (λ p. refl) (λ p old new h. h) (λ p old h. h) (λ p old new h. h),
      refl,
    ) };

    fn of_payload(payload: OneOf4<u32, (u32, u16), u16, (u64, u16)>) -> Self
        ensures { result ≡ of_one_of_4 (λ p. Packet.Attack p) (λ p. Packet.Hit p.0 p.1)
            (λ p. Packet.Heal p) (λ p. Packet.Take p.0 p.1) payload }
    {
        match payload {
            OneOf4::First(a) => Packet::Attack(a),
            OneOf4::Second((by, damage)) => Packet::Hit { by, damage },
            OneOf4::Third(a) => Packet::Heal(a),
            OneOf4::Fourth((a, b)) => Packet::Take(a, b),
        }
    }
}

type ColumnsOf12To15 = EncodersOf4<At<12>, u32, (u32, u16), u16, (u64, u16)>;

impl WritesVariants<At<12>, At<16>, ColumnsOf12To15> for Packet {
    fn write(&self, to: &mut ColumnsOf12To15) -> Result<(), Error> {
        match self {
            Packet::Attack(a) => to.encode_first(self, &a),
            Packet::Hit { by, damage } => to.encode_second::<_, _, _, _, _, (&u32, &u16)>(
                self,
                &(by, damage),
            ),
            Packet::Heal(a) => to.encode_third(self, &a),
            Packet::Take(a, b) => to.encode_fourth::<_, _, _, _, _, (&u64, &u16)>(self, &(a, b)),
            _ => unreachable!(),
        }
    }

    ghost are_columns = { λ c. (refl, refl) };
}

impl Variants4<At<16>, At<20>, u64, Vec<u16>, Option<u32>, ()> for Packet {
    ghost values = { (
      λ p. Packet.Drop p,
      λ p. Packet.Inventory p,
      λ p. Packet.Score p,
      λ p. Packet.Quit,
    ) };

    ghost are = { (
      is_variant refl (λ p. refl) (λ p old new h. h) (λ p old h. h) (λ p old new h. h),
      is_variant refl (λ p. refl) (λ p old new h. h) (λ p old h. h) (λ p old new h. h),
      is_variant refl (λ p. refl) (λ p old new h. h) (λ p old h. h) (λ p old new h. h),
      is_variant refl (λ p. refl) (λ p old new h. h) (λ p old h. h) (λ p old new h. h),
      refl,
    ) };

    fn of_payload(payload: OneOf4<u64, Vec<u16>, Option<u32>, ()>) -> Self
        ensures { result ≡ of_one_of_4 (λ p. Packet.Drop p) (λ p. Packet.Inventory p)
            (λ p. Packet.Score p) (λ p. Packet.Quit) payload }
    {
        match payload {
            OneOf4::First(a) => Packet::Drop(a),
            OneOf4::Second(a) => Packet::Inventory(a),
            OneOf4::Third(a) => Packet::Score(a),
            OneOf4::Fourth(()) => Packet::Quit,
        }
    }
}

type ColumnsOf16To19 = EncodersOf4<At<16>, u64, Vec<u16>, Option<u32>, ()>;

impl WritesVariants<At<16>, At<20>, ColumnsOf16To19> for Packet {
    fn write(&self, to: &mut ColumnsOf16To19) -> Result<(), Error> {
        match self {
            Packet::Drop(a) => to.encode_first(self, &a),
            Packet::Inventory(a) => to.encode_second(self, &a),
            Packet::Score(a) => to.encode_third(self, &a),
            Packet::Quit => to.encode_fourth(self, &&()),
            _ => unreachable!(),
        }
    }

    ghost are_columns = { λ c. (refl, refl) };
}

type Columns = TwoGroups<
    At<12>,
    TwoGroups<
        At<8>,
        TwoGroups<At<4>, EncodersOf4<At<0>, (), (), (String, u64), ()>, ColumnsOf4To7>,
        ColumnsOf8To11,
    >,
    TwoGroups<At<16>, ColumnsOf12To15, ColumnsOf16To19>,
>;

type Decoders<'a> = TwoGroups<
    At<12>,
    TwoGroups<
        At<8>,
        TwoGroups<At<4>, PacketPayloads0To3<'a>, PacketPayloads4To7<'a>>,
        PacketPayloads8To11<'a>,
    >,
    TwoGroups<At<16>, PacketPayloads12To15<'a>, PacketPayloads16To19<'a>>,
>;

/// The columns of the payloads of `Packet`.
#[derive(Drop)]
pub struct PacketColumns(Columns);

impl HoldsVariantColumns for PacketColumns {
    ghost columns = { columns_in (λ c. c.0) ⟦<Columns as HoldsVariantColumns>⟧.columns };
}

impl VariantColumns for PacketColumns {
    fn new(alloc: Global) -> Self {
        PacketColumns(VariantColumns::new(alloc))
    }

    fn collect_all(&mut self, out: &mut Vec<u8>) -> Result<(), Error> {
        self.0.collect_all(out)
    }

    fn clear_all(&mut self) {
        self.0.clear_all();
    }
}

impl WritesVariants<At<0>, At<20>, PacketColumns> for Packet {
    fn write(&self, to: &mut PacketColumns) -> Result<(), Error> {
        WritesVariants::<At<0>, At<20>, Columns>::write(self, &mut to.0)
    }

    ghost are_columns = { λ c. (refl, refl) };
}

type Decoders0To3<'a> = NotCompared<DecodersOf4<'a, At<0>, (), (), (String, u64), ()>>;

/// The payloads of the variants 0 to 3 of `Packet`.
#[derive(Drop)]
pub struct PacketPayloads0To3<'a>(Decoders0To3<'a>);

impl<'a> HoldsPayloads for PacketPayloads0To3<'a> {
    ghost held = { payloads_in (λ d. d.0) ⟦<Decoders0To3<'a> as HoldsPayloads>⟧.held };
}

impl<'a> NewPayloads for PacketPayloads0To3<'a> {
    fn new(alloc: Global) -> Self {
        PacketPayloads0To3(NewPayloads::new(alloc))
    }
}

impl<'a> PayloadsOf<At<0>, At<4>, Packet> for PacketPayloads0To3<'a> {
    ghost counted = { record { shapes = refl; lists = λ d. refl } };
}

impl<'a> PayloadsView<'a, At<0>, At<4>, Packet> for PacketPayloads0To3<'a> {
    fn read_at(
        &mut self,
        number: usize,
        input: &mut &'a [u8],
        k: usize,
        strict: bool,
        free: &mut u128,
    ) -> Result<bool, Error> {
        PayloadsView::<At<0>, At<4>, Packet>::read_at(&mut self.0, number, input, k, strict, free)
    }
}

impl<'a> PayloadsDecoder<At<0>, At<4>, Packet> for PacketPayloads0To3<'a> {
    ghost makes_free = { ⟦<Decoders0To3<'a> as PayloadsDecoder<At<0>, At<4>, Packet>>⟧.makes_free };

    ghost same_shapes = { refl };

    fn decode_at(&mut self, number: usize) -> Result<Packet, Error> {
        PayloadsDecoder::<At<0>, At<4>, Packet>::decode_at(&mut self.0, number)
    }
}

type Decoders4To7<'a> = NotCompared<DecodersOf4<'a, At<4>, (u32, String), String, u16, u16>>;

/// The payloads of the variants 4 to 7 of `Packet`.
#[derive(Drop)]
pub struct PacketPayloads4To7<'a>(Decoders4To7<'a>);

impl<'a> HoldsPayloads for PacketPayloads4To7<'a> {
    ghost held = { payloads_in (λ d. d.0) ⟦<Decoders4To7<'a> as HoldsPayloads>⟧.held };
}

impl<'a> NewPayloads for PacketPayloads4To7<'a> {
    fn new(alloc: Global) -> Self {
        PacketPayloads4To7(NewPayloads::new(alloc))
    }
}

impl<'a> PayloadsOf<At<4>, At<8>, Packet> for PacketPayloads4To7<'a> {
    ghost counted = { record { shapes = refl; lists = λ d. refl } };
}

impl<'a> PayloadsView<'a, At<4>, At<8>, Packet> for PacketPayloads4To7<'a> {
    fn read_at(
        &mut self,
        number: usize,
        input: &mut &'a [u8],
        k: usize,
        strict: bool,
        free: &mut u128,
    ) -> Result<bool, Error> {
        PayloadsView::<At<4>, At<8>, Packet>::read_at(&mut self.0, number, input, k, strict, free)
    }
}

impl<'a> PayloadsDecoder<At<4>, At<8>, Packet> for PacketPayloads4To7<'a> {
    ghost makes_free = { ⟦<Decoders4To7<'a> as PayloadsDecoder<At<4>, At<8>, Packet>>⟧.makes_free };

    ghost same_shapes = { refl };

    fn decode_at(&mut self, number: usize) -> Result<Packet, Error> {
        PayloadsDecoder::<At<4>, At<8>, Packet>::decode_at(&mut self.0, number)
    }
}

type Decoders8To11<'a> = NotCompared<
    DecodersOf4<'a, At<8>, String, (u32, String), (i32, i32), i16>,
>;

/// The payloads of the variants 8 to 11 of `Packet`.
#[derive(Drop)]
pub struct PacketPayloads8To11<'a>(Decoders8To11<'a>);

impl<'a> HoldsPayloads for PacketPayloads8To11<'a> {
    ghost held = { payloads_in (λ d. d.0) ⟦<Decoders8To11<'a> as HoldsPayloads>⟧.held };
}

impl<'a> NewPayloads for PacketPayloads8To11<'a> {
    fn new(alloc: Global) -> Self {
        PacketPayloads8To11(NewPayloads::new(alloc))
    }
}

impl<'a> PayloadsOf<At<8>, At<12>, Packet> for PacketPayloads8To11<'a> {
    ghost counted = { record { shapes = refl; lists = λ d. refl } };
}

impl<'a> PayloadsView<'a, At<8>, At<12>, Packet> for PacketPayloads8To11<'a> {
    fn read_at(
        &mut self,
        number: usize,
        input: &mut &'a [u8],
        k: usize,
        strict: bool,
        free: &mut u128,
    ) -> Result<bool, Error> {
        PayloadsView::<At<8>, At<12>, Packet>::read_at(&mut self.0, number, input, k, strict, free)
    }
}

impl<'a> PayloadsDecoder<At<8>, At<12>, Packet> for PacketPayloads8To11<'a> {
    ghost makes_free = { ⟦<Decoders8To11<'a> as PayloadsDecoder<At<8>, At<12>, Packet>>⟧.makes_free };

    ghost same_shapes = { refl };

    fn decode_at(&mut self, number: usize) -> Result<Packet, Error> {
        PayloadsDecoder::<At<8>, At<12>, Packet>::decode_at(&mut self.0, number)
    }
}

type Decoders12To15<'a> = NotCompared<DecodersOf4<'a, At<12>, u32, (u32, u16), u16, (u64, u16)>>;

/// The payloads of the variants 12 to 15 of `Packet`.
#[derive(Drop)]
pub struct PacketPayloads12To15<'a>(Decoders12To15<'a>);

impl<'a> HoldsPayloads for PacketPayloads12To15<'a> {
    ghost held = { payloads_in (λ d. d.0) ⟦<Decoders12To15<'a> as HoldsPayloads>⟧.held };
}

impl<'a> NewPayloads for PacketPayloads12To15<'a> {
    fn new(alloc: Global) -> Self {
        PacketPayloads12To15(NewPayloads::new(alloc))
    }
}

impl<'a> PayloadsOf<At<12>, At<16>, Packet> for PacketPayloads12To15<'a> {
    ghost counted = { record { shapes = refl; lists = λ d. refl } };
}

impl<'a> PayloadsView<'a, At<12>, At<16>, Packet> for PacketPayloads12To15<'a> {
    fn read_at(
        &mut self,
        number: usize,
        input: &mut &'a [u8],
        k: usize,
        strict: bool,
        free: &mut u128,
    ) -> Result<bool, Error> {
        PayloadsView::<At<12>, At<16>, Packet>::read_at(&mut self.0, number, input, k, strict, free)
    }
}

impl<'a> PayloadsDecoder<At<12>, At<16>, Packet> for PacketPayloads12To15<'a> {
    ghost makes_free = { ⟦<Decoders12To15<'a> as PayloadsDecoder<At<12>, At<16>, Packet>>⟧.makes_free };

    ghost same_shapes = { refl };

    fn decode_at(&mut self, number: usize) -> Result<Packet, Error> {
        PayloadsDecoder::<At<12>, At<16>, Packet>::decode_at(&mut self.0, number)
    }
}

type Decoders16To19<'a> = NotCompared<DecodersOf4<'a, At<16>, u64, Vec<u16>, Option<u32>, ()>>;

/// The payloads of the variants 16 to 19 of `Packet`.
#[derive(Drop)]
pub struct PacketPayloads16To19<'a>(Decoders16To19<'a>);

impl<'a> HoldsPayloads for PacketPayloads16To19<'a> {
    ghost held = { payloads_in (λ d. d.0) ⟦<Decoders16To19<'a> as HoldsPayloads>⟧.held };
}

impl<'a> NewPayloads for PacketPayloads16To19<'a> {
    fn new(alloc: Global) -> Self {
        PacketPayloads16To19(NewPayloads::new(alloc))
    }
}

impl<'a> PayloadsOf<At<16>, At<20>, Packet> for PacketPayloads16To19<'a> {
    ghost counted = { record { shapes = refl; lists = λ d. refl } };
}

impl<'a> PayloadsView<'a, At<16>, At<20>, Packet> for PacketPayloads16To19<'a> {
    fn read_at(
        &mut self,
        number: usize,
        input: &mut &'a [u8],
        k: usize,
        strict: bool,
        free: &mut u128,
    ) -> Result<bool, Error> {
        PayloadsView::<At<16>, At<20>, Packet>::read_at(&mut self.0, number, input, k, strict, free)
    }
}

impl<'a> PayloadsDecoder<At<16>, At<20>, Packet> for PacketPayloads16To19<'a> {
    ghost makes_free = { ⟦<Decoders16To19<'a> as PayloadsDecoder<At<16>, At<20>, Packet>>⟧.makes_free };

    ghost same_shapes = { refl };

    fn decode_at(&mut self, number: usize) -> Result<Packet, Error> {
        PayloadsDecoder::<At<16>, At<20>, Packet>::decode_at(&mut self.0, number)
    }
}

impl HasEncoder for Packet {
    type Encoder = EnumEncoder<20, PacketColumns>;
}

impl<'a> HasDecoder<'a> for Packet {
    type Decoder = EnumDecoder<'a, 20, Packet, Decoders<'a>>;
}

impl DecodeOwned for Packet {}
