//! `Reply` is written by the numbers of its variants. What is below its declaration was written by `scripts/new_type`.
ghost use Rattle.std.specs.Prelude.{◌≡◌};
ghost use Rattle.bitcode.specs.ByHand.{columns_in, each_variant, enum_data, is_variant, last_payload, of_one_of_4};
ghost use Rattle.bitcode.specs.ByHand.{payload_and, payloads_in, refl};
ghost use Rattle.bitcode_own_types.specs.declared.reply.Reply.{Reply};

use crate::message::Message;
use bitcode::own::{
    At, DecodersOf4, EncodersOf4, Enum, EnumDecoder, EnumEncoder, EnumOf, HoldsPayloads,
    HoldsVariantColumns, NewPayloads, OneOf4, PayloadsDecoder, PayloadsOf, PayloadsView, TwoGroups,
    VariantColumns, Variants4, WritesVariants, told_as,
};
use bitcode::{Error, HasDecoder, HasEncoder, Shaped};
use std::alloc::Global;
use std::collections::{BTreeMap, BTreeSet, HashMap};

/// What a server answers.
#[derive(Debug, PartialEq, Drop)]
pub enum Reply<'a> {
    Done,
    Text(&'a str),
    Names(Vec<&'a str>, Option<u32>),
    Counts(BTreeMap<u32, String>),
    Seen(BTreeSet<u16>),
    Told(Message<'a>),
    Found { by: HashMap<u16, String>, of: u64 },
    Gone,
}

impl<'a> Enum for Reply<'a> {
    ghost each = { each_variant (payload_and ⟦<() as Shaped>⟧.data
        (payload_and ⟦<&'a str as Shaped>⟧.data
        (payload_and ⟦<(Vec<&'a str>, Option<u32>) as Shaped>⟧.data
        (payload_and ⟦<BTreeMap<u32, String> as Shaped>⟧.data
        (payload_and ⟦<BTreeSet<u16> as Shaped>⟧.data (payload_and ⟦<Message<'a> as Shaped>⟧.data
        (payload_and ⟦<(HashMap<u16, String>, u64) as Shaped>⟧.data
        (last_payload ⟦<() as Shaped>⟧.data)))))))) refl (λ at. elim [
          | Reply.Done ↦ at 0 tt
          | Reply.Text a ↦ at 1 a
          | Reply.Names a b ↦ at 2 (a, b)
          | Reply.Counts a ↦ at 3 a
          | Reply.Seen a ↦ at 4 a
          | Reply.Told a ↦ at 5 a
          | Reply.Found a b ↦ at 6 (a, b)
          | Reply.Gone ↦ at 7 tt
        ]) (
          (λ p. (Reply.Done, refl)),
          (
            (λ p. (Reply.Text p, refl)),
            (
              (λ p. (Reply.Names p.0 p.1, refl)),
              (
                (λ p. (Reply.Counts p, refl)),
                (
                  (λ p. (Reply.Seen p, refl)),
                  (
                    (λ p. (Reply.Told p, refl)),
                    ((λ p. (Reply.Found p.0 p.1, refl)), λ p. (Reply.Gone, refl)),
                  ),
                ),
              ),
            ),
          ),
        ) (elim [
          | Reply.Done ↦ refl
          | Reply.Text a ↦ refl
          | Reply.Names a b ↦ refl
          | Reply.Counts a ↦ refl
          | Reply.Seen a ↦ refl
          | Reply.Told a ↦ refl
          | Reply.Found a b ↦ refl
          | Reply.Gone ↦ refl
        ]) };

    fn variant(&self) -> u8 {
        match self {
            Reply::Done => 0,
            Reply::Text(a) => told_as(1, &a),
            Reply::Names(a, b) => told_as(2, &(a, b)),
            Reply::Counts(a) => told_as(3, &a),
            Reply::Seen(a) => told_as(4, &a),
            Reply::Told(a) => told_as(5, &a),
            Reply::Found { by, of } => told_as(6, &(by, of)),
            Reply::Gone => 7,
        }
    }
}

impl<'a> Shaped for Reply<'a> {
    ghost data = { enum_data ⟦<Reply<'a> as Enum>⟧.each };

    fn told(&self) {
        let _number = self.variant();
    }
}

impl<'a> EnumOf<8> for Reply<'a> {
    ghost counted = { (refl, refl) };

    ghost lists_variants = { λ t d listed. listed };

    ghost makes_variants = { λ d t made. made };
}

impl<'a> Variants4<At<0>, At<4>, (), &'a str, (Vec<&'a str>, Option<u32>), BTreeMap<u32, String>>
    for Reply<'a> {
    ghost values = { (
      λ p. Reply.Done,
      λ p. Reply.Text p,
      λ p. Reply.Names p.0 p.1,
      λ p. Reply.Counts p,
    ) };

    ghost are = { (
      is_variant refl (λ p. refl) (λ p old new h. h) (λ p old h. h) (λ p old new h. h),
      is_variant refl (λ p. refl) (λ p old new h. h) (λ p old h. h) (λ p old new h. h),
      is_variant refl (λ p. refl) (λ p old new h. h) (λ p old h. h) (λ p old new h. h),
      is_variant refl (λ p. refl) (λ p old new h. h) (λ p old h. h) (λ p old new h. h),
      refl,
    ) };

    fn of_payload(
        payload: OneOf4<(), &'a str, (Vec<&'a str>, Option<u32>), BTreeMap<u32, String>>,
    ) -> Self
        ensures { result ≡ of_one_of_4 (λ p. Reply.Done) (λ p. Reply.Text p)
            (λ p. Reply.Names p.0 p.1) (λ p. Reply.Counts p) payload.entry }
    {
        match payload {
            OneOf4::First(()) => Reply::Done,
            OneOf4::Second(a) => Reply::Text(a),
            OneOf4::Third((a, b)) => Reply::Names(a, b),
            OneOf4::Fourth(a) => Reply::Counts(a),
        }
    }
}

type ColumnsOf0To3 = EncodersOf4<
    At<0>,
    (),
    &'static str,
    (Vec<&'static str>, Option<u32>),
    BTreeMap<u32, String>,
>;

impl<'a> WritesVariants<At<0>, At<4>, ColumnsOf0To3> for Reply<'a> {
    fn write(&self, to: &mut ColumnsOf0To3) -> Result<(), Error> {
        match self {
            Reply::Done => to.encode_first(self, &&()),
            Reply::Text(a) => to.encode_second(self, &a),
            Reply::Names(a, b) => to.encode_third::<_, _, _, _, _, (&Vec<&'a str>, &Option<u32>)>(
                self,
                &(a, b),
            ),
            Reply::Counts(a) => to.encode_fourth(self, &a),
            _ => unreachable!(),
        }
    }

    ghost are_columns = { λ c. (refl, refl) };
}

impl<'a> Variants4<At<4>, At<8>, BTreeSet<u16>, Message<'a>, (HashMap<u16, String>, u64), ()>
    for Reply<'a> {
    ghost values = { (
      λ p. Reply.Seen p,
      λ p. Reply.Told p,
      λ p. Reply.Found p.0 p.1,
      λ p. Reply.Gone,
    ) };

    ghost are = { (
      is_variant refl (λ p. refl) (λ p old new h. h) (λ p old h. h) (λ p old new h. h),
      is_variant refl (λ p. refl) (λ p old new h. h) (λ p old h. h) (λ p old new h. h),
      is_variant refl (λ p. refl) (λ p old new h. h) (λ p old h. h) (λ p old new h. h),
      is_variant refl (λ p. refl) (λ p old new h. h) (λ p old h. h) (λ p old new h. h),
      refl,
    ) };

    fn of_payload(
        payload: OneOf4<BTreeSet<u16>, Message<'a>, (HashMap<u16, String>, u64), ()>,
    ) -> Self
        ensures { result ≡ of_one_of_4 (λ p. Reply.Seen p) (λ p. Reply.Told p)
            (λ p. Reply.Found p.0 p.1) (λ p. Reply.Gone) payload.entry }
    {
        match payload {
            OneOf4::First(a) => Reply::Seen(a),
            OneOf4::Second(a) => Reply::Told(a),
            OneOf4::Third((by, of)) => Reply::Found { by, of },
            OneOf4::Fourth(()) => Reply::Gone,
        }
    }
}

type ColumnsOf4To7 = EncodersOf4<
    At<4>,
    BTreeSet<u16>,
    Message<'static>,
    (HashMap<u16, String>, u64),
    (),
>;

impl<'a> WritesVariants<At<4>, At<8>, ColumnsOf4To7> for Reply<'a> {
    fn write(&self, to: &mut ColumnsOf4To7) -> Result<(), Error> {
        match self {
            Reply::Seen(a) => to.encode_first(self, &a),
            Reply::Told(a) => to.encode_second(self, &a),
            Reply::Found { by, of } => to.encode_third::<
                _,
                _,
                _,
                _,
                _,
                (&HashMap<u16, String>, &u64),
            >(self, &(by, of)),
            Reply::Gone => to.encode_fourth(self, &&()),
            _ => unreachable!(),
        }
    }

    ghost are_columns = { λ c. (refl, refl) };
}

type Columns = TwoGroups<At<4>, ColumnsOf0To3, ColumnsOf4To7>;

type Decoders<'a> = TwoGroups<
    At<4>,
    DecodersOf4<'a, At<0>, (), &'a str, (Vec<&'a str>, Option<u32>), BTreeMap<u32, String>>,
    DecodersOf4<'a, At<4>, BTreeSet<u16>, Message<'a>, (HashMap<u16, String>, u64), ()>,
>;

/// The columns of the payloads of `Reply`.
#[derive(Drop)]
pub struct ReplyColumns(Columns);

impl HoldsVariantColumns for ReplyColumns {
    ghost columns = { columns_in (λ c. c.0) ⟦<Columns as HoldsVariantColumns>⟧.columns };
}

impl VariantColumns for ReplyColumns {
    fn new(alloc: Global) -> Self {
        ReplyColumns(VariantColumns::new(alloc))
    }

    fn collect_all(&mut self, out: &mut Vec<u8>) -> Result<(), Error> {
        self.0.collect_all(out)
    }

    fn clear_all(&mut self) {
        self.0.clear_all();
    }
}

impl<'a> WritesVariants<At<0>, At<8>, ReplyColumns> for Reply<'a> {
    fn write(&self, to: &mut ReplyColumns) -> Result<(), Error> {
        WritesVariants::<At<0>, At<8>, Columns>::write(self, &mut to.0)
    }

    ghost are_columns = { λ c. (refl, refl) };
}

/// The payloads that values of `Reply` are made of.
#[derive(Drop)]
pub struct ReplyPayloads<'a>(Decoders<'a>);

impl<'a> HoldsPayloads for ReplyPayloads<'a> {
    ghost held = { payloads_in (λ d. d.0) ⟦<Decoders<'a> as HoldsPayloads>⟧.held };
}

impl<'a> NewPayloads for ReplyPayloads<'a> {
    fn new(alloc: Global) -> Self {
        ReplyPayloads(NewPayloads::new(alloc))
    }
}

impl<'a> PayloadsOf<At<0>, At<8>, Reply<'a>> for ReplyPayloads<'a> {
    ghost counted = { record { shapes = refl; lists = λ d. refl } };
}

impl<'a> PayloadsView<'a, At<0>, At<8>, Reply<'a>> for ReplyPayloads<'a> {
    fn read_at(
        &mut self,
        number: usize,
        input: &mut &'a [u8],
        k: usize,
        strict: bool,
        free: &mut u128,
    ) -> Result<bool, Error> {
        PayloadsView::<At<0>, At<8>, Reply<'a>>::read_at(
            &mut self.0,
            number,
            input,
            k,
            strict,
            free,
        )
    }
}

impl<'a> PayloadsDecoder<At<0>, At<8>, Reply<'a>> for ReplyPayloads<'a> {
    ghost makes_free = { ⟦<Decoders<'a> as PayloadsDecoder<At<0>, At<8>, Reply<'a>>>⟧.makes_free };

    ghost same_shapes = { refl };

    fn decode_at(&mut self, number: usize) -> Result<Reply<'a>, Error> {
        PayloadsDecoder::<At<0>, At<8>, Reply<'a>>::decode_at(&mut self.0, number)
    }
}

impl<'a> HasEncoder for Reply<'a> {
    type Encoder = EnumEncoder<8, ReplyColumns>;
}

impl<'a> HasDecoder<'a> for Reply<'a> {
    type Decoder = EnumDecoder<'a, 8, Reply<'a>, ReplyPayloads<'a>>;
}
