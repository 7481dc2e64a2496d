//! `Account` corresponds to pairs of parts of its fields. What is below its declaration was written by
//! `scripts/new_type`.
ghost use Rattle.bitcode.specs.ByHand.{data_as, field_alike, lists_both, pair_alike, refl};

use crate::home::Home;
use crate::trophy::Trophy;
use bitcode::coder::{
    Buffer, ColumnFree, Decoder, EncodeMany, Encoder, HoldsColumns, HoldsData, NewDecoder, View,
};
use bitcode::own::{
    DecoderOfFields, HasField, InFields, Nth, Part, PartEncoder, PartOf, PartsEncoder,
    StructEncoder,
};
use bitcode::{ConvertFrom, Error, HasDecoder, HasEncoder, Shaped, TupleEncoder};
use std::alloc::Global;

/// A player's account, as a server sends it.
#[derive(Debug, PartialEq, Drop)]
pub struct Account<'a> {
    pub id: u64,
    pub name: String,
    pub country: &'a str,
    pub level: u8,
    pub active: bool,
    pub balance: i64,
    pub rating: Option<i16>,
    pub avatar: Vec<u8>,
    pub initial: char,
    pub tags: Vec<String>,
    pub home: Home,
    pub position: (i32, i32),
    pub best: Option<Trophy>,
    pub visits: u32,
    pub friends: u16,
    pub checksum: u128,
    pub rank: u8,
}

/// Fields of `Account`, from `id` to `active`.
#[derive(Drop)]
pub struct AccountPart0<'a> {
    pub id: u64,
    pub name: String,
    pub country: &'a str,
    pub level: u8,
    pub active: bool,
}

type Fields0<'a> = (u64, String, &'a str, u8, bool);

impl<'a> Shaped for AccountPart0<'a> {
    ghost data = { data_as (λ t. (t.id, t.name, t.country, t.level, t.active))
        (λ p. (record { id = p.0; name = p.1; country = p.2; level = p.3; active = p.4 }, refl))
        (λ t. refl) ⟦<Fields0<'a> as Shaped>⟧.data };

    fn told(&self) {
        self.id.told();
        self.name.told();
        self.country.told();
        self.level.told();
        self.active.told();
    }
}

impl<'a> ConvertFrom<Fields0<'a>> for AccountPart0<'a> {
    fn convert_from(
        _alloc: Global,
        (id, name, country, level, active): Fields0<'a>,
    ) -> Result<Self, Error> {
        Ok(AccountPart0 {
            id,
            name,
            country,
            level,
            active,
        })
    }

    ghost same_shape = { refl };
}

type Data0<'a> = DecoderOfFields<'a, Fields0<'a>>;

/// The data of `AccountPart0`.
#[derive(Drop)]
pub struct AccountPart0Decoder<'a> {
    fields: Data0<'a>,
}

impl<'a> HoldsData for AccountPart0Decoder<'a> {
    ghost shape = { ⟦<Data0<'a> as HoldsData>⟧.shape };

    ghost held = { λ d. ⟦<Data0<'a> as HoldsData>⟧.held d.fields };

    ghost owned = { λ d. ⟦<Data0<'a> as HoldsData>⟧.owned d.fields };

    ghost free_inside = { λ d. ⟦<Data0<'a> as HoldsData>⟧.free_inside d.fields };
}

impl<'a> NewDecoder for AccountPart0Decoder<'a> {
    fn new(alloc: Global) -> Self {
        AccountPart0Decoder {
            fields: NewDecoder::new(alloc),
        }
    }

    fn column_free(&self) -> ColumnFree {
        self.fields.column_free()
    }
}

impl<'a> View<'a> for AccountPart0Decoder<'a> {
    fn read(&mut self, input: &mut &'a [u8], k: usize, strict: bool) -> Result<bool, Error> {
        self.fields.read(input, k, strict)
    }
}

impl<'a> Decoder<AccountPart0<'a>> for AccountPart0Decoder<'a> {
    ghost makes_free = { ⟦<Data0<'a> as Decoder<AccountPart0<'a>>>⟧.makes_free };

    fn decode(&mut self) -> Result<AccountPart0<'a>, Error> {
        self.fields.decode()
    }

    ghost same_shape = { refl };
}

impl<'a> HasDecoder<'a> for AccountPart0<'a> {
    type Decoder = AccountPart0Decoder<'a>;
}

/// Fields of `Account`, from `balance` to `home`.
#[derive(Drop)]
pub struct AccountPart1 {
    pub balance: i64,
    pub rating: Option<i16>,
    pub avatar: Vec<u8>,
    pub initial: char,
    pub tags: Vec<String>,
    pub home: Home,
}

type Fields1 = (i64, Option<i16>, Vec<u8>, char, Vec<String>, Home);

impl Shaped for AccountPart1 {
    ghost data = { data_as (λ t. (t.balance, t.rating, t.avatar, t.initial, t.tags, t.home)) (λ p. (
      record { balance = p.0; rating = p.1; avatar = p.2; initial = p.3; tags = p.4; home = p.5 },
      refl,
    )) (λ t. refl) ⟦<Fields1 as Shaped>⟧.data };

    fn told(&self) {
        self.balance.told();
        self.rating.told();
        self.avatar.told();
        self.initial.told();
        self.tags.told();
        self.home.told();
    }
}

impl ConvertFrom<Fields1> for AccountPart1 {
    fn convert_from(
        _alloc: Global,
        (balance, rating, avatar, initial, tags, home): Fields1,
    ) -> Result<Self, Error> {
        Ok(AccountPart1 {
            balance,
            rating,
            avatar,
            initial,
            tags,
            home,
        })
    }

    ghost same_shape = { refl };
}

type Data1<'a> = DecoderOfFields<'a, Fields1>;

/// The data of `AccountPart1`.
#[derive(Drop)]
pub struct AccountPart1Decoder<'a> {
    fields: Data1<'a>,
}

impl<'a> HoldsData for AccountPart1Decoder<'a> {
    ghost shape = { ⟦<Data1<'a> as HoldsData>⟧.shape };

    ghost held = { λ d. ⟦<Data1<'a> as HoldsData>⟧.held d.fields };

    ghost owned = { λ d. ⟦<Data1<'a> as HoldsData>⟧.owned d.fields };

    ghost free_inside = { λ d. ⟦<Data1<'a> as HoldsData>⟧.free_inside d.fields };
}

impl<'a> NewDecoder for AccountPart1Decoder<'a> {
    fn new(alloc: Global) -> Self {
        AccountPart1Decoder {
            fields: NewDecoder::new(alloc),
        }
    }

    fn column_free(&self) -> ColumnFree {
        self.fields.column_free()
    }
}

impl<'a> View<'a> for AccountPart1Decoder<'a> {
    fn read(&mut self, input: &mut &'a [u8], k: usize, strict: bool) -> Result<bool, Error> {
        self.fields.read(input, k, strict)
    }
}

impl<'a> Decoder<AccountPart1> for AccountPart1Decoder<'a> {
    ghost makes_free = { ⟦<Data1<'a> as Decoder<AccountPart1>>⟧.makes_free };

    fn decode(&mut self) -> Result<AccountPart1, Error> {
        self.fields.decode()
    }

    ghost same_shape = { refl };
}

impl<'a> HasDecoder<'a> for AccountPart1 {
    type Decoder = AccountPart1Decoder<'a>;
}

/// Fields of `Account`, from `position` to `rank`.
#[derive(Drop)]
pub struct AccountPart2 {
    pub position: (i32, i32),
    pub best: Option<Trophy>,
    pub visits: u32,
    pub friends: u16,
    pub checksum: u128,
    pub rank: u8,
}

type Fields2 = ((i32, i32), Option<Trophy>, u32, u16, u128, u8);

impl Shaped for AccountPart2 {
    ghost data = { data_as (λ t. (t.position, t.best, t.visits, t.friends, t.checksum, t.rank))
        (λ p. (
          record {
            position = p.0;
            best = p.1;
            visits = p.2;
            friends = p.3;
            checksum = p.4;
            rank = p.5;
          },
          refl,
        )) (λ t. refl) ⟦<Fields2 as Shaped>⟧.data };

    fn told(&self) {
        self.position.told();
        self.best.told();
        self.visits.told();
        self.friends.told();
        self.checksum.told();
        self.rank.told();
    }
}

impl ConvertFrom<Fields2> for AccountPart2 {
    fn convert_from(
        _alloc: Global,
        (position, best, visits, friends, checksum, rank): Fields2,
    ) -> Result<Self, Error> {
        Ok(AccountPart2 {
            position,
            best,
            visits,
            friends,
            checksum,
            rank,
        })
    }

    ghost same_shape = { refl };
}

type Data2<'a> = DecoderOfFields<'a, Fields2>;

/// The data of `AccountPart2`.
#[derive(Drop)]
pub struct AccountPart2Decoder<'a> {
    fields: Data2<'a>,
}

impl<'a> HoldsData for AccountPart2Decoder<'a> {
    ghost shape = { ⟦<Data2<'a> as HoldsData>⟧.shape };

    ghost held = { λ d. ⟦<Data2<'a> as HoldsData>⟧.held d.fields };

    ghost owned = { λ d. ⟦<Data2<'a> as HoldsData>⟧.owned d.fields };

    ghost free_inside = { λ d. ⟦<Data2<'a> as HoldsData>⟧.free_inside d.fields };
}

impl<'a> NewDecoder for AccountPart2Decoder<'a> {
    fn new(alloc: Global) -> Self {
        AccountPart2Decoder {
            fields: NewDecoder::new(alloc),
        }
    }

    fn column_free(&self) -> ColumnFree {
        self.fields.column_free()
    }
}

impl<'a> View<'a> for AccountPart2Decoder<'a> {
    fn read(&mut self, input: &mut &'a [u8], k: usize, strict: bool) -> Result<bool, Error> {
        self.fields.read(input, k, strict)
    }
}

impl<'a> Decoder<AccountPart2> for AccountPart2Decoder<'a> {
    ghost makes_free = { ⟦<Data2<'a> as Decoder<AccountPart2>>⟧.makes_free };

    fn decode(&mut self) -> Result<AccountPart2, Error> {
        self.fields.decode()
    }

    ghost same_shape = { refl };
}

impl<'a> HasDecoder<'a> for AccountPart2 {
    type Decoder = AccountPart2Decoder<'a>;
}

type Parts<'a> = (AccountPart0<'a>, (AccountPart1, AccountPart2));

impl<'a> Shaped for Account<'a> {
    ghost data = { data_as (λ t. (
      record { id = t.id; name = t.name; country = t.country; level = t.level; active = t.active },
      (
        record {
          balance = t.balance;
          rating = t.rating;
          avatar = t.avatar;
          initial = t.initial;
          tags = t.tags;
          home = t.home;
        },
        record {
          position = t.position;
          best = t.best;
          visits = t.visits;
          friends = t.friends;
          checksum = t.checksum;
          rank = t.rank;
        },
      ),
    )) (λ p. (
      record {
        id = p.0.id;
        name = p.0.name;
        country = p.0.country;
        level = p.0.level;
        active = p.0.active;
        balance = p.1.0.balance;
        rating = p.1.0.rating;
        avatar = p.1.0.avatar;
        initial = p.1.0.initial;
        tags = p.1.0.tags;
        home = p.1.0.home;
        position = p.1.1.position;
        best = p.1.1.best;
        visits = p.1.1.visits;
        friends = p.1.1.friends;
        checksum = p.1.1.checksum;
        rank = p.1.1.rank;
      },
      refl,
    )) (λ t. refl) ⟦<Parts<'a> as Shaped>⟧.data };

    fn told(&self) {
        self.id.told();
        self.name.told();
        self.country.told();
        self.level.told();
        self.active.told();
        self.balance.told();
        self.rating.told();
        self.avatar.told();
        self.initial.told();
        self.tags.told();
        self.home.told();
        self.position.told();
        self.best.told();
        self.visits.told();
        self.friends.told();
        self.checksum.told();
        self.rank.told();
    }
}

impl<'a> ConvertFrom<Parts<'a>> for Account<'a> {
    fn convert_from(_alloc: Global, (part0, (part1, part2)): Parts<'a>) -> Result<Self, Error> {
        let AccountPart0 {
            id,
            name,
            country,
            level,
            active,
        } = part0;
        let AccountPart1 {
            balance,
            rating,
            avatar,
            initial,
            tags,
            home,
        } = part1;
        let AccountPart2 {
            position,
            best,
            visits,
            friends,
            checksum,
            rank,
        } = part2;
        Ok(Account {
            id,
            name,
            country,
            level,
            active,
            balance,
            rating,
            avatar,
            initial,
            tags,
            home,
            position,
            best,
            visits,
            friends,
            checksum,
            rank,
        })
    }

    ghost same_shape = { refl };
}

impl<'a> HasField<0> for Account<'a> {
    type Field = u64;

    ghost field = { λ t. t.id };

    fn field(&self) -> &u64 {
        &self.id
    }
}

impl<'a> HasField<1> for Account<'a> {
    type Field = String;

    ghost field = { λ t. t.name };

    fn field(&self) -> &String {
        &self.name
    }
}

impl<'a> HasField<2> for Account<'a> {
    type Field = &'a str;

    ghost field = { λ t. t.country };

    fn field(&self) -> &&'a str {
        &self.country
    }
}

impl<'a> HasField<3> for Account<'a> {
    type Field = u8;

    ghost field = { λ t. t.level };

    fn field(&self) -> &u8 {
        &self.level
    }
}

impl<'a> HasField<4> for Account<'a> {
    type Field = bool;

    ghost field = { λ t. t.active };

    fn field(&self) -> &bool {
        &self.active
    }
}

impl<'a> HasField<5> for Account<'a> {
    type Field = i64;

    ghost field = { λ t. t.balance };

    fn field(&self) -> &i64 {
        &self.balance
    }
}

impl<'a> HasField<6> for Account<'a> {
    type Field = Option<i16>;

    ghost field = { λ t. t.rating };

    fn field(&self) -> &Option<i16> {
        &self.rating
    }
}

impl<'a> HasField<7> for Account<'a> {
    type Field = Vec<u8>;

    ghost field = { λ t. t.avatar };

    fn field(&self) -> &Vec<u8> {
        &self.avatar
    }
}

impl<'a> HasField<8> for Account<'a> {
    type Field = char;

    ghost field = { λ t. t.initial };

    fn field(&self) -> &char {
        &self.initial
    }
}

impl<'a> HasField<9> for Account<'a> {
    type Field = Vec<String>;

    ghost field = { λ t. t.tags };

    fn field(&self) -> &Vec<String> {
        &self.tags
    }
}

impl<'a> HasField<10> for Account<'a> {
    type Field = Home;

    ghost field = { λ t. t.home };

    fn field(&self) -> &Home {
        &self.home
    }
}

impl<'a> HasField<11> for Account<'a> {
    type Field = (i32, i32);

    ghost field = { λ t. t.position };

    fn field(&self) -> &(i32, i32) {
        &self.position
    }
}

impl<'a> HasField<12> for Account<'a> {
    type Field = Option<Trophy>;

    ghost field = { λ t. t.best };

    fn field(&self) -> &Option<Trophy> {
        &self.best
    }
}

impl<'a> HasField<13> for Account<'a> {
    type Field = u32;

    ghost field = { λ t. t.visits };

    fn field(&self) -> &u32 {
        &self.visits
    }
}

impl<'a> HasField<14> for Account<'a> {
    type Field = u16;

    ghost field = { λ t. t.friends };

    fn field(&self) -> &u16 {
        &self.friends
    }
}

impl<'a> HasField<15> for Account<'a> {
    type Field = u128;

    ghost field = { λ t. t.checksum };

    fn field(&self) -> &u128 {
        &self.checksum
    }
}

impl<'a> HasField<16> for Account<'a> {
    type Field = u8;

    ghost field = { λ t. t.rank };

    fn field(&self) -> &u8 {
        &self.rank
    }
}

type Pairs0<'a> = ((u64, String), (&'a str, (u8, bool)));

type Held0<'a> = <Pairs0<'a> as HasEncoder>::Encoder;

type Numbers0 = ((Nth<0>, Nth<1>), (Nth<2>, (Nth<3>, Nth<4>)));

/// The columns of `AccountPart0`.
#[derive(Drop)]
pub struct AccountPart0Encoder {
    fields: Held0<'static>,
}

impl HoldsColumns for AccountPart0Encoder {
    ghost columns = { λ e. ⟦<Held0<'static> as HoldsColumns>⟧.columns e.fields };

    ghost room = { λ e. ⟦<Held0<'static> as HoldsColumns>⟧.room e.fields };

    ghost capacity = { λ e. ⟦<Held0<'static> as HoldsColumns>⟧.capacity e.fields };

    ghost surely_overflows = { λ e n. ⊥ };

    ghost overflows = { λ e n. ⟦<Held0<'static> as HoldsColumns>⟧.overflows e.fields n };

    ghost writes_free = { ⟦<Held0<'static> as HoldsColumns>⟧.writes_free };
}

impl Buffer for AccountPart0Encoder {
    fn new(alloc: Global) -> Self {
        AccountPart0Encoder {
            fields: Buffer::new(alloc),
        }
    }

    fn reserve(&mut self, n: usize) -> Result<(), Error> {
        self.fields.reserve(n)
    }

    fn collect_into(&mut self, out: &mut Vec<u8>) -> Result<(), Error> {
        self.fields.collect_into(out)
    }

    fn clear(&mut self) {
        self.fields.clear();
    }
}

impl<'a> PartOf<Account<'a>> for AccountPart0<'a> {
    ghost shape = { ⟦<Pairs0<'static> as Shaped>⟧.data.shape };

    ghost lists = { lists_both (lists_both (λ t d. ⟦<u64 as Shaped>⟧.data.lists t.id d)
        (λ t d. ⟦<String as Shaped>⟧.data.lists t.name d))
        (lists_both (λ t d. ⟦<&'a str as Shaped>⟧.data.lists t.country d)
        (lists_both (λ t d. ⟦<u8 as Shaped>⟧.data.lists t.level d)
        (λ t d. ⟦<bool as Shaped>⟧.data.lists t.active d))) };
}

impl<'a> PartEncoder<Account<'a>, AccountPart0<'a>> for AccountPart0Encoder {
    fn encode_part(&mut self, whole: &Account<'a>) -> Result<(), Error> {
        PartEncoder::<Account<'a>, Numbers0>::encode_part(&mut self.fields, whole)
    }

    fn write_part(&mut self, whole: &Account<'a>, out: &mut Vec<u8>) -> Result<(), Error> {
        PartEncoder::<Account<'a>, Numbers0>::write_part(&mut self.fields, whole, out)
    }

    ghost of_shape = { λ e. refl };

    ghost surely = { λ e n h. absurd h };
}

impl<'a> PartsEncoder<Account<'a>, AccountPart0<'a>> for AccountPart0Encoder {
    fn encode_part_in_each<S, W: Part<S, Account<'a>>>(
        &mut self,
        items: &[S],
        which: &W,
    ) -> Result<(), Error> {
        PartsEncoder::<Account<'a>, Numbers0>::encode_part_in_each(&mut self.fields, items, which)
    }

    ghost of_shape = { λ e. refl };

    ghost surely = { λ e n h. absurd h };
}

type Pairs1 = ((i64, (Option<i16>, Vec<u8>)), (char, (Vec<String>, Home)));

type Held1 = <Pairs1 as HasEncoder>::Encoder;

type Numbers1 = ((Nth<5>, (Nth<6>, Nth<7>)), (Nth<8>, (Nth<9>, Nth<10>)));

/// The columns of `AccountPart1`.
#[derive(Drop)]
pub struct AccountPart1Encoder {
    fields: Held1,
}

impl HoldsColumns for AccountPart1Encoder {
    ghost columns = { λ e. ⟦<Held1 as HoldsColumns>⟧.columns e.fields };

    ghost room = { λ e. ⟦<Held1 as HoldsColumns>⟧.room e.fields };

    ghost capacity = { λ e. ⟦<Held1 as HoldsColumns>⟧.capacity e.fields };

    ghost surely_overflows = { λ e n. ⊥ };

    ghost overflows = { λ e n. ⟦<Held1 as HoldsColumns>⟧.overflows e.fields n };

    ghost writes_free = { ⟦<Held1 as HoldsColumns>⟧.writes_free };
}

impl Buffer for AccountPart1Encoder {
    fn new(alloc: Global) -> Self {
        AccountPart1Encoder {
            fields: Buffer::new(alloc),
        }
    }

    fn reserve(&mut self, n: usize) -> Result<(), Error> {
        self.fields.reserve(n)
    }

    fn collect_into(&mut self, out: &mut Vec<u8>) -> Result<(), Error> {
        self.fields.collect_into(out)
    }

    fn clear(&mut self) {
        self.fields.clear();
    }
}

impl<'a> PartOf<Account<'a>> for AccountPart1 {
    ghost shape = { ⟦<Pairs1 as Shaped>⟧.data.shape };

    ghost lists = { lists_both (lists_both (λ t d. ⟦<i64 as Shaped>⟧.data.lists t.balance d)
        (lists_both (λ t d. ⟦<Option<i16> as Shaped>⟧.data.lists t.rating d)
        (λ t d. ⟦<Vec<u8> as Shaped>⟧.data.lists t.avatar d)))
        (lists_both (λ t d. ⟦<char as Shaped>⟧.data.lists t.initial d)
        (lists_both (λ t d. ⟦<Vec<String> as Shaped>⟧.data.lists t.tags d)
        (λ t d. ⟦<Home as Shaped>⟧.data.lists t.home d))) };
}

impl<'a> PartEncoder<Account<'a>, AccountPart1> for AccountPart1Encoder {
    fn encode_part(&mut self, whole: &Account<'a>) -> Result<(), Error> {
        PartEncoder::<Account<'a>, Numbers1>::encode_part(&mut self.fields, whole)
    }

    fn write_part(&mut self, whole: &Account<'a>, out: &mut Vec<u8>) -> Result<(), Error> {
        PartEncoder::<Account<'a>, Numbers1>::write_part(&mut self.fields, whole, out)
    }

    ghost of_shape = { λ e. refl };

    ghost surely = { λ e n h. absurd h };
}

impl<'a> PartsEncoder<Account<'a>, AccountPart1> for AccountPart1Encoder {
    fn encode_part_in_each<S, W: Part<S, Account<'a>>>(
        &mut self,
        items: &[S],
        which: &W,
    ) -> Result<(), Error> {
        PartsEncoder::<Account<'a>, Numbers1>::encode_part_in_each(&mut self.fields, items, which)
    }

    ghost of_shape = { λ e. refl };

    ghost surely = { λ e n h. absurd h };
}

type Pairs2 = (((i32, i32), (Option<Trophy>, u32)), (u16, (u128, u8)));

type Held2 = <Pairs2 as HasEncoder>::Encoder;

type Numbers2 = ((Nth<11>, (Nth<12>, Nth<13>)), (Nth<14>, (Nth<15>, Nth<16>)));

/// The columns of `AccountPart2`.
#[derive(Drop)]
pub struct AccountPart2Encoder {
    fields: Held2,
}

impl HoldsColumns for AccountPart2Encoder {
    ghost columns = { λ e. ⟦<Held2 as HoldsColumns>⟧.columns e.fields };

    ghost room = { λ e. ⟦<Held2 as HoldsColumns>⟧.room e.fields };

    ghost capacity = { λ e. ⟦<Held2 as HoldsColumns>⟧.capacity e.fields };

    ghost surely_overflows = { λ e n. ⊥ };

    ghost overflows = { λ e n. ⟦<Held2 as HoldsColumns>⟧.overflows e.fields n };

    ghost writes_free = { ⟦<Held2 as HoldsColumns>⟧.writes_free };
}

impl Buffer for AccountPart2Encoder {
    fn new(alloc: Global) -> Self {
        AccountPart2Encoder {
            fields: Buffer::new(alloc),
        }
    }

    fn reserve(&mut self, n: usize) -> Result<(), Error> {
        self.fields.reserve(n)
    }

    fn collect_into(&mut self, out: &mut Vec<u8>) -> Result<(), Error> {
        self.fields.collect_into(out)
    }

    fn clear(&mut self) {
        self.fields.clear();
    }
}

impl<'a> PartOf<Account<'a>> for AccountPart2 {
    ghost shape = { ⟦<Pairs2 as Shaped>⟧.data.shape };

    ghost lists = { lists_both (lists_both (λ t d. ⟦<(i32, i32) as Shaped>⟧.data.lists t.position d)
        (lists_both (λ t d. ⟦<Option<Trophy> as Shaped>⟧.data.lists t.best d)
        (λ t d. ⟦<u32 as Shaped>⟧.data.lists t.visits d)))
        (lists_both (λ t d. ⟦<u16 as Shaped>⟧.data.lists t.friends d)
        (lists_both (λ t d. ⟦<u128 as Shaped>⟧.data.lists t.checksum d)
        (λ t d. ⟦<u8 as Shaped>⟧.data.lists t.rank d))) };
}

impl<'a> PartEncoder<Account<'a>, AccountPart2> for AccountPart2Encoder {
    fn encode_part(&mut self, whole: &Account<'a>) -> Result<(), Error> {
        PartEncoder::<Account<'a>, Numbers2>::encode_part(&mut self.fields, whole)
    }

    fn write_part(&mut self, whole: &Account<'a>, out: &mut Vec<u8>) -> Result<(), Error> {
        PartEncoder::<Account<'a>, Numbers2>::write_part(&mut self.fields, whole, out)
    }

    ghost of_shape = { λ e. refl };

    ghost surely = { λ e n h. absurd h };
}

impl<'a> PartsEncoder<Account<'a>, AccountPart2> for AccountPart2Encoder {
    fn encode_part_in_each<S, W: Part<S, Account<'a>>>(
        &mut self,
        items: &[S],
        which: &W,
    ) -> Result<(), Error> {
        PartsEncoder::<Account<'a>, Numbers2>::encode_part_in_each(&mut self.fields, items, which)
    }

    ghost of_shape = { λ e. refl };

    ghost surely = { λ e n h. absurd h };
}

impl<'a> InFields for Account<'a> {
    type Numbers = (AccountPart0<'a>, (AccountPart1, AccountPart2));

    type Inside = Parts<'a>;

    ghost same_columns = { refl };

    ghost of_fields = { λ d h. h };

    ghost same_listings = { λ t. pair_alike (pair_alike (pair_alike field_alike field_alike)
        (pair_alike field_alike (pair_alike field_alike field_alike)))
        (pair_alike (pair_alike (pair_alike field_alike (pair_alike field_alike field_alike))
        (pair_alike field_alike (pair_alike field_alike field_alike)))
        (pair_alike (pair_alike field_alike (pair_alike field_alike field_alike))
        (pair_alike field_alike (pair_alike field_alike field_alike)))) };
}

type Held = StructEncoder<
    TupleEncoder<AccountPart0Encoder, TupleEncoder<AccountPart1Encoder, AccountPart2Encoder>>,
>;

/// The columns of `Account`.
#[derive(Drop)]
pub struct AccountEncoder {
    fields: Held,
}

impl HoldsColumns for AccountEncoder {
    ghost columns = { λ e. ⟦<Held as HoldsColumns>⟧.columns e.fields };

    ghost room = { λ e. ⟦<Held as HoldsColumns>⟧.room e.fields };

    ghost capacity = { λ e. ⟦<Held as HoldsColumns>⟧.capacity e.fields };

    ghost surely_overflows = { λ e n. ⊥ };

    ghost overflows = { λ e n. ⟦<Held as HoldsColumns>⟧.overflows e.fields n };

    ghost writes_free = { ⟦<Held as HoldsColumns>⟧.writes_free };
}

impl Buffer for AccountEncoder {
    fn new(alloc: Global) -> Self {
        AccountEncoder {
            fields: Buffer::new(alloc),
        }
    }

    fn reserve(&mut self, n: usize) -> Result<(), Error> {
        self.fields.reserve(n)
    }

    fn collect_into(&mut self, out: &mut Vec<u8>) -> Result<(), Error> {
        self.fields.collect_into(out)
    }

    fn clear(&mut self) {
        self.fields.clear();
    }
}

impl<'a> Encoder<Account<'a>> for AccountEncoder {
    fn encode(&mut self, t: &Account<'a>) -> Result<(), Error> {
        Encoder::<Account<'a>>::encode(&mut self.fields, t)
    }

    fn write_directly(&mut self, t: &Account<'a>, out: &mut Vec<u8>) -> Result<bool, Error> {
        Encoder::<Account<'a>>::write_directly(&mut self.fields, t, out)
    }

    ghost of_shape = { λ e. refl };

    ghost surely = { λ e n h. absurd h };
}

impl<'a> EncodeMany<Account<'a>> for AccountEncoder {
    fn encode_part_of_each<S, W: Part<S, Account<'a>>>(
        &mut self,
        items: &[S],
        which: &W,
        first: &Account<'a>,
    ) -> Result<(), Error> {
        EncodeMany::<Account<'a>>::encode_part_of_each(&mut self.fields, items, which, first)
    }

    ghost of_shape = { λ e. refl };

    ghost surely = { λ e n h. absurd h };
}

impl<'a> HasEncoder for Account<'a> {
    type Encoder = AccountEncoder;
}

type Data<'a> = DecoderOfFields<'a, Parts<'a>>;

/// The data of `Account`.
#[derive(Drop)]
pub struct AccountDecoder<'a> {
    fields: Data<'a>,
}

impl<'a> HoldsData for AccountDecoder<'a> {
    ghost shape = { ⟦<Data<'a> as HoldsData>⟧.shape };

    ghost held = { λ d. ⟦<Data<'a> as HoldsData>⟧.held d.fields };

    ghost owned = { λ d. ⟦<Data<'a> as HoldsData>⟧.owned d.fields };

    ghost free_inside = { λ d. ⟦<Data<'a> as HoldsData>⟧.free_inside d.fields };
}

impl<'a> NewDecoder for AccountDecoder<'a> {
    fn new(alloc: Global) -> Self {
        AccountDecoder {
            fields: NewDecoder::new(alloc),
        }
    }

    fn column_free(&self) -> ColumnFree {
        self.fields.column_free()
    }
}

impl<'a> View<'a> for AccountDecoder<'a> {
    fn read(&mut self, input: &mut &'a [u8], k: usize, strict: bool) -> Result<bool, Error> {
        self.fields.read(input, k, strict)
    }
}

impl<'a> Decoder<Account<'a>> for AccountDecoder<'a> {
    ghost makes_free = { ⟦<Data<'a> as Decoder<Account<'a>>>⟧.makes_free };

    fn decode(&mut self) -> Result<Account<'a>, Error> {
        self.fields.decode()
    }

    ghost same_shape = { refl };
}

impl<'a> HasDecoder<'a> for Account<'a> {
    type Decoder = AccountDecoder<'a>;
}
