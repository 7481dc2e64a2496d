//! `Trophy` corresponds to the tuple of its fields. What is below its declaration was written by `scripts/new_type`.
ghost use Rattle.std.specs.Prelude.{IfSome};
ghost use Rattle.bitcode.specs.ByHand.{ReadsValue, data_as, field_alike, pair_alike, refl};

use bitcode::coder::{
    Buffer, ColumnFree, Decoder, EncodeMany, Encoder, HoldsColumns, HoldsData, NewDecoder, View,
};
use bitcode::own::{DecoderOfFields, HasField, InFields, Nth, Part, StructEncoder};
use bitcode::{ConvertFrom, DecodeOwned, Error, HasDecoder, HasEncoder, Shaped};
use std::alloc::Global;

/// What a player has won.
#[derive(Debug, PartialEq, Drop)]
pub struct Trophy {
    pub title: String,
    pub year: u16,
}

impl Shaped for Trophy {
    ghost data = { data_as (λ t. (t.title, t.year))
        (λ p. (record { title = p.0; year = p.1 }, refl)) (λ t. refl)
        ⟦<(String, u16) as Shaped>⟧.data };

    fn told(&self) {
        self.title.told();
        self.year.told();
    }
}

impl ConvertFrom<(String, u16)> for Trophy {
    fn convert_from(_alloc: Global, (title, year): (String, u16)) -> Result<Self, Error> {
        Ok(Trophy { title, year })
    }

    ghost same_shape = { refl };
}

impl HasField<0> for Trophy {
    type Field = String;

    ghost field = { λ t. t.title };

    fn field(&self) -> &String {
        &self.title
    }
}

impl HasField<1> for Trophy {
    type Field = u16;

    ghost field = { λ t. t.year };

    fn field(&self) -> &u16 {
        &self.year
    }
}

impl InFields for Trophy {
    type Numbers = (Nth<0>, Nth<1>);

    type Inside = (String, u16);

    ghost same_columns = { refl };

    ghost of_fields = { λ d h. h };

    ghost same_listings = { λ t. pair_alike field_alike field_alike };
}

type Held = StructEncoder<<(String, u16) as HasEncoder>::Encoder>;

/// The columns of `Trophy`.
#[derive(Drop)]
pub struct TrophyEncoder {
    fields: Held,
}

impl HoldsColumns for TrophyEncoder {
    ghost columns = { λ e. ⟦<Held as HoldsColumns>⟧.columns e.fields };

    ghost room = { λ e. ⟦<Held as HoldsColumns>⟧.room e.fields };

    ghost capacity = { λ e. ⟦<Held as HoldsColumns>⟧.capacity e.fields };

    ghost surely_overflows = { λ e n. ⊥ };

    ghost overflows = { λ e n. ⟦<Held as HoldsColumns>⟧.overflows e.fields n };

    ghost writes_free = { ⟦<Held as HoldsColumns>⟧.writes_free };
}

impl Buffer for TrophyEncoder {
    fn new(alloc: Global) -> Self {
        TrophyEncoder {
            fields: Buffer::new(alloc),
        }
    }

    fn reserve(&mut self, n: usize) -> Result<(), Error> {
        self.fields.reserve(n)
    }

    fn collect_into(&mut self, out: &mut Vec<u8>) -> Result<(), Error> {
        self.fields.collect_into(out)
    }

    fn clear(&mut self) {
        self.fields.clear();
    }
}

impl Encoder<Trophy> for TrophyEncoder {
    fn encode(&mut self, t: &Trophy) -> Result<(), Error> {
        Encoder::<Trophy>::encode(&mut self.fields, t)
    }

    fn write_directly(&mut self, t: &Trophy, out: &mut Vec<u8>) -> Result<bool, Error> {
        Encoder::<Trophy>::write_directly(&mut self.fields, t, out)
    }

    ghost of_shape = { λ e. refl };

    ghost surely = { λ e n h. absurd h };
}

impl EncodeMany<Trophy> for TrophyEncoder {
    fn encode_part_of_each<S, W: Part<S, Trophy>>(
        &mut self,
        items: &[S],
        which: &W,
        first: &Trophy,
    ) -> Result<(), Error> {
        EncodeMany::<Trophy>::encode_part_of_each(&mut self.fields, items, which, first)
    }

    ghost of_shape = { λ e. refl };

    ghost surely = { λ e n h. absurd h };
}

impl HasEncoder for Trophy {
    type Encoder = TrophyEncoder;
}

type Data<'a> = DecoderOfFields<'a, (String, u16)>;

/// The data of `Trophy`.
#[derive(Drop)]
pub struct TrophyDecoder<'a> {
    fields: Data<'a>,
}

impl<'a> HoldsData for TrophyDecoder<'a> {
    ghost shape = { ⟦<Data<'a> as HoldsData>⟧.shape };

    ghost held = { λ d. ⟦<Data<'a> as HoldsData>⟧.held d.fields };

    ghost owned = { λ d. ⟦<Data<'a> as HoldsData>⟧.owned d.fields };

    ghost free_inside = { λ d. ⟦<Data<'a> as HoldsData>⟧.free_inside d.fields };
}

impl<'a> NewDecoder for TrophyDecoder<'a> {
    fn new(alloc: Global) -> Self {
        TrophyDecoder {
            fields: NewDecoder::new(alloc),
        }
    }

    fn column_free(&self) -> ColumnFree {
        self.fields.column_free()
    }
}

impl<'a> View<'a> for TrophyDecoder<'a> {
    fn read(&mut self, input: &mut &'a [u8], k: usize, strict: bool) -> Result<bool, Error> {
        self.fields.read(input, k, strict)
    }
}

impl<'a> Decoder<Trophy> for TrophyDecoder<'a> {
    ghost makes_free = { ⟦<Data<'a> as Decoder<Trophy>>⟧.makes_free };

    fn decode(&mut self) -> Result<Trophy, Error> {
        self.fields.decode()
    }

    const READS_ONE: bool = true;

    #[inline(always)]
    fn read_one(alloc: Global, input: &mut &[u8]) -> Option<Trophy>
        ensures { IfSome result
            (λ t. ReadsValue ⟦<Trophy as Shaped>⟧.data.makes ⟦<Data<'a> as HoldsData>⟧.shape
            input.old.now t input.new.now) }
    {
        <Data<'a> as Decoder<Trophy>>::read_one(alloc, input)
    }

    ghost same_shape = { refl };
}

impl<'a> HasDecoder<'a> for Trophy {
    type Decoder = TrophyDecoder<'a>;
}

impl DecodeOwned for Trophy {}
