//! `Seat` corresponds to the tuple of its fields. What is below its declaration was written by `scripts/new_type`.
ghost use Rattle.std.specs.Prelude.{◌∷◌};
ghost use Rattle.bitcode.specs.ByHand.{[], ands_in_order, data_as, field_alike, key_as, pair_alike, refl};
ghost use Rattle.bitcode.specs.ByHand.{thens_in_order};

use bitcode::own::{DecoderOfFields, HasField, InFields, Nth};
use bitcode::{ConvertFrom, DecodeOwned, Error, HasDecoder, HasEncoder, Key, Shaped};
use std::alloc::Global;

/// A seat of a theatre.
#[derive(Debug, Clone, Copy, PartialEq, Eq, PartialOrd, Ord)]
pub struct Seat {
    pub level: u8,
    pub row: u16,
    pub place: u16,
}

impl Shaped for Seat {
    ghost data = { key_as (data_as (λ t. (t.level, t.row, t.place))
        (λ p. (record { level = p.0; row = p.1; place = p.2 }, refl)) (λ t. refl)
        ⟦<(u8, u16, u16) as Shaped>⟧.data) ⟦<Seat as PartialEq>⟧.eq ⟦<Seat as Ord>⟧.cmp
        (λ s t. ands_in_order (⟦<u8 as PartialEq>⟧.eq s.level t.level)
        ((⟦<u16 as PartialEq>⟧.eq s.row t.row) ∷ (⟦<u16 as PartialEq>⟧.eq s.place t.place) ∷ []))
        (λ s t. thens_in_order (⟦<u8 as Ord>⟧.cmp s.level t.level)
        ((⟦<u16 as Ord>⟧.cmp s.row t.row) ∷ (⟦<u16 as Ord>⟧.cmp s.place t.place) ∷ [])) };

    fn told(&self) {
        self.level.told();
        self.row.told();
        self.place.told();
    }
}

impl ConvertFrom<(u8, u16, u16)> for Seat {
    fn convert_from(_alloc: Global, (level, row, place): (u8, u16, u16)) -> Result<Self, Error> {
        Ok(Seat { level, row, place })
    }

    ghost same_shape = { refl };
}

impl HasField<0> for Seat {
    type Field = u8;

    ghost field = { λ t. t.level };

    fn field(&self) -> &u8 {
        &self.level
    }
}

impl HasField<1> for Seat {
    type Field = u16;

    ghost field = { λ t. t.row };

    fn field(&self) -> &u16 {
        &self.row
    }
}

impl HasField<2> for Seat {
    type Field = u16;

    ghost field = { λ t. t.place };

    fn field(&self) -> &u16 {
        &self.place
    }
}

impl InFields for Seat {
    type Numbers = (Nth<0>, (Nth<1>, Nth<2>));

    type Inside = (u8, u16, u16);

    ghost same_columns = { refl };

    ghost of_fields = { λ d h. h };

    ghost same_listings = { λ t. pair_alike field_alike (pair_alike field_alike field_alike) };
}

impl HasEncoder for Seat {
    type Encoder = <(u8, u16, u16) as HasEncoder>::Encoder;
}

impl<'a> HasDecoder<'a> for Seat {
    type Decoder = DecoderOfFields<'a, (u8, u16, u16)>;
}

impl DecodeOwned for Seat {}

impl Key for Seat {
    ghost equal = { refl };

    ghost ordered = { refl };
}
