//! `Item` corresponds to the tuple of its fields. What is below its declaration was written by `scripts/new_type`.
ghost use Rattle.bitcode.specs.ByHand.{data_as, field_alike, pair_alike, refl};

use bitcode::own::{DecoderOfFields, HasField, InFields, Nth, StructEncoder};
use bitcode::{ConvertFrom, DecodeOwned, Error, HasDecoder, HasEncoder, Shaped};
use std::alloc::Global;

/// What a player may find.
#[derive(Debug, PartialEq, Drop)]
pub struct Item {
    pub name: String,
    pub level: u8,
}

impl Shaped for Item {
    ghost data = { data_as (λ t. (t.name, t.level))
        (λ p. (record { name = p.0; level = p.1 }, refl)) (λ t. refl)
        ⟦<(String, u8) as Shaped>⟧.data };

    fn told(&self) {
        self.name.told();
        self.level.told();
    }
}

impl ConvertFrom<(String, u8)> for Item {
    fn convert_from(_alloc: Global, (name, level): (String, u8)) -> Result<Self, Error> {
        Ok(Item { name, level })
    }

    ghost same_shape = { refl };
}

impl HasField<0> for Item {
    type Field = String;

    ghost field = { λ t. t.name };

    fn field(&self) -> &String {
        &self.name
    }
}

impl HasField<1> for Item {
    type Field = u8;

    ghost field = { λ t. t.level };

    fn field(&self) -> &u8 {
        &self.level
    }
}

impl InFields for Item {
    type Numbers = (Nth<0>, Nth<1>);

    type Inside = (String, u8);

    ghost same_columns = { refl };

    ghost of_fields = { λ d h. h };

    ghost same_listings = { λ t. pair_alike field_alike field_alike };
}

impl HasEncoder for Item {
    type Encoder = StructEncoder<<(String, u8) as HasEncoder>::Encoder>;
}

impl<'a> HasDecoder<'a> for Item {
    type Decoder = DecoderOfFields<'a, (String, u8)>;
}

impl DecodeOwned for Item {}
