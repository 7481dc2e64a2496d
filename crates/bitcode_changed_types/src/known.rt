//! `Known` corresponds to the tuple of its fields. What is below its declaration was written by `scripts/new_type`.
ghost use Rattle.std.specs.Prelude.{[], false, ◌≡◌};
ghost use Rattle.bitcode.specs.ByHand.{empty_vec, field_alike, pair_alike, refl, skipped_data};

use bitcode::own::{DecoderOfFields, HasField, InFields, Nth, StructEncoder};
use bitcode::{ConvertFrom, DecodeOwned, Error, HasDecoder, HasEncoder, Shaped};
use std::alloc::Global;

/// A monster that a game knows, with what the game finds out again.
#[derive(Debug, PartialEq, Drop)]
pub struct Known {
    pub name: String,
    pub is_seen: bool,
    pub health: i16,
    pub path: Vec<u8>,
}

impl Shaped for Known {
    ghost data = { skipped_data (λ t. (t.name, t.health))
        (λ t. (t.is_seen ≡ false) × (t.path.items ≡ [])) (λ g p. (
          record { name = p.0; health = p.1; is_seen = false; path = (empty_vec g).0 },
          (refl, (refl, (empty_vec g).1)),
        )) ⟦<(String, i16) as Shaped>⟧.data };

    fn told(&self) {
        self.name.told();
        self.health.told();
    }
}

impl ConvertFrom<(String, i16)> for Known {
    fn convert_from(alloc: Global, (name, health): (String, i16)) -> Result<Self, Error> {
        Ok(Known {
            name,
            health,
            is_seen: false,
            path: Vec::new(alloc),
        })
    }

    ghost same_shape = { refl };
}

impl HasField<0> for Known {
    type Field = String;

    ghost field = { λ t. t.name };

    fn field(&self) -> &String {
        &self.name
    }
}

impl HasField<1> for Known {
    type Field = i16;

    ghost field = { λ t. t.health };

    fn field(&self) -> &i16 {
        &self.health
    }
}

impl InFields for Known {
    type Numbers = (Nth<0>, Nth<1>);

    type Inside = (String, i16);

    ghost same_columns = { refl };

    ghost of_fields = { λ d h. h };

    ghost same_listings = { λ t. pair_alike field_alike field_alike };
}

impl HasEncoder for Known {
    type Encoder = StructEncoder<<(String, i16) as HasEncoder>::Encoder>;
}

impl<'a> HasDecoder<'a> for Known {
    type Decoder = DecoderOfFields<'a, (String, i16)>;
}

impl DecodeOwned for Known {}
