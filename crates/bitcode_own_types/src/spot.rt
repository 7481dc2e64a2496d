//! `Spot` corresponds to the tuple of its fields. What is below its declaration was written by `scripts/new_type`.
ghost use Rattle.bitcode.specs.ByHand.{data_as, field_alike, pair_alike, refl};

use bitcode::own::{DecoderOfFields, HasField, InFields, Nth, StructEncoder};
use bitcode::{ConvertFrom, DecodeOwned, Error, HasDecoder, HasEncoder, Key, Shaped};
use std::alloc::Global;

/// A place on a map, of which there are sets.
#[derive(Debug, Clone, Copy, PartialEq, Eq, PartialOrd, Ord)]
pub struct Spot {
    pub x: u32,
    pub y: u32,
}

impl Shaped for Spot {
    ghost data = { data_as (λ t. (t.x, t.y)) (λ p. (record { x = p.0; y = p.1 }, refl)) (λ t. refl)
        ⟦<(u32, u32) as Shaped>⟧.data };

    fn told(&self) {
        self.x.told();
        self.y.told();
    }
}

impl ConvertFrom<(u32, u32)> for Spot {
    fn convert_from(_alloc: Global, (x, y): (u32, u32)) -> Result<Self, Error> {
        Ok(Spot { x, y })
    }

    ghost same_shape = { refl };
}

impl HasField<0> for Spot {
    type Field = u32;

    ghost field = { λ t. t.x };

    fn field(&self) -> &u32 {
        &self.x
    }
}

impl HasField<1> for Spot {
    type Field = u32;

    ghost field = { λ t. t.y };

    fn field(&self) -> &u32 {
        &self.y
    }
}

impl InFields for Spot {
    type Numbers = (Nth<0>, Nth<1>);

    type Inside = (u32, u32);

    ghost same_columns = { refl };

    ghost of_fields = { λ d h. h };

    ghost same_listings = { λ t. pair_alike field_alike field_alike };
}

impl HasEncoder for Spot {
    type Encoder = StructEncoder<<(u32, u32) as HasEncoder>::Encoder>;
}

impl<'a> HasDecoder<'a> for Spot {
    type Decoder = DecoderOfFields<'a, (u32, u32)>;
}

impl DecodeOwned for Spot {}

impl Key for Spot {
    ghost equal = { refl };

    ghost ordered = { refl };
}
