//! `Meters` corresponds to the tuple of its fields. What is below its declaration was written by `scripts/new_type`.
ghost use Rattle.bitcode.specs.ByHand.{data_as, field_alike, refl};

use bitcode::own::{DecoderOfFields, HasField, InFields, Nth, StructEncoder};
use bitcode::{ConvertFrom, DecodeOwned, Error, HasDecoder, HasEncoder, Shaped};
use std::alloc::Global;

/// A length in meters.
#[derive(Debug, Clone, Copy, PartialEq)]
pub struct Meters(pub u32);

impl Shaped for Meters {
    ghost data = { data_as (λ t. t.0) (λ p. (record { 0 = p }, refl)) (λ t. refl)
        ⟦<u32 as Shaped>⟧.data };

    fn told(&self) {
        self.0.told();
    }
}

impl ConvertFrom<u32> for Meters {
    fn convert_from(_alloc: Global, value: u32) -> Result<Self, Error> {
        Ok(Meters(value))
    }

    ghost same_shape = { refl };
}

impl HasField<0> for Meters {
    type Field = u32;

    ghost field = { λ t. t.0 };

    fn field(&self) -> &u32 {
        &self.0
    }
}

impl InFields for Meters {
    type Numbers = Nth<0>;

    type Inside = u32;

    ghost same_columns = { refl };

    ghost of_fields = { λ d h. h };

    ghost same_listings = { λ t. field_alike };
}

impl HasEncoder for Meters {
    type Encoder = StructEncoder<<u32 as HasEncoder>::Encoder>;
}

impl<'a> HasDecoder<'a> for Meters {
    type Decoder = DecoderOfFields<'a, u32>;
}

impl DecodeOwned for Meters {}
