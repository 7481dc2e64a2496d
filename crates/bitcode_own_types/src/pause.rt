//! `Pause` corresponds to the tuple of its fields. What is below its declaration was written by `scripts/new_type`.
ghost use Rattle.bitcode.specs.ByHand.{data_as, field_alike, refl};

use bitcode::own::{DecoderOfFields, InFields, StructEncoder};
use bitcode::{ConvertFrom, DecodeOwned, Error, HasDecoder, HasEncoder, Shaped};
use std::alloc::Global;

/// Nothing happens.
#[derive(Debug, Clone, Copy, PartialEq)]
pub struct Pause;

impl Shaped for Pause {
    ghost data = { data_as (λ t. tt) (λ p. (record {}, refl)) (λ t. refl) ⟦<() as Shaped>⟧.data };

    fn told(&self) {}
}

impl ConvertFrom<()> for Pause {
    fn convert_from(_alloc: Global, _nothing: ()) -> Result<Self, Error> {
        Ok(Pause)
    }

    ghost same_shape = { refl };
}

impl InFields for Pause {
    type Numbers = ();

    type Inside = ();

    ghost same_columns = { refl };

    ghost of_fields = { λ d h. h };

    ghost same_listings = { λ t. field_alike };
}

impl HasEncoder for Pause {
    type Encoder = StructEncoder<<() as HasEncoder>::Encoder>;
}

impl<'a> HasDecoder<'a> for Pause {
    type Decoder = DecoderOfFields<'a, ()>;
}

impl DecodeOwned for Pause {}
