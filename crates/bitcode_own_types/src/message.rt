//! `Message` corresponds to the tuple of its fields. What is below its declaration was written by `scripts/new_type`.
ghost use Rattle.bitcode.specs.ByHand.{data_as, field_alike, pair_alike, refl};

use bitcode::own::{DecoderOfFields, HasField, InFields, Nth, StructEncoder};
use bitcode::{ConvertFrom, Error, HasDecoder, HasEncoder, Shaped};
use std::alloc::Global;

/// A text of the input, and who sent it.
#[derive(Debug, Clone, Copy, PartialEq)]
pub struct Message<'a> {
    pub from: u32,
    pub text: &'a str,
}

impl<'a> Shaped for Message<'a> {
    ghost data = { data_as (λ t. (t.from, t.text)) (λ p. (record { from = p.0; text = p.1 }, refl))
        (λ t. refl) ⟦<(u32, &'a str) as Shaped>⟧.data };

    fn told(&self) {
        self.from.told();
        self.text.told();
    }
}

impl<'a> ConvertFrom<(u32, &'a str)> for Message<'a> {
    fn convert_from(_alloc: Global, (from, text): (u32, &'a str)) -> Result<Self, Error> {
        Ok(Message { from, text })
    }

    ghost same_shape = { refl };
}

impl<'a> HasField<0> for Message<'a> {
    type Field = u32;

    ghost field = { λ t. t.from };

    fn field(&self) -> &u32 {
        &self.from
    }
}

impl<'a> HasField<1> for Message<'a> {
    type Field = &'a str;

    ghost field = { λ t. t.text };

    fn field(&self) -> &&'a str {
        &self.text
    }
}

impl<'a> InFields for Message<'a> {
    type Numbers = (Nth<0>, Nth<1>);

    type Inside = (u32, &'a str);

    ghost same_columns = { refl };

    ghost of_fields = { λ d h. h };

    ghost same_listings = { λ t. pair_alike field_alike field_alike };
}

impl<'a> HasEncoder for Message<'a> {
    type Encoder = StructEncoder<<(u32, &'a str) as HasEncoder>::Encoder>;
}

impl<'a> HasDecoder<'a> for Message<'a> {
    type Decoder = DecoderOfFields<'a, (u32, &'a str)>;
}
