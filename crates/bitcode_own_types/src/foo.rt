//! `Foo` corresponds to the tuple of its fields. What is below its declaration was written by `scripts/new_type`.
ghost use Rattle.bitcode.specs.ByHand.{data_as, field_alike, pair_alike, refl};

use bitcode::own::{DecoderOfFields, HasField, InFields, Nth, StructEncoder};
use bitcode::{ConvertFrom, Error, HasDecoder, HasEncoder, Shaped};
use std::alloc::Global;

/// A number and a text.
#[derive(Debug, Clone, Copy, PartialEq)]
pub struct Foo<'a> {
    pub x: u32,
    pub y: &'a str,
}

impl<'a> Shaped for Foo<'a> {
    ghost data = { data_as (λ t. (t.x, t.y)) (λ p. (record { x = p.0; y = p.1 }, refl)) (λ t. refl)
        ⟦<(u32, &'a str) as Shaped>⟧.data };

    fn told(&self) {
        self.x.told();
        self.y.told();
    }
}

impl<'a> ConvertFrom<(u32, &'a str)> for Foo<'a> {
    fn convert_from(_alloc: Global, (x, y): (u32, &'a str)) -> Result<Self, Error> {
        Ok(Foo { x, y })
    }

    ghost same_shape = { refl };
}

impl<'a> HasField<0> for Foo<'a> {
    type Field = u32;

    ghost field = { λ t. t.x };

    fn field(&self) -> &u32 {
        &self.x
    }
}

impl<'a> HasField<1> for Foo<'a> {
    type Field = &'a str;

    ghost field = { λ t. t.y };

    fn field(&self) -> &&'a str {
        &self.y
    }
}

impl<'a> InFields for Foo<'a> {
    type Numbers = (Nth<0>, Nth<1>);

    type Inside = (u32, &'a str);

    ghost same_columns = { refl };

    ghost of_fields = { λ d h. h };

    ghost same_listings = { λ t. pair_alike field_alike field_alike };
}

impl<'a> HasEncoder for Foo<'a> {
    type Encoder = StructEncoder<<(u32, &'a str) as HasEncoder>::Encoder>;
}

impl<'a> HasDecoder<'a> for Foo<'a> {
    type Decoder = DecoderOfFields<'a, (u32, &'a str)>;
}
