//! `Sale` corresponds to the tuple of its fields. What is below its declaration was written by `scripts/new_type`.
ghost use Rattle.bitcode.specs.ByHand.{data_as, field_alike, pair_alike, refl};

use bitcode::own::{DecoderOfFields, HasField, InFields, Nth};
use bitcode::{ConvertFrom, Error, HasDecoder, HasEncoder, Shaped};
use std::alloc::Global;

/// What was sold, where, and for how much.
#[derive(Debug, Clone, Copy, PartialEq)]
pub struct Sale<'a> {
    pub product: &'a str,
    pub region: u16,
    pub cents: u32,
}

impl<'a> Shaped for Sale<'a> {
    ghost data = { data_as (λ t. (t.product, t.region, t.cents))
        (λ p. (record { product = p.0; region = p.1; cents = p.2 }, refl)) (λ t. refl)
        ⟦<(&'a str, u16, u32) as Shaped>⟧.data };

    fn told(&self) {
        self.product.told();
        self.region.told();
        self.cents.told();
    }
}

impl<'a> ConvertFrom<(&'a str, u16, u32)> for Sale<'a> {
    fn convert_from(
        _alloc: Global,
        (product, region, cents): (&'a str, u16, u32),
    ) -> Result<Self, Error> {
        Ok(Sale {
            product,
            region,
            cents,
        })
    }

    ghost same_shape = { refl };
}

impl<'a> HasField<0> for Sale<'a> {
    type Field = &'a str;

    ghost field = { λ t. t.product };

    fn field(&self) -> &&'a str {
        &self.product
    }
}

impl<'a> HasField<1> for Sale<'a> {
    type Field = u16;

    ghost field = { λ t. t.region };

    fn field(&self) -> &u16 {
        &self.region
    }
}

impl<'a> HasField<2> for Sale<'a> {
    type Field = u32;

    ghost field = { λ t. t.cents };

    fn field(&self) -> &u32 {
        &self.cents
    }
}

impl<'a> InFields for Sale<'a> {
    type Numbers = (Nth<0>, (Nth<1>, Nth<2>));

    type Inside = (&'a str, u16, u32);

    ghost same_columns = { refl };

    ghost of_fields = { λ d h. h };

    ghost same_listings = { λ t. pair_alike field_alike (pair_alike field_alike field_alike) };
}

impl<'a> HasEncoder for Sale<'a> {
    type Encoder = <(&'a str, u16, u32) as HasEncoder>::Encoder;
}

impl<'a> HasDecoder<'a> for Sale<'a> {
    type Decoder = DecoderOfFields<'a, (&'a str, u16, u32)>;
}
