//! `Sale` corresponds to the tuple of its fields. What is below its declaration was written by `scripts/new_type`.
ghost use Rattle.bitcode.specs.ByHand.{MakesToo, data_as, field_alike, pair_alike, refl};

use crate::percent::Percent;
use bitcode::own::{Decoded, DecoderOfPrivate, FromDecoded, HasField, InFields, Nth};
use bitcode::{HasDecoder, HasEncoder, Shaped};

/// What was sold, by whom. Only decoding and this crate make one.
#[derive(Debug, PartialEq, Drop)]
pub struct Sale<'a> {
    pub by: &'a str,
    pub(crate) parts: Vec<Percent>,
    total: u64,
}

impl<'a> Shaped for Sale<'a> {
    ghost data = { data_as (λ t. (t.by, t.parts, t.total))
        (λ p. (record { by = p.0; parts = p.1; total = p.2 }, refl)) (λ t. refl)
        ⟦<(&'a str, Vec<Percent>, u64) as Shaped>⟧.data };

    fn told(&self) {
        self.by.told();
        self.parts.told();
        self.total.told();
    }
}

impl<'a> FromDecoded<(&'a str, Vec<Percent>, u64)> for Sale<'a> {
    fn from_decoded(decoded: Decoded<(&'a str, Vec<Percent>, u64)>) -> Self
        ensures { MakesToo ⟦<Sale<'a> as Shaped>⟧.data.makes
            ⟦<(&'a str, Vec<Percent>, u64) as Shaped>⟧.data.makes result decoded.entry.fields }
    {
        let (by, parts, total) = decoded.into_fields();
        Sale { by, parts, total }
    }

    ghost same_shape = { refl };
}

impl<'a> HasField<0> for Sale<'a> {
    type Field = &'a str;

    ghost field = { λ t. t.by };

    fn field(&self) -> &&'a str {
        &self.by
    }
}

impl<'a> HasField<1> for Sale<'a> {
    type Field = Vec<Percent>;

    ghost field = { λ t. t.parts };

    fn field(&self) -> &Vec<Percent> {
        &self.parts
    }
}

impl<'a> HasField<2> for Sale<'a> {
    type Field = u64;

    ghost field = { λ t. t.total };

    fn field(&self) -> &u64 {
        &self.total
    }
}

impl<'a> InFields for Sale<'a> {
    type Numbers = (Nth<0>, (Nth<1>, Nth<2>));

    type Inside = (&'a str, Vec<Percent>, u64);

    ghost same_columns = { refl };

    ghost of_fields = { λ d h. h };

    ghost same_listings = { λ t. pair_alike field_alike (pair_alike field_alike field_alike) };
}

impl<'a> HasEncoder for Sale<'a> {
    type Encoder = <(&'a str, Vec<Percent>, u64) as HasEncoder>::Encoder;
}

impl<'a> HasDecoder<'a> for Sale<'a> {
    type Decoder = DecoderOfPrivate<'a, (&'a str, Vec<Percent>, u64)>;
}
