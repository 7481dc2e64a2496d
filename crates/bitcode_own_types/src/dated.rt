//! `Dated` corresponds to the tuple of its fields. What is below its declaration was written by `scripts/new_type`.
ghost use Rattle.bitcode.specs.ByHand.{data_as, field_alike, pair_alike, refl};

use bitcode::own::{DecoderOfFields, HasField, InFields, Nth};
use bitcode::{ConvertFrom, DecodeOwned, Error, HasDecoder, HasEncoder, Shaped};
use std::alloc::Global;

/// A value and when it was made.
#[derive(Debug, PartialEq, Drop)]
pub struct Dated<T> {
    pub year: u16,
    pub day: u16,
    pub value: T,
}

impl<T: Shaped> Shaped for Dated<T> {
    ghost data = { data_as (λ t. (t.year, t.day, t.value))
        (λ p. (record { year = p.0; day = p.1; value = p.2 }, refl)) (λ t. refl)
        ⟦<(u16, u16, T) as Shaped>⟧.data };

    fn told(&self) {
        self.year.told();
        self.day.told();
        self.value.told();
    }
}

impl<T: Shaped> ConvertFrom<(u16, u16, T)> for Dated<T> {
    fn convert_from(_alloc: Global, (year, day, value): (u16, u16, T)) -> Result<Self, Error> {
        Ok(Dated { year, day, value })
    }

    ghost same_shape = { refl };
}

impl<T: Shaped> HasField<0> for Dated<T> {
    type Field = u16;

    ghost field = { λ t. t.year };

    fn field(&self) -> &u16 {
        &self.year
    }
}

impl<T: Shaped> HasField<1> for Dated<T> {
    type Field = u16;

    ghost field = { λ t. t.day };

    fn field(&self) -> &u16 {
        &self.day
    }
}

impl<T: Shaped> HasField<2> for Dated<T> {
    type Field = T;

    ghost field = { λ t. t.value };

    fn field(&self) -> &T {
        &self.value
    }
}

impl<T: Shaped> InFields for Dated<T> {
    type Numbers = (Nth<0>, (Nth<1>, Nth<2>));

    type Inside = (u16, u16, T);

    ghost same_columns = { refl };

    ghost of_fields = { λ d h. h };

    ghost same_listings = { λ t. pair_alike field_alike (pair_alike field_alike field_alike) };
}

impl<T: HasEncoder> HasEncoder for Dated<T> {
    type Encoder = <(u16, u16, T) as HasEncoder>::Encoder;
}

impl<'a, T: HasDecoder<'a>> HasDecoder<'a> for Dated<T> {
    type Decoder = DecoderOfFields<'a, (u16, u16, T)>;
}

impl<T: DecodeOwned> DecodeOwned for Dated<T> {}
