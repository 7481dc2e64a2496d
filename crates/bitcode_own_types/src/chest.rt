//! `Chest` corresponds to the tuple of its fields. What is below its declaration was written by `scripts/new_type`.
ghost use Rattle.bitcode.specs.ByHand.{data_as, field_alike, pair_alike, refl};

use crate::item::Item;
use bitcode::own::{DecoderOfFields, HasField, InFields, Nth};
use bitcode::{ConvertFrom, DecodeOwned, Error, HasDecoder, HasEncoder, Shaped};
use std::alloc::Global;

/// A user's type that allocates, inside another one.
#[derive(Debug, PartialEq, Drop)]
pub struct Chest {
    pub label: String,
    pub items: Vec<Item>,
    pub best: Option<Item>,
}

impl Shaped for Chest {
    ghost data = { data_as (λ t. (t.label, t.items, t.best))
        (λ p. (record { label = p.0; items = p.1; best = p.2 }, refl)) (λ t. refl)
        ⟦<(String, Vec<Item>, Option<Item>) as Shaped>⟧.data };

    fn told(&self) {
        self.label.told();
        self.items.told();
        self.best.told();
    }
}

impl ConvertFrom<(String, Vec<Item>, Option<Item>)> for Chest {
    fn convert_from(
        _alloc: Global,
        (label, items, best): (String, Vec<Item>, Option<Item>),
    ) -> Result<Self, Error> {
        Ok(Chest { label, items, best })
    }

    ghost same_shape = { refl };
}

impl HasField<0> for Chest {
    type Field = String;

    ghost field = { λ t. t.label };

    fn field(&self) -> &String {
        &self.label
    }
}

impl HasField<1> for Chest {
    type Field = Vec<Item>;

    ghost field = { λ t. t.items };

    fn field(&self) -> &Vec<Item> {
        &self.items
    }
}

impl HasField<2> for Chest {
    type Field = Option<Item>;

    ghost field = { λ t. t.best };

    fn field(&self) -> &Option<Item> {
        &self.best
    }
}

impl InFields for Chest {
    type Numbers = (Nth<0>, (Nth<1>, Nth<2>));

    type Inside = (String, Vec<Item>, Option<Item>);

    ghost same_columns = { refl };

    ghost of_fields = { λ d h. h };

    ghost same_listings = { λ t. pair_alike field_alike (pair_alike field_alike field_alike) };
}

impl HasEncoder for Chest {
    type Encoder = <(String, Vec<Item>, Option<Item>) as HasEncoder>::Encoder;
}

impl<'a> HasDecoder<'a> for Chest {
    type Decoder = DecoderOfFields<'a, (String, Vec<Item>, Option<Item>)>;
}

impl DecodeOwned for Chest {}
