//! `One` corresponds to the tuple of its variant's fields. What is below its declaration was written by
//! `scripts/new_type`.
ghost use Rattle.bitcode.specs.ByHand.{data_as, field_alike, refl};

use bitcode::own::{DecoderOfFields, HasField, InFields, Nth, StructEncoder};
use bitcode::{ConvertFrom, DecodeOwned, Error, HasDecoder, HasEncoder, Shaped};
use std::alloc::Global;

/// A byte.
#[derive(Debug, Clone, Copy, PartialEq)]
pub enum One {
    A(u8),
}

impl Shaped for One {
    ghost use Rattle.bitcode_own_types.specs.declared.one.One.{One};

    ghost data = { data_as (elim [ One.A a ↦ a ]) (λ p. (One.A p, refl)) (elim [ One.A a ↦ refl ])
        ⟦<u8 as Shaped>⟧.data };

    fn told(&self) {
        let One::A(a) = self;
        a.told();
    }
}

impl ConvertFrom<u8> for One {
    fn convert_from(_alloc: Global, a: u8) -> Result<Self, Error> {
        Ok(One::A(a))
    }

    ghost same_shape = { refl };
}

impl HasField<0> for One {
    ghost use Rattle.bitcode_own_types.specs.declared.one.One.{One};

    type Field = u8;

    ghost field = { elim [ One.A a ↦ a ] };

    fn field(&self) -> &u8 {
        let One::A(a) = self;
        a
    }
}

impl InFields for One {
    type Numbers = Nth<0>;

    type Inside = u8;

    ghost same_columns = { refl };

    ghost of_fields = { λ d h. h };

    ghost same_listings = { λ t. field_alike };
}

impl HasEncoder for One {
    type Encoder = StructEncoder<<u8 as HasEncoder>::Encoder>;
}

impl<'a> HasDecoder<'a> for One {
    type Decoder = DecoderOfFields<'a, u8>;
}

impl DecodeOwned for One {}
