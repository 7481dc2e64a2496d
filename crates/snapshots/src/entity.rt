//! `Entity` corresponds to the tuple of its fields. What is below its declaration was written by `scripts/new_type`.
ghost use Rattle.bitcode.specs.ByHand.{data_as, field_alike, pair_alike, refl};

use crate::kind::Kind;
use bitcode::own::{DecoderOfFields, HasField, InFields, Nth};
use bitcode::{ConvertFrom, DecodeOwned, Error, HasDecoder, HasEncoder, Shaped};
use std::alloc::Global;

/// Something in the world.
#[derive(Debug, Clone, Copy, PartialEq)]
pub struct Entity {
    pub id: u32,
    pub kind: Kind,
    pub x: i32,
    pub y: i32,
    pub health: u16,
    pub is_asleep: bool,
    pub target: Option<u32>,
}

type Parts = (u32, Kind, i32, i32, u16, bool, Option<u32>);

impl Shaped for Entity {
    ghost data = { data_as (λ t. (t.id, t.kind, t.x, t.y, t.health, t.is_asleep, t.target)) (λ p. (
      record {
        id = p.0;
        kind = p.1;
        x = p.2;
        y = p.3;
        health = p.4;
        is_asleep = p.5;
        target = p.6;
      },
      refl,
    )) (λ t. refl) ⟦<Parts as Shaped>⟧.data };

    fn told(&self) {
        self.id.told();
        self.kind.told();
        self.x.told();
        self.y.told();
        self.health.told();
        self.is_asleep.told();
        self.target.told();
    }
}

impl ConvertFrom<Parts> for Entity {
    fn convert_from(_alloc: Global, parts: Parts) -> Result<Self, Error> {
        let (id, kind, x, y, health, is_asleep, target) = parts;
        Ok(Entity {
            id,
            kind,
            x,
            y,
            health,
            is_asleep,
            target,
        })
    }

    ghost same_shape = { refl };
}

impl HasField<0> for Entity {
    type Field = u32;

    ghost field = { λ t. t.id };

    fn field(&self) -> &u32 {
        &self.id
    }
}

impl HasField<1> for Entity {
    type Field = Kind;

    ghost field = { λ t. t.kind };

    fn field(&self) -> &Kind {
        &self.kind
    }
}

impl HasField<2> for Entity {
    type Field = i32;

    ghost field = { λ t. t.x };

    fn field(&self) -> &i32 {
        &self.x
    }
}

impl HasField<3> for Entity {
    type Field = i32;

    ghost field = { λ t. t.y };

    fn field(&self) -> &i32 {
        &self.y
    }
}

impl HasField<4> for Entity {
    type Field = u16;

    ghost field = { λ t. t.health };

    fn field(&self) -> &u16 {
        &self.health
    }
}

impl HasField<5> for Entity {
    type Field = bool;

    ghost field = { λ t. t.is_asleep };

    fn field(&self) -> &bool {
        &self.is_asleep
    }
}

impl HasField<6> for Entity {
    type Field = Option<u32>;

    ghost field = { λ t. t.target };

    fn field(&self) -> &Option<u32> {
        &self.target
    }
}

impl InFields for Entity {
    type Numbers = (
        (Nth<0>, (Nth<1>, Nth<2>)),
        ((Nth<3>, Nth<4>), (Nth<5>, Nth<6>)),
    );

    type Inside = Parts;

    ghost same_columns = { refl };

    ghost of_fields = { λ d h. h };

    ghost same_listings = { λ t. pair_alike
        (pair_alike field_alike (pair_alike field_alike field_alike))
        (pair_alike (pair_alike field_alike field_alike) (pair_alike field_alike field_alike)) };
}

impl HasEncoder for Entity {
    type Encoder = <Parts as HasEncoder>::Encoder;
}

impl<'a> HasDecoder<'a> for Entity {
    type Decoder = DecoderOfFields<'a, Parts>;
}

impl DecodeOwned for Entity {}
