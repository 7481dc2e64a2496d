//! `Home` corresponds to the tuple of its fields. What is below its declaration was written by `scripts/new_type`.
ghost use Rattle.std.specs.Prelude.{◌∷◌};
ghost use Rattle.bitcode.specs.ByHand.{[], ands_in_order, data_as, field_alike, key_as, pair_alike, refl};
ghost use Rattle.bitcode.specs.ByHand.{thens_in_order};

use bitcode::own::{DecoderOfFields, HasField, InFields, Nth};
use bitcode::{ConvertFrom, DecodeOwned, Error, HasDecoder, HasEncoder, Key, Shaped};
use std::alloc::Global;

/// Where a player lives.
#[derive(Debug, Clone, Copy, PartialEq, Eq, PartialOrd, Ord)]
pub struct Home {
    pub sector: u8,
    pub planet: u16,
    pub plot: u16,
}

impl Shaped for Home {
    ghost data = { key_as (data_as (λ t. (t.sector, t.planet, t.plot))
        (λ p. (record { sector = p.0; planet = p.1; plot = p.2 }, refl)) (λ t. refl)
        ⟦<(u8, u16, u16) as Shaped>⟧.data) ⟦<Home as PartialEq>⟧.eq ⟦<Home as Ord>⟧.cmp
        (λ s t. ands_in_order (⟦<u8 as PartialEq>⟧.eq s.sector t.sector)
        ((⟦<u16 as PartialEq>⟧.eq s.planet t.planet) ∷ (⟦<u16 as PartialEq>⟧.eq s.plot t.plot)
        ∷ [])) (λ s t. thens_in_order (⟦<u8 as Ord>⟧.cmp s.sector t.sector)
        ((⟦<u16 as Ord>⟧.cmp s.planet t.planet) ∷ (⟦<u16 as Ord>⟧.cmp s.plot t.plot) ∷ [])) };

    fn told(&self) {
        self.sector.told();
        self.planet.told();
        self.plot.told();
    }
}

impl ConvertFrom<(u8, u16, u16)> for Home {
    fn convert_from(_alloc: Global, (sector, planet, plot): (u8, u16, u16)) -> Result<Self, Error> {
        Ok(Home {
            sector,
            planet,
            plot,
        })
    }

    ghost same_shape = { refl };
}

impl HasField<0> for Home {
    type Field = u8;

    ghost field = { λ t. t.sector };

    fn field(&self) -> &u8 {
        &self.sector
    }
}

impl HasField<1> for Home {
    type Field = u16;

    ghost field = { λ t. t.planet };

    fn field(&self) -> &u16 {
        &self.planet
    }
}

impl HasField<2> for Home {
    type Field = u16;

    ghost field = { λ t. t.plot };

    fn field(&self) -> &u16 {
        &self.plot
    }
}

impl InFields for Home {
    type Numbers = (Nth<0>, (Nth<1>, Nth<2>));

    type Inside = (u8, u16, u16);

    ghost same_columns = { refl };

    ghost of_fields = { λ d h. h };

    ghost same_listings = { λ t. pair_alike field_alike (pair_alike field_alike field_alike) };
}

impl HasEncoder for Home {
    type Encoder = <(u8, u16, u16) as HasEncoder>::Encoder;
}

impl<'a> HasDecoder<'a> for Home {
    type Decoder = DecoderOfFields<'a, (u8, u16, u16)>;
}

impl DecodeOwned for Home {}

impl Key for Home {
    ghost equal = { refl };

    ghost ordered = { refl };
}
