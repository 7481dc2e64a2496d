//! `Grade` corresponds to the tuple of its fields. What is below its declaration was written by `scripts/new_type`.
ghost use Rattle.std.specs.Prelude.{MatchOption, false, true, ◌&&◌, ◌≡◌};
ghost use Rattle.bitcode.specs.ByHand.{admits, admits-takes, admitted_data, field_alike, nat_le, nat_lt, natural_back};
ghost use Rattle.bitcode.specs.ByHand.{pair_alike, pair_back, refl};

use bitcode::own::{DecoderOfChecked, FromChecked, HasField, InFields, Nth, StructEncoder};
use bitcode::{DecodeOwned, HasDecoder, HasEncoder, Shaped};

/// The points of a pupil, out of the most that can be had.
#[derive(Debug, Clone, Copy, PartialEq)]
pub struct Grade {
    points: u16,
    most: u16,
    ghost checked: { (nat_lt 0 most && nat_le points most) ≡ true },
}

impl Grade {
    /// Makes the value if `most > 0 && points <= most`.
    pub fn new(points: u16, most: u16) -> Option<Grade>
        ensures { MatchOption result ((nat_lt 0 most && nat_le points most) ≡ false)
            (λ t. ((nat_lt 0 most && nat_le points most) ≡ true) × (t.points ≡ points)
            × (t.most ≡ most)) }
    {
        if most > 0 && points <= most {
            Some(Grade { points, most })
        } else {
            None
        }
    }
}

impl Shaped for Grade {
    ghost data = { admitted_data (λ t. (t.points, t.most)) (λ p. nat_lt 0 p.1 && nat_le p.0 p.1)
        ⟦<(u16, u16) as Shaped>⟧.data refl (pair_back natural_back natural_back) (λ t. t.checked)
        (λ p h. (record { points = p.0; most = p.1; checked = h }, refl)) };

    fn told(&self) {
        self.points.told();
        self.most.told();
    }
}

impl<'a> FromChecked<(u16, u16), <(u16, u16) as HasDecoder<'a>>::Decoder> for Grade {
    ghost parts = { λ t. (t.points, t.most) };

    ghost takes = { λ p. nat_lt 0 p.1 && nat_le p.0 p.1 };

    ghost admits = { admits (pair_back (natural_back {is_value = ⟦<u16 as Shaped>⟧.data.is_value})
        (natural_back {is_value = ⟦<u16 as Shaped>⟧.data.is_value}))
        (λ p. nat_lt 0 p.1 && nat_le p.0 p.1) };

    fn from_checked(fields: (u16, u16)) -> Option<Self>
        ensures { MatchOption result ((nat_lt 0 fields.1 && nat_le fields.0 fields.1) ≡ false)
            (λ t. ((nat_lt 0 fields.1 && nat_le fields.0 fields.1) ≡ true)
            × ((t.points, t.most) ≡ fields)) }
    {
        let (points, most) = fields;
        Grade::new(points, most)
    }

    ghost same_shape = { refl };

    ghost made = { λ t d m. m };

    ghost admitted = { admits-takes (pair_back natural_back natural_back)
        (λ p. nat_lt 0 p.1 && nat_le p.0 p.1) };

    ghost free = { refl };
}

impl HasField<0> for Grade {
    type Field = u16;

    ghost field = { λ t. t.points };

    fn field(&self) -> &u16 {
        &self.points
    }
}

impl HasField<1> for Grade {
    type Field = u16;

    ghost field = { λ t. t.most };

    fn field(&self) -> &u16 {
        &self.most
    }
}

impl InFields for Grade {
    type Numbers = (Nth<0>, Nth<1>);

    type Inside = (u16, u16);

    ghost same_columns = { refl };

    ghost of_fields = { λ d h. h.0 };

    ghost same_listings = { λ t. pair_alike field_alike field_alike };
}

impl HasEncoder for Grade {
    type Encoder = StructEncoder<<(u16, u16) as HasEncoder>::Encoder>;
}

impl<'a> HasDecoder<'a> for Grade {
    type Decoder = DecoderOfChecked<'a, Grade, (u16, u16)>;
}

impl DecodeOwned for Grade {}
