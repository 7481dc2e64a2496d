//! `Percent` corresponds to the tuple of its fields. What is below its declaration was written by `scripts/new_type`.
ghost use Rattle.std.specs.Prelude.{MatchOption, false, true, ◌≡◌};
ghost use Rattle.bitcode.specs.ByHand.{admits, admits-takes, admitted_data, field_alike, nat_le, natural_back, refl};

use bitcode::own::{DecoderOfChecked, FromChecked, HasField, InFields, Nth, StructEncoder};
use bitcode::{DecodeOwned, HasDecoder, HasEncoder, Key, Shaped};

/// A part of a whole, in hundredths.
#[derive(Debug, Clone, Copy, PartialEq, Eq, PartialOrd, Ord)]
pub struct Percent {
    hundredths: u8,
    ghost checked: { (nat_le hundredths 100) ≡ true },
}

impl Percent {
    /// Makes the value if `hundredths <= 100`.
    pub fn new(hundredths: u8) -> Option<Percent>
        ensures { MatchOption result ((nat_le hundredths 100) ≡ false)
            (λ t. ((nat_le hundredths 100) ≡ true) × (t.hundredths ≡ hundredths)) }
    {
        if hundredths <= 100 {
            Some(Percent { hundredths })
        } else {
            None
        }
    }
}

impl Shaped for Percent {
    ghost data = { admitted_data (λ t. t.hundredths) (λ p. nat_le p 100) ⟦<u8 as Shaped>⟧.data refl
        natural_back (λ t. t.checked) (λ p h. (record { hundredths = p; checked = h }, refl)) };

    fn told(&self) {
        self.hundredths.told();
    }
}

impl<'a> FromChecked<u8, <u8 as HasDecoder<'a>>::Decoder> for Percent {
    ghost parts = { λ t. t.hundredths };

    ghost takes = { λ p. nat_le p 100 };

    ghost admits = { admits (natural_back {is_value = ⟦<u8 as Shaped>⟧.data.is_value})
        (λ p. nat_le p 100) };

    fn from_checked(fields: u8) -> Option<Self>
        ensures { MatchOption result ((nat_le fields 100) ≡ false)
            (λ t. ((nat_le fields 100) ≡ true) × (t.hundredths ≡ fields)) }
    {
        let hundredths = fields;
        Percent::new(hundredths)
    }

    ghost same_shape = { refl };

    ghost made = { λ t d m. m };

    ghost admitted = { admits-takes natural_back (λ p. nat_le p 100) };

    ghost free = { refl };
}

impl HasField<0> for Percent {
    type Field = u8;

    ghost field = { λ t. t.hundredths };

    fn field(&self) -> &u8 {
        &self.hundredths
    }
}

impl InFields for Percent {
    type Numbers = Nth<0>;

    type Inside = u8;

    ghost same_columns = { refl };

    ghost of_fields = { λ d h. h.0 };

    ghost same_listings = { λ t. field_alike };
}

impl HasEncoder for Percent {
    type Encoder = StructEncoder<<u8 as HasEncoder>::Encoder>;
}

impl<'a> HasDecoder<'a> for Percent {
    type Decoder = DecoderOfChecked<'a, Percent, u8>;
}

impl DecodeOwned for Percent {}

impl Key for Percent {
    ghost equal = { refl };

    ghost ordered = { refl };
}
