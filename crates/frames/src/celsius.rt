//! `Celsius` corresponds to the tuple of its fields. What is below its declaration was written by `scripts/new_type`.
ghost use Rattle.std.specs.Prelude.{MatchOption, false, int_le, negsuc, true, ◌≡◌};
ghost use Rattle.bitcode.specs.ByHand.{admits, admits-takes, admitted_data, field_alike, integer_back, refl};

use bitcode::own::{DecoderOfChecked, FromChecked, HasField, InFields, Nth, StructEncoder};
use bitcode::{DecodeOwned, HasDecoder, HasEncoder, Shaped};

/// A temperature, which is not below absolute zero.
#[derive(Debug, Clone, Copy, PartialEq)]
pub struct Celsius {
    pub(crate) tenths: i64,
    ghost checked: { (int_le (negsuc 2730) tenths) ≡ true },
}

impl Celsius {
    /// Makes the value if `tenths >= -2731`.
    pub fn new(tenths: i64) -> Option<Celsius>
        ensures { MatchOption result ((int_le (negsuc 2730) tenths) ≡ false)
            (λ t. ((int_le (negsuc 2730) tenths) ≡ true) × (t.tenths ≡ tenths)) }
    {
        if tenths >= -2731 {
            Some(Celsius { tenths })
        } else {
            None
        }
    }
}

impl Shaped for Celsius {
    ghost data = { admitted_data (λ t. t.tenths) (λ p. int_le (negsuc 2730) p)
        ⟦<i64 as Shaped>⟧.data refl integer_back (λ t. t.checked)
        (λ p h. (record { tenths = p; checked = h }, refl)) };

    fn told(&self) {
        self.tenths.told();
    }
}

impl<'a> FromChecked<i64, <i64 as HasDecoder<'a>>::Decoder> for Celsius {
    ghost parts = { λ t. t.tenths };

    ghost takes = { λ p. int_le (negsuc 2730) p };

    ghost admits = { admits (integer_back {is_value = ⟦<i64 as Shaped>⟧.data.is_value})
        (λ p. int_le (negsuc 2730) p) };

    fn from_checked(fields: i64) -> Option<Self>
        ensures { MatchOption result ((int_le (negsuc 2730) fields) ≡ false)
            (λ t. ((int_le (negsuc 2730) fields) ≡ true) × (t.tenths ≡ fields)) }
    {
        let tenths = fields;
        Celsius::new(tenths)
    }

    ghost same_shape = { refl };

    ghost made = { λ t d m. m };

    ghost admitted = { admits-takes integer_back (λ p. int_le (negsuc 2730) p) };

    ghost free = { refl };
}

impl HasField<0> for Celsius {
    type Field = i64;

    ghost field = { λ t. t.tenths };

    fn field(&self) -> &i64 {
        &self.tenths
    }
}

impl InFields for Celsius {
    type Numbers = Nth<0>;

    type Inside = i64;

    ghost same_columns = { refl };

    ghost of_fields = { λ d h. h.0 };

    ghost same_listings = { λ t. field_alike };
}

impl HasEncoder for Celsius {
    type Encoder = StructEncoder<<i64 as HasEncoder>::Encoder>;
}

impl<'a> HasDecoder<'a> for Celsius {
    type Decoder = DecoderOfChecked<'a, Celsius, i64>;
}

impl DecodeOwned for Celsius {}
