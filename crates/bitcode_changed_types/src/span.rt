//! `Span` corresponds to the tuple of its fields. What is below its declaration was written by `scripts/new_type`.
ghost use Rattle.std.specs.Prelude.{MatchOption, false, true, ◌≡◌};
ghost use Rattle.bitcode.specs.ByHand.{admits, admits-takes, admitted_data, field_alike, nat_le, natural_back};
ghost use Rattle.bitcode.specs.ByHand.{pair_alike, pair_back, refl};

use bitcode::own::{DecoderOfChecked, FromChecked, HasField, InFields, Nth, StructEncoder};
use bitcode::{DecodeOwned, HasDecoder, HasEncoder, Shaped};

/// A stretch of a file, from one byte to another one, which is not before it.
#[derive(Debug, Clone, Copy, PartialEq)]
pub struct Span {
    start: u64,
    end: u64,
    ghost checked: { (nat_le start end) ≡ true },
}

impl Span {
    /// Makes the value if `start <= end`.
    pub fn new(start: u64, end: u64) -> Option<Span>
        ensures { MatchOption result ((nat_le start end) ≡ false)
            (λ t. ((nat_le start end) ≡ true) × (t.start ≡ start) × (t.end ≡ end)) }
    {
        if start <= end {
            Some(Span { start, end })
        } else {
            None
        }
    }
}

impl Shaped for Span {
    ghost data = { admitted_data (λ t. (t.start, t.end)) (λ p. nat_le p.0 p.1)
        ⟦<(u64, u64) as Shaped>⟧.data refl (pair_back natural_back natural_back) (λ t. t.checked)
        (λ p h. (record { start = p.0; end = p.1; checked = h }, refl)) };

    fn told(&self) {
        self.start.told();
        self.end.told();
    }
}

impl<'a> FromChecked<(u64, u64), <(u64, u64) as HasDecoder<'a>>::Decoder> for Span {
    ghost parts = { λ t. (t.start, t.end) };

    ghost takes = { λ p. nat_le p.0 p.1 };

    ghost admits = { admits (pair_back (natural_back {is_value = ⟦<u64 as Shaped>⟧.data.is_value})
        (natural_back {is_value = ⟦<u64 as Shaped>⟧.data.is_value})) (λ p. nat_le p.0 p.1) };

    fn from_checked(fields: (u64, u64)) -> Option<Self>
        ensures { MatchOption result ((nat_le fields.0 fields.1) ≡ false)
            (λ t. ((nat_le fields.0 fields.1) ≡ true) × ((t.start, t.end) ≡ fields)) }
    {
        let (start, end) = fields;
        Span::new(start, end)
    }

    ghost same_shape = { refl };

    ghost made = { λ t d m. m };

    ghost admitted = { admits-takes (pair_back natural_back natural_back) (λ p. nat_le p.0 p.1) };

    ghost free = { refl };
}

impl HasField<0> for Span {
    type Field = u64;

    ghost field = { λ t. t.start };

    fn field(&self) -> &u64 {
        &self.start
    }
}

impl HasField<1> for Span {
    type Field = u64;

    ghost field = { λ t. t.end };

    fn field(&self) -> &u64 {
        &self.end
    }
}

impl InFields for Span {
    type Numbers = (Nth<0>, Nth<1>);

    type Inside = (u64, u64);

    ghost same_columns = { refl };

    ghost of_fields = { λ d h. h.0 };

    ghost same_listings = { λ t. pair_alike field_alike field_alike };
}

impl HasEncoder for Span {
    type Encoder = StructEncoder<<(u64, u64) as HasEncoder>::Encoder>;
}

impl<'a> HasDecoder<'a> for Span {
    type Decoder = DecoderOfChecked<'a, Span, (u64, u64)>;
}

impl DecodeOwned for Span {}
