//! `Outcome` numbers its variants. What is below its declaration was written by `scripts/new_type`.
ghost use Rattle.std.specs.Prelude.{[], ◌∷◌, refl};
ghost use Rattle.bitcode.specs.ByHand.{bare_data};
ghost use Rattle.bitcode_own_types.specs.declared.outcome.Outcome.{Outcome};

use bitcode::own::{BareEncoder, BareShaped, BareVariants};
use bitcode::{DecodeOwned, HasDecoder, HasEncoder, Shaped, VariantDecoder};

/// How a game ended.
#[derive(Debug, Clone, Copy, PartialEq)]
pub enum Outcome {
    Won,
    Drawn,
    Lost,
}

impl BareVariants<3> for Outcome {
    ghost variant = { elim [ Outcome.Won ↦ 0 | Outcome.Drawn ↦ 1 | Outcome.Lost ↦ 2 ] };

    ghost values = { Outcome.Won ∷ Outcome.Drawn ∷ Outcome.Lost ∷ [] };

    ghost in_order = { (refl, refl) };

    ghost one_to_one = { elim [ Outcome.Won ↦ refl | Outcome.Drawn ↦ refl | Outcome.Lost ↦ refl ] };

    fn index(&self) -> u8 {
        *self as u8
    }

    fn from_index(index: u8) -> Self {
        match index {
            0 => Outcome::Won,
            1 => Outcome::Drawn,
            _ => Outcome::Lost,
        }
    }
}

impl Shaped for Outcome {
    ghost data = { bare_data 3 ⟦<Outcome as BareVariants<3>>⟧.variant
        ⟦<Outcome as BareVariants<3>>⟧.values ⟦<Outcome as BareVariants<3>>⟧.in_order
        ⟦<Outcome as BareVariants<3>>⟧.one_to_one };

    fn told(&self) {
        let _index = self.index();
    }
}

impl BareShaped<3> for Outcome {
    ghost has_shape = { refl };

    ghost lists_bare = { λ t d h. h };

    ghost makes_bare = { λ d t h. h };
}

impl HasEncoder for Outcome {
    type Encoder = BareEncoder<3>;
}

impl<'a> HasDecoder<'a> for Outcome {
    type Decoder = VariantDecoder<'a, 3, true>;
}

impl DecodeOwned for Outcome {}
