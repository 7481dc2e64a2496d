//! `Level` numbers its variants. What is below its declaration was written by `scripts/new_type`.
ghost use Rattle.std.specs.Prelude.{[], ◌∷◌, refl};
ghost use Rattle.bitcode.specs.ByHand.{bare_data};
ghost use Rattle.frames.specs.declared.level.Level.{Level};

use bitcode::own::{BareEncoder, BareShaped, BareVariants};
use bitcode::{DecodeOwned, HasDecoder, HasEncoder, Shaped, VariantDecoder};

/// How bad it is.
#[derive(Debug, Clone, Copy, PartialEq)]
pub enum Level {
    Info,
    Warning,
    Failure,
}

impl BareVariants<3> for Level {
    ghost variant = { elim [ Level.Info ↦ 0 | Level.Warning ↦ 1 | Level.Failure ↦ 2 ] };

    ghost values = { Level.Info ∷ Level.Warning ∷ Level.Failure ∷ [] };

    ghost in_order = { (refl, refl) };

    ghost one_to_one = { elim [ Level.Info ↦ refl | Level.Warning ↦ refl | Level.Failure ↦ refl ] };

    fn index(&self) -> u8 {
        *self as u8
    }

    fn from_index(index: u8) -> Self {
        match index {
            0 => Level::Info,
            1 => Level::Warning,
            _ => Level::Failure,
        }
    }
}

impl Shaped for Level {
    ghost data = { bare_data 3 ⟦<Level as BareVariants<3>>⟧.variant
        ⟦<Level as BareVariants<3>>⟧.values ⟦<Level as BareVariants<3>>⟧.in_order
        ⟦<Level as BareVariants<3>>⟧.one_to_one };

    fn told(&self) {
        let _index = self.index();
    }
}

impl BareShaped<3> for Level {
    ghost has_shape = { refl };

    ghost lists_bare = { λ t d h. h };

    ghost makes_bare = { λ d t h. h };
}

impl HasEncoder for Level {
    type Encoder = BareEncoder<3>;
}

impl<'a> HasDecoder<'a> for Level {
    type Decoder = VariantDecoder<'a, 3, true>;
}

impl DecodeOwned for Level {}
