//! `Kind` numbers its variants. What is below its declaration was written by `scripts/new_type`.
ghost use Rattle.std.specs.Prelude.{[], ◌∷◌, refl};
ghost use Rattle.bitcode.specs.ByHand.{bare_data};
ghost use Rattle.snapshots.specs.declared.kind.Kind.{Kind};

use bitcode::own::{BareEncoder, BareShaped, BareVariants};
use bitcode::{DecodeOwned, HasDecoder, HasEncoder, Shaped, VariantDecoder};

/// What an entity is.
#[derive(Debug, Clone, Copy, PartialEq)]
pub enum Kind {
    Player,
    Monster,
    Arrow,
    Chest,
}

impl BareVariants<4> for Kind {
    ghost variant = { elim
        [ Kind.Player ↦ 0 | Kind.Monster ↦ 1 | Kind.Arrow ↦ 2 | Kind.Chest ↦ 3 ] };

    ghost values = { Kind.Player ∷ Kind.Monster ∷ Kind.Arrow ∷ Kind.Chest ∷ [] };

    ghost in_order = { (refl, refl) };

    ghost one_to_one = { elim
        [ Kind.Player ↦ refl | Kind.Monster ↦ refl | Kind.Arrow ↦ refl | Kind.Chest ↦ refl ] };

    fn index(&self) -> u8 {
        *self as u8
    }

    fn from_index(index: u8) -> Self {
        match index {
            0 => Kind::Player,
            1 => Kind::Monster,
            2 => Kind::Arrow,
            _ => Kind::Chest,
        }
    }
}

impl Shaped for Kind {
    ghost data = { bare_data 4 ⟦<Kind as BareVariants<4>>⟧.variant
        ⟦<Kind as BareVariants<4>>⟧.values ⟦<Kind as BareVariants<4>>⟧.in_order
        ⟦<Kind as BareVariants<4>>⟧.one_to_one };

    fn told(&self) {
        let _index = self.index();
    }
}

impl BareShaped<4> for Kind {
    ghost has_shape = { refl };

    ghost lists_bare = { λ t d h. h };

    ghost makes_bare = { λ d t h. h };
}

impl HasEncoder for Kind {
    type Encoder = BareEncoder<4>;
}

impl<'a> HasDecoder<'a> for Kind {
    type Decoder = VariantDecoder<'a, 4, true>;
}

impl DecodeOwned for Kind {}
