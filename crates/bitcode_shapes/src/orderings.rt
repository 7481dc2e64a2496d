//! `Ordering`: an enum of three variants without fields.
ghost use Rattle.std.specs.Ordering.{ordering_index};
ghost use Rattle.std.specs.Prelude.{[], refl, ◌∷◌};
ghost use Rattle.std.specs.declared.cmp.Ordering.TheVariants.{Equal, Greater, Less};
ghost use Rattle.bitcode_shapes.specs.BareKeys.{bare_key};

use crate::bare_variants::{BareShaped, BareVariants};
use crate::keys::Key;
use crate::shaped::Shaped;
use std::cmp::Ordering;

impl BareVariants<3> for Ordering {
    ghost variant = { ordering_index };

    ghost values = { Less ∷ Equal ∷ Greater ∷ [] };

    ghost in_order = { (refl, refl) };

    ghost one_to_one = { elim [ Less ↦ refl | Equal ↦ refl | Greater ↦ refl ] };

    fn index(&self) -> u8 {
        match self {
            Ordering::Less => 0,
            Ordering::Equal => 1,
            Ordering::Greater => 2,
        }
    }

    fn from_index(index: u8) -> Self {
        match index {
            0 => Ordering::Less,
            1 => Ordering::Equal,
            _ => Ordering::Greater,
        }
    }
}

impl Shaped for Ordering {
    ghost data = { bare_key 3 ⟦<Ordering as BareVariants<3>>⟧.variant
        ⟦<Ordering as BareVariants<3>>⟧.values ⟦<Ordering as BareVariants<3>>⟧.in_order
        ⟦<Ordering as BareVariants<3>>⟧.one_to_one ⟦<Ordering as PartialEq>⟧.eq
        ⟦<Ordering as Ord>⟧.cmp refl refl };

    fn told(&self) {
        let _index = self.index();
    }
}

impl BareShaped<3> for Ordering {
    ghost has_shape = { refl };

    ghost lists_bare = { λ t d h. h };

    ghost makes_bare = { λ d t h. h };
}

impl Key for Ordering {
    ghost equal = { refl };

    ghost ordered = { refl };
}
