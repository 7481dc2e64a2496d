//! `HurryOf1` numbers its variants. What is below its declaration was written by `scripts/new_type`.
ghost use Rattle.std.specs.Prelude.{[], ◌∷◌, refl};
ghost use Rattle.bitcode.specs.ByHand.{bare_data};
ghost use Rattle.bitcode_changed_types.specs.declared.hurry_of1.HurryOf1.{HurryOf1};

use bitcode::own::{BareShaped, BareVariants};
use bitcode::{DecodeOwned, HasDecoder, Shaped, VariantDecoder};

/// `Hurry` as it was in version 1.
#[derive(Drop)]
pub enum HurryOf1 {
    Low,
    High,
}

impl BareVariants<2> for HurryOf1 {
    ghost variant = { elim [ HurryOf1.Low ↦ 0 | HurryOf1.High ↦ 1 ] };

    ghost values = { HurryOf1.Low ∷ HurryOf1.High ∷ [] };

    ghost in_order = { (refl, refl) };

    ghost one_to_one = { elim [ HurryOf1.Low ↦ refl | HurryOf1.High ↦ refl ] };

    fn index(&self) -> u8 {
        match self {
            HurryOf1::Low => 0,
            HurryOf1::High => 1,
        }
    }

    fn from_index(index: u8) -> Self {
        match index {
            0 => HurryOf1::Low,
            _ => HurryOf1::High,
        }
    }
}

impl Shaped for HurryOf1 {
    ghost data = { bare_data 2 ⟦<HurryOf1 as BareVariants<2>>⟧.variant
        ⟦<HurryOf1 as BareVariants<2>>⟧.values ⟦<HurryOf1 as BareVariants<2>>⟧.in_order
        ⟦<HurryOf1 as BareVariants<2>>⟧.one_to_one };

    fn told(&self) {
        let _index = self.index();
    }
}

impl BareShaped<2> for HurryOf1 {
    ghost has_shape = { refl };

    ghost lists_bare = { λ t d h. h };

    ghost makes_bare = { λ d t h. h };
}

impl<'a> HasDecoder<'a> for HurryOf1 {
    type Decoder = VariantDecoder<'a, 2, true>;
}

impl DecodeOwned for HurryOf1 {}
