//! `Light` numbers its variants. What is below its declaration was written by `scripts/new_type`.
ghost use Rattle.std.specs.Prelude.{[], ◌∷◌, refl};
ghost use Rattle.bitcode.specs.ByHand.{bare_key};
ghost use Rattle.bitcode_own_types.specs.declared.light.Light.{Light};

use bitcode::own::{BareEncoder, BareShaped, BareVariants};
use bitcode::{DecodeOwned, HasDecoder, HasEncoder, Key, Shaped, VariantDecoder};

/// What a light shows.
#[derive(Debug, Clone, Copy, PartialEq, Eq, PartialOrd, Ord)]
pub enum Light {
    Red,
    Green,
}

impl BareVariants<2> for Light {
    ghost variant = { elim [ Light.Red ↦ 0 | Light.Green ↦ 1 ] };

    ghost values = { Light.Red ∷ Light.Green ∷ [] };

    ghost in_order = { (refl, refl) };

    ghost one_to_one = { elim [ Light.Red ↦ refl | Light.Green ↦ refl ] };

    fn index(&self) -> u8 {
        *self as u8
    }

    fn from_index(index: u8) -> Self {
        match index {
            0 => Light::Red,
            _ => Light::Green,
        }
    }
}

impl Shaped for Light {
    ghost data = { bare_key 2 ⟦<Light as BareVariants<2>>⟧.variant
        ⟦<Light as BareVariants<2>>⟧.values ⟦<Light as BareVariants<2>>⟧.in_order
        ⟦<Light as BareVariants<2>>⟧.one_to_one ⟦<Light as PartialEq>⟧.eq ⟦<Light as Ord>⟧.cmp refl
        refl };

    fn told(&self) {
        let _index = self.index();
    }
}

impl BareShaped<2> for Light {
    ghost has_shape = { refl };

    ghost lists_bare = { λ t d h. h };

    ghost makes_bare = { λ d t h. h };
}

impl HasEncoder for Light {
    type Encoder = BareEncoder<2>;
}

impl<'a> HasDecoder<'a> for Light {
    type Decoder = VariantDecoder<'a, 2, true>;
}

impl DecodeOwned for Light {}

impl Key for Light {
    ghost equal = { refl };

    ghost ordered = { refl };
}
