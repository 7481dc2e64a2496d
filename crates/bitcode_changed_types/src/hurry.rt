//! `Hurry` numbers its variants. What is below its declaration was written by `scripts/new_type`.
ghost use Rattle.std.specs.Prelude.{[], refl, ◌∷◌, ◌≡◌};
ghost use Rattle.bitcode.specs.ByHand.{bare_data};
ghost use Rattle.bitcode_changed_types.specs.declared.hurry.Hurry.{Hurry};

use crate::hurry_of1::HurryOf1;
use bitcode::own::{BareEncoder, BareShaped, BareVariants};
use bitcode::sealed::{
    Earlier, Expected, OpenError, ReadsVersions, Version, Versioned, open_version,
};
use bitcode::{DecodeOwned, Error, HasDecoder, HasEncoder, Shaped, VariantDecoder};
use std::alloc::Global;

/// How much a queue hurries.
#[derive(Debug, Clone, Copy, PartialEq, Eq)]
pub enum Hurry {
    Low,
    High,
    Highest,
}

impl BareVariants<3> for Hurry {
    ghost variant = { elim [ Hurry.Low ↦ 0 | Hurry.High ↦ 1 | Hurry.Highest ↦ 2 ] };

    ghost values = { Hurry.Low ∷ Hurry.High ∷ Hurry.Highest ∷ [] };

    ghost in_order = { (refl, refl) };

    ghost one_to_one = { elim [ Hurry.Low ↦ refl | Hurry.High ↦ refl | Hurry.Highest ↦ refl ] };

    fn index(&self) -> u8 {
        *self as u8
    }

    fn from_index(index: u8) -> Self {
        match index {
            0 => Hurry::Low,
            1 => Hurry::High,
            _ => Hurry::Highest,
        }
    }
}

impl Shaped for Hurry {
    ghost data = { bare_data 3 ⟦<Hurry as BareVariants<3>>⟧.variant
        ⟦<Hurry as BareVariants<3>>⟧.values ⟦<Hurry as BareVariants<3>>⟧.in_order
        ⟦<Hurry as BareVariants<3>>⟧.one_to_one };

    fn told(&self) {
        let _index = self.index();
    }
}

impl BareShaped<3> for Hurry {
    ghost has_shape = { refl };

    ghost lists_bare = { λ t d h. h };

    ghost makes_bare = { λ d t h. h };
}

impl HasEncoder for Hurry {
    type Encoder = BareEncoder<3>;
}

impl<'a> HasDecoder<'a> for Hurry {
    type Decoder = VariantDecoder<'a, 3, true>;
}

impl DecodeOwned for Hurry {}

impl Earlier<1> for Hurry {
    ghost use Rattle.bitcode_changed_types.specs.declared.hurry.Hurry.{Hurry};
    ghost use Rattle.bitcode_changed_types.specs.declared.hurry_of1.HurryOf1.{HurryOf1};

    type Before = HurryOf1;

    ghost is_upgrade = { elim
        [ HurryOf1.Low ↦ λ t. (t ≡ Hurry.Low) | HurryOf1.High ↦ λ t. (t ≡ Hurry.High) ] };

    fn upgrade(_alloc: Global, before: HurryOf1) -> Result<Self, Error> {
        match before {
            HurryOf1::Low => Ok(Hurry::Low),
            HurryOf1::High => Ok(Hurry::High),
        }
    }
}

/// Opens version 1 of `Hurry`.
pub struct HurryVersion1 {}

impl<'a> ReadsVersions<'a, Hurry> for HurryVersion1 {
    type Inside = ();

    ghost includes = { ⟦<Version<1> as ReadsVersions<'a, Hurry>>⟧.includes };

    ghost opens = { ⟦<Version<1> as ReadsVersions<'a, Hurry>>⟧.opens };

    ghost refuses = { ⟦<Version<1> as ReadsVersions<'a, Hurry>>⟧.refuses };

    fn includes(version: u16) -> bool {
        version == 1
    }

    fn open_earlier(
        alloc: Global,
        expected: &Expected,
        bytes: &'a [u8],
    ) -> Result<Hurry, OpenError> {
        open_version::<Version<1>, Hurry>(alloc, expected, bytes)
    }
}

impl Versioned for Hurry {
    type Versions = HurryVersion1;

    type Numbers = Version<1>;
}
