//! Enums without payloads: the variant of each value, and the value of each variant.
ghost use Rattle.std.specs.Prelude.{◌≡◌, ◌<◌, ℕ, List, Some, slice_get};
ghost use Rattle.bitcode_shapes.specs.Datum.{Datum};
ghost use Rattle.bitcode_shapes.specs.BareVariants.{bare_shape, ListsBare, MakesBare, AreSomeInOrder};

use crate::shaped::Shaped;

/// An enum of `N` variants, 2 to 256, none of which has a payload. The variants are numbered from 0 in the order of
/// their declaration.
///
/// ```rust,from:crates/bitcode_own_types/src/outcome.rt
/// impl BareVariants<3> for Outcome {
///     ghost variant = { elim [ Outcome.Won ↦ 0 | Outcome.Drawn ↦ 1 | Outcome.Lost ↦ 2 ] };
///
///     ghost values = { Outcome.Won ∷ Outcome.Drawn ∷ Outcome.Lost ∷ [] };
///
///     ghost in_order = { (refl, refl) };
///
///     ghost one_to_one = { elim [ Outcome.Won ↦ refl | Outcome.Drawn ↦ refl | Outcome.Lost ↦ refl ] };
///
///     fn index(&self) -> u8 {
///         *self as u8
///     }
///
///     fn from_index(index: u8) -> Self {
///         match index {
///             0 => Outcome::Won,
///             1 => Outcome::Drawn,
///             _ => Outcome::Lost,
///         }
///     }
/// }
///
/// impl Shaped for Outcome {
///     ghost data = { bare_data 3 ⟦<Outcome as BareVariants<3>>⟧.variant
///         ⟦<Outcome as BareVariants<3>>⟧.values ⟦<Outcome as BareVariants<3>>⟧.in_order
///         ⟦<Outcome as BareVariants<3>>⟧.one_to_one };
///
///     fn told(&self) {
///         let _index = self.index();
///     }
/// }
///
/// impl BareShaped<3> for Outcome {
///     ghost has_shape = { refl };
///
///     ghost lists_bare = { λ t d h. h };
///
///     ghost makes_bare = { λ d t h. h };
/// }
/// ```
pub trait BareVariants<const N: usize> {
    // which variant a value is
    ghost variant: { Self → ℕ };

    // the value of each variant, in their order
    ghost values: { List Self };

    ghost in_order: { AreSomeInOrder variant values N };

    // its number determines a value: the one at that index of the values
    ghost one_to_one: { (t : Self) → slice_get values (variant t) ≡ Some t };

    /// The number of the value's variant.
    fn index(&self) -> u8
        ensures is { result ≡ variant self.now }
        ensures known { result < N };

    /// The value of a variant, which is below `N`.
    fn from_index(index: u8) -> Self
        requires { index < N }
        ensures { variant result ≡ index };
}

/// An enum without payloads whose record is that of its variants. It has no functions.
pub trait BareShaped<const N: usize>: BareVariants<N> + Shaped {
    ghost has_shape: { Self.data.shape ≡ bare_shape N };

    ghost lists_bare: { (t : Self) (d : Datum) → ListsBare Self.variant t d → Self.data.lists t d };

    ghost makes_bare: { (d : Datum) (t : Self) → MakesBare Self.variant d t → Self.data.makes d t };
}
