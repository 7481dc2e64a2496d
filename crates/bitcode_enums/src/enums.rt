//! Enums with fields: what an enum states about its variants.
ghost use Rattle.std.specs.Prelude.{◌≡◌};
ghost use Rattle.bitcode_shapes.specs.Datum.{Datum};
ghost use Rattle.bitcode_shapes.specs.Choices.{ListsChoice, MakesChoice};
ghost use Rattle.bitcode_shapes.specs.Shape.{variant_count, choice_shape};
ghost use Rattle.bitcode_enums.specs.EachVariant.{EachVariant};
ghost use Rattle.bitcode_enums.specs.Told.{IsTold};

use bitcode_shapes::shaped::Shaped;
use bitcode_tuples::fields::Fields;

/// An enum of 2 to 256 variants, numbered from 0 in the order of their declaration.
///
/// ```rust,from:crates/bitcode_own_types/src/two.rt
/// impl Enum for Two {
///     ghost each = { each_variant
///         (payload_and ⟦<u8 as Shaped>⟧.data (last_payload ⟦<i8 as Shaped>⟧.data)) refl
///         (λ at. elim [ Two.A a ↦ at 0 a | Two.B a ↦ at 1 a ])
///         ((λ p. (Two.A p, refl)), λ p. (Two.B p, refl))
///         (elim [ Two.A a ↦ refl | Two.B a ↦ refl ]) };
///
///     fn variant(&self) -> u8 {
///         match self {
///             Two::A(a) => told_as(0, &a),
///             Two::B(a) => told_as(1, &a),
///         }
///     }
/// }
///
/// impl Shaped for Two {
///     ghost data = { enum_data ⟦<Two as Enum>⟧.each };
///
///     fn told(&self) {
///         let _number = self.variant();
///     }
/// }
///
/// impl EnumOf<2> for Two {
///     ghost counted = { (refl, refl) };
///
///     ghost lists_variants = { λ t d listed. listed };
///
///     ghost makes_variants = { λ d t made. made };
/// }
/// ```
pub trait Enum {
    // what its variants are, what their payloads hold, how they are written and read, and what is promised of that
    ghost each: { EachVariant Self };

    /// The number of the value's variant. The value satisfies its type's invariant, by `told` of its fields.
    fn variant(&self) -> u8
        ensures number { result ≡ each.variants.index self.now }
        ensures value { each.variants.is_value self.now };
}

/// An enum of `N` variants, with the record of its variants. It has no functions.
pub trait EnumOf<const N: usize>: Enum + Shaped {
    // there are `N`, and the type has their shape
    ghost counted: { (variant_count Self.Enum.each.variants.shapes ≡ N)
        × (Self.data.shape ≡ choice_shape Self.Enum.each.variants.shapes) };

    ghost lists_variants: { (t : Self) (d : Datum) → ListsChoice Self.Enum.each.variants.lists t d
        → Self.data.lists t d };

    ghost makes_variants: { (d : Datum) (t : Self) → MakesChoice Self.Enum.each.variants.makes d t
        → Self.data.makes d t };
}

/// Returns the number of a variant whose fields satisfy their types' invariants.
///
/// ```rust,from:crates/bitcode_own_types/src/two.rt
/// Two::B(a) => told_as(1, &a),
/// ```
pub fn told_as<F: Fields>(number: u8, fields: &F) -> u8
    ensures number { result ≡ number }
    ensures value { IsTold F.Whole.data.is_value (F.whole fields.now) }
{
    fields.told();
    number
}
