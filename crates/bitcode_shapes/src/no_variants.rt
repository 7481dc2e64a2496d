//! Types without values, such as an enum without variants: no data.
ghost use Rattle.std.specs.Prelude.{ℕ};
ghost use Rattle.bitcode_shapes.specs.LeafData.{never_data};

use crate::shaped::Shaped;

/// A type without values, such as an enum without variants.
///
/// Its one member proves that there is no value. `Absent` of such a type is lawful: no datum has its shape, so nothing
/// is ever encoded or decoded as it.
///
/// ```
/// enum Never {}
///
/// impl NoVariants for Never {
///     ghost never = { λ t P h. elim t [ ] };
/// }
/// ```
pub trait NoVariants {
    // from a value 0 and 1 are one, and so anything follows
    ghost never: { (t : Self) (P : ℕ → Type 0) → P 0 → P 1 };
}

/// A struct with a value of a type without values. So it has no values either.
#[derive(Drop)]
pub struct Absent<T> {
    value: T,
}

impl<T: NoVariants> Shaped for Absent<T> {
    ghost data = { never_data (λ p. T.never p.value) };

    fn told(&self) {}
}
