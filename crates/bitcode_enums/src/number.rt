//! Variant numbers as types, which tell coders the numbers of their variants.
ghost use Rattle.std.specs.Prelude.{◌≡◌, ℕ};

/// A variant number, as a type: [`At`].
///
/// ```text
/// let first = First::value(); // of any `First: VariantNumber`
/// ```
pub trait VariantNumber {
    // the number
    ghost value: { ℕ };

    /// The number.
    fn value() -> usize
        ensures { result ≡ value };
}

/// The variant with the number `NUMBER`, or the end of the variants before it. The type has no values.
///
/// ```rust
/// assert_eq!(rt; At::<7>::value(), 7);
/// ```
pub struct At<const NUMBER: usize> {}

impl<const NUMBER: usize> VariantNumber for At<NUMBER> {
    ghost value = { NUMBER };

    fn value() -> usize {
        NUMBER
    }
}
