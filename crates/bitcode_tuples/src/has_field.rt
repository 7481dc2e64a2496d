//! Values with numbered fields.
ghost use Rattle.std.specs.Prelude.{◌≡◌};

use bitcode_coder::part::Part;
use bitcode_shapes::shaped::Shaped;
use std::marker::PhantomData;

/// A value with a field that has the number `I`. The first field has the number 0.
///
/// ```rust,from:crates/bitcode_own_types/src/meters.rt
/// impl HasField<0> for Meters {
///     type Field = u32;
///
///     ghost field = { λ t. t.0 };
///
///     fn field(&self) -> &u32 {
///         &self.0
///     }
/// }
/// ```
pub trait HasField<const I: usize> {
    /// The type of the field.
    type Field: Shaped;

    // the field
    ghost field: { Self → Self.Field };

    /// The field.
    fn field<'b>(&'b self) -> &'b Self::Field
        ensures { result.now ≡ field self.now };
}

/// The field with the number `I`, as a type.
pub struct Nth<const I: usize> {}

/// A field of a `T` that is itself a part of another value.
pub(crate) struct FieldIn<'w, const I: usize, W, T> {
    pub(crate) of: &'w W,
    pub(crate) whose: PhantomData<T>,
}

impl<'w, const I: usize, W, T> Drop for FieldIn<'w, I, W, T> {
    fn drop(self) {
        let FieldIn { of: _, whose: _ } = self;
    }
}

impl<'w, const I: usize, S, T: HasField<I>, W: Part<S, T>> Part<S, T::Field>
    for FieldIn<'w, I, W, T> {
    ghost of = { λ w s. T.field (W.of w.of.now s) };

    fn part<'b>(&'b self, whole: &'b S) -> &'b T::Field {
        self.of.part(whole).field()
    }
}

/// No field.
pub(crate) struct Nothing;

impl<S> Part<S, ()> for Nothing {
    ghost of = { λ w s. tt };

    fn part<'b>(&'b self, _whole: &'b S) -> &'b () {
        &()
    }
}
