//! Which part of a value is written: the value itself, the target of a reference, or a field of a pair.
ghost use Rattle.std.specs.Prelude.{◌≡◌, All, map};

use bitcode_shapes::shaped::Shaped;
use std::marker::PhantomData;

/// A part of type `T` that each value of `S` has.
///
/// ```
/// pub struct Level {}
///
/// impl Part<Hero, u8> for Level {
///     ghost of = { λ level hero. hero.level };
///
///     fn part<'b>(&'b self, whole: &'b Hero) -> &'b u8 {
///         &whole.level
///     }
/// }
/// ```
pub trait Part<S, T> {
    // the part
    ghost of: { Self → S → T };

    /// The part.
    fn part<'b>(&'b self, whole: &'b S) -> &'b T
        ensures { result.now ≡ of self.now whole.now };
}

/// The whole value.
pub struct Itself;

impl<T> Part<T, T> for Itself {
    ghost of = { λ w t. t };

    fn part<'b>(&'b self, whole: &'b T) -> &'b T {
        whole
    }
}

/// The target of a reference.
pub struct Behind;

impl<'a, T> Part<&'a T, T> for Behind {
    ghost of = { λ w reference. reference.now };

    fn part<'b>(&'b self, whole: &'b &'a T) -> &'b T {
        *whole
    }
}

/// The first field of a pair that is a part of another value.
pub struct First<'w, W, Q> {
    pair: &'w W,
    second: PhantomData<Q>,
}

impl<'w, W, Q> First<'w, W, Q> {
    /// The first field of the pair that `pair` selects.
    pub fn of(pair: &'w W) -> Self
        ensures { result.pair.now ≡ pair.now }
    {
        First {
            pair,
            second: PhantomData,
        }
    }
}

impl<'w, W, Q> Drop for First<'w, W, Q> {
    fn drop(self) {
        let First { pair: _, second: _ } = self;
    }
}

impl<'w, S, P, Q, W: Part<S, (P, Q)>> Part<S, P> for First<'w, W, Q> {
    ghost of = { λ w whole. (W.of w.pair.now whole).0 };

    fn part<'b>(&'b self, whole: &'b S) -> &'b P {
        &self.pair.part(whole).0
    }
}

/// The second field of a pair that is a part of another value.
pub struct Second<'w, W, P> {
    pair: &'w W,
    first: PhantomData<P>,
}

impl<'w, W, P> Second<'w, W, P> {
    /// The second field of the pair that `pair` selects.
    pub fn of(pair: &'w W) -> Self
        ensures { result.pair.now ≡ pair.now }
    {
        Second {
            pair,
            first: PhantomData,
        }
    }
}

impl<'w, W, P> Drop for Second<'w, W, P> {
    fn drop(self) {
        let Second { pair: _, first: _ } = self;
    }
}

impl<'w, S, P, Q, W: Part<S, (P, Q)>> Part<S, Q> for Second<'w, W, P> {
    ghost of = { λ w whole. (W.of w.pair.now whole).1 };

    fn part<'b>(&'b self, whole: &'b S) -> &'b Q {
        &self.pair.part(whole).1
    }
}

/// The part of each item satisfies its type's invariant.
pub fn told_parts<S, T: Shaped, W: Part<S, T>>(items: &[S], which: &W)
    ensures { All T.data.is_value (map (W.of which.now) items.now) }
{
    for item in items {
        which.part(item).told();
    }
}
