//! A part of a value that is the target of a pointer in it.
ghost use Rattle.std.specs.Prelude.{◌≡◌};

use crate::pointers::deref::Points;
use bitcode_coder::part::Part;
use std::marker::PhantomData;

// What the pointer points to that is itself a part.
pub(super) struct Pointed<'w, W, P> {
    pointer: &'w W,
    pointers: PhantomData<P>,
}

impl<'w, W, P> Pointed<'w, W, P> {
    // What the pointer that `pointer` says points to.
    pub(super) fn by(pointer: &'w W) -> Self
        ensures { result.pointer.now ≡ pointer.now }
    {
        Pointed {
            pointer,
            pointers: PhantomData,
        }
    }
}

impl<'w, W, P> Drop for Pointed<'w, W, P> {
    fn drop(self) {
        let Pointed {
            pointer: _,
            pointers: _,
        } = self;
    }
}

impl<'w, S, P: Points, W: Part<S, P>> Part<S, P::Target> for Pointed<'w, W, P> {
    ghost of = { λ w whole. P.points_to (W.of w.pointer.now whole) };

    fn part<'b>(&'b self, whole: &'b S) -> &'b P::Target {
        self.pointer.part(whole).target()
    }
}
