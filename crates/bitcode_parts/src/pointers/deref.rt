//! The encoder of types whose values point to a value of another type.
ghost use Rattle.std.specs.Prelude.{◌≡◌, [], None, false};
ghost use Rattle.std.proofs.Common.{sym, ◌∙◌, ap, subst};
ghost use Rattle.bitcode_coder.specs.Coder.{ListsAsToo, written_columns, SurelyOverflows};
ghost use Rattle.bitcode_coder.specs.Columns.{lengths, one, two};

use crate::lists::vec::VecEncoder;
use crate::pointers::pointed::Pointed;
use bitcode_coder::coder::{Buffer, EncodeMany, Encoder, HoldsColumns, encode_parts};
use bitcode_coder::part::Part;
use bitcode_memory::error::Error;
use bitcode_shapes::shaped::Shaped;
use std::alloc::Global;
use std::boxed::BoxedSlice;
use std::rc::RcSlice;
use std::sync::ArcSlice;

/// A type whose values point to one value of another type and are written as that value, such as `Box`.
///
/// ```rust,from:crates/bitcode_parts/src/pointers.rt
/// impl<T: Shaped> Points for Box<T> {
///     type Target = T;
///     // ..
///     fn target(&self) -> &T {
///         self.as_ref()
///     }
///     // ..
/// }
/// ```
pub trait Points: Shaped {
    /// The type of the value that is written.
    type Target: Shaped;

    // the value that is written
    ghost points_to: { Self → Self.Target };

    /// The value that is written.
    fn target(&self) -> &Self::Target
        ensures is { result.now ≡ points_to self.now }
        ensures lists { ListsAsToo Self.data.lists Self.Target.data.lists self.now result.now };

    ghost same_shape: { Self.data.shape ≡ Self.Target.data.shape };

    ghost lists_too: { (p : Self) → ListsAsToo Self.data.lists Self.Target.data.lists p
        (points_to p) };
}

/// The columns of pointers: the columns of their targets, with the targets' encoder `E`.
///
/// It returns that encoder's errors, and allocates nothing itself.
///
/// ```rust
/// let mut boxes: DerefEncoder<IntEncoder<u8>> = DerefEncoder::new(alloc);
/// boxes.reserve(1)?;
/// boxes.encode(&Box::new(alloc, 123u8)?)?;
/// assert_eq!(rt; boxes.collect(alloc)?.as_slice(), [123].as_slice());
/// ```
#[derive(Drop)]
pub struct DerefEncoder<E> {
    inner: E,
}

impl<E: HoldsColumns> HoldsColumns for DerefEncoder<E> {
    ghost columns = { λ e. E.columns e.inner };

    ghost room = { λ e. E.room e.inner };

    ghost capacity = { λ e. E.capacity e.inner };

    ghost surely_overflows = { λ e n. E.surely_overflows e.inner n };

    ghost overflows = { λ e n. E.overflows e.inner n };

    ghost writes_free = { E.writes_free };
}

impl<E: Buffer> Buffer for DerefEncoder<E> {
    fn new(alloc: Global) -> Self {
        DerefEncoder {
            inner: E::new(alloc),
        }
    }

    fn reserve(&mut self, n: usize) -> Result<(), Error> {
        self.inner.reserve(n)
    }

    fn collect_into(&mut self, out: &mut Vec<u8>) -> Result<(), Error> {
        self.inner.collect_into(out)
    }

    fn clear(&mut self) {
        self.inner.clear();
    }
}

impl<P: Points, E: Encoder<P::Target>> Encoder<P> for DerefEncoder<E> {
    fn encode(&mut self, t: &P) -> Result<(), Error> {
        self.inner.encode(t.target())
    }

    fn write_directly(&mut self, t: &P, out: &mut Vec<u8>) -> Result<bool, Error> {
        self.inner.write_directly(t.target(), out)
    }

    ghost of_shape = { λ e. E.of_shape e.inner ∙ ap (λ shape. written_columns shape [])
        (sym P.same_shape) };

    ghost surely = { λ e n h. subst (λ shape. SurelyOverflows shape (E.columns e.inner) n)
        (sym P.same_shape) (E.surely e.inner n h) };
}

impl<P: Points, E: EncodeMany<P::Target>> EncodeMany<P> for DerefEncoder<E> {
    fn encode_part_of_each<S, W: Part<S, P>>(
        &mut self,
        items: &[S],
        which: &W,
        first: &P,
    ) -> Result<(), Error> {
        self.inner
            .encode_part_of_each(items, &Pointed::<W, P>::by(which), first.target())
    }

    ghost of_shape = { λ e. E.of_shape e.inner ∙ ap (λ shape. written_columns shape [])
        (sym P.same_shape) };

    ghost surely = { λ e n h. subst (λ shape. SurelyOverflows shape (E.columns e.inner) n)
        (sym P.same_shape) (E.surely e.inner n h) };
}

impl<T: Shaped, E: Buffer + EncodeMany<T>> Encoder<BoxedSlice<T>> for DerefEncoder<VecEncoder<E>> {
    fn encode(&mut self, t: &BoxedSlice<T>) -> Result<(), Error> {
        self.inner.encode(&t.as_slice())
    }

    ghost of_shape = { λ e. ap (two (one (lengths None) [])) (E.of_shape e.inner.elements) };

    ghost surely = { λ e n never. absurd never };
}

impl<T: Shaped, E: Buffer + EncodeMany<T>> EncodeMany<BoxedSlice<T>>
    for DerefEncoder<VecEncoder<E>> {
    fn encode_part_of_each<S, W: Part<S, BoxedSlice<T>>>(
        &mut self,
        items: &[S],
        which: &W,
        _first: &BoxedSlice<T>,
    ) -> Result<(), Error> {
        encode_parts(self, items, which)
    }

    ghost of_shape = { λ e. ap (two (one (lengths None) [])) (E.of_shape e.inner.elements) };

    ghost surely = { λ e n never. absurd never };
}

impl<T: Shaped, E: Buffer + EncodeMany<T>> Encoder<RcSlice<T>> for DerefEncoder<VecEncoder<E>> {
    fn encode(&mut self, t: &RcSlice<T>) -> Result<(), Error> {
        let items = t.as_slice();
        self.inner.encode(&items)
    }

    ghost of_shape = { λ e. ap (two (one (lengths None) [])) (E.of_shape e.inner.elements) };

    ghost surely = { λ e n never. absurd never };
}

impl<T: Shaped, E: Buffer + EncodeMany<T>> EncodeMany<RcSlice<T>> for DerefEncoder<VecEncoder<E>> {
    fn encode_part_of_each<S, W: Part<S, RcSlice<T>>>(
        &mut self,
        items: &[S],
        which: &W,
        _first: &RcSlice<T>,
    ) -> Result<(), Error> {
        encode_parts(self, items, which)
    }

    ghost of_shape = { λ e. ap (two (one (lengths None) [])) (E.of_shape e.inner.elements) };

    ghost surely = { λ e n never. absurd never };
}

impl<T: Shaped, E: Buffer + EncodeMany<T>> Encoder<ArcSlice<T>> for DerefEncoder<VecEncoder<E>> {
    fn encode(&mut self, t: &ArcSlice<T>) -> Result<(), Error> {
        let elements = t.as_slice();
        self.inner.encode(&elements)
    }

    ghost of_shape = { λ e. ap (two (one (lengths None) [])) (E.of_shape e.inner.elements) };

    ghost surely = { λ e n never. absurd never };
}

impl<T: Shaped, E: Buffer + EncodeMany<T>> EncodeMany<ArcSlice<T>> for DerefEncoder<VecEncoder<E>> {
    fn encode_part_of_each<S, W: Part<S, ArcSlice<T>>>(
        &mut self,
        items: &[S],
        which: &W,
        _first: &ArcSlice<T>,
    ) -> Result<(), Error> {
        encode_parts(self, items, which)
    }

    ghost of_shape = { λ e. ap (two (one (lengths None) [])) (E.of_shape e.inner.elements) };

    ghost surely = { λ e n never. absurd never };
}
