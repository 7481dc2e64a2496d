//! Pointers: the data of what they own, a value or, for a boxed or shared slice, a sequence.
ghost use Rattle.std.specs.Arc.{arc_value, arc_slice_items};
ghost use Rattle.std.specs.Box.{box_value, boxed_slice_items};
ghost use Rattle.std.specs.Cmp.Lexicographic.{pointwise, slice_cmp};
ghost use Rattle.std.specs.Rc.{rc_value, rc_slice_items};
ghost use Rattle.bitcode_shapes.specs.DataKinds.{seq_data};
ghost use Rattle.bitcode_shapes.specs.DataOf.{pointed_data};
ghost use Rattle.bitcode_shapes.specs.Pointers.{arc_built, arc_slice_built, box_built};
ghost use Rattle.bitcode_shapes.specs.Pointers.{boxed_slice_built, rc_built, rc_slice_built};

use crate::keys::Key;
use crate::lists::told_each;
use crate::shaped::Shaped;
use std::boxed::BoxedSlice;
use std::rc::{Rc, RcSlice};
use std::sync::{Arc, ArcSlice};

impl<T: Shaped> Shaped for Box<T> {
    ghost data = { pointed_data box_value box_built T.data };

    fn told(&self) {
        self.as_ref().told();
    }
}

impl<T: Key> Key for Box<T> {
    ghost equal = { λ i p q. T.equal i (box_value p) (box_value q) };

    ghost ordered = { λ i p q. T.ordered i (box_value p) (box_value q) };
}

impl<T: Shaped> Shaped for Rc<T> {
    ghost data = { pointed_data rc_value rc_built T.data };

    fn told(&self) {
        self.as_ref().told();
    }
}

impl<T: Key> Key for Rc<T> {
    ghost equal = { λ i p q. T.equal i (rc_value p) (rc_value q) };

    ghost ordered = { λ i p q. T.ordered i (rc_value p) (rc_value q) };
}

impl<T: Shaped> Shaped for Arc<T> {
    ghost data = { pointed_data arc_value arc_built T.data };

    fn told(&self) {
        self.as_ref().told();
    }
}

impl<T: Key> Key for Arc<T> {
    ghost equal = { λ i p q. T.equal i (arc_value p) (arc_value q) };

    ghost ordered = { λ i p q. T.ordered i (arc_value p) (arc_value q) };
}

impl<T: Shaped> Shaped for BoxedSlice<T> {
    ghost data = { seq_data T.data boxed_slice_items boxed_slice_built };

    fn told(&self) {
        told_each(self.as_slice());
    }
}

impl<T: Key> Key for BoxedSlice<T> {
    ghost equal = { λ i p q. pointwise (T.equal i) (boxed_slice_items p) (boxed_slice_items q) };

    ghost ordered = { λ i p q. slice_cmp (T.ordered i) (boxed_slice_items p)
        (boxed_slice_items q) };
}

impl<T: Shaped> Shaped for RcSlice<T> {
    ghost data = { seq_data T.data rc_slice_items rc_slice_built };

    fn told(&self) {
        told_each(self.as_slice());
    }
}

impl<T: Key> Key for RcSlice<T> {
    ghost equal = { λ i p q. pointwise (T.equal i) (rc_slice_items p) (rc_slice_items q) };

    ghost ordered = { λ i p q. slice_cmp (T.ordered i) (rc_slice_items p) (rc_slice_items q) };
}

impl<T: Shaped> Shaped for ArcSlice<T> {
    ghost data = { seq_data T.data arc_slice_items arc_slice_built };

    fn told(&self) {
        told_each(self.as_slice());
    }
}

impl<T: Key> Key for ArcSlice<T> {
    ghost equal = { λ i p q. pointwise (T.equal i) (arc_slice_items p) (arc_slice_items q) };

    ghost ordered = { λ i p q. slice_cmp (T.ordered i) (arc_slice_items p) (arc_slice_items q) };
}
