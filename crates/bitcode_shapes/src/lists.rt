//! Slices, vectors, queues and linked lists: their elements, front to back.
ghost use Rattle.std.specs.Prelude.{All, refl};
ghost use Rattle.std.specs.Cmp.Lexicographic.{pointwise, slice_cmp};
ghost use Rattle.std.specs.Vec.{vec_items};
ghost use Rattle.std.specs.VecDeque.{deque_items};
ghost use Rattle.bitcode_shapes.specs.BuiltLists.{deque_built, list_built};
ghost use Rattle.bitcode_shapes.specs.DataKinds.{seq_data};
ghost use Rattle.bitcode_shapes.specs.LawfulLists.{vec_built};

use crate::keys::Key;
use crate::shaped::Shaped;
use std::collections::{LinkedList, VecDeque};

/// Each element satisfies its type's invariant.
pub fn told_each<T: Shaped>(items: &[T])
    ensures { All T.data.is_value items.now }
{
    for item in items {
        item.told();
    }
}

/// The target of each reference satisfies its type's invariant.
pub fn told_behind<T: Shaped>(references: &[&T])
    ensures { All (λ reference. T.data.is_value reference.now) references.now }
{
    for reference in references {
        reference.told();
    }
}

impl<T: Shaped> Shaped for Vec<T> {
    ghost data = { seq_data T.data vec_items vec_built };

    fn told(&self) {
        told_each(self.as_slice());
    }
}

impl<T: Key> Key for Vec<T> {
    ghost equal = { λ i v w. pointwise (T.equal i) v.items w.items };

    ghost ordered = { λ i v w. slice_cmp (T.ordered i) v.items w.items };
}

impl<'a, T: Shaped> Shaped for &'a [T] {
    ghost data = { seq_data T.data (λ s. s.now)
        (λ g values small. (record { ref_ptr = (0, 0); now = values }, refl)) };

    fn told(&self) {
        told_each(*self);
    }
}

impl<'a, T: Key> Key for &'a [T] {
    ghost equal = { λ i s t. pointwise (T.equal i) s.now t.now };

    ghost ordered = { λ i s t. slice_cmp (T.ordered i) s.now t.now };
}

impl<T: Shaped> Shaped for VecDeque<T> {
    ghost data = { seq_data T.data deque_items deque_built };

    fn told(&self) {
        let (front, back) = self.as_slices();
        told_each(front);
        told_each(back);
    }
}

impl<T: Key> Key for VecDeque<T> {
    ghost equal = { λ i q r. pointwise (T.equal i) (deque_items q) (deque_items r) };

    ghost ordered = { λ i q r. slice_cmp (T.ordered i) (deque_items q) (deque_items r) };
}

impl<T: Shaped> Shaped for LinkedList<T> {
    ghost data = { seq_data T.data (λ l. l) (λ g. list_built) };

    fn told(&self) {
        for element in self.iter() {
            element.told();
        }
    }
}

impl<T: Key> Key for LinkedList<T> {
    ghost equal = { λ i l m. pointwise (T.equal i) l m };

    ghost ordered = { λ i l m. slice_cmp (T.ordered i) l m };
}
