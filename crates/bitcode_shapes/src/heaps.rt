//! Heaps: their elements, in the heap's internal order.
ghost use Rattle.std.specs.BinaryHeap.{heap_items};
ghost use Rattle.bitcode_shapes.specs.BuiltSets.{heap_built};
ghost use Rattle.bitcode_shapes.specs.SetData.{heap_data};

use crate::lists::told_each;
use crate::shaped::Shaped;
use std::cmp::Ord;
use std::collections::BinaryHeap;

impl<T: Shaped + Ord> Shaped for BinaryHeap<T> {
    ghost data = { heap_data T.data heap_items heap_built };

    fn told(&self) {
        told_each(self.as_slice());
    }
}
