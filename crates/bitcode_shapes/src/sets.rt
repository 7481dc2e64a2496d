//! Sets: the data of their keys, in key order for an ordered set and in an internal order for a hashed one.
ghost use Rattle.std.specs.Cmp.Lexicographic.{pointwise, slice_cmp};
ghost use Rattle.bitcode_shapes.specs.BuiltEntries.{hashed_set_of};
ghost use Rattle.bitcode_shapes.specs.SetData.{hashed_set_data, ordered_set_data};

use crate::keys::Key;
use crate::shaped::Shaped;
use std::collections::{BTreeSet, HashSet};
use std::hash::Hash;

impl<T: Key> Shaped for BTreeSet<T> {
    ghost data = { ordered_set_data T.data };

    fn told(&self) {
        let _count = self.len();
        for key in self.iter() {
            key.told();
        }
    }
}

impl<T: Key> Key for BTreeSet<T> {
    ghost equal = { λ i s t. pointwise (T.equal i) s.keys t.keys };

    ghost ordered = { λ i s t. slice_cmp (T.ordered i) s.keys t.keys };
}

impl<T: Key + Hash> Shaped for HashSet<T> {
    ghost data = { hashed_set_data T.data (λ s. s.keys) hashed_set_of };

    fn told(&self) {
        let _count = self.len();
        for key in self.iter() {
            key.told();
        }
    }
}
