//! Maps: the data of their keys and values, in key order for an ordered map and in an internal order for a hashed one.
ghost use Rattle.std.specs.Prelude.{◌&&◌};
ghost use Rattle.std.specs.Cmp.Lexicographic.{pointwise, slice_cmp};
ghost use Rattle.std.specs.Ordering.{ordering_then};
ghost use Rattle.bitcode_shapes.specs.BuiltEntries.{ordered_map_of, hashed_map_of};
ghost use Rattle.bitcode_shapes.specs.SetData.{hashed_map_data, ordered_map_data};

use crate::keys::Key;
use crate::shaped::Shaped;
use std::collections::{BTreeMap, HashMap};
use std::hash::Hash;

impl<K: Key, V: Shaped> Shaped for BTreeMap<K, V> {
    ghost data = { ordered_map_data K.data V.data (λ m. m.entries) ordered_map_of };

    fn told(&self) {
        let _count = self.len();
        for (key, value) in self.iter() {
            key.told();
            value.told();
        }
    }
}

impl<K: Key, V: Key> Key for BTreeMap<K, V> {
    ghost equal = { λ i m n. pointwise (λ e f. K.equal i e.0 f.0 && V.equal i e.1 f.1) m.entries
        n.entries };

    ghost ordered = { λ i m n. slice_cmp
        (λ e f. ordering_then (K.ordered i e.0 f.0) (V.ordered i e.1 f.1)) m.entries n.entries };
}

impl<K: Key + Hash, V: Shaped> Shaped for HashMap<K, V> {
    ghost data = { hashed_map_data K.data V.data (λ m. m.entries) hashed_map_of };

    fn told(&self) {
        let _count = self.len();
        for (key, value) in self.iter() {
            key.told();
            value.told();
        }
    }
}
