//! Vectors and texts with a fixed capacity: their elements or bytes.
ghost use Rattle.std.specs.Prelude.{refl};
ghost use Rattle.std.specs.Cmp.Lexicographic.{pointwise, slice_cmp};
ghost use Rattle.bitcode_shapes.specs.DataKinds.{array_string_data, array_vec_data};

use crate::keys::Key;
use crate::lists::told_each;
use crate::shaped::Shaped;
use arrayvec::{ArrayString, ArrayVec};

impl<T: Shaped, const N: usize> Shaped for ArrayVec<T, N> {
    ghost data = { array_vec_data N T.data };

    fn told(&self) {
        told_each(self.as_slice());
    }
}

impl<T: Key, const N: usize> Key for ArrayVec<T, N> {
    ghost equal = { λ i v w. pointwise (T.equal i) v.items w.items };

    ghost ordered = { λ i v w. slice_cmp (T.ordered i) v.items w.items };
}

impl<const N: usize> Shaped for ArrayString<N> {
    ghost data = { array_string_data N };

    fn told(&self) {
        self.as_str().told();
    }
}

impl<const N: usize> Key for ArrayString<N> {
    ghost equal = { refl };

    ghost ordered = { refl };
}
