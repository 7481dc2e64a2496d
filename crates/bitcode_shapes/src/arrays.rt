//! Arrays: their data are those of their elements.
ghost use Rattle.std.specs.Cmp.Lexicographic.{pointwise, slice_cmp};
ghost use Rattle.bitcode_shapes.specs.DataKinds.{array_data};

use crate::keys::Key;
use crate::lists::told_each;
use crate::shaped::Shaped;

impl<T: Shaped, const N: usize> Shaped for [T; N] {
    ghost data = { array_data N T.data };

    fn told(&self) {
        told_each(self.as_slice());
    }
}

impl<T: Key, const N: usize> Key for [T; N] {
    ghost equal = { λ i xs ys. pointwise (T.equal i) xs ys };

    ghost ordered = { λ i xs ys. slice_cmp (T.ordered i) xs ys };
}
