//! Options and results: the index of a variant, and its payload.
ghost use Rattle.std.specs.Option.{option_cmp, option_eq};
ghost use Rattle.std.specs.Result.{result_cmp, result_eq};
ghost use Rattle.bitcode_shapes.specs.DataKinds.{option_data, result_data};

use crate::keys::Key;
use crate::shaped::Shaped;

impl<T: Shaped> Shaped for Option<T> {
    ghost data = { option_data T.data };

    fn told(&self) {
        if let Some(t) = self {
            t.told();
        }
    }
}

impl<T: Key> Key for Option<T> {
    ghost equal = { λ i. option_eq (T.equal i) };

    ghost ordered = { λ i. option_cmp (T.ordered i) };
}

impl<T: Shaped, E: Shaped> Shaped for Result<T, E> {
    ghost data = { result_data T.data E.data };

    fn told(&self) {
        match self {
            Ok(t) => t.told(),
            Err(e) => e.told(),
        }
    }
}

impl<T: Key, E: Key> Key for Result<T, E> {
    ghost equal = { λ i. result_eq (T.equal i) (E.equal i) };

    ghost ordered = { λ i. result_cmp (T.ordered i) (E.ordered i) };
}
