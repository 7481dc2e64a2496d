// Written by scripts/tables/tuples.
//! The fields of tuples of thirteen to sixteen fields, and the nested pairs that they are encoded as.
ghost use Rattle.std.specs.Prelude.{refl};
ghost use Rattle.bitcode_tuples.specs.FieldLaws.{field_alike, pair_alike};

use crate::has_field::{HasField, Nth};
use crate::struct_encoder::InFields;
use bitcode_shapes::shaped::Shaped;

impl<A: Shaped, B, C, D, E, F, G, H, I, J, K, L, M> HasField<0>
    for (A, B, C, D, E, F, G, H, I, J, K, L, M) {
    type Field = A;

    ghost field = { λ t. t.0 };

    fn field(&self) -> &A {
        &self.0
    }
}

impl<A, B: Shaped, C, D, E, F, G, H, I, J, K, L, M> HasField<1>
    for (A, B, C, D, E, F, G, H, I, J, K, L, M) {
    type Field = B;

    ghost field = { λ t. t.1.0 };

    fn field(&self) -> &B {
        &self.1
    }
}

impl<A, B, C: Shaped, D, E, F, G, H, I, J, K, L, M> HasField<2>
    for (A, B, C, D, E, F, G, H, I, J, K, L, M) {
    type Field = C;

    ghost field = { λ t. t.1.1.0 };

    fn field(&self) -> &C {
        &self.2
    }
}

impl<A, B, C, D: Shaped, E, F, G, H, I, J, K, L, M> HasField<3>
    for (A, B, C, D, E, F, G, H, I, J, K, L, M) {
    type Field = D;

    ghost field = { λ t. t.1.1.1.0 };

    fn field(&self) -> &D {
        &self.3
    }
}

impl<A, B, C, D, E: Shaped, F, G, H, I, J, K, L, M> HasField<4>
    for (A, B, C, D, E, F, G, H, I, J, K, L, M) {
    type Field = E;

    ghost field = { λ t. t.1.1.1.1.0 };

    fn field(&self) -> &E {
        &self.4
    }
}

impl<A, B, C, D, E, F: Shaped, G, H, I, J, K, L, M> HasField<5>
    for (A, B, C, D, E, F, G, H, I, J, K, L, M) {
    type Field = F;

    ghost field = { λ t. t.1.1.1.1.1.0 };

    fn field(&self) -> &F {
        &self.5
    }
}

impl<A, B, C, D, E, F, G: Shaped, H, I, J, K, L, M> HasField<6>
    for (A, B, C, D, E, F, G, H, I, J, K, L, M) {
    type Field = G;

    ghost field = { λ t. t.1.1.1.1.1.1.0 };

    fn field(&self) -> &G {
        &self.6
    }
}

impl<A, B, C, D, E, F, G, H: Shaped, I, J, K, L, M> HasField<7>
    for (A, B, C, D, E, F, G, H, I, J, K, L, M) {
    type Field = H;

    ghost field = { λ t. t.1.1.1.1.1.1.1.0 };

    fn field(&self) -> &H {
        &self.7
    }
}

impl<A, B, C, D, E, F, G, H, I: Shaped, J, K, L, M> HasField<8>
    for (A, B, C, D, E, F, G, H, I, J, K, L, M) {
    type Field = I;

    ghost field = { λ t. t.1.1.1.1.1.1.1.1.0 };

    fn field(&self) -> &I {
        &self.8
    }
}

impl<A, B, C, D, E, F, G, H, I, J: Shaped, K, L, M> HasField<9>
    for (A, B, C, D, E, F, G, H, I, J, K, L, M) {
    type Field = J;

    ghost field = { λ t. t.1.1.1.1.1.1.1.1.1.0 };

    fn field(&self) -> &J {
        &self.9
    }
}

impl<A, B, C, D, E, F, G, H, I, J, K: Shaped, L, M> HasField<10>
    for (A, B, C, D, E, F, G, H, I, J, K, L, M) {
    type Field = K;

    ghost field = { λ t. t.1.1.1.1.1.1.1.1.1.1.0 };

    fn field(&self) -> &K {
        &self.10
    }
}

impl<A, B, C, D, E, F, G, H, I, J, K, L: Shaped, M> HasField<11>
    for (A, B, C, D, E, F, G, H, I, J, K, L, M) {
    type Field = L;

    ghost field = { λ t. t.1.1.1.1.1.1.1.1.1.1.1.0 };

    fn field(&self) -> &L {
        &self.11
    }
}

impl<A, B, C, D, E, F, G, H, I, J, K, L, M: Shaped> HasField<12>
    for (A, B, C, D, E, F, G, H, I, J, K, L, M) {
    type Field = M;

    ghost field = { λ t. t.1.1.1.1.1.1.1.1.1.1.1.1.0 };

    fn field(&self) -> &M {
        &self.12
    }
}

impl<
    A: Shaped,
    B: Shaped,
    C: Shaped,
    D: Shaped,
    E: Shaped,
    F: Shaped,
    G: Shaped,
    H: Shaped,
    I: Shaped,
    J: Shaped,
    K: Shaped,
    L: Shaped,
    M: Shaped,
> InFields for (A, B, C, D, E, F, G, H, I, J, K, L, M) {
    type Numbers = (
        ((Nth<0>, (Nth<1>, Nth<2>)), (Nth<3>, (Nth<4>, Nth<5>))),
        (
            (Nth<6>, (Nth<7>, Nth<8>)),
            ((Nth<9>, Nth<10>), (Nth<11>, Nth<12>)),
        ),
    );

    type Inside = Self;

    ghost same_columns = { refl };

    ghost of_fields = { λ d h. h };

    ghost same_listings = { λ t. pair_alike
        (pair_alike (pair_alike field_alike (pair_alike field_alike field_alike))
        (pair_alike field_alike (pair_alike field_alike field_alike)))
        (pair_alike (pair_alike field_alike (pair_alike field_alike field_alike))
        (pair_alike (pair_alike field_alike field_alike) (pair_alike field_alike field_alike))) };
}

impl<A: Shaped, B, C, D, E, F, G, H, I, J, K, L, M, N> HasField<0>
    for (A, B, C, D, E, F, G, H, I, J, K, L, M, N) {
    type Field = A;

    ghost field = { λ t. t.0 };

    fn field(&self) -> &A {
        &self.0
    }
}

impl<A, B: Shaped, C, D, E, F, G, H, I, J, K, L, M, N> HasField<1>
    for (A, B, C, D, E, F, G, H, I, J, K, L, M, N) {
    type Field = B;

    ghost field = { λ t. t.1.0 };

    fn field(&self) -> &B {
        &self.1
    }
}

impl<A, B, C: Shaped, D, E, F, G, H, I, J, K, L, M, N> HasField<2>
    for (A, B, C, D, E, F, G, H, I, J, K, L, M, N) {
    type Field = C;

    ghost field = { λ t. t.1.1.0 };

    fn field(&self) -> &C {
        &self.2
    }
}

impl<A, B, C, D: Shaped, E, F, G, H, I, J, K, L, M, N> HasField<3>
    for (A, B, C, D, E, F, G, H, I, J, K, L, M, N) {
    type Field = D;

    ghost field = { λ t. t.1.1.1.0 };

    fn field(&self) -> &D {
        &self.3
    }
}

impl<A, B, C, D, E: Shaped, F, G, H, I, J, K, L, M, N> HasField<4>
    for (A, B, C, D, E, F, G, H, I, J, K, L, M, N) {
    type Field = E;

    ghost field = { λ t. t.1.1.1.1.0 };

    fn field(&self) -> &E {
        &self.4
    }
}

impl<A, B, C, D, E, F: Shaped, G, H, I, J, K, L, M, N> HasField<5>
    for (A, B, C, D, E, F, G, H, I, J, K, L, M, N) {
    type Field = F;

    ghost field = { λ t. t.1.1.1.1.1.0 };

    fn field(&self) -> &F {
        &self.5
    }
}

impl<A, B, C, D, E, F, G: Shaped, H, I, J, K, L, M, N> HasField<6>
    for (A, B, C, D, E, F, G, H, I, J, K, L, M, N) {
    type Field = G;

    ghost field = { λ t. t.1.1.1.1.1.1.0 };

    fn field(&self) -> &G {
        &self.6
    }
}

impl<A, B, C, D, E, F, G, H: Shaped, I, J, K, L, M, N> HasField<7>
    for (A, B, C, D, E, F, G, H, I, J, K, L, M, N) {
    type Field = H;

    ghost field = { λ t. t.1.1.1.1.1.1.1.0 };

    fn field(&self) -> &H {
        &self.7
    }
}

impl<A, B, C, D, E, F, G, H, I: Shaped, J, K, L, M, N> HasField<8>
    for (A, B, C, D, E, F, G, H, I, J, K, L, M, N) {
    type Field = I;

    ghost field = { λ t. t.1.1.1.1.1.1.1.1.0 };

    fn field(&self) -> &I {
        &self.8
    }
}

impl<A, B, C, D, E, F, G, H, I, J: Shaped, K, L, M, N> HasField<9>
    for (A, B, C, D, E, F, G, H, I, J, K, L, M, N) {
    type Field = J;

    ghost field = { λ t. t.1.1.1.1.1.1.1.1.1.0 };

    fn field(&self) -> &J {
        &self.9
    }
}

impl<A, B, C, D, E, F, G, H, I, J, K: Shaped, L, M, N> HasField<10>
    for (A, B, C, D, E, F, G, H, I, J, K, L, M, N) {
    type Field = K;

    ghost field = { λ t. t.1.1.1.1.1.1.1.1.1.1.0 };

    fn field(&self) -> &K {
        &self.10
    }
}

impl<A, B, C, D, E, F, G, H, I, J, K, L: Shaped, M, N> HasField<11>
    for (A, B, C, D, E, F, G, H, I, J, K, L, M, N) {
    type Field = L;

    ghost field = { λ t. t.1.1.1.1.1.1.1.1.1.1.1.0 };

    fn field(&self) -> &L {
        &self.11
    }
}

impl<A, B, C, D, E, F, G, H, I, J, K, L, M: Shaped, N> HasField<12>
    for (A, B, C, D, E, F, G, H, I, J, K, L, M, N) {
    type Field = M;

    ghost field = { λ t. t.1.1.1.1.1.1.1.1.1.1.1.1.0 };

    fn field(&self) -> &M {
        &self.12
    }
}

impl<A, B, C, D, E, F, G, H, I, J, K, L, M, N: Shaped> HasField<13>
    for (A, B, C, D, E, F, G, H, I, J, K, L, M, N) {
    type Field = N;

    ghost field = { λ t. t.1.1.1.1.1.1.1.1.1.1.1.1.1.0 };

    fn field(&self) -> &N {
        &self.13
    }
}

impl<
    A: Shaped,
    B: Shaped,
    C: Shaped,
    D: Shaped,
    E: Shaped,
    F: Shaped,
    G: Shaped,
    H: Shaped,
    I: Shaped,
    J: Shaped,
    K: Shaped,
    L: Shaped,
    M: Shaped,
    N: Shaped,
> InFields for (A, B, C, D, E, F, G, H, I, J, K, L, M, N) {
    type Numbers = (
        (
            (Nth<0>, (Nth<1>, Nth<2>)),
            ((Nth<3>, Nth<4>), (Nth<5>, Nth<6>)),
        ),
        (
            (Nth<7>, (Nth<8>, Nth<9>)),
            ((Nth<10>, Nth<11>), (Nth<12>, Nth<13>)),
        ),
    );

    type Inside = Self;

    ghost same_columns = { refl };

    ghost of_fields = { λ d h. h };

    ghost same_listings = { λ t. pair_alike
        (pair_alike (pair_alike field_alike (pair_alike field_alike field_alike))
        (pair_alike (pair_alike field_alike field_alike) (pair_alike field_alike field_alike)))
        (pair_alike (pair_alike field_alike (pair_alike field_alike field_alike))
        (pair_alike (pair_alike field_alike field_alike) (pair_alike field_alike field_alike))) };
}

impl<A: Shaped, B, C, D, E, F, G, H, I, J, K, L, M, N, O> HasField<0>
    for (A, B, C, D, E, F, G, H, I, J, K, L, M, N, O) {
    type Field = A;

    ghost field = { λ t. t.0 };

    fn field(&self) -> &A {
        &self.0
    }
}

impl<A, B: Shaped, C, D, E, F, G, H, I, J, K, L, M, N, O> HasField<1>
    for (A, B, C, D, E, F, G, H, I, J, K, L, M, N, O) {
    type Field = B;

    ghost field = { λ t. t.1.0 };

    fn field(&self) -> &B {
        &self.1
    }
}

impl<A, B, C: Shaped, D, E, F, G, H, I, J, K, L, M, N, O> HasField<2>
    for (A, B, C, D, E, F, G, H, I, J, K, L, M, N, O) {
    type Field = C;

    ghost field = { λ t. t.1.1.0 };

    fn field(&self) -> &C {
        &self.2
    }
}

impl<A, B, C, D: Shaped, E, F, G, H, I, J, K, L, M, N, O> HasField<3>
    for (A, B, C, D, E, F, G, H, I, J, K, L, M, N, O) {
    type Field = D;

    ghost field = { λ t. t.1.1.1.0 };

    fn field(&self) -> &D {
        &self.3
    }
}

impl<A, B, C, D, E: Shaped, F, G, H, I, J, K, L, M, N, O> HasField<4>
    for (A, B, C, D, E, F, G, H, I, J, K, L, M, N, O) {
    type Field = E;

    ghost field = { λ t. t.1.1.1.1.0 };

    fn field(&self) -> &E {
        &self.4
    }
}

impl<A, B, C, D, E, F: Shaped, G, H, I, J, K, L, M, N, O> HasField<5>
    for (A, B, C, D, E, F, G, H, I, J, K, L, M, N, O) {
    type Field = F;

    ghost field = { λ t. t.1.1.1.1.1.0 };

    fn field(&self) -> &F {
        &self.5
    }
}

impl<A, B, C, D, E, F, G: Shaped, H, I, J, K, L, M, N, O> HasField<6>
    for (A, B, C, D, E, F, G, H, I, J, K, L, M, N, O) {
    type Field = G;

    ghost field = { λ t. t.1.1.1.1.1.1.0 };

    fn field(&self) -> &G {
        &self.6
    }
}

impl<A, B, C, D, E, F, G, H: Shaped, I, J, K, L, M, N, O> HasField<7>
    for (A, B, C, D, E, F, G, H, I, J, K, L, M, N, O) {
    type Field = H;

    ghost field = { λ t. t.1.1.1.1.1.1.1.0 };

    fn field(&self) -> &H {
        &self.7
    }
}

impl<A, B, C, D, E, F, G, H, I: Shaped, J, K, L, M, N, O> HasField<8>
    for (A, B, C, D, E, F, G, H, I, J, K, L, M, N, O) {
    type Field = I;

    ghost field = { λ t. t.1.1.1.1.1.1.1.1.0 };

    fn field(&self) -> &I {
        &self.8
    }
}

impl<A, B, C, D, E, F, G, H, I, J: Shaped, K, L, M, N, O> HasField<9>
    for (A, B, C, D, E, F, G, H, I, J, K, L, M, N, O) {
    type Field = J;

    ghost field = { λ t. t.1.1.1.1.1.1.1.1.1.0 };

    fn field(&self) -> &J {
        &self.9
    }
}

impl<A, B, C, D, E, F, G, H, I, J, K: Shaped, L, M, N, O> HasField<10>
    for (A, B, C, D, E, F, G, H, I, J, K, L, M, N, O) {
    type Field = K;

    ghost field = { λ t. t.1.1.1.1.1.1.1.1.1.1.0 };

    fn field(&self) -> &K {
        &self.10
    }
}

impl<A, B, C, D, E, F, G, H, I, J, K, L: Shaped, M, N, O> HasField<11>
    for (A, B, C, D, E, F, G, H, I, J, K, L, M, N, O) {
    type Field = L;

    ghost field = { λ t. t.1.1.1.1.1.1.1.1.1.1.1.0 };

    fn field(&self) -> &L {
        &self.11
    }
}

impl<A, B, C, D, E, F, G, H, I, J, K, L, M: Shaped, N, O> HasField<12>
    for (A, B, C, D, E, F, G, H, I, J, K, L, M, N, O) {
    type Field = M;

    ghost field = { λ t. t.1.1.1.1.1.1.1.1.1.1.1.1.0 };

    fn field(&self) -> &M {
        &self.12
    }
}

impl<A, B, C, D, E, F, G, H, I, J, K, L, M, N: Shaped, O> HasField<13>
    for (A, B, C, D, E, F, G, H, I, J, K, L, M, N, O) {
    type Field = N;

    ghost field = { λ t. t.1.1.1.1.1.1.1.1.1.1.1.1.1.0 };

    fn field(&self) -> &N {
        &self.13
    }
}

impl<A, B, C, D, E, F, G, H, I, J, K, L, M, N, O: Shaped> HasField<14>
    for (A, B, C, D, E, F, G, H, I, J, K, L, M, N, O) {
    type Field = O;

    ghost field = { λ t. t.1.1.1.1.1.1.1.1.1.1.1.1.1.1.0 };

    fn field(&self) -> &O {
        &self.14
    }
}

impl<
    A: Shaped,
    B: Shaped,
    C: Shaped,
    D: Shaped,
    E: Shaped,
    F: Shaped,
    G: Shaped,
    H: Shaped,
    I: Shaped,
    J: Shaped,
    K: Shaped,
    L: Shaped,
    M: Shaped,
    N: Shaped,
    O: Shaped,
> InFields for (A, B, C, D, E, F, G, H, I, J, K, L, M, N, O) {
    type Numbers = (
        (
            (Nth<0>, (Nth<1>, Nth<2>)),
            ((Nth<3>, Nth<4>), (Nth<5>, Nth<6>)),
        ),
        (
            ((Nth<7>, Nth<8>), (Nth<9>, Nth<10>)),
            ((Nth<11>, Nth<12>), (Nth<13>, Nth<14>)),
        ),
    );

    type Inside = Self;

    ghost same_columns = { refl };

    ghost of_fields = { λ d h. h };

    ghost same_listings = { λ t. pair_alike
        (pair_alike (pair_alike field_alike (pair_alike field_alike field_alike))
        (pair_alike (pair_alike field_alike field_alike) (pair_alike field_alike field_alike)))
        (pair_alike (pair_alike (pair_alike field_alike field_alike)
        (pair_alike field_alike field_alike))
        (pair_alike (pair_alike field_alike field_alike) (pair_alike field_alike field_alike))) };
}

impl<A: Shaped, B, C, D, E, F, G, H, I, J, K, L, M, N, O, P> HasField<0>
    for (A, B, C, D, E, F, G, H, I, J, K, L, M, N, O, P) {
    type Field = A;

    ghost field = { λ t. t.0 };

    fn field(&self) -> &A {
        &self.0
    }
}

impl<A, B: Shaped, C, D, E, F, G, H, I, J, K, L, M, N, O, P> HasField<1>
    for (A, B, C, D, E, F, G, H, I, J, K, L, M, N, O, P) {
    type Field = B;

    ghost field = { λ t. t.1.0 };

    fn field(&self) -> &B {
        &self.1
    }
}

impl<A, B, C: Shaped, D, E, F, G, H, I, J, K, L, M, N, O, P> HasField<2>
    for (A, B, C, D, E, F, G, H, I, J, K, L, M, N, O, P) {
    type Field = C;

    ghost field = { λ t. t.1.1.0 };

    fn field(&self) -> &C {
        &self.2
    }
}

impl<A, B, C, D: Shaped, E, F, G, H, I, J, K, L, M, N, O, P> HasField<3>
    for (A, B, C, D, E, F, G, H, I, J, K, L, M, N, O, P) {
    type Field = D;

    ghost field = { λ t. t.1.1.1.0 };

    fn field(&self) -> &D {
        &self.3
    }
}

impl<A, B, C, D, E: Shaped, F, G, H, I, J, K, L, M, N, O, P> HasField<4>
    for (A, B, C, D, E, F, G, H, I, J, K, L, M, N, O, P) {
    type Field = E;

    ghost field = { λ t. t.1.1.1.1.0 };

    fn field(&self) -> &E {
        &self.4
    }
}

impl<A, B, C, D, E, F: Shaped, G, H, I, J, K, L, M, N, O, P> HasField<5>
    for (A, B, C, D, E, F, G, H, I, J, K, L, M, N, O, P) {
    type Field = F;

    ghost field = { λ t. t.1.1.1.1.1.0 };

    fn field(&self) -> &F {
        &self.5
    }
}

impl<A, B, C, D, E, F, G: Shaped, H, I, J, K, L, M, N, O, P> HasField<6>
    for (A, B, C, D, E, F, G, H, I, J, K, L, M, N, O, P) {
    type Field = G;

    ghost field = { λ t. t.1.1.1.1.1.1.0 };

    fn field(&self) -> &G {
        &self.6
    }
}

impl<A, B, C, D, E, F, G, H: Shaped, I, J, K, L, M, N, O, P> HasField<7>
    for (A, B, C, D, E, F, G, H, I, J, K, L, M, N, O, P) {
    type Field = H;

    ghost field = { λ t. t.1.1.1.1.1.1.1.0 };

    fn field(&self) -> &H {
        &self.7
    }
}

impl<A, B, C, D, E, F, G, H, I: Shaped, J, K, L, M, N, O, P> HasField<8>
    for (A, B, C, D, E, F, G, H, I, J, K, L, M, N, O, P) {
    type Field = I;

    ghost field = { λ t. t.1.1.1.1.1.1.1.1.0 };

    fn field(&self) -> &I {
        &self.8
    }
}

impl<A, B, C, D, E, F, G, H, I, J: Shaped, K, L, M, N, O, P> HasField<9>
    for (A, B, C, D, E, F, G, H, I, J, K, L, M, N, O, P) {
    type Field = J;

    ghost field = { λ t. t.1.1.1.1.1.1.1.1.1.0 };

    fn field(&self) -> &J {
        &self.9
    }
}

impl<A, B, C, D, E, F, G, H, I, J, K: Shaped, L, M, N, O, P> HasField<10>
    for (A, B, C, D, E, F, G, H, I, J, K, L, M, N, O, P) {
    type Field = K;

    ghost field = { λ t. t.1.1.1.1.1.1.1.1.1.1.0 };

    fn field(&self) -> &K {
        &self.10
    }
}

impl<A, B, C, D, E, F, G, H, I, J, K, L: Shaped, M, N, O, P> HasField<11>
    for (A, B, C, D, E, F, G, H, I, J, K, L, M, N, O, P) {
    type Field = L;

    ghost field = { λ t. t.1.1.1.1.1.1.1.1.1.1.1.0 };

    fn field(&self) -> &L {
        &self.11
    }
}

impl<A, B, C, D, E, F, G, H, I, J, K, L, M: Shaped, N, O, P> HasField<12>
    for (A, B, C, D, E, F, G, H, I, J, K, L, M, N, O, P) {
    type Field = M;

    ghost field = { λ t. t.1.1.1.1.1.1.1.1.1.1.1.1.0 };

    fn field(&self) -> &M {
        &self.12
    }
}

impl<A, B, C, D, E, F, G, H, I, J, K, L, M, N: Shaped, O, P> HasField<13>
    for (A, B, C, D, E, F, G, H, I, J, K, L, M, N, O, P) {
    type Field = N;

    ghost field = { λ t. t.1.1.1.1.1.1.1.1.1.1.1.1.1.0 };

    fn field(&self) -> &N {
        &self.13
    }
}

impl<A, B, C, D, E, F, G, H, I, J, K, L, M, N, O: Shaped, P> HasField<14>
    for (A, B, C, D, E, F, G, H, I, J, K, L, M, N, O, P) {
    type Field = O;

    ghost field = { λ t. t.1.1.1.1.1.1.1.1.1.1.1.1.1.1.0 };

    fn field(&self) -> &O {
        &self.14
    }
}

impl<A, B, C, D, E, F, G, H, I, J, K, L, M, N, O, P: Shaped> HasField<15>
    for (A, B, C, D, E, F, G, H, I, J, K, L, M, N, O, P) {
    type Field = P;

    ghost field = { λ t. t.1.1.1.1.1.1.1.1.1.1.1.1.1.1.1.0 };

    fn field(&self) -> &P {
        &self.15
    }
}

impl<
    A: Shaped,
    B: Shaped,
    C: Shaped,
    D: Shaped,
    E: Shaped,
    F: Shaped,
    G: Shaped,
    H: Shaped,
    I: Shaped,
    J: Shaped,
    K: Shaped,
    L: Shaped,
    M: Shaped,
    N: Shaped,
    O: Shaped,
    P: Shaped,
> InFields for (A, B, C, D, E, F, G, H, I, J, K, L, M, N, O, P) {
    type Numbers = (
        (
            ((Nth<0>, Nth<1>), (Nth<2>, Nth<3>)),
            ((Nth<4>, Nth<5>), (Nth<6>, Nth<7>)),
        ),
        (
            ((Nth<8>, Nth<9>), (Nth<10>, Nth<11>)),
            ((Nth<12>, Nth<13>), (Nth<14>, Nth<15>)),
        ),
    );

    type Inside = Self;

    ghost same_columns = { refl };

    ghost of_fields = { λ d h. h };

    ghost same_listings = { λ t. pair_alike
        (pair_alike (pair_alike (pair_alike field_alike field_alike)
        (pair_alike field_alike field_alike))
        (pair_alike (pair_alike field_alike field_alike) (pair_alike field_alike field_alike)))
        (pair_alike (pair_alike (pair_alike field_alike field_alike)
        (pair_alike field_alike field_alike))
        (pair_alike (pair_alike field_alike field_alike) (pair_alike field_alike field_alike))) };
}
