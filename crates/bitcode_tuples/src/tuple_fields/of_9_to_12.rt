// Written by scripts/tables/tuples.
//! The fields of tuples of nine to twelve fields, and the nested pairs that they are encoded as.
ghost use Rattle.std.specs.Prelude.{refl};
ghost use Rattle.bitcode_tuples.specs.FieldLaws.{field_alike, pair_alike};

use crate::has_field::{HasField, Nth};
use crate::struct_encoder::InFields;
use bitcode_shapes::shaped::Shaped;

impl<A: Shaped, B, C, D, E, F, G, H, I> HasField<0> for (A, B, C, D, E, F, G, H, I) {
    type Field = A;

    ghost field = { λ t. t.0 };

    fn field(&self) -> &A {
        &self.0
    }
}

impl<A, B: Shaped, C, D, E, F, G, H, I> HasField<1> for (A, B, C, D, E, F, G, H, I) {
    type Field = B;

    ghost field = { λ t. t.1 };

    fn field(&self) -> &B {
        &self.1
    }
}

impl<A, B, C: Shaped, D, E, F, G, H, I> HasField<2> for (A, B, C, D, E, F, G, H, I) {
    type Field = C;

    ghost field = { λ t. t.2 };

    fn field(&self) -> &C {
        &self.2
    }
}

impl<A, B, C, D: Shaped, E, F, G, H, I> HasField<3> for (A, B, C, D, E, F, G, H, I) {
    type Field = D;

    ghost field = { λ t. t.3 };

    fn field(&self) -> &D {
        &self.3
    }
}

impl<A, B, C, D, E: Shaped, F, G, H, I> HasField<4> for (A, B, C, D, E, F, G, H, I) {
    type Field = E;

    ghost field = { λ t. t.4 };

    fn field(&self) -> &E {
        &self.4
    }
}

impl<A, B, C, D, E, F: Shaped, G, H, I> HasField<5> for (A, B, C, D, E, F, G, H, I) {
    type Field = F;

    ghost field = { λ t. t.5 };

    fn field(&self) -> &F {
        &self.5
    }
}

impl<A, B, C, D, E, F, G: Shaped, H, I> HasField<6> for (A, B, C, D, E, F, G, H, I) {
    type Field = G;

    ghost field = { λ t. t.6 };

    fn field(&self) -> &G {
        &self.6
    }
}

impl<A, B, C, D, E, F, G, H: Shaped, I> HasField<7> for (A, B, C, D, E, F, G, H, I) {
    type Field = H;

    ghost field = { λ t. t.7 };

    fn field(&self) -> &H {
        &self.7
    }
}

impl<A, B, C, D, E, F, G, H, I: Shaped> HasField<8> for (A, B, C, D, E, F, G, H, I) {
    type Field = I;

    ghost field = { λ t. t.8 };

    fn field(&self) -> &I {
        &self.8
    }
}

impl<
    A: Shaped,
    B: Shaped,
    C: Shaped,
    D: Shaped,
    E: Shaped,
    F: Shaped,
    G: Shaped,
    H: Shaped,
    I: Shaped,
> InFields for (A, B, C, D, E, F, G, H, I) {
    type Numbers = (
        ((Nth<0>, Nth<1>), (Nth<2>, Nth<3>)),
        ((Nth<4>, Nth<5>), (Nth<6>, (Nth<7>, Nth<8>))),
    );

    type Inside = Self;

    ghost same_columns = { refl };

    ghost of_fields = { λ d h. h };

    ghost same_listings = { λ t. pair_alike
        (pair_alike (pair_alike field_alike field_alike) (pair_alike field_alike field_alike))
        (pair_alike (pair_alike field_alike field_alike)
        (pair_alike field_alike (pair_alike field_alike field_alike))) };
}

impl<A: Shaped, B, C, D, E, F, G, H, I, J> HasField<0> for (A, B, C, D, E, F, G, H, I, J) {
    type Field = A;

    ghost field = { λ t. t.0 };

    fn field(&self) -> &A {
        &self.0
    }
}

impl<A, B: Shaped, C, D, E, F, G, H, I, J> HasField<1> for (A, B, C, D, E, F, G, H, I, J) {
    type Field = B;

    ghost field = { λ t. t.1 };

    fn field(&self) -> &B {
        &self.1
    }
}

impl<A, B, C: Shaped, D, E, F, G, H, I, J> HasField<2> for (A, B, C, D, E, F, G, H, I, J) {
    type Field = C;

    ghost field = { λ t. t.2 };

    fn field(&self) -> &C {
        &self.2
    }
}

impl<A, B, C, D: Shaped, E, F, G, H, I, J> HasField<3> for (A, B, C, D, E, F, G, H, I, J) {
    type Field = D;

    ghost field = { λ t. t.3 };

    fn field(&self) -> &D {
        &self.3
    }
}

impl<A, B, C, D, E: Shaped, F, G, H, I, J> HasField<4> for (A, B, C, D, E, F, G, H, I, J) {
    type Field = E;

    ghost field = { λ t. t.4 };

    fn field(&self) -> &E {
        &self.4
    }
}

impl<A, B, C, D, E, F: Shaped, G, H, I, J> HasField<5> for (A, B, C, D, E, F, G, H, I, J) {
    type Field = F;

    ghost field = { λ t. t.5 };

    fn field(&self) -> &F {
        &self.5
    }
}

impl<A, B, C, D, E, F, G: Shaped, H, I, J> HasField<6> for (A, B, C, D, E, F, G, H, I, J) {
    type Field = G;

    ghost field = { λ t. t.6 };

    fn field(&self) -> &G {
        &self.6
    }
}

impl<A, B, C, D, E, F, G, H: Shaped, I, J> HasField<7> for (A, B, C, D, E, F, G, H, I, J) {
    type Field = H;

    ghost field = { λ t. t.7 };

    fn field(&self) -> &H {
        &self.7
    }
}

impl<A, B, C, D, E, F, G, H, I: Shaped, J> HasField<8> for (A, B, C, D, E, F, G, H, I, J) {
    type Field = I;

    ghost field = { λ t. t.8 };

    fn field(&self) -> &I {
        &self.8
    }
}

impl<A, B, C, D, E, F, G, H, I, J: Shaped> HasField<9> for (A, B, C, D, E, F, G, H, I, J) {
    type Field = J;

    ghost field = { λ t. t.9 };

    fn field(&self) -> &J {
        &self.9
    }
}

impl<
    A: Shaped,
    B: Shaped,
    C: Shaped,
    D: Shaped,
    E: Shaped,
    F: Shaped,
    G: Shaped,
    H: Shaped,
    I: Shaped,
    J: Shaped,
> InFields for (A, B, C, D, E, F, G, H, I, J) {
    type Numbers = (
        ((Nth<0>, Nth<1>), (Nth<2>, (Nth<3>, Nth<4>))),
        ((Nth<5>, Nth<6>), (Nth<7>, (Nth<8>, Nth<9>))),
    );

    type Inside = Self;

    ghost same_columns = { refl };

    ghost of_fields = { λ d h. h };

    ghost same_listings = { λ t. pair_alike
        (pair_alike (pair_alike field_alike field_alike)
        (pair_alike field_alike (pair_alike field_alike field_alike)))
        (pair_alike (pair_alike field_alike field_alike)
        (pair_alike field_alike (pair_alike field_alike field_alike))) };
}

impl<A: Shaped, B, C, D, E, F, G, H, I, J, K> HasField<0> for (A, B, C, D, E, F, G, H, I, J, K) {
    type Field = A;

    ghost field = { λ t. t.0 };

    fn field(&self) -> &A {
        &self.0
    }
}

impl<A, B: Shaped, C, D, E, F, G, H, I, J, K> HasField<1> for (A, B, C, D, E, F, G, H, I, J, K) {
    type Field = B;

    ghost field = { λ t. t.1 };

    fn field(&self) -> &B {
        &self.1
    }
}

impl<A, B, C: Shaped, D, E, F, G, H, I, J, K> HasField<2> for (A, B, C, D, E, F, G, H, I, J, K) {
    type Field = C;

    ghost field = { λ t. t.2 };

    fn field(&self) -> &C {
        &self.2
    }
}

impl<A, B, C, D: Shaped, E, F, G, H, I, J, K> HasField<3> for (A, B, C, D, E, F, G, H, I, J, K) {
    type Field = D;

    ghost field = { λ t. t.3 };

    fn field(&self) -> &D {
        &self.3
    }
}

impl<A, B, C, D, E: Shaped, F, G, H, I, J, K> HasField<4> for (A, B, C, D, E, F, G, H, I, J, K) {
    type Field = E;

    ghost field = { λ t. t.4 };

    fn field(&self) -> &E {
        &self.4
    }
}

impl<A, B, C, D, E, F: Shaped, G, H, I, J, K> HasField<5> for (A, B, C, D, E, F, G, H, I, J, K) {
    type Field = F;

    ghost field = { λ t. t.5 };

    fn field(&self) -> &F {
        &self.5
    }
}

impl<A, B, C, D, E, F, G: Shaped, H, I, J, K> HasField<6> for (A, B, C, D, E, F, G, H, I, J, K) {
    type Field = G;

    ghost field = { λ t. t.6 };

    fn field(&self) -> &G {
        &self.6
    }
}

impl<A, B, C, D, E, F, G, H: Shaped, I, J, K> HasField<7> for (A, B, C, D, E, F, G, H, I, J, K) {
    type Field = H;

    ghost field = { λ t. t.7 };

    fn field(&self) -> &H {
        &self.7
    }
}

impl<A, B, C, D, E, F, G, H, I: Shaped, J, K> HasField<8> for (A, B, C, D, E, F, G, H, I, J, K) {
    type Field = I;

    ghost field = { λ t. t.8 };

    fn field(&self) -> &I {
        &self.8
    }
}

impl<A, B, C, D, E, F, G, H, I, J: Shaped, K> HasField<9> for (A, B, C, D, E, F, G, H, I, J, K) {
    type Field = J;

    ghost field = { λ t. t.9 };

    fn field(&self) -> &J {
        &self.9
    }
}

impl<A, B, C, D, E, F, G, H, I, J, K: Shaped> HasField<10> for (A, B, C, D, E, F, G, H, I, J, K) {
    type Field = K;

    ghost field = { λ t. t.10 };

    fn field(&self) -> &K {
        &self.10
    }
}

impl<
    A: Shaped,
    B: Shaped,
    C: Shaped,
    D: Shaped,
    E: Shaped,
    F: Shaped,
    G: Shaped,
    H: Shaped,
    I: Shaped,
    J: Shaped,
    K: Shaped,
> InFields for (A, B, C, D, E, F, G, H, I, J, K) {
    type Numbers = (
        ((Nth<0>, Nth<1>), (Nth<2>, (Nth<3>, Nth<4>))),
        ((Nth<5>, (Nth<6>, Nth<7>)), (Nth<8>, (Nth<9>, Nth<10>))),
    );

    type Inside = Self;

    ghost same_columns = { refl };

    ghost of_fields = { λ d h. h };

    ghost same_listings = { λ t. pair_alike
        (pair_alike (pair_alike field_alike field_alike)
        (pair_alike field_alike (pair_alike field_alike field_alike)))
        (pair_alike (pair_alike field_alike (pair_alike field_alike field_alike))
        (pair_alike field_alike (pair_alike field_alike field_alike))) };
}

impl<A: Shaped, B, C, D, E, F, G, H, I, J, K, L> HasField<0>
    for (A, B, C, D, E, F, G, H, I, J, K, L) {
    type Field = A;

    ghost field = { λ t. t.0 };

    fn field(&self) -> &A {
        &self.0
    }
}

impl<A, B: Shaped, C, D, E, F, G, H, I, J, K, L> HasField<1>
    for (A, B, C, D, E, F, G, H, I, J, K, L) {
    type Field = B;

    ghost field = { λ t. t.1 };

    fn field(&self) -> &B {
        &self.1
    }
}

impl<A, B, C: Shaped, D, E, F, G, H, I, J, K, L> HasField<2>
    for (A, B, C, D, E, F, G, H, I, J, K, L) {
    type Field = C;

    ghost field = { λ t. t.2 };

    fn field(&self) -> &C {
        &self.2
    }
}

impl<A, B, C, D: Shaped, E, F, G, H, I, J, K, L> HasField<3>
    for (A, B, C, D, E, F, G, H, I, J, K, L) {
    type Field = D;

    ghost field = { λ t. t.3 };

    fn field(&self) -> &D {
        &self.3
    }
}

impl<A, B, C, D, E: Shaped, F, G, H, I, J, K, L> HasField<4>
    for (A, B, C, D, E, F, G, H, I, J, K, L) {
    type Field = E;

    ghost field = { λ t. t.4 };

    fn field(&self) -> &E {
        &self.4
    }
}

impl<A, B, C, D, E, F: Shaped, G, H, I, J, K, L> HasField<5>
    for (A, B, C, D, E, F, G, H, I, J, K, L) {
    type Field = F;

    ghost field = { λ t. t.5 };

    fn field(&self) -> &F {
        &self.5
    }
}

impl<A, B, C, D, E, F, G: Shaped, H, I, J, K, L> HasField<6>
    for (A, B, C, D, E, F, G, H, I, J, K, L) {
    type Field = G;

    ghost field = { λ t. t.6 };

    fn field(&self) -> &G {
        &self.6
    }
}

impl<A, B, C, D, E, F, G, H: Shaped, I, J, K, L> HasField<7>
    for (A, B, C, D, E, F, G, H, I, J, K, L) {
    type Field = H;

    ghost field = { λ t. t.7 };

    fn field(&self) -> &H {
        &self.7
    }
}

impl<A, B, C, D, E, F, G, H, I: Shaped, J, K, L> HasField<8>
    for (A, B, C, D, E, F, G, H, I, J, K, L) {
    type Field = I;

    ghost field = { λ t. t.8 };

    fn field(&self) -> &I {
        &self.8
    }
}

impl<A, B, C, D, E, F, G, H, I, J: Shaped, K, L> HasField<9>
    for (A, B, C, D, E, F, G, H, I, J, K, L) {
    type Field = J;

    ghost field = { λ t. t.9 };

    fn field(&self) -> &J {
        &self.9
    }
}

impl<A, B, C, D, E, F, G, H, I, J, K: Shaped, L> HasField<10>
    for (A, B, C, D, E, F, G, H, I, J, K, L) {
    type Field = K;

    ghost field = { λ t. t.10 };

    fn field(&self) -> &K {
        &self.10
    }
}

impl<A, B, C, D, E, F, G, H, I, J, K, L: Shaped> HasField<11>
    for (A, B, C, D, E, F, G, H, I, J, K, L) {
    type Field = L;

    ghost field = { λ t. t.11 };

    fn field(&self) -> &L {
        &self.11
    }
}

impl<
    A: Shaped,
    B: Shaped,
    C: Shaped,
    D: Shaped,
    E: Shaped,
    F: Shaped,
    G: Shaped,
    H: Shaped,
    I: Shaped,
    J: Shaped,
    K: Shaped,
    L: Shaped,
> InFields for (A, B, C, D, E, F, G, H, I, J, K, L) {
    type Numbers = (
        ((Nth<0>, (Nth<1>, Nth<2>)), (Nth<3>, (Nth<4>, Nth<5>))),
        ((Nth<6>, (Nth<7>, Nth<8>)), (Nth<9>, (Nth<10>, Nth<11>))),
    );

    type Inside = Self;

    ghost same_columns = { refl };

    ghost of_fields = { λ d h. h };

    ghost same_listings = { λ t. pair_alike
        (pair_alike (pair_alike field_alike (pair_alike field_alike field_alike))
        (pair_alike field_alike (pair_alike field_alike field_alike)))
        (pair_alike (pair_alike field_alike (pair_alike field_alike field_alike))
        (pair_alike field_alike (pair_alike field_alike field_alike))) };
}
