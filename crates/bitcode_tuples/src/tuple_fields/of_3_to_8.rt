// Written by scripts/tables/tuples.
//! The fields of tuples of three to eight fields, and the nested pairs that they are encoded as.
ghost use Rattle.std.specs.Prelude.{refl};
ghost use Rattle.bitcode_tuples.specs.FieldLaws.{field_alike, pair_alike};

use crate::has_field::{HasField, Nth};
use crate::struct_encoder::InFields;
use bitcode_shapes::shaped::Shaped;

impl<A: Shaped, B, C> HasField<0> for (A, B, C) {
    type Field = A;

    ghost field = { λ t. t.0 };

    fn field(&self) -> &A {
        &self.0
    }
}

impl<A, B: Shaped, C> HasField<1> for (A, B, C) {
    type Field = B;

    ghost field = { λ t. t.1 };

    fn field(&self) -> &B {
        &self.1
    }
}

impl<A, B, C: Shaped> HasField<2> for (A, B, C) {
    type Field = C;

    ghost field = { λ t. t.2 };

    fn field(&self) -> &C {
        &self.2
    }
}

impl<A: Shaped, B: Shaped, C: Shaped> InFields for (A, B, C) {
    type Numbers = (Nth<0>, (Nth<1>, Nth<2>));

    type Inside = Self;

    ghost same_columns = { refl };

    ghost of_fields = { λ d h. h };

    ghost same_listings = { λ t. pair_alike field_alike (pair_alike field_alike field_alike) };
}

impl<A: Shaped, B, C, D> HasField<0> for (A, B, C, D) {
    type Field = A;

    ghost field = { λ t. t.0 };

    fn field(&self) -> &A {
        &self.0
    }
}

impl<A, B: Shaped, C, D> HasField<1> for (A, B, C, D) {
    type Field = B;

    ghost field = { λ t. t.1 };

    fn field(&self) -> &B {
        &self.1
    }
}

impl<A, B, C: Shaped, D> HasField<2> for (A, B, C, D) {
    type Field = C;

    ghost field = { λ t. t.2 };

    fn field(&self) -> &C {
        &self.2
    }
}

impl<A, B, C, D: Shaped> HasField<3> for (A, B, C, D) {
    type Field = D;

    ghost field = { λ t. t.3 };

    fn field(&self) -> &D {
        &self.3
    }
}

impl<A: Shaped, B: Shaped, C: Shaped, D: Shaped> InFields for (A, B, C, D) {
    type Numbers = ((Nth<0>, Nth<1>), (Nth<2>, Nth<3>));

    type Inside = Self;

    ghost same_columns = { refl };

    ghost of_fields = { λ d h. h };

    ghost same_listings = { λ t. pair_alike (pair_alike field_alike field_alike)
        (pair_alike field_alike field_alike) };
}

impl<A: Shaped, B, C, D, E> HasField<0> for (A, B, C, D, E) {
    type Field = A;

    ghost field = { λ t. t.0 };

    fn field(&self) -> &A {
        &self.0
    }
}

impl<A, B: Shaped, C, D, E> HasField<1> for (A, B, C, D, E) {
    type Field = B;

    ghost field = { λ t. t.1 };

    fn field(&self) -> &B {
        &self.1
    }
}

impl<A, B, C: Shaped, D, E> HasField<2> for (A, B, C, D, E) {
    type Field = C;

    ghost field = { λ t. t.2 };

    fn field(&self) -> &C {
        &self.2
    }
}

impl<A, B, C, D: Shaped, E> HasField<3> for (A, B, C, D, E) {
    type Field = D;

    ghost field = { λ t. t.3 };

    fn field(&self) -> &D {
        &self.3
    }
}

impl<A, B, C, D, E: Shaped> HasField<4> for (A, B, C, D, E) {
    type Field = E;

    ghost field = { λ t. t.4 };

    fn field(&self) -> &E {
        &self.4
    }
}

impl<A: Shaped, B: Shaped, C: Shaped, D: Shaped, E: Shaped> InFields for (A, B, C, D, E) {
    type Numbers = ((Nth<0>, Nth<1>), (Nth<2>, (Nth<3>, Nth<4>)));

    type Inside = Self;

    ghost same_columns = { refl };

    ghost of_fields = { λ d h. h };

    ghost same_listings = { λ t. pair_alike (pair_alike field_alike field_alike)
        (pair_alike field_alike (pair_alike field_alike field_alike)) };
}

impl<A: Shaped, B, C, D, E, F> HasField<0> for (A, B, C, D, E, F) {
    type Field = A;

    ghost field = { λ t. t.0 };

    fn field(&self) -> &A {
        &self.0
    }
}

impl<A, B: Shaped, C, D, E, F> HasField<1> for (A, B, C, D, E, F) {
    type Field = B;

    ghost field = { λ t. t.1 };

    fn field(&self) -> &B {
        &self.1
    }
}

impl<A, B, C: Shaped, D, E, F> HasField<2> for (A, B, C, D, E, F) {
    type Field = C;

    ghost field = { λ t. t.2 };

    fn field(&self) -> &C {
        &self.2
    }
}

impl<A, B, C, D: Shaped, E, F> HasField<3> for (A, B, C, D, E, F) {
    type Field = D;

    ghost field = { λ t. t.3 };

    fn field(&self) -> &D {
        &self.3
    }
}

impl<A, B, C, D, E: Shaped, F> HasField<4> for (A, B, C, D, E, F) {
    type Field = E;

    ghost field = { λ t. t.4 };

    fn field(&self) -> &E {
        &self.4
    }
}

impl<A, B, C, D, E, F: Shaped> HasField<5> for (A, B, C, D, E, F) {
    type Field = F;

    ghost field = { λ t. t.5 };

    fn field(&self) -> &F {
        &self.5
    }
}

impl<A: Shaped, B: Shaped, C: Shaped, D: Shaped, E: Shaped, F: Shaped> InFields
    for (A, B, C, D, E, F) {
    type Numbers = ((Nth<0>, (Nth<1>, Nth<2>)), (Nth<3>, (Nth<4>, Nth<5>)));

    type Inside = Self;

    ghost same_columns = { refl };

    ghost of_fields = { λ d h. h };

    ghost same_listings = { λ t. pair_alike
        (pair_alike field_alike (pair_alike field_alike field_alike))
        (pair_alike field_alike (pair_alike field_alike field_alike)) };
}

impl<A: Shaped, B, C, D, E, F, G> HasField<0> for (A, B, C, D, E, F, G) {
    type Field = A;

    ghost field = { λ t. t.0 };

    fn field(&self) -> &A {
        &self.0
    }
}

impl<A, B: Shaped, C, D, E, F, G> HasField<1> for (A, B, C, D, E, F, G) {
    type Field = B;

    ghost field = { λ t. t.1 };

    fn field(&self) -> &B {
        &self.1
    }
}

impl<A, B, C: Shaped, D, E, F, G> HasField<2> for (A, B, C, D, E, F, G) {
    type Field = C;

    ghost field = { λ t. t.2 };

    fn field(&self) -> &C {
        &self.2
    }
}

impl<A, B, C, D: Shaped, E, F, G> HasField<3> for (A, B, C, D, E, F, G) {
    type Field = D;

    ghost field = { λ t. t.3 };

    fn field(&self) -> &D {
        &self.3
    }
}

impl<A, B, C, D, E: Shaped, F, G> HasField<4> for (A, B, C, D, E, F, G) {
    type Field = E;

    ghost field = { λ t. t.4 };

    fn field(&self) -> &E {
        &self.4
    }
}

impl<A, B, C, D, E, F: Shaped, G> HasField<5> for (A, B, C, D, E, F, G) {
    type Field = F;

    ghost field = { λ t. t.5 };

    fn field(&self) -> &F {
        &self.5
    }
}

impl<A, B, C, D, E, F, G: Shaped> HasField<6> for (A, B, C, D, E, F, G) {
    type Field = G;

    ghost field = { λ t. t.6 };

    fn field(&self) -> &G {
        &self.6
    }
}

impl<A: Shaped, B: Shaped, C: Shaped, D: Shaped, E: Shaped, F: Shaped, G: Shaped> InFields
    for (A, B, C, D, E, F, G) {
    type Numbers = (
        (Nth<0>, (Nth<1>, Nth<2>)),
        ((Nth<3>, Nth<4>), (Nth<5>, Nth<6>)),
    );

    type Inside = Self;

    ghost same_columns = { refl };

    ghost of_fields = { λ d h. h };

    ghost same_listings = { λ t. pair_alike
        (pair_alike field_alike (pair_alike field_alike field_alike))
        (pair_alike (pair_alike field_alike field_alike) (pair_alike field_alike field_alike)) };
}

impl<A: Shaped, B, C, D, E, F, G, H> HasField<0> for (A, B, C, D, E, F, G, H) {
    type Field = A;

    ghost field = { λ t. t.0 };

    fn field(&self) -> &A {
        &self.0
    }
}

impl<A, B: Shaped, C, D, E, F, G, H> HasField<1> for (A, B, C, D, E, F, G, H) {
    type Field = B;

    ghost field = { λ t. t.1 };

    fn field(&self) -> &B {
        &self.1
    }
}

impl<A, B, C: Shaped, D, E, F, G, H> HasField<2> for (A, B, C, D, E, F, G, H) {
    type Field = C;

    ghost field = { λ t. t.2 };

    fn field(&self) -> &C {
        &self.2
    }
}

impl<A, B, C, D: Shaped, E, F, G, H> HasField<3> for (A, B, C, D, E, F, G, H) {
    type Field = D;

    ghost field = { λ t. t.3 };

    fn field(&self) -> &D {
        &self.3
    }
}

impl<A, B, C, D, E: Shaped, F, G, H> HasField<4> for (A, B, C, D, E, F, G, H) {
    type Field = E;

    ghost field = { λ t. t.4 };

    fn field(&self) -> &E {
        &self.4
    }
}

impl<A, B, C, D, E, F: Shaped, G, H> HasField<5> for (A, B, C, D, E, F, G, H) {
    type Field = F;

    ghost field = { λ t. t.5 };

    fn field(&self) -> &F {
        &self.5
    }
}

impl<A, B, C, D, E, F, G: Shaped, H> HasField<6> for (A, B, C, D, E, F, G, H) {
    type Field = G;

    ghost field = { λ t. t.6 };

    fn field(&self) -> &G {
        &self.6
    }
}

impl<A, B, C, D, E, F, G, H: Shaped> HasField<7> for (A, B, C, D, E, F, G, H) {
    type Field = H;

    ghost field = { λ t. t.7 };

    fn field(&self) -> &H {
        &self.7
    }
}

impl<
    A: Shaped,
    B: Shaped,
    C: Shaped,
    D: Shaped,
    E: Shaped,
    F: Shaped,
    G: Shaped,
    H: Shaped,
> InFields for (A, B, C, D, E, F, G, H) {
    type Numbers = (
        ((Nth<0>, Nth<1>), (Nth<2>, Nth<3>)),
        ((Nth<4>, Nth<5>), (Nth<6>, Nth<7>)),
    );

    type Inside = Self;

    ghost same_columns = { refl };

    ghost of_fields = { λ d h. h };

    ghost same_listings = { λ t. pair_alike
        (pair_alike (pair_alike field_alike field_alike) (pair_alike field_alike field_alike))
        (pair_alike (pair_alike field_alike field_alike) (pair_alike field_alike field_alike)) };
}
