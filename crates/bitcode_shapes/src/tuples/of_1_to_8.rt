// Written by scripts/tables/tuples.
//! Tuples of one to eight fields: the data of their fields. As keys they compare field by field.
ghost use Rattle.std.specs.Ordering.{ordering_then};
ghost use Rattle.std.specs.Prelude.{[], refl, ◌&&◌, ◌∷◌};
ghost use Rattle.bitcode_shapes.specs.DataKinds.{pair_data, tuple_data};
ghost use Rattle.bitcode_shapes.specs.DataOf.{data_as};
ghost use Rattle.bitcode_shapes.specs.Tuples.{split_3, split_4, split_5, split_6, split_7, split_8, joined_3, joined_4};
ghost use Rattle.bitcode_shapes.specs.Tuples.{joined_5, joined_6, joined_7, joined_8, again_3, again_4, again_5};
ghost use Rattle.bitcode_shapes.specs.Tuples.{again_6, again_7, again_8};

use crate::keys::Key;
use crate::shaped::Shaped;

impl<A: Shaped> Shaped for (A,) {
    ghost data = { data_as (λ t. t.0) (λ a. (record { 0 = a }, refl)) (λ t. refl) A.data };

    fn told(&self) {
        self.0.told();
    }
}

impl<A: Key> Key for (A,) {
    ghost equal = { λ i t u. A.equal i t.0 u.0 };

    ghost ordered = { λ i t u. A.ordered i t.0 u.0 };
}

impl<A: Shaped, B: Shaped> Shaped for (A, B) {
    ghost data = { pair_data A.data B.data };

    fn told(&self) {
        self.0.told();
        self.1.told();
    }
}

impl<A: Key, B: Key> Key for (A, B) {
    ghost equal = { λ i t u. A.equal i t.0 u.0 && B.equal i t.1 u.1 };

    ghost ordered = { λ i t u. ordering_then (A.ordered i t.0 u.0) (B.ordered i t.1 u.1) };
}

impl<A: Shaped, B: Shaped, C: Shaped> Shaped for (A, B, C) {
    ghost data = { tuple_data (data_as split_3 joined_3 again_3 ⟦<(A, (B, C)) as Shaped>⟧.data)
        (λ t u. ((A.data.eq t.0 u.0, []), (B.data.eq t.1 u.1, (C.data.eq t.2 u.2) ∷ [])))
        (λ t u. ((A.data.cmp t.0 u.0, []), (B.data.cmp t.1 u.1, (C.data.cmp t.2 u.2) ∷ [])))
        (λ t u. refl) (λ t u. refl) };

    fn told(&self) {
        self.0.told();
        self.1.told();
        self.2.told();
    }
}

impl<A: Key, B: Key, C: Key> Key for (A, B, C) {
    ghost equal = { λ i t u. (A.equal i t.0 u.0 && B.equal i t.1 u.1) && C.equal i t.2 u.2 };

    ghost ordered = { λ i t u. ordering_then
        (ordering_then (A.ordered i t.0 u.0) (B.ordered i t.1 u.1)) (C.ordered i t.2 u.2) };
}

impl<A: Shaped, B: Shaped, C: Shaped, D: Shaped> Shaped for (A, B, C, D) {
    ghost data = { tuple_data (data_as split_4 joined_4 again_4 ⟦<((A, B), (C, D)) as Shaped>⟧.data)
        (λ t u. (
          (A.data.eq t.0 u.0, (B.data.eq t.1 u.1) ∷ []),
          (C.data.eq t.2 u.2, (D.data.eq t.3 u.3) ∷ []),
        ))
        (λ t u. (
          (A.data.cmp t.0 u.0, (B.data.cmp t.1 u.1) ∷ []),
          (C.data.cmp t.2 u.2, (D.data.cmp t.3 u.3) ∷ []),
        )) (λ t u. refl) (λ t u. refl) };

    fn told(&self) {
        self.0.told();
        self.1.told();
        self.2.told();
        self.3.told();
    }
}

impl<A: Key, B: Key, C: Key, D: Key> Key for (A, B, C, D) {
    ghost equal = { λ i t u. ((A.equal i t.0 u.0 && B.equal i t.1 u.1) && C.equal i t.2 u.2) &&
        D.equal i t.3 u.3 };

    ghost ordered = { λ i t u. ordering_then
        (ordering_then (ordering_then (A.ordered i t.0 u.0) (B.ordered i t.1 u.1))
        (C.ordered i t.2 u.2)) (D.ordered i t.3 u.3) };
}

impl<A: Shaped, B: Shaped, C: Shaped, D: Shaped, E: Shaped> Shaped for (A, B, C, D, E) {
    ghost data = { tuple_data
        (data_as split_5 joined_5 again_5 ⟦<((A, B), (C, D, E)) as Shaped>⟧.data)
        (λ t u. (
          (A.data.eq t.0 u.0, (B.data.eq t.1 u.1) ∷ []),
          (C.data.eq t.2 u.2, (D.data.eq t.3 u.3) ∷ (E.data.eq t.4 u.4) ∷ []),
        ))
        (λ t u. (
          (A.data.cmp t.0 u.0, (B.data.cmp t.1 u.1) ∷ []),
          (C.data.cmp t.2 u.2, (D.data.cmp t.3 u.3) ∷ (E.data.cmp t.4 u.4) ∷ []),
        )) (λ t u. refl)
        (λ t u. refl) };

    fn told(&self) {
        self.0.told();
        self.1.told();
        self.2.told();
        self.3.told();
        self.4.told();
    }
}

impl<A: Key, B: Key, C: Key, D: Key, E: Key> Key for (A, B, C, D, E) {
    ghost equal = { λ i t u.
        (((A.equal i t.0 u.0 && B.equal i t.1 u.1) && C.equal i t.2 u.2) && D.equal i t.3 u.3) &&
        E.equal i t.4 u.4 };

    ghost ordered = { λ i t u. ordering_then
        (ordering_then
        (ordering_then (ordering_then (A.ordered i t.0 u.0) (B.ordered i t.1 u.1))
        (C.ordered i t.2 u.2)) (D.ordered i t.3 u.3)) (E.ordered i t.4 u.4) };
}

impl<A: Shaped, B: Shaped, C: Shaped, D: Shaped, E: Shaped, F: Shaped> Shaped
    for (A, B, C, D, E, F) {
    ghost data = { tuple_data
        (data_as split_6 joined_6 again_6 ⟦<((A, B, C), (D, E, F)) as Shaped>⟧.data)
        (λ t u. (
          (A.data.eq t.0 u.0, (B.data.eq t.1 u.1) ∷ (C.data.eq t.2 u.2) ∷ []),
          (D.data.eq t.3 u.3, (E.data.eq t.4 u.4) ∷ (F.data.eq t.5 u.5) ∷ []),
        ))
        (λ t u. (
          (A.data.cmp t.0 u.0, (B.data.cmp t.1 u.1) ∷ (C.data.cmp t.2 u.2) ∷ []),
          (D.data.cmp t.3 u.3, (E.data.cmp t.4 u.4) ∷ (F.data.cmp t.5 u.5) ∷ []),
        )) (λ t u. refl)
        (λ t u. refl) };

    fn told(&self) {
        self.0.told();
        self.1.told();
        self.2.told();
        self.3.told();
        self.4.told();
        self.5.told();
    }
}

impl<A: Key, B: Key, C: Key, D: Key, E: Key, F: Key> Key for (A, B, C, D, E, F) {
    ghost equal = { λ i t u.
        ((((A.equal i t.0 u.0 && B.equal i t.1 u.1) && C.equal i t.2 u.2) && D.equal i t.3 u.3) &&
        E.equal i t.4 u.4) && F.equal i t.5 u.5 };

    ghost ordered = { λ i t u. ordering_then
        (ordering_then
        (ordering_then
        (ordering_then (ordering_then (A.ordered i t.0 u.0) (B.ordered i t.1 u.1))
        (C.ordered i t.2 u.2)) (D.ordered i t.3 u.3)) (E.ordered i t.4 u.4))
        (F.ordered i t.5 u.5) };
}

impl<A: Shaped, B: Shaped, C: Shaped, D: Shaped, E: Shaped, F: Shaped, G: Shaped> Shaped
    for (A, B, C, D, E, F, G) {
    ghost data = { tuple_data
        (data_as split_7 joined_7 again_7 ⟦<((A, B, C), (D, E, F, G)) as Shaped>⟧.data)
        (λ t u. (
          (A.data.eq t.0 u.0, (B.data.eq t.1 u.1) ∷ (C.data.eq t.2 u.2) ∷ []),
          (D.data.eq t.3 u.3, (E.data.eq t.4 u.4) ∷ (F.data.eq t.5 u.5) ∷ (G.data.eq t.6 u.6) ∷ []),
        ))
        (λ t u. (
          (A.data.cmp t.0 u.0, (B.data.cmp t.1 u.1) ∷ (C.data.cmp t.2 u.2) ∷ []),
          (
            D.data.cmp t.3 u.3,
            (E.data.cmp t.4 u.4) ∷ (F.data.cmp t.5 u.5) ∷ (G.data.cmp t.6 u.6)
                ∷ [],
          ),
        )) (λ t u. refl) (λ t u. refl) };

    fn told(&self) {
        self.0.told();
        self.1.told();
        self.2.told();
        self.3.told();
        self.4.told();
        self.5.told();
        self.6.told();
    }
}

impl<A: Key, B: Key, C: Key, D: Key, E: Key, F: Key, G: Key> Key for (A, B, C, D, E, F, G) {
    ghost equal = { λ i t u.
        (((((A.equal i t.0 u.0 && B.equal i t.1 u.1) && C.equal i t.2 u.2) && D.equal i t.3 u.3) &&
        E.equal i t.4 u.4) && F.equal i t.5 u.5) && G.equal i t.6 u.6 };

    ghost ordered = { λ i t u. ordering_then
        (ordering_then
        (ordering_then
        (ordering_then
        (ordering_then (ordering_then (A.ordered i t.0 u.0) (B.ordered i t.1 u.1))
        (C.ordered i t.2 u.2)) (D.ordered i t.3 u.3)) (E.ordered i t.4 u.4)) (F.ordered i t.5 u.5))
        (G.ordered i t.6 u.6) };
}

impl<A: Shaped, B: Shaped, C: Shaped, D: Shaped, E: Shaped, F: Shaped, G: Shaped, H: Shaped> Shaped
    for (A, B, C, D, E, F, G, H) {
    ghost data = { tuple_data
        (data_as split_8 joined_8 again_8 ⟦<((A, B, C, D), (E, F, G, H)) as Shaped>⟧.data)
        (λ t u. (
          (
            A.data.eq t.0 u.0,
            (B.data.eq t.1 u.1) ∷ (C.data.eq t.2 u.2) ∷ (D.data.eq t.3 u.3)
                ∷ [],
          ),
          (
            E.data.eq t.4 u.4,
            (F.data.eq t.5 u.5) ∷ (G.data.eq t.6 u.6) ∷ (H.data.eq t.7 u.7)
                ∷ [],
          ),
        )) (λ t u. (
          (
            A.data.cmp t.0 u.0,
            (B.data.cmp t.1 u.1) ∷ (C.data.cmp t.2 u.2) ∷ (D.data.cmp t.3 u.3)
                ∷ [],
          ),
          (
            E.data.cmp t.4 u.4,
            (F.data.cmp t.5 u.5) ∷ (G.data.cmp t.6 u.6)
                ∷ (H.data.cmp t.7 u.7) ∷ [],
          ),
        )) (λ t u. refl) (λ t u. refl) };

    fn told(&self) {
        self.0.told();
        self.1.told();
        self.2.told();
        self.3.told();
        self.4.told();
        self.5.told();
        self.6.told();
        self.7.told();
    }
}

impl<A: Key, B: Key, C: Key, D: Key, E: Key, F: Key, G: Key, H: Key> Key
    for (A, B, C, D, E, F, G, H) {
    ghost equal = { λ i t u.
        ((((((A.equal i t.0 u.0 && B.equal i t.1 u.1) && C.equal i t.2 u.2) && D.equal i t.3 u.3) &&
        E.equal i t.4 u.4) && F.equal i t.5 u.5) && G.equal i t.6 u.6) && H.equal i t.7 u.7 };

    ghost ordered = { λ i t u. ordering_then
        (ordering_then
        (ordering_then
        (ordering_then
        (ordering_then
        (ordering_then (ordering_then (A.ordered i t.0 u.0) (B.ordered i t.1 u.1))
        (C.ordered i t.2 u.2)) (D.ordered i t.3 u.3)) (E.ordered i t.4 u.4)) (F.ordered i t.5 u.5))
        (G.ordered i t.6 u.6)) (H.ordered i t.7 u.7) };
}
