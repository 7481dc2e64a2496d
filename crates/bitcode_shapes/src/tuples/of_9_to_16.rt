// Written by scripts/tables/tuples.
//! Tuples of nine to sixteen fields: the data of their fields. As keys they compare field by field.
ghost use Rattle.std.specs.Ordering.{ordering_then};
ghost use Rattle.std.specs.Prelude.{[], refl, ◌&&◌, ◌∷◌};
ghost use Rattle.bitcode_shapes.specs.DataKinds.{pair_data, tuple_data};
ghost use Rattle.bitcode_shapes.specs.DataOf.{data_as};
ghost use Rattle.bitcode_shapes.specs.Tuples.{split_9, split_10, split_11, split_12, split_13, split_14, split_15};
ghost use Rattle.bitcode_shapes.specs.Tuples.{split_16, joined_9, joined_10, joined_11, joined_12, joined_13};
ghost use Rattle.bitcode_shapes.specs.Tuples.{joined_14, joined_15, joined_16, again_9, again_10, again_11, again_12};
ghost use Rattle.bitcode_shapes.specs.Tuples.{again_13, again_14, again_15, again_16};

use crate::keys::Key;
use crate::shaped::Shaped;

impl<
    A: Shaped,
    B: Shaped,
    C: Shaped,
    D: Shaped,
    E: Shaped,
    F: Shaped,
    G: Shaped,
    H: Shaped,
    I: Shaped,
> Shaped for (A, B, C, D, E, F, G, H, I) {
    ghost data = { tuple_data
        (data_as split_9 joined_9 again_9 ⟦<((A, B, C, D), (E, F, G, H, I)) as Shaped>⟧.data)
        (λ t u. (
          (
            A.data.eq t.0 u.0,
            (B.data.eq t.1 u.1) ∷ (C.data.eq t.2 u.2) ∷ (D.data.eq t.3 u.3)
                ∷ [],
          ),
          (
            E.data.eq t.4 u.4,
            (F.data.eq t.5 u.5) ∷ (G.data.eq t.6 u.6) ∷ (H.data.eq t.7 u.7)
                ∷ (I.data.eq t.8 u.8) ∷ [],
          ),
        ))
        (λ t u. (
          (
            A.data.cmp t.0 u.0,
            (B.data.cmp t.1 u.1) ∷ (C.data.cmp t.2 u.2)
                ∷ (D.data.cmp t.3 u.3) ∷ [],
          ),
          (
            E.data.cmp t.4 u.4,
            (F.data.cmp t.5 u.5) ∷ (G.data.cmp t.6 u.6) ∷ (H.data.cmp t.7 u.7)
                ∷ (I.data.cmp t.8 u.8) ∷ [],
          ),
        )) (λ t u. refl) (λ t u. refl) };

    fn told(&self) {
        self.0.told();
        self.1.told();
        self.2.told();
        self.3.told();
        self.4.told();
        self.5.told();
        self.6.told();
        self.7.told();
        self.8.told();
    }
}

impl<A: Key, B: Key, C: Key, D: Key, E: Key, F: Key, G: Key, H: Key, I: Key> Key
    for (A, B, C, D, E, F, G, H, I) {
    ghost equal = { λ i t u.
        (((((((A.equal i t.0 u.0 && B.equal i t.1 u.1) && C.equal i t.2 u.2) && D.equal i t.3 u.3)
        && E.equal i t.4 u.4) && F.equal i t.5 u.5) && G.equal i t.6 u.6) && H.equal i t.7 u.7) &&
        I.equal i t.8 u.8 };

    ghost ordered = { λ i t u. ordering_then
        (ordering_then
        (ordering_then
        (ordering_then
        (ordering_then
        (ordering_then
        (ordering_then (ordering_then (A.ordered i t.0 u.0) (B.ordered i t.1 u.1))
        (C.ordered i t.2 u.2)) (D.ordered i t.3 u.3)) (E.ordered i t.4 u.4)) (F.ordered i t.5 u.5))
        (G.ordered i t.6 u.6)) (H.ordered i t.7 u.7)) (I.ordered i t.8 u.8) };
}

impl<
    A: Shaped,
    B: Shaped,
    C: Shaped,
    D: Shaped,
    E: Shaped,
    F: Shaped,
    G: Shaped,
    H: Shaped,
    I: Shaped,
    J: Shaped,
> Shaped for (A, B, C, D, E, F, G, H, I, J) {
    ghost data = { tuple_data
        (data_as split_10 joined_10 again_10 ⟦<((A, B, C, D, E), (F, G, H, I, J)) as Shaped>⟧.data)
        (λ t u. (
          (
            A.data.eq t.0 u.0,
            (B.data.eq t.1 u.1) ∷ (C.data.eq t.2 u.2) ∷ (D.data.eq t.3 u.3)
                ∷ (E.data.eq t.4 u.4) ∷ [],
          ),
          (
            F.data.eq t.5 u.5,
            (G.data.eq t.6 u.6) ∷ (H.data.eq t.7 u.7) ∷ (I.data.eq t.8 u.8)
                ∷ (J.data.eq t.9 u.9) ∷ [],
          ),
        ))
        (λ t u. (
          (
            A.data.cmp t.0 u.0,
            (B.data.cmp t.1 u.1) ∷ (C.data.cmp t.2 u.2)
                ∷ (D.data.cmp t.3 u.3) ∷ (E.data.cmp t.4 u.4) ∷ [],
          ),
          (
            F.data.cmp t.5 u.5,
            (G.data.cmp t.6 u.6) ∷ (H.data.cmp t.7 u.7) ∷ (I.data.cmp t.8 u.8)
                ∷ (J.data.cmp t.9 u.9) ∷ [],
          ),
        )) (λ t u. refl) (λ t u. refl) };

    fn told(&self) {
        self.0.told();
        self.1.told();
        self.2.told();
        self.3.told();
        self.4.told();
        self.5.told();
        self.6.told();
        self.7.told();
        self.8.told();
        self.9.told();
    }
}

impl<A: Key, B: Key, C: Key, D: Key, E: Key, F: Key, G: Key, H: Key, I: Key, J: Key> Key
    for (A, B, C, D, E, F, G, H, I, J) {
    ghost equal = { λ i t u.
        ((((((((A.equal i t.0 u.0 && B.equal i t.1 u.1) && C.equal i t.2 u.2) && D.equal i t.3 u.3)
        && E.equal i t.4 u.4) && F.equal i t.5 u.5) && G.equal i t.6 u.6) && H.equal i t.7 u.7) &&
        I.equal i t.8 u.8) && J.equal i t.9 u.9 };

    ghost ordered = { λ i t u. ordering_then
        (ordering_then
        (ordering_then
        (ordering_then
        (ordering_then
        (ordering_then
        (ordering_then
        (ordering_then (ordering_then (A.ordered i t.0 u.0) (B.ordered i t.1 u.1))
        (C.ordered i t.2 u.2)) (D.ordered i t.3 u.3)) (E.ordered i t.4 u.4)) (F.ordered i t.5 u.5))
        (G.ordered i t.6 u.6)) (H.ordered i t.7 u.7)) (I.ordered i t.8 u.8))
        (J.ordered i t.9 u.9) };
}

impl<
    A: Shaped,
    B: Shaped,
    C: Shaped,
    D: Shaped,
    E: Shaped,
    F: Shaped,
    G: Shaped,
    H: Shaped,
    I: Shaped,
    J: Shaped,
    K: Shaped,
> Shaped for (A, B, C, D, E, F, G, H, I, J, K) {
    ghost data = { tuple_data
        (data_as split_11 joined_11 again_11
        ⟦<((A, B, C, D, E), (F, G, H, I, J, K)) as Shaped>⟧.data)
        (λ t u. (
          (
            A.data.eq t.0 u.0,
            (B.data.eq t.1 u.1) ∷ (C.data.eq t.2 u.2) ∷ (D.data.eq t.3 u.3)
                ∷ (E.data.eq t.4 u.4) ∷ [],
          ),
          (
            F.data.eq t.5 u.5,
            (G.data.eq t.6 u.6) ∷ (H.data.eq t.7 u.7) ∷ (I.data.eq t.8 u.8)
                ∷ (J.data.eq t.9 u.9) ∷ (K.data.eq t.10 u.10) ∷ [],
          ),
        ))
        (λ t u. (
          (
            A.data.cmp t.0 u.0,
            (B.data.cmp t.1 u.1) ∷ (C.data.cmp t.2 u.2)
                ∷ (D.data.cmp t.3 u.3) ∷ (E.data.cmp t.4 u.4) ∷ [],
          ),
          (
            F.data.cmp t.5 u.5,
            (G.data.cmp t.6 u.6) ∷ (H.data.cmp t.7 u.7) ∷ (I.data.cmp t.8 u.8)
                ∷ (J.data.cmp t.9 u.9) ∷ (K.data.cmp t.10 u.10) ∷ [],
          ),
        )) (λ t u. refl) (λ t u. refl) };

    fn told(&self) {
        self.0.told();
        self.1.told();
        self.2.told();
        self.3.told();
        self.4.told();
        self.5.told();
        self.6.told();
        self.7.told();
        self.8.told();
        self.9.told();
        self.10.told();
    }
}

impl<A: Key, B: Key, C: Key, D: Key, E: Key, F: Key, G: Key, H: Key, I: Key, J: Key, K: Key> Key
    for (A, B, C, D, E, F, G, H, I, J, K) {
    ghost equal = { λ i t u.
        (((((((((A.equal i t.0 u.0 && B.equal i t.1 u.1) && C.equal i t.2 u.2) && D.equal i t.3 u.3)
        && E.equal i t.4 u.4) && F.equal i t.5 u.5) && G.equal i t.6 u.6) && H.equal i t.7 u.7) &&
        I.equal i t.8 u.8) && J.equal i t.9 u.9) && K.equal i t.10 u.10 };

    ghost ordered = { λ i t u. ordering_then
        (ordering_then
        (ordering_then
        (ordering_then
        (ordering_then
        (ordering_then
        (ordering_then
        (ordering_then
        (ordering_then (ordering_then (A.ordered i t.0 u.0) (B.ordered i t.1 u.1))
        (C.ordered i t.2 u.2)) (D.ordered i t.3 u.3)) (E.ordered i t.4 u.4)) (F.ordered i t.5 u.5))
        (G.ordered i t.6 u.6)) (H.ordered i t.7 u.7)) (I.ordered i t.8 u.8)) (J.ordered i t.9 u.9))
        (K.ordered i t.10 u.10) };
}

impl<
    A: Shaped,
    B: Shaped,
    C: Shaped,
    D: Shaped,
    E: Shaped,
    F: Shaped,
    G: Shaped,
    H: Shaped,
    I: Shaped,
    J: Shaped,
    K: Shaped,
    L: Shaped,
> Shaped for (A, B, C, D, E, F, G, H, I, J, K, L) {
    ghost data = { tuple_data
        (data_as split_12 joined_12 again_12
        ⟦<((A, B, C, D, E, F), (G, H, I, J, K, L)) as Shaped>⟧.data)
        (λ t u. (
          (
            A.data.eq t.0 u.0,
            (B.data.eq t.1 u.1) ∷ (C.data.eq t.2 u.2) ∷ (D.data.eq t.3 u.3)
                ∷ (E.data.eq t.4 u.4) ∷ (F.data.eq t.5 u.5) ∷ [],
          ),
          (
            G.data.eq t.6 u.6,
            (H.data.eq t.7 u.7) ∷ (I.data.eq t.8 u.8) ∷ (J.data.eq t.9 u.9)
                ∷ (K.data.eq t.10 u.10) ∷ (L.data.eq t.11 u.11) ∷ [],
          ),
        ))
        (λ t u. (
          (
            A.data.cmp t.0 u.0,
            (B.data.cmp t.1 u.1) ∷ (C.data.cmp t.2 u.2)
                ∷ (D.data.cmp t.3 u.3) ∷ (E.data.cmp t.4 u.4) ∷ (F.data.cmp t.5 u.5) ∷ [],
          ),
          (
            G.data.cmp t.6 u.6,
            (H.data.cmp t.7 u.7) ∷ (I.data.cmp t.8 u.8) ∷ (J.data.cmp t.9 u.9)
                ∷ (K.data.cmp t.10 u.10) ∷ (L.data.cmp t.11 u.11) ∷ [],
          ),
        )) (λ t u. refl) (λ t u. refl) };

    fn told(&self) {
        self.0.told();
        self.1.told();
        self.2.told();
        self.3.told();
        self.4.told();
        self.5.told();
        self.6.told();
        self.7.told();
        self.8.told();
        self.9.told();
        self.10.told();
        self.11.told();
    }
}

impl<
    A: Key,
    B: Key,
    C: Key,
    D: Key,
    E: Key,
    F: Key,
    G: Key,
    H: Key,
    I: Key,
    J: Key,
    K: Key,
    L: Key,
> Key for (A, B, C, D, E, F, G, H, I, J, K, L) {
    ghost equal = { λ i t u.
        ((((((((((A.equal i t.0 u.0 && B.equal i t.1 u.1) && C.equal i t.2 u.2) && D.equal i t.3
        u.3) && E.equal i t.4 u.4) && F.equal i t.5 u.5) && G.equal i t.6 u.6) && H.equal i t.7 u.7)
        && I.equal i t.8 u.8) && J.equal i t.9 u.9) && K.equal i t.10 u.10) && L.equal i t.11
        u.11 };

    ghost ordered = { λ i t u. ordering_then
        (ordering_then
        (ordering_then
        (ordering_then
        (ordering_then
        (ordering_then
        (ordering_then
        (ordering_then
        (ordering_then
        (ordering_then (ordering_then (A.ordered i t.0 u.0) (B.ordered i t.1 u.1))
        (C.ordered i t.2 u.2)) (D.ordered i t.3 u.3)) (E.ordered i t.4 u.4)) (F.ordered i t.5 u.5))
        (G.ordered i t.6 u.6)) (H.ordered i t.7 u.7)) (I.ordered i t.8 u.8)) (J.ordered i t.9 u.9))
        (K.ordered i t.10 u.10)) (L.ordered i t.11 u.11) };
}

impl<
    A: Shaped,
    B: Shaped,
    C: Shaped,
    D: Shaped,
    E: Shaped,
    F: Shaped,
    G: Shaped,
    H: Shaped,
    I: Shaped,
    J: Shaped,
    K: Shaped,
    L: Shaped,
    M: Shaped,
> Shaped for (A, B, C, D, E, F, G, H, I, J, K, L, M) {
    ghost data = { data_as split_13 joined_13 again_13
        ⟦<((A, B, C, D, E, F), (G, H, I, J, K, L, M)) as Shaped>⟧.data };

    fn told(&self) {
        self.0.told();
        self.1.told();
        self.2.told();
        self.3.told();
        self.4.told();
        self.5.told();
        self.6.told();
        self.7.told();
        self.8.told();
        self.9.told();
        self.10.told();
        self.11.told();
        self.12.told();
    }
}

impl<
    A: Shaped,
    B: Shaped,
    C: Shaped,
    D: Shaped,
    E: Shaped,
    F: Shaped,
    G: Shaped,
    H: Shaped,
    I: Shaped,
    J: Shaped,
    K: Shaped,
    L: Shaped,
    M: Shaped,
    N: Shaped,
> Shaped for (A, B, C, D, E, F, G, H, I, J, K, L, M, N) {
    ghost data = { data_as split_14 joined_14 again_14
        ⟦<((A, B, C, D, E, F, G), (H, I, J, K, L, M, N)) as Shaped>⟧.data };

    fn told(&self) {
        self.0.told();
        self.1.told();
        self.2.told();
        self.3.told();
        self.4.told();
        self.5.told();
        self.6.told();
        self.7.told();
        self.8.told();
        self.9.told();
        self.10.told();
        self.11.told();
        self.12.told();
        self.13.told();
    }
}

impl<
    A: Shaped,
    B: Shaped,
    C: Shaped,
    D: Shaped,
    E: Shaped,
    F: Shaped,
    G: Shaped,
    H: Shaped,
    I: Shaped,
    J: Shaped,
    K: Shaped,
    L: Shaped,
    M: Shaped,
    N: Shaped,
    O: Shaped,
> Shaped for (A, B, C, D, E, F, G, H, I, J, K, L, M, N, O) {
    ghost data = { data_as split_15 joined_15 again_15
        ⟦<((A, B, C, D, E, F, G), (H, I, J, K, L, M, N, O)) as Shaped>⟧.data };

    fn told(&self) {
        self.0.told();
        self.1.told();
        self.2.told();
        self.3.told();
        self.4.told();
        self.5.told();
        self.6.told();
        self.7.told();
        self.8.told();
        self.9.told();
        self.10.told();
        self.11.told();
        self.12.told();
        self.13.told();
        self.14.told();
    }
}

impl<
    A: Shaped,
    B: Shaped,
    C: Shaped,
    D: Shaped,
    E: Shaped,
    F: Shaped,
    G: Shaped,
    H: Shaped,
    I: Shaped,
    J: Shaped,
    K: Shaped,
    L: Shaped,
    M: Shaped,
    N: Shaped,
    O: Shaped,
    P: Shaped,
> Shaped for (A, B, C, D, E, F, G, H, I, J, K, L, M, N, O, P) {
    ghost data = { data_as split_16 joined_16 again_16
        ⟦<((A, B, C, D, E, F, G, H), (I, J, K, L, M, N, O, P)) as Shaped>⟧.data };

    fn told(&self) {
        self.0.told();
        self.1.told();
        self.2.told();
        self.3.told();
        self.4.told();
        self.5.told();
        self.6.told();
        self.7.told();
        self.8.told();
        self.9.told();
        self.10.told();
        self.11.told();
        self.12.told();
        self.13.told();
        self.14.told();
        self.15.told();
    }
}
