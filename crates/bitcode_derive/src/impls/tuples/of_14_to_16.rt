// Written by scripts/tables/tuples.
//! The coders of tuples of fourteen to sixteen fields.
use crate::derive::{DecodeOwned, HasDecoder, HasEncoder};
use bitcode_tuples::decoder::TupleDecoder;
use bitcode_tuples::encoder::TupleEncoder;
use bitcode_tuples::struct_encoder::StructEncoder;

impl<
    A: HasEncoder,
    B: HasEncoder,
    C: HasEncoder,
    D: HasEncoder,
    E: HasEncoder,
    F: HasEncoder,
    G: HasEncoder,
    H: HasEncoder,
    I: HasEncoder,
    J: HasEncoder,
    K: HasEncoder,
    L: HasEncoder,
    M: HasEncoder,
    N: HasEncoder,
> HasEncoder for (A, B, C, D, E, F, G, H, I, J, K, L, M, N) {
    type Encoder = StructEncoder<
        TupleEncoder<
            TupleEncoder<
                TupleEncoder<A::Encoder, TupleEncoder<B::Encoder, C::Encoder>>,
                TupleEncoder<
                    TupleEncoder<D::Encoder, E::Encoder>,
                    TupleEncoder<F::Encoder, G::Encoder>,
                >,
            >,
            TupleEncoder<
                TupleEncoder<H::Encoder, TupleEncoder<I::Encoder, J::Encoder>>,
                TupleEncoder<
                    TupleEncoder<K::Encoder, L::Encoder>,
                    TupleEncoder<M::Encoder, N::Encoder>,
                >,
            >,
        >,
    >;
}

impl<
    'a,
    A: HasDecoder<'a>,
    B: HasDecoder<'a>,
    C: HasDecoder<'a>,
    D: HasDecoder<'a>,
    E: HasDecoder<'a>,
    F: HasDecoder<'a>,
    G: HasDecoder<'a>,
    H: HasDecoder<'a>,
    I: HasDecoder<'a>,
    J: HasDecoder<'a>,
    K: HasDecoder<'a>,
    L: HasDecoder<'a>,
    M: HasDecoder<'a>,
    N: HasDecoder<'a>,
> HasDecoder<'a> for (A, B, C, D, E, F, G, H, I, J, K, L, M, N) {
    type Decoder = TupleDecoder<
        TupleDecoder<
            TupleDecoder<A::Decoder, TupleDecoder<B::Decoder, C::Decoder>>,
            TupleDecoder<
                TupleDecoder<D::Decoder, E::Decoder>,
                TupleDecoder<F::Decoder, G::Decoder>,
            >,
        >,
        TupleDecoder<
            TupleDecoder<H::Decoder, TupleDecoder<I::Decoder, J::Decoder>>,
            TupleDecoder<
                TupleDecoder<K::Decoder, L::Decoder>,
                TupleDecoder<M::Decoder, N::Decoder>,
            >,
        >,
    >;
}

impl<
    A: DecodeOwned,
    B: DecodeOwned,
    C: DecodeOwned,
    D: DecodeOwned,
    E: DecodeOwned,
    F: DecodeOwned,
    G: DecodeOwned,
    H: DecodeOwned,
    I: DecodeOwned,
    J: DecodeOwned,
    K: DecodeOwned,
    L: DecodeOwned,
    M: DecodeOwned,
    N: DecodeOwned,
> DecodeOwned for (A, B, C, D, E, F, G, H, I, J, K, L, M, N) {}

impl<
    A: HasEncoder,
    B: HasEncoder,
    C: HasEncoder,
    D: HasEncoder,
    E: HasEncoder,
    F: HasEncoder,
    G: HasEncoder,
    H: HasEncoder,
    I: HasEncoder,
    J: HasEncoder,
    K: HasEncoder,
    L: HasEncoder,
    M: HasEncoder,
    N: HasEncoder,
    O: HasEncoder,
> HasEncoder for (A, B, C, D, E, F, G, H, I, J, K, L, M, N, O) {
    type Encoder = StructEncoder<
        TupleEncoder<
            TupleEncoder<
                TupleEncoder<A::Encoder, TupleEncoder<B::Encoder, C::Encoder>>,
                TupleEncoder<
                    TupleEncoder<D::Encoder, E::Encoder>,
                    TupleEncoder<F::Encoder, G::Encoder>,
                >,
            >,
            TupleEncoder<
                TupleEncoder<
                    TupleEncoder<H::Encoder, I::Encoder>,
                    TupleEncoder<J::Encoder, K::Encoder>,
                >,
                TupleEncoder<
                    TupleEncoder<L::Encoder, M::Encoder>,
                    TupleEncoder<N::Encoder, O::Encoder>,
                >,
            >,
        >,
    >;
}

impl<
    'a,
    A: HasDecoder<'a>,
    B: HasDecoder<'a>,
    C: HasDecoder<'a>,
    D: HasDecoder<'a>,
    E: HasDecoder<'a>,
    F: HasDecoder<'a>,
    G: HasDecoder<'a>,
    H: HasDecoder<'a>,
    I: HasDecoder<'a>,
    J: HasDecoder<'a>,
    K: HasDecoder<'a>,
    L: HasDecoder<'a>,
    M: HasDecoder<'a>,
    N: HasDecoder<'a>,
    O: HasDecoder<'a>,
> HasDecoder<'a> for (A, B, C, D, E, F, G, H, I, J, K, L, M, N, O) {
    type Decoder = TupleDecoder<
        TupleDecoder<
            TupleDecoder<A::Decoder, TupleDecoder<B::Decoder, C::Decoder>>,
            TupleDecoder<
                TupleDecoder<D::Decoder, E::Decoder>,
                TupleDecoder<F::Decoder, G::Decoder>,
            >,
        >,
        TupleDecoder<
            TupleDecoder<
                TupleDecoder<H::Decoder, I::Decoder>,
                TupleDecoder<J::Decoder, K::Decoder>,
            >,
            TupleDecoder<
                TupleDecoder<L::Decoder, M::Decoder>,
                TupleDecoder<N::Decoder, O::Decoder>,
            >,
        >,
    >;
}

impl<
    A: DecodeOwned,
    B: DecodeOwned,
    C: DecodeOwned,
    D: DecodeOwned,
    E: DecodeOwned,
    F: DecodeOwned,
    G: DecodeOwned,
    H: DecodeOwned,
    I: DecodeOwned,
    J: DecodeOwned,
    K: DecodeOwned,
    L: DecodeOwned,
    M: DecodeOwned,
    N: DecodeOwned,
    O: DecodeOwned,
> DecodeOwned for (A, B, C, D, E, F, G, H, I, J, K, L, M, N, O) {}

impl<
    A: HasEncoder,
    B: HasEncoder,
    C: HasEncoder,
    D: HasEncoder,
    E: HasEncoder,
    F: HasEncoder,
    G: HasEncoder,
    H: HasEncoder,
    I: HasEncoder,
    J: HasEncoder,
    K: HasEncoder,
    L: HasEncoder,
    M: HasEncoder,
    N: HasEncoder,
    O: HasEncoder,
    P: HasEncoder,
> HasEncoder for (A, B, C, D, E, F, G, H, I, J, K, L, M, N, O, P) {
    type Encoder = StructEncoder<
        TupleEncoder<
            TupleEncoder<
                TupleEncoder<
                    TupleEncoder<A::Encoder, B::Encoder>,
                    TupleEncoder<C::Encoder, D::Encoder>,
                >,
                TupleEncoder<
                    TupleEncoder<E::Encoder, F::Encoder>,
                    TupleEncoder<G::Encoder, H::Encoder>,
                >,
            >,
            TupleEncoder<
                TupleEncoder<
                    TupleEncoder<I::Encoder, J::Encoder>,
                    TupleEncoder<K::Encoder, L::Encoder>,
                >,
                TupleEncoder<
                    TupleEncoder<M::Encoder, N::Encoder>,
                    TupleEncoder<O::Encoder, P::Encoder>,
                >,
            >,
        >,
    >;
}

impl<
    'a,
    A: HasDecoder<'a>,
    B: HasDecoder<'a>,
    C: HasDecoder<'a>,
    D: HasDecoder<'a>,
    E: HasDecoder<'a>,
    F: HasDecoder<'a>,
    G: HasDecoder<'a>,
    H: HasDecoder<'a>,
    I: HasDecoder<'a>,
    J: HasDecoder<'a>,
    K: HasDecoder<'a>,
    L: HasDecoder<'a>,
    M: HasDecoder<'a>,
    N: HasDecoder<'a>,
    O: HasDecoder<'a>,
    P: HasDecoder<'a>,
> HasDecoder<'a> for (A, B, C, D, E, F, G, H, I, J, K, L, M, N, O, P) {
    type Decoder = TupleDecoder<
        TupleDecoder<
            TupleDecoder<
                TupleDecoder<A::Decoder, B::Decoder>,
                TupleDecoder<C::Decoder, D::Decoder>,
            >,
            TupleDecoder<
                TupleDecoder<E::Decoder, F::Decoder>,
                TupleDecoder<G::Decoder, H::Decoder>,
            >,
        >,
        TupleDecoder<
            TupleDecoder<
                TupleDecoder<I::Decoder, J::Decoder>,
                TupleDecoder<K::Decoder, L::Decoder>,
            >,
            TupleDecoder<
                TupleDecoder<M::Decoder, N::Decoder>,
                TupleDecoder<O::Decoder, P::Decoder>,
            >,
        >,
    >;
}

impl<
    A: DecodeOwned,
    B: DecodeOwned,
    C: DecodeOwned,
    D: DecodeOwned,
    E: DecodeOwned,
    F: DecodeOwned,
    G: DecodeOwned,
    H: DecodeOwned,
    I: DecodeOwned,
    J: DecodeOwned,
    K: DecodeOwned,
    L: DecodeOwned,
    M: DecodeOwned,
    N: DecodeOwned,
    O: DecodeOwned,
    P: DecodeOwned,
> DecodeOwned for (A, B, C, D, E, F, G, H, I, J, K, L, M, N, O, P) {}
