// Written by scripts/tables/tuples.
//! The coders of tuples of twelve and thirteen fields.
use crate::derive::{DecodeOwned, HasDecoder, HasEncoder};
use bitcode_tuples::decoder::TupleDecoder;
use bitcode_tuples::encoder::TupleEncoder;
use bitcode_tuples::struct_encoder::StructEncoder;

impl<
    A: HasEncoder,
    B: HasEncoder,
    C: HasEncoder,
    D: HasEncoder,
    E: HasEncoder,
    F: HasEncoder,
    G: HasEncoder,
    H: HasEncoder,
    I: HasEncoder,
    J: HasEncoder,
    K: HasEncoder,
    L: HasEncoder,
> HasEncoder for (A, B, C, D, E, F, G, H, I, J, K, L) {
    type Encoder = StructEncoder<
        TupleEncoder<
            TupleEncoder<
                TupleEncoder<A::Encoder, TupleEncoder<B::Encoder, C::Encoder>>,
                TupleEncoder<D::Encoder, TupleEncoder<E::Encoder, F::Encoder>>,
            >,
            TupleEncoder<
                TupleEncoder<G::Encoder, TupleEncoder<H::Encoder, I::Encoder>>,
                TupleEncoder<J::Encoder, TupleEncoder<K::Encoder, L::Encoder>>,
            >,
        >,
    >;
}

impl<
    'a,
    A: HasDecoder<'a>,
    B: HasDecoder<'a>,
    C: HasDecoder<'a>,
    D: HasDecoder<'a>,
    E: HasDecoder<'a>,
    F: HasDecoder<'a>,
    G: HasDecoder<'a>,
    H: HasDecoder<'a>,
    I: HasDecoder<'a>,
    J: HasDecoder<'a>,
    K: HasDecoder<'a>,
    L: HasDecoder<'a>,
> HasDecoder<'a> for (A, B, C, D, E, F, G, H, I, J, K, L) {
    type Decoder = TupleDecoder<
        TupleDecoder<
            TupleDecoder<A::Decoder, TupleDecoder<B::Decoder, C::Decoder>>,
            TupleDecoder<D::Decoder, TupleDecoder<E::Decoder, F::Decoder>>,
        >,
        TupleDecoder<
            TupleDecoder<G::Decoder, TupleDecoder<H::Decoder, I::Decoder>>,
            TupleDecoder<J::Decoder, TupleDecoder<K::Decoder, L::Decoder>>,
        >,
    >;
}

impl<
    A: DecodeOwned,
    B: DecodeOwned,
    C: DecodeOwned,
    D: DecodeOwned,
    E: DecodeOwned,
    F: DecodeOwned,
    G: DecodeOwned,
    H: DecodeOwned,
    I: DecodeOwned,
    J: DecodeOwned,
    K: DecodeOwned,
    L: DecodeOwned,
> DecodeOwned for (A, B, C, D, E, F, G, H, I, J, K, L) {}

impl<
    A: HasEncoder,
    B: HasEncoder,
    C: HasEncoder,
    D: HasEncoder,
    E: HasEncoder,
    F: HasEncoder,
    G: HasEncoder,
    H: HasEncoder,
    I: HasEncoder,
    J: HasEncoder,
    K: HasEncoder,
    L: HasEncoder,
    M: HasEncoder,
> HasEncoder for (A, B, C, D, E, F, G, H, I, J, K, L, M) {
    type Encoder = StructEncoder<
        TupleEncoder<
            TupleEncoder<
                TupleEncoder<A::Encoder, TupleEncoder<B::Encoder, C::Encoder>>,
                TupleEncoder<D::Encoder, TupleEncoder<E::Encoder, F::Encoder>>,
            >,
            TupleEncoder<
                TupleEncoder<G::Encoder, TupleEncoder<H::Encoder, I::Encoder>>,
                TupleEncoder<
                    TupleEncoder<J::Encoder, K::Encoder>,
                    TupleEncoder<L::Encoder, M::Encoder>,
                >,
            >,
        >,
    >;
}

impl<
    'a,
    A: HasDecoder<'a>,
    B: HasDecoder<'a>,
    C: HasDecoder<'a>,
    D: HasDecoder<'a>,
    E: HasDecoder<'a>,
    F: HasDecoder<'a>,
    G: HasDecoder<'a>,
    H: HasDecoder<'a>,
    I: HasDecoder<'a>,
    J: HasDecoder<'a>,
    K: HasDecoder<'a>,
    L: HasDecoder<'a>,
    M: HasDecoder<'a>,
> HasDecoder<'a> for (A, B, C, D, E, F, G, H, I, J, K, L, M) {
    type Decoder = TupleDecoder<
        TupleDecoder<
            TupleDecoder<A::Decoder, TupleDecoder<B::Decoder, C::Decoder>>,
            TupleDecoder<D::Decoder, TupleDecoder<E::Decoder, F::Decoder>>,
        >,
        TupleDecoder<
            TupleDecoder<G::Decoder, TupleDecoder<H::Decoder, I::Decoder>>,
            TupleDecoder<
                TupleDecoder<J::Decoder, K::Decoder>,
                TupleDecoder<L::Decoder, M::Decoder>,
            >,
        >,
    >;
}

impl<
    A: DecodeOwned,
    B: DecodeOwned,
    C: DecodeOwned,
    D: DecodeOwned,
    E: DecodeOwned,
    F: DecodeOwned,
    G: DecodeOwned,
    H: DecodeOwned,
    I: DecodeOwned,
    J: DecodeOwned,
    K: DecodeOwned,
    L: DecodeOwned,
    M: DecodeOwned,
> DecodeOwned for (A, B, C, D, E, F, G, H, I, J, K, L, M) {}
