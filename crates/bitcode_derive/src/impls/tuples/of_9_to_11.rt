// Written by scripts/tables/tuples.
//! The coders of tuples of nine to eleven fields.
use crate::derive::{DecodeOwned, HasDecoder, HasEncoder};
use bitcode_tuples::decoder::TupleDecoder;
use bitcode_tuples::encoder::TupleEncoder;
use bitcode_tuples::struct_encoder::StructEncoder;

impl<
    A: HasEncoder,
    B: HasEncoder,
    C: HasEncoder,
    D: HasEncoder,
    E: HasEncoder,
    F: HasEncoder,
    G: HasEncoder,
    H: HasEncoder,
    I: HasEncoder,
> HasEncoder for (A, B, C, D, E, F, G, H, I) {
    type Encoder = StructEncoder<
        TupleEncoder<
            TupleEncoder<
                TupleEncoder<A::Encoder, B::Encoder>,
                TupleEncoder<C::Encoder, D::Encoder>,
            >,
            TupleEncoder<
                TupleEncoder<E::Encoder, F::Encoder>,
                TupleEncoder<G::Encoder, TupleEncoder<H::Encoder, I::Encoder>>,
            >,
        >,
    >;
}

impl<
    'a,
    A: HasDecoder<'a>,
    B: HasDecoder<'a>,
    C: HasDecoder<'a>,
    D: HasDecoder<'a>,
    E: HasDecoder<'a>,
    F: HasDecoder<'a>,
    G: HasDecoder<'a>,
    H: HasDecoder<'a>,
    I: HasDecoder<'a>,
> HasDecoder<'a> for (A, B, C, D, E, F, G, H, I) {
    type Decoder = TupleDecoder<
        TupleDecoder<TupleDecoder<A::Decoder, B::Decoder>, TupleDecoder<C::Decoder, D::Decoder>>,
        TupleDecoder<
            TupleDecoder<E::Decoder, F::Decoder>,
            TupleDecoder<G::Decoder, TupleDecoder<H::Decoder, I::Decoder>>,
        >,
    >;
}

impl<
    A: DecodeOwned,
    B: DecodeOwned,
    C: DecodeOwned,
    D: DecodeOwned,
    E: DecodeOwned,
    F: DecodeOwned,
    G: DecodeOwned,
    H: DecodeOwned,
    I: DecodeOwned,
> DecodeOwned for (A, B, C, D, E, F, G, H, I) {}

impl<
    A: HasEncoder,
    B: HasEncoder,
    C: HasEncoder,
    D: HasEncoder,
    E: HasEncoder,
    F: HasEncoder,
    G: HasEncoder,
    H: HasEncoder,
    I: HasEncoder,
    J: HasEncoder,
> HasEncoder for (A, B, C, D, E, F, G, H, I, J) {
    type Encoder = StructEncoder<
        TupleEncoder<
            TupleEncoder<
                TupleEncoder<A::Encoder, B::Encoder>,
                TupleEncoder<C::Encoder, TupleEncoder<D::Encoder, E::Encoder>>,
            >,
            TupleEncoder<
                TupleEncoder<F::Encoder, G::Encoder>,
                TupleEncoder<H::Encoder, TupleEncoder<I::Encoder, J::Encoder>>,
            >,
        >,
    >;
}

impl<
    'a,
    A: HasDecoder<'a>,
    B: HasDecoder<'a>,
    C: HasDecoder<'a>,
    D: HasDecoder<'a>,
    E: HasDecoder<'a>,
    F: HasDecoder<'a>,
    G: HasDecoder<'a>,
    H: HasDecoder<'a>,
    I: HasDecoder<'a>,
    J: HasDecoder<'a>,
> HasDecoder<'a> for (A, B, C, D, E, F, G, H, I, J) {
    type Decoder = TupleDecoder<
        TupleDecoder<
            TupleDecoder<A::Decoder, B::Decoder>,
            TupleDecoder<C::Decoder, TupleDecoder<D::Decoder, E::Decoder>>,
        >,
        TupleDecoder<
            TupleDecoder<F::Decoder, G::Decoder>,
            TupleDecoder<H::Decoder, TupleDecoder<I::Decoder, J::Decoder>>,
        >,
    >;
}

impl<
    A: DecodeOwned,
    B: DecodeOwned,
    C: DecodeOwned,
    D: DecodeOwned,
    E: DecodeOwned,
    F: DecodeOwned,
    G: DecodeOwned,
    H: DecodeOwned,
    I: DecodeOwned,
    J: DecodeOwned,
> DecodeOwned for (A, B, C, D, E, F, G, H, I, J) {}

impl<
    A: HasEncoder,
    B: HasEncoder,
    C: HasEncoder,
    D: HasEncoder,
    E: HasEncoder,
    F: HasEncoder,
    G: HasEncoder,
    H: HasEncoder,
    I: HasEncoder,
    J: HasEncoder,
    K: HasEncoder,
> HasEncoder for (A, B, C, D, E, F, G, H, I, J, K) {
    type Encoder = StructEncoder<
        TupleEncoder<
            TupleEncoder<
                TupleEncoder<A::Encoder, B::Encoder>,
                TupleEncoder<C::Encoder, TupleEncoder<D::Encoder, E::Encoder>>,
            >,
            TupleEncoder<
                TupleEncoder<F::Encoder, TupleEncoder<G::Encoder, H::Encoder>>,
                TupleEncoder<I::Encoder, TupleEncoder<J::Encoder, K::Encoder>>,
            >,
        >,
    >;
}

impl<
    'a,
    A: HasDecoder<'a>,
    B: HasDecoder<'a>,
    C: HasDecoder<'a>,
    D: HasDecoder<'a>,
    E: HasDecoder<'a>,
    F: HasDecoder<'a>,
    G: HasDecoder<'a>,
    H: HasDecoder<'a>,
    I: HasDecoder<'a>,
    J: HasDecoder<'a>,
    K: HasDecoder<'a>,
> HasDecoder<'a> for (A, B, C, D, E, F, G, H, I, J, K) {
    type Decoder = TupleDecoder<
        TupleDecoder<
            TupleDecoder<A::Decoder, B::Decoder>,
            TupleDecoder<C::Decoder, TupleDecoder<D::Decoder, E::Decoder>>,
        >,
        TupleDecoder<
            TupleDecoder<F::Decoder, TupleDecoder<G::Decoder, H::Decoder>>,
            TupleDecoder<I::Decoder, TupleDecoder<J::Decoder, K::Decoder>>,
        >,
    >;
}

impl<
    A: DecodeOwned,
    B: DecodeOwned,
    C: DecodeOwned,
    D: DecodeOwned,
    E: DecodeOwned,
    F: DecodeOwned,
    G: DecodeOwned,
    H: DecodeOwned,
    I: DecodeOwned,
    J: DecodeOwned,
    K: DecodeOwned,
> DecodeOwned for (A, B, C, D, E, F, G, H, I, J, K) {}
