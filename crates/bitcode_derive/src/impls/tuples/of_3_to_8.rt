// Written by scripts/tables/tuples.
//! The coders of tuples of three to eight fields.
use crate::derive::{DecodeOwned, HasDecoder, HasEncoder};
use bitcode_tuples::decoder::TupleDecoder;
use bitcode_tuples::encoder::TupleEncoder;
use bitcode_tuples::struct_encoder::StructEncoder;

impl<A: HasEncoder, B: HasEncoder, C: HasEncoder> HasEncoder for (A, B, C) {
    type Encoder = StructEncoder<TupleEncoder<A::Encoder, TupleEncoder<B::Encoder, C::Encoder>>>;
}

impl<'a, A: HasDecoder<'a>, B: HasDecoder<'a>, C: HasDecoder<'a>> HasDecoder<'a> for (A, B, C) {
    type Decoder = TupleDecoder<A::Decoder, TupleDecoder<B::Decoder, C::Decoder>>;
}

impl<A: DecodeOwned, B: DecodeOwned, C: DecodeOwned> DecodeOwned for (A, B, C) {}

impl<A: HasEncoder, B: HasEncoder, C: HasEncoder, D: HasEncoder> HasEncoder for (A, B, C, D) {
    type Encoder = StructEncoder<
        TupleEncoder<TupleEncoder<A::Encoder, B::Encoder>, TupleEncoder<C::Encoder, D::Encoder>>,
    >;
}

impl<'a, A: HasDecoder<'a>, B: HasDecoder<'a>, C: HasDecoder<'a>, D: HasDecoder<'a>> HasDecoder<'a>
    for (A, B, C, D) {
    type Decoder = TupleDecoder<
        TupleDecoder<A::Decoder, B::Decoder>,
        TupleDecoder<C::Decoder, D::Decoder>,
    >;
}

impl<A: DecodeOwned, B: DecodeOwned, C: DecodeOwned, D: DecodeOwned> DecodeOwned for (A, B, C, D) {}

impl<A: HasEncoder, B: HasEncoder, C: HasEncoder, D: HasEncoder, E: HasEncoder> HasEncoder
    for (A, B, C, D, E) {
    type Encoder = StructEncoder<
        TupleEncoder<
            TupleEncoder<A::Encoder, B::Encoder>,
            TupleEncoder<C::Encoder, TupleEncoder<D::Encoder, E::Encoder>>,
        >,
    >;
}

impl<
    'a,
    A: HasDecoder<'a>,
    B: HasDecoder<'a>,
    C: HasDecoder<'a>,
    D: HasDecoder<'a>,
    E: HasDecoder<'a>,
> HasDecoder<'a> for (A, B, C, D, E) {
    type Decoder = TupleDecoder<
        TupleDecoder<A::Decoder, B::Decoder>,
        TupleDecoder<C::Decoder, TupleDecoder<D::Decoder, E::Decoder>>,
    >;
}

impl<A: DecodeOwned, B: DecodeOwned, C: DecodeOwned, D: DecodeOwned, E: DecodeOwned> DecodeOwned
    for (A, B, C, D, E) {}

impl<
    A: HasEncoder,
    B: HasEncoder,
    C: HasEncoder,
    D: HasEncoder,
    E: HasEncoder,
    F: HasEncoder,
> HasEncoder for (A, B, C, D, E, F) {
    type Encoder = StructEncoder<
        TupleEncoder<
            TupleEncoder<A::Encoder, TupleEncoder<B::Encoder, C::Encoder>>,
            TupleEncoder<D::Encoder, TupleEncoder<E::Encoder, F::Encoder>>,
        >,
    >;
}

impl<
    'a,
    A: HasDecoder<'a>,
    B: HasDecoder<'a>,
    C: HasDecoder<'a>,
    D: HasDecoder<'a>,
    E: HasDecoder<'a>,
    F: HasDecoder<'a>,
> HasDecoder<'a> for (A, B, C, D, E, F) {
    type Decoder = TupleDecoder<
        TupleDecoder<A::Decoder, TupleDecoder<B::Decoder, C::Decoder>>,
        TupleDecoder<D::Decoder, TupleDecoder<E::Decoder, F::Decoder>>,
    >;
}

impl<
    A: DecodeOwned,
    B: DecodeOwned,
    C: DecodeOwned,
    D: DecodeOwned,
    E: DecodeOwned,
    F: DecodeOwned,
> DecodeOwned for (A, B, C, D, E, F) {}

impl<
    A: HasEncoder,
    B: HasEncoder,
    C: HasEncoder,
    D: HasEncoder,
    E: HasEncoder,
    F: HasEncoder,
    G: HasEncoder,
> HasEncoder for (A, B, C, D, E, F, G) {
    type Encoder = StructEncoder<
        TupleEncoder<
            TupleEncoder<A::Encoder, TupleEncoder<B::Encoder, C::Encoder>>,
            TupleEncoder<
                TupleEncoder<D::Encoder, E::Encoder>,
                TupleEncoder<F::Encoder, G::Encoder>,
            >,
        >,
    >;
}

impl<
    'a,
    A: HasDecoder<'a>,
    B: HasDecoder<'a>,
    C: HasDecoder<'a>,
    D: HasDecoder<'a>,
    E: HasDecoder<'a>,
    F: HasDecoder<'a>,
    G: HasDecoder<'a>,
> HasDecoder<'a> for (A, B, C, D, E, F, G) {
    type Decoder = TupleDecoder<
        TupleDecoder<A::Decoder, TupleDecoder<B::Decoder, C::Decoder>>,
        TupleDecoder<TupleDecoder<D::Decoder, E::Decoder>, TupleDecoder<F::Decoder, G::Decoder>>,
    >;
}

impl<
    A: DecodeOwned,
    B: DecodeOwned,
    C: DecodeOwned,
    D: DecodeOwned,
    E: DecodeOwned,
    F: DecodeOwned,
    G: DecodeOwned,
> DecodeOwned for (A, B, C, D, E, F, G) {}

impl<
    A: HasEncoder,
    B: HasEncoder,
    C: HasEncoder,
    D: HasEncoder,
    E: HasEncoder,
    F: HasEncoder,
    G: HasEncoder,
    H: HasEncoder,
> HasEncoder for (A, B, C, D, E, F, G, H) {
    type Encoder = StructEncoder<
        TupleEncoder<
            TupleEncoder<
                TupleEncoder<A::Encoder, B::Encoder>,
                TupleEncoder<C::Encoder, D::Encoder>,
            >,
            TupleEncoder<
                TupleEncoder<E::Encoder, F::Encoder>,
                TupleEncoder<G::Encoder, H::Encoder>,
            >,
        >,
    >;
}

impl<
    'a,
    A: HasDecoder<'a>,
    B: HasDecoder<'a>,
    C: HasDecoder<'a>,
    D: HasDecoder<'a>,
    E: HasDecoder<'a>,
    F: HasDecoder<'a>,
    G: HasDecoder<'a>,
    H: HasDecoder<'a>,
> HasDecoder<'a> for (A, B, C, D, E, F, G, H) {
    type Decoder = TupleDecoder<
        TupleDecoder<TupleDecoder<A::Decoder, B::Decoder>, TupleDecoder<C::Decoder, D::Decoder>>,
        TupleDecoder<TupleDecoder<E::Decoder, F::Decoder>, TupleDecoder<G::Decoder, H::Decoder>>,
    >;
}

impl<
    A: DecodeOwned,
    B: DecodeOwned,
    C: DecodeOwned,
    D: DecodeOwned,
    E: DecodeOwned,
    F: DecodeOwned,
    G: DecodeOwned,
    H: DecodeOwned,
> DecodeOwned for (A, B, C, D, E, F, G, H) {}
