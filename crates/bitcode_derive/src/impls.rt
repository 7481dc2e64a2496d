//! The coders of bools, the unit and pairs. Those of other types are in the modules, by subject.
use crate::derive::{DecodeOwned, HasDecoder, HasEncoder};
use bitcode_coder::bool::{BoolDecoder, BoolEncoder};
use bitcode_parts::empty::EmptyCoder;
use bitcode_tuples::decoder::TupleDecoder;
use bitcode_tuples::encoder::TupleEncoder;

mod addresses;
mod arrays;
mod checked;
mod choices;
mod durations;
mod fixed_capacity;
mod floats;
mod heaps;
mod ints;
mod lists;
mod maps;
mod markers;
mod orderings;
mod pointers;
mod ranges;
mod sets;
mod texts;
mod tuples;
mod uuids;
mod wrappers;

impl HasEncoder for bool {
    type Encoder = BoolEncoder;
}

impl<'a> HasDecoder<'a> for bool {
    type Decoder = BoolDecoder<'a>;
}

impl DecodeOwned for bool {}

impl HasEncoder for () {
    type Encoder = EmptyCoder;
}

impl<'a> HasDecoder<'a> for () {
    type Decoder = EmptyCoder;
}

impl DecodeOwned for () {}

impl<A: HasEncoder, B: HasEncoder> HasEncoder for (A, B) {
    type Encoder = TupleEncoder<A::Encoder, B::Encoder>;
}

impl<'a, A: HasDecoder<'a>, B: HasDecoder<'a>> HasDecoder<'a> for (A, B) {
    type Decoder = TupleDecoder<A::Decoder, B::Decoder>;
}

impl<A: DecodeOwned, B: DecodeOwned> DecodeOwned for (A, B) {}
