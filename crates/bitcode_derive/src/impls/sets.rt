//! The coders of sets: those of lists.
use crate::derive::{DecodeOwned, HasDecoder, HasEncoder};
use bitcode_parts::lists::vec::{VecDecoder, VecEncoder};
use bitcode_shapes::keys::Key;
use std::cmp::{Eq, Ord};
use std::collections::{BTreeSet, HashSet};
use std::hash::Hash;

impl<T: HasEncoder + Ord> HasEncoder for BTreeSet<T> {
    type Encoder = VecEncoder<T::Encoder>;
}

impl<'a, T: HasDecoder<'a> + Key + Ord> HasDecoder<'a> for BTreeSet<T> {
    type Decoder = VecDecoder<'a, T::Decoder>;
}

impl<T: DecodeOwned + Key + Ord> DecodeOwned for BTreeSet<T> {}

impl<T: HasEncoder + Eq + Hash> HasEncoder for HashSet<T> {
    type Encoder = VecEncoder<T::Encoder>;
}

impl<'a, T: HasDecoder<'a> + Key + Hash> HasDecoder<'a> for HashSet<T> {
    type Decoder = VecDecoder<'a, T::Decoder>;
}

impl<T: DecodeOwned + Key + Hash> DecodeOwned for HashSet<T> {}
