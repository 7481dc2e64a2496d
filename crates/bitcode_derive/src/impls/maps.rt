//! The coders of maps.
use crate::derive::{DecodeOwned, HasDecoder, HasEncoder};
use crate::map::{MapDecoder, MapEncoder};
use bitcode_shapes::keys::Key;
use std::cmp::{Eq, Ord};
use std::collections::{BTreeMap, HashMap};
use std::hash::Hash;

impl<K: HasEncoder + Ord, V: HasEncoder> HasEncoder for BTreeMap<K, V> {
    type Encoder = MapEncoder<K::Encoder, V::Encoder>;
}

impl<'a, K: HasDecoder<'a> + Key + Ord, V: HasDecoder<'a>> HasDecoder<'a> for BTreeMap<K, V> {
    type Decoder = MapDecoder<'a, K::Decoder, V::Decoder>;
}

impl<K: DecodeOwned + Key + Ord, V: DecodeOwned> DecodeOwned for BTreeMap<K, V> {}

impl<K: HasEncoder + Eq + Hash, V: HasEncoder> HasEncoder for HashMap<K, V> {
    type Encoder = MapEncoder<K::Encoder, V::Encoder>;
}

impl<'a, K: HasDecoder<'a> + Key + Hash, V: HasDecoder<'a>> HasDecoder<'a> for HashMap<K, V> {
    type Decoder = MapDecoder<'a, K::Decoder, V::Decoder>;
}

impl<K: DecodeOwned + Key + Hash, V: DecodeOwned> DecodeOwned for HashMap<K, V> {}
