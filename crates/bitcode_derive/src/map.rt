//! The coders of maps: the lengths of all maps, then the columns of all keys, and then those of all values.
#![tactic(auto, unfolding(bitcode_coder::specs::Length::lengths_left, bitcode_coder::specs::Length::lengths_sum))]

ghost use Rattle.std.specs.Prelude.{◌≡◌, ◌<◌, [], None, length, map, false, IfOk, IfErr, ◌+◌};
ghost use Rattle.std.proofs.Common.{sym, ap, ap₂, ◌∙◌};
ghost use Rattle.bitcode_shapes.specs.Shape.{Shape, map_shape};
ghost use Rattle.bitcode_coder.specs.Coder.{written_columns, TakesDatum};
ghost use Rattle.bitcode_coder.specs.ColumnFree.{has_entry, count_if_free};
ghost use Rattle.bitcode_coder.specs.Columns.{lengths, one, two};
ghost use Rattle.bitcode_coder.specs.Length.{written_lengths, length_room, length_capacity, lengths_sum};
ghost use Rattle.bitcode_coder.specs.Spelling.{natural};

use bitcode_coder::coder::{
    Buffer, Decoder, EncodeMany, Encoder, HoldsColumns, HoldsData, NewDecoder, View, encode_parts,
};
use bitcode_coder::column_free::ColumnFree;
use bitcode_coder::length::LengthEncoder;
use bitcode_coder::part::Part;
use bitcode_memory::error::{Error, Reason};
use bitcode_parts::lists::sequence::FromElements;
use bitcode_parts::lists::vec::VecDecoder;
use bitcode_parts::maps::Mapping;
use bitcode_shapes::keys::Key;
use bitcode_shapes::shaped::Shaped;
use bitcode_tuples::decoder::TupleDecoder;
use std::alloc::Global;
use std::collections::{BTreeMap, HashMap};
use std::hash::Hash;

/// The encoder of maps: a column of lengths, followed by the columns of all keys, and then those of all values.
///
/// It writes the keys and the values with their encoders, in the same order, and returns the errors of these.
///
/// ```rust
/// let map: BTreeMap<u8, u8> = decode(alloc, &[1, 1, 6])?; // 1 to 6
/// let mut maps: MapEncoder<IntEncoder<u8>, IntEncoder<u8>> = MapEncoder::new(alloc);
/// maps.reserve(1)?;
/// maps.encode(&map)?;
/// assert_eq!(rt; maps.collect(alloc)?.as_slice(), [1, 1, 6].as_slice());
/// ```
#[derive(Drop)]
pub struct MapEncoder<K, V> {
    lengths: LengthEncoder,
    keys: K,
    values: V,
}

impl<K: HoldsColumns, V: HoldsColumns> HoldsColumns for MapEncoder<K, V> {
    ghost columns = { λ e. two (one (lengths None) (map natural (written_lengths e.lengths)))
        (two (K.columns e.keys) (V.columns e.values)) };

    ghost room = { λ e. length_room e.lengths };

    ghost capacity = { λ e. length_capacity e.lengths + K.capacity e.keys + V.capacity e.values };

    ghost surely_overflows = { λ e n. ⊥ };

    ghost overflows = { λ e n. ⊥ };

    ghost writes_free = { false };
}

impl<K: Buffer, V: Buffer> Buffer for MapEncoder<K, V> {
    fn new(alloc: Global) -> Self {
        MapEncoder {
            lengths: LengthEncoder::new(alloc),
            keys: K::new(alloc),
            values: V::new(alloc),
        }
    }

    fn reserve(&mut self, n: usize) -> Result<(), Error> {
        self.lengths.reserve(n)
    }

    fn collect_into(&mut self, out: &mut Vec<u8>) -> Result<(), Error> {
        self.lengths.collect_into(out)?;
        self.keys.collect_into(out)?;
        self.values.collect_into(out)
    }

    fn clear(&mut self) {
        self.lengths.clear();
        self.keys.clear();
        self.values.clear();
    }
}

impl<M: Mapping, K: Buffer + EncodeMany<M::Key>, V: Buffer + EncodeMany<M::Value>> Encoder<M>
    for MapEncoder<K, V> {
    fn encode(&mut self, t: &M) -> Result<(), Error> {
        t.told();
        let count = t.entry_count();
        self.keys.reserve(count)?;
        self.values.reserve(count)?;
        self.lengths.encode(count)?;
        t.encode_pairs(&mut self.keys, &mut self.values)
    }

    ghost of_shape = { λ e. ap₂ (λ keys values. two (one (lengths None) []) (two keys values))
        (K.of_shape e.keys) (V.of_shape e.values) ∙ ap (λ (shape : Shape). written_columns shape [])
        (sym M.entries_shape) };

    ghost surely = { λ e n never. absurd never };
}

impl<M: Mapping, K: Buffer + EncodeMany<M::Key>, V: Buffer + EncodeMany<M::Value>> EncodeMany<M>
    for MapEncoder<K, V> {
    fn encode_part_of_each<S, W: Part<S, M>>(
        &mut self,
        items: &[S],
        which: &W,
        _first: &M,
    ) -> Result<(), Error> {
        encode_parts(self, items, which)
    }

    ghost of_shape = { λ e. ap₂ (λ keys values. two (one (lengths None) []) (two keys values))
        (K.of_shape e.keys) (V.of_shape e.values) ∙ ap (λ (shape : Shape). written_columns shape [])
        (sym M.entries_shape) };

    ghost surely = { λ e n never. absurd never };
}

/// The decoder of maps. It reads the lengths of all maps, and then all keys and all values.
///
/// It makes the keys and the values with their decoders, and the map from their pairs: of two equal keys, the last one
/// gives the value.
///
/// ```
/// let mut maps: MapDecoder<IntDecoder<u8>, IntDecoder<u8>> = MapDecoder::new(alloc);
/// maps.populate(&mut input, 1)?;              // [1, 1, 6]
/// let map: BTreeMap<u8, u8> = maps.decode()?; // 1 to 6
/// ```
#[derive(Drop)]
pub struct MapDecoder<'a, K, V> {
    entries: VecDecoder<'a, TupleDecoder<K, V>>,
}

impl<'a, K: HoldsData, V: HoldsData> HoldsData for MapDecoder<'a, K, V> {
    ghost shape = { map_shape K.shape V.shape };

    ghost held = { λ d. ⟦<VecDecoder<'a, TupleDecoder<K, V>> as HoldsData>⟧.held d.entries };

    ghost owned = { λ d. ⟦<VecDecoder<'a, TupleDecoder<K, V>> as HoldsData>⟧.owned d.entries };

    ghost free_inside = { λ d. count_if_free (has_entry K.shape) (lengths_sum d.entries.lengths)
        + (K.free_inside d.entries.elements.first + V.free_inside d.entries.elements.second) };
}

impl<'a, K: NewDecoder, V: NewDecoder> NewDecoder for MapDecoder<'a, K, V> {
    fn new(alloc: Global) -> Self {
        MapDecoder {
            entries: VecDecoder::new(alloc),
        }
    }

    fn column_free(&self) -> ColumnFree {
        let pairs = self.entries.elements();
        let keys = pairs.first().column_free().in_lists(self.entries.total());
        ColumnFree {
            has_entry: true,
            inside: keys.saturating_add(pairs.second().column_free().inside),
        }
    }
}

impl<'a, K: View<'a>, V: View<'a>> View<'a> for MapDecoder<'a, K, V> {
    fn read(&mut self, input: &mut &'a [u8], k: usize, strict: bool) -> Result<bool, Error> {
        self.entries.read(input, k, strict)
    }
}

impl<'a, K, V> MapDecoder<'a, K, V> {
    /// Makes a container from the next length and as many pairs. At least one length must be left.
    ///
    /// The decoder of a user-defined map calls this. The only error is `out of memory`.
    ///
    /// ```text
    /// let names: Names = maps.decode_as()?; // of a `Names: FromElements<Part = (u8, String)>`
    /// ```
    pub fn decode_as<C: FromElements>(&mut self) -> Result<C, Error>
    where
        TupleDecoder<K, V>: Decoder<C::Part>,
        requires { 0 < length
            (⟦<VecDecoder<'a, TupleDecoder<K, V>> as HoldsData>⟧.held self.old.entries) }
        ensures made { IfOk result
            (λ t. TakesDatum C.data.makes t
            (⟦<VecDecoder<'a, TupleDecoder<K, V>> as HoldsData>⟧.held self.old.entries)
            (⟦<VecDecoder<'a, TupleDecoder<K, V>> as HoldsData>⟧.held self.new.entries)) }
        ensures refused { IfErr result (λ e. e.reason ≡ Reason.OutOfMemory) }
    {
        self.entries.decode_as()
    }
}

impl<'a, P: Key + Drop, Q: Shaped + Drop, K: Decoder<P>, V: Decoder<Q>> Decoder<BTreeMap<P, Q>>
    for MapDecoder<'a, K, V> {
    ghost makes_free = { false };

    fn decode(&mut self) -> Result<BTreeMap<P, Q>, Error> {
        self.decode_as()
    }

    ghost same_shape = { ap₂ map_shape K.same_shape V.same_shape };
}

impl<'a, P: Key + Hash + Drop, Q: Shaped + Drop, K: Decoder<P>, V: Decoder<Q>> Decoder<
    HashMap<P, Q>,
> for MapDecoder<'a, K, V> {
    ghost makes_free = { false };

    fn decode(&mut self) -> Result<HashMap<P, Q>, Error> {
        self.decode_as()
    }

    ghost same_shape = { ap₂ map_shape K.same_shape V.same_shape };
}
