//! Types that are written as, and made from, pairs of keys and values.
ghost use Rattle.std.specs.Prelude.{◌≡◌, ◌<◌, ◌≤◌, ◌++◌, ◌⊎◌, List, length, map, take, All, refl, OnOk, IfOk, IfErr};
ghost use Rattle.std.specs.Map.{keys_of, values_of};
ghost use Rattle.std.specs.Map.Iter.{deref_pair};
ghost use Rattle.std.proofs.lemmas.List.Sorted.{IsPermutation-refl};
ghost use Rattle.bitcode_shapes.specs.Datum.{Datum};
ghost use Rattle.bitcode_shapes.specs.Shape.{map_shape};
ghost use Rattle.bitcode_shapes.specs.Lists.{ListsSequence};
ghost use Rattle.bitcode_shapes.specs.Pairs.{IsPairValue, ListsPair};
ghost use Rattle.bitcode_coder.specs.Columns.{emptied};
ghost use Rattle.bitcode_coder.specs.Coder.{JoinsEach, OverflowsWithEach, IsWritingRefusal};
ghost use Rattle.bitcode_parts.specs.Elements.{MakesOfElements};

use crate::lists::sequence::{FromElements, encode_lent};
use bitcode_coder::coder::EncodeMany;
use bitcode_coder::lends::LendsPairs;
use bitcode_coder::part::Part;
use bitcode_memory::error::{Error, Reason};
use bitcode_shapes::keys::Key;
use bitcode_shapes::lists::told_each;
use bitcode_shapes::shaped::Shaped;
use std::alloc::Global;
use std::collections::{BTreeMap, HashMap};
use std::hash::Hash;

/// A type that is written as its pairs of keys and values: a map in the order of its keys or in an internal order.
///
/// ```text
/// impl Mapping for Names {
///     type Key = u8;
///     type Value = String;
///     ..
/// }
/// ```
pub trait Mapping: Shaped {
    type Key: Shaped;

    type Value: Shaped;

    // the pairs, as they are written
    ghost entries: { Self → List (Self.Key × Self.Value) };

    /// The number of pairs.
    fn entry_count(&self) -> usize
        ensures { result ≡ length (entries self.now) };

    /// Writes the keys, one after another. The caller must have reserved room for them.
    fn encode_keys<E: EncodeMany<Self::Key>>(&self, keys: &mut E) -> Result<(), Error>
        requires room { length (entries self.now) ≤ E.room keys.old }
        requires values { All Self.Key.data.is_value (keys_of (entries self.now)) }
        ensures joined { OnOk result
            (JoinsEach Self.Key.data.lists Self.Key.data.shape (keys_of (entries self.now))
            (E.columns keys.old) (E.columns keys.new)) }
        ensures form { emptied (E.columns keys.new) ≡ emptied (E.columns keys.old) }
        ensures refused { IfErr result
            (λ e. IsWritingRefusal e.reason
            (OverflowsWithEach Self.Key.data.lists Self.Key.data.shape (keys_of (entries self.now))
            (E.columns keys.old))) };

    /// Writes the values, in the order of their keys. The caller must have reserved room for them.
    fn encode_values<E: EncodeMany<Self::Value>>(&self, values: &mut E) -> Result<(), Error>
        requires room { length (entries self.now) ≤ E.room values.old }
        requires values { All Self.Value.data.is_value (values_of (entries self.now)) }
        ensures joined { OnOk result
            (JoinsEach Self.Value.data.lists Self.Value.data.shape (values_of (entries self.now))
            (E.columns values.old) (E.columns values.new)) }
        ensures form { emptied (E.columns values.new) ≡ emptied (E.columns values.old) }
        ensures refused { IfErr result
            (λ e. IsWritingRefusal e.reason
            (OverflowsWithEach Self.Value.data.lists Self.Value.data.shape
            (values_of (entries self.now))
            (E.columns values.old))) };

    /// Writes the keys and the values, as [`Mapping::encode_keys`] and [`Mapping::encode_values`] do. The caller must
    /// have reserved room for them.
    ///
    /// Errors: those of the encoders. Some of the first keys and values may have been written by then. Maps that can do
    /// this in one iteration override it.
    fn encode_pairs<E: EncodeMany<Self::Key>, F: EncodeMany<Self::Value>>(
        &self,
        keys: &mut E,
        values: &mut F,
    ) -> Result<(), Error>
        requires room { (length (entries self.now) ≤ E.room keys.old)
            × (length (entries self.now) ≤ F.room values.old) }
        requires are { (All Self.Key.data.is_value (keys_of (entries self.now)))
            × (All Self.Value.data.is_value (values_of (entries self.now))) }
        ensures keys { OnOk result
            (JoinsEach Self.Key.data.lists Self.Key.data.shape (keys_of (entries self.now))
            (E.columns keys.old) (E.columns keys.new)) }
        ensures values { OnOk result
            (JoinsEach Self.Value.data.lists Self.Value.data.shape (values_of (entries self.now))
            (F.columns values.old) (F.columns values.new)) }
        ensures form { (emptied (E.columns keys.new) ≡ emptied (E.columns keys.old))
            × (emptied (F.columns values.new) ≡ emptied (F.columns values.old)) }
        ensures refused { IfErr result
            (λ e. IsWritingRefusal e.reason
            (OverflowsWithEach Self.Key.data.lists Self.Key.data.shape (keys_of (entries self.now))
            (E.columns keys.old) ⊎ OverflowsWithEach Self.Value.data.lists Self.Value.data.shape
            (values_of (entries self.now)) (F.columns values.old))) }
    {
        self.encode_keys(keys)?;
        self.encode_values(values)
    }

    ghost entries_are: { (t : Self) → Self.data.is_value t
        → All (IsPairValue Self.Key.data.is_value Self.Value.data.is_value) (entries t) };

    ghost entries_list: { (t : Self) (d : Datum)
        → ListsSequence (ListsPair Self.Key.data.lists Self.Value.data.lists) (entries t) d
        → Self.data.lists t d };

    ghost entries_shape: { Self.data.shape ≡ map_shape Self.Key.data.shape Self.Value.data.shape };
}

/// The key of a pair of references.
struct KeyBehind;

impl<'a, K, V> Part<(&'a K, &'a V), K> for KeyBehind {
    ghost of = { λ w pair. pair.0.now };

    fn part<'b>(&'b self, whole: &'b (&'a K, &'a V)) -> &'b K {
        whole.0
    }
}

/// The value of a pair of references.
struct ValueBehind;

impl<'a, K, V> Part<(&'a K, &'a V), V> for ValueBehind {
    ghost of = { λ w pair. pair.1.now };

    fn part<'b>(&'b self, whole: &'b (&'a K, &'a V)) -> &'b V {
        whole.1
    }
}

// So many pairs of a map are gathered, and their keys and values written at once.
const MOST_PAIRS: usize = 32;

// Takes pairs that are lent and puts them after the first ones of the array, until the array is full or none is left.
// Returns how many the array then has.
fn gather_pairs<'b, K, V, L: LendsPairs<'b, K, V>>(
    lent: &mut L,
    pairs: &mut [(&'b K, &'b V); MOST_PAIRS],
) -> usize
    requires { length pairs.old ≡ MOST_PAIRS }
    ensures count { (0 < result) × (result ≤ MOST_PAIRS) }
    ensures size { length pairs.new ≡ MOST_PAIRS }
    ensures taken { map deref_pair (take 1 pairs.old) ++ L.rest lent.old ≡ map deref_pair
        (take result pairs.new) ++ L.rest lent.new }
{
    for count in 1..MOST_PAIRS {
        match lent.lend_pair() {
            Some(pair) => pairs[count] = pair,
            None => return count,
        }
    }
    MOST_PAIRS
}

// Writes the keys and values of the pairs that are lent, several of them at once. The caller must have reserved the
// room.
fn encode_gathered<
    'b,
    K: Shaped + 'b,
    V: Shaped + 'b,
    L: LendsPairs<'b, K, V>,
    E: EncodeMany<K>,
    F: EncodeMany<V>,
>(mut lent: L, keys: &mut E, values: &mut F) -> Result<(), Error>
    requires room { (length (L.rest lent) ≤ E.room keys.old)
        × (length (L.rest lent) ≤ F.room values.old) }
    requires are { (All K.data.is_value (keys_of (L.rest lent)))
        × (All V.data.is_value (values_of (L.rest lent))) }
    ensures keys { OnOk result
        (JoinsEach K.data.lists K.data.shape (keys_of (L.rest lent)) (E.columns keys.old)
        (E.columns keys.new)) }
    ensures values { OnOk result
        (JoinsEach V.data.lists V.data.shape (values_of (L.rest lent)) (F.columns values.old)
        (F.columns values.new)) }
    ensures form { (emptied (E.columns keys.new) ≡ emptied (E.columns keys.old))
        × (emptied (F.columns values.new) ≡ emptied (F.columns values.old)) }
    ensures refused { IfErr result
        (λ e. IsWritingRefusal e.reason
        (OverflowsWithEach K.data.lists K.data.shape (keys_of (L.rest lent)) (E.columns keys.old)
        ⊎ OverflowsWithEach V.data.lists V.data.shape (values_of (L.rest lent))
        (F.columns values.old))) }
{
    while let Some(first) = lent.lend_pair() {
        let mut pairs = [first; MOST_PAIRS];
        let count = gather_pairs(&mut lent, &mut pairs);
        keys.encode_part_of_each(&pairs[..count], &KeyBehind, first.0)?;
        values.encode_part_of_each(&pairs[..count], &ValueBehind, first.1)?;
    }
    Ok(())
}

impl<K: Key, V: Shaped> Mapping for BTreeMap<K, V> {
    type Key = K;

    type Value = V;

    ghost entries = { λ m. m.entries };

    fn entry_count(&self) -> usize {
        self.len()
    }

    fn encode_keys<E: EncodeMany<K>>(&self, keys: &mut E) -> Result<(), Error> {
        encode_lent(keys, self.keys())
    }

    fn encode_values<E: EncodeMany<V>>(&self, values: &mut E) -> Result<(), Error> {
        encode_lent(values, self.values())
    }

    fn encode_pairs<E: EncodeMany<K>, F: EncodeMany<V>>(
        &self,
        keys: &mut E,
        values: &mut F,
    ) -> Result<(), Error> {
        encode_gathered(self.iter(), keys, values)
    }

    ghost entries_are = { λ t h. h.each };

    ghost entries_list = { λ t d l. l };

    ghost entries_shape = { refl };
}

impl<K: Key + Hash, V: Shaped> Mapping for HashMap<K, V> {
    type Key = K;

    type Value = V;

    ghost entries = { λ m. m.entries };

    fn entry_count(&self) -> usize {
        self.len()
    }

    fn encode_keys<E: EncodeMany<K>>(&self, keys: &mut E) -> Result<(), Error> {
        encode_lent(keys, self.keys())
    }

    fn encode_values<E: EncodeMany<V>>(&self, values: &mut E) -> Result<(), Error> {
        encode_lent(values, self.values())
    }

    fn encode_pairs<E: EncodeMany<K>, F: EncodeMany<V>>(
        &self,
        keys: &mut E,
        values: &mut F,
    ) -> Result<(), Error> {
        encode_gathered(self.iter(), keys, values)
    }

    ghost entries_are = { λ t h. h.each };

    ghost entries_list = { λ t d l. record
        { order = t.entries; reordered = IsPermutation-refl t.entries; listing = l } };

    ghost entries_shape = { refl };
}

impl<K: Key + Drop, V: Shaped + Drop> FromElements for BTreeMap<K, V> {
    type Part = (K, V);

    fn from_elements(alloc: Global, elements: Vec<(K, V)>) -> Result<BTreeMap<K, V>, Error>
        ensures made { IfOk result
            (λ t. MakesOfElements ⟦<BTreeMap<K, V> as Shaped>⟧.data.makes
            ⟦<(K, V) as Shaped>⟧.data.makes t
            elements.items) }
        ensures refused { IfErr result (λ e. e.reason ≡ Reason.OutOfMemory) }
    {
        told_each(elements.as_slice());
        Ok(BTreeMap::from_iter(alloc, elements)?)
    }
}

impl<K: Key + Hash + Drop, V: Shaped + Drop> FromElements for HashMap<K, V> {
    type Part = (K, V);

    fn from_elements(alloc: Global, elements: Vec<(K, V)>) -> Result<HashMap<K, V>, Error>
        ensures made { IfOk result
            (λ t. MakesOfElements ⟦<HashMap<K, V> as Shaped>⟧.data.makes
            ⟦<(K, V) as Shaped>⟧.data.makes t
            elements.items) }
        ensures refused { IfErr result (λ e. e.reason ≡ Reason.OutOfMemory) }
    {
        told_each(elements.as_slice());
        let mut map = HashMap::with_capacity(alloc, elements.len())?;
        for (key, value) in elements {
            let _old = map.insert(key, value)?;
        }
        Ok(map)
    }
}
