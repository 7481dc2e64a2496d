//! Maps: how many pairs there are, and then each key and its value.
#![tactic(auto)]

ghost use Rattle.std.specs.Prelude.{◌≡◌, ◌≤◌, List, length, map, IfOk, IfErr, OnOk};
ghost use Rattle.bitcode_shapes.specs.Datum.{Datum};
ghost use Rattle.bitcode_untyped.specs.ShapeTree.{ShapeTree, map_tree};
ghost use Rattle.bitcode_serde.specs.ReadingValues.{IsSteady, Continues};
ghost use Rattle.bitcode_serde.specs.Serializing.{Outcome};
ghost use Rattle.bitcode_serde.specs.Writing.{RefusesAt};
ghost use Rattle.bitcode_serde_types.specs.DeepFaults.{deep_faults};
ghost use Rattle.bitcode_serde_types.specs.Pairs.{BeginsMap, ReadsPairsAs, pair_datum, map_datum};
ghost use Rattle.bitcode_serde_types.specs.Refusals.{IsRefusalAt};
ghost use Rattle.bitcode_serde_types.specs.Restates.{AreEntriesOf};

use crate::deserialize_as::DeserializeAs;
use crate::entering::{Pairs, enter_map};
use crate::has_shape::HasShape;
use crate::keys::KeyAs;
use crate::serialize_as::SerializeAs;
use bitcode_coder::lends::LendsPairs;
use bitcode_memory::error::{Error, Reason};
use bitcode_serde::budget::Budget;
use bitcode_serde::reader::Reader;
use bitcode_serde::step::Step;
use bitcode_serde::write_column::Entry;
use bitcode_serde::writer::Writer;
use std::alloc::Global;
use std::collections::{BTreeMap, HashMap};
use std::hash::Hash;

/// Writes how many pairs a map has, and finds the places of its keys and of its values.
///
/// If an allocation fails, the error is `out of memory`.
pub fn begin_map(writer: &mut Writer, count: usize, place: usize) -> Result<Pairs, Error>
    requires { place ≤ length writer.old.places.below.items }
    ensures begins { IfOk result
        (λ begun. BeginsMap writer.old writer.new place count begun.keys begun.values) }
    ensures refused { IfErr result
        (λ e. (k v : ShapeTree) (faults : List Reason)
        → RefusesAt writer.old (map_tree k v) place faults e.reason) }
{
    writer.put(place, Entry::Length(count))?;
    let keys = writer.below(place, Step::Key)?;
    let values = writer.below(place, Step::Value)?;
    Ok(Pairs {
        keys,
        values,
        count,
    })
}

// Writes a map of `count` pairs that are lent.
fn write_pairs<'b, K: KeyAs + 'b, V: SerializeAs + 'b, L: LendsPairs<'b, K, V>>(
    mut lent: L,
    count: usize,
    writer: &mut Writer,
    left: usize,
    place: usize,
) -> Result<(), Error>
    requires place { place ≤ length writer.old.places.below.items }
    requires all { length (L.rest lent) ≡ count }
    ensures { Outcome writer.old (map_tree (K.tree left) (V.tree left)) place
        (map_datum K.datum V.datum (L.rest lent))
        (deep_faults (map_tree (K.tree left) (V.tree left))
        (map_datum K.datum V.datum (L.rest lent)))
        result writer.new }
{
    let places = begin_map(writer, count, place)?;
    while let Some((key, value)) = lent.lend_pair() {
        key.write(writer, left, places.keys)?;
        value.write(writer, left, places.values)?;
    }
    Ok(())
}

impl<K: KeyAs, V: HasShape> HasShape for BTreeMap<K, V> {
    ghost tree = { λ left. map_tree (K.tree left) (V.tree left) };

    ghost datum = { λ m. map_datum K.datum V.datum m.entries };

    ghost sound = { λ left. (K.sound left, V.sound left) };
}

impl<K: KeyAs, V: SerializeAs> SerializeAs for BTreeMap<K, V> {
    fn write(&self, writer: &mut Writer, left: usize, place: usize) -> Result<(), Error> {
        write_pairs(self.iter(), self.len(), writer, left, place)
    }
}

impl<K: KeyAs + Hash, V: HasShape> HasShape for HashMap<K, V> {
    ghost tree = { λ left. map_tree (K.tree left) (V.tree left) };

    ghost datum = { λ m. map_datum K.datum V.datum m.entries };

    ghost sound = { λ left. (K.sound left, V.sound left) };
}

impl<K: KeyAs + Hash, V: SerializeAs> SerializeAs for HashMap<K, V> {
    fn write(&self, writer: &mut Writer, left: usize, place: usize) -> Result<(), Error> {
        write_pairs(self.iter(), self.len(), writer, left, place)
    }
}

/// Reads the pairs of a map, each a key and its value.
pub fn read_pairs<'a, K: KeyAs + DeserializeAs<'a>, V: DeserializeAs<'a>>(
    alloc: Global,
    reader: &mut Reader<'a>,
    budget: &mut Budget,
    left: usize,
    place: usize,
) -> Result<Vec<(K, V)>, Error>
    requires place { place ≤ length reader.old.places.below.items }
    requires steady { IsSteady reader.old }
    ensures continues { OnOk result (Continues reader.old reader.new) }
    ensures read { IfOk result
        (λ pairs. ReadsPairsAs K.datum V.datum (K.tree left) (V.tree left) place reader.old
        budget.old pairs.items reader.new budget.new) }
    ensures refused { IfErr result
        (λ e. IsRefusalAt (map_tree (K.tree left) (V.tree left)) place reader.old e.reason) }
{
    let found = enter_map(reader, budget, place)?;
    let mut pairs = Vec::new(alloc);
    for _i in 0..found.count {
        budget.take(1);
        let key: K = K::read(alloc, reader, budget, left, found.keys)?;
        let value: V = V::read(alloc, reader, budget, left, found.values)?;
        budget.keep(&mut pairs, (key, value))?;
    }
    Ok(pairs)
}

/// A map into which the pairs are inserted in turn, so that the last value of a key stays.
pub fn ordered_map<K: KeyAs + Drop, V: Drop>(
    alloc: Global,
    pairs: Vec<(K, V)>,
) -> Result<BTreeMap<K, V>, Error>
    ensures entries { IfOk result
        (λ m. (value : V → Datum) → AreEntriesOf (map (pair_datum K.datum value) pairs.items)
        (map (pair_datum K.datum value) m.entries)) }
    ensures refused { IfErr result (λ e. e.reason ≡ Reason.OutOfMemory) }
{
    Ok(BTreeMap::from_iter(alloc, pairs)?)
}

/// A map into which the pairs are inserted in turn, so that the last value of a key stays.
pub fn hashed_map<K: KeyAs + Hash + Drop, V: Drop>(
    alloc: Global,
    pairs: Vec<(K, V)>,
) -> Result<HashMap<K, V>, Error>
    ensures entries { IfOk result
        (λ m. (value : V → Datum) → AreEntriesOf (map (pair_datum K.datum value) pairs.items)
        (map (pair_datum K.datum value) m.entries)) }
    ensures refused { IfErr result (λ e. e.reason ≡ Reason.OutOfMemory) }
{
    Ok(HashMap::from_iter(alloc, pairs)?)
}

impl<'a, K: KeyAs + DeserializeAs<'a>, V: DeserializeAs<'a>> DeserializeAs<'a> for BTreeMap<K, V> {
    fn is_free() -> bool {
        false
    }

    fn read(
        alloc: Global,
        reader: &mut Reader<'a>,
        budget: &mut Budget,
        left: usize,
        place: usize,
    ) -> Result<BTreeMap<K, V>, Error> {
        let pairs: Vec<(K, V)> = read_pairs(alloc, reader, budget, left, place)?;
        let made = ordered_map(alloc, pairs)?;
        Ok(made)
    }
}

impl<'a, K: KeyAs + Hash + DeserializeAs<'a>, V: DeserializeAs<'a>> DeserializeAs<'a>
    for HashMap<K, V> {
    fn is_free() -> bool {
        false
    }

    fn read(
        alloc: Global,
        reader: &mut Reader<'a>,
        budget: &mut Budget,
        left: usize,
        place: usize,
    ) -> Result<HashMap<K, V>, Error> {
        let pairs: Vec<(K, V)> = read_pairs(alloc, reader, budget, left, place)?;
        let made = hashed_map(alloc, pairs)?;
        Ok(made)
    }
}
