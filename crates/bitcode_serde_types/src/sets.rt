//! Sets: maps to units, so that elements are read in any order, and of equal ones the set keeps one.
#![tactic(auto)]

ghost use Rattle.std.specs.Prelude.{◌≡◌, ◌≤◌, length, map, IfOk, IfErr, OnOk};
ghost use Rattle.bitcode_shapes.specs.Datum.{unit};
ghost use Rattle.bitcode_untyped.specs.ShapeTree.{map_tree, unit_tree};
ghost use Rattle.bitcode_serde.specs.ReadingValues.{IsSteady, Continues};
ghost use Rattle.bitcode_serde.specs.Serializing.{Outcome};
ghost use Rattle.bitcode_serde_types.specs.DeepFaults.{deep_faults};
ghost use Rattle.bitcode_serde_types.specs.Pairs.{ReadsPairsAs, pair_datum, set_datum, with_unit};
ghost use Rattle.bitcode_serde_types.specs.Refusals.{IsRefusalAt};
ghost use Rattle.bitcode_serde_types.specs.Restates.{AreEntriesOf};

use crate::deserialize_as::DeserializeAs;
use crate::entering::enter_map;
use crate::has_shape::HasShape;
use crate::keys::KeyAs;
use crate::maps::begin_map;
use crate::serialize_as::SerializeAs;
use bitcode_coder::lends::Lends;
use bitcode_memory::error::{Error, Reason};
use bitcode_serde::budget::Budget;
use bitcode_serde::reader::Reader;
use bitcode_serde::writer::Writer;
use std::alloc::Global;
use std::collections::{BTreeSet, HashSet};
use std::hash::Hash;

// Writes a set of `count` elements that are lent, each a key with a unit.
fn write_keys<'b, K: KeyAs + 'b, L: Lends<'b, K>>(
    mut lent: L,
    count: usize,
    writer: &mut Writer,
    left: usize,
    place: usize,
) -> Result<(), Error>
    requires place { place ≤ length writer.old.places.below.items }
    requires all { length (L.rest lent) ≡ count }
    ensures { Outcome writer.old (map_tree (K.tree left) unit_tree) place
        (set_datum K.datum (L.rest lent))
        (deep_faults (map_tree (K.tree left) unit_tree) (set_datum K.datum (L.rest lent))) result
        writer.new }
{
    let places = begin_map(writer, count, place)?;
    while let Some(key) = lent.lend() {
        key.write(writer, left, places.keys)?;
    }
    Ok(())
}

impl<K: KeyAs> HasShape for BTreeSet<K> {
    ghost tree = { λ left. map_tree (K.tree left) unit_tree };

    ghost datum = { λ s. set_datum K.datum s.keys };

    ghost sound = { λ left. (K.sound left, tt) };
}

impl<K: KeyAs> SerializeAs for BTreeSet<K> {
    fn write(&self, writer: &mut Writer, left: usize, place: usize) -> Result<(), Error> {
        write_keys(self.iter(), self.len(), writer, left, place)
    }
}

impl<K: KeyAs + Hash> HasShape for HashSet<K> {
    ghost tree = { λ left. map_tree (K.tree left) unit_tree };

    ghost datum = { λ s. set_datum K.datum s.keys };

    ghost sound = { λ left. (K.sound left, tt) };
}

impl<K: KeyAs + Hash> SerializeAs for HashSet<K> {
    fn write(&self, writer: &mut Writer, left: usize, place: usize) -> Result<(), Error> {
        write_keys(self.iter(), self.len(), writer, left, place)
    }
}

// Reads the elements of a set, each a key with a unit.
fn read_keys<'a, K: KeyAs + DeserializeAs<'a>>(
    alloc: Global,
    reader: &mut Reader<'a>,
    budget: &mut Budget,
    left: usize,
    place: usize,
) -> Result<Vec<K>, Error>
    requires place { place ≤ length reader.old.places.below.items }
    requires steady { IsSteady reader.old }
    ensures continues { OnOk result (Continues reader.old reader.new) }
    ensures read { IfOk result
        (λ keys. ReadsPairsAs K.datum (λ u. unit) (K.tree left) unit_tree place reader.old
        budget.old (map with_unit keys.items) reader.new budget.new) }
    ensures refused { IfErr result
        (λ e. IsRefusalAt (map_tree (K.tree left) unit_tree) place reader.old e.reason) }
{
    let found = enter_map(reader, budget, place)?;
    let mut keys = Vec::new(alloc);
    for _i in 0..found.count {
        budget.take(1);
        let key: K = K::read(alloc, reader, budget, left, found.keys)?;
        budget.take(1);
        budget.keep(&mut keys, key)?;
    }
    Ok(keys)
}

/// A set of the keys.
pub fn ordered_set<K: KeyAs + Drop>(alloc: Global, keys: Vec<K>) -> Result<BTreeSet<K>, Error>
    ensures entries { IfOk result
        (λ s. AreEntriesOf (map (pair_datum K.datum (λ u. unit)) (map with_unit keys.items))
        (map (pair_datum K.datum (λ u. unit)) (map with_unit s.keys))) }
    ensures refused { IfErr result (λ e. e.reason ≡ Reason.OutOfMemory) }
{
    Ok(BTreeSet::from_iter(alloc, keys)?)
}

/// A set of the keys.
pub fn hashed_set<K: KeyAs + Hash + Drop>(alloc: Global, keys: Vec<K>) -> Result<HashSet<K>, Error>
    ensures entries { IfOk result
        (λ s. AreEntriesOf (map (pair_datum K.datum (λ u. unit)) (map with_unit keys.items))
        (map (pair_datum K.datum (λ u. unit)) (map with_unit s.keys))) }
    ensures refused { IfErr result (λ e. e.reason ≡ Reason.OutOfMemory) }
{
    Ok(HashSet::from_iter(alloc, keys)?)
}

impl<'a, K: KeyAs + DeserializeAs<'a>> DeserializeAs<'a> for BTreeSet<K> {
    fn is_free() -> bool {
        false
    }

    fn read(
        alloc: Global,
        reader: &mut Reader<'a>,
        budget: &mut Budget,
        left: usize,
        place: usize,
    ) -> Result<BTreeSet<K>, Error> {
        let keys: Vec<K> = read_keys(alloc, reader, budget, left, place)?;
        let made = ordered_set(alloc, keys)?;
        Ok(made)
    }
}

impl<'a, K: KeyAs + Hash + DeserializeAs<'a>> DeserializeAs<'a> for HashSet<K> {
    fn is_free() -> bool {
        false
    }

    fn read(
        alloc: Global,
        reader: &mut Reader<'a>,
        budget: &mut Budget,
        left: usize,
        place: usize,
    ) -> Result<HashSet<K>, Error> {
        let keys: Vec<K> = read_keys(alloc, reader, budget, left, place)?;
        let made = hashed_set(alloc, keys)?;
        Ok(made)
    }
}
