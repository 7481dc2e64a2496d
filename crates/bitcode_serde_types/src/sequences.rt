//! Lists.
#![tactic(auto)]

ghost use Rattle.std.specs.Prelude.{◌≡◌, ◌≤◌, length, map, IfOk, IfErr, OnOk};
ghost use Rattle.bitcode_shapes.specs.Datum.{list, data_of};
ghost use Rattle.bitcode_untyped.specs.ShapeTree.{seq_tree};
ghost use Rattle.bitcode_serde.specs.Budget.{IsLeft};
ghost use Rattle.bitcode_serde.specs.ReadingValues.{IsSteady, Continues};
ghost use Rattle.bitcode_serde_types.specs.Limited.{limited_tree};
ghost use Rattle.bitcode_serde_types.specs.Lists.{list_datum};
ghost use Rattle.bitcode_serde_types.specs.ReadingAs.{ReadsAs, ReadsEachAs};
ghost use Rattle.bitcode_serde_types.specs.Refusals.{IsListRefusalAt, IsReasonOf, IsRefusalAt};

use crate::deserialize_as::DeserializeAs;
use crate::entering::{Elements, enter_list};
use crate::has_shape::HasShape;
use crate::serialize_as::SerializeAs;
use bitcode_memory::error::{Error, Reason};
use bitcode_memory::refuse::err;
use bitcode_serde::budget::Budget;
use bitcode_serde::reader::Reader;
use bitcode_serde::walk::element_below;
use bitcode_serde::write_column::Entry;
use bitcode_serde::writer::Writer;
use std::alloc::Global;

impl<T: HasShape> HasShape for Vec<T> {
    ghost tree = { λ left. seq_tree (T.tree left) };

    ghost datum = { λ v. list (data_of (map T.datum v.items)) };

    ghost sound = { T.sound };
}

impl<T: SerializeAs> SerializeAs for Vec<T> {
    fn write(&self, writer: &mut Writer, left: usize, place: usize) -> Result<(), Error> {
        let values = self.as_slice();
        writer.put(place, Entry::Length(values.len()))?;
        let element = element_below(writer, place)?;
        for value in values {
            value.write(writer, left, element)?;
        }
        Ok(())
    }
}

// Without a limit, a list has room for so many elements at first: the input may lack the others.
const FIRST_ROOM: usize = 256;

// Reads the elements of a list.
fn read_elements<'a, T: DeserializeAs<'a>>(
    alloc: Global,
    reader: &mut Reader<'a>,
    budget: &mut Budget,
    left: usize,
    list: Elements,
) -> Result<Vec<T>, Error>
    requires place { list.place ≤ length reader.old.places.below.items }
    requires steady { IsSteady reader.old }
    ensures continues { OnOk result (Continues reader.old reader.new) }
    ensures read { IfOk result
        (λ v. ReadsEachAs T.datum (T.tree left) list.place reader.old budget.old list.count v.items
        reader.new budget.new) }
    ensures all { IfOk result (λ v. IsLeft budget.new → length v.items ≡ list.count) }
    ensures refused { IfErr result
        (λ e. IsListRefusalAt (T.tree left) list.place reader.old list.count e.reason) }
{
    let mut values: Vec<T> = budget.room(alloc, list.count.min(FIRST_ROOM))?;
    for _i in 0..list.count {
        if budget.is_spent() && T::is_free() {
            return Ok(values);
        }
        let value: T = T::read(alloc, reader, budget, left, list.place)?;
        budget.keep(&mut values, value)?;
    }
    Ok(values)
}

impl<'a, T: DeserializeAs<'a>> DeserializeAs<'a> for Vec<T> {
    fn is_free() -> bool {
        false
    }

    fn read(
        alloc: Global,
        reader: &mut Reader<'a>,
        budget: &mut Budget,
        left: usize,
        place: usize,
    ) -> Result<Vec<T>, Error> {
        let list = enter_list(reader, budget, T::is_free(), place)?;
        let values: Vec<T> = read_elements(alloc, reader, budget, left, list)?;
        Ok(values)
    }
}

/// How many elements a list may have, and for which reason another is rejected.
#[derive(Drop)]
pub(crate) struct Limits {
    pub least: usize,
    pub most: usize,
    pub otherwise: Reason,
}

/// Reads the elements of a list of limited length.
pub(crate) fn read_limited<'a, T: DeserializeAs<'a>>(
    alloc: Global,
    reader: &mut Reader<'a>,
    budget: &mut Budget,
    left: usize,
    place: usize,
    limits: Limits,
) -> Result<Vec<T>, Error>
    requires place { place ≤ length reader.old.places.below.items }
    requires steady { IsSteady reader.old }
    requires known { IsReasonOf
        (limited_tree limits.least limits.most limits.otherwise (T.tree left)) limits.otherwise }
    ensures continues { OnOk result (Continues reader.old reader.new) }
    ensures all { IfOk result
        (λ v. IsLeft budget.new
        → (limits.least ≤ length v.items) × (length v.items ≤ limits.most)) }
    ensures read { IfOk result
        (λ v. ReadsAs (λ v. list_datum T.datum v.items)
        (limited_tree limits.least limits.most limits.otherwise (T.tree left)) place reader.old
        budget.old v reader.new budget.new) }
    ensures refused { IfErr result
        (λ e. IsRefusalAt
        (limited_tree limits.least limits.most limits.otherwise (T.tree left)) place reader.old
        e.reason) }
{
    let list = enter_list(reader, budget, T::is_free(), place)?;
    if list.count < limits.least || list.count > limits.most {
        return err(limits.otherwise);
    }
    let values: Vec<T> = read_elements(alloc, reader, budget, left, list)?;
    Ok(values)
}
