//! Reading values under a shape.
ghost use Rattle.std.specs.Prelude.{◌≡◌, ◌<◌, ◌≤◌, ◌+◌, [], length, map, IfOk, IfErr, OnOk};
ghost use Rattle.std.specs.List.{flat_map};
ghost use Rattle.bitcode_untyped.specs.Faults.{faults_of};
ghost use Rattle.bitcode_untyped.specs.ShapeTree.{option_tree, seq_tree, map_tree, tuple_tree, choice_tree};
ghost use Rattle.bitcode_untyped.specs.View.{tree_of_node, trees_of};
ghost use Rattle.bitcode_serde.specs.Budget.{IsLeft};
ghost use Rattle.bitcode_serde.specs.ReadingValues.{IsSteady, Continues, ReadsWithin, ReadsListWithin, AddsWithin};
ghost use Rattle.bitcode_serde.specs.ReadingValues.{IsRefusalAt, IsListRefusalAt, IsOfOption, IsOfSeq, IsOfMap};
ghost use Rattle.bitcode_serde.specs.ReadingValues.{AddsFieldWithin, IsFieldRefusalAt, IsOfTuple, IsOfEnum};
ghost use Rattle.bitcode_serde.specs.Free.{AreFreeBetween};

use crate::budget::Budget;
use crate::column::column_kind;
use crate::free::{is_free, is_over_limit, lacks_columns, skip_free};
use crate::read_leaf::{read_bytes, read_entry, read_leaf, read_leaf_behind, read_leaves};
use crate::reader::Reader;
use crate::step::Step;
use bitcode_memory::error::{Error, Reason};
use bitcode_memory::refuse::err;
use bitcode_untyped::shape::ShapeNode;
use bitcode_untyped::value::Value;
use std::alloc::Global;

/// Reads a value of a node at a place, below which so many references may be followed.
///
/// It takes the nodes of the value from the budget. Once the budget is spent, it reads the rest only for faults, and
/// the value must not be used.
#[cycle(read)]
#[inline(always)]
pub fn read(
    alloc: Global,
    reader: &mut Reader<'_>,
    budget: &mut Budget,
    table: &[ShapeNode],
    node: &ShapeNode,
    left: usize,
    place: usize,
) -> Result<Value, Error>
    requires place { place ≤ length reader.old.places.below.items }
    requires steady { IsSteady reader.old }
    ensures continues { OnOk result (Continues reader.old reader.new) }
    ensures read { IfOk result
        (λ value. ReadsWithin (tree_of_node left table.now node.now) place reader.old budget.old
        value reader.new budget.new) }
    ensures whole { IfOk result
        (λ value. IsLeft budget.new → faults_of table.now value left node.now ≡ []) }
    ensures refused { IfErr result
        (λ e. IsRefusalAt (tree_of_node left table.now node.now) place reader.old e.reason) }
{
    match column_kind(node) {
        Some(kind) => {
            budget.take(1);
            read_leaf(reader, place, kind)
        }
        None => read_node(alloc, reader, budget, table, node, left, place),
    }
}

// Reads a value as `read` does, and puts it behind others, unless the budget is spent.
#[cycle(read)]
#[inline(always)]
fn read_behind(
    alloc: Global,
    reader: &mut Reader<'_>,
    budget: &mut Budget,
    table: &[ShapeNode],
    node: &ShapeNode,
    left: usize,
    place: usize,
    values: &mut Vec<Value>,
) -> Result<(), Error>
    requires place { place ≤ length reader.old.places.below.items }
    requires steady { IsSteady reader.old }
    ensures continues { OnOk result (Continues reader.old reader.new) }
    ensures read { OnOk result
        (AddsWithin (tree_of_node left table.now node.now)
        (λ value. faults_of table.now value left node.now ≡ []) place
        reader.old budget.old values.old.items reader.new budget.new values.new.items) }
    ensures refused { IfErr result
        (λ e. IsRefusalAt (tree_of_node left table.now node.now) place reader.old e.reason) }
{
    if let Some(kind) = column_kind(node) {
        if budget.has(1) {
            budget.take(1);
            return read_leaf_behind(reader, place, kind, values);
        }
    }
    let value = read(alloc, reader, budget, table, node, left, place)?;
    budget.keep(values, value)?;
    Ok(())
}

// Reads a value as `read` does, of any node.
#[cycle(read)]
fn read_node(
    alloc: Global,
    reader: &mut Reader<'_>,
    budget: &mut Budget,
    table: &[ShapeNode],
    node: &ShapeNode,
    left: usize,
    place: usize,
) -> Result<Value, Error>
    requires place { place ≤ length reader.old.places.below.items }
    requires steady { IsSteady reader.old }
    ensures continues { OnOk result (Continues reader.old reader.new) }
    ensures read { IfOk result
        (λ value. ReadsWithin (tree_of_node left table.now node.now) place reader.old budget.old
        value reader.new budget.new) }
    ensures whole { IfOk result
        (λ value. IsLeft budget.new → faults_of table.now value left node.now ≡ []) }
    ensures refused { IfErr result
        (λ e. IsRefusalAt (tree_of_node left table.now node.now) place reader.old e.reason) }
{
    match node {
        ShapeNode::Unit => {
            budget.take(1);
            Ok(Value::Unit)
        }
        ShapeNode::Bytes => read_bytes(reader, budget, place),
        ShapeNode::Option(some) => read_option(alloc, reader, budget, table, some, left, place),
        ShapeNode::Seq(element) => read_seq(alloc, reader, budget, table, element, left, place),
        ShapeNode::Map(key, value) => read_map(
            alloc, reader, budget, table, key, value, left, place,
        ),
        ShapeNode::Tuple(nodes) => read_tuple(alloc, reader, budget, table, nodes, left, place),
        ShapeNode::Enum(nodes) => read_enum(alloc, reader, budget, table, nodes, left, place),
        ShapeNode::Ref(i) => {
            if left == 0 {
                return err(Reason::NestedTooDeep);
            }
            match table.get(*i) {
                Some(entry) => read(alloc, reader, budget, table, entry, left - 1, place),
                None => err(Reason::NestedTooDeep),
            }
        }
        _ => {
            budget.take(1);
            read_entry(reader, node, place)
        }
    }
}

// Reads an option of a node.
#[cycle(read)]
fn read_option(
    alloc: Global,
    reader: &mut Reader<'_>,
    budget: &mut Budget,
    table: &[ShapeNode],
    node: &ShapeNode,
    left: usize,
    place: usize,
) -> Result<Value, Error>
    requires place { place ≤ length reader.old.places.below.items }
    requires steady { IsSteady reader.old }
    ensures continues { OnOk result (Continues reader.old reader.new) }
    ensures read { IfOk result
        (λ value. ReadsWithin (option_tree (tree_of_node left table.now node.now)) place reader.old
        budget.old value reader.new budget.new) }
    ensures whole { IfOk result
        (λ value. IsLeft budget.new → IsOfOption table.now left node.now value) }
    ensures refused { IfErr result
        (λ e. IsRefusalAt (option_tree (tree_of_node left table.now node.now)) place reader.old
        e.reason) }
{
    budget.take(1);
    let taken = reader.take_index(place)?;
    if taken.index == 0 {
        budget.take(1);
        return Ok(Value::Option(None));
    }
    if taken.index > 1 {
        return err(Reason::InvalidOption);
    }
    let inside = reader.step(place, Step::Variant(taken.index), taken.count)?;
    let value = read(alloc, reader, budget, table, node, left, inside)?;
    Ok(Value::Option(Some(Box::new(alloc, value)?)))
}

// Reads a list of a node.
#[cycle(read)]
fn read_seq(
    alloc: Global,
    reader: &mut Reader<'_>,
    budget: &mut Budget,
    table: &[ShapeNode],
    node: &ShapeNode,
    left: usize,
    place: usize,
) -> Result<Value, Error>
    requires place { place ≤ length reader.old.places.below.items }
    requires steady { IsSteady reader.old }
    ensures continues { OnOk result (Continues reader.old reader.new) }
    ensures read { IfOk result
        (λ value. ReadsWithin (seq_tree (tree_of_node left table.now node.now)) place reader.old
        budget.old value reader.new budget.new) }
    ensures whole { IfOk result
        (λ value. IsLeft budget.new → IsOfSeq table.now left node.now value) }
    ensures refused { IfErr result
        (λ e. IsRefusalAt (seq_tree (tree_of_node left table.now node.now)) place reader.old
        e.reason) }
{
    budget.take(1);
    let taken = reader.take_length(place)?;
    if is_over_limit(table, node, left, taken.length) {
        return err(Reason::TooManyZeroSizedTypes);
    }
    let elements = reader.step(place, Step::Element, taken.total)?;
    let values = read_elements(
        alloc,
        reader,
        budget,
        table,
        node,
        left,
        elements,
        taken.length,
    )?;
    Ok(Value::Seq(values))
}

// Reads so many elements of a list.
#[cycle(read)]
fn read_elements(
    alloc: Global,
    reader: &mut Reader<'_>,
    budget: &mut Budget,
    table: &[ShapeNode],
    node: &ShapeNode,
    left: usize,
    place: usize,
    count: usize,
) -> Result<Vec<Value>, Error>
    requires place { place ≤ length reader.old.places.below.items }
    requires steady { IsSteady reader.old }
    ensures continues { OnOk result (Continues reader.old reader.new) }
    ensures read { IfOk result
        (λ values. ReadsListWithin (tree_of_node left table.now node.now) place reader.old
        budget.old count values.items reader.new budget.new) }
    ensures whole { IfOk result
        (λ values. IsLeft budget.new → flat_map (λ value. faults_of table.now value left node.now)
        values.items ≡ []) }
    ensures refused { IfErr result
        (λ e. IsListRefusalAt (tree_of_node left table.now node.now) place reader.old count
        e.reason) }
{
    if let Some(kind) = column_kind(node) {
        if budget.has(count) {
            budget.take(count);
            return read_leaves(reader, place, kind, count);
        }
    }
    let mut values = Vec::new(alloc);
    for _i in 0..count {
        if budget.is_spent() && is_free(table, node, left) {
            return Ok(values);
        }
        let value = read(alloc, reader, budget, table, node, left, place)?;
        budget.keep(&mut values, value)?;
    }
    Ok(values)
}

// Reads a tuple of nodes.
#[cycle(read)]
fn read_tuple(
    alloc: Global,
    reader: &mut Reader<'_>,
    budget: &mut Budget,
    table: &[ShapeNode],
    nodes: &[ShapeNode],
    left: usize,
    place: usize,
) -> Result<Value, Error>
    requires place { place ≤ length reader.old.places.below.items }
    requires steady { IsSteady reader.old }
    ensures continues { OnOk result (Continues reader.old reader.new) }
    ensures read { IfOk result
        (λ value. ReadsWithin (tuple_tree (trees_of (map (tree_of_node left table.now) nodes.now)))
        place reader.old budget.old value reader.new budget.new) }
    ensures whole { IfOk result
        (λ value. IsLeft budget.new → IsOfTuple table.now left nodes.now value) }
    ensures refused { IfErr result
        (λ e. IsRefusalAt (tuple_tree (trees_of (map (tree_of_node left table.now) nodes.now)))
        place reader.old e.reason) }
{
    budget.take(1);
    let mut values = budget.room(alloc, nodes.len())?;
    let mut met = 0;
    let mut i = next_field(budget, table, nodes, left, 0);
    while i < nodes.len() {
        met = read_field(
            alloc,
            reader,
            budget,
            table,
            &nodes[i],
            left,
            place,
            i,
            nodes.len(),
            met,
            &mut values,
        )?;
        i = next_field(budget, table, nodes, left, i + 1);
    }
    Ok(Value::Tuple(values))
}

// The field to read from a field on: this one, or once the budget is spent, the next one that has columns.
#[inline(always)]
fn next_field(
    budget: &Budget,
    table: &[ShapeNode],
    nodes: &[ShapeNode],
    left: usize,
    from: usize,
) -> usize
    requires { from ≤ length nodes.now }
    ensures inside { (from ≤ result) × (result ≤ length nodes.now) }
    ensures kept { IsLeft budget.now → result ≡ from }
    ensures free { AreFreeBetween (tree_of_node left table.now) nodes.now from result }
{
    if budget.is_spent() {
        return skip_free(table, nodes, left, from);
    }
    from
}

// Reads field `i` of a tuple with `fields` fields at a place, and puts it behind others, unless the budget is spent. So
// many fields before it have columns. The result is their number with this field.
//
// A field without columns takes no place.
#[cycle(read)]
#[inline(always)]
fn read_field(
    alloc: Global,
    reader: &mut Reader<'_>,
    budget: &mut Budget,
    table: &[ShapeNode],
    node: &ShapeNode,
    left: usize,
    place: usize,
    i: usize,
    fields: usize,
    met: usize,
    values: &mut Vec<Value>,
) -> Result<usize, Error>
    requires inside { i < fields }
    requires met { met ≤ i }
    requires place { place ≤ length reader.old.places.below.items }
    requires steady { IsSteady reader.old }
    ensures continues { OnOk result (Continues reader.old reader.new) }
    ensures read { OnOk result
        (AddsFieldWithin (tree_of_node left table.now node.now)
        (λ value. faults_of table.now value left node.now ≡ []) place i fields
        reader.old budget.old values.old.items reader.new budget.new values.new.items) }
    ensures met { IfOk result (λ so_many. so_many ≤ i + 1) }
    ensures refused { IfErr result
        (λ e. IsFieldRefusalAt (tree_of_node left table.now node.now) place i fields reader.old
        e.reason) }
{
    if column_kind(node).is_none() && lacks_columns(table, node, left) {
        if budget.is_spent() {
            return Ok(met);
        }
        let value = read_node(alloc, reader, budget, table, node, left, place)?;
        budget.keep(values, value)?;
        return Ok(met);
    }
    let inside = reader.field(place, i, fields, met)?;
    read_behind(alloc, reader, budget, table, node, left, inside, values)?;
    Ok(met + 1)
}

// Reads an enum with a node for each variant.
#[cycle(read)]
fn read_enum(
    alloc: Global,
    reader: &mut Reader<'_>,
    budget: &mut Budget,
    table: &[ShapeNode],
    nodes: &[ShapeNode],
    left: usize,
    place: usize,
) -> Result<Value, Error>
    requires place { place ≤ length reader.old.places.below.items }
    requires steady { IsSteady reader.old }
    ensures continues { OnOk result (Continues reader.old reader.new) }
    ensures read { IfOk result
        (λ value. ReadsWithin (choice_tree (trees_of (map (tree_of_node left table.now) nodes.now)))
        place reader.old budget.old value reader.new budget.new) }
    ensures whole { IfOk result
        (λ value. IsLeft budget.new → IsOfEnum table.now left nodes.now value) }
    ensures refused { IfErr result
        (λ e. IsRefusalAt (choice_tree (trees_of (map (tree_of_node left table.now) nodes.now)))
        place reader.old e.reason) }
{
    budget.take(1);
    let taken = reader.take_index(place)?;
    match nodes.get(taken.index as usize) {
        Some(node) => {
            let inside = reader.step(place, Step::Variant(taken.index), taken.count)?;
            let value = read(alloc, reader, budget, table, node, left, inside)?;
            Ok(Value::Enum(taken.index as u32, Box::new(alloc, value)?))
        }
        None => err(Reason::InvalidEnumVariant),
    }
}

// Reads a map of keys and values.
#[cycle(read)]
fn read_map(
    alloc: Global,
    reader: &mut Reader<'_>,
    budget: &mut Budget,
    table: &[ShapeNode],
    key: &ShapeNode,
    value: &ShapeNode,
    left: usize,
    place: usize,
) -> Result<Value, Error>
    requires place { place ≤ length reader.old.places.below.items }
    requires steady { IsSteady reader.old }
    ensures continues { OnOk result (Continues reader.old reader.new) }
    ensures read { IfOk result
        (λ made. ReadsWithin
        (map_tree (tree_of_node left table.now key.now) (tree_of_node left table.now value.now))
        place reader.old budget.old made reader.new budget.new) }
    ensures whole { IfOk result
        (λ made. IsLeft budget.new → IsOfMap table.now left key.now value.now made) }
    ensures refused { IfErr result
        (λ e. IsRefusalAt
        (map_tree (tree_of_node left table.now key.now) (tree_of_node left table.now value.now))
        place reader.old e.reason) }
{
    budget.take(1);
    let taken = reader.take_length(place)?;
    if is_over_limit(table, key, left, taken.length) {
        return err(Reason::TooManyZeroSizedTypes);
    }
    let keys = reader.step(place, Step::Key, taken.total)?;
    let values = reader.step(place, Step::Value, taken.total)?;
    let mut pairs = Vec::new(alloc);
    for _i in 0..taken.length {
        if budget.is_spent() && is_free(table, key, left) && is_free(table, value, left) {
            return Ok(Value::Map(pairs));
        }
        budget.take(1);
        let first = read(alloc, reader, budget, table, key, left, keys)?;
        let second = read(alloc, reader, budget, table, value, left, values)?;
        budget.keep(&mut pairs, (first, second))?;
    }
    Ok(Value::Map(pairs))
}
