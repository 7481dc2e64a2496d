//! Writing a value along its walk.
#![tactic(auto)]

ghost use Rattle.std.specs.Prelude.{◌≡◌, ◌≢◌, ℕ, ◌≤◌, List, [], ◌∷◌, ◌++◌, length, map, slice_get, nat_lt};
ghost use Rattle.std.specs.Prelude.{if◌then◌else◌, IfOk, IfErr, OnOk};
ghost use Rattle.std.specs.List.{flat_map};
ghost use Rattle.bitcode_memory.specs.declared.error.Reason.TheVariants.{TooManyVariants};
ghost use Rattle.bitcode_shapes.specs.Datum.{choice, list, tuple, pair, data_of};
ghost use Rattle.bitcode_coder.specs.Spelling.{natural};
ghost use Rattle.bitcode_untyped.specs.Faults.{faults_of, faults_of_fields, faults_of_variant};
ghost use Rattle.bitcode_untyped.specs.ShapeTree.{ShapeTrees, natural_tree, seq_tree, map_tree, tuple_tree};
ghost use Rattle.bitcode_untyped.specs.ShapeTree.{choice_tree, greatest_index};
ghost use Rattle.bitcode_untyped.specs.View.{datum_of, tree_of_node, trees_of};
ghost use Rattle.bitcode_untyped.specs.Walk.{element};
ghost use Rattle.bitcode_serde.specs.ReadingValues.{HasColumn, field_at};
ghost use Rattle.bitcode_serde.specs.Serializing.{Outcome, IsLeaf, IsVariant};
ghost use Rattle.bitcode_serde.specs.Writing.{written, place_in, Grows};

use crate::column::{ColumnKind, column_kind};
use crate::step::Step;
use crate::write_char::char_entry;
use crate::write_column::Entry;
use crate::writer::Writer;
use bitcode_memory::error::{Error, Reason};
use bitcode_memory::refuse::err;
use bitcode_untyped::shape::ShapeNode;
use bitcode_untyped::value::Value;

/// Writes a value of a node at a place, below which so many references may be followed.
///
/// Errors: `enums with more than 256 variants are unsupported` only for an index over 255, `nested too deep` only for
/// one reference too many, `value is not of the shape` only for other faults, and `out of memory`.
#[cycle(write)]
#[inline(always)]
pub fn write(
    writer: &mut Writer,
    table: &[ShapeNode],
    node: &ShapeNode,
    value: &Value,
    left: usize,
    place: usize,
) -> Result<(), Error>
    requires { place ≤ length writer.old.places.below.items }
    ensures { Outcome writer.old (tree_of_node left table.now node.now) place (datum_of value.now)
        (faults_of table.now value.now left node.now) result writer.new }
{
    match column_kind(node) {
        Some(kind) => writer.put_one(place, kind, value),
        None => write_node(writer, table, node, value, left, place),
    }
}

// The same, for any node.
#[cycle(write)]
fn write_node(
    writer: &mut Writer,
    table: &[ShapeNode],
    node: &ShapeNode,
    value: &Value,
    left: usize,
    place: usize,
) -> Result<(), Error>
    requires { place ≤ length writer.old.places.below.items }
    ensures { Outcome writer.old (tree_of_node left table.now node.now) place (datum_of value.now)
        (faults_of table.now value.now left node.now) result writer.new }
{
    match node {
        ShapeNode::Unit => match value {
            Value::Unit => Ok(()),
            _ => err(Reason::NotOfTheShape),
        },
        ShapeNode::Bytes => match value {
            Value::Bytes(bytes) => write_bytes(writer, place, bytes),
            _ => err(Reason::NotOfTheShape),
        },
        ShapeNode::Option(some) => match value {
            Value::Option(inside) => match inside {
                None => writer.put(place, Entry::Byte(0)),
                Some(inside) => write_variant(writer, table, some, 1, inside, left, place),
            },
            _ => err(Reason::NotOfTheShape),
        },
        ShapeNode::Seq(element) => match value {
            Value::Seq(values) => write_seq(writer, table, element, values, left, place),
            _ => err(Reason::NotOfTheShape),
        },
        ShapeNode::Map(key, entry) => match value {
            Value::Map(pairs) => write_map(writer, table, key, entry, pairs, left, place),
            _ => err(Reason::NotOfTheShape),
        },
        ShapeNode::Tuple(nodes) => match value {
            Value::Tuple(values) => write_tuple(writer, table, nodes, values, left, place),
            _ => err(Reason::NotOfTheShape),
        },
        ShapeNode::Enum(nodes) => match value {
            Value::Enum(index, inside) => write_enum(
                writer, table, nodes, *index, inside, left, place,
            ),
            _ => err(Reason::NotOfTheShape),
        },
        ShapeNode::Ref(i) => write_reference(writer, table, *i, value, left, place),
        _ => write_leaf(writer, node, value, place),
    }
}

// Writes a value of a node whose values are entries of one column.
fn write_leaf(
    writer: &mut Writer,
    node: &ShapeNode,
    value: &Value,
    place: usize,
) -> Result<(), Error>
    requires place { place ≤ length writer.old.places.below.items }
    requires leaf { IsLeaf node.now }
    ensures { (table : List ShapeNode) (left : ℕ)
        → Outcome writer.old (tree_of_node left table node.now) place (datum_of value.now)
        (faults_of table value.now left node.now) result writer.new }
{
    match column_kind(node) {
        Some(kind) => writer.put_one(place, kind, value),
        None => writer.put(place, char_entry(value)?),
    }
}

/// Writes a list of bytes at a place: its length, and then its bytes, by one copy.
pub fn write_bytes(writer: &mut Writer, place: usize, bytes: &[u8]) -> Result<(), Error>
    requires { place ≤ length writer.old.places.below.items }
    ensures { Outcome writer.old (seq_tree (natural_tree 1)) place
        (list (data_of (map natural bytes.now))) [] result writer.new }
{
    writer.put(place, Entry::Length(bytes.len()))?;
    let element = writer.below(place, Step::Element)?;
    writer.put_bytes(element, bytes)
}

// Writes a value of entry i of the table, as one more reference that is followed.
#[cycle(write)]
fn write_reference(
    writer: &mut Writer,
    table: &[ShapeNode],
    i: usize,
    value: &Value,
    left: usize,
    place: usize,
) -> Result<(), Error>
    requires { place ≤ length writer.old.places.below.items }
    ensures { Outcome writer.old (tree_of_node left table.now (ShapeNode.Ref i)) place
        (datum_of value.now) (faults_of table.now value.now left (ShapeNode.Ref i)) result
        writer.new }
{
    if left == 0 {
        return err(Reason::NestedTooDeep);
    }
    match table.get(i) {
        Some(entry) => write(writer, table, entry, value, left - 1, place),
        None => err(Reason::NotOfTheShape),
    }
}

// Writes the index of a variant, and then what it holds, a value of a node.
#[cycle(write)]
fn write_variant(
    writer: &mut Writer,
    table: &[ShapeNode],
    node: &ShapeNode,
    index: u8,
    value: &Value,
    left: usize,
    place: usize,
) -> Result<(), Error>
    requires { place ≤ length writer.old.places.below.items }
    ensures { (trees : ShapeTrees) → IsVariant trees index (tree_of_node left table.now node.now)
        → Outcome writer.old (choice_tree trees) place (choice index (datum_of value.now))
        (faults_of table.now value.now left node.now) result writer.new }
{
    writer.put(place, Entry::Byte(index))?;
    let inside = writer.below(place, Step::Variant(index))?;
    write(writer, table, node, value, left, inside)
}

// Writes a variant of an enum that has a node for each.
#[cycle(write)]
fn write_enum(
    writer: &mut Writer,
    table: &[ShapeNode],
    nodes: &[ShapeNode],
    index: u32,
    value: &Value,
    left: usize,
    place: usize,
) -> Result<(), Error>
    requires { place ≤ length writer.old.places.below.items }
    ensures { Outcome writer.old
        (choice_tree (trees_of (map (tree_of_node left table.now) nodes.now))) place
        (choice index (datum_of value.now))
        (if nat_lt greatest_index index then TooManyVariants ∷ []
        else faults_of_variant (faults_of table.now value.now) left (slice_get nodes.now index))
        result writer.new }
{
    if index > 255 {
        return err(Reason::TooManyVariants);
    }
    match nodes.get(index as usize) {
        Some(node) => write_variant(writer, table, node, index as u8, value, left, place),
        None => err(Reason::NotOfTheShape),
    }
}

// Writes a list of values that are entries of one column: how many there are, and then all of them.
fn write_leaves(
    writer: &mut Writer,
    kind: ColumnKind,
    values: &[Value],
    place: usize,
) -> Result<(), Error>
    requires place { place ≤ length writer.old.places.below.items }
    requires values { kind ≢ ColumnKind.Lengths }
    ensures { (n : ShapeNode) → HasColumn n kind → (table : List ShapeNode) (left : ℕ)
        → Outcome writer.old (seq_tree (tree_of_node left table n)) place
        (list (data_of (map datum_of values.now)))
        (flat_map (λ value. faults_of table value left n) values.now) result writer.new }
{
    writer.put(place, Entry::Length(values.len()))?;
    let element = writer.below(place, Step::Element)?;
    writer.put_each(element, kind, values)
}

// Writes a list of values of a node: how many there are, and then each at the same place.
#[cycle(write)]
fn write_seq(
    writer: &mut Writer,
    table: &[ShapeNode],
    node: &ShapeNode,
    values: &[Value],
    left: usize,
    place: usize,
) -> Result<(), Error>
    requires { place ≤ length writer.old.places.below.items }
    ensures { Outcome writer.old (seq_tree (tree_of_node left table.now node.now)) place
        (list (data_of (map datum_of values.now)))
        (flat_map (λ value. faults_of table.now value left node.now) values.now) result writer.new }
{
    if let Some(kind) = column_kind(node) {
        return write_leaves(writer, kind, values, place);
    }
    writer.put(place, Entry::Length(values.len()))?;
    let element = writer.below(place, Step::Element)?;
    for value in values {
        write(writer, table, node, value, left, element)?;
    }
    Ok(())
}

// Writes a map of keys and values of two nodes: how many pairs there are, and then each key and its value.
#[cycle(write)]
fn write_map(
    writer: &mut Writer,
    table: &[ShapeNode],
    key: &ShapeNode,
    value: &ShapeNode,
    pairs: &[(Value, Value)],
    left: usize,
    place: usize,
) -> Result<(), Error>
    requires { place ≤ length writer.old.places.below.items }
    ensures { Outcome writer.old
        (map_tree (tree_of_node left table.now key.now) (tree_of_node left table.now value.now))
        place
        (list (data_of (map (λ e. pair (datum_of e.0) (datum_of e.1)) pairs.now)))
        (flat_map (λ e. faults_of table.now e.0 left key.now ++ faults_of table.now e.1 left
        value.now) pairs.now) result writer.new }
{
    writer.put(place, Entry::Length(pairs.len()))?;
    let keys = writer.below(place, Step::Key)?;
    let values = writer.below(place, Step::Value)?;
    for (first, second) in pairs {
        write(writer, table, key, first, left, keys)?;
        write(writer, table, value, second, left, values)?;
    }
    Ok(())
}

/// The place of the elements of a list.
///
/// If an allocation fails, the error is `out of memory`.
#[inline(always)]
pub fn element_below(writer: &mut Writer, place: usize) -> Result<usize, Error>
    requires { place ≤ length writer.old.places.below.items }
    ensures inside { IfOk result (λ n. n ≤ length writer.new.places.below.items) }
    ensures place { IfOk result (λ n. place_in writer.new n ≡ element ∷ place_in writer.old place) }
    ensures grows { OnOk result (Grows writer.old writer.new) }
    ensures written { OnOk result (written writer.new ≡ written writer.old) }
    ensures refused { IfErr result (λ e. e.reason ≡ Reason.OutOfMemory) }
{
    match writer.near(place, Step::Element, 0) {
        Some(inside) => Ok(inside),
        None => writer.below(place, Step::Element),
    }
}

/// The place of a field: a tuple of one has no place of its own.
///
/// If an allocation fails, the error is `out of memory`.
#[inline(always)]
pub fn field_below(
    writer: &mut Writer,
    place: usize,
    index: usize,
    fields: usize,
) -> Result<usize, Error>
    requires { place ≤ length writer.old.places.below.items }
    ensures inside { IfOk result (λ n. n ≤ length writer.new.places.below.items) }
    ensures place { IfOk result
        (λ n. place_in writer.new n ≡ field_at fields (place_in writer.old place) index) }
    ensures grows { OnOk result (Grows writer.old writer.new) }
    ensures written { OnOk result (written writer.new ≡ written writer.old) }
    ensures refused { IfErr result (λ e. e.reason ≡ Reason.OutOfMemory) }
{
    if fields == 1 {
        return Ok(place);
    }
    match writer.near(place, Step::Field(index), index) {
        Some(inside) => Ok(inside),
        None => writer.below(place, Step::Field(index)),
    }
}

// Writes a tuple: each value under its node.
#[cycle(write)]
fn write_tuple(
    writer: &mut Writer,
    table: &[ShapeNode],
    nodes: &[ShapeNode],
    values: &[Value],
    left: usize,
    place: usize,
) -> Result<(), Error>
    requires { place ≤ length writer.old.places.below.items }
    ensures { Outcome writer.old
        (tuple_tree (trees_of (map (tree_of_node left table.now) nodes.now))) place
        (tuple (data_of (map datum_of values.now)))
        (faults_of_fields (map (faults_of table.now) values.now) left nodes.now) result writer.new }
{
    if values.len() != nodes.len() {
        return err(Reason::NotOfTheShape);
    }
    for i in 0..nodes.len() {
        let inside = field_below(writer, place, i, nodes.len())?;
        write(writer, table, &nodes[i], &values[i], left, inside)?;
    }
    Ok(())
}
