//! Reading values that are entries of one column, and lists of bytes.
ghost use Rattle.std.specs.Prelude.{◌≡◌, ◌≤◌, length, map, IfOk, IfErr, OnOk};
ghost use Rattle.std.specs.List.{AllByRecursion};
ghost use Rattle.bitcode_coder.specs.Spelling.{natural};
ghost use Rattle.bitcode_shapes.specs.Shape.{any_number};
ghost use Rattle.bitcode_untyped.specs.Nodes.{node_count};
ghost use Rattle.bitcode_untyped.specs.ShapeTree.{leaf_tree, char_tree, natural_tree, seq_tree};
ghost use Rattle.bitcode_untyped.specs.View.{datum_of};
ghost use Rattle.bitcode_serde.specs.ReadColumns.{kind_of, IsCaseOf};
ghost use Rattle.bitcode_serde.specs.ReadingValues.{IsSteady, Continues, ReadsAt, ReadsWithin, ReadsListAt};
ghost use Rattle.bitcode_serde.specs.ReadingValues.{AddsRead, IsRefusalAt, IsListRefusalAt, IsOfLeaf, IsOfChar};
ghost use Rattle.bitcode_serde.specs.ReadingValues.{IsOfBytes, ReadsLeafAt, IsLeafRefusalAt};
ghost use Rattle.bitcode_serde.specs.Serializing.{IsLeaf};

use crate::budget::Budget;
use crate::column::{ColumnKind, column_kind};
use crate::reader::Reader;
use crate::step::Step;
use bitcode_memory::error::{Error, Reason};
use bitcode_memory::refuse::err;
use bitcode_untyped::shape::ShapeNode;
use bitcode_untyped::value::Value;

/// Reads a value from a column of this kind.
#[inline(always)]
pub fn read_leaf(reader: &mut Reader<'_>, place: usize, kind: ColumnKind) -> Result<Value, Error>
    requires place { place ≤ length reader.old.places.below.items }
    requires steady { IsSteady reader.old }
    ensures continues { OnOk result (Continues reader.old reader.new) }
    ensures read { IfOk result
        (λ value. ReadsAt (leaf_tree (kind_of kind) any_number) place reader.old (datum_of value)
        reader.new) }
    ensures of_case { IfOk result (λ value. IsCaseOf kind value) }
    ensures refused { IfErr result
        (λ e. IsRefusalAt (leaf_tree (kind_of kind) any_number) place reader.old e.reason) }
{
    let value = reader.take(place, kind)?;
    Ok(value)
}

/// Reads a value from a column of this kind, and puts it behind others.
#[inline(always)]
pub fn read_leaf_behind(
    reader: &mut Reader<'_>,
    place: usize,
    kind: ColumnKind,
    values: &mut Vec<Value>,
) -> Result<(), Error>
    requires place { place ≤ length reader.old.places.below.items }
    requires steady { IsSteady reader.old }
    ensures continues { OnOk result (Continues reader.old reader.new) }
    ensures read { OnOk result
        (AddsRead kind place reader.old reader.new values.old.items values.new.items) }
    ensures refused { IfErr result
        (λ e. IsRefusalAt (leaf_tree (kind_of kind) any_number) place reader.old e.reason) }
{
    reader.take_behind(place, kind, values)?;
    Ok(())
}

/// Reads `count` values from a column of this kind, all at once.
pub fn read_leaves(
    reader: &mut Reader<'_>,
    place: usize,
    kind: ColumnKind,
    count: usize,
) -> Result<Vec<Value>, Error>
    requires place { place ≤ length reader.old.places.below.items }
    requires steady { IsSteady reader.old }
    ensures continues { OnOk result (Continues reader.old reader.new) }
    ensures read { IfOk result
        (λ values. ReadsListAt (leaf_tree (kind_of kind) any_number) place reader.old count
        (map datum_of values.items) reader.new) }
    ensures of_case { IfOk result (λ values. AllByRecursion (IsCaseOf kind) values.items) }
    ensures size { IfOk result (λ values. length values.items ≡ count) }
    ensures refused { IfErr result
        (λ e. IsListRefusalAt (leaf_tree (kind_of kind) any_number) place reader.old count
        e.reason) }
{
    let values = reader.take_each(place, kind, count)?;
    Ok(values)
}

/// Reads a char. If its number is not the code of a char, the error is `invalid char`.
pub fn read_char(reader: &mut Reader<'_>, place: usize) -> Result<Value, Error>
    requires place { place ≤ length reader.old.places.below.items }
    requires steady { IsSteady reader.old }
    ensures continues { OnOk result (Continues reader.old reader.new) }
    ensures read { IfOk result
        (λ value. ReadsAt char_tree place reader.old (datum_of value) reader.new) }
    ensures whole { IfOk result (λ value. IsOfChar value) }
    ensures single { IfOk result (λ value. node_count (datum_of value) ≡ 1) }
    ensures refused { IfErr result (λ e. IsRefusalAt char_tree place reader.old e.reason) }
{
    let code = reader.take_code(place)?;
    match char::from_u32(code) {
        Some(c) => Ok(Value::Char(c)),
        None => err(Reason::InvalidChar),
    }
}

/// Reads the bytes of a list, so many of them.
pub fn read_elements_of_bytes(
    reader: &mut Reader<'_>,
    place: usize,
    count: usize,
) -> Result<Vec<u8>, Error>
    requires place { place ≤ length reader.old.places.below.items }
    requires steady { IsSteady reader.old }
    ensures continues { OnOk result (Continues reader.old reader.new) }
    ensures read { IfOk result
        (λ bytes. ReadsListAt (natural_tree 1) place reader.old count (map natural bytes.items)
        reader.new) }
    ensures size { IfOk result (λ bytes. length bytes.items ≡ count) }
    ensures refused { IfErr result
        (λ e. IsListRefusalAt (natural_tree 1) place reader.old count e.reason) }
{
    let bytes = reader.take_bytes(place, count)?;
    Ok(bytes)
}

/// Reads a list of bytes. Each byte is a node.
pub fn read_bytes(
    reader: &mut Reader<'_>,
    budget: &mut Budget,
    place: usize,
) -> Result<Value, Error>
    requires place { place ≤ length reader.old.places.below.items }
    requires steady { IsSteady reader.old }
    ensures continues { OnOk result (Continues reader.old reader.new) }
    ensures read { IfOk result
        (λ value. ReadsWithin (seq_tree (natural_tree 1)) place reader.old budget.old value
        reader.new budget.new) }
    ensures whole { IfOk result (λ value. IsOfBytes value) }
    ensures refused { IfErr result
        (λ e. IsRefusalAt (seq_tree (natural_tree 1)) place reader.old e.reason) }
{
    budget.take(1);
    let taken = reader.take_length(place)?;
    let elements = reader.step(place, Step::Element, taken.total)?;
    budget.take(taken.length);
    let bytes = read_elements_of_bytes(reader, elements, taken.length)?;
    Ok(Value::Bytes(bytes))
}

/// Reads a value of a node whose values are entries of one column.
pub fn read_entry(reader: &mut Reader<'_>, node: &ShapeNode, place: usize) -> Result<Value, Error>
    requires leaf { IsLeaf node.now }
    requires place { place ≤ length reader.old.places.below.items }
    requires steady { IsSteady reader.old }
    ensures continues { OnOk result (Continues reader.old reader.new) }
    ensures read { IfOk result
        (λ value. ReadsLeafAt node.now place reader.old (datum_of value) reader.new) }
    ensures whole { IfOk result (λ value. IsOfLeaf node.now value) }
    ensures single { IfOk result (λ value. node_count (datum_of value) ≡ 1) }
    ensures refused { IfErr result (λ e. IsLeafRefusalAt node.now place reader.old e.reason) }
{
    match column_kind(node) {
        Some(kind) => read_leaf(reader, place, kind),
        None => read_char(reader, place),
    }
}
