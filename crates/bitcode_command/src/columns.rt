//! The columns of an input, node by node.
ghost use Rattle.std.specs.Prelude.{◌≡◌, length, true, All, IfOk};
ghost use Rattle.bitcode_command.specs.Columns.{SpellsItsEntries};
ghost use Rattle.bitcode_command.specs.Placing.{stand_from};

use crate::column::{Column, ColumnKind};
use crate::entries::lists_of_units;
use crate::failure::Failure;
use crate::place::Step;
use crate::survey::{Counts, Survey};
use bitcode_memory::error::Reason;
use bitcode_schema::schema::{IntKind, Schema, SchemaNode};
use std::alloc::Global;

// The bytes of an id.
const ID_BYTES: usize = 16;

/// Tells where each column of the bytes is, and how it is packed. The bytes encode exactly one value of the schema.
///
/// The columns stand one behind another, in the order of the input, and fill it. The bytes of each spell its entries.
/// The failure is the first fault of the input, with the path and the offset of the column at fault. With `strict` it
/// is a fault, too, if a column has other bytes than those that are written for its entries.
pub fn columns(
    alloc: Global,
    schema: &Schema,
    bytes: &[u8],
    strict: bool,
) -> Result<Vec<Column>, Failure>
    ensures stand { IfOk result
        (λ columns. stand_from 0 columns.items (length bytes.now) ≡ true) }
    ensures spelled { IfOk result
        (λ columns. All (SpellsItsEntries bytes.now) columns.items) }
{
    let mut survey = Survey::new(alloc, bytes, strict);
    walk(&mut survey, schema.root(), 1)?;
    survey.finish()
}

// Takes the columns of so many values of a node.
#[cycle(walk)]
fn walk<'a>(to: &mut Survey<'a>, node: &'a SchemaNode, count: usize) -> Result<(), Failure>
    ensures { to.new.whole.now ≡ to.old.whole.now }
{
    match node {
        SchemaNode::List(capacity, element) => {
            let from = to.at();
            let sum = to.lengths(count)?;
            let lengths = to.since(from);
            to.enter(Step::Elements)?;
            walk(to, element, sum)?;
            to.leave();
            keep_within(to, lengths, from, count, *capacity)
        }
        SchemaNode::Map(key, value) => {
            let sum = to.lengths(count)?;
            to.enter(Step::Keys)?;
            walk(to, key, sum)?;
            to.leave();
            to.enter(Step::Values)?;
            walk(to, value, sum)?;
            to.leave();
            Ok(())
        }
        SchemaNode::Array(size, element) => {
            let Some(sum) = count.checked_mul(*size) else {
                return Err(to.fault(to.at(), Reason::LengthOverflow));
            };
            to.enter(Step::Elements)?;
            walk(to, element, sum)?;
            to.leave();
            Ok(())
        }
        SchemaNode::Tuple(nodes) => walk_fields(to, nodes, count),
        SchemaNode::Struct(named) => walk_named(to, named, count),
        SchemaNode::Option(some) => {
            let counts = to.variants(count, 2)?;
            to.enter(Step::Field("Some"))?;
            walk(to, some, counts[1])?;
            to.leave();
            Ok(())
        }
        SchemaNode::Result(ok, err) => {
            let counts = to.variants(count, 2)?;
            to.enter(Step::Field("Ok"))?;
            walk(to, ok, counts[0])?;
            to.leave();
            to.enter(Step::Field("Err"))?;
            walk(to, err, counts[1])?;
            to.leave();
            Ok(())
        }
        SchemaNode::Enum(variants) => {
            let counts = variants_of(to, variants.len(), count)?;
            walk_payloads(to, variants, &counts)
        }
        leaf => take_leaf(to, leaf, count),
    }
}

// Refuses lists of which one is longer than the capacity, by the column of their lengths at this place.
fn keep_within(
    to: &Survey<'_>,
    lengths: &[u8],
    at: usize,
    count: usize,
    capacity: Option<usize>,
) -> Result<(), Failure> {
    if capacity.is_none() {
        return Ok(());
    }
    let units = lists_of_units(to.alloc(), capacity)?;
    to.verify(lengths, at, units, count)
}

// Takes the column of variants of so many enums, and counts each. Without variants there is no enum, and for one
// variant there is no column.
fn variants_of(to: &mut Survey<'_>, variants: usize, count: usize) -> Result<Counts, Failure>
    ensures { to.new.whole.now ≡ to.old.whole.now }
{
    match variants {
        0 if count > 0 => Err(to.fault(to.at(), Reason::InvalidEnumVariant)),
        0 | 1 => Ok([count; 256]),
        _ => to.variants(count, variants),
    }
}

// Takes the columns of the fields of so many tuples.
#[cycle(walk)]
fn walk_fields<'a>(
    to: &mut Survey<'a>,
    nodes: &'a [SchemaNode],
    count: usize,
) -> Result<(), Failure>
    ensures { to.new.whole.now ≡ to.old.whole.now }
{
    for index in 0..nodes.len() {
        to.enter(Step::Index(index))?;
        walk(to, &nodes[index], count)?;
        to.leave();
    }
    Ok(())
}

// Takes the columns of the fields of so many structs.
#[cycle(walk)]
fn walk_named<'a>(
    to: &mut Survey<'a>,
    named: &'a [(String, SchemaNode)],
    count: usize,
) -> Result<(), Failure>
    ensures { to.new.whole.now ≡ to.old.whole.now }
{
    for field in named {
        to.enter(Step::Field(&field.0))?;
        walk(to, &field.1, count)?;
        to.leave();
    }
    Ok(())
}

// Takes the columns of the payloads of variants, so many of each.
#[cycle(walk)]
fn walk_payloads<'a>(
    to: &mut Survey<'a>,
    variants: &'a [(String, SchemaNode)],
    counts: &Counts,
) -> Result<(), Failure>
    ensures { to.new.whole.now ≡ to.old.whole.now }
{
    for (variant, count) in variants.iter().zip(counts) {
        to.enter(Step::Field(&variant.0))?;
        walk(to, &variant.1, *count)?;
        to.leave();
    }
    Ok(())
}

// Takes the columns of so many values of a node without nodes in it.
fn take_leaf(to: &mut Survey<'_>, node: &SchemaNode, count: usize) -> Result<(), Failure>
    ensures { to.new.whole.now ≡ to.old.whole.now }
{
    let from = to.at();
    match node {
        SchemaNode::Bool => to.column(ColumnKind::Bools, count)?,
        SchemaNode::Char => to.column(ColumnKind::Chars, count)?,
        SchemaNode::Int(kind) => to.column(ColumnKind::Ints(*kind), count)?,
        SchemaNode::NonZero(kind) => to.column(ColumnKind::Ints(*kind), count)?,
        SchemaNode::F32 => to.column(ColumnKind::F32, count)?,
        SchemaNode::F64 => to.column(ColumnKind::F64, count)?,
        SchemaNode::Str(capacity) => return take_texts(to, *capacity, count),
        SchemaNode::Duration => return take_durations(to, count),
        SchemaNode::Uuid => {
            let bytes = count.saturating_mul(ID_BYTES);
            to.column(ColumnKind::Ints(IntKind::U8), bytes)?
        }
        _ => (),
    }
    to.verify(to.since(from), from, leaf_of(node), count)
}

// Takes the columns of so many texts: their lengths, and their bytes.
fn take_texts(to: &mut Survey<'_>, capacity: Option<usize>, count: usize) -> Result<(), Failure>
    ensures { to.new.whole.now ≡ to.old.whole.now }
{
    let from = to.at();
    let bytes = to.lengths(count)?;
    let behind = to.at();
    to.column(ColumnKind::TextBytes, bytes)?;
    to.verify(to.since(from), behind, SchemaNode::Str(None), count)?;
    if capacity.is_none() {
        return Ok(());
    }
    to.verify(to.since(from), from, SchemaNode::Str(capacity), count)
}

// Takes the columns of so many durations: the seconds and the nanoseconds.
fn take_durations(to: &mut Survey<'_>, count: usize) -> Result<(), Failure>
    ensures { to.new.whole.now ≡ to.old.whole.now }
{
    let from = to.at();
    to.enter(Step::Field("secs"))?;
    to.column(ColumnKind::Ints(IntKind::U64), count)?;
    to.verify(to.since(from), from, SchemaNode::Int(IntKind::U64), count)?;
    to.leave();
    let behind = to.at();
    to.enter(Step::Field("nanos"))?;
    to.column(ColumnKind::Ints(IntKind::U32), count)?;
    to.verify(to.since(from), behind, SchemaNode::Duration, count)?;
    to.leave();
    Ok(())
}

// The node again, of one that has no node in it.
fn leaf_of(node: &SchemaNode) -> SchemaNode {
    match node {
        SchemaNode::Never => SchemaNode::Never,
        SchemaNode::Bool => SchemaNode::Bool,
        SchemaNode::Char => SchemaNode::Char,
        SchemaNode::Int(kind) => SchemaNode::Int(*kind),
        SchemaNode::NonZero(kind) => SchemaNode::NonZero(*kind),
        SchemaNode::F32 => SchemaNode::F32,
        SchemaNode::F64 => SchemaNode::F64,
        SchemaNode::Uuid => SchemaNode::Uuid,
        _ => SchemaNode::Unit,
    }
}
