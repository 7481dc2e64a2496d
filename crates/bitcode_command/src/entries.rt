//! Whether bytes are the columns of so many values.
ghost use Rattle.std.specs.Prelude.{◌≡◌, OnOk, IfOk, Option, None, replicate};
ghost use Rattle.bitcode_shapes.specs.Datum.{Datum};
ghost use Rattle.bitcode_shapes.specs.Shape.{seq_shape, unit_shape};
ghost use Rattle.bitcode_derive.specs.Whole.{SpellsDatum};
ghost use Rattle.bitcode_schema.specs.Forms.{shape_of, enum_shape};
ghost use Rattle.bitcode_command.specs.Columns.{SpellsMany, shape_of_kind};

use crate::column::ColumnKind;
use bitcode_memory::error::{Error, Reason};
use bitcode_memory::refuse::err;
use bitcode_schema::check::{check_value, check_value_strict};
use bitcode_schema::schema::{Schema, SchemaNode};
use std::alloc::Global;

/// Accepts the columns of so many values of the node. If `strict`, it accepts only those that are written.
pub fn check_values(
    alloc: Global,
    node: SchemaNode,
    count: usize,
    bytes: &[u8],
    strict: bool,
) -> Result<(), Error>
    ensures { OnOk result (SpellsMany (shape_of node) count bytes.now) }
{
    let element = Box::new(alloc, node)?;
    let schema = Schema::new(SchemaNode::Array(count, element))?;
    check_one(alloc, &schema, bytes, strict)
}

// Accepts the bytes of a value of the schema.
fn check_one(alloc: Global, schema: &Schema, bytes: &[u8], strict: bool) -> Result<(), Error>
    ensures { OnOk result ((d : Datum) × SpellsDatum (shape_of schema.now.root) bytes.now d) }
{
    if strict {
        check_value_strict(alloc, schema, bytes)
    } else {
        check_value(alloc, schema, bytes)
    }
}

/// Accepts a column of so many entries of the kind. It says nothing of whether texts are UTF-8.
pub fn check_entries(
    alloc: Global,
    kind: ColumnKind,
    count: usize,
    bytes: &[u8],
) -> Result<(), Error>
    ensures { OnOk result (SpellsMany (shape_of_kind kind) count bytes.now) }
{
    let node = match kind {
        ColumnKind::Bools => SchemaNode::Bool,
        ColumnKind::Chars => SchemaNode::Char,
        ColumnKind::Ints(kind) => SchemaNode::Int(kind),
        ColumnKind::F32 => SchemaNode::F32,
        ColumnKind::F64 => SchemaNode::F64,
        ColumnKind::Lengths => lists_of_units(alloc, None)?,
        ColumnKind::Variants(variants) => enum_of_units(alloc, variants)?,
        ColumnKind::TextBytes if bytes.len() == count => return Ok(()),
        ColumnKind::TextBytes => return err(Reason::Eof),
    };
    check_values(alloc, node, count, bytes, false)
}

/// The node of lists of units, of at most so many if there is a capacity, which have a column of lengths alone.
pub fn lists_of_units(alloc: Global, capacity: Option<usize>) -> Result<SchemaNode, Error>
    ensures { IfOk result (λ node. shape_of node ≡ seq_shape capacity unit_shape) }
{
    Ok(SchemaNode::List(capacity, Box::new(alloc, SchemaNode::Unit)?))
}

/// The node of an enum of so many units, which has a column of variants alone.
pub fn enum_of_units(alloc: Global, variants: usize) -> Result<SchemaNode, Error>
    ensures { IfOk result (λ node. shape_of node ≡ enum_shape (replicate variants unit_shape)) }
{
    let mut units = Vec::new(alloc);
    for _ in 0..variants {
        units.push((String::new(alloc), SchemaNode::Unit))?;
    }
    Ok(SchemaNode::Enum(units))
}
