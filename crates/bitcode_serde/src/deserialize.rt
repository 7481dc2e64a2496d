//! Decoding the second format.
ghost use Rattle.std.specs.Prelude.{◌≡◌, ◌≢◌, ◌≤◌, ◌*◌, ◌↔◌, [], length, IsTrue, IfOk, IfErr};
ghost use Rattle.bitcode_shapes.specs.Datum.{Datum};
ghost use Rattle.bitcode_untyped.specs.Bounds.{element_count};
ghost use Rattle.bitcode_untyped.specs.Content.{content_of, IsOnlyContent};
ghost use Rattle.bitcode_untyped.specs.Faults.{value_faults};
ghost use Rattle.bitcode_untyped.specs.Nodes.{node_count};
ghost use Rattle.bitcode_untyped.specs.PlacedColumns.{columns_of, entry_count};
ghost use Rattle.bitcode_untyped.specs.Spelling.{SpellsDatum};
ghost use Rattle.bitcode_untyped.specs.Strict.{StrictlySpellsDatum};
ghost use Rattle.bitcode_untyped.specs.View.{datum_of, tree_of};
ghost use Rattle.bitcode_serde.specs.Budget.{Keeps, IsLeft};
ghost use Rattle.bitcode_serde.specs.ReadingValues.{IsValueReason, IsRefusalWithin};
ghost use Rattle.bitcode_serde.specs.Strict.{IsStrictRefusal};

use crate::budget::Budget;
use crate::reader::Reader;
use crate::values::read;
use bitcode_memory::error::{Error, Reason};
use bitcode_memory::refuse::err;
use bitcode_untyped::shape::Shape;
use bitcode_untyped::value::Value;
use std::alloc::Global;

/// The maximal number of references on one path.
pub const REF_LIMIT: usize = 512;

// Reads a value of a shape from the whole input, as far as a budget of nodes keeps it. Where `strict`, the answer is
// whether each column stands in the bytes that are written for its entries; else it says nothing.
fn read_whole(
    alloc: Global,
    shape: &Shape,
    bytes: &[u8],
    budget: &mut Budget,
    strict: bool,
) -> Result<(Value, bool), Error>
    ensures read { IfOk result
        (λ read. Keeps datum_of (SpellsDatum (tree_of shape.now) bytes.now) budget.old read.0
        budget.new) }
    ensures judged { IsTrue strict → IsLeft budget.new
        → IfOk result
        (λ read. IsTrue read.1 ↔ StrictlySpellsDatum (tree_of shape.now) bytes.now
        (datum_of read.0)) }
    ensures whole { IfOk result (λ read. IsLeft budget.new → value_faults shape.now read.0 ≡ []) }
    ensures refused { IfErr result
        (λ e. IsValueReason e.reason
        × (e.reason ≢ Reason.OutOfMemory → (d : Datum) → SpellsDatum (tree_of shape.now) bytes.now d
        → ⊥)) }
{
    let table = shape.table();
    let mut reader = Reader::new(alloc, bytes, strict);
    let value = read(
        alloc,
        &mut reader,
        budget,
        table,
        &table[shape.root()],
        REF_LIMIT,
        0,
    )?;
    if !reader.is_at_end() {
        return err(Reason::ExpectedEof);
    }
    Ok((value, reader.is_written()))
}

/// Decodes the bytes, which must spell exactly one value of the shape.
///
/// Errors: `EOF`, `Expected EOF`, `invalid packing`, `length overflow`, `huge length`, `invalid utf8`,
/// `invalid enum variant`, `invalid option`, `invalid char`, `too many zero sized types` and `nested too deep`, each
/// only if the input spells no value of the shape, and `out of memory`.
///
/// A byte may spell up to 524296 elements, and each is allocated: decode untrusted input with [`deserialize_within`].
///
/// ```
/// let flags = Shape::new(vec![in alloc; ShapeNode::Seq(Box::new(alloc, ShapeNode::Bool)?)]?, 0)?;
/// let value = deserialize(alloc, &flags, &[2, 1])?;
/// ```
pub fn deserialize(alloc: Global, shape: &Shape, bytes: &[u8]) -> Result<Value, Error>
    ensures read { IfOk result
        (λ value. SpellsDatum (tree_of shape.now) bytes.now (datum_of value)) }
    ensures whole { IfOk result (λ value. value_faults shape.now value ≡ []) }
    ensures only { IfOk result
        (λ value. IsOnlyContent shape.now (SpellsDatum (tree_of shape.now) bytes.now)
        (content_of value)) }
    ensures refused { IfErr result
        (λ e. IsValueReason e.reason
        × (e.reason ≢ Reason.OutOfMemory → (d : Datum) → SpellsDatum (tree_of shape.now) bytes.now d
        → ⊥)) }
    ensures unambiguous { (d e : Datum) → SpellsDatum (tree_of shape.now) bytes.now d
        → SpellsDatum (tree_of shape.now) bytes.now e → d ≡ e }
    ensures size_bound { (d : Datum) → SpellsDatum (tree_of shape.now) bytes.now d
        → entry_count (columns_of (tree_of shape.now) d) ≤ 8 * length bytes.now }
    ensures bounded { (d : Datum) → SpellsDatum (tree_of shape.now) bytes.now d
        → element_count d ≤ 524296 * length bytes.now }
{
    let mut budget = Budget::Endless;
    let read = read_whole(alloc, shape, bytes, &mut budget, false)?;
    Ok(read.0)
}

/// Decodes the bytes as [`deserialize`] does, but accepts only the bytes that `serialize` writes for the entries of
/// each column. So it accepts each value in only one form.
///
/// Errors: those of `deserialize`, and `not the written text` if the input spells a value of the shape but some column
/// has different bytes.
///
/// ```
/// let flag = Shape::new(vec![in alloc; ShapeNode::Bool]?, 0)?;
/// deserialize_strict(alloc, &flag, &[1])?; // Value::Bool(true)
/// deserialize_strict(alloc, &flag, &[255])?; // `not the written text`: the unused digits are not 0
/// ```
pub fn deserialize_strict(alloc: Global, shape: &Shape, bytes: &[u8]) -> Result<Value, Error>
    ensures read { IfOk result
        (λ value. StrictlySpellsDatum (tree_of shape.now) bytes.now (datum_of value)) }
    ensures whole { IfOk result (λ value. value_faults shape.now value ≡ []) }
    ensures only { IfOk result
        (λ value. IsOnlyContent shape.now (SpellsDatum (tree_of shape.now) bytes.now)
        (content_of value)) }
    ensures refused { IfErr result (λ e. IsStrictRefusal (tree_of shape.now) e.reason bytes.now) }
    ensures unambiguous { (d e : Datum) → SpellsDatum (tree_of shape.now) bytes.now d
        → SpellsDatum (tree_of shape.now) bytes.now e → d ≡ e }
    ensures size_bound { (d : Datum) → SpellsDatum (tree_of shape.now) bytes.now d
        → entry_count (columns_of (tree_of shape.now) d) ≤ 8 * length bytes.now }
    ensures bounded { (d : Datum) → SpellsDatum (tree_of shape.now) bytes.now d
        → element_count d ≤ 524296 * length bytes.now }
{
    let mut budget = Budget::Endless;
    let read = read_whole(alloc, shape, bytes, &mut budget, true)?;
    if !read.1 {
        return err(Reason::NotTheWrittenText);
    }
    Ok(read.0)
}

/// Decodes the bytes as [`deserialize`] does, if the value has at most `limit` nodes.
///
/// Each unit, number, text, list, tuple and variant in the value is a node, and so is the value itself: `[[], [[]]]`
/// has 4 nodes, `Some(true)` and `None` have 2 each. A few bytes may spell millions of nodes. So use this call for
/// untrusted input, and limit the input's size too: each column takes memory. Once more than `limit` nodes were read,
/// the lists, maps and tuples so far do not grow, and the rest of the input is only validated.
///
/// Errors: those of [`deserialize`], and `too many nodes` if the input spells a value of the shape with more than
/// `limit` nodes.
///
/// ```
/// let flags = Shape::new(vec![in alloc; ShapeNode::Seq(Box::new(alloc, ShapeNode::Bool)?)]?, 0)?;
/// let value = deserialize_within(alloc, &flags, &[2, 1], 3)?;
/// ```
pub fn deserialize_within(
    alloc: Global,
    shape: &Shape,
    bytes: &[u8],
    limit: usize,
) -> Result<Value, Error>
    ensures read { IfOk result
        (λ value. SpellsDatum (tree_of shape.now) bytes.now (datum_of value)) }
    ensures within { IfOk result (λ value. node_count (datum_of value) ≤ limit) }
    ensures whole { IfOk result (λ value. value_faults shape.now value ≡ []) }
    ensures only { IfOk result
        (λ value. IsOnlyContent shape.now (SpellsDatum (tree_of shape.now) bytes.now)
        (content_of value)) }
    ensures refused { IfErr result
        (λ e. IsRefusalWithin limit (SpellsDatum (tree_of shape.now) bytes.now) e.reason) }
    ensures unambiguous { (d e : Datum) → SpellsDatum (tree_of shape.now) bytes.now d
        → SpellsDatum (tree_of shape.now) bytes.now e → d ≡ e }
    ensures size_bound { (d : Datum) → SpellsDatum (tree_of shape.now) bytes.now d
        → entry_count (columns_of (tree_of shape.now) d) ≤ 8 * length bytes.now }
    ensures bounded { (d : Datum) → SpellsDatum (tree_of shape.now) bytes.now d
        → element_count d ≤ 524296 * length bytes.now }
{
    let mut budget = Budget::Nodes(limit);
    let read = read_whole(alloc, shape, bytes, &mut budget, false)?;
    if budget.is_spent() {
        return err(Reason::TooManyNodes);
    }
    Ok(read.0)
}
