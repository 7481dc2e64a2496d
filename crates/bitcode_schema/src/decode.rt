//! Decoding values by a schema.
ghost use Rattle.std.specs.Prelude.{◌≡◌, ◌≢◌, ◌≤◌, false, IfOk, OnOk, IfErr};
ghost use Rattle.bitcode_shapes.specs.Datum.{Datum};
ghost use Rattle.bitcode_coder.specs.Coder.{IsReadingReason};
ghost use Rattle.bitcode_coder.specs.ColumnFree.{saturated};
ghost use Rattle.bitcode_derive.specs.Strict.{IsStrictRefusal};
ghost use Rattle.bitcode_derive.specs.Whole.{SpellsDatum, SpellsAtMostOne, IsBoundedByBytes, NamesWholeFault};
ghost use Rattle.bitcode_untyped.specs.Nodes.{node_count};
ghost use Rattle.bitcode_schema.specs.Decoding.{IsDecodingUnder, IsRefusalWithin, IsStrictDecodingUnder};
ghost use Rattle.bitcode_schema.specs.Forms.{shape_of};

use crate::check::{check_value, check_value_strict};
use crate::make::count::count;
use crate::make::make;
use crate::schema::Schema;
use bitcode_memory::error::{Error, Reason};
use bitcode_memory::refuse::err;
use bitcode_untyped::value::Value;
use std::alloc::Global;

// Makes the one value that the bytes spell. Only an allocation can fail.
fn make_one(alloc: Global, schema: &Schema, bytes: &[u8]) -> Result<Value, Error>
    requires spelled { (d : Datum) × SpellsDatum (shape_of schema.now.root) bytes.now d }
    ensures made { IfOk result (λ value. IsDecodingUnder schema.now.root bytes.now value) }
    ensures refused { IfErr result (λ e. e.reason ≡ Reason.OutOfMemory) }
{
    let mut input = bytes;
    match make(alloc, schema.root(), &mut input, 1) {
        Ok(mut values) => match values.pop_front() {
            Some(value) => Ok(value),
            None => unreachable!(),
        },
        Err(_) => err(Reason::OutOfMemory),
    }
}

// Counts the nodes of the one value that the bytes spell. Only an allocation can fail.
fn count_one(alloc: Global, schema: &Schema, bytes: &[u8]) -> Result<u128, Error>
    requires spelled { (d : Datum) × SpellsDatum (shape_of schema.now.root) bytes.now d }
    ensures counted { IfOk result
        (λ nodes. (d : Datum) → SpellsDatum (shape_of schema.now.root) bytes.now d
        → saturated nodes ≡ saturated (node_count d)) }
    ensures refused { IfErr result (λ e. e.reason ≡ Reason.OutOfMemory) }
{
    let mut input = bytes;
    match count(alloc, schema.root(), &mut input, 1) {
        Ok(nodes) => Ok(nodes),
        Err(_) => err(Reason::OutOfMemory),
    }
}

/// Decodes the bytes, which must encode exactly one value of the schema.
///
/// It validates the input completely before it makes the value, and accepts no trailing bytes. A few bytes may encode
/// millions of elements, and each is allocated: decode untrusted input with [`decode_value_within`].
///
/// Errors: the first fault of the input, `Expected EOF` if bytes are left after the value, and `out of memory` if an
/// allocation fails: for a column, once all its bytes are there, or for the value, once the bytes are known to encode
/// one. Every other error means that the bytes encode no value of the schema.
///
/// ```
/// let fields = vec![in alloc; SchemaNode::Bool, SchemaNode::Int(IntKind::U16)]?;
/// let schema = Schema::new(SchemaNode::Tuple(fields))?;
/// let value = decode_value(alloc, &schema, &[1, 7, 0])?; // Value::Tuple with Value::Bool(true) and Value::U16(7)
/// ```
pub fn decode_value(alloc: Global, schema: &Schema, bytes: &[u8]) -> Result<Value, Error>
    ensures found { IfOk result (λ value. IsDecodingUnder schema.now.root bytes.now value) }
    ensures unambiguous { SpellsAtMostOne (shape_of schema.now.root) bytes.now }
    ensures bounded { IsBoundedByBytes (shape_of schema.now.root) bytes.now }
    ensures reasons { IfErr result (λ e. IsReadingReason e.reason) }
    ensures refused { IfErr result
        (λ e. e.reason ≢ Reason.OutOfMemory → (d : Datum)
        → SpellsDatum (shape_of schema.now.root) bytes.now d → ⊥) }
    ensures exact { IfErr result
        (λ e. NamesWholeFault false (shape_of schema.now.root) e.reason bytes.now) }
{
    check_value(alloc, schema, bytes)?;
    make_one(alloc, schema, bytes)
}

/// Decodes the bytes as [`decode_value`] does, and accepts only those that are written for the entries of each column.
///
/// Errors: those of `decode_value`, and `not the written text` if the bytes encode a value but some column has
/// different bytes. If the bytes have another fault, the error is that fault.
///
/// ```
/// let schema = Schema::new(SchemaNode::Bool)?;
/// decode_value_strict(alloc, &schema, &[1])?; // Value::Bool(true)
/// decode_value_strict(alloc, &schema, &[255])?; // `not the written text`: the unused digits are not 0
/// ```
pub fn decode_value_strict(alloc: Global, schema: &Schema, bytes: &[u8]) -> Result<Value, Error>
    ensures found { IfOk result (λ value. IsStrictDecodingUnder schema.now.root bytes.now value) }
    ensures unambiguous { SpellsAtMostOne (shape_of schema.now.root) bytes.now }
    ensures bounded { IsBoundedByBytes (shape_of schema.now.root) bytes.now }
    ensures refused { IfErr result
        (λ e. IsStrictRefusal (shape_of schema.now.root) e.reason bytes.now) }
    ensures exact { IfErr result
        (λ e. e.reason ≢ Reason.NotTheWrittenText
        → NamesWholeFault false (shape_of schema.now.root) e.reason bytes.now) }
{
    check_value_strict(alloc, schema, bytes)?;
    make_one(alloc, schema, bytes)
}

/// Decodes the bytes as [`decode_value`] does, if the value has at most `limit` nodes.
///
/// Each unit, number, text, list, pair and variant in the value is a node, and so is the value itself. A map is a list
/// of pairs, and the fields of a tuple or struct are nested pairs, so that `n` of them have `n - 1`. `Some(true)` and
/// `None` have 2 nodes each, and an enum with only one variant adds none. Nothing is made before the nodes are counted.
/// So use this call for untrusted input, and limit the input's size too: each column takes memory.
///
/// Errors: those of `decode_value`, and `too many nodes` if the bytes encode a value with more than `limit` nodes.
///
/// ```
/// let schema = Schema::new(SchemaNode::List(None, Box::new(alloc, SchemaNode::Unit)?))?;
/// decode_value_within(alloc, &schema, &[2], 3)?; // Value::Seq of two units
/// decode_value_within(alloc, &schema, &[3], 3)?; // `too many nodes`
/// ```
pub fn decode_value_within(
    alloc: Global,
    schema: &Schema,
    bytes: &[u8],
    limit: usize,
) -> Result<Value, Error>
    ensures found { IfOk result (λ value. IsDecodingUnder schema.now.root bytes.now value) }
    ensures within { OnOk result ((d : Datum) → SpellsDatum (shape_of schema.now.root) bytes.now d
        → node_count d ≤ limit) }
    ensures unambiguous { SpellsAtMostOne (shape_of schema.now.root) bytes.now }
    ensures bounded { IsBoundedByBytes (shape_of schema.now.root) bytes.now }
    ensures refused { IfErr result
        (λ e. IsRefusalWithin limit (shape_of schema.now.root) e.reason bytes.now) }
    ensures exact { IfErr result
        (λ e. e.reason ≢ Reason.TooManyNodes
        → NamesWholeFault false (shape_of schema.now.root) e.reason bytes.now) }
{
    check_value(alloc, schema, bytes)?;
    if count_one(alloc, schema, bytes)? > limit as u128 {
        return err(Reason::TooManyNodes);
    }
    make_one(alloc, schema, bytes)
}
