//! Bytes of the first format.
ghost use Rattle.std.specs.Prelude.{IsTrue, IsFalse, IfOk, OnOk};
ghost use Rattle.bitcode_shapes.specs.Datum.{Datum};
ghost use Rattle.bitcode_derive.specs.Strict.{StrictlySpellsDatum};
ghost use Rattle.bitcode_derive.specs.Whole.{SpellsDatum};
ghost use Rattle.bitcode_schema.specs.Decoding.{IsDecodingUnder};
ghost use Rattle.bitcode_schema.specs.Forms.{shape_of};

use crate::column::ColumnFault;
use crate::columns::columns;
use crate::failure::Failure;
use bitcode_memory::error::{Error, Reason};
use bitcode_schema::check::{check_value, check_value_strict};
use bitcode_schema::decode::decode_value_within;
use bitcode_schema::schema::Schema;
use bitcode_untyped::value::Value;
use std::alloc::Global;

/// Accepts the bytes of a value of the schema. With `strict` it accepts only those that are written for the entries of
/// each column. The failure names the column at fault.
pub fn check_first(
    alloc: Global,
    schema: &Schema,
    bytes: &[u8],
    strict: bool,
) -> Result<(), Failure>
    ensures spelled { IsFalse strict → OnOk result
        ((d : Datum) × SpellsDatum (shape_of schema.now.root) bytes.now d) }
    ensures strictly { IsTrue strict → OnOk result
        ((d : Datum) × StrictlySpellsDatum (shape_of schema.now.root) bytes.now d) }
{
    let checked = if strict {
        check_value_strict(alloc, schema, bytes)
    } else {
        check_value(alloc, schema, bytes)
    };
    match checked {
        Ok(()) => Ok(()),
        Err(error) => Err(fault_of(alloc, schema, bytes, error)),
    }
}

// The failure of bytes that were refused, with the column at fault.
fn fault_of(alloc: Global, schema: &Schema, bytes: &[u8], error: Error) -> Failure {
    let strict = error.reason == Reason::NotTheWrittenText;
    match columns(alloc, schema, bytes, strict) {
        Err(Failure::Column(fault)) => Failure::Column(ColumnFault {
            reason: error.reason,
            ..fault
        }),
        _ => Failure::from(error),
    }
}

/// The value of the schema that bytes encode, of at most so many nodes. The failure names the column at fault.
pub fn decode_first(
    alloc: Global,
    schema: &Schema,
    bytes: &[u8],
    limit: usize,
) -> Result<Value, Failure>
    ensures { IfOk result (λ value. IsDecodingUnder schema.now.root bytes.now value) }
{
    match decode_value_within(alloc, schema, bytes, limit) {
        Ok(value) => Ok(value),
        Err(error) => Err(fault_of(alloc, schema, bytes, error)),
    }
}
