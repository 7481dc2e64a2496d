//! Encoding values by a schema.
ghost use Rattle.std.specs.Prelude.{IfOk, IfErr};
ghost use Rattle.bitcode_schema.specs.Encoding.{IsEncodingOf, HasNoDatum};
ghost use Rattle.bitcode_schema.specs.Writing.{IsRefusal};

use crate::schema::Schema;
use crate::write::write_each;
use bitcode_memory::error::Error;
use bitcode_untyped::value::Value;
use std::alloc::Global;

/// Encodes a value of the schema: the concatenated texts of its columns, as `encode` writes them for a type of the
/// schema's shape.
///
/// Errors: `value is not of the shape` if the value does not fit the schema, and `out of memory` if an allocation
/// fails.
///
/// ```rust
/// let pair = SchemaNode::Tuple(vec![in alloc; SchemaNode::Bool, SchemaNode::Int(IntKind::U16)]?);
/// let value = Value::Tuple(vec![in alloc; Value::Bool(true), Value::U16(7)]?);
/// let bytes = encode_value(alloc, &Schema::new(pair)?, &value)?; // [1, 7, 0]
/// ```
pub fn encode_value(alloc: Global, schema: &Schema, value: &Value) -> Result<Vec<u8>, Error>
    ensures written { IfOk result (λ bytes. IsEncodingOf schema.now.root value.now bytes.items) }
    ensures refused { IfErr result
        (λ e. IsRefusal e.reason (HasNoDatum schema.now.root value.now)) }
{
    let mut out = Vec::new(alloc);
    write_each(alloc, schema.root(), &[value], &mut out)?;
    Ok(out)
}
