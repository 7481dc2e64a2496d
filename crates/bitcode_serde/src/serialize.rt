//! Encoding the second format.
ghost use Rattle.std.specs.Prelude.{◌≡◌, [], IfOk, IfErr, OnOk};
ghost use Rattle.bitcode_untyped.specs.Bounds.{IsLimited};
ghost use Rattle.bitcode_untyped.specs.Faults.{value_faults};
ghost use Rattle.bitcode_untyped.specs.Laws.{LengthsBelowLimit};
ghost use Rattle.bitcode_untyped.specs.ShapeTree.{IsOf};
ghost use Rattle.bitcode_untyped.specs.Spelling.{datum_text};
ghost use Rattle.bitcode_untyped.specs.View.{datum_of, tree_of};
ghost use Rattle.bitcode_serde.specs.Serializing.{IsReadAs};
ghost use Rattle.bitcode_serde.specs.Writing.{IsWriterReason};

use crate::deserialize::REF_LIMIT;
use crate::walk::write;
use crate::writer::Writer;
use bitcode_memory::error::Error;
use bitcode_untyped::shape::Shape;
use bitcode_untyped::value::Value;
use std::alloc::Global;

/// Encodes a value of a shape: one column for each place of the value, in the order of their first entries.
///
/// Errors: `enums with more than 256 variants are unsupported` only if an index exceeds 255, `nested too deep` only if
/// a path has more than 512 references, and `value is not of the shape` only for other faults. A value with one of
/// these faults is always rejected, and no other value is. If it has several faults, any of them may be reported. The
/// other error is `out of memory`.
///
/// `deserialize` reads the value back, if each column of lengths sums to less than 2251799813685247, and if each list
/// of elements without a column, and each map of keys without one, has at most 65536 of them.
///
/// ```
/// let flags = Shape::new(vec![in alloc; ShapeNode::Seq(Box::new(alloc, ShapeNode::Bool)?)]?, 0)?;
/// let bytes = serialize(alloc, &flags, &Value::Seq(vec![in alloc; Value::Bool(true), Value::Bool(false)]?))?;
/// ```
pub fn serialize(alloc: Global, shape: &Shape, value: &Value) -> Result<Vec<u8>, Error>
    ensures written { IfOk result
        (λ bytes. bytes.items ≡ datum_text (tree_of shape.now) (datum_of value.now)) }
    ensures of_shape { OnOk result (IsOf (tree_of shape.now) (datum_of value.now)) }
    ensures whole { OnOk result (value_faults shape.now value.now ≡ []) }
    ensures round_trip { IfOk result
        (λ bytes. IsLimited (tree_of shape.now) (datum_of value.now)
        → LengthsBelowLimit (tree_of shape.now) (datum_of value.now)
        → IsReadAs shape.now bytes.items value.now) }
    ensures refused { IfErr result
        (λ e. IsWriterReason e.reason (value_faults shape.now value.now)) }
{
    let mut writer = Writer::new(alloc);
    let table = shape.table();
    write(
        &mut writer,
        table,
        &table[shape.root()],
        value,
        REF_LIMIT,
        0,
    )?;
    writer.collect()
}
