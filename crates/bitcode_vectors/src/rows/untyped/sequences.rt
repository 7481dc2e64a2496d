//! The stored rows of sequences, maps and tuples under shapes.
use bitcode::{Reason, ShapeNode, Value};
use bitcode_test_support::Got;
use bitcode_test_support::untyped::{
    deserializes, is_not_read, map_of, seq_of, serializes, shape_of, written_both_ways,
};
use std::alloc::Global;

/// The columns of the fields come in the order of their first entries.
pub fn columns_by_first_use(alloc: Global) -> Result<(), Got> {
    let flags = seq_of(alloc, ShapeNode::Bool)?;
    let pair = ShapeNode::Tuple(vec![in alloc; flags, ShapeNode::U8]?);
    let shape = shape_of(alloc, seq_of(alloc, pair)?)?;
    let none = Value::Seq(Vec::new(alloc));
    let one = Value::Seq(vec![in alloc; Value::Bool(true)]?);
    let first = Value::Tuple(vec![in alloc; none, Value::U8(0)]?);
    let second = Value::Tuple(vec![in alloc; one, Value::U8(1)]?);
    let list = Value::Seq(vec![in alloc; first, second]?);
    written_both_ways(alloc, &shape, &list, &[2, 0, 1, 0, 1, 1])
}

/// Signed bytes are shifted.
pub fn signed_bytes(alloc: Global) -> Result<(), Got> {
    let shape = shape_of(alloc, seq_of(alloc, ShapeNode::I8)?)?;
    let mut bytes = Vec::new(alloc);
    for byte in [0i8, -1, 0, -1, 0, -1, 0] {
        bytes.push(Value::I8(byte))?;
    }
    serializes(alloc, &shape, &Value::Seq(bytes), &[7, 9, 255, 85])
}

/// All elements of all lists have one column.
pub fn lists_of_bytes(alloc: Global) -> Result<(), Got> {
    let bytes = seq_of(alloc, ShapeNode::U8)?;
    let shape = shape_of(alloc, seq_of(alloc, bytes)?)?;
    let first = Value::Seq(vec![in alloc; Value::U8(1)]?);
    let second = Value::Seq(vec![in alloc; Value::U8(2), Value::U8(3)]?);
    let lists = Value::Seq(vec![in alloc; first, second]?);
    written_both_ways(alloc, &shape, &lists, &[2, 1, 2, 6, 57])
}

/// A map is its length, and then its keys and its values.
pub fn pairs(alloc: Global) -> Result<(), Got> {
    let shape = shape_of(alloc, map_of(alloc, ShapeNode::U8, ShapeNode::Str)?)?;
    let text = Value::Str(String::from_str(alloc, "a")?);
    let map = Value::Map(vec![in alloc; (Value::U8(1), text)]?);
    serializes(alloc, &shape, &map, &[1, 1, 1, 97])
}

/// A tuple of one is its field.
pub fn tuple_of_one(alloc: Global) -> Result<(), Got> {
    let shape = shape_of(alloc, ShapeNode::Tuple(vec![in alloc; ShapeNode::Bool]?))?;
    let tuple = Value::Tuple(vec![in alloc; Value::Bool(true)]?);
    serializes(alloc, &shape, &tuple, &[1])
}

/// A list of so many units.
pub fn units(alloc: Global, count: usize) -> Result<Value, Got> {
    let mut units = Vec::new(alloc);
    for _ in 0..count {
        units.push(Value::Unit)?;
    }
    Ok(Value::Seq(units))
}

/// 65536 units are read, and one more is refused.
pub fn most_units(alloc: Global) -> Result<(), Got> {
    let shape = shape_of(alloc, seq_of(alloc, ShapeNode::Unit)?)?;
    deserializes(alloc, &shape, &[255, 2, 0, 0, 1, 0], &units(alloc, 65536)?)?;
    let over = [255, 2, 1, 0, 1, 0];
    is_not_read(alloc, &shape, &over, Reason::TooManyZeroSizedTypes)
}

/// 65537 units are written, and refused in whichever of the lists they are read.
pub fn too_many_units(alloc: Global) -> Result<(), Got> {
    let list = seq_of(alloc, ShapeNode::Unit)?;
    let lists = shape_of(alloc, seq_of(alloc, list.clone()?)?)?;
    let shape = shape_of(alloc, list)?;
    let over = [255, 2, 1, 0, 1, 0];
    serializes(alloc, &shape, &units(alloc, 65537)?, &over)?;
    let second = [2, 0, 255, 2, 1, 0, 1, 0];
    is_not_read(alloc, &lists, &second, Reason::TooManyZeroSizedTypes)
}
