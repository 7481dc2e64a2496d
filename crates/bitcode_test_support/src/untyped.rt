//! Values under shapes: how they are written, read and refused.
use crate::Got;
use bitcode::{
    Reason, Shape, ShapeNode, Value, deserialize, deserialize_strict, deserialize_within, serialize,
};
use std::alloc::Global;

/// The shape of one node, which refers to nothing but maybe itself.
pub fn shape_of(alloc: Global, node: ShapeNode) -> Result<Shape, Got> {
    Ok(Shape::new(vec![in alloc; node]?, 0)?)
}

/// A list of a node.
pub fn seq_of(alloc: Global, node: ShapeNode) -> Result<ShapeNode, Got> {
    Ok(ShapeNode::Seq(Box::new(alloc, node)?))
}

/// An option of a node.
pub fn option_of(alloc: Global, node: ShapeNode) -> Result<ShapeNode, Got> {
    Ok(ShapeNode::Option(Box::new(alloc, node)?))
}

/// A map of two nodes.
pub fn map_of(alloc: Global, key: ShapeNode, value: ShapeNode) -> Result<ShapeNode, Got> {
    Ok(ShapeNode::Map(Box::new(alloc, key)?, Box::new(alloc, value)?))
}

/// An option with a value.
pub fn some(alloc: Global, value: Value) -> Result<Value, Got> {
    Ok(Value::Option(Some(Box::new(alloc, value)?)))
}

/// A variant and what it holds.
pub fn variant(alloc: Global, index: u32, payload: Value) -> Result<Value, Got> {
    Ok(Value::Enum(index, Box::new(alloc, payload)?))
}

/// The value is written as these bytes.
pub fn serializes(alloc: Global, shape: &Shape, value: &Value, expected: &[u8]) -> Result<(), Got> {
    match serialize(alloc, shape, value) {
        Ok(bytes) if bytes.as_slice() == expected => Ok(()),
        Ok(bytes) => Err(Got::Bytes(bytes)),
        Err(error) => Err(Got::Refused(error)),
    }
}

/// The bytes are read as this value.
pub fn deserializes(
    alloc: Global,
    shape: &Shape,
    bytes: &[u8],
    expected: &Value,
) -> Result<(), Got> {
    match deserialize(alloc, shape, bytes) {
        Ok(value) if value == *expected => Ok(()),
        Ok(_) => Err(Got::AnotherValue),
        Err(error) => Err(Got::Refused(error)),
    }
}

/// The value is written as these bytes, and they are read as it.
pub fn written_both_ways(
    alloc: Global,
    shape: &Shape,
    value: &Value,
    bytes: &[u8],
) -> Result<(), Got> {
    serializes(alloc, shape, value, bytes)?;
    deserializes(alloc, shape, bytes, value)
}

/// The value is refused for this reason.
pub fn is_not_written(
    alloc: Global,
    shape: &Shape,
    value: &Value,
    expected: Reason,
) -> Result<(), Got> {
    match serialize(alloc, shape, value) {
        Ok(bytes) => Err(Got::Bytes(bytes)),
        Err(error) if error.reason == expected => Ok(()),
        Err(error) => Err(Got::Refused(error)),
    }
}

/// The bytes are refused for this reason.
pub fn is_not_read(
    alloc: Global,
    shape: &Shape,
    bytes: &[u8],
    expected: Reason,
) -> Result<(), Got> {
    match deserialize(alloc, shape, bytes) {
        Ok(_) => Err(Got::AnotherValue),
        Err(error) if error.reason == expected => Ok(()),
        Err(error) => Err(Got::Refused(error)),
    }
}

/// Read strictly, the bytes are this value.
pub fn deserializes_strictly(
    alloc: Global,
    shape: &Shape,
    bytes: &[u8],
    expected: &Value,
) -> Result<(), Got> {
    match deserialize_strict(alloc, shape, bytes) {
        Ok(value) if value == *expected => Ok(()),
        Ok(_) => Err(Got::AnotherValue),
        Err(error) => Err(Got::Refused(error)),
    }
}

/// The bytes are read as this value under a limit on its nodes.
pub fn is_read_within(
    alloc: Global,
    shape: &Shape,
    bytes: &[u8],
    limit: usize,
    expected: &Value,
) -> Result<(), Got> {
    match deserialize_within(alloc, shape, bytes, limit) {
        Ok(value) if value == *expected => Ok(()),
        Ok(_) => Err(Got::AnotherValue),
        Err(error) => Err(Got::Refused(error)),
    }
}

/// Read strictly, the bytes are refused for this reason.
pub fn is_not_read_strictly(
    alloc: Global,
    shape: &Shape,
    bytes: &[u8],
    expected: Reason,
) -> Result<(), Got> {
    match deserialize_strict(alloc, shape, bytes) {
        Ok(_) => Err(Got::AnotherValue),
        Err(error) if error.reason == expected => Ok(()),
        Err(error) => Err(Got::Refused(error)),
    }
}

/// The bytes are refused for this reason under a limit on nodes.
pub fn is_not_read_within(
    alloc: Global,
    shape: &Shape,
    bytes: &[u8],
    limit: usize,
    expected: Reason,
) -> Result<(), Got> {
    match deserialize_within(alloc, shape, bytes, limit) {
        Ok(_) => Err(Got::AnotherValue),
        Err(error) if error.reason == expected => Ok(()),
        Err(error) => Err(Got::Refused(error)),
    }
}
