//! The stored row of strict reading under shapes.
use bitcode::{Reason, ShapeNode, Value};
use bitcode_test_support::Got;
use bitcode_test_support::untyped::{
    deserializes_strictly, is_not_read_strictly, seq_of, shape_of,
};
use std::alloc::Global;

/// A value is read from the bytes that are written for its columns alone, and another fault comes first.
pub fn written_columns(alloc: Global) -> Result<(), Got> {
    let flags = seq_of(alloc, ShapeNode::Bool)?;
    let pair = ShapeNode::Tuple(vec![in alloc; flags, ShapeNode::U8]?);
    let pairs = shape_of(alloc, seq_of(alloc, pair)?)?;
    let none = Value::Seq(Vec::new(alloc));
    let one = Value::Seq(vec![in alloc; Value::Bool(true)]?);
    let first = Value::Tuple(vec![in alloc; none, Value::U8(0)]?);
    let second = Value::Tuple(vec![in alloc; one, Value::U8(1)]?);
    let list = Value::Seq(vec![in alloc; first, second]?);
    deserializes_strictly(alloc, &pairs, &[2, 0, 1, 0, 1, 1], &list)?;
    let other = Reason::NotTheWrittenText;
    is_not_read_strictly(alloc, &shape_of(alloc, ShapeNode::Bool)?, &[2], other)?;
    let letter = shape_of(alloc, ShapeNode::Char)?;
    deserializes_strictly(alloc, &letter, &[4, 97], &Value::Char('a'))?;
    is_not_read_strictly(alloc, &letter, &[0, 97, 0, 0, 0], Reason::NotTheWrittenText)?;
    let units = shape_of(alloc, seq_of(alloc, ShapeNode::Unit)?)?;
    let over = [255, 2, 1, 0, 1, 0];
    is_not_read_strictly(alloc, &units, &over, Reason::TooManyZeroSizedTypes)
}
