//! The stored rows of single entries under shapes.
use bitcode::{Reason, ShapeNode, Value};
use bitcode_test_support::Got;
use bitcode_test_support::untyped::{is_not_read, is_not_written, shape_of};
use std::alloc::Global;

/// A number that is no scalar value is no `char`.
pub fn surrogate(alloc: Global) -> Result<(), Got> {
    let shape = shape_of(alloc, ShapeNode::Char)?;
    is_not_read(alloc, &shape, &[2, 0, 216], Reason::InvalidChar)
}

/// A number is no bool.
pub fn number_as_bool(alloc: Global) -> Result<(), Got> {
    let shape = shape_of(alloc, ShapeNode::Bool)?;
    is_not_written(alloc, &shape, &Value::U8(1), Reason::NotOfTheShape)
}
