//! The stored rows of options and enums under shapes.
use bitcode::{Reason, ShapeNode, Value};
use bitcode_test_support::Got;
use bitcode_test_support::untyped::{
    deserializes, is_not_read, is_not_written, option_of, seq_of, serializes, shape_of, some,
    variant,
};
use std::alloc::Global;

/// An enum of so many variants that hold nothing.
fn bare_variants(alloc: Global, count: usize) -> Result<ShapeNode, Got> {
    let mut nodes = Vec::new(alloc);
    for _ in 0..count {
        nodes.push(ShapeNode::Unit)?;
    }
    Ok(ShapeNode::Enum(nodes))
}

/// The last of 256 variants is written, and an index above it is refused for itself.
pub fn most_variants(alloc: Global) -> Result<(), Got> {
    let shape = shape_of(alloc, bare_variants(alloc, 256)?)?;
    let last = variant(alloc, 255, Value::Unit)?;
    serializes(alloc, &shape, &last, &[255])?;
    let over = variant(alloc, 256, Value::Unit)?;
    is_not_written(alloc, &shape, &over, Reason::TooManyVariants)
}

/// The numbers beside options are used before those in them.
pub fn options_in_pairs(alloc: Global) -> Result<(), Got> {
    let byte = option_of(alloc, ShapeNode::U8)?;
    let pair = ShapeNode::Tuple(vec![in alloc; byte, ShapeNode::U8]?);
    let shape = shape_of(alloc, seq_of(alloc, pair)?)?;
    let four = some(alloc, Value::U8(4))?;
    let first = Value::Tuple(vec![in alloc; Value::Option(None), Value::U8(3)]?);
    let second = Value::Tuple(vec![in alloc; four, Value::U8(5)]?);
    let pairs = Value::Seq(vec![in alloc; first, second]?);
    serializes(alloc, &shape, &pairs, &[2, 0, 1, 3, 5, 4])
}

/// The first value is an error, so the errors' column comes first.
pub fn results(alloc: Global) -> Result<(), Got> {
    let either = ShapeNode::Enum(vec![in alloc; ShapeNode::Bool, ShapeNode::U32]?);
    let shape = shape_of(alloc, seq_of(alloc, either)?)?;
    let error = variant(alloc, 1, Value::U32(1))?;
    let well = variant(alloc, 0, Value::Bool(false))?;
    let list = Value::Seq(vec![in alloc; error, well]?);
    serializes(alloc, &shape, &list, &[2, 1, 0, 4, 1, 0])
}

/// An index that no case has is refused, by a reason of options and one of enums.
pub fn unknown_indices(alloc: Global) -> Result<(), Got> {
    let flag = shape_of(alloc, option_of(alloc, ShapeNode::Bool)?)?;
    is_not_read(alloc, &flag, &[2], Reason::InvalidOption)?;
    let either = shape_of(alloc, bare_variants(alloc, 2)?)?;
    is_not_read(alloc, &either, &[2], Reason::InvalidEnumVariant)?;
    deserializes(alloc, &flag, &[1, 1], &some(alloc, Value::Bool(true))?)
}

/// An enum without variants has no values, and a list of none.
pub fn no_variants(alloc: Global) -> Result<(), Got> {
    let never = shape_of(alloc, bare_variants(alloc, 0)?)?;
    is_not_read(alloc, &never, &[0], Reason::InvalidEnumVariant)?;
    let list = seq_of(alloc, bare_variants(alloc, 0)?)?;
    let none = Value::Seq(Vec::new(alloc));
    deserializes(alloc, &shape_of(alloc, list)?, &[0], &none)
}

/// An index without a variant is not of the shape.
pub fn index_without_a_variant(alloc: Global) -> Result<(), Got> {
    let shape = shape_of(alloc, bare_variants(alloc, 2)?)?;
    let sixth = variant(alloc, 5, Value::Unit)?;
    is_not_written(alloc, &shape, &sixth, Reason::NotOfTheShape)
}
