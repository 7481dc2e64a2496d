//! The stored rows of values that are read under a limit on their nodes.
use crate::rows::untyped::sequences::units;
use bitcode::{Reason, ShapeNode, Value};
use bitcode_test_support::Got;
use bitcode_test_support::untyped::{
    is_not_read_within, is_read_within, map_of, option_of, seq_of, shape_of, some,
};
use std::alloc::Global;

/// Four lists in one another. What is wrong in another way is refused for that.
fn lists(alloc: Global) -> Result<(), Got> {
    let shape = shape_of(alloc, seq_of(alloc, ShapeNode::Ref(0))?)?;
    let inner = Value::Seq(vec![in alloc; Value::Seq(Vec::new(alloc))]?);
    let outer = Value::Seq(vec![in alloc; Value::Seq(Vec::new(alloc)), inner]?);
    is_read_within(alloc, &shape, &[2, 0, 1, 0], 4, &outer)?;
    is_not_read_within(alloc, &shape, &[2, 0, 1, 0], 3, Reason::TooManyNodes)?;
    is_not_read_within(alloc, &shape, &[2, 0, 1], 3, Reason::Eof)
}

/// A variant is a node, and what it holds is another.
fn options(alloc: Global) -> Result<(), Got> {
    let shape = shape_of(alloc, option_of(alloc, ShapeNode::Bool)?)?;
    is_read_within(alloc, &shape, &[1, 1], 2, &some(alloc, Value::Bool(true))?)?;
    is_not_read_within(alloc, &shape, &[1, 1], 1, Reason::TooManyNodes)?;
    is_not_read_within(alloc, &shape, &[0], 1, Reason::TooManyNodes)
}

/// Lists, options and a unit.
pub fn of_lists_and_options(alloc: Global) -> Result<(), Got> {
    lists(alloc)?;
    options(alloc)?;
    let shape = shape_of(alloc, ShapeNode::Unit)?;
    is_not_read_within(alloc, &shape, &[], 0, Reason::TooManyNodes)?;
    is_read_within(alloc, &shape, &[], 1, &Value::Unit)
}

/// As many units as are read in one list.
fn most_units(alloc: Global) -> Result<(), Got> {
    let shape = shape_of(alloc, seq_of(alloc, ShapeNode::Unit)?)?;
    let bytes = [255, 2, 0, 0, 1, 0];
    is_not_read_within(alloc, &shape, &bytes, 65536, Reason::TooManyNodes)?;
    is_read_within(alloc, &shape, &bytes, 65537, &units(alloc, 65536)?)
}

/// Units, a pair and two bytes.
pub fn of_units_pairs_and_bytes(alloc: Global) -> Result<(), Got> {
    most_units(alloc)?;
    let map = shape_of(alloc, map_of(alloc, ShapeNode::U8, ShapeNode::U8)?)?;
    let pair = Value::Map(vec![in alloc; (Value::U8(1), Value::U8(6))]?);
    is_not_read_within(alloc, &map, &[1, 1, 6], 3, Reason::TooManyNodes)?;
    is_read_within(alloc, &map, &[1, 1, 6], 4, &pair)?;
    let bytes = shape_of(alloc, ShapeNode::Bytes)?;
    let two = Value::Bytes(vec![in alloc; 7u8, 8]?);
    is_not_read_within(alloc, &bytes, &[2, 7, 8], 2, Reason::TooManyNodes)?;
    is_read_within(alloc, &bytes, &[2, 7, 8], 3, &two)
}
