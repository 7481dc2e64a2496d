//! The stored row of tables that are a shape, and of those that are none.
use crate::rows::untyped::leaves;
use bitcode::{Reason, Shape, ShapeNode};
use bitcode_test_support::Got;
use bitcode_test_support::untyped::seq_of;
use std::alloc::Global;

/// A table of this entry alone is no shape.
fn is_bad(alloc: Global, entry: ShapeNode, root: usize) -> Result<(), Got> {
    match Shape::new(vec![in alloc; entry]?, root) {
        Ok(_) => Err(Got::AnotherValue),
        Err(error) if error.reason == Reason::BadShape => Ok(()),
        Err(error) => Err(Got::Refused(error)),
    }
}

/// A reference needs an entry, and something above it that a value ends by.
pub fn tables(alloc: Global) -> Result<(), Got> {
    is_bad(alloc, ShapeNode::Ref(0), 0)?;
    let tuple = ShapeNode::Tuple(vec![in alloc; ShapeNode::Ref(0)]?);
    is_bad(alloc, tuple, 0)?;
    is_bad(alloc, seq_of(alloc, ShapeNode::Ref(1))?, 0)?;
    let lists = seq_of(alloc, ShapeNode::Ref(0))?;
    let _shape = Shape::new(vec![in alloc; lists]?, 0)?;
    is_bad(alloc, ShapeNode::Unit, 1)?;
    leaves::number_as_bool(alloc)
}
