//! The stored rows of shapes that hold themselves.
use bitcode::{Reason, Shape, ShapeNode, Value};
use bitcode_test_support::Got;
use bitcode_test_support::untyped::{
    is_not_read, option_of, seq_of, shape_of, some, variant, written_both_ways,
};
use std::alloc::Global;

/// Lists whose elements are such lists.
pub fn lists_of_lists(alloc: Global) -> Result<(), Got> {
    let shape = shape_of(alloc, seq_of(alloc, ShapeNode::Ref(0))?)?;
    let none = Value::Seq(Vec::new(alloc));
    let inner = Value::Seq(vec![in alloc; Value::Seq(Vec::new(alloc))]?);
    let outer = Value::Seq(vec![in alloc; none, inner]?);
    written_both_ways(alloc, &shape, &outer, &[2, 0, 1, 0])
}

/// The bytes of so many options in one another, the last of them empty.
fn nested_bytes(alloc: Global, count: usize) -> Result<Vec<u8>, Got> {
    let mut bytes = Vec::new(alloc);
    for _ in 0..count {
        bytes.push(1)?;
    }
    bytes.push(0)?;
    Ok(bytes)
}

/// So many options in one another, the last of them empty, are written and read back.
fn nest(alloc: Global, shape: &Shape, count: usize) -> Result<(), Got> {
    let mut nested = Value::Option(None);
    for _ in 0..count {
        nested = some(alloc, nested)?;
    }
    let bytes = nested_bytes(alloc, count)?;
    written_both_ways(alloc, shape, &nested, &bytes)
}

/// 512 references are followed on a path, and one more is refused.
pub fn options_in_options(alloc: Global) -> Result<(), Got> {
    let shape = shape_of(alloc, option_of(alloc, ShapeNode::Ref(0))?)?;
    nest(alloc, &shape, 129)?;
    nest(alloc, &shape, 512)?;
    let deeper = nested_bytes(alloc, 513)?;
    is_not_read(alloc, &shape, &deeper, Reason::NestedTooDeep)
}

/// Two entries that refer to each other.
pub fn options_of_lists(alloc: Global) -> Result<(), Got> {
    let lists = seq_of(alloc, ShapeNode::Ref(1))?;
    let options = option_of(alloc, ShapeNode::Ref(0))?;
    let shape = Shape::new(vec![in alloc; lists, options]?, 0)?;
    let inner = some(alloc, Value::Seq(Vec::new(alloc)))?;
    let outer = Value::Seq(vec![in alloc; inner, Value::Option(None)]?);
    written_both_ways(alloc, &shape, &outer, &[2, 1, 0, 0])
}

/// A link with a number, and the chain behind it.
fn link(alloc: Global, number: u8, rest: Value) -> Result<Value, Got> {
    let fields = Value::Tuple(vec![in alloc; Value::U8(number), rest]?);
    variant(alloc, 1, fields)
}

/// A chain of numbers.
pub fn chain(alloc: Global) -> Result<(), Got> {
    let fields = ShapeNode::Tuple(vec![in alloc; ShapeNode::U8, ShapeNode::Ref(0)]?);
    let links = ShapeNode::Enum(vec![in alloc; ShapeNode::Unit, fields]?);
    let shape = shape_of(alloc, links)?;
    let end = variant(alloc, 0, Value::Unit)?;
    let last = link(alloc, 6, end)?;
    let first = link(alloc, 5, last)?;
    written_both_ways(alloc, &shape, &first, &[1, 5, 1, 6, 0])
}
