//! The types without parameters, by their names in schema files.
use crate::node::Node;
use bitcode_schema::schema::IntKind;

// The names of an integer type and of the same except 0, and its kind.
const INTEGERS: [(&str, &str, IntKind); 12] = [
    ("u8", "NonZeroU8", IntKind::U8),
    ("u16", "NonZeroU16", IntKind::U16),
    ("u32", "NonZeroU32", IntKind::U32),
    ("u64", "NonZeroU64", IntKind::U64),
    ("usize", "NonZeroUsize", IntKind::U64),
    ("u128", "NonZeroU128", IntKind::U128),
    ("i8", "NonZeroI8", IntKind::I8),
    ("i16", "NonZeroI16", IntKind::I16),
    ("i32", "NonZeroI32", IntKind::I32),
    ("i64", "NonZeroI64", IntKind::I64),
    ("isize", "NonZeroIsize", IntKind::I64),
    ("i128", "NonZeroI128", IntKind::I128),
];

/// The node of a type without parameters.
pub fn leaf(name: &str) -> Option<Node> {
    match name {
        "()" => Some(Node::Unit),
        "bool" => Some(Node::Bool),
        "char" => Some(Node::Char),
        "f32" => Some(Node::F32),
        "f64" => Some(Node::F64),
        "String" => Some(Node::Text(None)),
        "Duration" => Some(Node::Duration),
        "Uuid" => Some(Node::Uuid),
        _ => integer(name),
    }
}

// The node of an integer.
fn integer(name: &str) -> Option<Node> {
    for (any, non_zero, kind) in &INTEGERS {
        if name == *any {
            return Some(Node::Int(*kind));
        }
        if name == *non_zero {
            return Some(Node::NonZero(*kind));
        }
    }
    None
}
