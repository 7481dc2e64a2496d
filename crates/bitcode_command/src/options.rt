//! When `Some` has to be told from what it holds.
use crate::maps::has_text_keys;
use crate::node::{Member, Node, Types};
use bitcode_untyped::value::Value;

/// The member of an object that stands for `Some`.
pub const SOME: &str = "Some";

/// Whether the JSON of a value of the node may be `null`.
pub fn is_nullable(types: &Types, node: &Node) -> bool {
    matches!(types.resolve(node), Node::Unit | Node::Option(_))
}

/// Whether the JSON of the value is `null`, or an object with the one member `Some`.
pub fn looks_wrapped(types: &Types, value: &Value, node: &Node) -> bool {
    match types.resolve(node) {
        Node::Unit => true,
        Node::Option(inner) => match value {
            Value::Option(Some(value)) => looks_wrapped(types, value, inner),
            _ => true,
        },
        Node::Struct(members) => match members.as_slice() {
            [member] => member.name.as_str() == SOME,
            _ => false,
        },
        Node::Enum(variants) => match value {
            Value::Enum(index, _) => match variants.get(*index as usize) {
                Some(variant) => is_named_some(types, variant),
                None => false,
            },
            _ => false,
        },
        Node::Map(key, _) => match value {
            Value::Map(pairs) => has_text_keys(types, key) && is_some_alone(pairs),
            _ => false,
        },
        _ => false,
    }
}

// Whether the variant is an object with the member `Some`.
fn is_named_some(types: &Types, variant: &Member) -> bool {
    variant.name.as_str() == SOME && !matches!(types.resolve(&variant.node), Node::Unit)
}

// Whether the map has the one key `Some`.
fn is_some_alone(pairs: &[(Value, Value)]) -> bool {
    match pairs {
        [(Value::Str(key), _)] => key.as_str() == SOME,
        _ => false,
    }
}
