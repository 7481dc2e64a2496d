//! Which maps are objects of JSON.
use crate::node::{Node, Types};
use bitcode_untyped::value::Value;
use std::alloc::{AllocError, Global};
use std::collections::BTreeSet;

/// Whether the keys are texts.
pub fn has_text_keys(types: &Types, key: &Node) -> bool {
    matches!(types.resolve(key), Node::Text(_))
}

// A key that is a text.
fn text_of(pair: &(Value, Value)) -> &str {
    match &pair.0 {
        Value::Str(text) => text,
        _ => "",
    }
}

// Whether each key is less than the next one.
fn are_ascending(pairs: &[(Value, Value)]) -> bool {
    for index in 1..pairs.len() {
        if text_of(&pairs[index - 1]) >= text_of(&pairs[index]) {
            return false;
        }
    }
    true
}

/// Whether no two keys are the same text.
pub fn are_distinct(alloc: Global, pairs: &[(Value, Value)]) -> Result<bool, AllocError> {
    if are_ascending(pairs) {
        return Ok(true);
    }
    let mut keys = BTreeSet::new(alloc);
    for pair in pairs {
        if !keys.insert(text_of(pair))? {
            return Ok(false);
        }
    }
    Ok(true)
}
