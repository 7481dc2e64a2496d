//! Texts of JSON, and what is said of their values.
use crate::fault::Fault;
use crate::json_depth::too_deep;
use json::{Error, Scratch, Value};
use std::alloc::Global;

/// The value of a text of JSON.
///
/// The error of what nests too deep has the path, and that of what is no JSON the line and the column.
pub fn parse<'a>(
    alloc: Global,
    text: &'a str,
    scratch: &'a mut Scratch,
) -> Result<Value<'a>, Fault> {
    if let Some(fault) = too_deep(alloc, text)? {
        return Err(fault);
    }
    match Value::parse(alloc, text, scratch) {
        Ok(value) => Ok(value),
        Err(Error::OutOfMemory) => Err(Fault::OutOfMemory),
        Err(_) => Err(not_json(alloc, text)),
    }
}

// What is said of a text that is no JSON.
fn not_json(alloc: Global, text: &str) -> Fault {
    match serde_json::Value::from_str(alloc, text) {
        Ok(_) => Fault::new(alloc, "invalid JSON"),
        Err(error) => match format!(in alloc; "{error}") {
            Ok(what) => Fault::new(alloc, what.as_str()),
            Err(_) => Fault::OutOfMemory,
        },
    }
}

// What a value is, in a message.
fn kind_of(value: &Value<'_>) -> &'static str {
    match value {
        Value::Null => "null",
        Value::Bool(_) => "a boolean",
        Value::Number(_) => "a number",
        Value::String(_) => "a text",
        Value::Array(_) => "a list",
        Value::Object(_) => "an object",
    }
}

/// A fault that says what was expected in the place of the value.
pub fn expected(alloc: Global, what: &str, value: &Value<'_>) -> Fault {
    let said = match value {
        Value::Number(text) => format!(in alloc; "expected {what}, found {text}"),
        Value::String(text) if text.len() <= 40 => {
            format!(in alloc; "expected {what}, found {text:?}")
        }
        _ => {
            let kind = kind_of(value);
            format!(in alloc; "expected {what}, found {kind}")
        }
    };
    match said {
        Ok(said) => Fault::new(alloc, said.as_str()),
        Err(_) => Fault::OutOfMemory,
    }
}
