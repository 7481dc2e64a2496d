//! Making values without parts from JSON.
use crate::fault::Fault;
use crate::json_text::expected;
use crate::node::Node;
use bitcode_schema::schema::IntKind;
use bitcode_untyped::value::Value;
use json::Value as Json;
use std::alloc::Global;
use uuid::Uuid;

// The greatest number of nanoseconds beside a number of seconds.
const MOST_NANOS: u32 = 999_999_999;

/// The value of a node without parts.
pub fn read_leaf(alloc: Global, json: &Json<'_>, node: &Node) -> Result<Value, Fault> {
    match node {
        Node::NonZero(_) if json.as_number() == Some("0") => {
            Err(expected(alloc, "an integer except 0", json))
        }
        Node::Text(limit) => read_text(alloc, json, *limit),
        Node::Duration => read_duration(alloc, json),
        Node::Uuid => read_uuid(alloc, json),
        Node::Named(_) => Err(Fault::new(alloc, "the type contains itself without end")),
        _ => match plain(json, node) {
            Some(value) => Ok(value),
            None => Err(expected(alloc, plain_name(node), json)),
        },
    }
}

// The name of an integer type.
fn name_of(kind: IntKind) -> &'static str {
    match kind {
        IntKind::U8 => "a u8",
        IntKind::U16 => "a u16",
        IntKind::U32 => "a u32",
        IntKind::U64 => "a u64",
        IntKind::U128 => "a u128",
        IntKind::I8 => "an i8",
        IntKind::I16 => "an i16",
        IntKind::I32 => "an i32",
        IntKind::I64 => "an i64",
        IntKind::I128 => "an i128",
    }
}

// An integer of the kind.
fn integer(json: &Json<'_>, kind: IntKind) -> Option<Value> {
    let text = json.as_number()?;
    match kind {
        IntKind::U8 => text.parse().ok().map(Value::U8),
        IntKind::U16 => text.parse().ok().map(Value::U16),
        IntKind::U32 => text.parse().ok().map(Value::U32),
        IntKind::U64 => text.parse().ok().map(Value::U64),
        IntKind::U128 => text.parse().ok().map(Value::U128),
        IntKind::I8 => text.parse().ok().map(Value::I8),
        IntKind::I16 => text.parse().ok().map(Value::I16),
        IntKind::I32 => text.parse().ok().map(Value::I32),
        IntKind::I64 => text.parse().ok().map(Value::I64),
        IntKind::I128 => text.parse().ok().map(Value::I128),
    }
}

// What is expected of a node that `plain` reads.
fn plain_name(node: &Node) -> &'static str {
    match node {
        Node::Int(kind) | Node::NonZero(kind) => name_of(*kind),
        Node::Unit => "null",
        Node::Bool => "true or false",
        Node::Char => "a text of one character",
        Node::F32 => "a number of an f32",
        _ => "a number of an f64",
    }
}

fn plain(json: &Json<'_>, node: &Node) -> Option<Value> {
    match node {
        Node::Int(kind) | Node::NonZero(kind) => integer(json, *kind),
        Node::Unit if json.is_null() => Some(Value::Unit),
        Node::Bool => json.as_bool().map(Value::Bool),
        Node::Char => character(json.as_str()?).map(Value::Char),
        Node::F32 => float32(json).map(Value::F32),
        Node::F64 => float64(json).map(Value::F64),
        _ => None,
    }
}

// The one character of a text.
fn character(text: &str) -> Option<char> {
    let mut chars = text.chars();
    let c = chars.next()?;
    match chars.next() {
        None => Some(c),
        Some(_) => None,
    }
}

// A float that JSON cannot say as a number.
fn named32(name: &str) -> Option<f32> {
    match name {
        "NaN" => Some(f32::NAN),
        "Infinity" => Some(f32::INFINITY),
        "-Infinity" => Some(f32::NEG_INFINITY),
        _ => None,
    }
}

fn named64(name: &str) -> Option<f64> {
    match name {
        "NaN" => Some(f64::NAN),
        "Infinity" => Some(f64::INFINITY),
        "-Infinity" => Some(f64::NEG_INFINITY),
        _ => None,
    }
}

fn float32(json: &Json<'_>) -> Option<f32> {
    match json {
        Json::Number(text) => {
            let x: f32 = fast_float::parse(*text).ok()?;
            if x.is_finite() { Some(x) } else { None }
        }
        Json::String(name) => named32(name),
        _ => None,
    }
}

fn float64(json: &Json<'_>) -> Option<f64> {
    match json {
        Json::Number(text) => {
            let x: f64 = fast_float::parse(*text).ok()?;
            if x.is_finite() { Some(x) } else { None }
        }
        Json::String(name) => named64(name),
        _ => None,
    }
}

fn read_text(alloc: Global, json: &Json<'_>, limit: Option<usize>) -> Result<Value, Fault> {
    let Json::String(text) = json else {
        return Err(expected(alloc, "a text", json));
    };
    match limit {
        Some(limit) if text.len() > limit => {
            let what = format!(in alloc; "a text of at most {limit} bytes")?;
            Err(expected(alloc, what.as_str(), json))
        }
        _ => Ok(Value::Str(String::from_str(alloc, text)?)),
    }
}

// The seconds and the nanoseconds of an object.
fn parts_of(json: &Json<'_>) -> Option<(u64, u32)> {
    let Json::Object(members) = json else {
        return None;
    };
    if members.len() != 2 {
        return None;
    }
    let secs = json.get("secs")?.as_u64()?;
    let nanos = u32::try_from(json.get("nanos")?.as_u64()?).ok()?;
    if nanos <= MOST_NANOS {
        Some((secs, nanos))
    } else {
        None
    }
}

fn read_duration(alloc: Global, json: &Json<'_>) -> Result<Value, Fault> {
    match parts_of(json) {
        Some((secs, nanos)) => {
            let parts = vec![in alloc; Value::U64(secs), Value::U32(nanos)]?;
            Ok(Value::Tuple(parts))
        }
        None => Err(expected(
            alloc,
            "an object with `secs`, and `nanos` below a billion",
            json,
        )),
    }
}

fn read_uuid(alloc: Global, json: &Json<'_>) -> Result<Value, Fault> {
    let text = json.as_str().unwrap_or("");
    let Ok(uuid) = Uuid::parse_str(text) else {
        return Err(expected(alloc, "the text of a UUID", json));
    };
    let mut bytes = Vec::with_capacity(alloc, 16)?;
    for byte in uuid.as_bytes() {
        bytes.push(Value::U8(*byte))?;
    }
    Ok(Value::Seq(bytes))
}
