//! Writing values without parts as JSON.
use crate::fault::Fault;
use crate::node::Node;
use bitcode_untyped::value::Value;
use json::{Writer, is_number};
use std::alloc::{AllocError, Global};
use uuid::Uuid;

/// Writes a value of a node without parts.
pub fn write_leaf(
    alloc: Global,
    value: &Value,
    node: &Node,
    out: &mut Writer,
) -> Result<(), Fault> {
    let is_written = match node {
        Node::Duration => write_duration(value, out)?,
        Node::Uuid => write_uuid(value, out)?,
        _ => write_integer(value, out)? || write_other(value, out)?,
    };
    if is_written {
        Ok(())
    } else {
        Err(Fault::new(alloc, "the value is not of the schema"))
    }
}

// An integer, whose digits JSON has all.
fn write_integer(value: &Value, out: &mut Writer) -> Result<bool, AllocError> {
    let written = match value {
        Value::U8(n) => out.u64(*n as u64),
        Value::U16(n) => out.u64(*n as u64),
        Value::U32(n) => out.u64(*n as u64),
        Value::U64(n) => out.u64(*n),
        Value::I8(n) => out.i64(*n as i64),
        Value::I16(n) => out.i64(*n as i64),
        Value::I32(n) => out.i64(*n as i64),
        Value::I64(n) => out.i64(*n),
        Value::U128(n) => write_number(itoa::Buffer::new().format(*n), out),
        Value::I128(n) => write_number(itoa::Buffer::new().format(*n), out),
        _ => return Ok(false),
    };
    written?;
    Ok(true)
}

// The digits of a number.
fn write_number(digits: &str, out: &mut Writer) -> Result<(), AllocError> {
    if is_number(digits) {
        out.number(digits)
    } else {
        out.string(digits)
    }
}

fn write_other(value: &Value, out: &mut Writer) -> Result<bool, AllocError> {
    let written = match value {
        Value::Unit => out.null(),
        Value::Bool(b) => out.boolean(*b),
        Value::F32(x) => write_f32(*x, out),
        Value::F64(x) => write_f64(*x, out),
        Value::Char(c) => out.string(c.encode_utf8(&mut [0; 4])),
        Value::Str(text) => out.string(text),
        _ => return Ok(false),
    };
    written?;
    Ok(true)
}

// A float, or the name of what is no number of JSON.
fn write_f32(x: f32, out: &mut Writer) -> Result<(), AllocError> {
    if x.is_finite() {
        out.float(x)
    } else {
        out.string(name_of(x.is_nan(), x > 0.0))
    }
}

fn write_f64(x: f64, out: &mut Writer) -> Result<(), AllocError> {
    if x.is_finite() {
        out.float(x)
    } else {
        out.string(name_of(x.is_nan(), x > 0.0))
    }
}

// The name of a float that is not finite.
fn name_of(is_nan: bool, is_positive: bool) -> &'static str {
    if is_nan {
        "NaN"
    } else if is_positive {
        "Infinity"
    } else {
        "-Infinity"
    }
}

// An object of the seconds and the nanoseconds.
fn write_duration(value: &Value, out: &mut Writer) -> Result<bool, AllocError> {
    let Value::Tuple(parts) = value else {
        return Ok(false);
    };
    let [Value::U64(secs), Value::U32(nanos)] = parts.as_slice() else {
        return Ok(false);
    };
    out.begin_object()?;
    out.key("secs")?;
    out.u64(*secs)?;
    out.key("nanos")?;
    out.u64(*nanos as u64)?;
    out.end_object()?;
    Ok(true)
}

// The sixteen bytes of a list.
fn bytes_of(values: &[Value]) -> Option<[u8; 16]> {
    if values.len() != 16 {
        return None;
    }
    let mut bytes = [0; 16];
    for index in 0..16 {
        match &values[index] {
            Value::U8(byte) => bytes[index] = *byte,
            _ => return None,
        }
    }
    Some(bytes)
}

// Hexadecimal digits, in five groups.
fn write_uuid(value: &Value, out: &mut Writer) -> Result<bool, AllocError> {
    let Value::Seq(values) = value else {
        return Ok(false);
    };
    let Some(bytes) = bytes_of(values) else {
        return Ok(false);
    };
    let Ok(uuid) = Uuid::from_slice(&bytes) else {
        return Ok(false);
    };
    let mut buffer = Uuid::encode_buffer();
    out.string(uuid.hyphenated().encode_lower(&mut buffer))?;
    Ok(true)
}
