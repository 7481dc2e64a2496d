//! Both formats, each by its schema.
use crate::column::Column;
use crate::columns::columns;
use crate::failure::Failure;
use crate::fault::Fault;
use crate::first_bytes::{check_first, decode_first};
use crate::formats::{first_format, second_format};
use crate::node::Types;
use bitcode_schema::encode::encode_value;
use bitcode_schema::schema::Schema;
use bitcode_serde::deserialize::{deserialize_strict, deserialize_within};
use bitcode_serde::serialize::serialize;
use bitcode_untyped::shape::Shape;
use bitcode_untyped::value::Value;
use std::alloc::Global;

/// A format, with the type of the values.
#[derive(Drop)]
pub enum Format {
    First(Schema),
    Second(Shape),
}

impl Format {
    /// The format of these types.
    pub fn new(alloc: Global, types: &Types, second: bool) -> Result<Format, Fault> {
        if second {
            Ok(Format::Second(second_format(alloc, types)?))
        } else {
            Ok(Format::First(first_format(alloc, types)?))
        }
    }

    /// Whether this is the second format.
    pub fn is_second(&self) -> bool {
        matches!(self, Format::Second(_))
    }

    /// The value of the bytes, of at most so many nodes.
    pub fn decode(&self, alloc: Global, bytes: &[u8], limit: usize) -> Result<Value, Failure> {
        match self {
            Format::First(schema) => decode_first(alloc, schema, bytes, limit),
            Format::Second(shape) => Ok(deserialize_within(alloc, shape, bytes, limit)?),
        }
    }

    /// Accepts the bytes of a value, which has at most so many nodes in the second format. With `strict` it accepts
    /// only the bytes that are written for a value. The failure of the first format names the column at fault.
    pub fn check(
        &self,
        alloc: Global,
        bytes: &[u8],
        limit: usize,
        strict: bool,
    ) -> Result<(), Failure> {
        match self {
            Format::First(schema) => check_first(alloc, schema, bytes, strict),
            Format::Second(shape) => check_second(alloc, shape, bytes, limit, strict),
        }
    }

    /// The columns of bytes of the first format.
    pub fn columns(&self, alloc: Global, bytes: &[u8]) -> Result<Vec<Column>, Failure> {
        match self {
            Format::First(schema) => columns(alloc, schema, bytes, false),
            Format::Second(_) => Ok(Vec::new(alloc)),
        }
    }

    /// The bytes of the value.
    pub fn encode(&self, alloc: Global, value: &Value) -> Result<Vec<u8>, Failure> {
        match self {
            Format::First(schema) => Ok(encode_value(alloc, schema, value)?),
            Format::Second(shape) => Ok(serialize(alloc, shape, value)?),
        }
    }
}

fn check_second(
    alloc: Global,
    shape: &Shape,
    bytes: &[u8],
    limit: usize,
    strict: bool,
) -> Result<(), Failure> {
    let _within = deserialize_within(alloc, shape, bytes, limit)?;
    if strict {
        let _written = deserialize_strict(alloc, shape, bytes)?;
    }
    Ok(())
}
