//! Rows of fields, and choices among variants, as values.
#![tactic(auto)]

ghost use Rattle.std.specs.Prelude.{◌≡◌, ◌++◌, [], ◌∷◌, Some, IfOk};
ghost use Rattle.bitcode_schema.specs.Making.{optional};
ghost use Rattle.bitcode_schema.specs.Views.{fields_of, enum_of, option_of};

use crate::make::gather::Turns;
use bitcode_memory::error::Error;
use bitcode_untyped::value::Value;
use std::alloc::Global;

/// A value becomes a row of one field.
pub(crate) struct AsField;

/// Two parts of a row become one.
pub(crate) struct AsRow;

/// A row becomes a tuple.
pub(crate) struct AsTuple;

/// A unit becomes an empty tuple.
pub(crate) struct AsNoFields;

/// Seconds and nanoseconds become a duration.
pub(crate) struct AsSpan;

/// A payload becomes an enum of variant 0.
pub(crate) struct AsFirst;

/// A variant and its payload become an enum.
pub(crate) struct AsEnum;

/// Variant 1 becomes an option that holds the payload.
pub(crate) struct AsOption;

impl Turns<Value, Vec<Value>> for AsField {
    ghost turned = { λ row value. row.items ≡ value ∷ [] };

    fn turn(alloc: Global, item: Value) -> Result<Vec<Value>, Error>
        ensures { IfOk result (λ row. row.items ≡ item ∷ []) }
    {
        let mut row = Vec::with_capacity(alloc, 1)?;
        row.push_reserved(item);
        Ok(row)
    }
}

impl Turns<(Vec<Value>, Vec<Value>), Vec<Value>> for AsRow {
    ghost turned = { λ row parts. row.items ≡ parts.0.items ++ parts.1.items };

    fn turn(_alloc: Global, item: (Vec<Value>, Vec<Value>)) -> Result<Vec<Value>, Error>
        ensures { IfOk result (λ row. row.items ≡ item.0.items ++ item.1.items) }
    {
        let (mut row, rest) = item;
        for value in rest {
            row.push(value)?;
        }
        Ok(row)
    }
}

impl Turns<Vec<Value>, Value> for AsTuple {
    ghost turned = { λ value row. fields_of value ≡ Some row.items };

    fn turn(_alloc: Global, item: Vec<Value>) -> Result<Value, Error>
        ensures { IfOk result (λ value. fields_of value ≡ Some item.items) }
    {
        Ok(Value::Tuple(item))
    }
}

impl Turns<Value, Value> for AsNoFields {
    ghost turned = { λ value unit. fields_of value ≡ Some [] };

    fn turn(alloc: Global, _item: Value) -> Result<Value, Error>
        ensures { IfOk result (λ value. fields_of value ≡ Some []) }
    {
        Ok(Value::Tuple(Vec::new(alloc)))
    }
}

impl Turns<(Value, Value), Value> for AsSpan {
    ghost turned = { λ value parts. fields_of value ≡ Some (parts.0 ∷ parts.1 ∷ []) };

    fn turn(alloc: Global, item: (Value, Value)) -> Result<Value, Error>
        ensures { IfOk result (λ value. fields_of value ≡ Some (item.0 ∷ item.1 ∷ [])) }
    {
        let mut fields = Vec::with_capacity(alloc, 2)?;
        fields.push_reserved(item.0);
        fields.push_reserved(item.1);
        Ok(Value::Tuple(fields))
    }
}

impl Turns<Value, Value> for AsFirst {
    ghost turned = { λ value payload. enum_of value ≡ Some (0, payload) };

    fn turn(alloc: Global, item: Value) -> Result<Value, Error>
        ensures { IfOk result (λ value. enum_of value ≡ Some (0, item)) }
    {
        let payload = Box::new(alloc, item)?;
        Ok(Value::Enum(0, payload))
    }
}

impl Turns<(u8, Value), Value> for AsEnum {
    ghost turned = { λ value choice. enum_of value ≡ Some (choice.0, choice.1) };

    fn turn(alloc: Global, item: (u8, Value)) -> Result<Value, Error>
        ensures { IfOk result (λ value. enum_of value ≡ Some (item.0, item.1)) }
    {
        let payload = Box::new(alloc, item.1)?;
        Ok(Value::Enum(item.0 as u32, payload))
    }
}

impl Turns<(u8, Value), Value> for AsOption {
    ghost turned = { λ value choice. option_of value ≡ Some (optional choice.0 choice.1) };

    fn turn(alloc: Global, item: (u8, Value)) -> Result<Value, Error>
        ensures { IfOk result (λ value. option_of value ≡ Some (optional item.0 item.1)) }
    {
        if item.0 == 0 {
            return Ok(Value::Option(None));
        }
        let held = Box::new(alloc, item.1)?;
        Ok(Value::Option(Some(held)))
    }
}
