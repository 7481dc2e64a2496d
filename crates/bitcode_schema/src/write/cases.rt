//! What each of several values holds, if all have one case.
ghost use Rattle.std.specs.Prelude.{◌≡◌, None, map, IfOk, IfErr};
ghost use Rattle.bitcode_schema.specs.Views.{Hold, HasOther, boxed, elements_of, pairs_of, fields_of};
ghost use Rattle.bitcode_schema.specs.Views.{option_of, enum_of};
ghost use Rattle.bitcode_schema.specs.Writing.{IsRefusal};

use bitcode_memory::error::{Error, Reason};
use bitcode_memory::refuse::err;
use bitcode_untyped::value::Value;
use std::alloc::Global;

/// The elements of each list.
pub fn lists<'a>(alloc: Global, values: &[&'a Value]) -> Result<Vec<&'a [Value]>, Error>
    ensures held { IfOk result
        (λ held. Hold elements_of (map (λ v. v.now) values.now) (map (λ h. h.now) held.items)) }
    ensures refused { IfErr result
        (λ e. IsRefusal e.reason (HasOther elements_of (map (λ v. v.now) values.now))) }
{
    let mut held = Vec::new(alloc);
    for value in values {
        match value {
            Value::Seq(items) => held.push(items.as_slice())?,
            _ => return err(Reason::NotOfTheShape),
        }
    }
    Ok(held)
}

/// The keys and values of each map.
pub fn maps<'a>(alloc: Global, values: &[&'a Value]) -> Result<Vec<&'a [(Value, Value)]>, Error>
    ensures held { IfOk result
        (λ held. Hold pairs_of (map (λ v. v.now) values.now) (map (λ h. h.now) held.items)) }
    ensures refused { IfErr result
        (λ e. IsRefusal e.reason (HasOther pairs_of (map (λ v. v.now) values.now))) }
{
    let mut held = Vec::new(alloc);
    for value in values {
        match value {
            Value::Map(pairs) => held.push(pairs.as_slice())?,
            _ => return err(Reason::NotOfTheShape),
        }
    }
    Ok(held)
}

/// The fields of each tuple.
pub fn tuples<'a>(alloc: Global, values: &[&'a Value]) -> Result<Vec<&'a [Value]>, Error>
    ensures held { IfOk result
        (λ held. Hold fields_of (map (λ v. v.now) values.now) (map (λ h. h.now) held.items)) }
    ensures refused { IfErr result
        (λ e. IsRefusal e.reason (HasOther fields_of (map (λ v. v.now) values.now))) }
{
    let mut held = Vec::new(alloc);
    for value in values {
        match value {
            Value::Tuple(fields) => held.push(fields.as_slice())?,
            _ => return err(Reason::NotOfTheShape),
        }
    }
    Ok(held)
}

/// What each option holds.
pub fn options<'a>(
    alloc: Global,
    values: &[&'a Value],
) -> Result<Vec<&'a Option<Box<Value>>>, Error>
    ensures held { IfOk result
        (λ held. Hold option_of (map (λ v. v.now) values.now) (map (λ h. boxed h.now) held.items)) }
    ensures refused { IfErr result
        (λ e. IsRefusal e.reason (HasOther option_of (map (λ v. v.now) values.now))) }
{
    let mut held = Vec::new(alloc);
    for value in values {
        match value {
            Value::Option(some) => held.push(some)?,
            _ => return err(Reason::NotOfTheShape),
        }
    }
    Ok(held)
}

/// The variant of each enum, and its payload.
pub fn enums<'a>(alloc: Global, values: &[&'a Value]) -> Result<Vec<(u32, &'a Value)>, Error>
    ensures held { IfOk result
        (λ held. Hold enum_of (map (λ v. v.now) values.now)
        (map (λ h. (h.0, h.1.now)) held.items)) }
    ensures refused { IfErr result
        (λ e. IsRefusal e.reason (HasOther enum_of (map (λ v. v.now) values.now))) }
{
    let mut held = Vec::new(alloc);
    for value in values {
        match value {
            Value::Enum(variant, payload) => held.push((*variant, &**payload))?,
            _ => return err(Reason::NotOfTheShape),
        }
    }
    Ok(held)
}
