//! Writing chars, which are entries of a column of numbers.
#![tactic(auto)]

ghost use Rattle.std.specs.Prelude.{IfOk, IfErr};
ghost use Rattle.bitcode_serde.specs.Serializing.{IsEntryAt, HasOneFault};
ghost use Rattle.bitcode_serde.specs.WrittenColumns.{kind_of_entry, datum_of_entry};

use crate::write_column::Entry;
use bitcode_memory::error::{Error, Reason};
use bitcode_memory::refuse::err;
use bitcode_untyped::shape::ShapeNode;
use bitcode_untyped::value::Value;

/// The entry for a char.
///
/// If the value is no char, the error is `value is not of the shape`.
pub fn char_entry(value: &Value) -> Result<Entry, Error>
    ensures entry { IfOk result
        (λ entry. IsEntryAt ShapeNode.Char value.now (kind_of_entry entry) (datum_of_entry entry)) }
    ensures refused { IfErr result (λ e. HasOneFault ShapeNode.Char value.now e.reason) }
{
    match value {
        Value::Char(c) => Ok(Entry::Code(*c as u32)),
        _ => err(Reason::NotOfTheShape),
    }
}
