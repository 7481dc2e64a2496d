//! Checking bytes by a schema, without making a value.
ghost use Rattle.std.specs.Prelude.{◌≢◌, ◌↔◌, ℕ, true, IsTrue, IfOk, OnOk, IfErr};
ghost use Rattle.bitcode_shapes.specs.Datum.{Datum};
ghost use Rattle.bitcode_coder.specs.Coder.{IsReadingReason};
ghost use Rattle.bitcode_derive.specs.Strict.{StrictlySpellsDatum, IsStrictRefusal};
ghost use Rattle.bitcode_derive.specs.Whole.{SpellsDatum, SpellsAtMostOne, IsBoundedByBytes, NamesWholeFault};
ghost use Rattle.bitcode_schema.specs.Forms.{shape_of};

use crate::read::read;
use crate::schema::Schema;
use bitcode_memory::consume::expect_eof;
use bitcode_memory::error::{Error, Reason};
use bitcode_memory::refuse::err;
use std::alloc::Global;

// Reads all bytes. If `strict`, it returns whether they are those that are written.
fn check(alloc: Global, schema: &Schema, bytes: &[u8], strict: bool) -> Result<bool, Error>
    ensures spelled { IfOk result
        (λ written. (d : Datum) × (SpellsDatum (shape_of schema.now.root) bytes.now d
        × (IsTrue strict → IsTrue written
        ↔ StrictlySpellsDatum (shape_of schema.now.root) bytes.now d))) }
    ensures exact { IfErr result
        (λ e. NamesWholeFault true (shape_of schema.now.root) e.reason bytes.now) }
{
    let mut input = bytes;
    let written = read(alloc, schema.root(), &mut input, 1, strict)?;
    expect_eof(input)?;
    Ok(written)
}

/// Checks that the bytes encode exactly one value of the schema. It makes no value, and accepts no trailing bytes.
///
/// Errors: the first fault of the input, `Expected EOF` if bytes are left after the value, and `out of memory` if an
/// allocation for a column fails, once all its bytes are there. Every other error means that the bytes encode no value
/// of the schema.
///
/// ```
/// let fields = vec![in alloc; SchemaNode::Bool, SchemaNode::Int(IntKind::U16)]?;
/// let schema = Schema::new(SchemaNode::Tuple(fields))?;
/// check_value(alloc, &schema, &[1, 7, 0])?; // true and 7
/// check_value(alloc, &schema, &[1, 7])?; // `EOF`
/// ```
pub fn check_value(alloc: Global, schema: &Schema, bytes: &[u8]) -> Result<(), Error>
    ensures spelled { OnOk result
        ((d : Datum) × SpellsDatum (shape_of schema.now.root) bytes.now d) }
    ensures unambiguous { SpellsAtMostOne (shape_of schema.now.root) bytes.now }
    ensures bounded { IsBoundedByBytes (shape_of schema.now.root) bytes.now }
    ensures reasons { IfErr result (λ e. IsReadingReason e.reason) }
    ensures refused { IfErr result
        (λ e. e.reason ≢ Reason.OutOfMemory → (d : Datum)
        → SpellsDatum (shape_of schema.now.root) bytes.now d → ⊥) }
    ensures exact { IfErr result
        (λ e. NamesWholeFault true (shape_of schema.now.root) e.reason bytes.now) }
{
    let _written = check(alloc, schema, bytes, false)?;
    Ok(())
}

/// Checks the bytes as [`check_value`] does, and accepts only those that are written for the entries of each column.
///
/// Errors: those of `check_value`, and `not the written text` if the bytes encode a value but some column has different
/// bytes. If the bytes have another fault, the error is that fault.
///
/// ```
/// let schema = Schema::new(SchemaNode::Bool)?;
/// check_value_strict(alloc, &schema, &[1])?;
/// check_value_strict(alloc, &schema, &[255])?; // `not the written text`: the unused digits are not 0
/// ```
pub fn check_value_strict(alloc: Global, schema: &Schema, bytes: &[u8]) -> Result<(), Error>
    ensures spelled { OnOk result
        ((d : Datum) × StrictlySpellsDatum (shape_of schema.now.root) bytes.now d) }
    ensures unambiguous { SpellsAtMostOne (shape_of schema.now.root) bytes.now }
    ensures bounded { IsBoundedByBytes (shape_of schema.now.root) bytes.now }
    ensures refused { IfErr result
        (λ e. IsStrictRefusal (shape_of schema.now.root) e.reason bytes.now) }
    ensures exact { IfErr result
        (λ e. e.reason ≢ Reason.NotTheWrittenText
        → NamesWholeFault true (shape_of schema.now.root) e.reason bytes.now) }
{
    let written = check(alloc, schema, bytes, true)?;
    if !written {
        return err(Reason::NotTheWrittenText);
    }
    Ok(())
}
