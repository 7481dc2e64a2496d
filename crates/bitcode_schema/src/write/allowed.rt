//! Values that a node allows.
ghost use Rattle.std.specs.Prelude.{Some, None, All, map, MatchBool};
ghost use Rattle.bitcode_coder.specs.Columns.{texts};
ghost use Rattle.bitcode_shapes.specs.Checked.{nonzero_shape, nanosecond_shape};
ghost use Rattle.bitcode_shapes.specs.Shape.{text_shape};
ghost use Rattle.bitcode_untyped.specs.Leaves.{leaf_of};
ghost use Rattle.bitcode_schema.specs.Allowing.{AsEntry, IsZero, IsNonzero, IsBelowSecond, IsShort};
ghost use Rattle.bitcode_schema.specs.Forms.{leaf_content};
ghost use Rattle.bitcode_schema.specs.Leaves.{int_leaf, width_of, is_signed};
ghost use Rattle.bitcode_schema.specs.Writing.{HasStranger};
ghost use Rattle.bitcode_schema.specs.declared.schema.IntKind.{IntKind};
ghost use Rattle.bitcode_schema.specs.declared.schema.IntKind.TheVariants as int;

use bitcode_untyped::value::Value;

// The greatest number of nanoseconds below a second.
const MOST_NANOSECONDS: u32 = 999_999_999;

// Whether a value is the integer 0 of some type.
fn is_zero(value: &Value) -> bool
    ensures { (kind : IntKind) → MatchBool result (AsEntry (int_leaf kind) IsZero value.now)
        (AsEntry (int_leaf kind) IsNonzero value.now) }
{
    match value {
        Value::U8(n) => *n == 0,
        Value::U16(n) => *n == 0,
        Value::U32(n) => *n == 0,
        Value::U64(n) => *n == 0,
        Value::U128(n) => *n == 0,
        Value::I8(n) => *n == 0,
        Value::I16(n) => *n == 0,
        Value::I32(n) => *n == 0,
        Value::I64(n) => *n == 0,
        Value::I128(n) => *n == 0,
        _ => false,
    }
}

/// Whether none of the values is an integer 0.
pub fn are_nonzero(values: &[&Value]) -> bool
    ensures { (kind : IntKind) → MatchBool result
        (All (AsEntry (int_leaf kind) IsNonzero) (map (λ v. v.now) values.now))
        (HasStranger (leaf_content (Some (int_leaf kind)))
        (nonzero_shape (width_of kind) (is_signed kind)) (map (λ v. v.now) values.now)) }
{
    for value in values {
        if is_zero(value) {
            return false;
        }
    }
    true
}

// Whether a value is a text of more bytes.
fn is_long(limit: usize, value: &Value) -> bool
    ensures { MatchBool result
        (AsEntry (leaf_of (texts None)) (λ d. IsShort limit d → ⊥) value.now)
        (AsEntry (leaf_of (texts None)) (IsShort limit) value.now) }
{
    match value {
        Value::Str(text) => text.len() > limit,
        _ => false,
    }
}

/// Whether each of the texts has at most so many bytes.
pub fn are_short(limit: usize, values: &[&Value]) -> bool
    ensures { MatchBool result
        (All (AsEntry (leaf_of (texts None)) (IsShort limit)) (map (λ v. v.now) values.now))
        (HasStranger (leaf_content (Some (leaf_of (texts None)))) (text_shape (Some limit))
        (map (λ v. v.now) values.now)) }
{
    for value in values {
        if is_long(limit, value) {
            return false;
        }
    }
    true
}

// Whether a value is a number of nanoseconds of a second or more.
fn is_second(value: &Value) -> bool
    ensures { MatchBool result (AsEntry (int_leaf int.U32) (λ d. IsBelowSecond d → ⊥) value.now)
        (AsEntry (int_leaf int.U32) IsBelowSecond value.now) }
{
    match value {
        Value::U32(n) => *n > MOST_NANOSECONDS,
        _ => false,
    }
}

/// Whether each of the numbers is one of nanoseconds below a second.
pub fn are_below_second(values: &[&Value]) -> bool
    ensures { MatchBool result
        (All (AsEntry (int_leaf int.U32) IsBelowSecond) (map (λ v. v.now) values.now))
        (HasStranger (leaf_content (Some (int_leaf int.U32))) nanosecond_shape
        (map (λ v. v.now) values.now)) }
{
    for value in values {
        if is_second(value) {
            return false;
        }
    }
    true
}
