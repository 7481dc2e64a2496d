//! Values of Rust types as `Value`s.
#![tactic(auto)]

ghost use Rattle.std.specs.Prelude.{◌≡◌, Some, None, refl};
ghost use Rattle.std.specs.Float.{binary32, binary64};
ghost use Rattle.bitcode_shapes.specs.Datum.{Datum, number};
ghost use Rattle.bitcode_coder.specs.Columns.{bools, floats, texts};
ghost use Rattle.bitcode_untyped.specs.Leaves.{leaf_of, char_leaf};
ghost use Rattle.bitcode_untyped.specs.declared.value.Value.{Value};
ghost use Rattle.bitcode_untyped.specs.declared.value.Value.TheOpen.{Value-F};
ghost use Rattle.bitcode_untyped.specs.declared.value.Value.TheVariants as value;
ghost use Rattle.bitcode_schema.specs.Forms.{Content, leaf_content};
ghost use Rattle.bitcode_schema.specs.Leaves.{int_leaf};
ghost use Rattle.bitcode_schema.specs.Making.{payload_unit};
ghost use Rattle.bitcode_schema.specs.LeafValues.{leaf_made, unit_made};
ghost use Rattle.bitcode_schema.specs.declared.schema.IntKind.TheVariants as int;

use bitcode_shapes::nanosecond::Nanosecond;
use bitcode_shapes::shaped::Shaped;
use bitcode_untyped::value::Value;

/// A type whose values become `Value`s.
pub trait Becomes: Shaped {
    // the datum of such a `Value`
    ghost content: { Content };

    // the `Value`
    ghost held: { Self → Value };

    /// The value as a `Value`.
    fn value(self) -> Value
        ensures { result ≡ held self };

    // it has the datum that the value is made from
    ghost made: { (t : Self) (d : Datum) → Self.data.makes d t → content (held t) ≡ Some d };
}

impl Becomes for () {
    ghost content = { payload_unit };

    ghost held = { λ t. value.Unit };

    fn value(self) -> Value {
        Value::Unit
    }

    ghost made = { λ t d is. unit_made d is };
}

impl Becomes for Nanosecond {
    ghost content = { leaf_content (Some (int_leaf int.U32)) };

    ghost held = { λ t. value.U32 t.nanos };

    fn value(self) -> Value {
        Value::U32(self.into_inner())
    }

    ghost made = { λ t d is. leaf_made (Some (int_leaf int.U32)) (Value-F.U32 t.nanos)
        (value.U32 t.nanos) d _ (value.rolls-U32 t.nanos) refl is };
}

impl Becomes for bool {
    ghost content = { leaf_content (Some (leaf_of bools)) };

    ghost held = { λ t. value.Bool t };

    fn value(self) -> Value {
        Value::Bool(self)
    }

    ghost made = { λ t d is. leaf_made (Some (leaf_of bools)) (Value-F.Bool t)
        (value.Bool t) d _ (value.rolls-Bool t) refl is };
}

impl Becomes for char {
    ghost content = { leaf_content (Some char_leaf) };

    ghost held = { λ t. value.Char t };

    fn value(self) -> Value {
        Value::Char(self)
    }

    ghost made = { λ t d is. leaf_made (Some char_leaf) (Value-F.Char t)
        (value.Char t) d _ (value.rolls-Char t) refl is };
}

impl Becomes for u8 {
    ghost content = { leaf_content (Some (int_leaf int.U8)) };

    ghost held = { λ t. value.U8 t };

    fn value(self) -> Value {
        Value::U8(self)
    }

    ghost made = { λ t d is. leaf_made (Some (int_leaf int.U8)) (Value-F.U8 t)
        (value.U8 t) d _ (value.rolls-U8 t) refl is };
}

impl Becomes for u16 {
    ghost content = { leaf_content (Some (int_leaf int.U16)) };

    ghost held = { λ t. value.U16 t };

    fn value(self) -> Value {
        Value::U16(self)
    }

    ghost made = { λ t d is. leaf_made (Some (int_leaf int.U16)) (Value-F.U16 t)
        (value.U16 t) d _ (value.rolls-U16 t) refl is };
}

impl Becomes for u32 {
    ghost content = { leaf_content (Some (int_leaf int.U32)) };

    ghost held = { λ t. value.U32 t };

    fn value(self) -> Value {
        Value::U32(self)
    }

    ghost made = { λ t d is. leaf_made (Some (int_leaf int.U32)) (Value-F.U32 t)
        (value.U32 t) d _ (value.rolls-U32 t) refl is };
}

impl Becomes for u64 {
    ghost content = { leaf_content (Some (int_leaf int.U64)) };

    ghost held = { λ t. value.U64 t };

    fn value(self) -> Value {
        Value::U64(self)
    }

    ghost made = { λ t d is. leaf_made (Some (int_leaf int.U64)) (Value-F.U64 t)
        (value.U64 t) d _ (value.rolls-U64 t) refl is };
}

impl Becomes for u128 {
    ghost content = { leaf_content (Some (int_leaf int.U128)) };

    ghost held = { λ t. value.U128 t };

    fn value(self) -> Value {
        Value::U128(self)
    }

    ghost made = { λ t d is. leaf_made (Some (int_leaf int.U128)) (Value-F.U128 t)
        (value.U128 t) d _ (value.rolls-U128 t) refl is };
}

impl Becomes for i8 {
    ghost content = { leaf_content (Some (int_leaf int.I8)) };

    ghost held = { λ t. value.I8 t };

    fn value(self) -> Value {
        Value::I8(self)
    }

    ghost made = { λ t d is. leaf_made (Some (int_leaf int.I8)) (Value-F.I8 t)
        (value.I8 t) d _ (value.rolls-I8 t) refl is };
}

impl Becomes for i16 {
    ghost content = { leaf_content (Some (int_leaf int.I16)) };

    ghost held = { λ t. value.I16 t };

    fn value(self) -> Value {
        Value::I16(self)
    }

    ghost made = { λ t d is. leaf_made (Some (int_leaf int.I16)) (Value-F.I16 t)
        (value.I16 t) d _ (value.rolls-I16 t) refl is };
}

impl Becomes for i32 {
    ghost content = { leaf_content (Some (int_leaf int.I32)) };

    ghost held = { λ t. value.I32 t };

    fn value(self) -> Value {
        Value::I32(self)
    }

    ghost made = { λ t d is. leaf_made (Some (int_leaf int.I32)) (Value-F.I32 t)
        (value.I32 t) d _ (value.rolls-I32 t) refl is };
}

impl Becomes for i64 {
    ghost content = { leaf_content (Some (int_leaf int.I64)) };

    ghost held = { λ t. value.I64 t };

    fn value(self) -> Value {
        Value::I64(self)
    }

    ghost made = { λ t d is. leaf_made (Some (int_leaf int.I64)) (Value-F.I64 t)
        (value.I64 t) d _ (value.rolls-I64 t) refl is };
}

impl Becomes for i128 {
    ghost content = { leaf_content (Some (int_leaf int.I128)) };

    ghost held = { λ t. value.I128 t };

    fn value(self) -> Value {
        Value::I128(self)
    }

    ghost made = { λ t d is. leaf_made (Some (int_leaf int.I128)) (Value-F.I128 t)
        (value.I128 t) d _ (value.rolls-I128 t) refl is };
}

impl Becomes for f32 {
    ghost content = { leaf_content (Some (leaf_of (floats binary32))) };

    ghost held = { λ t. value.F32 t };

    fn value(self) -> Value {
        Value::F32(self)
    }

    ghost made = { λ t d is. leaf_made (Some (leaf_of (floats binary32))) (Value-F.F32 t)
        (value.F32 t) d _ (value.rolls-F32 t) refl is };
}

impl Becomes for f64 {
    ghost content = { leaf_content (Some (leaf_of (floats binary64))) };

    ghost held = { λ t. value.F64 t };

    fn value(self) -> Value {
        Value::F64(self)
    }

    ghost made = { λ t d is. leaf_made (Some (leaf_of (floats binary64))) (Value-F.F64 t)
        (value.F64 t) d _ (value.rolls-F64 t) refl is };
}

impl Becomes for String {
    ghost content = { leaf_content (Some (leaf_of (texts None))) };

    ghost held = { λ t. value.Str t };

    fn value(self) -> Value {
        Value::Str(self)
    }

    ghost made = { λ t d is. leaf_made (Some (leaf_of (texts None))) (Value-F.Str t)
        (value.Str t) d _ (value.rolls-Str t) refl is };
}
