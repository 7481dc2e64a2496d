//! The types whose values are those of one case of `Value`, each an entry of one column.
ghost use Rattle.std.specs.Prelude.{◌≡◌, Some, None, true, false, refl, string_bytes, IfSome, IfNone};
ghost use Rattle.std.specs.Float.{binary32, binary64};
ghost use Rattle.bitcode_shapes.specs.Datum.{Datum, number, text};
ghost use Rattle.bitcode_shapes.specs.Floats.{float_number};
ghost use Rattle.bitcode_coder.specs.Columns.{bools, ints, floats, texts};
ghost use Rattle.bitcode_coder.specs.Spelling.{natural, truth};
ghost use Rattle.bitcode_untyped.specs.Leaves.{Leaf, leaf_of, char_leaf};
ghost use Rattle.bitcode_untyped.specs.declared.value.Value.{Value};
ghost use Rattle.bitcode_untyped.specs.declared.value.Value.TheOpen.{Value-F};
ghost use Rattle.bitcode_untyped.specs.declared.value.Value.TheVariants as value;
ghost use Rattle.bitcode_schema.specs.Cases.{IsEntryAs, CaseLaws, case_laws};

use bitcode_shapes::shaped::Shaped;
use bitcode_untyped::value::Value;

/// A type whose values are those of one case of `Value`, each an entry of one column.
pub trait InCase: Shaped {
    // what the column has
    ghost leaf: { Leaf };

    // the value that holds it
    ghost holder: { Self → Value };

    /// What the value holds, if it has the case.
    fn held(value: &Value) -> Option<&Self>
        ensures some { IfSome result (λ t. value.now ≡ Self.holder t.now) }
        ensures none { IfNone result ((d : Datum) → IsEntryAs Self.leaf value.now d → ⊥) };

    ghost laws: { CaseLaws Self.data.shape Self.data.lists Self.leaf Self.holder };
}

impl InCase for bool {
    ghost leaf = { leaf_of bools };

    ghost holder = { λ t. value.Bool t };

    fn held(value: &Value) -> Option<&bool> {
        match value {
            Value::Bool(held) => Some(held),
            _ => None,
        }
    }

    ghost laws = { case_laws _ _ _ _ (λ t. Value-F.Bool t) (λ t. truth t)
        value.rolls-Bool (λ t. refl)
        (λ t d is. is) (λ ds. refl) (λ ds. tt) (λ d. refl) };
}

impl InCase for u8 {
    ghost leaf = { leaf_of (ints 1 false) };

    ghost holder = { λ t. value.U8 t };

    fn held(value: &Value) -> Option<&u8> {
        match value {
            Value::U8(held) => Some(held),
            _ => None,
        }
    }

    ghost laws = { case_laws _ _ _ _ (λ t. Value-F.U8 t) (λ t. natural t) value.rolls-U8 (λ t. refl)
        (λ t d is. is) (λ ds. refl) (λ ds. tt) (λ d. refl) };
}

impl InCase for u16 {
    ghost leaf = { leaf_of (ints 2 false) };

    ghost holder = { λ t. value.U16 t };

    fn held(value: &Value) -> Option<&u16> {
        match value {
            Value::U16(held) => Some(held),
            _ => None,
        }
    }

    ghost laws = { case_laws _ _ _ _ (λ t. Value-F.U16 t) (λ t. natural t)
        value.rolls-U16 (λ t. refl)
        (λ t d is. is) (λ ds. refl) (λ ds. tt) (λ d. refl) };
}

impl InCase for u32 {
    ghost leaf = { leaf_of (ints 4 false) };

    ghost holder = { λ t. value.U32 t };

    fn held(value: &Value) -> Option<&u32> {
        match value {
            Value::U32(held) => Some(held),
            _ => None,
        }
    }

    ghost laws = { case_laws _ _ _ _ (λ t. Value-F.U32 t) (λ t. natural t)
        value.rolls-U32 (λ t. refl)
        (λ t d is. is) (λ ds. refl) (λ ds. tt) (λ d. refl) };
}

impl InCase for u64 {
    ghost leaf = { leaf_of (ints 8 false) };

    ghost holder = { λ t. value.U64 t };

    fn held(value: &Value) -> Option<&u64> {
        match value {
            Value::U64(held) => Some(held),
            _ => None,
        }
    }

    ghost laws = { case_laws _ _ _ _ (λ t. Value-F.U64 t) (λ t. natural t)
        value.rolls-U64 (λ t. refl)
        (λ t d is. is) (λ ds. refl) (λ ds. tt) (λ d. refl) };
}

impl InCase for u128 {
    ghost leaf = { leaf_of (ints 16 false) };

    ghost holder = { λ t. value.U128 t };

    fn held(value: &Value) -> Option<&u128> {
        match value {
            Value::U128(held) => Some(held),
            _ => None,
        }
    }

    ghost laws = { case_laws _ _ _ _ (λ t. Value-F.U128 t) (λ t. natural t)
        value.rolls-U128 (λ t. refl)
        (λ t d is. is) (λ ds. refl) (λ ds. tt) (λ d. refl) };
}

impl InCase for i8 {
    ghost leaf = { leaf_of (ints 1 true) };

    ghost holder = { λ t. value.I8 t };

    fn held(value: &Value) -> Option<&i8> {
        match value {
            Value::I8(held) => Some(held),
            _ => None,
        }
    }

    ghost laws = { case_laws _ _ _ _ (λ t. Value-F.I8 t) (λ t. number t) value.rolls-I8 (λ t. refl)
        (λ t d is. is) (λ ds. refl) (λ ds. tt) (λ d. refl) };
}

impl InCase for i16 {
    ghost leaf = { leaf_of (ints 2 true) };

    ghost holder = { λ t. value.I16 t };

    fn held(value: &Value) -> Option<&i16> {
        match value {
            Value::I16(held) => Some(held),
            _ => None,
        }
    }

    ghost laws = { case_laws _ _ _ _ (λ t. Value-F.I16 t) (λ t. number t)
        value.rolls-I16 (λ t. refl)
        (λ t d is. is) (λ ds. refl) (λ ds. tt) (λ d. refl) };
}

impl InCase for i32 {
    ghost leaf = { leaf_of (ints 4 true) };

    ghost holder = { λ t. value.I32 t };

    fn held(value: &Value) -> Option<&i32> {
        match value {
            Value::I32(held) => Some(held),
            _ => None,
        }
    }

    ghost laws = { case_laws _ _ _ _ (λ t. Value-F.I32 t) (λ t. number t)
        value.rolls-I32 (λ t. refl)
        (λ t d is. is) (λ ds. refl) (λ ds. tt) (λ d. refl) };
}

impl InCase for i64 {
    ghost leaf = { leaf_of (ints 8 true) };

    ghost holder = { λ t. value.I64 t };

    fn held(value: &Value) -> Option<&i64> {
        match value {
            Value::I64(held) => Some(held),
            _ => None,
        }
    }

    ghost laws = { case_laws _ _ _ _ (λ t. Value-F.I64 t) (λ t. number t)
        value.rolls-I64 (λ t. refl)
        (λ t d is. is) (λ ds. refl) (λ ds. tt) (λ d. refl) };
}

impl InCase for i128 {
    ghost leaf = { leaf_of (ints 16 true) };

    ghost holder = { λ t. value.I128 t };

    fn held(value: &Value) -> Option<&i128> {
        match value {
            Value::I128(held) => Some(held),
            _ => None,
        }
    }

    ghost laws = { case_laws _ _ _ _ (λ t. Value-F.I128 t) (λ t. number t)
        value.rolls-I128 (λ t. refl)
        (λ t d is. is) (λ ds. refl) (λ ds. tt) (λ d. refl) };
}

impl InCase for f32 {
    ghost leaf = { leaf_of (floats binary32) };

    ghost holder = { λ t. value.F32 t };

    fn held(value: &Value) -> Option<&f32> {
        match value {
            Value::F32(held) => Some(held),
            _ => None,
        }
    }

    ghost laws = { case_laws _ _ _ _ (λ t. Value-F.F32 t) (λ t. number (float_number binary32 t))
        value.rolls-F32 (λ t. refl)
        (λ t d is. is) (λ ds. refl) (λ ds. tt) (λ d. refl) };
}

impl InCase for f64 {
    ghost leaf = { leaf_of (floats binary64) };

    ghost holder = { λ t. value.F64 t };

    fn held(value: &Value) -> Option<&f64> {
        match value {
            Value::F64(held) => Some(held),
            _ => None,
        }
    }

    ghost laws = { case_laws _ _ _ _ (λ t. Value-F.F64 t) (λ t. number (float_number binary64 t))
        value.rolls-F64 (λ t. refl)
        (λ t d is. is) (λ ds. refl) (λ ds. tt) (λ d. refl) };
}

impl InCase for char {
    ghost leaf = { char_leaf };

    ghost holder = { λ t. value.Char t };

    fn held(value: &Value) -> Option<&char> {
        match value {
            Value::Char(held) => Some(held),
            _ => None,
        }
    }

    ghost laws = { case_laws _ _ _ _ (λ t. Value-F.Char t) (λ t. natural t)
        value.rolls-Char (λ t. refl)
        (λ t d is. is) (λ ds. refl) (λ ds. tt) (λ d. refl) };
}

impl InCase for String {
    ghost leaf = { leaf_of (texts None) };

    ghost holder = { λ t. value.Str t };

    fn held(value: &Value) -> Option<&String> {
        match value {
            Value::Str(held) => Some(held),
            _ => None,
        }
    }

    ghost laws = { case_laws _ _ _ _ (λ t. Value-F.Str t) (λ t. text (string_bytes t))
        value.rolls-Str (λ t. refl)
        (λ t d is. is) (λ ds. refl) (λ ds. tt) (λ d. refl) };
}
