//! The leaves that hold floats.
ghost use Rattle.std.specs.Prelude.{refl};
ghost use Rattle.std.specs.Float.{binary32, binary64};
ghost use Rattle.bitcode_shapes.specs.Datum.{number};
ghost use Rattle.bitcode_shapes.specs.Floats.{float_number};
ghost use Rattle.bitcode_untyped.specs.declared.shape.ShapeNode.TheOpen.{ShapeNode-F};
ghost use Rattle.bitcode_untyped.specs.declared.value.Value.TheOpen.{Value-F};
ghost use Rattle.bitcode_serde.specs.CaseLaws.{case_laws};
ghost use Rattle.bitcode_serde.specs.ColumnReasons.{floats_reason};
ghost use Rattle.bitcode_untyped.specs.declared.shape.ShapeNode.TheVariants as node;
ghost use Rattle.bitcode_untyped.specs.declared.value.Value.TheVariants as value;
ghost use Rattle.bitcode_serde.specs.declared.column.ColumnKind.TheVariants as kind;

use crate::case::Case;
use crate::column::ColumnKind;
use bitcode_untyped::value::Value;

impl Case for f32 {
    ghost kind = { kind.F32 };

    ghost node = { node.F32 };

    ghost holder = { λ t. value.F32 t };

    fn column() -> ColumnKind {
        ColumnKind::F32
    }

    fn held(value: &Value) -> Option<&f32> {
        match value {
            Value::F32(held) => Some(held),
            _ => None,
        }
    }

    fn into_value(self) -> Value {
        Value::F32(self)
    }

    ghost laws = { case_laws _ _ _ _ _ _ ShapeNode-F.F32 (λ t. Value-F.F32 t)
        (λ t. number (float_number binary32 t))
        node.rolls-F32 value.rolls-F32 refl (λ t. refl) (λ ds. refl) (λ ds. refl) (λ d is. is)
        (λ d is. is) (λ t d is. is) (λ t d is. is) (floats_reason binary32) };
}

impl Case for f64 {
    ghost kind = { kind.F64 };

    ghost node = { node.F64 };

    ghost holder = { λ t. value.F64 t };

    fn column() -> ColumnKind {
        ColumnKind::F64
    }

    fn held(value: &Value) -> Option<&f64> {
        match value {
            Value::F64(held) => Some(held),
            _ => None,
        }
    }

    fn into_value(self) -> Value {
        Value::F64(self)
    }

    ghost laws = { case_laws _ _ _ _ _ _ ShapeNode-F.F64 (λ t. Value-F.F64 t)
        (λ t. number (float_number binary64 t))
        node.rolls-F64 value.rolls-F64 refl (λ t. refl) (λ ds. refl) (λ ds. refl) (λ d is. is)
        (λ d is. is) (λ t d is. is) (λ t d is. is) (floats_reason binary64) };
}
