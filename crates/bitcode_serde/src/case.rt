//! The payload types of those cases of `Value` that are entries of one column.
ghost use Rattle.std.specs.Prelude.{◌≡◌, IfSome, IfNone};
ghost use Rattle.bitcode_untyped.specs.declared.shape.ShapeNode.{ShapeNode};
ghost use Rattle.bitcode_untyped.specs.declared.value.Value.{Value};
ghost use Rattle.bitcode_serde.specs.CaseLaws.{CaseLaws};
ghost use Rattle.bitcode_serde.specs.ReadColumns.{IsCaseOf};
ghost use Rattle.bitcode_serde.specs.declared.column.ColumnKind.{ColumnKind};

use crate::column::ColumnKind;
use bitcode_shapes::shaped::Shaped;
use bitcode_untyped::value::Value;

/// The payload type of a case of [`Value`] whose values are entries of one column.
pub trait Case: Shaped {
    // what the column holds
    ghost kind: { ColumnKind };

    // the node of such values
    ghost node: { ShapeNode };

    // the value that holds it
    ghost holder: { Self → Value };

    /// What the column contains.
    fn column() -> ColumnKind
        ensures { result ≡ Self.kind };

    /// The payload, if the value has this case.
    fn held(value: &Value) -> Option<&Self>
        ensures some { IfSome result (λ t. value.now ≡ Self.holder t.now) }
        ensures none { IfNone result (IsCaseOf Self.kind value.now → ⊥) };

    /// The value with this payload.
    fn into_value(self) -> Value
        ensures { result ≡ Self.holder self };

    ghost laws: { CaseLaws Self.data.shape Self.data.lists Self.data.makes Self.kind Self.node
        Self.holder };
}
