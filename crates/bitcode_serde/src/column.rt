//! The kinds of columns. Each leaf with a column of its own has a line in each list here, and an `impl` of `Case`.
#![tactic(auto)]

ghost use Rattle.std.specs.Prelude.{◌≡◌, ◌≢◌, MatchBool, IfSome, IfNone, true, false, refl, string_bytes};
ghost use Rattle.bitcode_shapes.specs.Datum.{number, text};
ghost use Rattle.bitcode_coder.specs.Spelling.{natural, truth};
ghost use Rattle.bitcode_untyped.specs.declared.shape.ShapeNode.TheOpen.{ShapeNode-F};
ghost use Rattle.bitcode_untyped.specs.declared.value.Value.TheOpen.{Value-F};
ghost use Rattle.bitcode_serde.specs.CaseLaws.{case_laws};
ghost use Rattle.bitcode_serde.specs.ColumnReasons.{bools_reason, numbers_reason, texts_reason};
ghost use Rattle.bitcode_untyped.specs.declared.shape.ShapeNode.TheVariants as node;
ghost use Rattle.bitcode_untyped.specs.declared.value.Value.TheVariants as value;
ghost use Rattle.bitcode_serde.specs.Kinds.{kind_index};
ghost use Rattle.bitcode_serde.specs.ReadColumns.{kind_of};
ghost use Rattle.bitcode_serde.specs.ReadingValues.{HasColumn};
ghost use Rattle.bitcode_serde.specs.Serializing.{IsLeaf};
ghost use Rattle.bitcode_serde.specs.declared.column.ColumnKind.TheVariants as kind;

use crate::case::Case;
use crate::serde::VariantDecoder;
use bitcode_coder::bool::{BoolDecoder, BoolEncoder};
use bitcode_coder::length::{LengthDecoder, LengthEncoder};
use bitcode_coder::str::{StrDecoder, StrEncoder};
use bitcode_floats::float32::{F32Decoder, F32Encoder};
use bitcode_floats::float64::{F64Decoder, F64Encoder};
use bitcode_ints::int::IntEncoder;
use bitcode_ints::signed_coders::{
    I8Decoder, I8Encoder, I16Decoder, I16Encoder, I32Decoder, I32Encoder, I64Decoder, I64Encoder,
    I128Decoder, I128Encoder,
};
use bitcode_ints::unsigned_coders::{
    U16Decoder, U16Encoder, U32Decoder, U32Encoder, U64Decoder, U64Encoder, U128Decoder,
    U128Encoder,
};
use bitcode_untyped::shape::ShapeNode;
use bitcode_untyped::value::Value;

/// What a column contains.
#[derive(Clone, Copy, PartialEq, Eq)]
pub enum ColumnKind {
    Bools,
    /// Numbers of one byte, and indices of variants.
    Bytes,
    U16,
    /// Numbers of four bytes, and codes of chars.
    U32,
    U64,
    U128,
    I8,
    I16,
    I32,
    I64,
    I128,
    F32,
    F64,
    Lengths,
    Texts,
}

impl ColumnKind {
    // Where the kind stands among all kinds.
    fn number(self) -> u8
        ensures { result ≡ kind_index self }
    {
        self as u8
    }

    /// Whether the two kinds are equal.
    #[tactic(auto, using(crate::proofs::KindLemmas::same_index, crate::proofs::KindLemmas::other_index))]
    pub fn is(self, other: ColumnKind) -> bool
        ensures { MatchBool result (kind_of self ≡ kind_of other) (kind_of self ≢ kind_of other) }
    {
        if self.number() == other.number() {
            return true;
        }
        false
    }
}

/// An open column: its remaining entries.
#[derive(Drop)]
pub enum Column<'a> {
    Bools(BoolDecoder<'a>),
    Bytes(VariantDecoder<'a>),
    U16(U16Decoder<'a>),
    U32(U32Decoder<'a>),
    U64(U64Decoder<'a>),
    U128(U128Decoder<'a>),
    I8(I8Decoder<'a>),
    I16(I16Decoder<'a>),
    I32(I32Decoder<'a>),
    I64(I64Decoder<'a>),
    I128(I128Decoder<'a>),
    F32(F32Decoder<'a>),
    F64(F64Decoder<'a>),
    Lengths(LengthDecoder<'a>),
    Texts(StrDecoder<'a>),
}

/// A column that entries are written to.
#[derive(Drop)]
pub enum WrittenColumn {
    Bools(BoolEncoder),
    // Whole slices are written to it, by `IntEncoder::extend`.
    Bytes(IntEncoder<u8>),
    U16(U16Encoder),
    U32(U32Encoder),
    U64(U64Encoder),
    U128(U128Encoder),
    I8(I8Encoder),
    I16(I16Encoder),
    I32(I32Encoder),
    I64(I64Encoder),
    I128(I128Encoder),
    F32(F32Encoder),
    F64(F64Encoder),
    Lengths(LengthEncoder),
    Texts(StrEncoder),
}

// The leaves, each by the kind of its column and the type of its values. Bytes are left out: their columns also hold
// the indices of variants, and a reader counts these.
macro_rules! for_leaves {
    ($then:ident $given:tt) => {
        $then! {
            $given
            Bools: bool,
            U16: u16,
            U32: u32,
            U64: u64,
            U128: u128,
            I8: i8,
            I16: i16,
            I32: i32,
            I64: i64,
            I128: i128,
            F32: f32,
            F64: f64,
            Texts: String,
        }
    };
}

pub(crate) use for_leaves;

/// The kind of the column whose entries are the values of a node, if there is one.
#[inline(always)]
pub fn column_kind(node: &ShapeNode) -> Option<ColumnKind>
    ensures some { IfSome result (λ kind. HasColumn node.now kind) }
    ensures none { IfNone result (IsLeaf node.now → node.now ≡ ShapeNode.Char) }
{
    match node {
        ShapeNode::Bool => Some(kind_at::<bool>(node)),
        ShapeNode::U8 => Some(kind_at::<u8>(node)),
        ShapeNode::U16 => Some(kind_at::<u16>(node)),
        ShapeNode::U32 => Some(kind_at::<u32>(node)),
        ShapeNode::U64 => Some(kind_at::<u64>(node)),
        ShapeNode::U128 => Some(kind_at::<u128>(node)),
        ShapeNode::I8 => Some(kind_at::<i8>(node)),
        ShapeNode::I16 => Some(kind_at::<i16>(node)),
        ShapeNode::I32 => Some(kind_at::<i32>(node)),
        ShapeNode::I64 => Some(kind_at::<i64>(node)),
        ShapeNode::I128 => Some(kind_at::<i128>(node)),
        ShapeNode::F32 => Some(kind_at::<f32>(node)),
        ShapeNode::F64 => Some(kind_at::<f64>(node)),
        ShapeNode::Str => Some(kind_at::<String>(node)),
        // These have no column of their own.
        ShapeNode::Unit => None,
        ShapeNode::Char => None,
        ShapeNode::Bytes => None,
        ShapeNode::Option(_) => None,
        ShapeNode::Seq(_) => None,
        ShapeNode::Map(_, _) => None,
        ShapeNode::Tuple(_) => None,
        ShapeNode::Enum(_) => None,
        ShapeNode::Ref(_) => None,
    }
}

// The kind of the column of a node that is a leaf.
#[inline(always)]
fn kind_at<T: Case>(_node: &ShapeNode) -> ColumnKind
    requires { _node.now ≡ T.node }
    ensures { HasColumn _node.now result }
{
    T::column()
}

impl Case for bool {
    ghost kind = { kind.Bools };

    ghost node = { node.Bool };

    ghost holder = { λ t. value.Bool t };

    fn column() -> ColumnKind {
        ColumnKind::Bools
    }

    fn held(value: &Value) -> Option<&bool> {
        match value {
            Value::Bool(held) => Some(held),
            _ => None,
        }
    }

    fn into_value(self) -> Value {
        Value::Bool(self)
    }

    ghost laws = { case_laws _ _ _ _ _ _ ShapeNode-F.Bool (λ t. Value-F.Bool t) (λ t. truth t)
        node.rolls-Bool value.rolls-Bool refl (λ t. refl) (λ ds. refl) (λ ds. refl) (λ d is. is)
        (λ d is. is) (λ t d is. is) (λ t d is. is) bools_reason };
}

impl Case for u8 {
    ghost kind = { kind.Bytes };

    ghost node = { node.U8 };

    ghost holder = { λ t. value.U8 t };

    fn column() -> ColumnKind {
        ColumnKind::Bytes
    }

    fn held(value: &Value) -> Option<&u8> {
        match value {
            Value::U8(held) => Some(held),
            _ => None,
        }
    }

    fn into_value(self) -> Value {
        Value::U8(self)
    }

    ghost laws = { case_laws _ _ _ _ _ _ ShapeNode-F.U8 (λ t. Value-F.U8 t) (λ t. natural t)
        node.rolls-U8 value.rolls-U8 refl (λ t. refl) (λ ds. refl) (λ ds. refl) (λ d is. is)
        (λ d is. is) (λ t d is. is) (λ t d is. is) (numbers_reason 1 false) };
}

impl Case for u16 {
    ghost kind = { kind.U16 };

    ghost node = { node.U16 };

    ghost holder = { λ t. value.U16 t };

    fn column() -> ColumnKind {
        ColumnKind::U16
    }

    fn held(value: &Value) -> Option<&u16> {
        match value {
            Value::U16(held) => Some(held),
            _ => None,
        }
    }

    fn into_value(self) -> Value {
        Value::U16(self)
    }

    ghost laws = { case_laws _ _ _ _ _ _ ShapeNode-F.U16 (λ t. Value-F.U16 t) (λ t. natural t)
        node.rolls-U16 value.rolls-U16 refl (λ t. refl) (λ ds. refl) (λ ds. refl) (λ d is. is)
        (λ d is. is) (λ t d is. is) (λ t d is. is) (numbers_reason 2 false) };
}

impl Case for u32 {
    ghost kind = { kind.U32 };

    ghost node = { node.U32 };

    ghost holder = { λ t. value.U32 t };

    fn column() -> ColumnKind {
        ColumnKind::U32
    }

    fn held(value: &Value) -> Option<&u32> {
        match value {
            Value::U32(held) => Some(held),
            _ => None,
        }
    }

    fn into_value(self) -> Value {
        Value::U32(self)
    }

    ghost laws = { case_laws _ _ _ _ _ _ ShapeNode-F.U32 (λ t. Value-F.U32 t) (λ t. natural t)
        node.rolls-U32 value.rolls-U32 refl (λ t. refl) (λ ds. refl) (λ ds. refl) (λ d is. is)
        (λ d is. is) (λ t d is. is) (λ t d is. is) (numbers_reason 4 false) };
}

impl Case for u64 {
    ghost kind = { kind.U64 };

    ghost node = { node.U64 };

    ghost holder = { λ t. value.U64 t };

    fn column() -> ColumnKind {
        ColumnKind::U64
    }

    fn held(value: &Value) -> Option<&u64> {
        match value {
            Value::U64(held) => Some(held),
            _ => None,
        }
    }

    fn into_value(self) -> Value {
        Value::U64(self)
    }

    ghost laws = { case_laws _ _ _ _ _ _ ShapeNode-F.U64 (λ t. Value-F.U64 t) (λ t. natural t)
        node.rolls-U64 value.rolls-U64 refl (λ t. refl) (λ ds. refl) (λ ds. refl) (λ d is. is)
        (λ d is. is) (λ t d is. is) (λ t d is. is) (numbers_reason 8 false) };
}

impl Case for u128 {
    ghost kind = { kind.U128 };

    ghost node = { node.U128 };

    ghost holder = { λ t. value.U128 t };

    fn column() -> ColumnKind {
        ColumnKind::U128
    }

    fn held(value: &Value) -> Option<&u128> {
        match value {
            Value::U128(held) => Some(held),
            _ => None,
        }
    }

    fn into_value(self) -> Value {
        Value::U128(self)
    }

    ghost laws = { case_laws _ _ _ _ _ _ ShapeNode-F.U128 (λ t. Value-F.U128 t) (λ t. natural t)
        node.rolls-U128 value.rolls-U128 refl (λ t. refl) (λ ds. refl) (λ ds. refl) (λ d is. is)
        (λ d is. is) (λ t d is. is) (λ t d is. is) (numbers_reason 16 false) };
}

impl Case for i8 {
    ghost kind = { kind.I8 };

    ghost node = { node.I8 };

    ghost holder = { λ t. value.I8 t };

    fn column() -> ColumnKind {
        ColumnKind::I8
    }

    fn held(value: &Value) -> Option<&i8> {
        match value {
            Value::I8(held) => Some(held),
            _ => None,
        }
    }

    fn into_value(self) -> Value {
        Value::I8(self)
    }

    ghost laws = { case_laws _ _ _ _ _ _ ShapeNode-F.I8 (λ t. Value-F.I8 t) (λ t. number t)
        node.rolls-I8 value.rolls-I8 refl (λ t. refl) (λ ds. refl) (λ ds. refl) (λ d is. is)
        (λ d is. is) (λ t d is. is) (λ t d is. is) (numbers_reason 1 true) };
}

impl Case for i16 {
    ghost kind = { kind.I16 };

    ghost node = { node.I16 };

    ghost holder = { λ t. value.I16 t };

    fn column() -> ColumnKind {
        ColumnKind::I16
    }

    fn held(value: &Value) -> Option<&i16> {
        match value {
            Value::I16(held) => Some(held),
            _ => None,
        }
    }

    fn into_value(self) -> Value {
        Value::I16(self)
    }

    ghost laws = { case_laws _ _ _ _ _ _ ShapeNode-F.I16 (λ t. Value-F.I16 t) (λ t. number t)
        node.rolls-I16 value.rolls-I16 refl (λ t. refl) (λ ds. refl) (λ ds. refl) (λ d is. is)
        (λ d is. is) (λ t d is. is) (λ t d is. is) (numbers_reason 2 true) };
}

impl Case for i32 {
    ghost kind = { kind.I32 };

    ghost node = { node.I32 };

    ghost holder = { λ t. value.I32 t };

    fn column() -> ColumnKind {
        ColumnKind::I32
    }

    fn held(value: &Value) -> Option<&i32> {
        match value {
            Value::I32(held) => Some(held),
            _ => None,
        }
    }

    fn into_value(self) -> Value {
        Value::I32(self)
    }

    ghost laws = { case_laws _ _ _ _ _ _ ShapeNode-F.I32 (λ t. Value-F.I32 t) (λ t. number t)
        node.rolls-I32 value.rolls-I32 refl (λ t. refl) (λ ds. refl) (λ ds. refl) (λ d is. is)
        (λ d is. is) (λ t d is. is) (λ t d is. is) (numbers_reason 4 true) };
}

impl Case for i64 {
    ghost kind = { kind.I64 };

    ghost node = { node.I64 };

    ghost holder = { λ t. value.I64 t };

    fn column() -> ColumnKind {
        ColumnKind::I64
    }

    fn held(value: &Value) -> Option<&i64> {
        match value {
            Value::I64(held) => Some(held),
            _ => None,
        }
    }

    fn into_value(self) -> Value {
        Value::I64(self)
    }

    ghost laws = { case_laws _ _ _ _ _ _ ShapeNode-F.I64 (λ t. Value-F.I64 t) (λ t. number t)
        node.rolls-I64 value.rolls-I64 refl (λ t. refl) (λ ds. refl) (λ ds. refl) (λ d is. is)
        (λ d is. is) (λ t d is. is) (λ t d is. is) (numbers_reason 8 true) };
}

impl Case for i128 {
    ghost kind = { kind.I128 };

    ghost node = { node.I128 };

    ghost holder = { λ t. value.I128 t };

    fn column() -> ColumnKind {
        ColumnKind::I128
    }

    fn held(value: &Value) -> Option<&i128> {
        match value {
            Value::I128(held) => Some(held),
            _ => None,
        }
    }

    fn into_value(self) -> Value {
        Value::I128(self)
    }

    ghost laws = { case_laws _ _ _ _ _ _ ShapeNode-F.I128 (λ t. Value-F.I128 t) (λ t. number t)
        node.rolls-I128 value.rolls-I128 refl (λ t. refl) (λ ds. refl) (λ ds. refl) (λ d is. is)
        (λ d is. is) (λ t d is. is) (λ t d is. is) (numbers_reason 16 true) };
}

impl Case for String {
    ghost kind = { kind.Texts };

    ghost node = { node.Str };

    ghost holder = { λ t. value.Str t };

    fn column() -> ColumnKind {
        ColumnKind::Texts
    }

    fn held(value: &Value) -> Option<&String> {
        match value {
            Value::Str(held) => Some(held),
            _ => None,
        }
    }

    fn into_value(self) -> Value {
        Value::Str(self)
    }

    ghost laws = { case_laws _ _ _ _ _ _ ShapeNode-F.Str (λ t. Value-F.Str t)
        (λ t. text (string_bytes t))
        node.rolls-Str value.rolls-Str refl (λ t. refl) (λ ds. refl) (λ ds. refl) (λ d is. is)
        (λ d is. is) (λ t d is. is) (λ t d is. is) texts_reason };
}
