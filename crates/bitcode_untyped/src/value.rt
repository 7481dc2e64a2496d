//! Values that carry their type.

/// A value of any shape.
///
/// Two values are equal if they have the same case and the same content. Floats have the same content if they have the
/// same bits, or if both are NaN.
///
/// ```
/// let entry = Value::Tuple(vec![in alloc; Value::Bool(true), Value::U64(7)]?);
/// let one = Value::Seq(vec![in alloc; entry]?);
/// ```
#[derive(Clone, Debug, Drop)]
pub enum Value {
    Unit,
    Bool(bool),
    U8(u8),
    U16(u16),
    U32(u32),
    U64(u64),
    U128(u128),
    I8(i8),
    I16(i16),
    I32(i32),
    I64(i64),
    I128(i128),
    F32(f32),
    F64(f64),
    Char(char),
    Str(String),
    Bytes(Vec<u8>),
    Option(Option<Box<Value>>),
    Seq(Vec<Value>),
    /// The pairs in the given order: they are not sorted, and keys may repeat.
    Map(Vec<(Value, Value)>),
    Tuple(Vec<Value>),
    /// The index of a variant, from 0, and its payload.
    Enum(u32, Box<Value>),
}
