//! The kinds of columns that the command `column` reads, by their names.

/// A kind of column.
#[derive(Clone, Copy)]
pub enum Kind {
    Bool,
    U8,
    U16,
    U32,
    U64,
    U128,
    I8,
    I16,
    I32,
    I64,
    I128,
    Length,
    Text,
    Variant2,
    Variant3,
    Variant5,
    Variant6,
    Variant17,
}

/// The kind of this name.
pub fn kind_of(name: &[u8]) -> Option<Kind> {
    match name {
        b"bool" => Some(Kind::Bool),
        b"u8" => Some(Kind::U8),
        b"u16" => Some(Kind::U16),
        b"u32" => Some(Kind::U32),
        b"u64" => Some(Kind::U64),
        b"u128" => Some(Kind::U128),
        b"i8" => Some(Kind::I8),
        b"i16" => Some(Kind::I16),
        b"i32" => Some(Kind::I32),
        b"i64" => Some(Kind::I64),
        b"i128" => Some(Kind::I128),
        b"length" => Some(Kind::Length),
        b"text" => Some(Kind::Text),
        b"variant2" => Some(Kind::Variant2),
        b"variant3" => Some(Kind::Variant3),
        b"variant5" => Some(Kind::Variant5),
        b"variant6" => Some(Kind::Variant6),
        b"variant17" => Some(Kind::Variant17),
        _ => None,
    }
}
