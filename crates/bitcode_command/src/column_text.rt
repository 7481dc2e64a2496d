//! What is said of a column.
use crate::column::{Column, ColumnKind, Packing};
use bitcode_schema::schema::IntKind;
use std::alloc::{AllocError, Global};

/// The path of a column, which is a dot for the whole value.
pub fn path_text(part: &Column) -> &str {
    if part.path.is_empty() {
        "."
    } else {
        part.path.as_str()
    }
}

/// What the entries of a column are.
pub fn kind_text(alloc: Global, kind: ColumnKind) -> Result<String, AllocError> {
    match kind {
        ColumnKind::Bools => String::from_str(alloc, "bool"),
        ColumnKind::Chars => String::from_str(alloc, "char"),
        ColumnKind::Ints(int) => String::from_str(alloc, int_text(int)),
        ColumnKind::F32 => String::from_str(alloc, "f32"),
        ColumnKind::F64 => String::from_str(alloc, "f64"),
        ColumnKind::Lengths => String::from_str(alloc, "length"),
        ColumnKind::Variants(count) => format!(in alloc; "1 of {count}"),
        ColumnKind::TextBytes => String::from_str(alloc, "text"),
    }
}

fn int_text(kind: IntKind) -> &'static str {
    match kind {
        IntKind::U8 => "u8",
        IntKind::U16 => "u16",
        IntKind::U32 => "u32",
        IntKind::U64 => "u64",
        IntKind::U128 => "u128",
        IntKind::I8 => "i8",
        IntKind::I16 => "i16",
        IntKind::I32 => "i32",
        IntKind::I64 => "i64",
        IntKind::I128 => "i128",
    }
}

/// How the entries of a column are stored.
pub fn packing_text(alloc: Global, part: &Column) -> Result<String, AllocError> {
    match part.extent.packing {
        Packing::Raw => String::from_str(alloc, "raw"),
        Packing::Below(bound) => {
            let bound = number_text(alloc, bound)?;
            format!(in alloc; "below {bound}")
        }
        Packing::Shifted { by, bound } => shifted_text(alloc, part.kind, by, bound),
        Packing::LargeLengths => String::from_str(alloc, "some above 254"),
    }
}

// The least number that is negative in this integer type, as its bytes say it without a sign.
fn first_negative(kind: ColumnKind) -> Option<u128> {
    match kind {
        ColumnKind::Ints(IntKind::I8) => Some(1 << 7),
        ColumnKind::Ints(IntKind::I16) => Some(1 << 15),
        ColumnKind::Ints(IntKind::I32) => Some(1 << 31),
        ColumnKind::Ints(IntKind::I64) => Some(1 << 63),
        ColumnKind::Ints(IntKind::I128) => Some(1 << 127),
        _ => None,
    }
}

// A number, of which a large one is a power of 2.
fn number_text(alloc: Global, number: u128) -> Result<String, AllocError> {
    match number {
        0x1_0000 => String::from_str(alloc, "2^16"),
        0x1_0000_0000 => String::from_str(alloc, "2^32"),
        0x1_0000_0000_0000_0000 => String::from_str(alloc, "2^64"),
        _ => format!(in alloc; "{number}"),
    }
}

// The least entry and how many numbers from it on.
fn shifted_text(
    alloc: Global,
    kind: ColumnKind,
    by: u128,
    bound: u128,
) -> Result<String, AllocError> {
    let bound = number_text(alloc, bound)?;
    match first_negative(kind) {
        Some(first) if by >= first => {
            let below = by.wrapping_neg() & first.wrapping_mul(2).wrapping_sub(1);
            format!(in alloc; "-{below} + below {bound}")
        }
        _ => format!(in alloc; "{by} + below {bound}"),
    }
}
