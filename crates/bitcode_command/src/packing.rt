//! How a column stores its entries, as its first bytes tell.
use crate::column::{ColumnKind, Extent, Packing};
use bitcode_memory::error::Reason;
use bitcode_schema::schema::IntKind;

// A byte column of at most this many entries has no tag.
const MOST_WITHOUT_TAG: usize = 2;

/// Digits of a base, so many of them in a byte.
#[derive(Clone, Copy)]
pub struct Digits {
    pub base: u16,
    pub in_byte: usize,
}

impl Digits {
    /// How many bytes so many digits take.
    pub fn size(self, count: usize) -> usize {
        if self.in_byte == 0 {
            return count;
        }
        count.div_ceil(self.in_byte)
    }
}

// The digits of a byte column at a level.
fn digits_at_level(level: u8) -> Result<Digits, Reason> {
    let (base, in_byte) = match level {
        0 => (256, 1),
        1 => (16, 2),
        2 => (6, 3),
        3 => (4, 4),
        4 => (3, 5),
        5 => (2, 8),
        _ => return Err(Reason::InvalidPacking),
    };
    Ok(Digits { base, in_byte })
}

/// The digits of a column of so many variants.
pub fn digits_of_variants(variants: usize) -> Digits {
    let (base, in_byte) = match variants {
        0..=2 => (2, 8),
        3 => (3, 5),
        4 => (4, 4),
        5..=6 => (6, 3),
        7..=16 => (16, 2),
        _ => (256, 1),
    };
    Digits { base, in_byte }
}

// The bytes of an integer type.
fn width_of(kind: IntKind) -> usize {
    match kind {
        IntKind::U8 | IntKind::I8 => 1,
        IntKind::U16 | IntKind::I16 => 2,
        IntKind::U32 | IntKind::I32 => 4,
        IntKind::U64 | IntKind::I64 => 8,
        IntKind::U128 | IntKind::I128 => 16,
    }
}

// The number with these bytes, the lowest first.
fn number_of(bytes: &[u8]) -> u128 {
    let mut number = 0u128;
    for byte in bytes.iter().rev() {
        number = number.wrapping_mul(0x100) | u128::from(*byte);
    }
    number
}

// How many numbers have so many bytes: none for all 16 of them.
fn numbers_in_width(width: usize) -> Option<u128> {
    match width {
        1 => Some(0x100),
        2 => Some(0x1_0000),
        4 => Some(0x1_0000_0000),
        8 => Some(0x1_0000_0000_0000_0000),
        _ => None,
    }
}

// Entries of so many bytes, behind so many others.
fn raw(head: usize, entries: usize, width: usize) -> Extent {
    Extent {
        packing: Packing::Raw,
        size: entries.saturating_mul(width).saturating_add(head),
    }
}

// Digits behind so many other bytes.
fn packed(head: usize, entries: usize, digits: Digits) -> Extent {
    if digits.in_byte == 1 {
        return raw(head, entries, 1);
    }
    Extent {
        packing: Packing::Below(u128::from(digits.base)),
        size: digits.size(entries).saturating_add(head),
    }
}

// The extent of a byte column at the front of the bytes.
fn extent_of_bytes(entries: usize, bytes: &[u8]) -> Result<Extent, Reason> {
    if entries <= MOST_WITHOUT_TAG {
        return Ok(raw(0, entries, 1));
    }
    let (tag, behind) = bytes.split_first().ok_or(Reason::Eof)?;
    let digits = digits_at_level(tag / 2 + tag % 2)?;
    if tag % 2 == 0 {
        return Ok(packed(1, entries, digits));
    }
    let least = behind.first().ok_or(Reason::Eof)?;
    let packing = Packing::Shifted {
        by: u128::from(*least),
        bound: u128::from(digits.base),
    };
    Ok(Extent {
        packing,
        size: digits.size(entries).saturating_add(2),
    })
}

// The extent of numbers that are stored in fewer bytes than the entries have, behind so many others.
fn extent_of_narrow(
    narrow: usize,
    entries: usize,
    head: usize,
    bytes: &[u8],
) -> Result<Extent, Reason> {
    let Extent { packing, size } = if narrow == 1 {
        extent_of_bytes(entries, bytes)?
    } else {
        raw(0, entries, narrow)
    };
    let packing = match packing {
        Packing::Raw => Packing::Below(numbers_in_width(narrow).unwrap_or(0)),
        packing => packing,
    };
    Ok(Extent {
        packing,
        size: size.saturating_add(head),
    })
}

// The packing of numbers of so many bytes that were stored so, each less the least entry.
fn shifted(packing: Packing, least: u128, width: usize) -> Packing {
    let (first, bound) = match packing {
        Packing::Shifted { by, bound } => (by, bound),
        Packing::Below(bound) => (0, bound),
        packing => return packing,
    };
    let sum = least.wrapping_add(first);
    let by = match numbers_in_width(width) {
        Some(numbers) => sum.checked_rem(numbers).unwrap_or(0),
        None => sum,
    };
    Packing::Shifted { by, bound }
}

// The extent of a column of integers of so many bytes at the front of the bytes.
fn extent_of_ints(width: usize, entries: usize, bytes: &[u8]) -> Result<Extent, Reason> {
    if width <= 1 {
        return extent_of_bytes(entries, bytes);
    }
    if entries == 0 || width == 2 && entries == 1 {
        return Ok(raw(0, entries, width));
    }
    let (tag, behind) = bytes.split_first().ok_or(Reason::Eof)?;
    if *tag == 0 {
        return Ok(raw(1, entries, width));
    }
    let narrow = width >> (tag / 2 + tag % 2).min(5);
    if narrow == 0 {
        return Err(Reason::InvalidPacking);
    }
    if tag % 2 == 0 {
        return extent_of_narrow(narrow, entries, 1, behind);
    }
    let least = behind.get(..width).ok_or(Reason::Eof)?;
    let body = behind.get(width..).ok_or(Reason::Eof)?;
    let Extent { packing, size } = extent_of_narrow(
        narrow,
        entries,
        width.saturating_add(1),
        body,
    )?;
    Ok(Extent {
        packing: shifted(packing, number_of(least), width),
        size,
    })
}

/// The extent of a column of entries of a kind at the front of the bytes. It says nothing of what is behind the tags.
///
/// The error is `EOF` or `invalid packing`.
pub fn extent_of(kind: ColumnKind, entries: usize, bytes: &[u8]) -> Result<Extent, Reason> {
    match kind {
        ColumnKind::Bools => Ok(packed(0, entries, digits_of_variants(2))),
        ColumnKind::Chars => extent_of_ints(4, entries, bytes),
        ColumnKind::Ints(kind) => extent_of_ints(width_of(kind), entries, bytes),
        ColumnKind::F32 => Ok(raw(0, entries, 4)),
        ColumnKind::F64 => extent_of_ints(8, entries, bytes),
        ColumnKind::Lengths => extent_of_bytes(entries, bytes),
        ColumnKind::Variants(count) => Ok(packed(0, entries, digits_of_variants(count))),
        ColumnKind::TextBytes => Ok(raw(0, entries, 1)),
    }
}

/// The extent of a column of lengths that takes so many bytes at the front of the bytes.
pub fn extent_of_lengths(entries: usize, size: usize, bytes: &[u8]) -> Extent {
    match extent_of_bytes(entries, bytes) {
        Ok(extent) if extent.size == size => extent,
        _ => Extent {
            packing: Packing::LargeLengths,
            size,
        },
    }
}
