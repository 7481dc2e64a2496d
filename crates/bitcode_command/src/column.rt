//! What is told of a column.
use bitcode_memory::error::Reason;
use bitcode_schema::schema::IntKind;

/// What the entries of a column are.
#[derive(Clone, Copy)]
pub enum ColumnKind {
    Bools,
    Chars,
    Ints(IntKind),
    F32,
    F64,
    /// The lengths of lists, maps or texts.
    Lengths,
    /// The variants of options, results or enums, one of so many.
    Variants(usize),
    /// The bytes of texts, behind their lengths.
    TextBytes,
}

/// How the entries of a column are stored.
#[derive(Clone, Copy)]
pub enum Packing {
    /// Each entry in its full width.
    Raw,
    /// Each entry as a number below a bound.
    Below(u128),
    /// The same, and each number is what is added to the least entry, modulo the entries' width.
    Shifted { by: u128, bound: u128 },
    /// Lengths, some of them 255 or more: these follow the others in full.
    LargeLengths,
}

/// How a column is stored, and how many bytes it takes.
#[derive(Clone, Copy)]
pub struct Extent {
    pub packing: Packing,
    pub size: usize,
}

/// A column of an input. A column of texts is told of as two: the lengths of the texts, and their bytes.
#[derive(Drop)]
pub struct Column {
    /// Where its values are in the whole value, such as `players[].position.1`.
    pub path: String,
    pub kind: ColumnKind,
    /// How many entries it has. For bytes of texts, these are the bytes.
    pub entries: usize,
    /// Where its bytes begin in the input.
    pub offset: usize,
    pub extent: Extent,
}

/// The first fault of an input.
#[derive(Drop)]
pub struct ColumnFault {
    /// Where the values of the column at fault are. It is empty for the whole value.
    pub path: String,
    /// Where the bytes of the column at fault begin in the input.
    pub offset: usize,
    pub reason: Reason,
}
