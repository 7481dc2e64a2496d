//! Errors and their reasons.
ghost use Rattle.std.specs.Prelude.{◌≡◌, ◌++◌, Some, codes};
ghost use Rattle.std.specs.IoError.{error_kind};
ghost use Rattle.bitcode_memory.specs.Error.{reason_text, io_kind};

use std::alloc::{AllocError, AllocFailed};
use std::{fmt, io};

/// Why a call failed. Errors are equal if their reasons are.
#[derive(Clone, Copy, Debug, PartialEq, Eq)]
pub enum Reason {
    /// The input ends too early.
    Eof,
    /// Bytes are left after the end of the value.
    ExpectedEof,
    /// A column has an unknown tag, or an entry exceeds the number of variants.
    InvalidPacking,
    /// A sum or product of lengths exceeds 18446744073709551615.
    LengthOverflow,
    /// The lengths of one column sum to 2251799813685247 or more.
    HugeLength,
    /// The bytes of a text are not UTF-8.
    InvalidUtf8,
    /// A number is not a value of its type, such as 0 for a `NonZeroU8`.
    InvalidBitPattern,
    /// A sequence is longer than the capacity of its `ArrayVec`.
    InvalidArrayVec,
    /// A text is longer than the capacity of its `ArrayString`.
    InvalidArrayString,
    /// The enum has no variant with this index.
    InvalidEnumVariant,
    /// The entry of an option is neither 0 nor 1.
    InvalidOption,
    /// A number is not the code of a `char`.
    InvalidChar,
    /// Elements without columns exceed a limit: that of `decode_within`, or, in the second format, 65536 elements of a
    /// list or keys of a map.
    TooManyZeroSizedTypes,
    /// The index of a variant exceeds 255.
    TooManyVariants,
    /// The value does not match the shape that it is written under.
    NotOfTheShape,
    /// More than 512 references follow one another on one path.
    NestedTooDeep,
    /// An allocation failed.
    OutOfMemory,
    /// A shape refers to a missing entry, or to itself without end.
    BadShape,
    /// The bytes of a column differ from those that `encode` writes. Only strict decoding checks this.
    NotTheWrittenText,
    /// A value has more nodes than the decoder allows.
    TooManyNodes,
}

impl Reason {
    /// The text that an error with this reason prints.
    pub fn text(self) -> &'static str
        ensures { result.now ≡ reason_text self }
    {
        match self {
            Reason::Eof => "EOF",
            Reason::ExpectedEof => "Expected EOF",
            Reason::InvalidPacking => "invalid packing",
            Reason::LengthOverflow => "length overflow",
            Reason::HugeLength => "huge length",
            Reason::InvalidUtf8 => "invalid utf8",
            Reason::InvalidBitPattern => "invalid bit pattern",
            Reason::InvalidArrayVec => "invalid ArrayVec",
            Reason::InvalidArrayString => "invalid ArrayString",
            Reason::InvalidEnumVariant => "invalid enum variant",
            Reason::InvalidOption => "invalid option",
            Reason::InvalidChar => "invalid char",
            Reason::TooManyZeroSizedTypes => "too many zero sized types",
            Reason::TooManyVariants => "enums with more than 256 variants are unsupported",
            Reason::NotOfTheShape => "value is not of the shape",
            Reason::NestedTooDeep => "nested too deep",
            Reason::OutOfMemory => "out of memory",
            Reason::BadShape => "bad shape",
            Reason::NotTheWrittenText => "not the written text",
            Reason::TooManyNodes => "too many nodes",
        }
    }

    /// The kind of the I/O error with this reason: `UnexpectedEof` for `EOF`, `OutOfMemory` for `out of memory`, and
    /// `InvalidData` for every other reason.
    pub fn io_kind(self) -> io::ErrorKind
        ensures { result ≡ io_kind self }
    {
        match self {
            Reason::Eof => io::ErrorKind::UnexpectedEof,
            Reason::OutOfMemory => io::ErrorKind::OutOfMemory,
            _ => io::ErrorKind::InvalidData,
        }
    }
}

/// An error with its reason.
///
/// It prints the text of the reason: `{}` prints `EOF`, and `{:?}` prints `Error("EOF")`.
#[derive(Clone, Copy, PartialEq, Eq)]
pub struct Error {
    pub reason: Reason,
}

impl Error {
    /// The text of the reason, such as `"EOF"`.
    pub fn reason(&self) -> &'static str
        ensures { result.now ≡ reason_text self.now.reason }
    {
        self.reason.text()
    }
}

impl fmt::Display for Error {
    ghost output = { λ e. Some (reason_text e.reason) };

    fn fmt<W: fmt::Write>(&self, f: &mut fmt::Formatter<W>) -> fmt::Result {
        f.write_str(self.reason.text())
    }
}

impl fmt::Debug for Error {
    ghost debug_output = { λ e. Some (codes "Error(\"" ++ (reason_text e.reason ++ codes "\")")) };

    fn fmt<W: fmt::Write>(&self, f: &mut fmt::Formatter<W>) -> fmt::Result {
        f.write_str("Error(\"")?;
        f.write_str(self.reason())?;
        f.write_str("\")")
    }
}

impl std::error::Error for Error {}

impl From<AllocError> for Error {
    ghost use Rattle.bitcode_memory.specs.declared.error.Reason.TheVariants.{OutOfMemory};

    ghost from_gives = { λ _ e. e.reason ≡ OutOfMemory };

    fn from(_refused: AllocError) -> Error {
        Error {
            reason: Reason::OutOfMemory,
        }
    }
}

impl<T: Drop> From<AllocFailed<T>> for Error {
    ghost use Rattle.bitcode_memory.specs.declared.error.Reason.TheVariants.{OutOfMemory};

    ghost from_gives = { λ _ e. e.reason ≡ OutOfMemory };

    fn from(_refused: AllocFailed<T>) -> Error {
        Error {
            reason: Reason::OutOfMemory,
        }
    }
}

/// Converts to an I/O error with the reason's text, so that functions that read or write files can use `?`.
impl From<Error> for io::Error {
    ghost from_gives = { λ e io. error_kind io ≡ io_kind e.reason };

    fn from(error: Error) -> io::Error {
        io::Error::new(error.reason.io_kind(), error.reason.text())
    }
}
