//! Why the command failed, and with which status it then ends.
use crate::column::ColumnFault;
use crate::fault::Fault;
use bitcode_memory::error::{Error, Reason};
use bitcode_sealed::error::OpenError;
use std::alloc::{AllocError, AllocFailed, Global};
use std::{fmt, io};

/// Why the command failed.
#[derive(Drop)]
pub enum Failure {
    OutOfMemory,
    /// A file cannot be read or written.
    File { path: String, error: io::Error },
    /// Standard output or the terminal cannot be written.
    Print(io::Error),
    /// The schema is none, or the format does not have it.
    Schema { path: String, fault: Fault },
    /// The JSON is none, or not of the type; or a value nests too deep for JSON.
    Json(Fault),
    /// The bytes are no value of the type.
    Bytes(Error),
    /// The same, and which column is at fault.
    Column(ColumnFault),
    /// The sealed bytes at this place are damaged, cut off or none.
    Sealed { error: OpenError, offset: usize },
    /// The words do not go together.
    Words(String),
}

impl Failure {
    /// The status that the command ends with.
    pub fn status(&self) -> u8 {
        match self {
            Failure::Json(Fault::OutOfMemory) | Failure::OutOfMemory => 5,
            Failure::Schema {
                fault: Fault::OutOfMemory,
                ..
            } => 5,
            Failure::File { .. } | Failure::Print(_) => 4,
            Failure::Schema { .. } => 3,
            Failure::Words(_) => 2,
            _ => 1,
        }
    }

    /// The failure of a file.
    pub fn of_file(alloc: Global, path: &str, error: io::Error) -> Failure {
        match String::from_str(alloc, path) {
            Ok(path) => Failure::File { path, error },
            Err(_) => Failure::OutOfMemory,
        }
    }

    /// The failure of a schema file.
    pub fn of_schema(alloc: Global, path: &str, fault: Fault) -> Failure {
        match String::from_str(alloc, path) {
            Ok(path) => Failure::Schema { path, fault },
            Err(_) => Failure::OutOfMemory,
        }
    }

    /// The failure of a sealed value at this place.
    pub fn of_seal(error: OpenError, offset: usize) -> Failure {
        if error.is_out_of_memory() {
            Failure::OutOfMemory
        } else {
            Failure::Sealed { error, offset }
        }
    }

    /// The failure of words that do not go together.
    pub fn of_words(alloc: Global, what: &str) -> Failure {
        match String::from_str(alloc, what) {
            Ok(what) => Failure::Words(what),
            Err(_) => Failure::OutOfMemory,
        }
    }
}

impl fmt::Display for Failure {
    fn fmt<W: fmt::Write>(&self, f: &mut fmt::Formatter<W>) -> fmt::Result {
        match self {
            Failure::OutOfMemory => f.write_str("out of memory"),
            Failure::File { path, error } => write!(f, "{path}: {error}"),
            Failure::Print(error) => write!(f, "{error}"),
            Failure::Schema { path, fault } => write!(f, "schema {path}: {fault}"),
            Failure::Json(fault) => write!(f, "JSON: {fault}"),
            Failure::Bytes(error) => write!(f, "{error}"),
            Failure::Column(fault) => write_column(fault, f),
            Failure::Sealed { error, offset: 0 } => write!(f, "{error}"),
            Failure::Sealed { error, offset } => write!(
                f,
                "{error}, in the value at byte {offset}"
            ),
            Failure::Words(what) => write!(f, "{what}"),
        }
    }
}

// The column at fault.
fn write_column<W: fmt::Write>(fault: &ColumnFault, f: &mut fmt::Formatter<W>) -> fmt::Result {
    let offset = fault.offset;
    let reason = fault.reason.text();
    if fault.path.is_empty() {
        write!(f, "{reason} at byte {offset}")
    } else {
        let path = &fault.path;
        write!(f, "{reason} at byte {offset}, in the column `{path}`")
    }
}

impl From<AllocError> for Failure {
    fn from(_refused: AllocError) -> Failure {
        Failure::OutOfMemory
    }
}

impl<T: Drop> From<AllocFailed<T>> for Failure {
    fn from(_refused: AllocFailed<T>) -> Failure {
        Failure::OutOfMemory
    }
}

impl From<io::Error> for Failure {
    fn from(error: io::Error) -> Failure {
        Failure::Print(error)
    }
}

impl From<Fault> for Failure {
    fn from(fault: Fault) -> Failure {
        Failure::Json(fault)
    }
}

impl From<Error> for Failure {
    fn from(error: Error) -> Failure {
        if error.reason == Reason::OutOfMemory {
            Failure::OutOfMemory
        } else {
            Failure::Bytes(error)
        }
    }
}
