//! What is wrong with a schema, a text or a value, and where.
use std::alloc::{AllocError, AllocFailed, Global};
use std::fmt;

/// Why a schema, a text of JSON or a value is refused.
#[derive(Drop)]
pub enum Fault {
    OutOfMemory,
    /// What is wrong at the place that the path leads to. The path of the whole is empty.
    At { path: String, what: String },
}

impl Fault {
    /// A fault of the whole.
    pub fn new(alloc: Global, what: &str) -> Fault {
        match String::from_str(alloc, what) {
            Ok(what) => Fault::At {
                path: String::new(alloc),
                what,
            },
            Err(_) => Fault::OutOfMemory,
        }
    }

    /// The fault of a part, as one of the whole that has the part behind this step.
    fn behind(self, alloc: Global, step: impl fmt::Display + Drop) -> Fault {
        match self {
            Fault::OutOfMemory => Fault::OutOfMemory,
            Fault::At { path, what } => match format!(in alloc; "{step}{path}") {
                Ok(path) => Fault::At { path, what },
                Err(_) => Fault::OutOfMemory,
            },
        }
    }

    /// The fault of a field.
    pub fn in_field(self, alloc: Global, name: &str) -> Fault {
        self.behind(alloc, format_args!(".{name}"))
    }

    /// The fault of an element.
    pub fn in_item(self, alloc: Global, index: usize) -> Fault {
        self.behind(alloc, format_args!("[{index}]"))
    }
}

impl fmt::Display for Fault {
    fn fmt<W: fmt::Write>(&self, f: &mut fmt::Formatter<W>) -> fmt::Result {
        match self {
            Fault::OutOfMemory => f.write_str("out of memory"),
            Fault::At { path, what } => {
                if path.is_empty() {
                    write!(f, "{what}")
                } else {
                    write!(f, "at {path}: {what}")
                }
            }
        }
    }
}

impl From<AllocError> for Fault {
    fn from(_refused: AllocError) -> Fault {
        Fault::OutOfMemory
    }
}

impl<T: Drop> From<AllocFailed<T>> for Fault {
    fn from(_refused: AllocFailed<T>) -> Fault {
        Fault::OutOfMemory
    }
}
