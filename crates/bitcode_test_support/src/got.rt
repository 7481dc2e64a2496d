//! What came in the place of what was expected.
use bitcode::{Error, Reason, error};
use std::alloc::{AllocError, AllocFailed};
use std::fmt;

/// What came in the place of what was expected.
#[derive(Debug, Drop)]
pub enum Got {
    /// The value was written as other bytes.
    Bytes(Vec<u8>),
    /// The call refused, or refused for another reason.
    Refused(Error),
    /// Another value was read, or one where the input had to be refused.
    AnotherValue,
}

impl<T: Drop> From<AllocFailed<T>> for Got {
    fn from(_refused: AllocFailed<T>) -> Got {
        Got::Refused(error(Reason::OutOfMemory))
    }
}

impl From<Error> for Got {
    fn from(error: Error) -> Got {
        Got::Refused(error)
    }
}

impl From<AllocError> for Got {
    fn from(_refused: AllocError) -> Got {
        Got::Refused(error(Reason::OutOfMemory))
    }
}

impl fmt::Display for Got {
    fn fmt<W: fmt::Write>(&self, f: &mut fmt::Formatter<W>) -> fmt::Result {
        match self {
            Got::Bytes(bytes) => write!(f, "{bytes:?}"),
            Got::Refused(error) => write!(f, "{error}"),
            Got::AnotherValue => f.write_str("another value"),
        }
    }
}
