//! Shorthands for returning an error.
ghost use Rattle.std.specs.Prelude.{◌≡◌, IsErrOf};

use crate::error::{Error, Reason};

/// An error with this reason.
pub fn error(reason: Reason) -> Error
    ensures { result ≡ record { reason = reason } }
{
    Error { reason }
}

/// An `Err` with this reason, of any result type.
pub fn err<T>(reason: Reason) -> Result<T, Error>
    ensures { IsErrOf result (record { reason = reason }) }
{
    Err(error(reason))
}
