//! Errors of opening sealed bytes.
ghost use Rattle.std.specs.Prelude.{◌≡◌, ◌↔◌, IsTrue};
ghost use Rattle.bitcode_memory.specs.declared.error.Reason.TheVariants.{OutOfMemory};
ghost use Rattle.bitcode_sealed.specs.declared.error.OpenError.TheVariants.{Value};
ghost use Rattle.bitcode_sealed.specs.ErrorClasses.{IsDamage, IsOutOfMemory};

use bitcode_memory::error::{Error, Reason};
use std::alloc::{AllocError, AllocFailed};

/// Why opening failed: the first fault, in this order.
///
/// An input that ends within the header, which has 20 bytes, is cut off if its bytes begin like sealed ones. The
/// content of a complete header is trusted only after its checksum was verified. So whether the value is cut off is
/// checked after everything else that the header says.
///
/// The operator `?` converts an [`Error`] and the standard library's allocation errors into `Value`.
#[derive(Clone, Copy, Debug, PartialEq, Eq, thiserror::Error)]
pub enum OpenError {
    /// The input does not begin like sealed bytes.
    #[error("not sealed")]
    NotSealed,
    /// The input ends too early: it has `present` bytes and needs `wanted`. For an incomplete header, `wanted` is 20;
    /// for a complete one, the size of the value and 24 more, but at most 18446744073709551615. A reader of a stream
    /// waits for them.
    #[error("cut off: {present} bytes of {wanted}")]
    CutOff { present: u64, wanted: u64 },
    /// The header is damaged. So nothing in it is known, nor where the next sealed bytes begin.
    #[error("the header is damaged")]
    HeadDamaged,
    /// The value has the kind `found`, and the program expects `expected`.
    #[error("the kind is {found:#010x}, expected {expected:#010x}")]
    AnotherKind { found: u32, expected: u32 },
    /// The value has the version `found`, and the program expects `expected`.
    #[error("the version is {found}, expected {expected}")]
    AnotherVersion { found: u16, expected: u16 },
    /// The value has this many bytes, more than the `most` that the program accepts.
    #[error("too long: {bytes} bytes, at most {most}")]
    TooLong { bytes: u64, most: u64 },
    /// The value is damaged: its checksum is `computed`, but `stored` follows it.
    #[error("the value is damaged: its checksum is {computed:08x}, not {stored:08x}")]
    ValueDamaged { stored: u32, computed: u32 },
    /// This many bytes follow the sealed bytes.
    #[error("trailing bytes: {count}")]
    BytesLeftOver { count: u64 },
    /// The value is undamaged, but `decode` failed with this error: the bytes spell no value of the type, or an
    /// allocation failed.
    #[error("the value was not decoded: {0}")]
    Value(Error),
}

impl OpenError {
    /// Whether the bytes are damaged or incomplete: `NotSealed`, `CutOff`, `HeadDamaged` or `ValueDamaged`.
    ///
    /// Every other error except `out of memory` means that the program does not accept what was sealed. Its bytes may
    /// be a good value for another program, or for another version of this one, so do not cut them off a journal.
    ///
    /// ```rust
    /// assert!(rt; OpenError::HeadDamaged.is_damage());
    /// assert!(rt; !OpenError::AnotherVersion { found: 2, expected: 1 }.is_damage());
    /// ```
    pub fn is_damage(&self) -> bool
        ensures { IsTrue result ↔ IsDamage self.now }
    {
        matches!(
            self,
            OpenError::NotSealed
                | OpenError::CutOff { .. }
                | OpenError::HeadDamaged
                | OpenError::ValueDamaged { .. }
        )
    }

    /// Whether an allocation failed. Then the bytes may be fine, and the call can be tried again.
    ///
    /// ```rust
    /// let refused = OpenError::Value(Error { reason: Reason::OutOfMemory });
    /// assert!(rt; refused.is_out_of_memory() && !refused.is_damage());
    /// ```
    pub fn is_out_of_memory(&self) -> bool
        ensures { IsTrue result ↔ IsOutOfMemory self.now }
    {
        match self {
            OpenError::Value(error) => error.reason == Reason::OutOfMemory,
            _ => false,
        }
    }
}

impl From<Error> for OpenError {
    ghost from_gives = { λ error e. e ≡ Value error };

    fn from(error: Error) -> OpenError {
        OpenError::Value(error)
    }
}

impl From<AllocError> for OpenError {
    ghost from_gives = { λ _ e. e ≡ Value (record { reason = OutOfMemory }) };

    fn from(refused: AllocError) -> OpenError {
        OpenError::Value(Error::from(refused))
    }
}

impl<T: Drop> From<AllocFailed<T>> for OpenError {
    ghost from_gives = { λ _ e. e ≡ Value (record { reason = OutOfMemory }) };

    fn from(refused: AllocFailed<T>) -> OpenError {
        OpenError::Value(Error::from(refused))
    }
}
