//! The result type of encoders and decoders.
use bitcode_memory::error::Error;

/// The result of a call, or its error.
pub type Result<T> = std::result::Result<T, Error>;
