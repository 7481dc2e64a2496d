//! The coders of variant indices, for any number of variants.
pub use crate::serde::decoder::VariantDecoder;
pub use crate::serde::encoder::VariantEncoder;

mod decoder;
mod encoder;
