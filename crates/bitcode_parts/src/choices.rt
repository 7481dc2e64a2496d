//! Choices: options, results and the variants of enums.
pub mod bare;
pub mod gathered;
pub mod option;
pub mod result;
pub mod variant;
