//! The stored rows: those of the first format, those of the second one, and those that stand on types written by hand
//! or on the `column` command.
pub mod choices;
pub mod columns;
pub mod texts;
pub mod typed;
pub mod untyped;
