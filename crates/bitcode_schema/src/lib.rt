//! Schemas that are made at run time, checks of bytes by them, and encoding and decoding of values.
#![tactic(auto)]

pub mod check;
mod choices;
pub mod decode;
pub mod encode;
pub mod laws;
mod leaves;
mod limits;
mod make;
mod parts;
mod read;
pub mod schema;
mod write;
