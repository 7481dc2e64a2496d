//! Values without a Rust type of their own, their shapes, and the bytes that spell them.
#![tactic(auto)]

pub mod laws;
mod same;
pub mod shape;
pub mod value;
