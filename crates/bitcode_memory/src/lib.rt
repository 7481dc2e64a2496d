//! Errors, reading the input, lists with reserved room, and integers as bytes.
#![tactic(auto)]

pub mod consume;
pub mod error;
pub mod fast;
pub mod ints;
pub mod minmax;
pub mod refuse;
