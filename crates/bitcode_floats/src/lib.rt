//! The coders of floats.
#![tactic(auto)]

mod direct;
pub mod float32;
pub mod float64;
