//! The types that can be encoded and decoded, the coders of maps and of durations, and the calls for whole values.
#![tactic(auto)]

pub mod absent;
pub mod buffer;
pub mod closed;
pub mod derive;
pub mod durations;
mod impls;
pub mod laws;
pub mod map;
pub mod whole;
