//! The packing and unpacking of columns of floats.
#![tactic(auto)]

pub mod bits;
pub mod laws;
pub mod split;
