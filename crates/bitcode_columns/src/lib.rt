//! The packing and unpacking of columns of bools, bytes and variants.
#![tactic(auto)]

pub mod byte;
pub mod digit;
mod digits;
pub mod histogram;
pub mod laws;
pub mod pack;
mod single;
pub mod strict;
