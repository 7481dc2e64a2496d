//! The packing and unpacking of integer columns.
#![tactic(auto)]

pub mod column_int;
pub mod pack_ints;
pub mod strict;
