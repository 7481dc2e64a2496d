//! What structs with private fields, with a constructor that checks them, or with many fields need.
#![tactic(auto)]

pub mod checked;
pub mod decoded;
pub mod parts;
