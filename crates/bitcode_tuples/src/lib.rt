//! Coders of tuples.
#![tactic(auto)]

pub mod decoder;
pub mod encoder;
pub mod fields;
pub mod has_field;
pub mod part_encoder;
mod range_fields;
pub mod struct_encoder;
mod tuple_fields;
