//! Enums with fields: the struct that makes one lawful, and its coders, by the numbers of the variants.
#![tactic(auto)]

pub mod columns;
pub mod decoder;
pub mod encoder;
pub mod enums;
pub mod not_compared;
pub mod number;
pub mod payload_columns;
pub mod payloads;
pub mod two_groups;
pub mod variants;
pub mod writes;
