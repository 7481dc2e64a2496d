//! The second format for Rust types, without a `Value`: recursive types among them.
#![tactic(auto)]

mod addresses;
mod arrays;
pub mod deserialize_as;
mod durations;
pub mod entering;
pub mod fields;
mod fixed_capacity;
pub mod has_shape;
mod heaps;
pub mod keys;
mod leaves;
mod lists;
pub mod maps;
mod markers;
mod nonzero;
mod options;
mod orderings;
mod parts;
mod pointers;
mod ranges;
pub mod read_fields;
mod read_leaves;
mod results;
pub mod sequences;
pub mod serialize_as;
mod sets;
mod texts;
mod tuples;
mod uuids;
pub mod variants;
mod wrappers;
pub mod written;
