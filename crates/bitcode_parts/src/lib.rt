//! Coders of containers, arrays, pointers, choices, converted types, and types without columns.
#![tactic(auto)]

pub mod addresses;
pub mod arrays;
pub mod choices;
pub mod convert;
pub mod durations;
pub mod empty;
pub mod fixed_capacity;
pub mod heaps;
pub mod lists;
pub mod maps;
pub mod markers;
pub mod pointers;
mod ranges;
pub mod sets;
pub mod uuids;
mod wrappers;
