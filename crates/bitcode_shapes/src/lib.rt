//! The data of each type: its shape, and the laws that make a type lawful.
#![tactic(auto)]

pub mod addresses;
pub mod arrays;
pub mod bare_variants;
pub mod bools;
pub mod checked;
pub mod choices;
pub mod durations;
pub mod empty;
pub mod fixed_capacity;
pub mod floats;
pub mod heaps;
pub mod ints;
pub mod keys;
pub mod lists;
pub mod maps;
pub mod markers;
pub mod nanosecond;
pub mod no_variants;
pub mod orderings;
pub mod pointers;
pub mod ranges;
pub mod sets;
pub mod shaped;
pub mod texts;
pub mod tuples;
pub mod uuids;
pub mod wrappers;
