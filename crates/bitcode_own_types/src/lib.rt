//! Structs and enums written by `scripts/new_type`, a container written by hand, generic code, and calls
//! at nested types, as a user of the library writes them: nothing but the library is named.
#![tactic(auto)]

pub mod amino_acid;
pub mod chest;
pub mod dated;
pub mod event;
pub mod foo;
pub mod generic;
pub mod item;
pub mod keys;
pub mod light;
pub mod message;
pub mod meters;
pub mod monster;
pub mod msg;
pub mod nested_calls;
pub mod never;
pub mod one;
pub mod order;
pub mod outcome;
pub mod pause;
pub mod reply;
pub mod saved;
pub mod scores;
pub mod seat;
pub mod spot;
pub mod two;
