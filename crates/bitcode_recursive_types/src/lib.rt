//! Recursive types written by `scripts/second_format`.
#![tactic(auto)]

pub mod comment;
pub mod desk;
pub mod directory;
pub mod expr;
pub mod node;
pub mod peer;
pub mod polygon;
pub mod search_tree;
