//! Columns of data, the traits of encoders and decoders, and the coders of bools, lengths and texts.
#![tactic(auto)]

pub mod bool;
pub mod coder;
pub mod column_free;
pub mod direct;
pub mod laws;
pub mod lends;
pub mod length;
pub mod one;
pub mod part;
pub mod result;
pub mod str;
