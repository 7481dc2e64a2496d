//! Lists: types that are written as, and made from, the sequence of their elements.
pub mod sequence;
pub mod vec;
