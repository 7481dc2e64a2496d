//! Types written by hand, as a user of the library writes them: their proofs look into no column and no byte.

pub mod foo;
pub mod never;
pub mod one;
pub mod two;
