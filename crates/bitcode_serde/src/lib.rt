//! The second format: encoding and decoding values under a shape.
#![tactic(auto)]

pub mod budget;
pub mod case;
pub mod column;
pub mod deserialize;
mod float_cases;
pub mod free;
pub mod links;
pub mod places;
pub mod read_column;
pub mod read_leaf;
pub mod reader;
pub mod serde;
pub mod serialize;
pub mod step;
pub mod texts;
pub mod values;
pub mod walk;
mod write_char;
pub mod write_column;
pub mod writer;
