//! Sealed bytes: the bytes from `encode` with a header and a checksum, for all data that leaves the program.
#![tactic(auto)]

pub mod bytes;
pub mod crc;
mod crc_tables;
pub mod earlier;
pub mod error;
pub mod front;
mod head;
pub mod label;
pub mod laws;
pub mod next;
pub mod values;
pub mod version_laws;
pub mod versions;
