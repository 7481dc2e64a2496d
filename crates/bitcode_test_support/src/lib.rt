//! What the stored rows, the tests and the scripts share: functions that compare the library's answers with the
//! expected ones, and types whose coders are written by hand.
#![tactic(auto)]

pub mod by_hand;
pub mod byte_columns;
pub mod got;
pub mod lengths;
pub mod strict;
pub mod strict_laws;
pub mod untyped;
pub mod values;

pub use crate::got::Got;
pub use crate::strict::{decodes_strictly, refuses_strictly};
pub use crate::values::{agrees, both_ways, decodes, encodes, holds, refuses, written_and_read};
