//! Structs and enums that have changed twice, and structs with private fields, with checks and with skipped fields, as
//! `scripts/new_type` writes them, and what reads them.
#![tactic(auto)]

pub mod decoded;
pub mod grade;
pub mod hurry;
pub mod hurry_of1;
pub mod job;
pub mod known;
pub mod opened;
pub mod percent;
pub mod queue;
pub mod sale;
pub mod span;
pub mod state;
pub mod state_of1;
pub mod state_of2;
