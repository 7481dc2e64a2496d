//! Types that are larger than those of most programs, which `scripts/new_type` wrote: a struct of 17 fields and an enum
//! of 20 variants; and calls at lists of them.
#![tactic(auto)]

pub mod account;
pub mod home;
pub mod lists;
pub mod packet;
pub mod trophy;
