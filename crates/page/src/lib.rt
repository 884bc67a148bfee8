// One page: its words, its value, and how it changes.
#![tactic(auto)]

pub mod checking;
pub mod reading;
