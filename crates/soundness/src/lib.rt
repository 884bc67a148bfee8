// The test of a sound state.
#![tactic(auto)]

pub mod checking;
