// The library: the public calls for C and Rust, over words that the caller lends. No call asks anything of its arguments.
#![tactic(auto)]

pub mod calls;
pub mod telling;
