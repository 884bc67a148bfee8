// The rules of a change along the pages that an operation holds, and what a deletion needs.
#![tactic(auto)]

pub mod needing;
