// The pool: pages in the lent words.
#![tactic(auto)]

pub mod lying;
pub mod pages;
