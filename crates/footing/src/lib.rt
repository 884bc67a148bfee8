// The rules of a granted step, and the pages that the operation holds and wants, read again.
#![tactic(auto)]

pub mod converting;
pub mod fitting;
pub mod looking;
