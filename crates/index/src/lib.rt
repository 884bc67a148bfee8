// The index: the calls that a house makes. Each answers for every argument, as the rules in specs/ say.
#![tactic(auto)]

mod acting;
mod beginning;
pub mod calls;
mod reporting;
