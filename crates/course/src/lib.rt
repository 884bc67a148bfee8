// What a granted operation does: where it stands, and what it does from there.
#![tactic(auto)]

pub mod judging;
pub mod standing;
