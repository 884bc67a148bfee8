// The whole change of a deletion along the pages that it holds.
#![tactic(auto)]

pub mod deleting;
