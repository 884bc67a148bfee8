// The whole change of an insertion along the pages that it holds.
#![tactic(auto)]

pub mod inserting;
