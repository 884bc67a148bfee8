// Opening a pool that somebody hands us: whether its words are a B*-tree's, and if not, which page is at fault.
#![tactic(auto)]

pub mod checking;
pub mod hanging;
pub mod marking;
