// Lines of a letter and numbers, read byte by byte, and numbers written out. Nothing here asks anything of its
// arguments.
#![tactic(auto)]

pub mod reading;
pub mod writing;
