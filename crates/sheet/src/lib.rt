// Writing a page: in place, and from a buffer that has room for more pairs than a page.
#![tactic(auto)]

pub mod sheets;
pub mod writing;
