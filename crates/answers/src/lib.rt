// How the little program writes an answer.
#![tactic(auto)]

mod writing;

pub use writing::{write_answer, write_bad_line, write_number, write_too_long};
