// The lines of the little program: what a line means.
#![tactic(auto)]

mod reading;

pub use reading::{LARGEST, grown, line_end, read_line};
use slots::Op;

// What a line asks for.
#[derive(Clone, Copy)]
pub enum Command {
    // slot, operation
    Begin(u32, Op),
    // slot
    Step(u32),
    Bad,
}
