// The ground: the limits of document 01, by name, how a pool is laid out, and the folds that every rule is written with. It has no functions.
#![tactic(auto)]

ghost use Rattle.std.specs.Prelude.{◌≤◌};
ghost use Rattle.ground.specs.Limits.{largest_k, largest_n};

// k is 1 to 16, N is 1 to 1,024.
pub const LARGEST_K: usize = 16;

pub const LARGEST_N: usize = 1024;

// Level 1 to 10.
pub const TALLEST: u32 = 10;

// There are 16 slots.
pub const SLOTS: usize = 16;

// A path has at most 10 pages. Siblings, of which a slot holds fewer, stand in arrays of the same length.
pub const HELD: usize = 10;

// An insertion takes at most one page for each page on its path, and one more.
pub const NEW: usize = 11;

// The key on a blank tag, which is no lot's.
pub const BLANK_KEY: u32 = 0;

// How a pool is laid out: its width k and the number of its pages, neither above its limit.
#[derive(Clone, Copy)]
pub struct Shape {
    pub k: usize,
    pub n: usize,
    ghost width: { k ≤ largest_k },
    ghost most: { n ≤ largest_n },
}
