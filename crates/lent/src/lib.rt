// The state in lent words. k, N, how many wait, the waiting order; then, for each number of a slot, a row of one word a slot.
#![tactic(auto)]

pub mod book;
pub mod cells;
pub mod granting;
pub mod lifting;

use ground::{HELD, SLOTS};

// The words before the rows.
pub const WIDTH: usize = 0;

pub const PAGES: usize = 1;

pub const WAITING: usize = 2;

pub const ORDER: usize = 3;

pub const ROWS_FROM: usize = ORDER + SLOTS;

// The rows.
pub const KIND: usize = 0;

pub const KEY: usize = 1;

pub const INFORMATION: usize = 2;

pub const WANT: usize = 3;

pub const LOCK: usize = 4;

pub const DEPTH: usize = 5;

pub const BREADTH: usize = 6;

pub const PATH: usize = 7;

pub const BESIDE: usize = PATH + HELD;

pub const ROWS: usize = BESIDE + HELD;

// The word of a held page has the page in its lower half and the number of the kind of its lock in its upper half: pages are below this.
pub const PAGE_RANGE: u32 = 65536;

// All words of a state.
pub const STATE: usize = ROWS_FROM + SLOTS * ROWS;
