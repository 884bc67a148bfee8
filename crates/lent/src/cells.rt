// The words of a state, one by one. Where a row lies is said here, and for the three rows of a task in `lifting::lay_task`.
ghost use Rattle.std.specs.Prelude.{◌≡◌, ◌+◌, ◌<◌, length, get_or, set};
ghost use Rattle.lent.specs.Layout.{k_at, n_at, waiting_at, order_from, row_length, kind_row, want_row, lock_row, depth_row, breadth_row, path_row, row_count, state_length};
ghost use Rattle.lent.specs.Words.{address, cell, page_in, number_in};

use crate::{
    BREADTH, DEPTH, KIND, LOCK, ORDER, PAGE_RANGE, PAGES, PATH, ROWS_FROM, STATE, WAITING, WANT,
    WIDTH,
};
use ground::SLOTS;

// The words are as many as a state has.
pub fn sized(cells: &[u32])
    requires { length cells.now ≡ state_length }
    ensures { length cells.now ≡ state_length }
{}

// A word is written in a row of slot s.
pub fn put(cells: &mut [u32; STATE], row: usize, s: usize, x: u32)
    requires { (row < row_count) × (s < row_length) }
    ensures { cells.new ≡ set cells.old (address row s) x }
{
    cells[ROWS_FROM + SLOTS * row + s] = x;
}

// k.
pub fn k_of(cells: &[u32; STATE]) -> usize
    ensures { result ≡ get_or cells.now k_at 0 }
{
    cells[WIDTH] as usize
}

// N.
pub fn n_of(cells: &[u32; STATE]) -> usize
    ensures { result ≡ get_or cells.now n_at 0 }
{
    cells[PAGES] as usize
}

// How many wait.
pub fn waiting_of(cells: &[u32; STATE]) -> usize
    ensures { result ≡ get_or cells.now waiting_at 0 }
{
    cells[WAITING] as usize
}

// The slot at place i of the waiting order.
pub fn order_at(cells: &[u32; STATE], i: usize) -> usize
    requires { i < row_length }
    ensures { result ≡ get_or cells.now (i + order_from) 0 }
{
    cells[i + ORDER] as usize
}

// The page of a held page's word, and the number of the kind of its lock.
pub fn page_in(word: u32) -> u32
    ensures { result ≡ page_in word }
{
    word % PAGE_RANGE
}

pub fn number_in(word: u32) -> u32
    ensures { result ≡ number_in word }
{
    word / PAGE_RANGE
}

// One slot's words, read where they lie.
#[derive(Clone, Copy)]
pub struct Column<'a> {
    pub cells: &'a [u32; STATE],
    pub s: usize,
    ghost in_row: { s < row_length },
}

impl Column<'_> {
    // The word in a row.
    pub fn word(self, row: usize) -> u32
        requires { row < row_count }
        ensures { result ≡ cell self.entry.cells.now row self.entry.s }
    {
        self.cells[ROWS_FROM + SLOTS * row + self.s]
    }

    // The kind of its task.
    pub fn kind(self) -> u32
        ensures { result ≡ cell self.entry.cells.now kind_row self.entry.s }
    {
        self.word(KIND)
    }

    // The page that it wants.
    pub fn want(self) -> u32
        ensures { result ≡ cell self.entry.cells.now want_row self.entry.s }
    {
        self.word(WANT)
    }

    // The number of the lock that it wants it with.
    pub fn wanted_lock(self) -> u32
        ensures { result ≡ cell self.entry.cells.now lock_row self.entry.s }
    {
        self.word(LOCK)
    }

    // How many pages are on its path.
    pub fn depth(self) -> u32
        ensures { result ≡ cell self.entry.cells.now depth_row self.entry.s }
    {
        self.word(DEPTH)
    }

    // How many pages it holds beside its path.
    pub fn breadth(self) -> u32
        ensures { result ≡ cell self.entry.cells.now breadth_row self.entry.s }
    {
        self.word(BREADTH)
    }

    // The word of the top page of its path.
    pub fn top(self) -> u32
        ensures { result ≡ cell self.entry.cells.now path_row self.entry.s }
    {
        self.word(PATH)
    }
}
