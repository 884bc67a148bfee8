// The public calls. No call asks anything of its arguments; an unsound one is answered by a refusal.
ghost use Rattle.std.specs.Prelude.{◌≡◌, ◌&&◌, eqb, length};
ghost use Rattle.ground.specs.Limits.{k_in_range, n_in_range};
ghost use Rattle.pool.specs.Pool.{pool_length};
ghost use Rattle.index.specs.Statements.{MakeSays, OpenSays, StepSays};

use crate::acting::granted_step;
pub use crate::beginning::begin;
pub use crate::reporting::report;
use ground::{SLOTS, Shape};
use lent::book::clear;
use lent::cells::{Column, sized};
use lent::{PAGES, STATE, WIDTH};
use opening::checking::{Fault, check};
use pool::lying::{make_fresh, start_of};
use slots::locking::lock_table;
use slots::{Answer, Task};
use soundness::checking::{is_sound, numbers_in_range};

// k and n are in range, and the words are as many as n pages of width k have.
fn is_pool(words: &[u32], k: usize, n: usize) -> bool
    ensures { result ≡ k_in_range k && n_in_range n && eqb (length words.now) (pool_length k n) }
{
    numbers_in_range(k, n) && words.len() == start_of(k, n)
}

// Makes a fresh pool of n pages of width k in the lent words, and an idle state beside it.
pub fn make(k: usize, n: usize, state: &mut [u32; STATE], words: &mut [u32]) -> Answer
    ensures { MakeSays k n words.old result state.new words.new }
{
    sized(state);
    clear(state);
    if !is_pool(words, k, n) {
        return Answer::BadPool;
    }
    state[WIDTH] = k as u32;
    state[PAGES] = n as u32;
    make_fresh(words);
    Answer::Made
}

// Opens the words that are handed in as a pool of n pages of width k, with an idle state beside them. The words are read, never written.
pub fn open(k: usize, n: usize, state: &mut [u32; STATE], words: &[u32]) -> Answer
    ensures { OpenSays k n words.now result state.new }
{
    sized(state);
    clear(state);
    if !is_pool(words, k, n) {
        return Answer::BadPool;
    }
    match check(words, Shape { k, n }) {
        Err(Fault::Unsound(p)) => Answer::BadPageInPool(p),
        Err(Fault::NoTree) => Answer::BadTree,
        Ok(()) => {
            state[WIDTH] = k as u32;
            state[PAGES] = n as u32;
            Answer::Opened
        }
    }
}

// Steps slot s.
pub fn step(state: &mut [u32; STATE], words: &mut [u32], s: usize) -> Answer
    ensures { StepSays state.old words.old s result state.new words.new }
{
    if !is_sound(state) {
        return Answer::BadState;
    }
    let k = state[WIDTH] as usize;
    let n = state[PAGES] as usize;
    if !is_pool(words, k, n) {
        return Answer::BadPool;
    }
    if SLOTS <= s {
        return Answer::BadSlot;
    }
    let column = Column { cells: state, s };
    let slot = column.slot();
    let Task::Open(op) = slot.task else {
        return Answer::SlotIdle;
    };
    if !column.grants(lock_table()) {
        return Answer::Waiting;
    }
    granted_step(state, words, s, op, slot)
}
