// Slots and locks: who holds what, who waits for whom. The state and what the caller hears.
#![tactic(auto)]

pub mod hearing;
pub mod holding;
pub mod locking;
pub mod making;
pub mod operations;

use ground::{HELD, SLOTS};

// How an update goes down: with ξ-locks; as a reader does, and with ξ on its leaf alone; or with α-locks, which let readers stay and are converted to
// ξ once its change is known.
#[derive(Clone, Copy, PartialEq, Eq)]
pub enum Way {
    First,
    Second,
    Third,
}

// What a buyer asks for. Keys and information are any 32-bit unsigned numbers. An update has a way; who only reads has none.
#[derive(Clone, Copy, PartialEq, Eq)]
pub enum Op {
    Search(u32),
    // key, information
    Insert(u32, u32, Way),
    Delete(u32, Way),
    // the first lot at or above this key
    Next(u32),
    // key, new information
    Regrade(u32, u32, Way),
}

// A slot is closed, or open with an operation.
#[derive(Clone, Copy)]
pub enum Task {
    Closed,
    Open(Op),
}

// An open slot holds the pages of its path, from the top downward, and pages beside it: a deletion's siblings, from the leaf's
// upward, or the second way of a Next, from the top downward; each under a lock of the kind in the same cell of `locks` or `sidelocks`. It
// wants exactly one more page, with a lock of the kind `lock`. Cells behind a length are not looked at.
// Stays: a rule of the project: fixed arrays and no heap, so pages, kinds and their number stand beside each other.
#[derive(Clone, Copy)]
pub struct Slot {
    pub task: Task,
    pub want: u32,
    pub lock: Lock,
    pub path: [u32; HELD],
    pub locks: [Under; HELD],
    pub depth: usize,
    pub beside: [u32; HELD],
    pub sidelocks: [Under; HELD],
    pub breadth: usize,
}

// The kind of lock under which a page is held.
#[derive(Clone, Copy, PartialEq, Eq)]
pub struct Under {
    pub lock: Lock,
}

// The state that the rules speak of: k, the number of pages, the slots, and the waiting order, oldest first.
// Stays: a rule of the project: fixed arrays and no heap, so the order has its length beside it.
#[derive(Clone, Copy)]
pub struct State {
    pub k: usize,
    pub n: usize,
    pub slots: [Slot; SLOTS],
    pub order: [usize; SLOTS],
    pub waiting: usize,
}

// Kinds of lock, in the order of their numbers in a report. A new one goes to the end: no number told to a caller changes.
#[derive(Clone, Copy, PartialEq, Eq)]
pub enum Lock {
    None,
    Rho,
    Xi,
    UpdaterRho,
    Alpha,
}

// What the caller hears: refusals, then answers, in the order of their numbers. A new one goes to the end, whatever its number: so the
// proofs that go by cases only grow at their end.
#[derive(Clone, Copy)]
pub enum Answer {
    BadState,
    BadPool,
    BadSlot,
    SlotBusy,
    SlotIdle,
    Damaged,
    BadPage,
    Waiting,
    Moved,
    // information
    Found(u32),
    NotFound,
    Inserted,
    // the information that is there
    AlreadyThere(u32),
    // information
    Deleted(u32),
    NoSuchKey,
    NoRoom,
    Begun,
    Made,
    // kind, number of holders, lowest-numbered holder
    Reported(Lock, u32, u32),
    // key, information
    Next(u32, u32),
    None,
    // the old information
    Regraded(u32),
    Opened,
    // the lowest-numbered page that is not sound by itself
    BadPageInPool(u32),
    BadTree,
    BadKey,
}

// What beginning an operation gives, as the rules have it. In the code a state lies in lent words (crate lent).
#[derive(Clone, Copy)]
pub struct Outcome {
    pub answer: Answer,
    pub state: State,
}
