// One slot lifted out of its column, and laid back.
ghost use Rattle.std.specs.Prelude.{◌≡◌, [], ◌∷◌, ℕ, ◌≤◌, ◌<◌, get_or};
ghost use Rattle.lent.specs.Layout.{row_length, column_length, page_range, beside_row};
ghost use Rattle.lent.specs.Holds.{InHalves};
ghost use Rattle.slots.specs.Heard.{lock_named};
ghost use Rattle.lent.specs.Words.{column, lock_column, task_from, slot_in, kind_of, key_in, information_in, hold_word, hold_words, spread, slot_laid};

use crate::cells::{Column, number_in, page_in, put};
use crate::granting::{ALPHA, RHO, UPDATER_RHO, XI};
use crate::{
    BESIDE, BREADTH, DEPTH, INFORMATION, KEY, LOCK, PAGE_RANGE, PATH, ROWS_FROM, STATE, WANT,
};
use ground::{HELD, SLOTS};
use slots::operations::{asked_by, information_asked, key_asked, kind_asked};
use slots::{Lock, Slot, Task, Under};

// The task of this kind.
fn task_of(kind: u32, key: u32, information: u32) -> Task
    ensures { result ≡ task_from kind key information }
{
    asked_by(kind, key, information).map_or(Task::Closed, Task::Open)
}

// The lock of this number. A number that is no kind stands for none.
fn read_lock(number: u32) -> Lock
    ensures { result ≡ lock_named number }
{
    match number {
        RHO => Lock::Rho,
        XI => Lock::Xi,
        UPDATER_RHO => Lock::UpdaterRho,
        ALPHA => Lock::Alpha,
        _ => Lock::None,
    }
}

impl Column<'_> {
    // The pages in ten rows.
    fn pages(self, row: usize) -> [u32; HELD]
        requires { row ≤ beside_row }
        ensures { result ≡ column self.entry.cells.now row self.entry.s }
    {
        let mut pages = [0u32; HELD];
        // Stays: no plainer by `from_fn`, beside the kinds below, whose proof does not close so.
        for j in 0..HELD {
            pages[j] = page_in(self.word(row + j));
        }
        pages
    }

    // And the kinds of their locks.
    fn locks(self, row: usize) -> [Under; HELD]
        requires { row ≤ beside_row }
        ensures { result ≡ lock_column self.entry.cells.now row self.entry.s }
    {
        let mut locks = [Under { lock: Lock::None }; HELD];
        for j in 0..HELD {
            locks[j].lock = read_lock(number_in(self.word(row + j)));
        }
        locks
    }

    // The task of the slot.
    pub fn task(self) -> Task
        ensures { result ≡ (slot_in self.entry.cells.now self.entry.s).task }
    {
        task_of(self.kind(), self.word(KEY), self.word(INFORMATION))
    }

    // The slot. Lifted in one place, it is handed on whole; taken apart by the compiler, its forty numbers would be copied one by one.
    #[inline(never)]
    pub fn slot(self) -> Slot
        ensures { result ≡ slot_in self.entry.cells.now self.entry.s }
    {
        Slot {
            task: self.task(),
            want: self.want(),
            lock: read_lock(self.wanted_lock()),
            path: self.pages(PATH),
            locks: self.locks(PATH),
            depth: self.depth() as usize,
            beside: self.pages(BESIDE),
            sidelocks: self.locks(BESIDE),
            breadth: self.breadth() as usize,
        }
    }
}

// The numbers of a task: its kind, its key, its information.
fn numbers_of(task: Task) -> (u32, u32, u32)
    ensures { (result.0 ≡ kind_of task) × (result.1 ≡ key_in task) × (result.2 ≡ information_in task) }
{
    match task {
        Task::Closed => (0, 0, 0),
        Task::Open(op) => (kind_asked(op), key_asked(op), information_asked(op)),
    }
}

// The three numbers of a task, down the column of slot s.
fn lay_task(cells: &mut [u32; STATE], s: usize, task: Task)
    requires { s < row_length }
    ensures { cells.new ≡ spread cells.old 0 s (kind_of task ∷ key_in task ∷ information_in task ∷ []) }
{
    let (kind, key, information) = numbers_of(task);
    cells[ROWS_FROM + s] = kind;
    cells[ROWS_FROM + SLOTS * KEY + s] = key;
    cells[ROWS_FROM + SLOTS * INFORMATION + s] = information;
}

// A held page and the kind of its lock, in one word.
fn hold_word(page: u32, under: Under) -> u32
    requires { page < page_range }
    ensures { result ≡ hold_word page under }
{
    page + PAGE_RANGE * u32::from(under.lock)
}

// Ten pages with the kinds of their locks, down the column of slot s.
fn lay_column(
    cells: &mut [u32; STATE],
    row: usize,
    s: usize,
    pages: [u32; HELD],
    locks: [Under; HELD],
)
    requires { (row ≤ beside_row) × (s < row_length) × ((i : ℕ) → get_or pages i 0 < page_range) }
    ensures { cells.new ≡ spread cells.old row s (hold_words pages locks) }
{
    for j in 0..HELD {
        put(cells, row + j, s, hold_word(pages[j], locks[j]));
    }
}

// A slot, laid back.
pub fn lay(cells: &mut [u32; STATE], s: usize, slot: Slot)
    requires { (s < row_length) × (slot.depth ≤ column_length) × (slot.breadth ≤ column_length) × InHalves slot }
    ensures { cells.new ≡ slot_laid cells.old s slot }
{
    lay_task(cells, s, slot.task);
    put(cells, WANT, s, slot.want);
    put(cells, LOCK, s, u32::from(slot.lock));
    put(cells, DEPTH, s, slot.depth as u32);
    put(cells, BREADTH, s, slot.breadth as u32);
    lay_column(cells, PATH, s, slot.path, slot.locks);
    lay_column(cells, BESIDE, s, slot.beside, slot.sidelocks);
}
