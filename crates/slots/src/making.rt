// Slots as the rules make them: closed, fresh, with one page more, and with one page converted.
#![tactic(auto, unfolding(ground::specs::Limits::path_holds, ground::specs::Tests::filled, crate::specs::Parts::path_of, crate::specs::Parts::locks_of, crate::specs::Parts::beside_of, crate::specs::Parts::sidelocks_of, crate::specs::Parts::with_xi))]

ghost use Rattle.std.specs.Prelude.{◌≡◌, [], ◌∷◌, ◌++◌, ◌≤◌, ◌<◌, length, take};
ghost use Rattle.ground.specs.Limits.{path_holds};
ghost use Rattle.ground.specs.Tests.{filled, padded};
ghost use Rattle.slots.specs.Parts.{closed_slot, path_of, beside_of, locks_of, sidelocks_of, lock_cells, under, with_xi, on_pages, want_converted, fresh_stand, stand_of, slot_of};

use crate::operations::held_lock;
use crate::{Lock, Op, Slot, Task, Under};
use ground::HELD;

// Under no lock, as a cell behind a length.
const NO_LOCK: Under = Under { lock: Lock::None };

// A closed slot holds nothing; its cells are 0.
pub fn closed_slot() -> Slot
    ensures { result ≡ closed_slot }
{
    Slot {
        task: Task::Closed,
        want: 0,
        lock: Lock::None,
        path: [0; HELD],
        locks: [NO_LOCK; HELD],
        depth: 0,
        beside: [0; HELD],
        sidelocks: [NO_LOCK; HELD],
        breadth: 0,
    }
}

// Keeps the first `count` cells, and puts `none` into the others.
#[tactic(auto, using(crate::proofs::MakingLaws::cleared_more, crate::proofs::MakingLaws::cleared_all))]
fn keep_first<T: Copy>(cells: &mut [T], count: usize, none: T)
    requires { count ≤ length cells.old }
    ensures { cells.new ≡ filled none (length cells.old) (take count cells.old) }
{
    for cell in &mut cells[count..] {
        *cell = none;
    }
}

// Keeps the first `count` cells, puts this one behind them, and `none` into the others.
#[tactic(auto, using(ground::proofs::Padded::filled_add))]
fn put_behind<T: Copy>(cells: &mut [T], count: usize, cell: T, none: T)
    requires { count < length cells.old }
    ensures { cells.new ≡ filled none (length cells.old) (take count cells.old ++ cell ∷ []) }
{
    keep_first(cells, count, none);
    cells[count] = cell;
}

// The first `count` cells, and behind them p.
pub fn with_page(mut cells: [u32; HELD], count: usize, p: u32) -> [u32; HELD]
    requires { count < path_holds }
    ensures { result ≡ padded path_holds (take count cells ++ p ∷ []) }
{
    put_behind(&mut cells, count, p, 0);
    cells
}

// The first `count` kinds, with ξ where page p stands, and none behind them.
fn with_xi(pages: [u32; HELD], locks: [Under; HELD], count: usize, p: u32) -> [Under; HELD]
    requires { count ≤ path_holds }
    ensures { result ≡ lock_cells (with_xi p (take count pages) (take count locks)) }
{
    let mut next = [NO_LOCK; HELD];
    for i in 0..count {
        next[i] = if p == pages[i] {
            Under { lock: Lock::Xi }
        } else {
            locks[i]
        };
    }
    next
}

// A slot that wants page 0, with the lock under which its operation holds, and holds nothing yet.
pub fn fresh_slot(op: Op) -> Slot
    ensures { result ≡ slot_of (fresh_stand op) }
{
    Slot {
        task: Task::Open(op),
        lock: held_lock(op),
        ..closed_slot()
    }
}

// A slot that holds page p alone, under the kind with which it wants, here and below. Its want and the lock of it stay.
pub fn holding_one(op: Op, slot: Slot, p: u32) -> Slot
    ensures { result ≡ slot_of (on_pages (stand_of op slot) (p ∷ []) (under slot.lock ∷ []) [] []) }
{
    let mut next = Slot {
        task: Task::Open(op),
        want: slot.want,
        lock: slot.lock,
        depth: 1,
        ..closed_slot()
    };
    next.path[0] = p;
    next.locks[0].lock = slot.lock;
    next
}

// A slot that holds page p at the end of the path it held.
pub fn holding_more(op: Op, slot: Slot, p: u32) -> Slot
    requires { slot.depth < path_holds }
    ensures { result ≡ slot_of (on_pages (stand_of op slot) (path_of slot ++ p ∷ []) (locks_of slot ++ under slot.lock ∷ []) [] []) }
{
    let mut next = Slot {
        task: Task::Open(op),
        depth: slot.depth + 1,
        beside: [0; HELD],
        sidelocks: [NO_LOCK; HELD],
        breadth: 0,
        ..slot
    };
    put_behind(&mut next.path, slot.depth, p, 0);
    put_behind(
        &mut next.locks,
        slot.depth,
        Under { lock: slot.lock },
        NO_LOCK,
    );
    next
}

// A slot that holds page p behind the siblings it held.
pub fn holding_beside(op: Op, slot: Slot, p: u32) -> Slot
    requires { (slot.depth ≤ path_holds) × (slot.breadth < path_holds) }
    ensures { result ≡ slot_of (on_pages (stand_of op slot) (path_of slot) (locks_of slot) (beside_of slot ++ p ∷ []) (sidelocks_of slot ++ under slot.lock ∷ [])) }
{
    let mut next = Slot {
        task: Task::Open(op),
        breadth: slot.breadth + 1,
        ..slot
    };
    keep_first(&mut next.path, slot.depth, 0);
    keep_first(&mut next.locks, slot.depth, NO_LOCK);
    put_behind(&mut next.beside, slot.breadth, p, 0);
    put_behind(
        &mut next.sidelocks,
        slot.breadth,
        Under { lock: slot.lock },
        NO_LOCK,
    );
    next
}

// A slot that holds with ξ the page that it wanted, and held before.
pub fn converted(op: Op, slot: Slot) -> Slot
    requires { (slot.depth ≤ path_holds) × (slot.breadth ≤ path_holds) }
    ensures { result ≡ slot_of (want_converted (stand_of op slot)) }
{
    let mut next = Slot {
        task: Task::Open(op),
        locks: with_xi(slot.path, slot.locks, slot.depth, slot.want),
        sidelocks: with_xi(slot.beside, slot.sidelocks, slot.breadth, slot.want),
        ..slot
    };
    keep_first(&mut next.path, slot.depth, 0);
    keep_first(&mut next.beside, slot.breadth, 0);
    next
}
