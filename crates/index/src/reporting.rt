// The lock report for a page: which kind of lock, how many slots hold it, and the lowest-numbered of them.
ghost use Rattle.std.specs.Prelude.{◌≡◌, true};
ghost use Rattle.slots.specs.Heard.{lock_named};
ghost use Rattle.slots.specs.Report.{holders_mask, held_under, lock_kind};
ghost use Rattle.lent.specs.Words.{as_read};
ghost use Rattle.lent.specs.Holds.{WithinRows, is_lock_number};
ghost use Rattle.index.specs.Statements.{ReportSays};

use ground::SLOTS;
use lent::STATE;
use lent::cells::{Column, n_of};
use lent::granting::{ALPHA, RHO, UPDATER_RHO, XI};
use slots::{Answer, Lock};
use soundness::checking::is_sound;

// The slots that hold page p, one bit for each.
fn holders(cells: &[u32; STATE], p: u32) -> u16
    requires { WithinRows cells.now }
    ensures { result ≡ holders_mask (as_read cells.now) p }
{
    let mut mask = 0u16;
    for s in 0..SLOTS {
        if (Column { cells, s }).holds(p) {
            mask |= 1u16 << s;
        }
    }
    mask
}

// Some slot holds page p under the lock of this number.
fn held_under(cells: &[u32; STATE], p: u32, lock: u32) -> bool
    requires { WithinRows cells.now × (is_lock_number lock ≡ true) }
    ensures { result ≡ held_under (as_read cells.now) p (lock_named lock) }
{
    // Stays: a loop, no `any` with a closure: with it a report of a page that many pages are held beside takes half as long again.
    for s in 0..SLOTS {
        if (Column { cells, s }).held_lock(p) == lock {
            return true;
        }
    }
    false
}

// The first kind that page p is held under, of ξ, α, updater's ρ and ρ; none, if nobody holds it.
fn lock_kind(cells: &[u32; STATE], p: u32) -> Lock
    requires { WithinRows cells.now }
    ensures { result ≡ lock_kind (as_read cells.now) p }
{
    if held_under(cells, p, XI) {
        Lock::Xi
    } else if held_under(cells, p, ALPHA) {
        Lock::Alpha
    } else if held_under(cells, p, UPDATER_RHO) {
        Lock::UpdaterRho
    } else if held_under(cells, p, RHO) {
        Lock::Rho
    } else {
        Lock::None
    }
}

// What page p is held by.
pub fn report(state: &[u32; STATE], p: u32) -> Answer
    ensures { ReportSays state.now p result }
{
    if !is_sound(state) {
        return Answer::BadState;
    }
    if n_of(state) <= p as usize {
        return Answer::BadPage;
    }
    let mask = holders(state, p);
    let count = mask.count_ones();
    let lowest = mask.trailing_zeros();
    Answer::Reported(lock_kind(state, p), count, lowest)
}
