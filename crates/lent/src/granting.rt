// Who holds a page, and when a step grants a want. Most slots hold one page: the tops are looked at first, in one row, and
// below them only the slots that hold more.
ghost use Rattle.std.specs.Prelude.{◌≡◌, not, ◌&&◌, ◌||◌, ◌≤◌, ◌<◌, ltb, eqb, take};
ghost use Rattle.ground.specs.Tests.{any_below, member};
ghost use Rattle.slots.specs.Parts.{held};
ghost use Rattle.slots.specs.Locks.{lock_among, lock_held, lock_table, in_row};
ghost use Rattle.slots.specs.Heard.{lock_named};
ghost use Rattle.slots.specs.Grant as rule;
ghost use Rattle.lent.specs.Layout.{row_length, column_length, lock_row, beside_row};
ghost use Rattle.lent.specs.Words.{cell, page_in, number_in, column, lock_column, slot_in, as_read};
ghost use Rattle.lent.specs.Holds.{WithinRows, OpenOrder, top_holds, deep_holds, is_deep, others_hold, also_wants, other_converts, may_convert, RowOf};

use crate::cells::{Column, number_in, order_at, page_in, sized, waiting_of};
use crate::{BESIDE, PATH, STATE};
use ground::SLOTS;
use slots::Lock;

// The numbers of locks, as a report gives them.
pub const RHO: u32 = Lock::Rho as u32;

pub const XI: u32 = Lock::Xi as u32;

pub const UPDATER_RHO: u32 = Lock::UpdaterRho as u32;

pub const ALPHA: u32 = Lock::Alpha as u32;

// The row of the table for the lock of this number: which kinds clash with it. A number that is no lock clashes with none.
pub fn row_of(table: [[bool; 4]; 4], lock: u32) -> [bool; 4]
    requires { table ≡ lock_table }
    ensures { RowOf lock result }
{
    match lock {
        RHO..=ALPHA => table[lock as usize - 1],
        _ => [false; 4],
    }
}

// What the row says of the lock of this number. No way out in between: the rows ask this of several slots in one go.
fn row_says(row: [bool; 4], lock: u32) -> bool
    ensures { result ≡ in_row row (lock_named lock) }
{
    ((lock == RHO) & row[0])
        | ((lock == XI) & row[1])
        | ((lock == UPDATER_RHO) & row[2])
        | ((lock == ALPHA) & row[3])
}

impl Column<'_> {
    // Page p stands in one of the first `count` rows from `row` on.
    pub fn has(self, row: usize, count: usize, p: u32) -> bool
        requires { (row ≤ beside_row) × (count ≤ column_length) }
        ensures { result ≡ member p (take count (column self.entry.cells.now row self.entry.s)) }
    {
        for j in 0..count {
            if page_in(self.word(row + j)) == p {
                return true;
            }
        }
        false
    }

    // The slot holds page p, on its path or as a sibling.
    pub fn holds(self, p: u32) -> bool
        requires { WithinRows self.cells.now }
        ensures { result ≡ member p (held (slot_in self.entry.cells.now self.entry.s)) }
    {
        self.has(PATH, self.depth() as usize, p) || self.has(BESIDE, self.breadth() as usize, p)
    }

    // It holds more than one page.
    pub fn is_deep(self) -> bool
        ensures { result ≡ is_deep self.entry.cells.now self.entry.s }
    {
        (1 < self.depth()) | (0 < self.breadth())
    }

    // The number of the lock in the cell of page p, among the first `count` rows from `row` on; 0, if it is not there.
    fn lock_in(self, row: usize, count: usize, p: u32) -> u32
        requires { (row ≤ beside_row) × (count ≤ column_length) }
        ensures { lock_named result ≡ lock_among p (take count (column self.entry.cells.now row self.entry.s)) (take count (lock_column self.entry.cells.now row self.entry.s)) }
    {
        for j in 0..count {
            let word = self.word(row + j);
            if page_in(word) == p {
                return number_in(word);
            }
        }
        0
    }

    // The number of the lock under which the slot holds page p; 0, if it does not hold it.
    pub fn held_lock(self, p: u32) -> u32
        requires { WithinRows self.cells.now }
        ensures { lock_named result ≡ lock_held (slot_in self.entry.cells.now self.entry.s) p }
    {
        let depth = self.depth() as usize;
        if self.has(PATH, depth, p) {
            return self.lock_in(PATH, depth, p);
        }
        self.lock_in(BESIDE, self.breadth() as usize, p)
    }

    // It is another one than s, and page p is the top of its path, held under a lock that clashes. No way out in between here, in `is_deep`
    // and in `can_convert`: the rows ask this of several slots in one go.
    fn is_top(self, s: u32, row: [bool; 4], p: u32) -> bool
        ensures { result ≡ top_holds self.entry.cells.now s row p self.entry.s }
    {
        let top = self.top();
        (self.s as u32 != s)
            & ((0 < self.depth()) & (p == page_in(top)))
            & row_says(row, number_in(top))
    }

    // It is another one than s, wants page p, and holds some page, so that it may be p.
    fn can_convert(self, s: u32, p: u32) -> bool
        ensures { result ≡ may_convert self.entry.cells.now s p self.entry.s }
    {
        (self.s as u32 != s) & (self.want() == p) & ((0 < self.depth()) | (0 < self.breadth()))
    }

    // It is another one than s, it holds more than one page, and page p under a lock that clashes.
    fn deep_holds(self, s: usize, row: [bool; 4], p: u32) -> bool
        requires { WithinRows self.cells.now }
        ensures { result ≡ deep_holds self.entry.cells.now s row p self.entry.s }
    {
        self.is_deep() && self.s != s && row_says(row, self.held_lock(p))
    }

    // It wants page p, with a lock that clashes.
    fn also_wants(self, row: [bool; 4], p: u32) -> bool
        ensures { result ≡ also_wants self.entry.cells.now row p self.entry.s }
    {
        self.want() == p && row_says(row, self.wanted_lock())
    }

    // It is another one than s, and waits to convert page p: it wants it, and holds it. The want is asked first.
    fn also_converts(self, s: usize, p: u32) -> bool
        requires { WithinRows self.cells.now }
        ensures { result ≡ other_converts self.entry.cells.now s p self.entry.s }
    {
        self.want() == p && self.s != s && self.holds(p)
    }
}

// Some slot holds more than one page.
pub fn some_deep(cells: &[u32; STATE]) -> bool
    ensures { result ≡ any_below row_length (is_deep cells.now) }
{
    let mut found = false;
    for t in 0..SLOTS {
        found |= Column { cells, s: t }.is_deep();
    }
    found
}

// What the other slots hold and want is asked of them one by one.
impl Column<'_> {
    // Another slot has page p on top of its path, under a lock that clashes.
    fn tops_hold(self, row: [bool; 4], p: u32) -> bool
        ensures { result ≡ any_below row_length (top_holds self.entry.cells.now self.entry.s row p) }
    {
        let cells = self.cells;
        let mut found = false;
        for t in 0..SLOTS {
            found |= Column { cells, s: t }.is_top(self.s as u32, row, p);
        }
        found
    }

    // Another slot holds more than one page, and page p under a lock that clashes.
    fn some_deep_holds(self, row: [bool; 4], p: u32) -> bool
        requires { WithinRows self.cells.now }
        ensures { result ≡ any_below row_length (deep_holds self.entry.cells.now self.entry.s row p) }
    {
        let cells = self.cells;
        (0..SLOTS).any(
            |t|
                requires { (t < row_length) × WithinRows cells.now }
            { Column { cells, s: t }.deep_holds(self.s, row, p) },
        )
    }

    // Another slot holds page p under a lock that clashes.
    pub fn others_hold(self, row: [bool; 4], p: u32) -> bool
        requires { WithinRows self.cells.now }
        ensures { result ≡ others_hold self.entry.cells.now self.entry.s row p }
    {
        self.tops_hold(row, p) || (some_deep(self.cells) && self.some_deep_holds(row, p))
    }

    // No other slot holds the page that this one wants under a lock that clashes with the one it wants.
    fn no_clash(self, row: [bool; 4]) -> bool
        requires { WithinRows self.cells.now × RowOf (cell self.cells.now lock_row self.s) row }
        ensures { result ≡ rule.no_clash (as_read self.entry.cells.now) self.entry.s }
    {
        !self.others_hold(row, self.want())
    }

    // No older want clashes with that of the slot.
    fn no_older(self, row: [bool; 4]) -> bool
        requires { OpenOrder self.cells.now × RowOf (cell self.cells.now lock_row self.s) row }
        ensures { result ≡ rule.no_older (as_read self.entry.cells.now) self.entry.s }
    {
        let cells = self.cells;
        sized(cells);
        let want = self.want();
        let waiting = waiting_of(cells);
        let mut i = 0;
        // Stays: a rule of the project: the walk of older wants is left from inside, and yields what it found by `break`.
        loop {
            if waiting <= i {
                break true;
            }
            let t = order_at(cells, i);
            if t == self.s {
                break true;
            }
            let other = Column { cells, s: t };
            if other.also_wants(row, want) {
                break false;
            }
            i += 1;
        }
    }

    // Another slot waits to convert page p.
    fn some_converts(self, p: u32) -> bool
        requires { WithinRows self.cells.now }
        ensures { result ≡ any_below row_length (other_converts self.entry.cells.now self.entry.s p) }
    {
        let cells = self.cells;
        (0..SLOTS).any(
            |t|
                requires { (t < row_length) × WithinRows cells.now }
            { Column { cells, s: t }.also_converts(self.s, p) },
        )
    }

    // Another slot wants page p, and holds some page. Most often there is none, and then no slot is looked at by itself.
    fn some_can_convert(self, p: u32) -> bool
        ensures { result ≡ any_below row_length (may_convert self.entry.cells.now self.entry.s p) }
    {
        let cells = self.cells;
        let mut found = false;
        for t in 0..SLOTS {
            found |= Column { cells, s: t }.can_convert(self.s as u32, p);
        }
        found
    }

    // No other slot waits to convert the page that this one wants.
    fn no_conversion(self) -> bool
        requires { WithinRows self.cells.now }
        ensures { result ≡ rule.no_conversion (as_read self.entry.cells.now) self.entry.s }
    {
        let want = self.want();
        !(self.some_can_convert(want) && self.some_converts(want))
    }

    // No other want comes before that of the slot, if that is no conversion.
    fn none_before(self, row: [bool; 4]) -> bool
        requires { WithinRows self.cells.now × OpenOrder self.cells.now × RowOf (cell self.cells.now lock_row self.s) row }
        ensures { result ≡ rule.no_older (as_read self.entry.cells.now) self.entry.s && rule.no_conversion (as_read self.entry.cells.now) self.entry.s }
    {
        self.no_older(row) && self.no_conversion()
    }

    // The want of the slot waits for no other want: none comes before it, or it is a conversion, which waits for held locks alone. That it
    // is one is asked last: its pages are gone through for it.
    fn comes_first(self, row: [bool; 4]) -> bool
        requires { WithinRows self.cells.now × OpenOrder self.cells.now × RowOf (cell self.cells.now lock_row self.s) row }
        ensures { result ≡ rule.converts_at (as_read self.entry.cells.now) self.entry.s || (rule.no_older (as_read self.entry.cells.now) self.entry.s && rule.no_conversion (as_read self.entry.cells.now) self.entry.s) }
    {
        self.none_before(row) || self.holds(self.want())
    }

    // A step grants the want of the slot, by the table of locks. The row of the kind that it wants is found once.
    pub fn grants(self, table: [[bool; 4]; 4]) -> bool
        requires { WithinRows self.cells.now × OpenOrder self.cells.now × (table ≡ lock_table) }
        ensures { result ≡ rule.grants (as_read self.entry.cells.now) self.entry.s }
    {
        let row = row_of(table, self.wanted_lock());
        self.comes_first(row) && self.no_clash(row)
    }
}
