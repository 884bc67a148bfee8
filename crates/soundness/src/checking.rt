// Whether a state is sound. First kind, numbers of pages held, want, its lock and top of the path of every slot, with no way out in
// between, so that several slots are looked at in one go. Then the waiting order is held against the open slots; then the slots that hold
// more than one page are looked at; then each page held under ξ or α is looked for in the other slots.
ghost use Rattle.std.specs.Prelude.{ℕ, Bool, ◌≤◌, ◌<◌, false, ◌&&◌, ◌≡◌, length, get_or, take};
ghost use Rattle.ground.specs.Limits.{k_in_range, n_in_range, slot_count};
ghost use Rattle.ground.specs.Tests.{all_below, count_below};
ghost use Rattle.slots.specs.Report.{mask_below};
ghost use Rattle.slots.specs.Locks.{lock_table};
ghost use Rattle.slots.specs.Sound.{names_each, sound};
ghost use Rattle.lent.specs.Layout.{waiting_at, row_length, column_length, kind_row, path_row, beside_row};
ghost use Rattle.lent.specs.Words.{cell, column, slot_in, order_in, state_of};
ghost use Rattle.lent.specs.Holds.{WithinRows};
ghost use Rattle.soundness.specs.Checking.{may_enter, held_once, updates_kind, third_kind, excludes_kind, kind_lock, kind_holds, kind_wants, as_conversion, top_fine, row_fine, pages_fine, may_hold_more, Tells, column_passes, held_pass, under_kind, more_fine, deep_fine, open_kind, apart_in, word_alone, each_alone, alone_in, excludes, stands_alone};

use ground::{HELD, LARGEST_K, LARGEST_N, SLOTS};
use lent::cells::{Column, k_of, n_of, number_in, order_at, page_in, sized, waiting_of};
use lent::granting::{ALPHA, RHO, XI, row_of, some_deep};
use lent::{BESIDE, PATH, STATE};
use slots::locking::lock_table;
use slots::operations::{
    DELETES, DELETES_THIRD, HIGHEST_KIND, INSERTS, INSERTS_THIRD, NEXTS, REGRADES, REGRADES_SECOND,
};
use std::array::from_fn;

// The longest path, as the words have it.
const DEPTH_LIMIT: u32 = HELD as u32;

// k and N are in range.
pub fn numbers_in_range(k: usize, n: usize) -> bool
    ensures { result ≡ k_in_range k && n_in_range n }
{
    (1..=LARGEST_K).contains(&k) && (1..=LARGEST_N).contains(&n)
}

// A slot of this kind holds its pages under ξ: it is an insertion, a deletion (of all kinds these alone have the half 1) or a regrading,
// by the first way. No way out in between: the rows ask this of several slots in one go. Where the three are compared one by one, the
// compiler makes no vector code of it on Arm.
fn is_update(kind: u32) -> bool
    ensures { result ≡ updates_kind kind }
{
    (kind / 2 == 1) | (kind == REGRADES)
}

// A slot of this kind goes by the third way: these kinds stand behind the second way's.
fn is_third(kind: u32) -> bool
    ensures { result ≡ third_kind kind }
{
    REGRADES_SECOND < kind
}

// The number of the lock with which an open slot of this kind goes down: ξ for an update by the first way, updater's ρ by the second (the
// kinds behind the first way's), α by the third, else ρ. They are numbered ρ, ξ, updater's ρ, α.
fn kind_lock(kind: u32) -> u32
    ensures { result ≡ kind_lock kind }
{
    RHO + is_update(kind) as u32 + 2 * ((REGRADES < kind) as u32) + is_third(kind) as u32
}

// An open slot of this kind can hold a page under the lock of this number: under the one with which it goes down, and by the third way
// under ξ, where it was converted.
fn kind_holds(kind: u32, lock: u32) -> bool
    ensures { result ≡ kind_holds kind lock }
{
    (lock == kind_lock(kind)) | (is_third(kind) & (lock == XI))
}

// It can want with the lock of this number: with the one with which it goes down, and by the second and the third way (the kinds behind the
// first way's) with ξ.
fn kind_wants(kind: u32, lock: u32) -> bool
    ensures { result ≡ kind_wants kind lock }
{
    (lock == kind_lock(kind)) | ((REGRADES < kind) & (lock == XI))
}

// It wants a conversion: by the third way ξ is wanted so alone.
fn wants_conversion(kind: u32, lock: u32) -> bool
    ensures { result ≡ as_conversion kind lock }
{
    is_third(kind) & (lock == XI)
}

// The top of the path, if there is one, is below n, and under a lock that the kind can hold it under. A slot that holds no more converts its
// top, from α, if it wants it, and nothing else; of a slot that holds more this is asked of all its pages (`pages_fine`).
fn top_fine(slot: Column<'_>, n: u32) -> bool
    ensures { result ≡ top_fine slot.entry.cells.now n slot.entry.s }
{
    let kind = slot.kind();
    let depth = slot.depth();
    let page = page_in(slot.top());
    let number = number_in(slot.top());
    let own = (0 < depth) & (slot.want() == page);
    let converts = wants_conversion(kind, slot.wanted_lock());
    ((depth == 0) | ((page < n) & kind_holds(kind, number)))
        & (slot.is_deep() | (converts & own & (number == ALPHA)) | (!converts & !own))
}

// The slot may be sound, as far as the rows tell. A closed slot holds nothing, and its want is not looked at. The open
// kinds are told from one another by their locks alone here, which keeps the rows quick: one page is within the limits of each, and what
// a kind may hold beyond that is asked only of the slots that do (`more_fine`). Pages beside the path are fewer than on it, so within
// their limit.
fn is_fine(slot: Column<'_>, n: u32) -> bool
    ensures { result ≡ row_fine slot.entry.cells.now n slot.entry.s }
{
    let kind = slot.kind();
    let depth = slot.depth();
    let breadth = slot.breadth();
    (kind <= HIGHEST_KIND)
        & (depth <= DEPTH_LIMIT)
        & ((kind != 0) | (depth == 0))
        & ((breadth == 0) | (breadth < depth))
        & ((kind == 0) | (slot.want() < n))
        & top_fine(slot, n)
        & ((kind == 0) | kind_wants(kind, slot.wanted_lock()))
}

// Every slot does.
fn rows_fine(cells: &[u32; STATE], n: u32) -> bool
    ensures { result ≡ all_below row_length (row_fine cells.now n) }
{
    let mut good = true;
    for s in 0..SLOTS {
        good &= is_fine(Column { cells, s }, n);
    }
    good
}

// The first `count` rows from `row` on name pages below n, none of them `other`, none among the first `own` of the path, and none twice.
fn may_enter(slot: Column<'_>, n: u32, other: u32, row: usize, count: usize, own: usize) -> bool
    requires { (row ≤ beside_row) × (count ≤ column_length) × (own ≤ column_length) }
    ensures { result ≡ may_enter n other (take own (column slot.entry.cells.now path_row slot.entry.s)) (take count (column slot.entry.cells.now row slot.entry.s)) }
{
    for i in 0..count {
        let p = page_in(slot.word(row + i));
        if n <= p || p == other || slot.has(PATH, own, p) || slot.has(row, i, p) {
            return false;
        }
    }
    true
}

// All pages that the slot holds are below n, none of them is `other`, and it holds none twice.
fn all_enter(slot: Column<'_>, n: u32, other: u32) -> bool
    requires { WithinRows slot.cells.now }
    ensures { result ≡ held_once n other (slot_in slot.entry.cells.now slot.entry.s) }
{
    let depth = slot.depth() as usize;
    let breadth = slot.breadth() as usize;
    may_enter(slot, n, other, PATH, depth, 0) && may_enter(slot, n, other, BESIDE, breadth, depth)
}

// All pages that the slot names are below n, it holds none twice, and wants one that it holds only as a conversion, from α. Of a conversion
// the wanted page may stand among the others; n may not, but no page below n is n.
fn pages_fine(slot: Column<'_>, n: u32) -> bool
    requires { WithinRows slot.cells.now }
    ensures { result ≡ pages_fine slot.entry.cells.now n slot.entry.s }
{
    let want = slot.want();
    if n <= want {
        return false;
    }
    if !wants_conversion(slot.kind(), slot.wanted_lock()) {
        return all_enter(slot, n, want);
    }
    slot.held_lock(want) == ALPHA && all_enter(slot, n, n)
}

// A slot of this kind may hold more than one page, with so many beside its path: a deletion and a Next may, an insertion on its
// path alone. A search, a regrading and an update by the second way hold one page at most.
fn may_hold_more(kind: u32, breadth: u32) -> bool
    ensures { result ≡ may_hold_more kind breadth }
{
    (kind == DELETES)
        | (kind == NEXTS)
        | (kind == DELETES_THIRD)
        | (((kind == INSERTS) | (kind == INSERTS_THIRD)) & (breadth == 0))
}

// The first `count` words of the slot, from row `from` on, pass a test.
fn column_passes<F: Fn(u32) -> bool>(slot: Column<'_>, from: usize, count: usize, test: F) -> bool
    requires place { (from ≤ beside_row) × (count ≤ column_length) }
    requires callable { F.IsAlwaysCallable test }
    ensures { (p : ℕ → Bool) → Tells (F.post test) p → result ≡ column_passes p slot.entry.cells.now from slot.entry.s count }
{
    // Stays: a loop of its own. With the range's `all` the test of a state takes a third longer.
    for i in 0..count {
        if !test(slot.word(from + i)) {
            return false;
        }
    }
    true
}

// The words of all pages that the slot holds do.
fn held_pass<F: Fn(u32) -> bool>(slot: Column<'_>, test: F) -> bool
    requires place { WithinRows slot.cells.now }
    requires callable { F.IsAlwaysCallable test }
    ensures { (p : ℕ → Bool) → Tells (F.post test) p → result ≡ held_pass p slot.entry.cells.now slot.entry.s }
{
    column_passes(slot, PATH, slot.depth() as usize, &test)
        && column_passes(slot, BESIDE, slot.breadth() as usize, &test)
}

// All pages of the slot are held under locks that its kind can hold a page under.
fn under_kind(slot: Column<'_>) -> bool
    requires { WithinRows slot.cells.now }
    ensures { result ≡ under_kind slot.entry.cells.now slot.entry.s }
{
    let kind = slot.kind();
    held_pass(slot, |word| kind_holds(kind, number_in(word)))
}

// The slot, which holds more than one page, may, its pages are fine, and held under locks that its kind can hold them under.
fn more_fine(slot: Column<'_>, n: u32) -> bool
    requires { WithinRows slot.cells.now }
    ensures { result ≡ more_fine slot.entry.cells.now n slot.entry.s }
{
    may_hold_more(slot.kind(), slot.breadth()) && pages_fine(slot, n) && under_kind(slot)
}

// Every slot that holds more than one page is so.
fn deep_fine(cells: &[u32; STATE], n: u32) -> bool
    requires { WithinRows cells.now }
    ensures { result ≡ all_below row_length (deep_fine cells.now n) }
{
    !some_deep(cells)
        || (0..SLOTS).all(
            |s|
                requires { (s < row_length) × WithinRows cells.now }
            {
                let slot = Column { cells, s };
                !slot.is_deep() || more_fine(slot, n)
            },
        )
}

// Which slots are open.
fn busy_of(cells: &[u32; STATE]) -> [bool; SLOTS]
    ensures { (length result ≡ row_length) × ((s : ℕ) → s < row_length → get_or result s false ≡ open_kind (cell cells.now kind_row s)) }
{
    from_fn(
        |s|
            requires { s < row_length }
        {
            let kind = Column { cells, s }.kind();
            (kind != 0) & (kind <= HIGHEST_KIND)
        },
    )
}

// How many slots are marked.
fn marked(marks: [bool; SLOTS]) -> usize
    ensures { result ≡ count_below slot_count (λ (s : ℕ). get_or marks s false) }
{
    let mut count = 0;
    // Stays: a loop of its own: of the chain's `count` the compiler makes no vector code, and the test of a state takes a tenth longer.
    for s in 0..SLOTS {
        if marks[s] {
            count += 1;
        }
    }
    count
}

// The waiting order names each open slot once and no other. As many slots must be open as wait: then an order that names
// open slots, none twice, leaves none out, and the marks are not read again.
fn order_sound(cells: &[u32; STATE], waiting: usize, busy: [bool; SLOTS]) -> bool
    ensures { result ≡ names_each (λ (s : ℕ). get_or busy s false) waiting (order_in cells.now) }
{
    sized(cells);
    if SLOTS < waiting || waiting != marked(busy) {
        return false;
    }
    let mut unnamed = busy;
    for i in 0..waiting {
        let s = order_at(cells, i);
        if SLOTS <= s || !unnamed[s] {
            return false;
        }
        unnamed[s] = false;
    }
    true
}

// No other slot holds a page that the slot holds, under a lock that clashes with the kind of this row of the table.
fn is_apart(slot: Column<'_>, row: [bool; 4]) -> bool
    requires { WithinRows slot.cells.now }
    ensures { result ≡ apart_in slot.entry.cells.now slot.entry.s row }
{
    held_pass(slot, |word| !slot.others_hold(row, page_in(word)))
}

// No other slot holds the page of this word of the slot under a lock that clashes with the word's own.
fn word_alone(slot: Column<'_>, table: [[bool; 4]; 4], word: u32) -> bool
    requires { WithinRows slot.cells.now × (table ≡ lock_table) }
    ensures { result ≡ word_alone slot.entry.cells.now slot.entry.s word }
{
    !slot.others_hold(row_of(table, number_in(word)), page_in(word))
}

// So of all pages that the slot holds.
fn each_alone(slot: Column<'_>, table: [[bool; 4]; 4]) -> bool
    requires { WithinRows slot.cells.now × (table ≡ lock_table) }
    ensures { result ≡ each_alone slot.entry.cells.now slot.entry.s }
{
    held_pass(slot, |word| word_alone(slot, table, word))
}

// No other slot holds a page of the slot, which holds under ξ or α, under a lock that clashes. By the third way each page is asked by its own
// lock. By the first all are under ξ: one row, known beforehand, is quicker.
fn is_alone(slot: Column<'_>, table: [[bool; 4]; 4]) -> bool
    requires { WithinRows slot.cells.now × (table ≡ lock_table) }
    ensures { result ≡ alone_in slot.entry.cells.now slot.entry.s }
{
    if is_third(slot.kind()) {
        return each_alone(slot, table);
    }
    let row = table[XI as usize - 1];
    is_apart(slot, row)
}

// A slot of this kind holds under ξ or α: an update by the first or the third way.
fn is_exclusive(kind: u32) -> bool
    ensures { result ≡ excludes_kind kind }
{
    is_update(kind) | is_third(kind)
}

// The slots of these kinds, one bit for each.
fn excluding(cells: &[u32; STATE]) -> u16
    ensures { result ≡ mask_below row_length (excludes cells.now) }
{
    let mut mask = 0u16;
    for s in 0..SLOTS {
        if is_exclusive(Column { cells, s }.kind()) {
            mask |= 1u16 << s;
        }
    }
    mask
}

// No page is held under locks that clash. One of two such locks is ξ or α, so the slots that hold under these are looked at; they are
// taken off the mask from the lowest on.
fn no_clashes(cells: &[u32; STATE]) -> bool
    requires { WithinRows cells.now }
    ensures { result ≡ all_below row_length (stands_alone cells.now) }
{
    let table = lock_table();
    let mut left = excluding(cells);
    // Stays: no plainer by a range: that goes over all sixteen slots, and asks of each again what the mask has told.
    while left != 0 {
        let s = left.trailing_zeros() as usize;
        if !is_alone(Column { cells, s }, table) {
            return false;
        }
        left -= 1u16 << s;
    }
    true
}

// The waiting order is sound.
fn waits_sound(cells: &[u32; STATE]) -> bool
    ensures { result ≡ names_each (λ (s : ℕ). open_kind (cell cells.now kind_row s)) (get_or cells.now waiting_at 0) (order_in cells.now) }
{
    let waiting = waiting_of(cells);
    let busy = busy_of(cells);
    order_sound(cells, waiting, busy)
}

// The state is sound.
pub fn is_sound(cells: &[u32; STATE]) -> bool
    ensures { result ≡ sound (state_of cells.now) }
{
    let n = n_of(cells);
    numbers_in_range(k_of(cells), n)
        && rows_fine(cells, n as u32)
        && waits_sound(cells)
        && deep_fine(cells, n as u32)
        && no_clashes(cells)
}
