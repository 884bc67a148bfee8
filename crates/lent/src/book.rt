// A slot begins, goes on or closes: its column and the waiting order are written in place, and nothing else.
ghost use Rattle.std.specs.Prelude.{◌≡◌, ◌∷◌, ◌++◌, true, ◌+◌, ◌≤◌, ◌<◌, length, get_or, take, drop, set, replicate};
ghost use Rattle.ground.specs.Tests.{member};
ghost use Rattle.slots.specs.Parts.{waiting_order};
ghost use Rattle.slots.specs.Book.{leaving, begins, requeued, closes};
ghost use Rattle.lent.specs.Layout.{waiting_at, row_length, column_length, state_length};
ghost use Rattle.lent.specs.Words.{order_in, as_read, order_laid, laid_into};
ghost use Rattle.lent.specs.Holds.{InHalves};

use crate::cells::waiting_of;
use crate::lifting::lay;
use crate::{ORDER, ROWS_FROM, STATE, WAITING};
use slots::making::{closed_slot, fresh_slot};
use slots::{Op, Slot};

// Every word 0.
pub fn clear(cells: &mut [u32])
    ensures { cells.new ≡ replicate (length cells.old) 0 }
{
    cells.fill(0);
}

// Where slot s stands among the first `waiting` of the order.
fn standing(order: &[u32], waiting: usize, s: u32) -> usize
    requires { (waiting ≤ length order.now) × (member s (take waiting order.now) ≡ true) }
    ensures { (result < waiting) × (leaving s (take waiting order.now) ≡ take result order.now ++ drop (result + 1) (take waiting order.now)) }
{
    order[..waiting].iter().position(|t| *t == s).unwrap()
}

// Slot s leaves the first `waiting` of the order, and `last` stands in the cell left over.
fn leave(order: &mut [u32], waiting: usize, s: u32, last: u32)
    requires { (waiting ≤ length order.old) × (member s (take waiting order.old) ≡ true) }
    ensures { order.new ≡ leaving s (take waiting order.old) ++ last ∷ drop waiting order.old }
{
    let at = standing(order, waiting, s);
    order.copy_within(at + 1..waiting, at);
    order[waiting - 1] = last;
}

// The same in the words of a state.
fn leave_order(cells: &mut [u32], waiting: usize, s: u32, last: u32)
    requires { (length cells.old ≡ state_length) × (waiting ≤ row_length) × (member s (take waiting (order_in cells.old)) ≡ true) }
    ensures { cells.new ≡ order_laid cells.old (get_or cells.old waiting_at 0) (leaving s (take waiting (order_in cells.old)) ++ last ∷ drop waiting (order_in cells.old)) }
{
    leave(&mut cells[ORDER..ROWS_FROM], waiting, s, last);
}

// Slot s is the last that waits.
fn join_order(cells: &mut [u32; STATE], waiting: usize, s: usize)
    requires { (waiting < row_length) × (s < row_length) }
    ensures { cells.new ≡ order_laid cells.old (waiting + 1) (set (order_in cells.old) waiting s) }
{
    cells[waiting + ORDER] = s as u32;
    cells[WAITING] = (waiting + 1) as u32;
}

// Beginning an operation makes the slot want page 0.
pub fn begins(cells: &mut [u32; STATE], s: usize, op: Op)
    requires { (s < row_length) × (get_or cells.old waiting_at 0 < row_length) }
    ensures { cells.new ≡ laid_into cells.old s (begins (as_read cells.old) s op) }
{
    let waiting = waiting_of(cells);
    join_order(cells, waiting, s);
    lay(cells, s, fresh_slot(op));
}

// The slot goes on with new holdings: its new want goes to the end of the waiting order.
pub fn requeues(cells: &mut [u32; STATE], s: usize, slot: Slot)
    requires { (s < row_length) × (get_or cells.old waiting_at 0 ≤ row_length) × (member s (waiting_order (as_read cells.old)) ≡ true) × (slot.depth ≤ column_length) × (slot.breadth ≤ column_length) × InHalves slot }
    ensures { cells.new ≡ laid_into cells.old s (requeued (as_read cells.old) s slot) }
{
    let waiting = waiting_of(cells);
    leave_order(cells, waiting, s as u32, s as u32);
    lay(cells, s, slot);
}

// An answer that ends the operation gives up every lock and closes the slot.
pub fn closes(cells: &mut [u32; STATE], s: usize)
    requires { (s < row_length) × (get_or cells.old waiting_at 0 ≤ row_length) × (member s (waiting_order (as_read cells.old)) ≡ true) }
    ensures { cells.new ≡ laid_into cells.old s (closes (as_read cells.old) s) }
{
    let waiting = waiting_of(cells);
    leave_order(cells, waiting, s as u32, 0);
    cells[WAITING] = (waiting - 1) as u32;
    lay(cells, s, closed_slot());
}
