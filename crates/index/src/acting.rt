// A granted step: the course that is found, and what is done with it.
ghost use Rattle.std.specs.Prelude.{◌≡◌, true, ◌≤◌};
ghost use Rattle.page.specs.Reading.{looked};
ghost use Rattle.pool.specs.Pool.{page_at, free_pages};
ghost use Rattle.change.specs.Held.{Holding};
ghost use Rattle.deletion.specs.Deleting.{Deleting};
ghost use Rattle.slots.specs.Parts.{path_of, beside_of, first_way, fresh_stand, stand_of};
ghost use Rattle.slots.specs.Book.{requeued, goes_on};
ghost use Rattle.lent.specs.Layout.{column_length};
ghost use Rattle.lent.specs.Words.{as_read, known, laid_into};
ghost use Rattle.lent.specs.Holds.{InHalves};
ghost use Rattle.footing.specs.Fitting.{verdict};
ghost use Rattle.footing.specs.Standing.{Asks};
ghost use Rattle.course.specs.Judged.{course_of, ready};
ghost use Rattle.index.specs.Acting.{Waits, Acts, InCells, Leaves, MayInsert, wanting, stand_leaf, room_answer, after_insertion, after_deletion, regrade_answer, after_regrading};

use course::judging::{Course, judge};
use course::standing::stands;
use deletion::deleting::delete;
use footing::fitting::fits;
use ground::Shape;
use insertion::inserting::{insert, room};
use lent::book::{closes, requeues};
use lent::cells::sized;
use lent::{PAGES, STATE, WIDTH};
use pool::lying::take_pages;
use pool::pages::regrade_at;
use slots::making::fresh_slot;
use slots::operations::first_way;
use slots::{Answer, Lock, Op, Slot};

// The whole change of an insertion, if there is room. Room is counted before anything is written.
fn insert_lot(words: &mut [u32], shape: Shape, x: u32, v: u32, stand: Slot) -> Answer
    requires { MayInsert shape.k shape.n words.old stand }
    ensures value { result ≡ room_answer shape.k shape.n words.old stand }
    ensures words_after { words.new ≡ after_insertion shape.k shape.n words.old x v stand }
{
    let path = stand.path_pages();
    let need = room(words, shape, path);
    let Some(pages) = take_pages(words, shape, need) else {
        return Answer::NoRoom;
    };
    insert(words, shape, x, v, path, &pages);
    Answer::Inserted
}

// The whole change of a deletion.
fn delete_lot(words: &mut [u32], shape: Shape, x: u32, stand: Slot)
    requires { InCells stand × Deleting shape.k shape.n words.old x (path_of stand) (beside_of stand) }
    ensures { words.new ≡ after_deletion shape.k words.old x stand }
{
    delete(words, shape, x, stand.path_pages(), stand.beside_pages());
}

// The whole change of a regrading: one word of its leaf, if its key is there.
fn regrade_lot(words: &mut [u32], shape: Shape, x: u32, v: u32, stand: Slot) -> Answer
    requires { InCells stand × Holding shape.k shape.n words.old (path_of stand) }
    ensures value { result ≡ regrade_answer (looked x (page_at shape.k words.old (stand_leaf stand)).entries) }
    ensures words_after { words.new ≡ after_regrading shape.k words.old x v stand }
{
    match regrade_at(words, shape, stand.path[stand.depth - 1], x, v) {
        Some(old) => Answer::Regraded(old),
        None => Answer::NoSuchKey,
    }
}

// The slot goes on from where it stands and wants this page with this lock.
fn go_on(state: &mut [u32; STATE], s: usize, stand: Slot, next: u32, lock: Lock)
    requires { (Waits (as_read state.old) s) × (stand.depth ≤ column_length) × (stand.breadth ≤ column_length) × InHalves stand }
    ensures { state.new ≡ laid_into state.old s (requeued (as_read state.old) s (wanting next lock stand)) }
{
    let slot = Slot {
        want: next,
        lock,
        ..stand
    };
    requeues(state, s, slot);
}

// The slot gives up all that it holds, and its operation begins again by the first way. Its want is a new one: it goes to the end.
fn begin_again(state: &mut [u32; STATE], s: usize, op: Op)
    requires { Waits (as_read state.old) s }
    ensures { state.new ≡ laid_into state.old s (goes_on (as_read state.old) s (fresh_stand (first_way op))) }
{
    let first = first_way(op);
    requeues(state, s, fresh_slot(first));
}

// Each course.
fn act(
    state: &mut [u32; STATE],
    words: &mut [u32],
    s: usize,
    op: Op,
    stand: Slot,
    course: Course,
) -> Answer
    requires state_value { (known state.old ≡ true) × (Acts (as_read state.old) words.old s op stand) }
    requires ready { ready op (as_read state.old).k (page_at (as_read state.old).k words.old) (path_of stand) course }
    ensures { Leaves state.old words.old s (course_of (as_read state.old).k (page_at (as_read state.old).k words.old) (free_pages (as_read state.old).k (as_read state.old).n words.old) (stand_of op stand) course) result state.new words.new }
{
    sized(state);
    let shape = Shape {
        k: state[WIDTH] as usize,
        n: state[PAGES] as usize,
    };
    match course {
        Course::Broken => Answer::Damaged,
        Course::Goes(next, lock) => {
            go_on(state, s, stand, next, lock);
            Answer::Moved
        }
        Course::Ends(answer) => {
            closes(state, s);
            answer
        }
        Course::Inserts(x, v) => {
            let answer = insert_lot(words, shape, x, v, stand);
            closes(state, s);
            answer
        }
        Course::Deletes(x, v) => {
            delete_lot(words, shape, x, stand);
            closes(state, s);
            Answer::Deleted(v)
        }
        Course::Regrades(x, v) => {
            let answer = regrade_lot(words, shape, x, v, stand);
            closes(state, s);
            answer
        }
        Course::Again => {
            begin_again(state, s, op);
            Answer::Moved
        }
    }
}

// Slot s is granted its want. The pages are read again; if they are sound for the step, the operation does what it does from there.
pub fn granted_step(
    state: &mut [u32; STATE],
    words: &mut [u32],
    s: usize,
    op: Op,
    slot: Slot,
) -> Answer
    requires state_value { (known state.old ≡ true) × (Waits (as_read state.old) s) }
    requires asks { Asks (as_read state.old).k (as_read state.old).n words.old op slot }
    ensures { Leaves state.old words.old s (verdict (as_read state.old).k (as_read state.old).n words.old (stand_of op slot)) result state.new words.new }
{
    let shape = Shape {
        k: state[WIDTH] as usize,
        n: state[PAGES] as usize,
    };
    if !fits(words, shape, op, slot) {
        return Answer::Damaged;
    }
    let stand = stands(words, shape, op, slot);
    let course = judge(words, shape, op, stand);
    act(state, words, s, op, stand, course)
}
