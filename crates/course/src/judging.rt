// What an operation does from where it stands.
#![tactic(auto, unfolding(ground::specs::Limits::path_holds))]

ghost use Rattle.std.specs.Prelude.{◌≡◌, true};
ghost use Rattle.page.specs.Reading.{Readable};
ghost use Rattle.page.specs.Sound.{rises};
ghost use Rattle.pool.specs.Pool.{words_of, page_at, free_pages};
ghost use Rattle.pool.specs.Wrapped.{InPool};
ghost use Rattle.slots.specs.declared.Op.TheVariants.{Delete, Next};
ghost use Rattle.slots.specs.Parts.{path_of, stand_of};
ghost use Rattle.footing.specs.Standing.{SlotStanding};
ghost use Rattle.course.specs.Judged.{begins_again, turn_course, judged, if_new, course_of, ready, next_course, search_course, insert_course, delete_course, cross_course, first_course, left_course, nexts_course};

use change::needing::{Astray, needs};
use footing::converting::{at_once, change_known, next_turn};
use footing::looking::{has_child_right, is_safe, lock_below};
use ground::Shape;
use pool::pages::{at_or_above_of, is_leaf_of, look_of, neighbour_of, pointer_of, route_of};
use slots::holding::holds;
use slots::operations::{first_way, held_lock, is_second, is_third, key_asked};
use slots::{Answer, Lock, Op, Slot, Way};

// The pages are not sound for the step; the slot goes on and wants this page with this lock; the operation ends, and no page is written; or
// it makes the whole change of an insertion (key, information) or of a deletion (key, information that it answers). A regrading (key, new
// information) looks its key up where it writes, and changes nothing if it is missing. An update by the second way may begin again.
#[derive(Clone, Copy)]
pub enum Course {
    Broken,
    Goes(u32, Lock),
    Ends(Answer),
    Inserts(u32, u32),
    Deletes(u32, u32),
    Regrades(u32, u32),
    Again,
}

// The slot goes on, if the page it would want next is none that it holds.
fn goes(stand: Slot, next: u32, lock: Lock) -> Course
    ensures { result ≡ next_course stand next lock }
{
    if holds(stand, next) {
        return Course::Broken;
    }
    Course::Goes(next, lock)
}

// A search at its leaf.
fn found(lot: Option<u32>) -> Course
    ensures { result ≡ search_course lot }
{
    match lot {
        Some(v) => Course::Ends(Answer::Found(v)),
        None => Course::Ends(Answer::NotFound),
    }
}

// An insertion at its leaf.
fn inserts(lot: Option<u32>, x: u32, v: u32) -> Course
    ensures { result ≡ insert_course lot x v }
{
    match lot {
        Some(there) => Course::Ends(Answer::AlreadyThere(there)),
        None => Course::Inserts(x, v),
    }
}

// A deletion at its leaf. By the second way it needs no sibling: the leaf has one to spare.
fn deletes(words: &[u32], shape: Shape, x: u32, way: Way, lot: Option<u32>, stand: Slot) -> Course
    requires { SlotStanding (Delete x way) shape.k shape.n words.now stand }
    ensures { result ≡ delete_course shape.k (page_at shape.k words.now) x way lot stand }
{
    let Some(v) = lot else {
        return Course::Ends(Answer::NoSuchKey);
    };
    match needs(words, shape, x, stand.path_pages(), stand.beside_pages()) {
        Ok(None) => Course::Deletes(x, v),
        Ok(Some(s)) => goes(stand, s, held_lock(Op::Delete(x, way))),
        Err(Astray) => Course::Broken,
    }
}

// A Next whose first leaf has no key at or above its own: on to the next child to the right of its top page, or there is none.
fn crosses(words: &[u32], shape: Shape, x: u32, stand: Slot) -> Course
    requires { SlotStanding (Next x) shape.k shape.n words.now stand }
    ensures { result ≡ cross_course shape.k (page_at shape.k words.now) x stand }
{
    let top = stand.path[0];
    if !has_child_right(words, shape, x, top) {
        return Course::Ends(Answer::None);
    }
    goes(stand, neighbour_of(words, shape, top, x), Lock::Rho)
}

// A Next at its first leaf.
fn nexts_first(words: &[u32], shape: Shape, x: u32, stand: Slot) -> Course
    requires { SlotStanding (Next x) shape.k shape.n words.now stand }
    ensures { result ≡ first_course shape.k (page_at shape.k words.now) x stand }
{
    match at_or_above_of(words, shape, stand.path[stand.depth - 1], x) {
        Some((y, v)) => Course::Ends(Answer::Next(y, v)),
        None => crosses(words, shape, x, stand),
    }
}

// A Next that was granted page p of its second way: down by p0, or, at the leaf, the first entry at or above its key.
fn nexts_left(words: &[u32], shape: Shape, x: u32, p: u32, stand: Slot) -> Course
    requires in_pool { InPool shape.k shape.n p words.now }
    requires readable { Readable (words_of shape.k p words.now) }
    requires p_value { rises (page_at shape.k words.now p).entries ≡ true }
    ensures { result ≡ left_course (page_at shape.k words.now) x stand p }
{
    if !is_leaf_of(words, shape, p) {
        return goes(stand, pointer_of(words, shape, p, 0), Lock::Rho);
    }
    match at_or_above_of(words, shape, p, x) {
        Some((y, v)) => Course::Ends(Answer::Next(y, v)),
        None => Course::Ends(Answer::None),
    }
}

// A Next at its leaf, by whether it holds pages of a second way.
fn nexts(words: &[u32], shape: Shape, x: u32, stand: Slot) -> Course
    requires { SlotStanding (Next x) shape.k shape.n words.now stand }
    ensures { result ≡ nexts_course shape.k (page_at shape.k words.now) x stand }
{
    if stand.breadth == 0 {
        return nexts_first(words, shape, x, stand);
    }
    nexts_left(words, shape, x, stand.beside[stand.breadth - 1], stand)
}

// An update by the second way begins again at this leaf: it is page 0, or it is not safe and the key has to be changed. The count of a
// leaf tells most of it; the key is looked up last.
fn begins_again(words: &[u32], shape: Shape, op: Op, leaf: u32) -> bool
    requires in_pool { InPool shape.k shape.n leaf words.now }
    requires readable { Readable (words_of shape.k leaf words.now) }
    requires leaf_value { rises (page_at shape.k words.now leaf).entries ≡ true }
    ensures { result ≡ begins_again op shape.k (page_at shape.k words.now) leaf }
{
    if !is_second(op) {
        return false;
    }
    if leaf == 0 {
        return true;
    }
    if is_safe(words, shape, first_way(op), leaf) {
        return false;
    }
    !at_once(op, look_of(words, shape, leaf, key_asked(op)))
}

// The page that an update by the third way converts next, before it makes its change, if one is left.
fn turn(words: &[u32], shape: Shape, op: Op, stand: Slot) -> Option<u32>
    requires { SlotStanding op shape.k shape.n words.now stand }
    ensures { result ≡ turn_course op shape.k (page_at shape.k words.now) stand }
{
    if !is_third(op) {
        return None;
    }
    if !change_known(words, shape, op, stand) {
        return None;
    }
    next_turn(op, stand)
}

// What the operation does from where it stands.
pub fn judge(words: &[u32], shape: Shape, op: Op, stand: Slot) -> Course
    requires { SlotStanding op shape.k shape.n words.now stand }
    ensures result_value { course_of shape.k (page_at shape.k words.now) (free_pages shape.k shape.n words.now) (stand_of op stand) result ≡ if_new (judged shape.k (page_at shape.k words.now) (free_pages shape.k shape.n words.now) (stand_of op stand)) }
    ensures ready { ready op shape.k (page_at shape.k words.now) (path_of stand) result }
{
    let leaf = stand.path[stand.depth - 1];
    if !is_leaf_of(words, shape, leaf) {
        let next = route_of(words, shape, leaf, key_asked(op));
        return goes(stand, next, lock_below(words, shape, op, leaf));
    }
    if begins_again(words, shape, op, leaf) {
        return Course::Again;
    }
    if let Some(p) = turn(words, shape, op, stand) {
        return Course::Goes(p, Lock::Xi);
    }
    match op {
        Op::Search(x) => found(look_of(words, shape, leaf, x)),
        Op::Insert(x, v, _) => inserts(look_of(words, shape, leaf, x), x, v),
        Op::Delete(x, way) => deletes(words, shape, x, way, look_of(words, shape, leaf, x), stand),
        Op::Next(x) => nexts(words, shape, x, stand),
        Op::Regrade(x, v, _) => Course::Regrades(x, v),
    }
}
