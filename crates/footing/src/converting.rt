// An update by the third way at its leaf: whether its change is known, and which of its pages is converted next.
#![tactic(auto, unfolding(ground::specs::Limits::path_holds))]

ghost use Rattle.std.specs.Prelude.{◌≡◌, ◌≤◌, true};
ghost use Rattle.ground.specs.Limits.{path_holds};
ghost use Rattle.pool.specs.Pool.{page_at};
ghost use Rattle.change.specs.Held.{Needing, leaf_of, fathers_of};
ghost use Rattle.slots.specs.Parts.{path_of, beside_of, converting, stand_of};
ghost use Rattle.footing.specs.Granted.{needs_no_more, change_known, locks_in_turn, to_convert};
ghost use Rattle.footing.specs.Fitting.{xi_then_alpha};
ghost use Rattle.footing.specs.Standing.{at_once, turn_of, may_follow};
ghost use Rattle.slots.specs.declared.Task.TheVariants.{Open};
ghost use Rattle.slots.specs.Sound.{slot_sound};

use change::needing::needs;
use ground::Shape;
use pool::pages::look_of;
use slots::operations::{is_third, key_asked};
use slots::{Lock, Op, Slot};

// What stands under the key of an update is answered at once: an insertion's key is there, another one's is missing.
pub fn at_once(op: Op, lot: Option<u32>) -> bool
    ensures { result ≡ at_once op lot }
{
    match op {
        Op::Search(_) | Op::Next(_) => true,
        Op::Insert(_, _, _) => lot.is_some(),
        Op::Delete(_, _) | Op::Regrade(_, _, _) => lot.is_none(),
    }
}

// A deletion that stands here needs no sibling more, and no other operation has any.
fn needs_no_more(words: &[u32], shape: Shape, op: Op, slot: Slot) -> bool
    requires { (slot.depth ≤ path_holds) × (slot.breadth ≤ path_holds) × (Needing shape.k shape.n words.now (path_of slot) (beside_of slot)) }
    ensures { result ≡ needs_no_more op shape.k (page_at shape.k words.now) (beside_of slot) (leaf_of slot.depth slot.path) (fathers_of slot.depth slot.path) }
{
    let Op::Delete(x, _) = op else {
        return slot.breadth == 0;
    };
    needs(words, shape, x, slot.path_pages(), slot.beside_pages()) == Ok(None)
}

// The change of the update that stands here is known.
pub fn change_known(words: &[u32], shape: Shape, op: Op, slot: Slot) -> bool
    requires { (slot.depth ≤ path_holds) × (slot.breadth ≤ path_holds) × (Needing shape.k shape.n words.now (path_of slot) (beside_of slot)) }
    ensures { result ≡ change_known shape.k (page_at shape.k words.now) (stand_of op slot) (leaf_of slot.depth slot.path) (fathers_of slot.depth slot.path) }
{
    let lot = look_of(words, shape, slot.path[slot.depth - 1], key_asked(op));
    !at_once(op, lot) && needs_no_more(words, shape, op, slot)
}

// The slot wants to convert a page. It is sound: by the third way ξ is wanted so alone, and nobody else wants a page that it holds.
pub fn converts(n: usize, op: Op, slot: Slot) -> bool
    requires { (slot.task ≡ Open op) × (slot_sound n slot ≡ true) }
    ensures { result ≡ converting (stand_of op slot) }
{
    is_third(op) && slot.lock == Lock::Xi
}

// The next page to convert, if one is left: from the top down, a page of the path before its sibling, the first that is not held with ξ.
pub fn next_turn(op: Op, slot: Slot) -> Option<u32>
    requires { (slot.depth ≤ path_holds) × (slot.breadth ≤ path_holds) }
    ensures { result ≡ turn_of (to_convert (stand_of op slot)) }
{
    for i in 0..slot.depth {
        if slot.locks[i].lock != Lock::Xi {
            return Some(slot.path[i]);
        }
        let below = slot.depth - 1 - i;
        if below < slot.breadth && slot.sidelocks[below].lock != Lock::Xi {
            return Some(slot.beside[below]);
        }
    }
    None
}

// A page held with this kind may come next, of those held with ξ and behind them those held with α: once there was α, it is α.
fn may_follow(lock: Lock, alpha: bool) -> bool
    ensures { result ≡ may_follow lock alpha }
{
    match lock {
        Lock::Alpha => true,
        Lock::Xi => !alpha,
        _ => false,
    }
}

// In this order the pages are held with ξ, and from some page on with α.
pub fn xi_then_alpha(op: Op, slot: Slot) -> bool
    requires { (slot.depth ≤ path_holds) × (slot.breadth ≤ path_holds) }
    ensures { result ≡ xi_then_alpha (locks_in_turn (stand_of op slot)) }
{
    let mut alpha = false;
    for i in 0..slot.depth {
        let lock = slot.locks[i].lock;
        if !may_follow(lock, alpha) {
            return false;
        }
        alpha = lock == Lock::Alpha;
        let below = slot.depth - 1 - i;
        if below < slot.breadth {
            let lock = slot.sidelocks[below].lock;
            if !may_follow(lock, alpha) {
                return false;
            }
            alpha = lock == Lock::Alpha;
        }
    }
    true
}
