// Whether the pages of a slot, read again, are sound and the ones the rules would have its operation hold and want.
#![tactic(auto, unfolding(ground::specs::Limits::path_holds))]

ghost use Rattle.std.specs.Prelude.{◌≡◌, true, false, ◌&&◌, [], ◌∷◌, ◌++◌, reverse, ◌≤◌, ◌<◌, take};
ghost use Rattle.ground.specs.Limits.{path_holds};
ghost use Rattle.pool.specs.Pool.{page_at};
ghost use Rattle.change.specs.Held.{Held};
ghost use Rattle.slots.specs.declared.Task.TheVariants.{Open};
ghost use Rattle.slots.specs.declared.Under.{Under};
ghost use Rattle.slots.specs.Parts.{key_of, path_of, beside_of, converting, stand_of};
ghost use Rattle.slots.specs.Sound.{slot_sound};
ghost use Rattle.ground.specs.Tests.{all};
ghost use Rattle.slots.specs.Locks.{same_lock};
ghost use Rattle.footing.specs.Granted.{at_its_leaf};
ghost use Rattle.footing.specs.Fitting as rule;
ghost use Rattle.footing.specs.Standing.{Asks, last_leads};
ghost use Rattle.footing.specs.Standing as asked;

use crate::converting::{change_known, converts, next_turn, xi_then_alpha};
use crate::looking::{
    all_sound, at_leaf, descends, has_child_right, leads, lock_due, rightly_kept, same_levels,
    turns_right,
};
use change::needing::needs;
use ground::Shape;
use pool::pages::{at_or_above_of, look_of, sound_of};
use slots::making::with_page;
use slots::operations::{is_second, is_third, key_asked};
use slots::{Lock, Op, Slot, Under};

// Each page held and the one wanted is sound by itself.
fn pages_sound(words: &[u32], shape: Shape, op: Op, slot: Slot) -> bool
    requires { Asks shape.k shape.n words.now op slot }
    ensures { result ≡ rule.pages_sound shape.k shape.n words.now (path_of slot ++ beside_of slot ++ slot.want ∷ []) }
{
    all_sound(words, shape, slot.path_pages())
        && all_sound(words, shape, slot.beside_pages())
        && sound_of(words, shape, slot.want)
}

// Coming down: no siblings yet, and the last page of the path leads to the wanted one.
fn fits_below(words: &[u32], shape: Shape, x: u32, slot: Slot) -> bool
    requires { (slot.depth ≤ path_holds) × (slot.breadth ≤ path_holds) × (Held shape.k shape.n words.now (path_of slot ++ beside_of slot ++ slot.want ∷ [])) }
    ensures { result ≡ last_leads (page_at shape.k words.now) x (reverse (path_of slot)) slot.want && rule.is_none (beside_of slot) }
{
    if slot.breadth != 0 {
        return false;
    }
    match slot.path_pages().last() {
        Some(&p) => leads(words, shape, x, p, slot.want),
        None => true,
    }
}

// A deletion at its leaf: the key is there, and what it needs next is the page it wants, beside its own page.
fn fits_beside(words: &[u32], shape: Shape, op: Op, slot: Slot) -> bool
    requires depth_le_path_holds { (slot.depth ≤ path_holds) × (slot.breadth < path_holds) × (Held shape.k shape.n words.now (path_of slot ++ beside_of slot ++ slot.want ∷ [])) }
    requires slot_value { rule.descends (page_at shape.k words.now) (key_of op) (path_of slot) ≡ true }
    requires slot_value_2 { at_its_leaf (page_at shape.k words.now) (reverse (path_of slot)) ≡ true }
    ensures { result ≡ rule.rightly_beside shape.k (page_at shape.k words.now) (stand_of op slot) (reverse (path_of slot)) }
{
    let Op::Delete(x, _) = op else {
        return false;
    };
    if is_second(op) {
        return false;
    }
    if look_of(words, shape, slot.path[slot.depth - 1], x).is_none() {
        return false;
    }
    let path = slot.path_pages();
    if needs(words, shape, x, path, slot.beside_pages()) != Ok(Some(slot.want)) {
        return false;
    }
    let siblings = with_page(slot.beside, slot.breadth, slot.want);
    same_levels(words, shape, path, &siblings[..slot.breadth + 1])
}

// A Next on its second way: its leaf has no key at or above its own, the top page of its path has a child to the right, and what
// it holds beside the path and wants is the way down from there.
fn fits_across(words: &[u32], shape: Shape, op: Op, slot: Slot) -> bool
    requires depth_le_path_holds { (slot.depth ≤ path_holds) × (slot.breadth < path_holds) × (Held shape.k shape.n words.now (path_of slot ++ beside_of slot ++ slot.want ∷ [])) }
    requires slot_value { at_its_leaf (page_at shape.k words.now) (reverse (path_of slot)) ≡ true }
    ensures { result ≡ rule.rightly_across shape.k (page_at shape.k words.now) (stand_of op slot) (path_of slot) }
{
    let Op::Next(x) = op else {
        return false;
    };
    if at_or_above_of(words, shape, slot.path[slot.depth - 1], x).is_some() {
        return false;
    }
    let top = slot.path[0];
    if !has_child_right(words, shape, x, top) {
        return false;
    }
    let second = with_page(slot.beside, slot.breadth, slot.want);
    turns_right(words, shape, x, top, &second[..slot.breadth + 1])
}

// The slot wants its next page with the kind of lock that is due. Who does not go by the second way can want no new page with another: the slot is sound.
fn wants_due(words: &[u32], shape: Shape, op: Op, slot: Slot) -> bool
    requires { (Asks shape.k shape.n words.now op slot) × (Held shape.k shape.n words.now (path_of slot)) × (converting (stand_of op slot) ≡ false) }
    ensures { result ≡ same_lock slot.lock (rule.lock_due op (page_at shape.k words.now) (reverse (path_of slot))) }
{
    if !is_second(op) {
        return true;
    }
    slot.lock == lock_due(words, shape, op, slot.path_pages())
}

// Each of these kinds is this one.
fn all_kind(locks: &[Under], lock: Lock) -> bool
    ensures { result ≡ all (λ (u : Under). same_lock u.lock lock) locks.now }
{
    locks.iter().all(|held| held.lock == lock)
}

// The slot holds every page with the kind with which it goes down. Who does not go by the third way can hold none with another: the slot is sound.
fn holds_due(n: usize, op: Op, slot: Slot) -> bool
    requires { (slot.task ≡ Open op) × (slot_sound n slot ≡ true) }
    ensures { result ≡ rule.holds_due (stand_of op slot) }
{
    if !is_third(op) {
        return true;
    }
    all_kind(&slot.locks[..slot.depth], Lock::Alpha)
        && all_kind(&slot.sidelocks[..slot.breadth], Lock::Alpha)
}

// An update by the third way converts: its change is known, its siblings lie beside their pages, what was converted has ξ and the rest α, and it
// wants the page whose turn it is. (Only by the third way, and with ξ, can a sound slot want a page that it holds.)
fn fits_converting(words: &[u32], shape: Shape, op: Op, slot: Slot) -> bool
    requires { (Asks shape.k shape.n words.now op slot) × (Held shape.k shape.n words.now (path_of slot ++ beside_of slot ++ slot.want ∷ [])) × (converting (stand_of op slot) ≡ true) }
    ensures { result ≡ rule.rightly_converting shape.k (page_at shape.k words.now) (stand_of op slot) (reverse (path_of slot)) }
{
    let path = slot.path_pages();
    if !at_leaf(words, shape, path) {
        return false;
    }
    if !descends(words, shape, key_asked(op), path) {
        return false;
    }
    if !change_known(words, shape, op, slot) {
        return false;
    }
    if !same_levels(words, shape, path, slot.beside_pages()) {
        return false;
    }
    if !xi_then_alpha(op, slot) {
        return false;
    }
    next_turn(op, slot) == Some(slot.want)
}

// It goes down, or stands at its leaf and wants one more page.
fn fits_new(words: &[u32], shape: Shape, op: Op, slot: Slot) -> bool
    requires { (Asks shape.k shape.n words.now op slot) × (Held shape.k shape.n words.now (path_of slot ++ beside_of slot ++ slot.want ∷ [])) × (converting (stand_of op slot) ≡ false) }
    ensures { result ≡ rule.fitting_new shape.k (page_at shape.k words.now) (stand_of op slot) }
{
    if !wants_due(words, shape, op, slot) {
        return false;
    }
    if !holds_due(shape.n, op, slot) {
        return false;
    }
    let path = slot.path_pages();
    if !descends(words, shape, key_asked(op), path) {
        return false;
    }
    if at_leaf(words, shape, path) {
        return fits_beside(words, shape, op, slot) || fits_across(words, shape, op, slot);
    }
    fits_below(words, shape, key_asked(op), slot)
}

// All of these together.
pub fn fits(words: &[u32], shape: Shape, op: Op, slot: Slot) -> bool
    requires { Asks shape.k shape.n words.now op slot }
    ensures { result ≡ asked.fits shape.k shape.n words.now (stand_of op slot) }
{
    if !pages_sound(words, shape, op, slot) {
        return false;
    }
    if !rightly_kept(words, shape, op, slot.path_pages(), slot.want) {
        return false;
    }
    if converts(shape.n, op, slot) {
        return fits_converting(words, shape, op, slot);
    }
    fits_new(words, shape, op, slot)
}
