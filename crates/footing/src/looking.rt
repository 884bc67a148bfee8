// The pages of a slot, read again one by one. A path is given from the top downward, siblings from the leaf's upward, a second
// way from the top downward.
ghost use Rattle.std.specs.Prelude.{◌≡◌, true, not, ◌&&◌, [], ◌∷◌, ◌++◌, reverse, ℕ, ◌+◌, ◌≤◌, ◌<◌, eqb, length, get_or};
ghost use Rattle.ground.specs.Limits.{largest_k, largest_n};
ghost use Rattle.page.specs.Words.{is_leaf};
ghost use Rattle.page.specs.Place.{pointer};
ghost use Rattle.page.specs.Sound.{rises};
ghost use Rattle.page.specs.Short.{has_right, neighbour};
ghost use Rattle.page.specs.Reading.{Readable};
ghost use Rattle.pool.specs.Pool.{pool_length, words_of, page_at};
ghost use Rattle.pool.specs.Wrapped.{InPool};
ghost use Rattle.change.specs.Held.{Held};
ghost use Rattle.footing.specs.Granted.{is_safe, lock_below, at_its_leaf};
ghost use Rattle.footing.specs.Fitting as rule;

use ground::Shape;
use pool::pages::{
    count_of, has_right_of, is_leaf_of, level_of, neighbour_of, pointer_of, route_of, sound_of,
};
use slots::operations::{held_lock, is_second};
use slots::{Lock, Op, Way};

// Page p is above the leaves and has a child to the right of the route of x.
pub fn has_child_right(words: &[u32], shape: Shape, x: u32, p: u32) -> bool
    requires in_pool { InPool shape.k shape.n p words.now }
    requires readable { Readable (words_of shape.k p words.now) }
    requires p_value { rises (page_at shape.k words.now p).entries ≡ true }
    ensures { result ≡ not (is_leaf (page_at shape.k words.now p)) && has_right x (page_at shape.k words.now p) }
{
    !is_leaf_of(words, shape, p) && has_right_of(words, shape, p, x)
}

// On page p the operation gives up all others on its path. A search, a regrading and who goes by the second way do so on every page:
// they read nothing.
pub fn is_safe(words: &[u32], shape: Shape, op: Op, p: u32) -> bool
    requires in_pool { InPool shape.k shape.n p words.now }
    requires readable { Readable (words_of shape.k p words.now) }
    requires p_value { rises (page_at shape.k words.now p).entries ≡ true }
    ensures { result ≡ is_safe op shape.k (page_at shape.k words.now p) }
{
    match op {
        Op::Search(_) => true,
        Op::Insert(_, _, way) => way == Way::Second || count_of(words, shape, p) < 2 * shape.k,
        Op::Delete(_, way) => way == Way::Second || shape.k < count_of(words, shape, p),
        Op::Next(x) => has_child_right(words, shape, x, p),
        Op::Regrade(_, _, _) => true,
    }
}

// The kind of lock that the operation wants the next page with, from page p of its way. By the second way that is ξ if the next page is
// the leaf. The others need not read the page for it.
pub fn lock_below(words: &[u32], shape: Shape, op: Op, p: u32) -> Lock
    requires { InPool shape.k shape.n p words.now }
    ensures { result ≡ lock_below op (page_at shape.k words.now p) }
{
    if is_second(op) && level_of(words, shape, p) == 2 {
        return Lock::Xi;
    }
    held_lock(op)
}

// Each of these pages is sound by itself.
pub fn all_sound(words: &[u32], shape: Shape, pages: &[u32]) -> bool
    requires k_le_largest_k { (shape.k ≤ largest_k) × (shape.n ≤ largest_n) × (length words.now ≡ pool_length shape.k shape.n) }
    requires by_index { (i : ℕ) → i < length pages.now → get_or pages.now i 0 < shape.n }
    ensures { result ≡ rule.pages_sound shape.k shape.n words.now pages.now }
{
    pages.iter().all(|&p| sound_of(words, shape, p))
}

// The last page of the path is a leaf.
pub fn at_leaf(words: &[u32], shape: Shape, path: &[u32]) -> bool
    requires { Held shape.k shape.n words.now path.now }
    ensures { result ≡ at_its_leaf (page_at shape.k words.now) (reverse path.now) }
{
    path.last().is_some_and(|&p| is_leaf_of(words, shape, p))
}

// The kind of lock that the rules would have the operation want: by the last page of its path.
pub fn lock_due(words: &[u32], shape: Shape, op: Op, path: &[u32]) -> Lock
    requires { Held shape.k shape.n words.now path.now }
    ensures { result ≡ rule.lock_due op (page_at shape.k words.now) (reverse path.now) }
{
    match path.last() {
        Some(&p) => lock_below(words, shape, op, p),
        None => held_lock(op),
    }
}

// Page q lies a level below page p.
fn lies_below(words: &[u32], shape: Shape, p: u32, q: u32) -> bool
    requires { Held shape.k shape.n words.now (p ∷ q ∷ []) }
    ensures { result ≡ eqb (page_at shape.k words.now p).level ((page_at shape.k words.now q).level + 1) }
{
    level_of(words, shape, p) == level_of(words, shape, q) + 1
}

// Page p routes x to page q, a level below. Levels go first: no pointer is read off a leaf.
pub fn leads(words: &[u32], shape: Shape, x: u32, p: u32, q: u32) -> bool
    requires { Held shape.k shape.n words.now (p ∷ q ∷ []) }
    ensures { result ≡ rule.leads (page_at shape.k words.now) x p q }
{
    lies_below(words, shape, p, q) && route_of(words, shape, p, x) == q
}

// Each page of the path leads to the one below it.
pub fn descends(words: &[u32], shape: Shape, x: u32, path: &[u32]) -> bool
    requires { Held shape.k shape.n words.now path.now }
    ensures { result ≡ rule.descends (page_at shape.k words.now) x path.now }
{
    path.windows(2)
        .all(|pair| leads(words, shape, x, pair[0], pair[1]))
}

// The top page is page 0 or safe, and none below it is safe. An operation that holds nothing wants page 0.
pub fn rightly_kept(words: &[u32], shape: Shape, op: Op, path: &[u32], want: u32) -> bool
    requires { Held shape.k shape.n words.now path.now }
    ensures { result ≡ rule.rightly_kept op shape.k (page_at shape.k words.now) path.now want }
{
    let [top, below @ ..] = path else {
        return want == 0;
    };
    (*top == 0 || is_safe(words, shape, op, *top))
        && below.iter().all(|&p| !is_safe(words, shape, op, p))
}

// Each sibling has the level of the page beside it on the path.
pub fn same_levels(words: &[u32], shape: Shape, path: &[u32], beside: &[u32]) -> bool
    requires { Held shape.k shape.n words.now (path.now ++ beside.now) }
    ensures { result ≡ rule.same_levels (page_at shape.k words.now) (reverse path.now) beside.now }
{
    if path.len() < beside.len() {
        return false;
    }
    let mut pairs = path.iter().rev().zip(beside);
    pairs.all(|(&p, &s)| level_of(words, shape, p) == level_of(words, shape, s))
}

// p0 of page p is page q, a level below.
fn leads_left(words: &[u32], shape: Shape, p: u32, q: u32) -> bool
    requires { Held shape.k shape.n words.now (p ∷ q ∷ []) }
    ensures { result ≡ rule.names_below (page_at shape.k words.now) (pointer 0) p q }
{
    lies_below(words, shape, p, q) && pointer_of(words, shape, p, 0) == q
}

// Page q, a level below page p, is the neighbour of the page to which p routes x.
fn leads_across(words: &[u32], shape: Shape, x: u32, p: u32, q: u32) -> bool
    requires { Held shape.k shape.n words.now (p ∷ q ∷ []) }
    ensures { result ≡ rule.names_below (page_at shape.k words.now) (neighbour x) p q }
{
    lies_below(words, shape, p, q) && neighbour_of(words, shape, p, x) == q
}

// Each page of the way leads to the one below it by p0.
fn leftmost(words: &[u32], shape: Shape, way: &[u32]) -> bool
    requires { Held shape.k shape.n words.now way.now }
    ensures { result ≡ rule.leftmost (page_at shape.k words.now) way.now }
{
    way.windows(2)
        .all(|pair| leads_left(words, shape, pair[0], pair[1]))
}

// The way begins with the next child to the right of page top, and goes down by p0.
pub fn turns_right(words: &[u32], shape: Shape, x: u32, top: u32, way: &[u32]) -> bool
    requires { (1 ≤ length way.now) × (Held shape.k shape.n words.now (top ∷ way.now)) }
    ensures { result ≡ rule.turns_right (page_at shape.k words.now) x top way.now }
{
    leads_across(words, shape, x, top, way[0]) && leftmost(words, shape, way)
}
