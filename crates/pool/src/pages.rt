// One page of the pool: the part of the lent words where it lies, lent on to the function on a page's words.
#![tactic(auto, using(crate::proofs::PagesLaws::page_known), unfolding(crate::specs::Pool::page_at))]

ghost use Rattle.std.specs.Prelude.{◌≡◌, [], ◌∷◌, true, false, ℕ, ◌+◌, ◌*◌, ◌≤◌, ◌<◌, eqb};
ghost use Rattle.ground.specs.Limits.{largest_k, largest_n, word_range};
ghost use Rattle.ground.specs.Tests.{all};
ghost use Rattle.page.specs.Words.{entry, page, μ, is_leaf, free_page};
ghost use Rattle.page.specs.Place.{place, pointer, route, at_or_above, regraded};
ghost use Rattle.page.specs.Sound.{rises, sound_by_itself};
ghost use Rattle.page.specs.Splits.{with_entries, entry_at, put, split};
ghost use Rattle.page.specs.Short.{has_right, neighbour, between_at, joined, less_key, rekeyed};
ghost use Rattle.page.specs.Reading.{Readable, looked, nearest};
ghost use Rattle.page.specs.Exact.{Exact};
ghost use Rattle.sheet.specs.Sheets.{OnSheet, sheet_page};
ghost use Rattle.pool.specs.Pool.{words_of, page_at, write, written};
ghost use Rattle.pool.specs.Wrapped.{InPool, Lies};

use crate::lying::{page_size, start_of};
use ground::Shape;
use page::checking;
use page::reading::{Page, level};
use sheet::sheets::Sheet;
use sheet::{sheets, writing};
use std::ops::Range;

// Where page p lies.
fn stretch_of(shape: Shape, p: u32) -> Range<usize>
    requires { p < shape.n }
    ensures { Lies shape.k shape.n p result }
{
    let start = start_of(shape.k, p as usize);
    start..start + page_size(shape.k)
}

// Its words.
fn page_words(words: &[u32], shape: Shape, p: u32) -> &[u32]
    requires { InPool shape.k shape.n p words.now }
    ensures { result.now ≡ words_of shape.k p words.now }
{
    &words[stretch_of(shape, p)]
}

// The page, where its words can be read.
pub fn page_of(words: &[u32], shape: Shape, p: u32) -> Page<'_>
    requires in_pool { InPool shape.k shape.n p words.now }
    requires readable { Readable (words_of shape.k p words.now) }
    ensures { result.words.now ≡ words_of shape.k p words.now }
{
    Page {
        words: page_words(words, shape, p),
    }
}

// Its level, word 0.
pub fn level_of(words: &[u32], shape: Shape, p: u32) -> u32
    requires { InPool shape.k shape.n p words.now }
    ensures { result ≡ (page_at shape.k words.now p).level }
{
    level(page_words(words, shape, p))
}

// It is a leaf.
pub fn is_leaf_of(words: &[u32], shape: Shape, p: u32) -> bool
    requires { InPool shape.k shape.n p words.now }
    ensures { result ≡ is_leaf (page_at shape.k words.now p) }
{
    level_of(words, shape, p) == 1
}

// The number μ.
pub fn count_of(words: &[u32], shape: Shape, p: u32) -> usize
    requires in_pool { InPool shape.k shape.n p words.now }
    requires readable { Readable (words_of shape.k p words.now) }
    ensures { result ≡ μ (page_at shape.k words.now p) }
{
    page_of(words, shape, p).count()
}

// The key of pair i.
pub fn key_of(words: &[u32], shape: Shape, p: u32, i: usize) -> u32
    requires in_pool { InPool shape.k shape.n p words.now }
    requires readable { Readable (words_of shape.k p words.now) }
    requires i_bound { i < μ (page_at shape.k words.now p) }
    ensures { result ≡ (entry_at i (page_at shape.k words.now p).entries).key }
{
    page_of(words, shape, p).key(i)
}

// How many keys are at most x.
pub fn place_of(words: &[u32], shape: Shape, p: u32, x: u32) -> usize
    requires in_pool { InPool shape.k shape.n p words.now }
    requires readable { Readable (words_of shape.k p words.now) }
    requires p_value { rises (page_at shape.k words.now p).entries ≡ true }
    ensures value { result ≡ place x (page_at shape.k words.now p).entries }
    ensures upper_bound { result ≤ μ (page_at shape.k words.now p) }
{
    page_of(words, shape, p).place(x)
}

// The first entry whose key is at or above x.
pub fn at_or_above_of(words: &[u32], shape: Shape, p: u32, x: u32) -> Option<(u32, u32)>
    requires in_pool { InPool shape.k shape.n p words.now }
    requires readable { Readable (words_of shape.k p words.now) }
    requires p_value { rises (page_at shape.k words.now p).entries ≡ true }
    ensures { result ≡ nearest (at_or_above x (page_at shape.k words.now p).entries) }
{
    page_of(words, shape, p).at_or_above(x)
}

// The information under x in a leaf.
pub fn look_of(words: &[u32], shape: Shape, p: u32, x: u32) -> Option<u32>
    requires in_pool { InPool shape.k shape.n p words.now }
    requires readable { Readable (words_of shape.k p words.now) }
    requires p_value { rises (page_at shape.k words.now p).entries ≡ true }
    ensures { result ≡ looked x (page_at shape.k words.now p).entries }
{
    page_of(words, shape, p).look(x)
}

// pi, above the leaves.
pub fn pointer_of(words: &[u32], shape: Shape, p: u32, i: usize) -> u32
    requires in_pool { InPool shape.k shape.n p words.now }
    requires readable { Readable (words_of shape.k p words.now) }
    requires p_value { is_leaf (page_at shape.k words.now p) ≡ false }
    requires i_bound { i ≤ μ (page_at shape.k words.now p) }
    ensures { result ≡ pointer i (page_at shape.k words.now p) }
{
    page_of(words, shape, p).pointer(i)
}

// The page to which x leads, above the leaves.
pub fn route_of(words: &[u32], shape: Shape, p: u32, x: u32) -> u32
    requires in_pool { InPool shape.k shape.n p words.now }
    requires readable { Readable (words_of shape.k p words.now) }
    requires p_value { is_leaf (page_at shape.k words.now p) ≡ false }
    requires p_value_2 { rises (page_at shape.k words.now p).entries ≡ true }
    ensures { result ≡ route x (page_at shape.k words.now p) }
{
    page_of(words, shape, p).route(x)
}

// The page to which p routes x has a right neighbour under p.
pub fn has_right_of(words: &[u32], shape: Shape, p: u32, x: u32) -> bool
    requires in_pool { InPool shape.k shape.n p words.now }
    requires readable { Readable (words_of shape.k p words.now) }
    requires p_value { rises (page_at shape.k words.now p).entries ≡ true }
    ensures { result ≡ has_right x (page_at shape.k words.now p) }
{
    page_of(words, shape, p).has_right(x)
}

// Which key of p stands between the page to which it routes x and that page's neighbour.
pub fn between_of(words: &[u32], shape: Shape, p: u32, x: u32) -> usize
    requires in_pool { InPool shape.k shape.n p words.now }
    requires readable { Readable (words_of shape.k p words.now) }
    requires p_value { rises (page_at shape.k words.now p).entries ≡ true }
    requires bound { 1 ≤ μ (page_at shape.k words.now p) }
    ensures value { result ≡ between_at x (page_at shape.k words.now p) }
    ensures upper_bound { result < μ (page_at shape.k words.now p) }
{
    page_of(words, shape, p).between_at(x)
}

// The neighbour of the page to which p routes x, the right one if there is one.
pub fn neighbour_of(words: &[u32], shape: Shape, p: u32, x: u32) -> u32
    requires in_pool { InPool shape.k shape.n p words.now }
    requires readable { Readable (words_of shape.k p words.now) }
    requires p_value { is_leaf (page_at shape.k words.now p) ≡ false }
    requires p_value_2 { rises (page_at shape.k words.now p).entries ≡ true }
    requires bound { 1 ≤ μ (page_at shape.k words.now p) }
    ensures { result ≡ neighbour x (page_at shape.k words.now p) }
{
    page_of(words, shape, p).neighbour(x)
}

// It is sound by itself.
pub fn sound_of(words: &[u32], shape: Shape, p: u32) -> bool
    requires { InPool shape.k shape.n p words.now }
    ensures { result ≡ sound_by_itself shape.k shape.n p (words_of shape.k p words.now) }
{
    checking::sound_page(page_words(words, shape, p), shape.k, shape.n, p)
}

// All its words are 0.
pub fn zero_of(words: &[u32], shape: Shape, p: u32) -> bool
    requires { InPool shape.k shape.n p words.now }
    ensures { result ≡ all (λ (w : ℕ). eqb w 0) (words_of shape.k p words.now) }
{
    checking::unused(page_words(words, shape, p), 0)
}

// The page with one pair more, put in at place i, in a buffer.
pub fn over_of(words: &[u32], shape: Shape, p: u32, i: usize, x: u32, v: u32) -> Sheet
    requires in_pool { InPool shape.k shape.n p words.now }
    requires exact { Exact shape.k (words_of shape.k p words.now) }
    requires i_bound { i ≤ μ (page_at shape.k words.now p) }
    ensures { OnSheet (put i (entry x v) (page_at shape.k words.now p)) result }
{
    sheets::over(page_words(words, shape, p), shape.k, i, x, v)
}

// The pages l and w joined, in a buffer. Above the leaves the reference key r comes down between them.
pub fn join_of(words: &[u32], shape: Shape, l: u32, r: u32, w: u32) -> Sheet
    requires in_pool { (InPool shape.k shape.n l words.now) × (InPool shape.k shape.n w words.now) }
    requires exact { (Exact shape.k (words_of shape.k l words.now)) × (Exact shape.k (words_of shape.k w words.now)) }
    requires l_value { is_leaf (page_at shape.k words.now l) ≡ is_leaf (page_at shape.k words.now w) }
    requires w_bound { μ (page_at shape.k words.now l) + μ (page_at shape.k words.now w) + 1 ≤ 50 }
    ensures { OnSheet (joined r (page_at shape.k words.now l) (page_at shape.k words.now w)) result }
{
    sheets::join(
        page_words(words, shape, l),
        r,
        page_words(words, shape, w),
        shape.k,
    )
}

// One pair more, put in at place i.
pub fn put_in_at(words: &mut [u32], shape: Shape, p: u32, i: usize, x: u32, v: u32)
    requires in_pool { InPool shape.k shape.n p words.old }
    requires exact { Exact shape.k (words_of shape.k p words.old) }
    requires p_bound { (μ (page_at shape.k words.old p) < 2 * shape.k) × (i ≤ μ (page_at shape.k words.old p)) }
    ensures { words.new ≡ written shape.k (write p (put i (entry x v) (page_at shape.k words.old p))) words.old }
{
    writing::put_in(&mut words[stretch_of(shape, p)], shape.k, i, x, v);
}

// The pair at place i taken out: in a leaf an entry, above a reference key with the pointer right of it.
pub fn take_out_at(words: &mut [u32], shape: Shape, p: u32, i: usize)
    requires in_pool { InPool shape.k shape.n p words.old }
    requires exact { Exact shape.k (words_of shape.k p words.old) }
    requires i_bound { i < μ (page_at shape.k words.old p) }
    ensures { words.new ≡ written shape.k (write p (less_key i (page_at shape.k words.old p))) words.old }
{
    writing::take_out(&mut words[stretch_of(shape, p)], shape.k, i);
}

// Another key at place i.
pub fn rekey_at(words: &mut [u32], shape: Shape, p: u32, i: usize, r: u32)
    requires in_pool { InPool shape.k shape.n p words.old }
    requires exact { Exact shape.k (words_of shape.k p words.old) }
    requires i_bound { i < μ (page_at shape.k words.old p) }
    ensures { words.new ≡ written shape.k (write p (rekeyed i r (page_at shape.k words.old p))) words.old }
{
    writing::rekey(&mut words[stretch_of(shape, p)], shape.k, i, r);
}

// New information under key x, if it is there. Returns what stood under it.
pub fn regrade_at(words: &mut [u32], shape: Shape, p: u32, x: u32, v: u32) -> Option<u32>
    requires in_pool { InPool shape.k shape.n p words.old }
    requires exact { Exact shape.k (words_of shape.k p words.old) }
    requires p_value { rises (page_at shape.k words.old p).entries ≡ true }
    ensures value { result ≡ looked x (page_at shape.k words.old p).entries }
    ensures words_after { words.new ≡ written shape.k (write p (with_entries (page_at shape.k words.old p) (regraded x v (page_at shape.k words.old p).entries))) words.old }
{
    writing::regrade(&mut words[stretch_of(shape, p)], shape.k, x, v)
}

// A page laid out from a buffer.
pub fn lay_at(words: &mut [u32], shape: Shape, p: u32, s: Sheet)
    requires in_pool { InPool shape.k shape.n p words.old }
    requires count_bound { s.count ≤ 2 * shape.k }
    ensures { words.new ≡ written shape.k (write p (sheet_page s)) words.old }
{
    sheets::lay(&mut words[stretch_of(shape, p)], shape.k, s);
}

// The left part of a buffer's page cut at pair c.
pub fn lay_left_at(words: &mut [u32], shape: Shape, p: u32, c: usize, s: Sheet)
    requires in_pool { InPool shape.k shape.n p words.old }
    requires c_lt_count { (c < s.count) × (c ≤ 2 * shape.k) }
    ensures { words.new ≡ written shape.k (write p (split c (sheet_page s)).left) words.old }
{
    sheets::lay_left(&mut words[stretch_of(shape, p)], shape.k, c, s);
}

// The right part of a buffer's page cut at pair c.
pub fn lay_right_at(words: &mut [u32], shape: Shape, p: u32, c: usize, s: Sheet)
    requires in_pool { InPool shape.k shape.n p words.old }
    requires c_lt_count { (c < s.count) × (s.count ≤ c + 2 * shape.k) × (s.count ≤ 50) }
    ensures { words.new ≡ written shape.k (write p (split c (sheet_page s)).right) words.old }
{
    sheets::lay_right(&mut words[stretch_of(shape, p)], shape.k, c, s);
}

// A root a level above the pages `left` and `right`, with the reference key r between them.
pub fn lay_root_at(
    words: &mut [u32],
    shape: Shape,
    p: u32,
    level: u32,
    left: u32,
    r: u32,
    right: u32,
)
    requires in_pool { InPool shape.k shape.n p words.old }
    requires le_k { (1 ≤ shape.k) × (level + 1 < word_range) }
    ensures { words.new ≡ written shape.k (write p (page (level + 1) left (entry r right ∷ []))) words.old }
{
    writing::lay_root(
        &mut words[stretch_of(shape, p)],
        shape.k,
        level,
        left,
        r,
        right,
    );
}

// A page freed.
pub fn clear_at(words: &mut [u32], shape: Shape, p: u32)
    requires { InPool shape.k shape.n p words.old }
    ensures { words.new ≡ written shape.k (write p free_page) words.old }
{
    writing::clear(&mut words[stretch_of(shape, p)]);
}
