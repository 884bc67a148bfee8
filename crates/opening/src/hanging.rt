// The walk down the tree: each call one level lower, each page met is marked. A page's keys lie in a range, and its children share it.
#![tactic(auto, using(crate::proofs::PageLaws::in_pool, crate::proofs::PageLaws::can_read), unfolding(ground::specs::Limits::word_range))]

ghost use Rattle.std.specs.Prelude.{◌-◌, ◌≤◌, ◌<◌, length, set, true, false, not, ◌&&◌, ◌≡◌};
ghost use Rattle.ground.specs.Limits.{word_range};
ghost use Rattle.pool.specs.Pool.{page_at};
ghost use Rattle.opening.specs.Opening.{within as within_of, hangs as hangs_at, met};
ghost use Rattle.opening.specs.Marks.{Walk, marked, marked_by, unmet, end_at, fits_at};

use ground::Shape;
use pool::pages::{count_of, key_of, level_of, pointer_of};

// The keys of page p are from `low` on and below `high`, which may be one more than the largest key. They rise, so the first and the last
// one tell.
#[tactic(auto, using(crate::proofs::PageLaws::in_pool, crate::proofs::PageLaws::can_read, crate::proofs::PageLaws::within_none, crate::proofs::PageLaws::within_low))]
fn within(words: &[u32], shape: Shape, p: u32, low: u64, high: u64) -> bool
    requires walk { Walk shape.k shape.n words.now p }
    requires fact { (page_at shape.k words.now p).level ≡ 0 → ⊥ }
    ensures { result ≡ within_of low high (page_at shape.k words.now p).entries }
{
    let m = count_of(words, shape, p);
    m == 0
        || low <= u64::from(key_of(words, shape, p, 0))
            && u64::from(key_of(words, shape, p, m - 1)) < high
}

// Page p is on this level, its keys are in its range, and it has no mark yet: then it is marked.
fn meet(
    words: &[u32],
    shape: Shape,
    level: u32,
    p: u32,
    low: u64,
    high: u64,
    marks: &mut [bool],
) -> bool
    requires walk { Walk shape.k shape.n words.now p }
    requires le_level { (1 ≤ level) × (low ≤ word_range) × (shape.n ≤ length marks.old) }
    ensures value { result ≡ fits_at (page_at shape.k words.now p) level low high && not (marked marks.old p) }
    ensures marks_after { result ≡ true → marks.new ≡ set marks.old p true }
{
    if level_of(words, shape, p) != level {
        return false;
    }
    let from = if level == 1 { low } else { low + 1 };
    if !within(words, shape, p, from, high) {
        return false;
    }
    let at = p as usize;
    if marks[at] {
        return false;
    }
    marks[at] = true;
    true
}

// Where the keys under pi end: at the next reference key, or where the page's own range ends.
fn end_of(words: &[u32], shape: Shape, p: u32, i: usize, high: u64) -> u64
    requires walk { Walk shape.k shape.n words.now p }
    requires fact { (page_at shape.k words.now p).level ≡ 0 → ⊥ }
    requires high_le_word_range { high ≤ word_range }
    ensures value { result ≡ end_at i high (page_at shape.k words.now p).entries }
    ensures upper_bound { result ≤ word_range }
{
    if i < count_of(words, shape, p) {
        u64::from(key_of(words, shape, p, i))
    } else {
        high
    }
}

// Page p and all pages below it hang rightly: level by level, each key in its range, none met before.
#[tactic(auto, using(crate::proofs::PageLaws::in_pool, crate::proofs::PageLaws::can_read, crate::proofs::WalkLaws::fits_on, crate::proofs::WalkLaws::on_some, crate::proofs::WalkLaws::level_fails, crate::proofs::WalkLaws::level_leaf))]
pub fn hangs(
    words: &[u32],
    shape: Shape,
    level: u32,
    p: u32,
    low: u64,
    high: u64,
    marks: &mut [bool],
) -> bool
    requires walk { Walk shape.k shape.n words.now p }
    requires le_level { (1 ≤ level) × (low ≤ word_range) × (high ≤ word_range) × (shape.n ≤ length marks.old) }
    ensures value { result ≡ hangs_at (page_at shape.k words.now) (level - 1) p low high && unmet (met (page_at shape.k words.now) (level - 1) p) marks.old }
    ensures marks_after { result ≡ true → marks.new ≡ marked_by (met (page_at shape.k words.now) (level - 1) p) marks.old }
{
    if !meet(words, shape, level, p, low, high, marks) {
        return false;
    }
    if level == 1 {
        return true;
    }
    let m = count_of(words, shape, p);
    let mut from = low;
    for i in 0..=m {
        let to = end_of(words, shape, p, i, high);
        let child = pointer_of(words, shape, p, i);
        if !hangs(words, shape, level - 1, child, from, to, marks) {
            return false;
        }
        from = to;
    }
    true
}
