// A page in a buffer of its own, where it may have more pairs than a page has room for: a page with one pair too many,
// or two pages joined. From there it is laid into pages, whole or cut in two.
ghost use Rattle.std.specs.Prelude.{◌≡◌, ◌+◌, ◌-◌, ◌*◌, ◌≤◌, ◌<◌, length, drop};
ghost use Rattle.std.proofs.Math.Seq.{paste};
ghost use Rattle.ground.specs.Limits.{largest_k};
ghost use Rattle.page.specs.Words.{size, entry, page, μ, is_leaf, pairs, encode, view};
ghost use Rattle.page.specs.Splits.{put, split};
ghost use Rattle.page.specs.Short.{joined};
ghost use Rattle.page.specs.Exact.{Exact};
ghost use Rattle.sheet.specs.Sheets.{OnSheet, sheet_page};

use crate::writing::put_front;
use page::reading::pairs_from;

// Two words for each of at most 50 pairs: two pages joined have 3k+1 at most.
const WORDS: usize = 100;

// A page: its level, p0, how many pairs it has, and their words.
// Stays: a rule of the project, no heap: a fixed array with the number of its pairs beside it.
#[derive(Clone, Copy)]
pub struct Sheet {
    pub level: u32,
    pub first: u32,
    pub count: usize,
    pub pairs: [u32; WORDS],
}

// The n words of `src` from word a on, copied to `dst` from word b on. A line of its own, since a proof has no plain name for a part
// of an array, as it has for a part of a slice.
fn copy_words(src: &[u32], a: usize, dst: &mut [u32], b: usize, n: usize)
    requires { (a + n ≤ length src.now) × (b + n ≤ length dst.old) }
    ensures { dst.new ≡ paste dst.old b (drop a src.now) n }
{
    dst[b..b + n].copy_from_slice(&src[a..a + n]);
}

// p0, and 0 in a leaf, which has none.
fn first_of(w: &[u32]) -> u32
    requires { 3 ≤ length w.now }
    ensures { result ≡ (view w.now).first }
{
    if w[0] == 1 { 0 } else { w[2] }
}

// The page with one pair more, put in at place i.
pub fn over(w: &[u32], k: usize, i: usize, x: u32, v: u32) -> Sheet
    requires exact { Exact k w.now }
    requires k_le_largest_k { (k ≤ largest_k) × (i ≤ μ (view w.now)) }
    ensures { OnSheet (put i (entry x v) (view w.now)) result }
{
    let m = w[1] as usize;
    let at = pairs_from(w[0]);
    let c = 2 * i;
    let mut pairs = [0u32; WORDS];
    copy_words(w, at, &mut pairs, 0, c);
    pairs[c] = x;
    pairs[c + 1] = v;
    copy_words(w, at + c, &mut pairs, c + 2, 2 * m - c);
    Sheet {
        level: w[0],
        first: first_of(w),
        count: m + 1,
        pairs,
    }
}

// The pages l and w joined. Above the leaves the reference key r comes down between them.
pub fn join(l: &[u32], r: u32, w: &[u32], k: usize) -> Sheet
    requires exact { (Exact k l.now) × (Exact k w.now) }
    requires l_value { (is_leaf (view l.now) ≡ is_leaf (view w.now)) × (μ (view l.now) + μ (view w.now) + 1 ≤ 50) }
    ensures { OnSheet (joined r (view l.now) (view w.now)) result }
{
    let m = l[1] as usize;
    let n = w[1] as usize;
    let level = l[0];
    let c = 2 * m;
    let mut pairs = [0u32; WORDS];
    copy_words(l, pairs_from(level), &mut pairs, 0, c);
    if level == 1 {
        copy_words(w, 2, &mut pairs, c, 2 * n);
        return Sheet {
            level,
            first: 0,
            count: m + n,
            pairs,
        };
    }
    pairs[c] = r;
    pairs[c + 1] = w[2];
    copy_words(w, 3, &mut pairs, c + 2, 2 * n);
    Sheet {
        level,
        first: l[2],
        count: m + n + 1,
        pairs,
    }
}

// A page written whole: level, first pointer, and a run of n pairs of the buffer, from pair c on. Unused words are 0.
fn lay_run(
    w: &mut [u32],
    k: usize,
    level: u32,
    first: u32,
    words: &[u32; WORDS],
    c: usize,
    n: usize,
)
    requires { (length w.old ≡ size k) × (n ≤ 2 * k) × (c + n ≤ 50) }
    ensures { w.new ≡ encode k (page level first (pairs n (drop (2 * c) words.now))) }
{
    let at = put_front(w, level, n as u32, first);
    copy_words(words, 2 * c, w, at, 2 * n);
    w[at + 2 * n..].fill(0);
}

// The sheet's page.
pub fn lay(w: &mut [u32], k: usize, s: Sheet)
    requires { (length w.old ≡ size k) × (s.count ≤ 2 * k) × (k ≤ largest_k) }
    ensures { w.new ≡ encode k (sheet_page s) }
{
    lay_run(w, k, s.level, s.first, &s.pairs, 0, s.count);
}

// The sheet's page cut at pair c: the left part.
pub fn lay_left(w: &mut [u32], k: usize, c: usize, s: Sheet)
    requires { (length w.old ≡ size k) × (c < s.count) × (c ≤ 2 * k) × (k ≤ largest_k) }
    ensures { w.new ≡ encode k (split c (sheet_page s)).left }
{
    lay_run(w, k, s.level, s.first, &s.pairs, 0, c);
}

// The key between the two parts.
pub fn cut_key(c: usize, s: Sheet) -> u32
    requires { (c < s.count) × (s.count ≤ 50) }
    ensures { result ≡ (split c (sheet_page s)).between }
{
    s.pairs[2 * c]
}

// The right part: in a leaf the other pairs, above them what is behind the middle key and its pointer.
pub fn lay_right(w: &mut [u32], k: usize, c: usize, s: Sheet)
    requires { (length w.old ≡ size k) × (c < s.count) × (s.count ≤ c + 2 * k) × (s.count ≤ 50) }
    ensures { w.new ≡ encode k (split c (sheet_page s)).right }
{
    if s.level == 1 {
        lay_run(w, k, s.level, s.first, &s.pairs, c, s.count - c);
        return;
    }
    let first = s.pairs[2 * c + 1];
    lay_run(w, k, s.level, first, &s.pairs, c + 1, s.count - c - 1);
}
