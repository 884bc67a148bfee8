// Whether a page is sound by itself, for any words of a page's length. Level and μ come first, since the words that the
// other tests read follow from them. Keys and unused words are gone through to the end, with no way out in between, so that
// several are looked at in one go.
ghost use Rattle.std.specs.Prelude.{ℕ, ◌≤◌, leb, ltb, eqb, length, get_or, take, drop, true, false, cond, ◌&&◌, ◌≡◌};
ghost use Rattle.ground.specs.Tests.{all, member};
ghost use Rattle.page.specs.Place.{pointer};
ghost use Rattle.page.specs.Reading.{in_shape};
ghost use Rattle.page.specs.Sound.{rises, least as least_of, good_pointers, no_blank, sound_by_itself};
ghost use Rattle.page.specs.Words.{size, view, is_leaf, pointers};

use crate::reading::Page;
use ground::{BLANK_KEY, TALLEST};

// A pointer leaves its mark by its remainder.
const MARKS: usize = 256;

// The least μ: k, but 1 in page 0, and 0 there if it is a leaf.
fn least(k: usize, p: u32, leaf: bool) -> usize
    ensures { result ≡ least_of k p leaf }
{
    if p != 0 {
        return k;
    }
    if leaf { 0 } else { 1 }
}

// Level and μ are in range.
fn in_shape(w: &[u32], k: usize, p: u32) -> bool
    requires { length w.now ≡ size k }
    ensures { result ≡ in_shape k p w.now }
{
    let l = w[0];
    let m = w[1] as usize;
    let level_fits = 1 <= l && l <= TALLEST;
    let count_fits = least(k, p, l == 1) <= m && m <= 2 * k;
    level_fits && count_fits
}

// A pointer is from 1 to n - 1.
fn in_pool(q: usize, n: usize) -> bool
    ensures { result ≡ leb 1 q && ltb q n }
{
    1 <= q && q < n
}

// All words from a place on are 0.
pub fn unused(w: &[u32], from: usize) -> bool
    ensures { result ≡ all (λ (x : ℕ). eqb x 0) (drop from w.now) }
{
    let mut good = true;
    for i in from..w.len() {
        good &= w[i] == 0;
    }
    good
}

impl Page<'_> {
    // Each key is below the next.
    fn rising(self) -> bool
        ensures { result ≡ rises (view self.entry.words.now).entries }
    {
        let w = self.words;
        let from = self.pairs_from();
        let mut good = true;
        for i in 1..self.count() {
            good &= w[from + 2 * i - 2] < w[from + 2 * i];
        }
        good
    }

    // pi stands among the pointers before it.
    fn repeated(self, i: usize) -> bool
        requires above_leaves { is_leaf (view self.words.now) ≡ false }
        requires i_bound { i ≤ get_or self.words.now 1 0 }
        ensures { result ≡ member (pointer i (view self.entry.words.now)) (take i (pointers (view self.entry.words.now))) }
    {
        let q = self.pointer(i);
        (0..i).any(|j| self.pointer(j) == q)
    }

    // The pointers are all different and from 1 to n - 1. Every pointer leaves a mark by its remainder, so only a pointer
    // that finds a mark can have stood before, and only then the pointers before it are looked through.
    fn good_pointers(self, n: usize) -> bool
        requires { is_leaf (view self.words.now) ≡ false }
        ensures { result ≡ good_pointers n (pointers (view self.entry.words.now)) }
    {
        let mut seen = [false; MARKS];
        for i in 0..self.count() + 1 {
            let q = self.pointer(i) as usize;
            if !in_pool(q, n) {
                return false;
            }
            let mark = q % MARKS;
            if seen[mark] && self.repeated(i) {
                return false;
            }
            seen[mark] = true;
        }
        true
    }

    // No key is that of a blank tag. Keys rise, so it could only be the first.
    fn no_blank(self) -> bool
        requires { rises (view self.words.now).entries ≡ true }
        ensures { result ≡ no_blank (view self.entry.words.now).entries }
    {
        self.count() == 0 || self.key(0) != BLANK_KEY
    }

    // What is asked of a leaf, and of a page above.
    fn sound_on_level(self, n: usize) -> bool
        requires { rises (view self.words.now).entries ≡ true }
        ensures { result ≡ cond (is_leaf (view self.entry.words.now)) (no_blank (view self.entry.words.now).entries) (good_pointers n (pointers (view self.entry.words.now))) }
    {
        if self.is_leaf() {
            self.no_blank()
        } else {
            self.good_pointers(n)
        }
    }
}

// The words of page p of a pool of n pages are sound by themselves.
pub fn sound_page(w: &[u32], k: usize, n: usize, p: u32) -> bool
    requires { length w.now ≡ size k }
    ensures { result ≡ sound_by_itself k n p w.now }
{
    if !in_shape(w, k, p) {
        return false;
    }
    let page = Page { words: w };
    page.rising() && page.sound_on_level(n) && unused(w, page.pairs_from() + 2 * page.count())
}
