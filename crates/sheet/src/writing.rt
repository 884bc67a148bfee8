// How the words of one page change where they lie: runs of words are moved, copied and zeroed, a pair is put in or taken
// out with only what lies behind it moving, and a key or information alone is written over.
ghost use Rattle.std.specs.Prelude.{true, ◌≡◌, ◌∷◌, [], ◌++◌, ◌+◌, ◌-◌, ◌*◌, ◌≤◌, ◌<◌, length, take, drop, replicate};
ghost use Rattle.std.proofs.Math.Seq.{paste};
ghost use Rattle.ground.specs.Limits.{largest_k, word_range};
ghost use Rattle.page.specs.Words.{size, entry, page, μ, pairs_from, encode, view};
ghost use Rattle.page.specs.Place.{regraded};
ghost use Rattle.page.specs.Reading.{looked};
ghost use Rattle.page.specs.Sound.{rises};
ghost use Rattle.page.specs.Splits.{put, with_entries};
ghost use Rattle.page.specs.Short.{less_key, rekeyed};
ghost use Rattle.page.specs.Exact.{Exact};
ghost use Rattle.sheet.specs.Sheets.{before_pairs};

use page::reading::{Page, pairs_from};

// x and v put in at word a. The words from there up to word e move on by two.
fn push_two(w: &mut [u32], a: usize, e: usize, x: u32, v: u32)
    requires { (a ≤ e) × (e + 2 ≤ length w.old) }
    ensures { w.new ≡ paste w.old a (x ∷ v ∷ drop a w.old) (e + 2 - a) }
{
    w.copy_within(a..e, a + 2);
    w[a] = x;
    w[a + 1] = v;
}

// The two words at word a taken out. The words behind them up to word e move down by two, and two zeros follow them.
fn pull_two(w: &mut [u32], a: usize, e: usize)
    requires { (a + 2 ≤ e) × (e ≤ length w.old) }
    ensures { w.new ≡ take a w.old ++ take (e - 2 - a) (drop (a + 2) w.old) ++ 0 ∷ 0 ∷ drop e w.old }
{
    w.copy_within(a + 2..e, a);
    w[e - 2] = 0;
    w[e - 1] = 0;
}

// The words before a page's pairs. Returns where the pairs begin.
pub fn put_front(w: &mut [u32], level: u32, m: u32, first: u32) -> usize
    requires { 3 ≤ length w.old }
    ensures { (result ≡ pairs_from level) × (w.new ≡ before_pairs level m first ++ drop (pairs_from level) w.old) }
{
    w[0] = level;
    w[1] = m;
    if level == 1 {
        return 2;
    }
    w[2] = first;
    3
}

// One pair more, put in at place i.
pub fn put_in(w: &mut [u32], k: usize, i: usize, x: u32, v: u32)
    requires exact { Exact k w.old }
    requires k_le_largest_k { (k ≤ largest_k) × (μ (view w.old) < 2 * k) × (i ≤ μ (view w.old)) }
    ensures { w.new ≡ encode k (put i (entry x v) (view w.old)) }
{
    let m = w[1];
    let at = pairs_from(w[0]);
    w[1] = m + 1;
    push_two(w, at + 2 * i, at + 2 * m as usize, x, v);
}

// The pair at place i taken out: in a leaf an entry, above a reference key with the pointer right of it.
pub fn take_out(w: &mut [u32], k: usize, i: usize)
    requires exact { Exact k w.old }
    requires i_bound { i < μ (view w.old) }
    ensures { w.new ≡ encode k (less_key i (view w.old)) }
{
    let m = w[1];
    let at = pairs_from(w[0]);
    w[1] = m - 1;
    pull_two(w, at + 2 * i, at + 2 * m as usize);
}

// Another key at place i.
pub fn rekey(w: &mut [u32], k: usize, i: usize, r: u32)
    requires exact { Exact k w.old }
    requires i_bound { i < μ (view w.old) }
    ensures { w.new ≡ encode k (rekeyed i r (view w.old)) }
{
    let at = pairs_from(w[0]);
    w[at + 2 * i] = r;
}

// New information under key x, if it is there: then it stands just before its place. Returns what stood under it.
pub fn regrade(w: &mut [u32], k: usize, x: u32, v: u32) -> Option<u32>
    requires exact { Exact k w.old }
    requires w_value { rises (view w.old).entries ≡ true }
    ensures value { result ≡ looked x (view w.old).entries }
    ensures w_after { w.new ≡ encode k (with_entries (view w.old) (regraded x v (view w.old).entries)) }
{
    let page = Page { words: w };
    let behind = page.place(x);
    if behind == 0 || page.key(behind - 1) != x {
        return None;
    }
    let old = page.value(behind - 1);
    let at = page.pairs_from();
    w[at + 2 * behind - 1] = v;
    Some(old)
}

// A root over the pages a and b, with the reference key r between them, a level above theirs.
pub fn lay_root(w: &mut [u32], k: usize, level: u32, a: u32, r: u32, b: u32)
    requires { (length w.old ≡ size k) × (1 ≤ k) × (level + 1 < word_range) }
    ensures { w.new ≡ encode k (page (level + 1) a (entry r b ∷ [])) }
{
    let at = put_front(w, level + 1, 1, a);
    w[at] = r;
    w[at + 1] = b;
    w[at + 2..].fill(0);
}

// A freed page: all zeros.
pub fn clear(w: &mut [u32])
    ensures { w.new ≡ replicate (length w.old) 0 }
{
    w.fill(0);
}
