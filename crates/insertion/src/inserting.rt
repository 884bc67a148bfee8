// An insertion's whole change: the room that it needs, and the writes, from the leaf upward.
// A path is given from the top downward; `pages` are the new pages, as taken.
#![tactic(auto, unfolding(ground::specs::Limits::largest_k, ground::specs::Limits::tallest, ground::specs::Limits::word_range, ground::specs::Limits::path_holds))]

ghost use Rattle.std.specs.Prelude.{◌≡◌, [], ◌∷◌, ◌+◌, ◌*◌, ◌≤◌, ◌<◌, length};
ghost use Rattle.ground.specs.Limits.{tallest};
ghost use Rattle.page.specs.Words.{entry, μ};
ghost use Rattle.page.specs.Splits.{split, raised};
ghost use Rattle.sheet.specs.Sheets.{sheet_page};
ghost use Rattle.pool.specs.Pool.{page_at, write, applied};
ghost use Rattle.pool.specs.Wrapped.{InPool};
ghost use Rattle.change.specs.Insertion as rule;
ghost use Rattle.change.specs.Held.{Held, Holding, leaf_of, fathers_of};
ghost use Rattle.insertion.specs.Inserting.{Inserting, grown, settled_as};

use ground::{NEW, Shape};
use pool::pages::{count_of, lay_left_at, lay_right_at, lay_root_at, over_of, place_of, put_in_at};
use sheet::sheets::{Sheet, cut_key};

// How many pages the insertion needs: none, or one for each full page held, and one more if page 0 is full.
pub fn room(words: &[u32], shape: Shape, path: &[u32]) -> usize
    requires { Holding shape.k shape.n words.now path.now }
    ensures value { result ≡ rule.room shape.k (page_at shape.k words.now) (leaf_of (length path.now) path.now) path.now }
    ensures upper_bound { result ≤ length path.now + 1 }
{
    let leaf = path[path.len() - 1];
    if count_of(words, shape, leaf) < 2 * shape.k {
        return 0;
    }
    let mut full = 0;
    let mut root = false;
    for &p in path {
        if count_of(words, shape, p) == 2 * shape.k {
            full += 1;
            root |= p == 0;
        }
    }
    full + usize::from(root)
}

// A page with one pair too many: the right half goes to page a, the left half stays.
fn split_to(words: &mut [u32], shape: Shape, p: u32, a: u32, s: Sheet)
    requires in_pool { (InPool shape.k shape.n p words.old) × (InPool shape.k shape.n a words.old) }
    requires le_k { (1 ≤ shape.k) × (s.count ≡ 2 * shape.k + 1) }
    ensures { words.new ≡ applied shape.k (write a (split shape.k (sheet_page s)).right ∷ write p (split shape.k (sheet_page s)).left ∷ []) words.old }
{
    lay_right_at(words, shape, a, shape.k, s);
    lay_left_at(words, shape, p, shape.k, s);
}

// Page 0 with one pair too many: the halves go to pages a and b, and page 0 rises a level.
fn split_root(words: &mut [u32], shape: Shape, p: u32, a: u32, b: u32, s: Sheet)
    requires in_pool { (InPool shape.k shape.n p words.old) × (InPool shape.k shape.n a words.old) × (InPool shape.k shape.n b words.old) }
    requires le_k { (1 ≤ shape.k) × (s.count ≡ 2 * shape.k + 1) × (s.level ≤ tallest) }
    ensures { words.new ≡ applied shape.k (write a (split shape.k (sheet_page s)).left ∷ write b (split shape.k (sheet_page s)).right ∷ write p (raised (sheet_page s) a (split shape.k (sheet_page s)).between b) ∷ []) words.old }
{
    lay_left_at(words, shape, a, shape.k, s);
    lay_right_at(words, shape, b, shape.k, s);
    lay_root_at(words, shape, p, s.level, a, cut_key(shape.k, s), b);
}

// The pair is put into page p, at the place of x. Its father is held. A page with one pair too many is split, and then this
// key goes up.
fn settle(
    words: &mut [u32],
    shape: Shape,
    x: u32,
    p: u32,
    key: u32,
    value: u32,
    a: u32,
) -> Option<u32>
    requires held { Held shape.k shape.n words.old (p ∷ []) }
    requires a_lt_n { 2 * shape.k ≤ μ (page_at shape.k words.old p) → a < shape.n }
    ensures { settled_as shape.k p (grown x key value (page_at shape.k words.old p)) a words.old words.new result }
{
    let at = place_of(words, shape, p, x);
    if count_of(words, shape, p) < 2 * shape.k {
        put_in_at(words, shape, p, at, key, value);
        return None;
    }
    let s = over_of(words, shape, p, at, key, value);
    split_to(words, shape, p, a, s);
    Some(cut_key(shape.k, s))
}

// The same for the top of a path: a page with one pair too many is page 0.
fn settle_top(words: &mut [u32], shape: Shape, x: u32, p: u32, key: u32, value: u32, a: u32, b: u32)
    requires held { Held shape.k shape.n words.old (p ∷ []) }
    requires a_lt_n { 2 * shape.k ≤ μ (page_at shape.k words.old p) → (a < shape.n) × (b < shape.n) }
    ensures { words.new ≡ applied shape.k (rule.settled shape.k (page_at shape.k words.old) x (a ∷ b ∷ []) [] p (grown x key value (page_at shape.k words.old p))) words.old }
{
    let at = place_of(words, shape, p, x);
    if count_of(words, shape, p) < 2 * shape.k {
        put_in_at(words, shape, p, at, key, value);
        return;
    }
    let s = over_of(words, shape, p, at, key, value);
    split_root(words, shape, p, a, b, s);
}

// The whole change.
pub fn insert(words: &mut [u32], shape: Shape, x: u32, v: u32, path: &[u32], pages: &[u32; NEW])
    requires { Inserting shape.k shape.n words.old path.now pages.now }
    ensures { words.new ≡ applied shape.k (rule.insertion shape.k (page_at shape.k words.old) x v pages.now (leaf_of (length path.now) path.now) (fathers_of (length path.now) path.now)) words.old }
{
    let mut key = x;
    let mut value = v;
    for (&a, &p) in pages.iter().zip(path[1..].iter().rev()) {
        let Some(up) = settle(words, shape, x, p, key, value, a) else {
            return;
        };
        key = up;
        value = a;
    }
    let a = pages[path.len() - 1];
    let b = pages[path.len()];
    settle_top(words, shape, x, path[0], key, value, a, b);
}
