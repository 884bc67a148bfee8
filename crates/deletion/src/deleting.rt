// A deletion's whole change, from the leaf upward. A page that lost one is written where it lies; if it is short, it
// shares with its sibling or joins it, and then its father lost one.
#![tactic(auto, unfolding(ground::specs::Limits::largest_k, ground::specs::Limits::path_holds))]

ghost use Rattle.std.specs.Prelude.{◌≡◌, ◌&&◌, eqb, ltb, length};
ghost use Rattle.page.specs.Words.{μ};
ghost use Rattle.page.specs.Short.{between_at, joined};
ghost use Rattle.page.specs.Reading.{Readable};
ghost use Rattle.sheet.specs.Sheets.{sheet_page};
ghost use Rattle.pool.specs.Pool.{words_of, page_at, applied};
ghost use Rattle.pool.specs.Wrapped.{InPool};
ghost use Rattle.change.specs.Deletion as rule;
ghost use Rattle.change.specs.Held.{leaf_of, fathers_of};
ghost use Rattle.deletion.specs.Deleting.{Cutting, Joining, Settling, Mending, Climbing, Deleting, sharing, collapsing, uniting, paired, lost, round};

use ground::Shape;
use pool::pages::{
    between_of, clear_at, count_of, has_right_of, join_of, key_of, lay_at, lay_left_at,
    lay_right_at, place_of, rekey_at, take_out_at,
};
use sheet::sheets::{Sheet, cut_key};

// Two neighbours and the key between them: the joined row cut at pair c.
fn share(words: &mut [u32], shape: Shape, f: u32, b: usize, l: u32, w: u32, c: usize, s: Sheet)
    requires { Cutting shape.k shape.n words.old f b l w c s }
    ensures { words.new ≡ applied shape.k (sharing f (page_at shape.k words.old f) b l w c (sheet_page s)) words.old }
{
    lay_left_at(words, shape, l, c, s);
    lay_right_at(words, shape, w, c, s);
    rekey_at(words, shape, f, b, cut_key(c, s));
}

// Page 0 takes the words of its one child, and both children are freed.
fn collapse(words: &mut [u32], shape: Shape, f: u32, b: usize, l: u32, w: u32, s: Sheet)
    requires { Joining shape.k shape.n words.old f b l w s }
    ensures { words.new ≡ applied shape.k (collapsing f l w (sheet_page s)) words.old }
{
    lay_at(words, shape, f, s);
    clear_at(words, shape, l);
    clear_at(words, shape, w);
}

// Both join in the left page, the right one is freed, and the father loses a reference key.
fn unite(words: &mut [u32], shape: Shape, f: u32, b: usize, l: u32, w: u32, s: Sheet)
    requires { Joining shape.k shape.n words.old f b l w s }
    ensures { words.new ≡ applied shape.k (uniting f (page_at shape.k words.old f) b l w (sheet_page s)) words.old }
{
    lay_at(words, shape, l, s);
    clear_at(words, shape, w);
    take_out_at(words, shape, f, b);
}

// Page f is page 0 and has one key.
fn at_last_key(words: &[u32], shape: Shape, f: u32) -> bool
    requires in_pool { InPool shape.k shape.n f words.now }
    requires readable { Readable (words_of shape.k f words.now) }
    ensures { result ≡ eqb f 0 && eqb (μ (page_at shape.k words.now f)) 1 }
{
    f == 0 && count_of(words, shape, f) == 1
}

// The neighbours l and w under f, with the key r at place b between them: they share, or they join. Whether f lost a key.
fn settle(
    words: &mut [u32],
    shape: Shape,
    f: u32,
    b: usize,
    r: u32,
    l: u32,
    w: u32,
    spares: bool,
    c: usize,
) -> bool
    requires { Settling shape.k shape.n words.old f b r l w spares c }
    ensures words_after { words.new ≡ applied shape.k (paired spares f (page_at shape.k words.old f) b l w c (joined r (page_at shape.k words.old l) (page_at shape.k words.old w))) words.old }
    ensures value { result ≡ lost spares f (page_at shape.k words.old f) b }
{
    let s = join_of(words, shape, l, r, w);
    if spares {
        share(words, shape, f, b, l, w, c, s);
        return false;
    }
    if at_last_key(words, shape, f) {
        collapse(words, shape, f, b, l, w, s);
        return false;
    }
    unite(words, shape, f, b, l, w, s);
    true
}

// The short page p, to which f routes x and which has `own` pairs, and its sibling s. Whether the father lost a key.
fn mend(words: &mut [u32], shape: Shape, x: u32, f: u32, p: u32, s: u32, own: usize) -> bool
    requires mending { Mending shape.k shape.n words.old f p s }
    requires own_value { own ≡ μ (page_at shape.k words.old p) }
    ensures words_after { words.new ≡ applied shape.k (round shape.k x p (page_at shape.k words.old p) s (page_at shape.k words.old s) f (page_at shape.k words.old f)) words.old }
    ensures value { result ≡ lost (ltb shape.k (μ (page_at shape.k words.old s))) f (page_at shape.k words.old f) (between_at x (page_at shape.k words.old f)) }
{
    let b = between_of(words, shape, f, x);
    let r = key_of(words, shape, f, b);
    let spare = count_of(words, shape, s);
    if has_right_of(words, shape, f, x) {
        return settle(words, shape, f, b, r, p, s, shape.k < spare, own + 1);
    }
    settle(words, shape, f, b, r, s, p, shape.k < spare, spare - 1)
}

// The leaf lost one: whatever follows from that, from the leaf upward. The siblings stand in that order too, and the top of
// the path has none.
fn climb(words: &mut [u32], shape: Shape, x: u32, path: &[u32], siblings: &[u32])
    requires { Climbing shape.k shape.n words.old path.now siblings.now }
    ensures { words.new ≡ applied shape.k (rule.shrunk shape.k (page_at shape.k words.old) x (fathers_of (length path.now) path.now) siblings.now (leaf_of (length path.now) path.now) (page_at shape.k words.old (leaf_of (length path.now) path.now))) words.old }
{
    for (&s, &[f, p]) in siblings.iter().zip(path.array_windows::<2>().rev()) {
        let own = count_of(words, shape, p);
        if shape.k <= own {
            return;
        }
        if !mend(words, shape, x, f, p, s, own) {
            return;
        }
    }
}

// The whole change of the deletion of x, which stands at the last page of its path and holds these siblings.
pub fn delete(words: &mut [u32], shape: Shape, x: u32, path: &[u32], siblings: &[u32])
    requires { Deleting shape.k shape.n words.old x path.now siblings.now }
    ensures { words.new ≡ applied shape.k (rule.deletion shape.k (page_at shape.k words.old) x (leaf_of (length path.now) path.now) (fathers_of (length path.now) path.now) siblings.now) words.old }
{
    let leaf = path[path.len() - 1];
    let at = place_of(words, shape, leaf, x);
    take_out_at(words, shape, leaf, at - 1);
    climb(words, shape, x, path, siblings);
}
