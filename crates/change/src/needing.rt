// Which sibling a deletion at its leaf needs next. A path is given from the top downward, siblings from the leaf's upward.
ghost use Rattle.std.specs.Prelude.{◌≡◌, ◌||◌, eqb, ltb, length};
ghost use Rattle.page.specs.Words.{μ};
ghost use Rattle.page.specs.Reading.{Readable};
ghost use Rattle.pool.specs.Pool.{words_of, page_at};
ghost use Rattle.pool.specs.Wrapped.{InPool};
ghost use Rattle.change.specs.Deletion as rule;
ghost use Rattle.change.specs.Held.{Needing, leaf_of, fathers_of, need_of};

use ground::Shape;
use pool::pages::{count_of, neighbour_of};

// The pages held are not those that the rules would have it hold.
#[derive(Clone, Copy, Debug, PartialEq, Eq)]
pub struct Astray;

// Nothing more is needed, if no sibling beyond those needed is held.
fn satisfied(left: &[u32]) -> Result<Option<u32>, Astray>
    ensures { need_of result ≡ rule.satisfied left.now }
{
    if left.is_empty() {
        Ok(None)
    } else {
        Err(Astray)
    }
}

// Page p can lose one: it is page 0, or it has more than k.
fn spares(words: &[u32], shape: Shape, p: u32) -> bool
    requires in_pool { InPool shape.k shape.n p words.now }
    requires readable { Readable (words_of shape.k p words.now) }
    ensures { result ≡ eqb p 0 || ltb shape.k (μ (page_at shape.k words.now p)) }
{
    p == 0 || shape.k < count_of(words, shape, p)
}

// What the deletion of x, which stands at the last page of its path and holds these siblings, needs: nothing more, or
// this sibling.
pub fn needs(
    words: &[u32],
    shape: Shape,
    x: u32,
    path: &[u32],
    siblings: &[u32],
) -> Result<Option<u32>, Astray>
    requires { Needing shape.k shape.n words.now path.now siblings.now }
    ensures { need_of result ≡ rule.needs shape.k (page_at shape.k words.now) x (leaf_of (length path.now) path.now) (fathers_of (length path.now) path.now) siblings.now }
{
    let mut left = siblings;
    for &[father, p] in path.array_windows::<2>().rev() {
        if spares(words, shape, p) {
            return satisfied(left);
        }
        let wanted = neighbour_of(words, shape, father, x);
        let Some((&s, rest)) = left.split_first() else {
            return Ok(Some(wanted));
        };
        if s != wanted {
            return Err(Astray);
        }
        if shape.k < count_of(words, shape, s) {
            return satisfied(rest);
        }
        left = rest;
    }
    if spares(words, shape, path[0]) {
        satisfied(left)
    } else {
        Err(Astray)
    }
}
