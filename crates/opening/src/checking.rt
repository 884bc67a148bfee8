// The check of a pool that somebody hands us: one pass over its words for each page by itself, then the walk down the tree.
ghost use Rattle.std.specs.Prelude.{ℕ, ◌≤◌, ◌<◌, length, get_or, ◌≡◌, false};
ghost use Rattle.opening.specs.Opening.{is_tree, checked};
ghost use Rattle.opening.specs.Marks.{Handed, AllSound, free_mark};

use crate::hanging::hangs;
use crate::marking::{all_marked, lowest_unsound};
use ground::{LARGEST_N, Shape};
use pool::pages::level_of;

// One more than the largest key.
const KEYS: u64 = 4294967296;

// Why the words are no tree.
#[derive(Clone, Copy, Debug, PartialEq, Eq)]
pub enum Fault {
    // the lowest-numbered page that is not sound by itself
    Unsound(u32),
    NoTree,
}

// The pages, each sound by itself, form the tree from page 0, and every page that is not met is free.
#[tactic(auto, using(crate::proofs::TreeLaws::root_some, crate::proofs::TreeLaws::walk_fails), unfolding(ground::specs::Limits::word_range))]
fn is_tree(words: &[u32], shape: Shape, marks: &mut [bool]) -> bool
    requires all_sound { AllSound shape.k shape.n words.now }
    requires n_in_bounds { shape.n ≤ length marks.old }
    requires by_index { (q : ℕ) → q < shape.n → get_or marks.old q false ≡ free_mark shape.k words.now q }
    ensures { result ≡ is_tree shape.k shape.n words.now }
{
    let level = level_of(words, shape, 0);
    hangs(words, shape, level, 0, 0, KEYS, marks) && all_marked(marks, shape.n)
}

// The marks lie in an array of the call's own: no word of the pool is written.
#[tactic(auto, using(crate::proofs::CheckLaws::checked_page, crate::proofs::CheckLaws::checked_tree, crate::proofs::CheckLaws::checked_none, crate::proofs::CheckLaws::all_sound), unfolding(ground::specs::Limits::largest_n))]
pub fn check(words: &[u32], shape: Shape) -> Result<(), Fault>
    requires { Handed shape.k shape.n words.now }
    ensures { result ≡ checked shape.k shape.n words.now }
{
    // Stays: a rule of the project: a fixed array and no heap, so there are marks for the largest pool, of which the first shape.n count.
    let mut marks = [false; LARGEST_N];
    if let Some(page) = lowest_unsound(words, shape, &mut marks) {
        return Err(Fault::Unsound(page));
    }
    if !is_tree(words, shape, &mut marks) {
        return Err(Fault::NoTree);
    }
    Ok(())
}
