// Each page by itself, and marks, one for each page: a page that is all zeros needs no meeting and has its mark before the walk begins.
ghost use Rattle.std.specs.Prelude.{ℕ, ◌≤◌, ◌<◌, length, get_or, ◌≡◌, false, None};
ghost use Rattle.ground.specs.Tests.{all_below};
ghost use Rattle.pool.specs.Wrapped.{InPool};
ghost use Rattle.opening.specs.Opening.{sound_alone, unsound_page};
ghost use Rattle.opening.specs.Marks.{Handed, marked, free_mark};

use ground::Shape;
use pool::pages::{level_of, sound_of, zero_of};

// All zeros and not page 0, or as document 01 has a page of the tree.
fn sound_alone(words: &[u32], shape: Shape, p: u32) -> bool
    requires { InPool shape.k shape.n p words.now }
    ensures { result ≡ sound_alone shape.k shape.n words.now p }
{
    sound_of(words, shape, p) || p != 0 && zero_of(words, shape, p)
}

// The lowest-numbered page that is not sound by itself. Where there is none, every page has its mark then: before the walk a page has one
// if it is on no level.
#[tactic(auto, using(crate::proofs::CheckLaws::scan_ends), unfolding(ground::specs::Limits::largest_n, ground::specs::Tests::first_below))]
pub fn lowest_unsound(words: &[u32], shape: Shape, marks: &mut [bool]) -> Option<u32>
    requires handed { Handed shape.k shape.n words.now }
    requires n_in_bounds { shape.n ≤ length marks.old }
    ensures value { result ≡ unsound_page shape.k shape.n words.now }
    ensures q_after { result ≡ None → (q : ℕ) → q < shape.n → get_or marks.new q false ≡ free_mark shape.k words.now q }
{
    for p in 0..shape.n {
        let page = p as u32;
        if !sound_alone(words, shape, page) {
            return Some(page);
        }
        marks[p] = level_of(words, shape, page) == 0;
    }
    None
}

// Every page has a mark.
pub fn all_marked(marks: &[bool], n: usize) -> bool
    requires { n ≤ length marks.now }
    ensures { result ≡ all_below n (marked marks.now) }
{
    !marks[..n].contains(&false)
}
