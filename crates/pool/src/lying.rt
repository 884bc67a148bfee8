// Where pages lie in the pool, which pages are free, and the fresh pool.
#![tactic(auto, using(crate::proofs::LyingLaws::lying_known), unfolding(ground::specs::Limits::largest_k, ground::specs::Limits::largest_n, ground::specs::Limits::most_new, crate::specs::Pool::start))]

ghost use Rattle.std.specs.Prelude.{◌≡◌, ◌≤◌, length, set, replicate};
ghost use Rattle.ground.specs.Limits.{largest_k, largest_n, most_new};
ghost use Rattle.ground.specs.Tests.{first_below};
ghost use Rattle.page.specs.Words.{size};
ghost use Rattle.pool.specs.Pool.{pool_length, start, free_pages, free_from};
ghost use Rattle.pool.specs.Scan.{Scanned};

use ground::{NEW, Shape};

// A page is 4k+3 words.
pub fn page_size(k: usize) -> usize
    requires { k ≤ largest_k }
    ensures { result ≡ size k }
{
    4 * k + 3
}

// Where page p starts; for p = n this is the pool's number of words.
pub fn start_of(k: usize, p: usize) -> usize
    requires { (k ≤ largest_k) × (p ≤ largest_n) }
    ensures { result ≡ start k p }
{
    p * page_size(k)
}

// The lowest-numbered free page that is not below `from`, or n where there is none.
fn next_free(words: &[u32], shape: Shape, from: usize) -> usize
    requires { (length words.now ≡ pool_length shape.k shape.n) × (1 ≤ from) × (from ≤ shape.n) }
    ensures { result ≡ first_below shape.n (free_from shape.k words.now from) }
{
    let size = page_size(shape.k);
    let mut p = from;
    let mut at = start_of(shape.k, from);
    // Stays: a rule of the project: the scan for the lowest free page yields the page's number by `break` out of a `loop`.
    loop {
        if p == shape.n {
            break shape.n;
        }
        if words[at] == 0 {
            break p;
        }
        p += 1;
        at += size;
    }
}

// The lowest `need` free pages, each found behind the last one: one pass in all. None where there are fewer.
pub fn take_pages(words: &[u32], shape: Shape, need: usize) -> Option<[u32; NEW]>
    requires { (1 ≤ shape.n) × (length words.now ≡ pool_length shape.k shape.n) × (need ≤ most_new) }
    ensures { Scanned need (free_pages shape.k shape.n words.now) result }
{
    let mut pages = [0; NEW];
    let mut from = 1;
    for page in &mut pages[..need] {
        let p = next_free(words, shape, from);
        if p == shape.n {
            return None;
        }
        *page = p as u32;
        from = p + 1;
    }
    Some(pages)
}

// All zero but page 0's level, 1.
pub fn make_fresh(words: &mut [u32])
    requires { 1 ≤ length words.old }
    ensures { words.new ≡ set (replicate (length words.old) 0) 0 1 }
{
    words.fill(0);
    words[0] = 1;
}
