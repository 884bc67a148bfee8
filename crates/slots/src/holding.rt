// The pages that a slot holds.
ghost use Rattle.std.specs.Prelude.{◌≡◌, ◌≤◌, take};
ghost use Rattle.ground.specs.Limits.{path_holds};
ghost use Rattle.ground.specs.Tests.{member};
ghost use Rattle.slots.specs.Parts.{held, path_of, beside_of};

use crate::Slot;
use ground::HELD;

#[tactic(auto, unfolding(ground::specs::Limits::path_holds, crate::specs::Parts::path_of, crate::specs::Parts::beside_of))]
impl Slot {
    // The pages of its path, from the top downward.
    pub fn path_pages(&self) -> &[u32]
        requires { self.now.depth ≤ path_holds }
        ensures { result.now ≡ path_of self.now }
    {
        &self.path[..self.depth]
    }

    // The pages beside its path.
    pub fn beside_pages(&self) -> &[u32]
        requires { self.now.breadth ≤ path_holds }
        ensures { result.now ≡ beside_of self.now }
    {
        &self.beside[..self.breadth]
    }
}

// Page p stands in one of the first `count` cells.
fn among(cells: [u32; HELD], count: usize, p: u32) -> bool
    ensures { result ≡ member p (take count cells) }
{
    cells[..count.min(HELD)].contains(&p)
}

// The slot holds page p, on its path or as a sibling.
#[tactic(auto, using(crate::proofs::HoldingLaws::holds_split))]
pub fn holds(slot: Slot, p: u32) -> bool
    ensures { result ≡ member p (held slot) }
{
    among(slot.path, slot.depth, p) || among(slot.beside, slot.breadth, p)
}
