// Where an operation stands once its want is granted.
ghost use Rattle.std.specs.Prelude.{◌≡◌, true};
ghost use Rattle.pool.specs.Pool.{page_at};
ghost use Rattle.slots.specs.Parts.{stand_of, slot_of};
ghost use Rattle.footing.specs.Standing.{Asks, fits, stood};

use footing::converting::converts;
use footing::looking::{at_leaf, is_safe};
use ground::Shape;
use slots::making::{converted, holding_beside, holding_more, holding_one};
use slots::{Op, Slot};

// A conversion takes no page more. At its leaf it holds one more page beside its path. Coming down, it holds the page alone, if that is safe, or one more on its path.
pub fn stands(words: &[u32], shape: Shape, op: Op, slot: Slot) -> Slot
    requires asks { Asks shape.k shape.n words.now op slot }
    requires slot_value { fits shape.k shape.n words.now (stand_of op slot) ≡ true }
    ensures { result ≡ slot_of (stood shape.k (page_at shape.k words.now) (stand_of op slot)) }
{
    if converts(shape.n, op, slot) {
        return converted(op, slot);
    }
    if at_leaf(words, shape, slot.path_pages()) {
        return holding_beside(op, slot, slot.want);
    }
    if is_safe(words, shape, op, slot.want) {
        return holding_one(op, slot, slot.want);
    }
    holding_more(op, slot, slot.want)
}
