// Beginning an operation in a slot.
ghost use Rattle.index.specs.Statements.{BeginSays};

use ground::SLOTS;
use lent::STATE;
use lent::book::begins;
use lent::cells::{Column, sized};
use slots::operations::blank_tag;
use slots::{Answer, Op};
use soundness::checking::is_sound;

// Begins an operation in slot s of the state in these words.
pub fn begin(state: &mut [u32; STATE], s: usize, op: Op) -> Answer
    ensures { BeginSays state.old s op result state.new }
{
    sized(state);
    if !is_sound(state) {
        return Answer::BadState;
    }
    if SLOTS <= s {
        return Answer::BadSlot;
    }
    if (Column { cells: state, s }).kind() != 0 {
        return Answer::SlotBusy;
    }
    if blank_tag(op) {
        return Answer::BadKey;
    }
    begins(state, s, op);
    Answer::Begun
}
