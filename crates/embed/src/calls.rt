// The public calls over words that the caller lends. Crate `embed_c` exports each by its name.
ghost use Rattle.std.specs.Prelude.{◌≡◌};
ghost use Rattle.embed.specs.Statements.{MakeTells, OpenTells, BeginTells, StepTells, ReportTells};
ghost use Rattle.embed.specs.Version.{library_version};

use crate::telling::{tell, tell_bad_kind};
use index::calls::{begin, make, open, report, step};
use lent::STATE;
use slots::operations::asked_by;

// The version of these calls.
const VERSION: u32 = 7;

// Makes a fresh pool of n pages of width k in the lent words, and an idle state beside it.
pub fn ghazfulit_make(
    k: u32,
    n: u32,
    state: &mut [u32; STATE],
    words: &mut [u32],
    answer: &mut [u32; 4],
)
    ensures { MakeTells k n words.old state.new words.new answer.new }
{
    let heard = make(k as usize, n as usize, state, words);
    tell(heard, answer);
}

// Opens the words that are handed in as a pool of n pages of width k, with an idle state beside them.
pub fn ghazfulit_open(
    k: u32,
    n: u32,
    state: &mut [u32; STATE],
    words: &[u32],
    answer: &mut [u32; 4],
)
    ensures { OpenTells k n words.now state.new answer.new }
{
    let heard = open(k as usize, n as usize, state, words);
    tell(heard, answer);
}

// Begins an operation in a slot.
pub fn ghazfulit_begin(
    state: &mut [u32; STATE],
    slot: u32,
    kind: u32,
    key: u32,
    information: u32,
    answer: &mut [u32; 4],
)
    ensures { BeginTells state.old slot kind key information state.new answer.new }
{
    let Some(op) = asked_by(kind, key, information) else {
        tell_bad_kind(answer);
        return;
    };
    let heard = begin(state, slot as usize, op);
    tell(heard, answer);
}

// Steps a slot: one lock more, or its answer.
pub fn ghazfulit_step(state: &mut [u32; STATE], words: &mut [u32], slot: u32, answer: &mut [u32; 4])
    ensures { StepTells state.old words.old slot state.new words.new answer.new }
{
    let heard = step(state, words, slot as usize);
    tell(heard, answer);
}

// Says who holds a page.
pub fn ghazfulit_report(state: &[u32; STATE], page: u32, answer: &mut [u32; 4])
    ensures { ReportTells state.now page answer.new }
{
    let heard = report(state, page);
    tell(heard, answer);
}

// Says of which version the library is, so that a caller can hold it to the header that he was compiled with.
pub fn ghazfulit_version() -> u32
    ensures { result ≡ library_version }
{
    VERSION
}
