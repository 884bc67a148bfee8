// The static library: the calls of `embed`, exported by their names for C and Rust. A slice is handed in from C as a pointer and a length,
// an array as a pointer. Each function has the contract of the call that it makes.
#![tactic(auto)]

ghost use Rattle.std.specs.Prelude.{◌≡◌};
ghost use Rattle.embed.specs.Statements.{MakeTells, OpenTells, BeginTells, StepTells, ReportTells};
ghost use Rattle.embed.specs.Version.{library_version};

use embed::calls;
use lent::STATE;

// Makes a fresh pool of n pages of width k in the lent words, and an idle state beside it.
#[unsafe(no_mangle)]
pub extern "C" fn ghazfulit_make(
    k: u32,
    n: u32,
    state: &mut [u32; STATE],
    words: &mut [u32],
    answer: &mut [u32; 4],
)
    ensures { MakeTells k n words.old state.new words.new answer.new }
{
    calls::ghazfulit_make(k, n, state, words, answer);
}

// Opens the words that are handed in as a pool of n pages of width k, with an idle state beside them.
#[unsafe(no_mangle)]
pub extern "C" fn ghazfulit_open(
    k: u32,
    n: u32,
    state: &mut [u32; STATE],
    words: &[u32],
    answer: &mut [u32; 4],
)
    ensures { OpenTells k n words.now state.new answer.new }
{
    calls::ghazfulit_open(k, n, state, words, answer);
}

// Begins an operation in a slot.
#[unsafe(no_mangle)]
pub extern "C" fn ghazfulit_begin(
    state: &mut [u32; STATE],
    slot: u32,
    kind: u32,
    key: u32,
    information: u32,
    answer: &mut [u32; 4],
)
    ensures { BeginTells state.old slot kind key information state.new answer.new }
{
    calls::ghazfulit_begin(state, slot, kind, key, information, answer);
}

// Steps a slot: one lock more, or its answer.
#[unsafe(no_mangle)]
pub extern "C" fn ghazfulit_step(
    state: &mut [u32; STATE],
    words: &mut [u32],
    slot: u32,
    answer: &mut [u32; 4],
)
    ensures { StepTells state.old words.old slot state.new words.new answer.new }
{
    calls::ghazfulit_step(state, words, slot, answer);
}

// Says who holds a page.
#[unsafe(no_mangle)]
pub extern "C" fn ghazfulit_report(state: &[u32; STATE], page: u32, answer: &mut [u32; 4])
    ensures { ReportTells state.now page answer.new }
{
    calls::ghazfulit_report(state, page, answer);
}

// Says of which version the library is, so that a caller can hold it to the header that he was compiled with.
#[unsafe(no_mangle)]
pub extern "C" fn ghazfulit_version() -> u32
    ensures { result ≡ library_version }
{
    calls::ghazfulit_version()
}
