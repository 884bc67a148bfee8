// Answers, line by line. Each call is given the state and the words that the last one left.
ghost use Rattle.std.specs.Prelude.{◌+◌, ◌*◌, ◌≤◌, length};
ghost use Rattle.lent.specs.Words.{state_of};
ghost use Rattle.talk.specs.Split.{lines_of};
ghost use Rattle.talk.specs.Talk.{commanded, replies, program_writes};
ghost use Rattle.talk.specs.Leaves.{LineLeaves, Writes};

use answers::{write_answer, write_bad_line, write_too_long};
use index::calls::{begin, make, step};
use lent::STATE;
use lines::{Command, line_end, read_line};

// "It makes a pool with k = 2, N = 64": 64 pages of 4k + 3 words.
const K: usize = 2;

const N: usize = 64;

const WORDS: usize = N * (4 * K + 3);

// "at most 65,536 bytes"
pub const MOST: usize = 65536;

// Room for all answers. A line with its line feed has at least 1 byte, and a bad one is answered by 8; a good one has at
// least 4, and is answered by at most 32. An answer is written only where 32 bytes are left.
pub const ROOM: usize = 8 * MOST + 32;

// Makes the call that a command names, and writes its answer.
#[tactic(auto, using(crate::proofs::Obeying::begin_leaves, crate::proofs::Obeying::step_leaves, crate::proofs::Obeying::bad_leaves))]
fn obey(
    state: &mut [u32; STATE],
    words: &mut [u32],
    command: Command,
    out: &mut [u8],
    at: usize,
) -> usize
    requires { at + 32 ≤ length out.old }
    ensures { LineLeaves (commanded (state_of state.old) words.old command) out.old at (state_of state.new) result words.new out.new }
{
    match command {
        Command::Begin(slot, op) => {
            let answer = begin(state, slot as usize, op);
            write_answer(out, at, answer)
        }
        Command::Step(slot) => {
            let answer = step(state, words, slot as usize);
            write_answer(out, at, answer)
        }
        Command::Bad => write_bad_line(out, at),
    }
}

// Answers every line of an input.
// Stays: a `while` over the lines' positions, no `split_inclusive` of the slice. `line_end`, whose contract says that only a line feed
// ends a line, gives positions, and `Going` and the laws of `Split` go by them.
fn answer_lines(state: &mut [u32; STATE], words: &mut [u32], input: &[u8], out: &mut [u8]) -> usize
    requires { 8 * length input.now + 32 ≤ length out.old }
    ensures { Writes (replies (state_of state.old) words.old (lines_of input.now)) out.old result out.new }
{
    let mut at = 0;
    let mut end = 0;
    while at < input.len() {
        let stop = line_end(input, at);
        if stop == input.len() {
            return write_bad_line(out, end);
        }
        let command = read_line(&input[at..stop]);
        end = obey(state, words, command, out, end);
        at = stop + 1;
    }
    end
}

// Writes all that the program writes for an input, and gives back how many bytes that are.
pub fn answer(input: &[u8], out: &mut [u8; ROOM]) -> usize
    ensures { Writes (program_writes input.now) out.old result out.new }
{
    if MOST < input.len() {
        return write_too_long(out, 0);
    }
    let mut state = [0u32; STATE];
    let mut words = [0u32; WORDS];
    make(K, N, &mut state, &mut words);
    answer_lines(&mut state, &mut words, input, out)
}
