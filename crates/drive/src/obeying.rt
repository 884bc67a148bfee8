// What a line asks for, and what it is answered.
ghost use Rattle.std.specs.Prelude.{◌≡◌, ◌≤◌, length, take, replicate};
ghost use Rattle.lent.specs.Layout.{state_length};

use embed::calls::{
    ghazfulit_begin, ghazfulit_make, ghazfulit_open, ghazfulit_report, ghazfulit_step,
};
use lent::STATE;
use std::io::{self, Print};
use tape::writing::{Output, sum};

// Room for a pool's words: the largest pool has 1,024 pages of 67 words, and a pool may be given some more.
pub const ROOM: usize = 70000;

// How much is written of an outcome.
#[derive(Clone, Copy)]
enum Telling {
    Answer,
    // with it a sum each of state and pool
    Sums,
    // with it all their words
    Words,
}

// What the calls are made on: a state, and a pool with room for more words than it has.
#[derive(Drop)]
pub struct Bench {
    words: [u32; ROOM],
    state: [u32; STATE],
    // how many words the pool has
    length: usize,
    telling: Telling,
}

// As many of the words as there are, at most so many.
fn within(most: usize, words: &[u32]) -> usize
    ensures { (result ≤ length words.now) × (result ≡ length (take result words.now)) }
{
    most.min(words.len())
}

// These become the words from that place on, if there are any and they all fit.
fn lay(words: &mut [u32], at: u32, laid: &[u32]) -> Option<()> {
    let at = at as usize;
    let end = at + laid.len();
    if laid.is_empty() || words.len() < end {
        return None;
    }
    words[at..end].copy_from_slice(laid);
    Some(())
}

// The line that answers what is no line.
pub fn bad_line(out: &mut Output<impl Print>) -> io::Result<()> {
    out.word(b"BadLine\n")
}

impl Bench {
    // Every word of the state is 0, and the pool has none.
    pub fn new() -> Self
        ensures state { result.state ≡ replicate state_length 0 }
        ensures length { result.length ≡ 0 }
    {
        Bench {
            words: [0; ROOM],
            state: [0; STATE],
            length: 0,
            telling: Telling::Answer,
        }
    }

    // Does what a line asks for, and answers it.
    pub fn obey(
        &mut self,
        letter: u8,
        numbers: &[u32],
        out: &mut Output<impl Print>,
    ) -> io::Result<()> {
        if let Some(answer) = self.call(letter, numbers) {
            return self.tell(answer, out);
        }
        match self.change(letter, numbers) {
            Some(()) => Ok(()),
            None => bad_line(out),
        }
    }

    // Makes the call that a line names, and gives back its answer. A line may name none.
    fn call(&mut self, letter: u8, numbers: &[u32]) -> Option<[u32; 4]> {
        let length = within(self.length, &self.words);
        let state = &mut self.state;
        let words = &mut self.words[..];
        let words = &mut words[..length];
        let mut answer = [0; 4];
        match (letter, numbers) {
            (b'm', [k, n]) => ghazfulit_make(*k, *n, state, words, &mut answer),
            (b'o', [k, n]) => ghazfulit_open(*k, *n, state, words, &mut answer),
            (b'b', [slot, kind, key, information]) => {
                ghazfulit_begin(state, *slot, *kind, *key, *information, &mut answer)
            }
            (b't', [slot]) => ghazfulit_step(state, words, *slot, &mut answer),
            (b'r', [page]) => ghazfulit_report(state, *page, &mut answer),
            _ => return None,
        }
        Some(answer)
    }

    // The outcome of a call: the answer; with it a sum each of state and pool, or all their words.
    fn tell(&self, answer: [u32; 4], out: &mut Output<impl Print>) -> io::Result<()> {
        let words = &self.words[..within(self.length, &self.words)];
        out.number(answer[0])?;
        out.numbers(&answer[1..])?;
        match self.telling {
            Telling::Answer => {}
            Telling::Sums => out.numbers(&[sum(&self.state), sum(words)])?,
            Telling::Words => {
                out.numbers(&self.state)?;
                out.numbers(words)?;
            }
        }
        out.byte(b'\n')
    }

    // A line that is no call changes what the next call is given, or is no line at all.
    fn change(&mut self, letter: u8, numbers: &[u32]) -> Option<()> {
        let length = within(self.length, &self.words);
        match (letter, numbers) {
            (b's', [at, laid @ ..]) => lay(&mut self.state, *at, laid),
            (b'w', [at, laid @ ..]) => lay(&mut self.words[..length], *at, laid),
            (b'p', [length, word]) => self.resize(*length, *word),
            (b'q', [how]) => self.choose(*how),
            _ => None,
        }
    }

    // The pool has so many words now, each of them this one, if there is room.
    fn resize(&mut self, length: u32, word: u32) -> Option<()> {
        let length = length as usize;
        if ROOM < length {
            return None;
        }
        self.words[..length].fill(word);
        self.length = length;
        Some(())
    }

    // What is written of an outcome from now on.
    fn choose(&mut self, how: u32) -> Option<()> {
        self.telling = match how {
            0 => Telling::Answer,
            1 => Telling::Sums,
            2 => Telling::Words,
            _ => return None,
        };
        Some(())
    }
}
