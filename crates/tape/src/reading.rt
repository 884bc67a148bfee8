// A line is a letter, then numbers, each behind one space, then a line feed. Bytes come one at a time, so that an input
// may be of any length and come in pieces.
ghost use Rattle.std.specs.Prelude.{◌≡◌, ◌≤◌, cond, [], ◌∷◌, ◌++◌, take};
ghost use Rattle.lines.specs.Positions.{Alike};
ghost use Rattle.tape.specs.Grammar.{is_over, fits, stand_behind, letter_behind, numbers_behind, worth_behind};

use lines::{LARGEST, grown};

// A line has at most so many numbers: a place, and a row of 16.
pub const MOST: usize = 17;

// How far a line is read.
#[derive(Clone, Copy, PartialEq, Eq)]
pub enum Stand {
    // nothing of it
    Start,
    // its letter
    Letter,
    // the space before a number
    Space,
    // digits
    Digits,
    // something that no line has
    Spoiled,
    // all of it
    Good,
    // all of it, and it is no line
    Bad,
}

// A line as far as it is read.
#[derive(Clone, Copy)]
pub struct Reading {
    pub stand: Stand,
    pub letter: u8,
    numbers: [u32; MOST],
    // how many numbers are read
    pub count: usize,
    // what the digits of the next number are worth
    pub worth: u64,
    ghost room: { count ≤ 17 },
}

impl Reading {
    // Before the first byte of a line.
    pub fn new() -> Self
        ensures stand { result.stand ≡ Stand.Start }
        ensures numbers { take result.count result.numbers ≡ [] }
    {
        Reading {
            stand: Stand::Start,
            letter: 0,
            numbers: [0; MOST],
            count: 0,
            worth: 0,
        }
    }

    pub fn stand(&self) -> Stand
        ensures { result ≡ self.now.stand }
    {
        self.stand
    }

    pub fn letter(&self) -> u8
        ensures { result ≡ self.now.letter }
    {
        self.letter
    }

    pub fn numbers(&self) -> &[u32]
        ensures { result.now ≡ take self.now.count self.now.numbers }
    {
        &self.numbers[..self.count]
    }

    // Whether nothing of a line is read: an input that ends here has no unended line.
    pub fn is_start(&self) -> bool
        ensures { result ≡ is_over self.now.stand }
    {
        matches!(self.stand, Stand::Start | Stand::Good | Stand::Bad)
    }

    // One byte more. Behind the end of a line the next one starts.
    pub fn take(&mut self, b: u8)
        ensures stand { self.new.stand ≡ stand_behind self.old.stand (fits self.old.worth self.old.count) b }
        ensures letter { self.new.letter ≡ letter_behind self.old.stand self.old.letter b }
        ensures numbers { take self.new.count self.new.numbers ≡ numbers_behind self.old.stand self.old.worth (take self.old.count self.old.numbers) b }
        ensures worth { Alike self.new.worth (worth_behind self.old.stand self.old.worth self.old.count b) }
    {
        match (self.stand, b) {
            (Stand::Start | Stand::Good | Stand::Bad, b'a'..=b'z') => self.begin(b),
            (Stand::Letter, b' ') => self.stand = Stand::Space,
            (Stand::Letter, b'\n') => self.stand = Stand::Good,
            (Stand::Space | Stand::Digits, b'0'..=b'9') => {
                self.worth = grown(self.worth, b);
                self.stand = Stand::Digits;
            }
            (Stand::Digits, b' ') => self.end(Stand::Space, Stand::Spoiled),
            (Stand::Digits, b'\n') => self.end(Stand::Good, Stand::Bad),
            (_, b'\n') => self.stand = Stand::Bad,
            _ => self.stand = Stand::Spoiled,
        }
    }

    // The letter of a line.
    fn begin(&mut self, letter: u8)
        ensures stand { self.new.stand ≡ Stand.Letter }
        ensures letter { self.new.letter ≡ letter }
        ensures numbers { take self.new.count self.new.numbers ≡ [] }
        ensures worth { self.new.worth ≡ 0 }
    {
        self.stand = Stand::Letter;
        self.letter = letter;
        self.count = 0;
        self.worth = 0;
    }

    // A number ends: it is put behind the others, if it is a number and there is room.
    fn end(&mut self, good: Stand, bad: Stand)
        ensures stand { self.new.stand ≡ cond (fits self.old.worth self.old.count) good bad }
        ensures letter { self.new.letter ≡ self.old.letter }
        ensures numbers { take self.new.count self.new.numbers ≡ cond (fits self.old.worth self.old.count) (take self.old.count self.old.numbers ++ self.old.worth ∷ []) (take self.old.count self.old.numbers) }
        ensures worth { self.new.worth ≡ cond (fits self.old.worth self.old.count) 0 self.old.worth }
    {
        if self.worth <= LARGEST && self.count < MOST {
            self.numbers[self.count] = self.worth as u32;
            self.count += 1;
            self.worth = 0;
            self.stand = good;
        } else {
            self.stand = bad;
        }
    }
}
