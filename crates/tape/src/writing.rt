// Bytes to be written are gathered, and go out when the room is used up or when `flush` is called.
ghost use Rattle.std.specs.Prelude.{◌≡◌, ◌+◌, ◌≤◌, ◌<◌, [], ◌∷◌, take, fold, OnOk};
ghost use Rattle.lines.specs.Decimal.{decimal};
ghost use Rattle.tape.specs.Gathered.{gather, spelled, summed};

use answers::write_number;
use std::io::{self, Print};

pub const OUT: usize = 65536;

// The most digits of a number.
const DIGITS: usize = 10;

pub struct Output<'a, R: Print> {
    rt: &'a R,
    gathered: [u8; OUT],
    // how many bytes are gathered
    end: usize,
    ghost room: { end ≤ 65536 },
}

impl<R: Print> Drop for Output<'_, R> {
    fn drop(self) {
        let Output {
            rt: _,
            gathered: _,
            end: _,
        } = self;
    }
}

impl<'a, R: Print> Output<'a, R> {
    pub fn new(rt: &'a R) -> Self
        ensures { result.end ≡ 0 }
    {
        Output {
            rt,
            gathered: [0; OUT],
            end: 0,
        }
    }

    // Writes out what is gathered.
    pub fn flush(&mut self) -> io::Result<()>
        ensures { OnOk result (self.new.end ≡ 0) }
    {
        self.rt.write_all(&self.gathered[..self.end])?;
        self.end = 0;
        Ok(())
    }

    // One byte more.
    pub fn byte(&mut self, b: u8) -> io::Result<()>
        ensures { OnOk result (take self.new.end self.new.gathered ≡ gather (take self.old.end self.old.gathered) (b ∷ [])) }
    {
        if self.end == OUT {
            self.flush()?;
        }
        self.gathered[self.end] = b;
        self.end += 1;
        Ok(())
    }

    // A word.
    pub fn word(&mut self, word: &[u8]) -> io::Result<()>
        ensures { OnOk result (take self.new.end self.new.gathered ≡ gather (take self.old.end self.old.gathered) word.now) }
    {
        for b in word {
            self.byte(*b)?;
        }
        Ok(())
    }

    // A number in decimal.
    #[tactic(auto, using(lines::proofs::Decimals::word_short))]
    pub fn number(&mut self, n: u32) -> io::Result<()>
        ensures { OnOk result (take self.new.end self.new.gathered ≡ gather (take self.old.end self.old.gathered) (decimal n)) }
    {
        let mut digits = [0u8; DIGITS];
        let count = write_number(&mut digits, 0, n);
        self.word(&digits[..count])
    }

    // A space and a number of one digit, where there is room for both.
    fn digit(&mut self, n: u32)
        requires { (self.old.end + 2 ≤ 65536) × (n < 10) }
        ensures { take self.new.end self.new.gathered ≡ gather (gather (take self.old.end self.old.gathered) (32 ∷ [])) (decimal n) }
    {
        let end = self.end;
        self.gathered[end] = b' ';
        self.gathered[end + 1] = b'0' + n as u8;
        self.end = end + 2;
    }

    // A space and a number, for each of some words. Most of them are 0.
    pub fn numbers(&mut self, words: &[u32]) -> io::Result<()>
        ensures { OnOk result (take self.new.end self.new.gathered ≡ gather (take self.old.end self.old.gathered) (spelled words.now)) }
    {
        for word in words {
            if *word < 10 && self.end <= OUT - 2 {
                self.digit(*word);
                continue;
            }
            self.byte(b' ')?;
            self.number(*word)?;
        }
        Ok(())
    }
}

// The sum of some words: each one counts as 33 of those behind it.
pub fn sum(words: &[u32]) -> u32
    ensures { result ≡ fold summed 0 words.now }
{
    words.iter().fold(0, |sum: u32, word| sum.wrapping_mul(33).wrapping_add(*word))
}
