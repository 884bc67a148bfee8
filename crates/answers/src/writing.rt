// How an answer is written: its name, for Found, AlreadyThere, Deleted and Regraded a space and the information, for Next the key
// in front of it, for BadPageInPool a space and the page, and a line feed.
ghost use Rattle.std.specs.Prelude.{◌++◌, ◌≡◌, ◌+◌, ◌≤◌, length};
ghost use Rattle.lines.specs.Text.{bytes, laid};
ghost use Rattle.lines.specs.Decimal.{decimal};
ghost use Rattle.lines.specs.Names.{answer_line, bad_line, too_long};

use slots::Answer;

// Writes a word at a position, and gives back the position behind it.
fn write_word(out: &mut [u8], at: usize, word: &[u8]) -> usize
    requires { at + length word.now ≤ length out.old }
    ensures { (out.new ≡ laid out.old at word.now) × (result ≡ at + length word.now) }
{
    let end = at + word.len();
    out[at..end].copy_from_slice(word);
    end
}

// How many digits a number has.
#[tactic(auto, using(lines::proofs::Decimals::length_one, lines::proofs::Decimals::length_more, lines::proofs::Decimals::decimal_some, lines::proofs::Decimals::word_short))]
fn digit_count(n: u32) -> usize
    ensures { result ≡ length (decimal n) }
{
    let mut left = n;
    let mut count = 1;
    while 10 <= left {
        left /= 10;
        count += 1;
    }
    count
}

// Writes a number in decimal, from its last digit to its first.
pub fn write_number(out: &mut [u8], at: usize, n: u32) -> usize
    requires { at + length (decimal n) ≤ length out.old }
    ensures { (out.new ≡ laid out.old at (decimal n)) × (result ≡ at + length (decimal n)) }
{
    let end = at + digit_count(n);
    let mut left = n;
    for place in (at..end).rev() {
        out[place] = b'0' + (left % 10) as u8;
        left /= 10;
    }
    end
}

// Writes a word, a number and a line feed.
#[tactic(auto, using(lines::proofs::Decimals::word_short))]
fn write_value(out: &mut [u8], at: usize, word: &[u8], n: u32) -> usize
    requires { at + length word.now + 11 ≤ length out.old }
    ensures { (out.new ≡ laid out.old at (word.now ++ decimal n ++ bytes "\n")) × (result ≡ at + length (word.now ++ decimal n ++ bytes "\n")) }
{
    let behind = write_word(out, at, word);
    let end = write_number(out, behind, n);
    write_word(out, end, b"\n")
}

// Writes a word, a key, a space, information and a line feed.
#[tactic(auto, using(lines::proofs::Decimals::word_short))]
fn write_lot(out: &mut [u8], at: usize, word: &[u8], key: u32, information: u32) -> usize
    requires { at + length word.now + 22 ≤ length out.old }
    ensures { (out.new ≡ laid out.old at (word.now ++ decimal key ++ bytes " " ++ decimal information ++ bytes "\n")) × (result ≡ at + length (word.now ++ decimal key ++ bytes " " ++ decimal information ++ bytes "\n")) }
{
    let behind = write_word(out, at, word);
    let end = write_number(out, behind, key);
    write_value(out, end, b" ", information)
}

// Writes the line of an answer, and gives back the position behind it.
// Stays: bytes written over a lent row, no `Display`. The contract says which bytes they are, where they end, and that there are at
// most 32; `LineLeaves` and `Writes` of `talk` need that.
pub fn write_answer(out: &mut [u8], at: usize, a: Answer) -> usize
    requires { at + 32 ≤ length out.old }
    ensures { (out.new ≡ laid out.old at (answer_line a)) × (result ≡ at + length (answer_line a)) × (length (answer_line a) ≤ 32) }
{
    match a {
        Answer::BadState => write_word(out, at, b"BadState\n"),
        Answer::BadPool => write_word(out, at, b"BadPool\n"),
        Answer::BadSlot => write_word(out, at, b"BadSlot\n"),
        Answer::SlotBusy => write_word(out, at, b"SlotBusy\n"),
        Answer::SlotIdle => write_word(out, at, b"SlotIdle\n"),
        Answer::Damaged => write_word(out, at, b"Damaged\n"),
        Answer::BadPage => write_word(out, at, b"BadPage\n"),
        Answer::Waiting => write_word(out, at, b"Waiting\n"),
        Answer::Moved => write_word(out, at, b"Moved\n"),
        Answer::Found(information) => write_value(out, at, b"Found ", information),
        Answer::NotFound => write_word(out, at, b"NotFound\n"),
        Answer::Inserted => write_word(out, at, b"Inserted\n"),
        Answer::AlreadyThere(information) => write_value(out, at, b"AlreadyThere ", information),
        Answer::Deleted(information) => write_value(out, at, b"Deleted ", information),
        Answer::NoSuchKey => write_word(out, at, b"NoSuchKey\n"),
        Answer::NoRoom => write_word(out, at, b"NoRoom\n"),
        Answer::Begun => write_word(out, at, b"Begun\n"),
        Answer::Made => write_word(out, at, b"Made\n"),
        Answer::Reported(_, _, _) => write_word(out, at, b"Reported\n"),
        Answer::Next(key, information) => write_lot(out, at, b"Next ", key, information),
        Answer::None => write_word(out, at, b"None\n"),
        Answer::Regraded(information) => write_value(out, at, b"Regraded ", information),
        Answer::Opened => write_word(out, at, b"Opened\n"),
        Answer::BadPageInPool(page) => write_value(out, at, b"BadPageInPool ", page),
        Answer::BadTree => write_word(out, at, b"BadTree\n"),
        Answer::BadKey => write_word(out, at, b"BadKey\n"),
    }
}

pub fn write_bad_line(out: &mut [u8], at: usize) -> usize
    requires { at + 32 ≤ length out.old }
    ensures { (out.new ≡ laid out.old at bad_line) × (result ≡ at + length bad_line) }
{
    write_word(out, at, b"BadLine\n")
}

pub fn write_too_long(out: &mut [u8], at: usize) -> usize
    requires { at + 32 ≤ length out.old }
    ensures { (out.new ≡ laid out.old at too_long) × (result ≡ at + length too_long) }
{
    write_word(out, at, b"TooLong\n")
}
