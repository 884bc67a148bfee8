// What a line means, from its front to its end.
ghost use Rattle.std.specs.Prelude.{true, ◌≡◌, ◌≤◌, max, length, [], MatchOption, unwrap_or};
ghost use Rattle.lines.specs.Meaning.{is_digit, front, no_number, number, alone, stepping, searching, deleting, asking_next, inserting, asking_regrade, asking_third, asking_second, asking, beginning, meaning};
ghost use Rattle.lines.specs.Ends.{line_end};
ghost use Rattle.lines.specs.Positions.{IsLot, Capped, Counted};

use crate::Command;
use slots::{Op, Way};

// "a number above 4,294,967,295, gives BadLine"
pub const LARGEST: u64 = 4294967295;

// The digits at the front: what they are worth, if that is at most LARGEST, and where they end.
#[derive(Clone, Copy)]
pub struct Digits {
    pub worth: u64,
    pub end: usize,
}

// The position of the first line feed at or behind `from`, or the length.
#[tactic(auto, using(crate::proofs::Ending::end_none, crate::proofs::Ending::end_here, crate::proofs::Ending::end_on))]
pub fn line_end(input: &[u8], from: usize) -> usize
    ensures { (result ≡ line_end input.now from) × (from ≤ result) × (result ≤ max from (length input.now)) }
{
    for at in from..input.len() {
        if input[at] == b'\n' {
            return at;
        }
    }
    from.max(input.len())
}

// One digit more. What is above LARGEST stays above it, whatever follows, and so never outgrows its type.
pub fn grown(worth: u64, digit: u8) -> u64
    requires { is_digit digit ≡ true }
    ensures { Capped worth digit result }
{
    if LARGEST < worth {
        return worth;
    }
    worth * 10 + (digit - b'0') as u64
}

// The digits at the front, as many as there are.
fn read_digits(bytes: &[u8]) -> Digits
    ensures { Counted bytes.now result.worth result.end }
{
    let mut worth = 0;
    for (end, b) in bytes.iter().enumerate() {
        if !b.is_ascii_digit() {
            return Digits { worth, end };
        }
        worth = grown(worth, *b);
    }
    Digits {
        worth,
        end: bytes.len(),
    }
}

// The number at the front, with the bytes behind it: at least one digit, and none above LARGEST.
#[tactic(auto, using(crate::proofs::NumberLaws::front_empty, crate::proofs::NumberLaws::front_large))]
fn read_number(bytes: &[u8]) -> Option<(u32, &[u8])>
    ensures { MatchOption result (front bytes.now ≡ no_number) (λ p. front bytes.now ≡ number p.0 p.1.now) }
{
    let read = read_digits(bytes);
    let value = read.worth;
    if read.end == 0 {
        return None;
    }
    if LARGEST < value {
        return None;
    }
    Some((value as u32, &bytes[read.end..]))
}

// The number at the front, if nothing stands behind it.
fn read_last(bytes: &[u8]) -> Option<u32>
    ensures { MatchOption result (alone (front bytes.now) ≡ no_number) (λ n. alone (front bytes.now) ≡ number n []) }
{
    let (value, rest) = read_number(bytes)?;
    if rest.is_empty() { Some(value) } else { None }
}

// `t SLOT`
#[tactic(auto, unfolding(crate::specs::Meaning::stepping))]
fn read_step(bytes: &[u8]) -> Option<Command>
    ensures { unwrap_or result Command.Bad ≡ stepping bytes.now }
{
    let slot = read_last(bytes)?;
    Some(Command::Step(slot))
}

// `b SLOT s KEY`
#[tactic(auto, unfolding(crate::specs::Meaning::searching))]
fn read_search(bytes: &[u8], slot: u32) -> Option<Command>
    ensures { unwrap_or result Command.Bad ≡ searching slot bytes.now }
{
    let key = read_last(bytes)?;
    Some(Command::Begin(slot, Op::Search(key)))
}

// `b SLOT d KEY`, `b SLOT d2 KEY`, `b SLOT d3 KEY`
#[tactic(auto, unfolding(crate::specs::Meaning::deleting))]
fn read_delete(bytes: &[u8], slot: u32, way: Way) -> Option<Command>
    ensures { unwrap_or result Command.Bad ≡ deleting way slot bytes.now }
{
    let key = read_last(bytes)?;
    Some(Command::Begin(slot, Op::Delete(key, way)))
}

// `b SLOT n KEY`
#[tactic(auto, unfolding(crate::specs::Meaning::asking_next))]
fn read_next(bytes: &[u8], slot: u32) -> Option<Command>
    ensures { unwrap_or result Command.Bad ≡ asking_next slot bytes.now }
{
    let key = read_last(bytes)?;
    Some(Command::Begin(slot, Op::Next(key)))
}

// `KEY INFO`, if nothing stands behind it
#[tactic(auto, using(crate::proofs::WordLaws::begins), unfolding(crate::specs::Meaning::informing, crate::specs::Meaning::keying))]
fn read_lot(bytes: &[u8]) -> Option<(u32, u32)>
    ensures { IsLot bytes.now result }
{
    let (key, rest) = read_number(bytes)?;
    let information = read_last(rest.strip_prefix(b" ")?)?;
    Some((key, information))
}

// `b SLOT i KEY INFO`, `b SLOT i2 KEY INFO`, `b SLOT i3 KEY INFO`
#[tactic(auto, unfolding(crate::specs::Meaning::inserting))]
fn read_insert(bytes: &[u8], slot: u32, way: Way) -> Option<Command>
    ensures { unwrap_or result Command.Bad ≡ inserting way slot bytes.now }
{
    let (key, information) = read_lot(bytes)?;
    Some(Command::Begin(slot, Op::Insert(key, information, way)))
}

// `b SLOT g KEY INFO`, `b SLOT g2 KEY INFO`, `b SLOT g3 KEY INFO`
#[tactic(auto, unfolding(crate::specs::Meaning::asking_regrade))]
fn read_regrade(bytes: &[u8], slot: u32, way: Way) -> Option<Command>
    ensures { unwrap_or result Command.Bad ≡ asking_regrade way slot bytes.now }
{
    let (key, information) = read_lot(bytes)?;
    Some(Command::Begin(slot, Op::Regrade(key, information, way)))
}

// Behind the slot: an update by the third way.
#[tactic(auto, using(crate::proofs::WordLaws::begins), unfolding(crate::specs::Meaning::asking_third))]
fn read_third(bytes: &[u8], slot: u32) -> Option<Command>
    ensures { unwrap_or result Command.Bad ≡ asking_third slot bytes.now }
{
    if let Some(rest) = bytes.strip_prefix(b" i3 ") {
        return read_insert(rest, slot, Way::Third);
    }
    if let Some(rest) = bytes.strip_prefix(b" d3 ") {
        return read_delete(rest, slot, Way::Third);
    }
    let rest = bytes.strip_prefix(b" g3 ")?;
    read_regrade(rest, slot, Way::Third)
}

// Behind the slot: an update by the second way, or by the third.
#[tactic(auto, using(crate::proofs::WordLaws::begins), unfolding(crate::specs::Meaning::asking_second))]
fn read_second(bytes: &[u8], slot: u32) -> Option<Command>
    ensures { unwrap_or result Command.Bad ≡ asking_second slot bytes.now }
{
    if let Some(rest) = bytes.strip_prefix(b" i2 ") {
        return read_insert(rest, slot, Way::Second);
    }
    if let Some(rest) = bytes.strip_prefix(b" d2 ") {
        return read_delete(rest, slot, Way::Second);
    }
    if let Some(rest) = bytes.strip_prefix(b" g2 ") {
        return read_regrade(rest, slot, Way::Second);
    }
    read_third(bytes, slot)
}

// Behind the slot: what is asked.
#[tactic(auto, using(crate::proofs::WordLaws::begins), unfolding(crate::specs::Meaning::asking))]
fn read_asked(bytes: &[u8], slot: u32) -> Option<Command>
    ensures { unwrap_or result Command.Bad ≡ asking slot bytes.now }
{
    if let Some(rest) = bytes.strip_prefix(b" s ") {
        return read_search(rest, slot);
    }
    if let Some(rest) = bytes.strip_prefix(b" i ") {
        return read_insert(rest, slot, Way::First);
    }
    if let Some(rest) = bytes.strip_prefix(b" d ") {
        return read_delete(rest, slot, Way::First);
    }
    if let Some(rest) = bytes.strip_prefix(b" n ") {
        return read_next(rest, slot);
    }
    if let Some(rest) = bytes.strip_prefix(b" g ") {
        return read_regrade(rest, slot, Way::First);
    }
    read_second(bytes, slot)
}

// `b SLOT ..`
#[tactic(auto, unfolding(crate::specs::Meaning::beginning))]
fn read_begin(bytes: &[u8]) -> Option<Command>
    ensures { unwrap_or result Command.Bad ≡ beginning bytes.now }
{
    let (slot, rest) = read_number(bytes)?;
    read_asked(rest, slot)
}

// The command of a line, if it has one.
#[tactic(auto, using(crate::proofs::WordLaws::begins), unfolding(crate::specs::Meaning::meaning))]
fn read_command(line: &[u8]) -> Option<Command>
    ensures { unwrap_or result Command.Bad ≡ meaning line.now }
{
    if let Some(rest) = line.strip_prefix(b"b ") {
        return read_begin(rest);
    }
    let rest = line.strip_prefix(b"t ")?;
    read_step(rest)
}

// The meaning of a line, which is given without its line feed.
pub fn read_line(line: &[u8]) -> Command
    ensures { result ≡ meaning line.now }
{
    read_command(line).unwrap_or(Command::Bad)
}
