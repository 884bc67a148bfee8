// What is listed by operation: its key, its information, and the number of its kind; and the operation of three numbers. The state's
// words and the library's calls have operations as these numbers.
ghost use Rattle.std.specs.Prelude.{◌≡◌};
ghost use Rattle.slots.specs.Operations.{way_of, key_of, information_of, kind_number, blank_tag, asked_by, is_second, is_third, first_way, held_lock};

use crate::{Lock, Op, Way};
use ground::BLANK_KEY;

// Kinds; 0 is none.
// Stays: the C interface: a state's words and the library's calls have an operation's kind as a number.
pub const SEARCHES: u32 = 1;

pub const INSERTS: u32 = 2;

pub const DELETES: u32 = 3;

pub const NEXTS: u32 = 4;

pub const REGRADES: u32 = 5;

// The same by the second way.
pub const INSERTS_SECOND: u32 = 6;

pub const DELETES_SECOND: u32 = 7;

pub const REGRADES_SECOND: u32 = 8;

// By the third way.
pub const INSERTS_THIRD: u32 = 9;

pub const DELETES_THIRD: u32 = 10;

pub const REGRADES_THIRD: u32 = 11;

pub const HIGHEST_KIND: u32 = REGRADES_THIRD;

// The key that an operation is about.
pub fn key_asked(op: Op) -> u32
    ensures { result ≡ key_of op }
{
    match op {
        Op::Search(x)
        | Op::Insert(x, _, _)
        | Op::Delete(x, _)
        | Op::Next(x)
        | Op::Regrade(x, _, _) => x,
    }
}

// Its information; where it has none, 0.
pub fn information_asked(op: Op) -> u32
    ensures { result ≡ information_of op }
{
    match op {
        Op::Insert(_, v, _) | Op::Regrade(_, v, _) => v,
        Op::Search(_) | Op::Delete(_, _) | Op::Next(_) => 0,
    }
}

pub fn kind_asked(op: Op) -> u32
    ensures { result ≡ kind_number op }
{
    match op {
        Op::Search(_) => SEARCHES,
        Op::Insert(_, _, Way::First) => INSERTS,
        Op::Delete(_, Way::First) => DELETES,
        Op::Next(_) => NEXTS,
        Op::Regrade(_, _, Way::First) => REGRADES,
        Op::Insert(_, _, Way::Second) => INSERTS_SECOND,
        Op::Delete(_, Way::Second) => DELETES_SECOND,
        Op::Regrade(_, _, Way::Second) => REGRADES_SECOND,
        Op::Insert(_, _, Way::Third) => INSERTS_THIRD,
        Op::Delete(_, Way::Third) => DELETES_THIRD,
        Op::Regrade(_, _, Way::Third) => REGRADES_THIRD,
    }
}

// Its key is that of a blank tag, and it is no Next.
#[tactic(auto, unfolding(crate::specs::Operations::blank_tag, ground::specs::Limits::blank_key))]
pub fn blank_tag(op: Op) -> bool
    ensures { result ≡ blank_tag op }
{
    !matches!(op, Op::Next(_)) && key_asked(op) == BLANK_KEY
}

// The way of an update.
fn way_of(op: Op) -> Option<Way>
    ensures { result ≡ way_of op }
{
    match op {
        Op::Insert(_, _, way) | Op::Delete(_, way) | Op::Regrade(_, _, way) => Some(way),
        Op::Search(_) | Op::Next(_) => None,
    }
}

// It goes down by the second way.
pub fn is_second(op: Op) -> bool
    ensures { result ≡ is_second op }
{
    way_of(op) == Some(Way::Second)
}

// It goes down by the third way.
pub fn is_third(op: Op) -> bool
    ensures { result ≡ is_third op }
{
    way_of(op) == Some(Way::Third)
}

// The same operation by the first way.
pub fn first_way(op: Op) -> Op
    ensures { result ≡ first_way op }
{
    match op {
        Op::Insert(x, v, _) => Op::Insert(x, v, Way::First),
        Op::Delete(x, _) => Op::Delete(x, Way::First),
        Op::Regrade(x, v, _) => Op::Regrade(x, v, Way::First),
        Op::Search(_) | Op::Next(_) => op,
    }
}

// The lock with which an operation goes down.
pub fn held_lock(op: Op) -> Lock
    ensures { result ≡ held_lock op }
{
    match way_of(op) {
        None => Lock::Rho,
        Some(Way::First) => Lock::Xi,
        Some(Way::Second) => Lock::UpdaterRho,
        Some(Way::Third) => Lock::Alpha,
    }
}

// The operation of these numbers, if the kind exists. Only insertions and regradings look at the information.
pub fn asked_by(kind: u32, key: u32, information: u32) -> Option<Op>
    ensures { result ≡ asked_by kind key information }
{
    match kind {
        SEARCHES => Some(Op::Search(key)),
        INSERTS => Some(Op::Insert(key, information, Way::First)),
        DELETES => Some(Op::Delete(key, Way::First)),
        NEXTS => Some(Op::Next(key)),
        REGRADES => Some(Op::Regrade(key, information, Way::First)),
        INSERTS_SECOND => Some(Op::Insert(key, information, Way::Second)),
        DELETES_SECOND => Some(Op::Delete(key, Way::Second)),
        REGRADES_SECOND => Some(Op::Regrade(key, information, Way::Second)),
        INSERTS_THIRD => Some(Op::Insert(key, information, Way::Third)),
        DELETES_THIRD => Some(Op::Delete(key, Way::Third)),
        REGRADES_THIRD => Some(Op::Regrade(key, information, Way::Third)),
        _ => None,
    }
}
