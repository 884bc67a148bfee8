// An answer as numbers: the library tells them.
ghost use Rattle.std.specs.Prelude.{◌≡◌, ◌∷◌, [], ◌≤◌, length, get_or};
ghost use Rattle.slots.specs.Heard.{lock_number, numbers_of, listed};

use crate::{Answer, Lock};

// The number of an answer, how many values it has, and three values, 0 where it has none.
// Stays: the definition `numbers_of` lists all five, and a caller from C gets three values whatever their number.
#[derive(Clone, Copy)]
pub struct Heard {
    pub number: u32,
    pub count: u32,
    pub values: [u32; 3],
}

impl Heard {
    // A number with these values.
    fn new(number: u32, values: &[u32]) -> Heard
        requires { length values.now ≤ 3 }
        ensures { listed result ≡ number ∷ length values.now ∷ get_or values.now 0 0 ∷ get_or values.now 1 0 ∷ get_or values.now 2 0 ∷ [] }
    {
        let mut three = [0u32; 3];
        let count = values.len();
        three[..count].copy_from_slice(values);
        Heard {
            number,
            count: count as u32,
            values: three,
        }
    }
}

// The number of a kind: none, ρ, ξ, updater's ρ, α, from 0.
impl From<Lock> for u32 {
    ghost from_gives = { λ lock number. number ≡ lock_number lock };

    fn from(lock: Lock) -> u32 {
        lock as u32
    }
}

// The numbers of an answer.
impl From<Answer> for Heard {
    ghost from_gives = { λ answer heard. listed heard ≡ numbers_of answer };

    fn from(answer: Answer) -> Heard {
        match answer {
            Answer::BadState => Heard::new(1, &[]),
            Answer::BadPool => Heard::new(2, &[]),
            Answer::BadSlot => Heard::new(3, &[]),
            Answer::SlotBusy => Heard::new(4, &[]),
            Answer::SlotIdle => Heard::new(5, &[]),
            Answer::Damaged => Heard::new(6, &[]),
            Answer::BadPage => Heard::new(7, &[]),
            Answer::Waiting => Heard::new(32, &[]),
            Answer::Moved => Heard::new(33, &[]),
            Answer::Found(information) => Heard::new(34, &[information]),
            Answer::NotFound => Heard::new(35, &[]),
            Answer::Inserted => Heard::new(36, &[]),
            Answer::AlreadyThere(information) => Heard::new(37, &[information]),
            Answer::Deleted(information) => Heard::new(38, &[information]),
            Answer::NoSuchKey => Heard::new(39, &[]),
            Answer::NoRoom => Heard::new(40, &[]),
            Answer::Begun => Heard::new(41, &[]),
            Answer::Made => Heard::new(42, &[]),
            Answer::Reported(kind, holders, lowest) => Heard::new(
                43,
                &[u32::from(kind), holders, lowest],
            ),
            Answer::Next(key, information) => Heard::new(44, &[key, information]),
            Answer::None => Heard::new(45, &[]),
            Answer::Regraded(information) => Heard::new(46, &[information]),
            Answer::Opened => Heard::new(47, &[]),
            Answer::BadPageInPool(page) => Heard::new(9, &[page]),
            Answer::BadTree => Heard::new(10, &[]),
            Answer::BadKey => Heard::new(8, &[]),
        }
    }
}
