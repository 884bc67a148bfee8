// The streams. No contract can say what is read or written, so that nothing else is done here.
ghost use Rattle.std.specs.Prelude.{◌≤◌, length, IfOk};

use crate::answering::{MOST, ROOM, answer};
use std::io::{self, Input, Print, Read};

// Reads until the room is used up or the input ends, and gives back how many bytes came.
// Stays: the library's `read_exact` refuses an input that ends early, and its `read_to_end` needs a heap.
fn read_full(from: &mut impl Read, room: &mut [u8]) -> io::Result<usize>
    ensures { IfOk result (λ got. got ≤ length room.new) }
{
    let mut got = 0;
    while got < room.len() {
        let more = from.read(&mut room[got..])?;
        if more == 0 {
            return Ok(got);
        }
        got += more;
    }
    Ok(got)
}

// Reads the input, one byte more than may be answered, and writes the answers.
#[tactic(auto, using(crate::proofs::Whole::written_within))]
pub fn serve(rt: &(impl Input + Print)) -> io::Result<()> {
    let mut input = [0u8; MOST + 1];
    let mut from = rt.reader();
    let got = read_full(&mut from, &mut input)?;
    let mut out = [0u8; ROOM];
    let end = answer(&input[..got], &mut out);
    rt.write_all(&out[..end])
}
