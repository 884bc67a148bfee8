// The streams: pieces of input, byte by byte, and what is gathered for output.
use crate::obeying::{Bench, bad_line};
use std::io::{self, Input, Print, Read};
use tape::reading::{Reading, Stand};
use tape::writing::Output;

// A piece of input has at most so many bytes.
const PIECE: usize = 65536;

// Reads a piece of input and answers all lines that end in it.
fn feed(
    piece: &[u8],
    line: &mut Reading,
    bench: &mut Bench,
    out: &mut Output<impl Print>,
) -> io::Result<()> {
    for b in piece {
        line.take(*b);
        match line.stand() {
            Stand::Good => bench.obey(line.letter(), line.numbers(), out)?,
            Stand::Bad => bad_line(out)?,
            _ => {}
        }
    }
    Ok(())
}

// Reads to the end of the input. A proved loop has to end, and nothing says that an input does: so the pieces are counted, up
// to a number that no run uses up.
pub fn serve(rt: &(impl Input + Print)) -> io::Result<()> {
    let mut line = Reading::new();
    let mut bench = Bench::new();
    let mut out = Output::new(rt);
    let mut from = rt.reader();
    let mut piece = [0u8; PIECE];
    for _ in 0..u64::MAX {
        let got = from.read(&mut piece)?;
        if got == 0 {
            break;
        }
        feed(&piece[..got], &mut line, &mut bench, &mut out)?;
        out.flush()?;
    }
    // a last line that is not ended is no line
    if !line.is_start() {
        bad_line(&mut out)?;
        out.flush()?;
    }
    Ok(())
}
