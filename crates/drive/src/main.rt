// Makes the calls that its input names, on any state and any words, and writes what each one left. docs/DRIVE.md has the
// lines. Input may be of any length; it is read in pieces, and what is asked in a piece is answered before the next is read.
#![tactic(auto)]

mod obeying;
mod serving;

use std::io;

fn main(rt: HostRuntime) -> io::Result<()> {
    serving::serve(&rt)
}
