// A listed run of the little program: a search overtaken by a split, a deletion that waits for a search, and a lot regraded between
// two searches of it.
// Stays: what may not change: the program on an input and an output of its own, of which a crate has one each.
#![tactic(auto)]

use std::io;

fn main(rt: HostRuntime) -> io::Result<()> {
    talk::serve(&rt)
}
