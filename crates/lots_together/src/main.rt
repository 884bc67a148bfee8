// A listed run of the little program: eight searches and one insertion, then two searches, two regradings and an insertion
// of one lot beside a Next; then updates by the second way among searches, then by the third. Those that only read do not wait for each other.
// Stays: what may not change: the program on an input and an output of its own, of which a crate has one each.
#![tactic(auto)]

use std::io;

fn main(rt: HostRuntime) -> io::Result<()> {
    talk::serve(&rt)
}
