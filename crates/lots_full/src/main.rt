// A listed run of the little program: lots are entered until there is no room, and all are deleted.
// Stays: what may not change: the program on an input and an output of its own, of which a crate has one each.
#![tactic(auto)]

use std::io;

fn main(rt: HostRuntime) -> io::Result<()> {
    talk::serve(&rt)
}
