// The little program: answers each line of standard input by one.
#![tactic(auto)]

use std::io;

fn main(rt: HostRuntime) -> io::Result<()> {
    talk::serve(&rt)
}
