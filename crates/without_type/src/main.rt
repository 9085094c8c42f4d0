// The station's job without a byte on standard input: the type is 0, so that it is refused, number 15.
#![tactic(auto)]

use std::io;

fn main(rt: HostRuntime) -> io::Result<()> {
    let (_, printed) = job::run(&rt);
    printed
}
