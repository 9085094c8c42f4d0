// The station's job without a chip data file: it counts as empty, so that its first field is not there, number 2.
#![tactic(auto)]

use std::io;

fn main(rt: HostRuntime) -> io::Result<()> {
    let (_, printed) = job::run(&rt);
    printed
}
