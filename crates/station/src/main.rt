// The station's program.
#![tactic(auto)]

use std::io;

fn main(rt: HostRuntime) -> io::Result<()> {
    let (_, printed) = job::run(&rt);
    printed
}
