// The station's job without a readings file: it counts as empty, so that it does not fit the chip data file, number 17.
#![tactic(auto)]

use std::io;

fn main(rt: HostRuntime) -> io::Result<()> {
    let (_, printed) = job::run(&rt);
    printed
}
