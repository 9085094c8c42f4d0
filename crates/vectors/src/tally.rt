// How many cases there were of each outcome: a count for each number from 0, success, to 41, of each kind of case; and how many cases differ.
use crate::head::{KINDS, Kind};
use std::io;

// How many numbers there are, with success.
const NUMBERS: usize = 42;

// The counts of each kind of case, in the order of the kinds, and how many cases differ.
#[derive(Drop)]
pub struct Tally {
    counts: [[u64; NUMBERS]; KINDS.len()],
    differences: u64,
}

// The two lines of a kind: how many cases there are, and each number that occurred with its count.
fn print_kind(rt: &impl Print, kind: Kind, counts: &[u64]) -> io::Result<()> {
    let cases = counts.iter().fold(0u64, |sum, n| sum.wrapping_add(*n));
    println!(rt; "{kind} {cases} cases")?;
    print!(rt; "{kind} by number")?;
    for (number, count) in counts.iter().enumerate() {
        if *count != 0 {
            print!(rt; " {number}:{count}")?;
        }
    }
    println!(rt)
}

impl Tally {
    pub fn new() -> Tally {
        Tally {
            counts: [[0; NUMBERS]; KINDS.len()],
            differences: 0,
        }
    }

    // One more case of a kind, with the number of its answer.
    pub fn count(&mut self, kind: Kind, number: u64) {
        if let Some(n) = self.counts[kind as usize].get_mut(number as usize) {
            *n = n.wrapping_add(1);
        }
    }

    // One more case that differs.
    pub fn count_difference(&mut self) {
        self.differences = self.differences.wrapping_add(1);
    }

    // The cases of each kind, how often each number occurred among them, and how many cases differ.
    pub fn print(&self, rt: &impl Print) -> io::Result<()> {
        for (kind, counts) in KINDS.iter().zip(&self.counts) {
            print_kind(rt, *kind, counts)?;
        }
        let differences = self.differences;
        println!(rt; "differences {differences}")
    }
}
