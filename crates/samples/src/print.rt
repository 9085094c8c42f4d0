// Calls on a sample, and what came out, in lines that begin with the sample's name.
ghost use Rattle.std.specs.Prelude.{◌≡◌, length};

use crate::build::first;
use format::{Refusal, Summary, number};
use isolation::isolate;
use numbers::{Width, number_at};
use reader::check;
use report::report;
use std::io;

// The bytes of a record of the list.
const RECORD: usize = 16;

// A refusal: its number and its place.
fn print_refusal(rt: &impl Print, sample: &str, r: Refusal) -> io::Result<()> {
    println!(rt; "{sample}: refused {} place {}", number(r.kind), r.place)
}

// What an accepted file holds.
fn print_summary(rt: &impl Print, sample: &str, s: Summary) -> io::Result<()> {
    print!(rt;
        "{sample}: accepted model {} registers {}",
        s.model, s.registers
    )?;
    print!(rt;
        " register instances {} nodes {}",
        s.register_instances, s.nodes
    )?;
    println!(rt; " node instances {} roots {}", s.node_instances, s.roots)
}

// The number of so many bytes at a place; 0 where they are not there.
fn wide(s: &[u8], at: usize, width: Width) -> u64 {
    match number_at(s, at, width) {
        Some((value, _)) => value,
        None => 0,
    }
}

// A record of the list: model/level (4 bytes), attention type, bit, node ID (2 bytes), instance, slot, six zeros.
fn print_record(rt: &impl Print, sample: &str, row: &[u8]) -> io::Result<()>
    requires { length row.now ≡ 16 }
{
    let model = wide(row, 0, Width::Four);
    let node = wide(row, 6, Width::Two);
    print!(rt; "{sample}: model {model} type {} node {node}", row[4])?;
    println!(rt; " inst {} bit {} slot {}", row[8], row[5], row[9])
}

// The checker's answer.
pub fn print_check(rt: &impl Print, sample: &str, file: &[u8]) -> io::Result<()> {
    match check(file) {
        Ok(s) => print_summary(rt, sample, s),
        Err(r) => print_refusal(rt, sample, r),
    }
}

// The answer of isolation, with a list of 32 records: the records, and the step count.
pub fn print_isolation(
    rt: &impl Print,
    sample: &str,
    file: &[u8],
    attention: u8,
    words: &[u64],
    read: &[u8],
) -> io::Result<()> {
    let mut list = [0u8; 32 * RECORD];
    match isolate(file, attention, words, read, &mut list) {
        Ok(i) => {
            for row in list.chunks_exact(RECORD).take(i.records) {
                print_record(rt, sample, row)?;
            }
            println!(rt; "{sample}: steps {}", i.steps)
        }
        Err(r) => print_refusal(rt, sample, r),
    }
}

// The station's text for type 3 and an empty readings file, where it has one line of at most 64 bytes.
pub fn print_station(rt: &impl Print, sample: &str, file: &[u8]) -> io::Result<()> {
    let mut text = [0u8; 64];
    let n = report(file, 3, &[], &mut text);
    print!(rt; "station, {sample}: ")?;
    rt.write_all(first(&text, n))
}
