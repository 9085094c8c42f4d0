// Walks a file of vectors, `vectors.bin`, which the reference makes: calls of the checker, the address query, isolation, the board call and the two calls of records, each with the answer that is expected. It calls the library on each, compares every value and every byte of the list or output, and prints how many cases there were of each outcome and how many differ.
#![tactic(auto)]

ghost use Rattle.std.specs.Prelude.{◌≡◌, length};
ghost use Rattle.std.specs.Io.{ReadsAtMost};

use crate::case::Case;
use crate::faults::{Malformed, Stop};
use crate::head::four;
use crate::tally::Tally;
use std::io::Read;
use std::{fs, io};

mod calls;
mod case;
mod faults;
mod head;
mod tally;

// A file of vectors has at most so many bytes.
const MOST_BYTES: usize = 1_700_000;

// What it begins with: its keyword, the place of the first case and the number of cases.
const START: usize = 16;

// The cases of a file, of which `files` is what stands before them: each that differs is named.
fn walk(rt: &impl Print, files: &[u8], cases: &[u8], count: u32) -> Result<Tally, Stop> {
    let mut tally = Tally::new();
    let mut rest = cases;
    for number in 1..=count {
        let (case, others) = match Case::first(rest, files) {
            Ok(found) => found,
            Err(why) => return Err(Stop::Malformed(Malformed::Case(number, why))),
        };
        if !case.is_met(&mut tally) {
            println!(rt; "case {number} differs")?;
            tally.count_difference();
        }
        rest = others;
    }
    if !rest.is_empty() {
        return Err(Stop::Malformed(Malformed::BytesAfter));
    }
    Ok(tally)
}

// What stands before the first case, the cases, and how many of them there are to be.
fn opened(data: &[u8]) -> Result<(&[u8], &[u8], u32), Malformed> {
    if MOST_BYTES < data.len() {
        return Err(Malformed::TooLong);
    }
    let Some(start) = data.first_chunk::<START>() else {
        return Err(Malformed::TooShort);
    };
    if !start.starts_with(b"LUTEVECT") {
        return Err(Malformed::WrongKeyword);
    }
    let first = four(start, 8) as usize;
    if first < START {
        return Err(Malformed::FirstInStart);
    }
    let Some((files, cases)) = data.split_at_checked(first) else {
        return Err(Malformed::FirstBeyondEnd);
    };
    Ok((files, cases, four(start, 12)))
}

// Goes through a file.
fn examine(rt: &impl Print, data: &[u8]) -> Result<(), Stop> {
    let (files, cases, count) = opened(data)?;
    let tally = walk(rt, files, cases, count)?;
    tally.print(rt)?;
    Ok(())
}

// Reads until the buffer is full or the input ends, and answers how many bytes stand at the buffer's front.
// Kept: the station's job has the same, and a crate of their own for one function would be no plainer.
fn read_full<R: Read>(input: &mut R, bytes: &mut [u8]) -> io::Result<usize>
    ensures { ReadsAtMost result bytes.new }
{
    let mut done = 0;
    for _ in 0..bytes.len() {
        let got = input.read(&mut bytes[done..])?;
        done += got;
        if got == 0 || done == bytes.len() {
            break;
        }
    }
    Ok(done)
}

// Reads the file into a lent buffer, and goes through it.
fn read_and_examine<R: Read>(rt: &impl Print, file: &mut R, data: &mut [u8]) -> Result<(), Stop> {
    let n = read_full(file, data)?;
    examine(rt, &data[..n])
}

// Room for one byte more than a file of vectors may have.
fn room() -> [u8; 1_700_001]
    ensures { 1700001 ≡ length result }
{
    [0; 1_700_001]
}

fn main(rt: HostRuntime) -> io::Result<()> {
    let Ok(mut file) = fs::open(&rt, "vectors.bin") else {
        let why = Malformed::Unopened;
        return println!(rt; "{why}");
    };
    let mut data = room();
    match read_and_examine(&rt, &mut file, &mut data) {
        Ok(()) => Ok(()),
        Err(Stop::Malformed(why)) => println!(rt; "{why}"),
        Err(Stop::Io(e)) => Err(e),
    }
}
