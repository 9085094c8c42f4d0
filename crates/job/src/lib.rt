// The station's job: reads chip.cdb and readings.bin in the working folder, takes the value of the first byte of standard input as the attention type (none: 0), and prints the list of active bits or a refusal.
#![tactic(auto)]

ghost use Rattle.std.specs.Io.{ReadsAtMost};
ghost use Rattle.std.specs.Prelude.{◌≤◌, IfOk, length};
ghost use Rattle.job.specs.Printed.{Printed};

use report::report;
use std::io::Read;
use std::rt::Files;
use std::{fs, io};

// Reads until the buffer is full or the input ends, and answers how many bytes stand at the buffer's front.
fn read_full<R: Read>(input: &mut R, bytes: &mut [u8]) -> io::Result<usize>
    ensures { ReadsAtMost result bytes.new }
{
    let mut done = 0;
    for _ in 0..bytes.len() {
        let got = input.read(&mut bytes[done..])?;
        done += got;
        if got == 0 || done == bytes.len() {
            break;
        }
    }
    Ok(done)
}

// The first bytes of a file, as many as there are places for them. The file is read past these, so that it is known to be readable.
fn read_file<'a, R: Files>(rt: &R, path: &str, bytes: &'a mut [u8]) -> io::Result<&'a [u8]>
    ensures { IfOk result (λ read. length read.now ≤ length bytes.old) }
{
    let mut file = fs::open(rt, path)?;
    let n = read_full(&mut file, bytes)?;
    file.read(&mut [0; 1])?;
    Ok(&bytes[..n])
}

// The value of the first byte of standard input; 0 where there is none.
fn wanted_type(rt: &impl Input) -> u8 {
    let mut first = [0u8; 1];
    match rt.reader().read(&mut first) {
        Ok(1) => first[0],
        _ => 0,
    }
}

// The whole job; the answer is how many bytes the text has, and whether they could be printed. A file that cannot be opened counts as empty, and so does one that cannot be read to its end. One byte more than a file may have is read of each, so that a longer file is seen to be longer.
// Kept: a pair and no Result, since the number is promised where the text cannot be printed too.
pub fn run(rt: &(impl Files + Input + Print)) -> (usize, io::Result<()>)
    ensures { Printed result.0 }
{
    let mut room = [0u8; limits::PROGRAM_BYTES + 1];
    let chip = read_file(rt, "chip.cdb", &mut room).unwrap_or(&[]);
    let mut room = [0u8; limits::PROGRAM_REGISTER_INSTANCES * 16 + 1];
    let readings = read_file(rt, "readings.bin", &mut room).unwrap_or(&[]);
    let mut text = [0u8; 152_000];
    let n = report(chip, wanted_type(rt), readings, &mut text);
    let printed = rt.write_all(&text[..n]);
    (n, printed)
}
