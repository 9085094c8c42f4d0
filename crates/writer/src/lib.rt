// Chip data files written from records, and read into them. Neither call writes to the output before it is known that it will not refuse.
#![tactic(auto)]

ghost use Rattle.std.specs.Prelude.{◌++◌, ◌≡◌, ◌≤◌, drop, length};
ghost use Rattle.limits.specs.Limits.{library_limits};
ghost use Rattle.format.specs.Parsed.{done};
ghost use Rattle.format.specs.Refusals.{number_of};
ghost use Rattle.writer.specs.Building.{checked_file};
ghost use Rattle.writer.specs.Writing.{answer_of, in_output, write, read};

use crate::classes::{is_exact, larger_buffers, write_with};
use format::{Kind, Refusal};
use reader::check;
use records::grammar::judge;
use unpacking::unpack;

mod classes;

// A refusal by 41: the output is too short for so many bytes.
fn too_short(needed: usize) -> Refusal
    ensures number { number_of result.kind ≡ 41 }
    ensures place { result.place ≡ needed }
{
    Refusal {
        kind: Kind::OutputTooShort,
        place: needed,
    }
}

// Some bytes at the front of an output that has room for them.
// Kept: byte after byte and no `copy_from_slice`, with which the archive for C would need `memmove` from outside.
fn copy(bytes: &[u8], out: &mut [u8])
    requires { length bytes.now ≤ length out.old }
    ensures { out.new ≡ bytes.now ++ drop (length bytes.now) out.old }
{
    for i in 0..bytes.len() {
        out[i] = bytes[i];
    }
}

// Some bytes in an output, and how many they are: 41 where it is too short.
fn put_output(bytes: &[u8], out: &mut [u8]) -> Result<usize, Refusal>
    ensures { answer_of result out.new ≡ in_output out.old (done bytes.now 0) }
{
    let n = bytes.len();
    if out.len() < n {
        return Err(too_short(n));
    }
    copy(bytes, out);
    Ok(n)
}

// A file in an output: the checker's refusals, then 41 where the output is too short.
fn put_checked(file: &[u8], out: &mut [u8]) -> Result<usize, Refusal>
    ensures { answer_of result out.new ≡ in_output out.old (checked_file library_limits file.now) }
{
    check(file)?;
    put_output(file, out)
}

// A chip data file from a model/level and records, at the front of an output, and how many bytes it has: 40, then the checker's refusals of the file, then 41 where the output is too short. With a refusal the output keeps its bytes. A file that is too long for the library is built nowhere.
pub fn write(model: u32, records: &[u8], out: &mut [u8]) -> Result<usize, Refusal>
    ensures { answer_of result out.new ≡ write library_limits model records.now out.old }
{
    judge(records)?;
    let w = write_with(model, records, out, larger_buffers(records.len()));
    if is_exact(w) {
        w
    } else {
        Err(Refusal {
            kind: Kind::FileTooLong,
            place: 0,
        })
    }
}

// The records of a chip data file, at the front of an output, and how many bytes they have: the checker's refusals, then 41 where the output is too short. With a refusal the output keeps its bytes.
pub fn read(file: &[u8], out: &mut [u8]) -> Result<usize, Refusal>
    ensures { answer_of result out.new ≡ read library_limits file.now out.old }
{
    check(file)?;
    let needed = unpack(file, out);
    if out.len() < needed {
        return Err(too_short(needed));
    }
    Ok(needed)
}
