// The buffers in which a file is built, by its size: a small file pays for a small one. The largest has room for every file of the library.
ghost use Rattle.std.specs.Prelude.{◌≤◌, ◌<◌, ◌^◌, ◌≡◌, length};
ghost use Rattle.limits.specs.Limits.{library_limits};
ghost use Rattle.records.specs.Record.{records_in};
ghost use Rattle.packing.specs.Packing.{file_of};
ghost use Rattle.writer.specs.Building.{built_in, is_exact};
ghost use Rattle.writer.specs.Writing.{answer_of};

use crate::put_checked;
use format::{Kind, Refusal, number};
use limits::classes::{MIDDLE_BYTES, SMALL_BYTES};
use limits::{BYTES, PROGRAM_BYTES};
use packing::pack_file;

// Whether an answer is not that the buffer was too short.
#[tactic(auto, unfolding(crate::specs::Building::is_exact))]
pub fn is_exact(r: Result<usize, Refusal>) -> bool
    ensures { result ≡ is_exact r }
{
    match r {
        Ok(_) => true,
        Err(x) => number(x.kind) != 43,
    }
}

// The file is built in a lent buffer, checked there, and put to the output. Where the buffer is too short, 43 at 0, and the output keeps its bytes.
fn write_in(model: u32, records: &[u8], buffer: &mut [u8], out: &mut [u8]) -> Result<usize, Refusal>
    ensures { answer_of result out.new
        ≡ built_in library_limits (length buffer.old) (file_of model (records_in records.now)) out.old }
{
    let n = pack_file(model, records, buffer);
    if buffer.len() < n {
        return Err(Refusal {
            kind: Kind::TableTooShort,
            place: 0,
        });
    }
    put_checked(&buffer[..n], out)
}

// With a buffer of so many bytes.
fn write_sized<const N: usize>(model: u32, records: &[u8], out: &mut [u8]) -> Result<usize, Refusal>
    requires { N < 2 ^ 63 }
    ensures { answer_of result out.new ≡ built_in library_limits N (file_of model (records_in records.now)) out.old }
{
    let mut buffer = [0u8; N];
    write_in(model, records, &mut buffer, out)
}

// How many classes are larger than the one that is tried first, for records of so many bytes. Most elements have at most a quarter of their record's bytes in the file.
pub fn larger_buffers(bytes: usize) -> usize
    ensures { result ≤ 3 }
{
    let file = bytes / 4 + 64;
    if file <= SMALL_BYTES {
        3
    } else if file <= MIDDLE_BYTES {
        2
    } else if file <= PROGRAM_BYTES {
        1
    } else {
        0
    }
}

// With the buffer of a class, which so many are larger than; where it is too short, with the next larger.
// Kept: it calls itself with the next class, since a row of calls puts the buffers of all classes into one frame, and a small file would pay for them.
pub fn write_with(
    model: u32,
    records: &[u8],
    out: &mut [u8],
    larger: usize,
) -> Result<usize, Refusal>
    ensures { answer_of result out.new ≡ built_in library_limits library_limits.bytes (file_of model (records_in records.now)) out.old }
{
    let w = match larger {
        0 => return write_sized::<BYTES>(model, records, out),
        1 => write_sized::<PROGRAM_BYTES>(model, records, out),
        2 => write_sized::<MIDDLE_BYTES>(model, records, out),
        _ => write_sized::<SMALL_BYTES>(model, records, out),
    };
    if is_exact(w) {
        return w;
    }
    write_with(model, records, out, larger - 1)
}
