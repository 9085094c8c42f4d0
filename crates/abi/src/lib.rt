// The calls of the library for C and Rust. Each takes any input. All but the report return the number of their refusal, 0 where there is none,
// and put their whole answer to a lent list of numbers; a list that is too short for it keeps what it has.
#![tactic(auto)]

ghost use Rattle.std.specs.Prelude.{◌≤◌, [], ◌∷◌, ◌≡◌};
ghost use Rattle.limits.specs.Limits.{library_limits};
ghost use Rattle.format.specs.Verdict.{check, address};
ghost use Rattle.isolation.specs.Outcome.{isolate};
ghost use Rattle.board.specs.Board.{board_of, board};
ghost use Rattle.writer.specs.Writing.{write, read};
ghost use Rattle.report.specs.Text.{Put};
ghost use Rattle.report.specs.Report.{report};
ghost use Rattle.abi.specs.Values.{answered, check_list, address_list, isolate_list, board_list, output_list};

use board::board;
use format::number;
use isolation::{Isolation, isolate};
use reader::address::address;
use reader::check;
use report::report;

// Three numbers at the front of a list that has room for them.
fn put_three(out: &mut [u64], a: u64, b: u64, c: u64)
    ensures { out.new ≡ answered (a ∷ b ∷ c ∷ []) out.old }
{
    if out.len() < 3 {
        return;
    }
    out[0] = a;
    out[1] = b;
    out[2] = c;
}

// Four numbers at the front of a list that has room for them.
fn put_four(out: &mut [u64], a: u64, b: u64, c: u64, d: u64)
    ensures { out.new ≡ answered (a ∷ b ∷ c ∷ d ∷ []) out.old }
{
    if out.len() < 4 {
        return;
    }
    out[0] = a;
    out[1] = b;
    out[2] = c;
    out[3] = d;
}

// Five numbers at the front of a list that has room for them.
fn put_five(out: &mut [u64], a: u64, b: u64, c: u64, d: u64, e: u64)
    ensures { out.new ≡ answered (a ∷ b ∷ c ∷ d ∷ e ∷ []) out.old }
{
    if out.len() < 5 {
        return;
    }
    out[0] = a;
    out[1] = b;
    out[2] = c;
    out[3] = d;
    out[4] = e;
}

// Eight numbers at the front of a list that has room for them.
fn put_eight(out: &mut [u64], a: u64, b: u64, c: u64, d: u64, e: u64, f: u64, g: u64, h: u64)
    ensures { out.new ≡ answered (a ∷ b ∷ c ∷ d ∷ e ∷ f ∷ g ∷ h ∷ []) out.old }
{
    if out.len() < 8 {
        return;
    }
    out[0] = a;
    out[1] = b;
    out[2] = c;
    out[3] = d;
    out[4] = e;
    out[5] = f;
    out[6] = g;
    out[7] = h;
}

// The checker: number, place, model/level, and the counts of registers, register instances, nodes, node instances and roots.
#[unsafe(no_mangle)]
pub extern "C" fn lutemarble_check(file: &[u8], out: &mut [u64]) -> u64
    ensures number { result ≡ (check library_limits file.now).number }
    ensures answer { out.new ≡ answered (check_list (check library_limits file.now)) out.old }
{
    match check(file) {
        Ok(s) => {
            put_eight(
                out,
                0,
                0,
                s.model,
                s.registers as u64,
                s.register_instances as u64,
                s.nodes as u64,
                s.node_instances as u64,
                s.roots as u64,
            );
            0
        }
        Err(r) => {
            let n = number(r.kind) as u64;
            put_eight(out, n, r.place as u64, 0, 0, 0, 0, 0, 0);
            n
        }
    }
}

// The address query: number, place, offset and size.
#[unsafe(no_mangle)]
pub extern "C" fn lutemarble_address(file: &[u8], id: u64, instance: u8, out: &mut [u64]) -> u64
    ensures number { result ≡ (address library_limits file.now id instance).number }
    ensures answer { out.new ≡ answered (address_list (address library_limits file.now id instance)) out.old }
{
    match address(file, id, instance) {
        Ok(a) => {
            put_four(out, 0, 0, a.place as u64, a.size as u64);
            0
        }
        Err(r) => {
            let n = number(r.kind) as u64;
            put_four(out, n, r.place as u64, 0, 0);
            n
        }
    }
}

// Isolation: number, place, records and steps. The records go to the front of the lent list; a refusal leaves it as it is.
#[unsafe(no_mangle)]
pub extern "C" fn lutemarble_isolate(
    file: &[u8],
    attention: u8,
    words: &[u64],
    read: &[u8],
    list: &mut [u8],
    out: &mut [u64],
) -> u64
    ensures number { result ≡ (isolate library_limits file.now attention words.now read.now list.old).number }
    ensures list { list.new
        ≡ (isolate library_limits file.now attention words.now read.now list.old).list }
    ensures answer { out.new
        ≡ answered (isolate_list (isolate library_limits file.now attention words.now read.now list.old)) out.old }
{
    match isolate(file, attention, words, read, list) {
        Ok(i) => {
            put_four(out, 0, 0, i.records as u64, i.steps as u64);
            0
        }
        Err(r) => {
            let refused = number(r.kind) as u64;
            put_four(out, refused, r.place as u64, 0, 0);
            refused
        }
    }
}

// Isolation of a board: number, place, records and steps of all slots, and the slot that is refused. The records go to the front of the lent list, in slot order; a refusal leaves it as it is.
#[unsafe(no_mangle)]
pub extern "C" fn lutemarble_board(
    files: &[u8],
    file_lengths: &[u64],
    attention: u8,
    words: &[u64],
    word_lengths: &[u64],
    read: &[u8],
    read_lengths: &[u64],
    list: &mut [u8],
    out: &mut [u64],
) -> u64
    ensures number { result
        ≡ (board library_limits attention (board_of files.now file_lengths.now words.now word_lengths.now read.now read_lengths.now) list.old).answer.number }
    ensures list { list.new
        ≡ (board library_limits attention (board_of files.now file_lengths.now words.now word_lengths.now read.now read_lengths.now) list.old).answer.list }
    ensures answer { out.new
        ≡ answered (board_list (board library_limits attention (board_of files.now file_lengths.now words.now word_lengths.now read.now read_lengths.now) list.old)) out.old }
{
    let b = board(
        files,
        file_lengths,
        attention,
        words,
        word_lengths,
        read,
        read_lengths,
        list,
    );
    let slot = b.slot as u64;
    match b.answer {
        Ok(i) => {
            put_five(out, 0, 0, i.records as u64, i.steps as u64, slot);
            0
        }
        Err(r) => {
            let n = number(r.kind) as u64;
            put_five(out, n, r.place as u64, 0, 0, slot);
            n
        }
    }
}

// A chip data file from a model/level and records: number, place and the bytes written. The file goes to the front of the lent one; a refusal leaves it as it is.
#[unsafe(no_mangle)]
pub extern "C" fn lutemarble_write(
    model: u32,
    records: &[u8],
    file: &mut [u8],
    out: &mut [u64],
) -> u64
    ensures number { result ≡ (write library_limits model records.now file.old).number }
    ensures file { file.new ≡ (write library_limits model records.now file.old).output }
    ensures answer { out.new ≡ answered (output_list (write library_limits model records.now file.old)) out.old }
{
    match writer::write(model, records, file) {
        Ok(n) => {
            put_three(out, 0, 0, n as u64);
            0
        }
        Err(r) => {
            let n = number(r.kind) as u64;
            put_three(out, n, r.place as u64, 0);
            n
        }
    }
}

// The records of a chip data file: number, place and the bytes written. The records go to the front of the lent ones; a refusal leaves these as they are.
#[unsafe(no_mangle)]
pub extern "C" fn lutemarble_read(file: &[u8], records: &mut [u8], out: &mut [u64]) -> u64
    ensures number { result ≡ (read library_limits file.now records.old).number }
    ensures records { records.new ≡ (read library_limits file.now records.old).output }
    ensures answer { out.new ≡ answered (output_list (read library_limits file.now records.old)) out.old }
{
    match writer::read(file, records) {
        Ok(n) => {
            put_three(out, 0, 0, n as u64);
            0
        }
        Err(r) => {
            let n = number(r.kind) as u64;
            put_three(out, n, r.place as u64, 0);
            n
        }
    }
}

// The station's text for a file, an attention type and a readings file, at the front of a lent text; and how many bytes it has. A text that is too short holds its first part; one of 152,000 bytes has room for every answer.
#[unsafe(no_mangle)]
pub extern "C" fn lutemarble_report(
    file: &[u8],
    attention: u8,
    readings: &[u8],
    text: &mut [u8],
) -> usize
    ensures bounded { result ≤ 152000 }
    ensures text { Put text.old 0 (report file.now attention readings.now) text.new result }
{
    report(file, attention, readings, text)
}
