// The station's answer: isolation with a readings file, and its text.
//
// A function that puts text puts it to a lent list of bytes from a place on, leaves out what stands beyond the end of the list, and answers the place after it.
#![tactic(auto)]

ghost use Rattle.std.specs.Prelude.{◌+◌, ◌*◌, ◌≤◌, ◌<◌, ◌≡◌, [], ◌++◌, eqb, length, drop, set};
ghost use Rattle.isolation.specs.Outcome.{outcome_of};
ghost use Rattle.report.specs.Text.{Put, decimal, named, bit_line, record_line, record_lines, steps_line, refused_line, text_of};
ghost use Rattle.report.specs.Report.{report};

use crate::file::isolate_file;
use format::{Refusal, number};
use isolation::Isolation;
use limits::classes::larger_classes;

pub mod file;

// A byte.
fn put_byte(text: &mut [u8], at: usize, x: u8)
    ensures { text.new ≡ set text.old at x }
{
    if at < text.len() {
        text[at] = x;
    }
}

// Some bytes.
fn put(text: &mut [u8], at: usize, part: &[u8]) -> usize
    requires { at + length part.now ≤ 0x100000000 }
    ensures { Put text.old at part.now text.new result }
{
    let mut i = 0;
    while i < part.len() {
        put_byte(text, at + i, part[i]);
        i += 1;
    }
    at + part.len()
}

// A number in decimal digits.
fn put_number(text: &mut [u8], at: usize, n: u64) -> usize
    requires { at ≤ 0xf0000000 }
    ensures { Put text.old at (decimal n) text.new result }
{
    let mut digits = [0u8; 20];
    let k = io::decimal(n, &mut digits);
    put(text, at, &digits[..k])
}

// A word and a number.
fn put_named(text: &mut [u8], at: usize, word: &[u8], n: u64) -> usize
    requires { (at ≤ 0xe0000000) × (length word.now ≤ 8) }
    ensures put { Put text.old at (named word.now n) text.new result }
    ensures upper_bound { result ≤ at + 28 }
{
    let after = put(text, at, word);
    put_number(text, after, n)
}

// The line of an active bit. Its node ID is given by its two bytes.
fn put_line(
    text: &mut [u8],
    at: usize,
    attention: u8,
    high: u8,
    low: u8,
    number: u8,
    bit: u8,
) -> usize
    requires { at ≤ 0x10000000 }
    ensures { Put text.old at (bit_line attention (high * 256 + low) number bit) text.new result }
{
    let id = high as u64 * 256 + low as u64;
    let a = put_named(text, at, b"type ", attention as u64);
    let b = put_named(text, a, b" node ", id);
    let c = put_named(text, b, b" inst ", number as u64);
    let d = put_named(text, c, b" bit ", bit as u64);
    put(text, d, b"\n")
}

// The line of the record at a place of the list.
fn put_record(text: &mut [u8], at: usize, list: &[u8], from: usize) -> usize
    requires { (at ≤ 0x10000000) × (from + 16 ≤ length list.now) }
    ensures { Put text.old at (record_line (drop from list.now)) text.new result }
{
    let attention = list[from + 4];
    let bit = list[from + 5];
    let high = list[from + 6];
    let low = list[from + 7];
    let number = list[from + 8];
    put_line(text, at, attention, high, low, number, bit)
}

// The lines of the first records of a list.
fn put_records(text: &mut [u8], list: &[u8], records: usize) -> usize
    requires { (records ≤ 4096) × (records * 16 ≤ length list.now) }
    ensures { Put text.old 0 (record_lines records list.now) text.new result }
{
    let mut i = 0;
    let mut at = 0;
    while i < records {
        at = put_record(text, at, list, i * 16);
        i += 1;
    }
    at
}

// The text of a success.
fn put_done(text: &mut [u8], list: &[u8], records: usize, steps: usize) -> usize
    requires { (records ≤ 4096) × (records * 16 ≤ length list.now) }
    ensures put { Put text.old 0 (record_lines records list.now ++ steps_line steps) text.new result }
    ensures upper_bound { result ≤ 152000 }
{
    let at = put_records(text, list, records);
    let end = put_named(text, at, b"steps ", steps as u64);
    put(text, end, b"\n")
}

// The text of a refusal.
fn put_refused(text: &mut [u8], number: u8, place: usize) -> usize
    ensures put { Put text.old 0 (refused_line number place) text.new result }
    ensures upper_bound { result ≤ 152000 }
{
    let a = put_named(text, 0, b"refused ", number as u64);
    let b = put_named(text, a, b" place ", place as u64);
    put(text, b, b"\n")
}

// The text of an answer, by the list that its records stand in.
fn put_answer(text: &mut [u8], a: Result<Isolation, Refusal>, list: &[u8]) -> usize
    requires { ((outcome_of a list.now).records ≤ 4096) × ((outcome_of a list.now).records * 16 ≤ length list.now) }
    ensures put { Put text.old 0 (text_of (outcome_of a list.now)) text.new result }
    ensures upper_bound { result ≤ 152000 }
{
    match a {
        Ok(i) => put_done(text, list, i.records, i.steps),
        Err(r) => put_refused(text, number(r.kind), r.place),
    }
}

// Whether an answer is that the list has no room for the records.
fn lacks_room(a: Result<Isolation, Refusal>) -> bool
    ensures { result ≡ eqb (outcome_of a []).number 19 }
{
    match a {
        Ok(_) => false,
        Err(r) => number(r.kind) == 19,
    }
}

// The text by a list of 4,096 records.
fn report_full(file: &[u8], attention: u8, readings: &[u8], text: &mut [u8]) -> usize
    ensures put { Put text.old 0 (report file.now attention readings.now) text.new result }
    ensures upper_bound { result ≤ 152000 }
{
    let mut list = [0u8; 65536];
    let a = isolate_file(file, attention, readings, &mut list);
    put_answer(text, a, &list)
}

// The text by a list of 128 records; 0 where they are not enough, and the text keeps its bytes.
fn report_short(file: &[u8], attention: u8, readings: &[u8], text: &mut [u8]) -> usize
    ensures put { 0 < result → Put text.old 0 (report file.now attention readings.now) text.new result }
    ensures text_unchanged { result ≡ 0 → text.new ≡ text.old }
    ensures upper_bound { result ≤ 152000 }
{
    let mut list = [0u8; 2048];
    let a = isolate_file(file, attention, readings, &mut list);
    if lacks_room(a) {
        return 0;
    }
    put_answer(text, a, &list)
}

// The text by the short list for a file of the small class, and by the long one where it is not enough. It calls itself, so that a small file pays for the short one alone.
fn report_with(file: &[u8], attention: u8, readings: &[u8], text: &mut [u8], larger: usize) -> usize
    ensures put { Put text.old 0 (report file.now attention readings.now) text.new result }
    ensures upper_bound { result ≤ 152000 }
{
    if larger < 3 {
        return report_full(file, attention, readings, text);
    }
    let n = report_short(file, attention, readings, text);
    if 0 < n {
        return n;
    }
    report_with(file, attention, readings, text, larger - 1)
}

// The text that the station prints for a chip data file, an attention type and a readings file, at the front of a lent text; and how many bytes it has, which are at most 152,000. A text that is too short for it holds its first part. A small file's records are first written to a list of 128.
pub fn report(file: &[u8], attention: u8, readings: &[u8], text: &mut [u8]) -> usize
    ensures put { Put text.old 0 (report file.now attention readings.now) text.new result }
    ensures upper_bound { result ≤ 152000 }
{
    report_with(file, attention, readings, text, larger_classes(file.len()))
}
