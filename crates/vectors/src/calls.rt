// The answer of each call as a case has it: eight values, of which the first two are the number and the place of a refusal, or zeros.
use crate::head::Head;
use board::board;
use format::{Refusal, number};
use isolation::{Isolation, isolate};
use reader::address::address;
use reader::check;
use writer::{read, write};

pub type Answer = [u64; 8];

// A refusal.
fn refused(r: Refusal) -> Answer {
    [u64::from(number(r.kind)), r.place as u64, 0, 0, 0, 0, 0, 0]
}

// The checker's answer.
pub fn checked(file: &[u8]) -> Answer {
    match check(file) {
        Ok(s) => [
            0,
            0,
            s.model,
            s.registers as u64,
            s.register_instances as u64,
            s.nodes as u64,
            s.node_instances as u64,
            s.roots as u64,
        ],
        Err(r) => refused(r),
    }
}

// The address query's answer.
pub fn queried(file: &[u8], id: u64, instance: u8) -> Answer {
    match address(file, id, instance) {
        Ok(a) => [0, 0, a.place as u64, a.size as u64, 0, 0, 0, 0],
        Err(r) => refused(r),
    }
}

// The answer of isolation.
fn outcome(a: Result<Isolation, Refusal>) -> Answer {
    match a {
        Ok(i) => [0, 0, i.records as u64, i.steps as u64, 0, 0, 0, 0],
        Err(r) => refused(r),
    }
}

// The answer of isolation of one chip.
pub fn isolated(file: &[u8], attention: u8, words: &[u64], read: &[u8], list: &mut [u8]) -> Answer {
    outcome(isolate(file, attention, words, read, list))
}

// The answer of a board, by a case's numbers: words, then lengths of files, of words and of read bytes. How many lengths there are stands among the values and is no answer: those are the case's own.
pub fn boarded(
    head: &Head,
    files: &[u8],
    numbers: &[u64],
    read: &[u8],
    list: &mut [u8],
) -> Option<Answer> {
    let [a, b, c] = head.lengths();
    let (words, lengths) = numbers.split_at_checked(head.words as usize)?;
    let (file_lengths, lengths) = lengths.split_at_checked(a as usize)?;
    let (word_lengths, read_lengths) = lengths.split_at_checked(b as usize)?;
    let got = board(
        files,
        file_lengths,
        head.parameter,
        words,
        word_lengths,
        read,
        read_lengths,
        list,
    );
    let [number, place, records, steps, ..] = outcome(got.answer);
    let slot = got.slot as u64;
    Some([
        number,
        place,
        records,
        steps,
        slot,
        u64::from(a),
        u64::from(b),
        u64::from(c),
    ])
}

// The answer of a call that writes or reads records. Where the bytes stand that are to be written is among the values and is no answer: that is the case's own.
fn output(head: &Head, a: Result<usize, Refusal>) -> Answer {
    match a {
        Ok(n) => [0, 0, n as u64, u64::from(head.answer[3]), 0, 0, 0, 0],
        Err(r) => refused(r),
    }
}

// The writer's answer.
pub fn written(head: &Head, model: u32, records: &[u8], out: &mut [u8]) -> Answer {
    output(head, write(model, records, out))
}

// The answer of the call that reads the records of a file.
pub fn unpacked(head: &Head, file: &[u8], out: &mut [u8]) -> Answer {
    output(head, read(file, out))
}
