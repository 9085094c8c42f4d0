// Isolation of a board: up to sixteen chips, whose files and readings are lent end to end.
//
// The rows of each slot's listed bits are kept in two tables until it is known that no slot is refused; the tables go by the length of the files, so that a small board pays for small ones.
#![tactic(auto)]

ghost use Rattle.std.specs.Prelude.{◌+◌, ◌*◌, ◌≤◌, true, false, ◌≡◌, length};
ghost use Rattle.limits.specs.Limits.{library_limits, slots, board_node_instances};
ghost use Rattle.isolation.specs.Outcome.{is_exact};
ghost use Rattle.board.specs.Board.{board_of, board, board_outcome_of, total, slots_from, join, board_fits, slots_of, in_board_list};
ghost use Rattle.board.specs.Rows.{gathered_of, GatheredWithin, is_gathered};

use crate::sums::board_fits;
use format::{Kind, Refusal};
use isolation::answer::is_exact;
use isolation::written::write_rows;
use isolation::{Isolation, Kept, find};

mod sums;

// The answer of a board: as that of one chip, and the slot that is refused. With success and with 19 and 20 the slot is 0.
#[derive(Clone, Copy)]
pub struct Boarded {
    pub answer: Result<Isolation, Refusal>,
    pub slot: usize,
}

// The rows of some slots together; or the first refusal, with its slot.
#[derive(Clone, Copy)]
pub enum Gathered {
    Rows(Kept),
    Refused(Refusal, usize),
}

// What the slots from a number on find, as rows at the front of two lent tables, or the first refusal; 43 where the tables are too short. It calls itself for the slots behind the first.
fn find_slots(
    files: &[u8],
    file_lengths: &[u64],
    attention: u8,
    words: &[u64],
    word_lengths: &[u64],
    read: &[u8],
    read_lengths: &[u64],
    slot: usize,
    heads: &mut [u64],
    rows: &mut [u64],
) -> Gathered
    requires file_lengths_value { (total file_lengths.now ≡ length files.now) × (total word_lengths.now ≡ length words.now) × (total read_lengths.now ≡ length read.now) }
    requires word_lengths_len { (length word_lengths.now ≡ length file_lengths.now) × (length read_lengths.now ≡ length file_lengths.now) × (slot + length file_lengths.now ≤ slots) }
    ensures exact { is_gathered result ≡ true → gathered_of attention result heads.new rows.new
        ≡ join library_limits attention (slots_from slot file_lengths.now word_lengths.now read_lengths.now files.now words.now read.now) }
    ensures enough { length file_lengths.now * library_limits.node_instances ≤ length heads.old → length file_lengths.now * library_limits.node_instances ≤ length rows.old → is_gathered result ≡ true }
    ensures within { GatheredWithin result (length file_lengths.now) heads.old rows.old }
{
    if file_lengths.len() == 0 {
        return Gathered::Rows(Kept { rows: 0, steps: 0 });
    }
    let a = file_lengths[0] as usize;
    let b = word_lengths[0] as usize;
    let d = read_lengths[0] as usize;
    let s = find(
        &files[..a],
        slot as u8,
        attention,
        &words[..b],
        &read[..d],
        heads,
        rows,
    );
    match s {
        Ok(x) => {
            let n = x.rows;
            let t = find_slots(
                &files[a..],
                &file_lengths[1..],
                attention,
                &words[b..],
                &word_lengths[1..],
                &read[d..],
                &read_lengths[1..],
                slot + 1,
                &mut heads[n..],
                &mut rows[n..],
            );
            match t {
                Gathered::Rows(y) => Gathered::Rows(Kept {
                    rows: n + y.rows,
                    steps: x.steps + y.steps,
                }),
                Gathered::Refused(r, k) => Gathered::Refused(r, k),
            }
        }
        Err(r) => Gathered::Refused(r, slot),
    }
}

// How many rows the tables of a class have room for. The largest have one for each node instance that a board may have.
const SMALL_ROWS: usize = 128;

const MIDDLE_ROWS: usize = 2_048;

// How many classes are larger than that of a board whose files have so many bytes.
fn larger_tables(bytes: usize) -> usize
    ensures { result ≤ 2 }
{
    if bytes <= 2_048 {
        return 2;
    }
    if bytes <= 65_536 {
        return 1;
    }
    0
}

// The answer by rows in lent tables. Where these are too short, 43 at 0, and the list keeps its bytes.
fn board_in(
    files: &[u8],
    file_lengths: &[u64],
    attention: u8,
    words: &[u64],
    word_lengths: &[u64],
    read: &[u8],
    read_lengths: &[u64],
    list: &mut [u8],
    heads: &mut [u64],
    rows: &mut [u64],
) -> Boarded
    requires { board_fits (board_of files.now file_lengths.now words.now word_lengths.now read.now read_lengths.now) ≡ true }
    ensures exact { is_exact result.answer ≡ true → board_outcome_of result list.new
        ≡ in_board_list list.old (join library_limits attention (slots_of (board_of files.now file_lengths.now words.now word_lengths.now read.now read_lengths.now))) }
    ensures kept { is_exact result.answer ≡ false → list.new ≡ list.old }
    ensures enough { board_node_instances ≤ length heads.old → board_node_instances ≤ length rows.old → is_exact result.answer ≡ true }
{
    let g = find_slots(
        files,
        file_lengths,
        attention,
        words,
        word_lengths,
        read,
        read_lengths,
        0,
        heads,
        rows,
    );
    match g {
        Gathered::Rows(k) => {
            let n = k.rows;
            let answer = write_rows(list, attention, &heads[..n], &rows[..n], k.steps);
            Boarded { answer, slot: 0 }
        }
        Gathered::Refused(r, slot) => Boarded {
            answer: Err(r),
            slot,
        },
    }
}

// With the tables of the small class.
fn board_small(
    files: &[u8],
    file_lengths: &[u64],
    attention: u8,
    words: &[u64],
    word_lengths: &[u64],
    read: &[u8],
    read_lengths: &[u64],
    list: &mut [u8],
) -> Boarded
    requires { board_fits (board_of files.now file_lengths.now words.now word_lengths.now read.now read_lengths.now) ≡ true }
    ensures exact { is_exact result.answer ≡ true → board_outcome_of result list.new
        ≡ in_board_list list.old (join library_limits attention (slots_of (board_of files.now file_lengths.now words.now word_lengths.now read.now read_lengths.now))) }
    ensures kept { is_exact result.answer ≡ false → list.new ≡ list.old }
{
    let mut heads = [0u64; SMALL_ROWS];
    let mut rows = [0u64; SMALL_ROWS];
    board_in(
        files,
        file_lengths,
        attention,
        words,
        word_lengths,
        read,
        read_lengths,
        list,
        &mut heads,
        &mut rows,
    )
}

// With those of the middle one.
fn board_middle(
    files: &[u8],
    file_lengths: &[u64],
    attention: u8,
    words: &[u64],
    word_lengths: &[u64],
    read: &[u8],
    read_lengths: &[u64],
    list: &mut [u8],
) -> Boarded
    requires { board_fits (board_of files.now file_lengths.now words.now word_lengths.now read.now read_lengths.now) ≡ true }
    ensures exact { is_exact result.answer ≡ true → board_outcome_of result list.new
        ≡ in_board_list list.old (join library_limits attention (slots_of (board_of files.now file_lengths.now words.now word_lengths.now read.now read_lengths.now))) }
    ensures kept { is_exact result.answer ≡ false → list.new ≡ list.old }
{
    let mut heads = [0u64; MIDDLE_ROWS];
    let mut rows = [0u64; MIDDLE_ROWS];
    board_in(
        files,
        file_lengths,
        attention,
        words,
        word_lengths,
        read,
        read_lengths,
        list,
        &mut heads,
        &mut rows,
    )
}

// With those of the largest one, which never are too short.
fn board_full(
    files: &[u8],
    file_lengths: &[u64],
    attention: u8,
    words: &[u64],
    word_lengths: &[u64],
    read: &[u8],
    read_lengths: &[u64],
    list: &mut [u8],
) -> Boarded
    requires { board_fits (board_of files.now file_lengths.now words.now word_lengths.now read.now read_lengths.now) ≡ true }
    ensures { board_outcome_of result list.new
        ≡ in_board_list list.old (join library_limits attention (slots_of (board_of files.now file_lengths.now words.now word_lengths.now read.now read_lengths.now))) }
{
    let mut heads = [0u64; limits::BOARD_NODE_INSTANCES];
    let mut rows = [0u64; limits::BOARD_NODE_INSTANCES];
    board_in(
        files,
        file_lengths,
        attention,
        words,
        word_lengths,
        read,
        read_lengths,
        list,
        &mut heads,
        &mut rows,
    )
}

// With the tables of a class that so many larger ones follow, and of a larger one where they are too short. It calls itself, so that no more tables are on the stack than one class has.
fn board_with(
    files: &[u8],
    file_lengths: &[u64],
    attention: u8,
    words: &[u64],
    word_lengths: &[u64],
    read: &[u8],
    read_lengths: &[u64],
    list: &mut [u8],
    larger: usize,
) -> Boarded
    requires { board_fits (board_of files.now file_lengths.now words.now word_lengths.now read.now read_lengths.now) ≡ true }
    ensures { board_outcome_of result list.new
        ≡ in_board_list list.old (join library_limits attention (slots_of (board_of files.now file_lengths.now words.now word_lengths.now read.now read_lengths.now))) }
{
    if larger == 0 {
        return board_full(
            files,
            file_lengths,
            attention,
            words,
            word_lengths,
            read,
            read_lengths,
            list,
        );
    }
    if larger == 1 {
        let b = board_middle(
            files,
            file_lengths,
            attention,
            words,
            word_lengths,
            read,
            read_lengths,
            list,
        );
        let answer = b.answer;
        if is_exact(answer) {
            return b;
        }
        return board_with(
            files,
            file_lengths,
            attention,
            words,
            word_lengths,
            read,
            read_lengths,
            list,
            larger - 1,
        );
    }
    let b = board_small(
        files,
        file_lengths,
        attention,
        words,
        word_lengths,
        read,
        read_lengths,
        list,
    );
    let answer = b.answer;
    if is_exact(answer) {
        return b;
    }
    board_with(
        files,
        file_lengths,
        attention,
        words,
        word_lengths,
        read,
        read_lengths,
        list,
        larger - 1,
    )
}

// Isolation of a board: the records of all slots in the lent list, in slot order; how many they are, and the steps of all. Or a refusal with its slot, and the list keeps its bytes. Each list of lengths has an entry for each slot: the bytes of its file, its words and its read bytes. Each file is checked and isolated as by the call for one chip, and once more where the tables for the rows were too short; nothing is written before it is known that no slot is refused and that there is room for all.
pub fn board(
    files: &[u8],
    file_lengths: &[u64],
    attention: u8,
    words: &[u64],
    word_lengths: &[u64],
    read: &[u8],
    read_lengths: &[u64],
    list: &mut [u8],
) -> Boarded
    ensures { board_outcome_of result list.new
        ≡ board library_limits attention (board_of files.now file_lengths.now words.now word_lengths.now read.now read_lengths.now) list.old }
{
    if board_fits(files, file_lengths, words, word_lengths, read, read_lengths) {
        return board_with(
            files,
            file_lengths,
            attention,
            words,
            word_lengths,
            read,
            read_lengths,
            list,
            larger_tables(files.len()),
        );
    }
    Boarded {
        answer: Err(Refusal {
            kind: Kind::BoardUnfit,
            place: 0,
        }),
        slot: 0,
    }
}
