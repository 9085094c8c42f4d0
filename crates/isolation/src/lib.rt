// Isolation: which error bits are active, from a chip data file and register readings.
#![tactic(auto)]

ghost use Rattle.std.specs.Prelude.{◌≤◌, true, ◌≡◌, length};
ghost use Rattle.limits.specs.Limits.{library_limits};
ghost use Rattle.isolation.specs.Outcome.{outcome_of, find, isolate};
ghost use Rattle.isolation.specs.Rows.{found_of, RowsWithin, is_found};

use crate::classes::{find_with, isolate_with};
use format::Refusal;
use limits::classes::larger_classes;

mod active;
pub mod answer;
mod classes;
mod reach;
pub mod written;

// How many records were written, and how many node instances were reached.
#[derive(Clone, Copy)]
pub struct Isolation {
    pub records: usize,
    pub steps: usize,
}

// A word of active bits, and the place of the first reading without a value that its rule has; 0 where it has none.
#[derive(Clone, Copy)]
pub struct Activity {
    pub word: u64,
    pub unread: usize,
}

// Rows of listed bits at the front of two tables, the heads in one and the words in the other: how many, and how many node instances were reached.
#[derive(Clone, Copy)]
pub struct Kept {
    pub rows: usize,
    pub steps: usize,
}

// Isolation: the records of the active bits that are reached from the wanted root and have no child, or a child that shows nothing, in the lent list; how many they are, and how many node instances were reached. Or a refusal, and the list keeps its bytes. The words and the read bytes stand in the register instances' file order. It takes the tables that most files of such a length fit, and larger ones where they are too short.
pub fn isolate(
    file: &[u8],
    attention: u8,
    words: &[u64],
    read: &[u8],
    list: &mut [u8],
) -> Result<Isolation, Refusal>
    ensures { outcome_of result list.new
        ≡ isolate library_limits file.now attention words.now read.now list.old }
{
    isolate_with(
        file,
        attention,
        words,
        read,
        list,
        larger_classes(file.len()),
    )
}

// What isolation finds in the file of a slot, as rows at the front of two lent tables; or a refusal. Tables with a place for each of 1,024 node instances are long enough for every file; shorter ones may be too short for the tables that a file of its length gets, and then the answer is 43. For which files it is, and what else the tables hold after the call, is free.
pub fn find(
    file: &[u8],
    slot: u8,
    attention: u8,
    words: &[u64],
    read: &[u8],
    heads: &mut [u64],
    rows: &mut [u64],
) -> Result<Kept, Refusal>
    ensures exact { is_found result ≡ true → found_of attention result heads.new rows.new ≡ find library_limits slot file.now attention words.now read.now }
    ensures enough { library_limits.node_instances ≤ length heads.old → library_limits.node_instances ≤ length rows.old → is_found result ≡ true }
    ensures within { RowsWithin result heads.old rows.old }
{
    find_with(
        file,
        slot,
        attention,
        words,
        read,
        heads,
        rows,
        larger_classes(file.len()),
    )
}
