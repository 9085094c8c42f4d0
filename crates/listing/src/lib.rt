// The list: the listed bits are kept as rows first, a head and a word for each node instance that has one; the records are written from the rows, and only where there is room for all.
#![tactic(auto, unfolding(walk::specs::TableGraph::table_size))]

ghost use Rattle.std.specs.Prelude.{◌≡◌, true, cond, [], ◌∷◌, ◌++◌, ℕ, ◌+◌, ◌*◌, ◌<◌, ◌≤◌, eqb, length, get_or, take, drop};
ghost use Rattle.limits.specs.Limits.{library_limits, board_node_instances};
ghost use Rattle.numbers.specs.Bits.{bit_of};
ghost use Rattle.numbers.specs.NextBit.{with_bit};
ghost use Rattle.graph.specs.Chains.{listable};
ghost use Rattle.walk.specs.TableGraph.{table_size, table_graph};
ghost use Rattle.listing.specs.Rows.{is_done, listed_word, row_word, set_to, head_of, head_record, word_records, row, rows_of, first_rows, kept_count, kept_records, RowsKept, Wrote, listing_values, listing_for, table_links, table_records, list_after};

use format::{Kind, Refusal};
use tables::entry;
use walk::TableGraph;

// Whether the instance i is done. One that the table has no mark for is not.
#[tactic(auto, using(crate::proofs::RowsLaws::done_none), unfolding(crate::specs::Rows::is_done))]
fn is_done(marks: &[u8], i: usize) -> bool
    ensures { result ≡ is_done marks.now i }
{
    i < marks.len() && marks[i] == 2
}

// Whether the active bit b of the instance i has no child, or one that shows nothing. A child shows nothing exactly where the word of its active bits is 0.
#[tactic(auto, using(crate::proofs::RowsLaws::listable_childless, crate::proofs::RowsLaws::listable_child), unfolding(walk::specs::TableGraph::table_size))]
fn listable(graph: &TableGraph, i: usize, b: u8) -> bool
    requires { (i < graph.now.size) × (b < 64) × (bit_of 64 (get_or graph.now.active.now i 0) b ≡ true) }
    ensures { result ≡ listable (table_graph graph.now.active.now graph.now.children.now) i b }
{
    let c = graph.child(i * 64 + b as usize);
    graph.size <= c || graph.active[c] == 0
}

// A word with the active bit b of the instance i, if that is listable; otherwise as it is.
fn keep_bit(graph: &TableGraph, i: usize, b: u8, word: u64) -> u64
    requires { (i < graph.now.size) × (b < 64) × (bit_of 64 (get_or graph.now.active.now i 0) b ≡ true) }
    ensures { result ≡ cond (listable (table_graph graph.now.active.now graph.now.children.now) i b) (with_bit 64 b word) word }
{
    if listable(graph, i, b) {
        numbers::with_bit(word, b)
    } else {
        word
    }
}

// The word of the listable bits of the instance i. It looks at each of its active bits once, and at no other.
fn keep_bits(graph: &TableGraph, i: usize) -> u64
    requires { i < graph.now.size }
    ensures { result ≡ listed_word (table_graph graph.now.active.now graph.now.children.now) i }
{
    let mut word = 0;
    let mut unseen = graph.active[i];
    while unseen != 0 {
        word = keep_bit(graph, i, numbers::next_bit(unseen), word);
        unseen = numbers::without_next(unseen);
    }
    word
}

// The word of the bits that the instance i has in the list: none unless it is done.
#[tactic(auto, unfolding(crate::specs::Rows::row_word))]
fn row_word(graph: &TableGraph, marks: &[u8], i: usize) -> u64
    requires { i < graph.now.size }
    ensures { result ≡ row_word (table_graph graph.now.active.now graph.now.children.now) marks.now i }
{
    if is_done(marks, i) {
        keep_bits(graph, i)
    } else {
        0
    }
}

// The head of the rows of a slot: the model, the slot and a node instance's key.
#[tactic(auto, unfolding(crate::specs::Rows::head_of))]
fn head_of(model: u64, slot: u8, key: u64) -> u64
    ensures { result ≡ head_of model slot key }
{
    model % 0x1_0000_0000 * 0x1_0000_0000 + slot as u64 * 0x100_0000 + key % 0x100_0000
}

// A row after the first k of two tables, and how many there then are; no row for a word without a bit.
#[tactic(auto, using(crate::proofs::KeptLaws::row_passed, crate::proofs::KeptLaws::row_stored))]
fn keep_row(heads: &mut [u64], words: &mut [u64], k: usize, head: u64, word: u64) -> usize
    requires { (k < length heads.old) × (k < length words.old) }
    ensures words_after { first_rows result heads.new words.new
        ≡ first_rows k heads.old words.old ++ cond (eqb word 0) [] (row head word ∷ []) }
    ensures upper_bound { result ≤ k + 1 }
{
    if word == 0 {
        return k;
    }
    heads[k] = head;
    words[k] = word;
    k + 1
}

// The rows of a graph's node instances, at the front of two tables, and how many they are. It looks at each instance once.
fn keep_rows(
    heads: &mut [u64],
    words: &mut [u64],
    model: u64,
    slot: u8,
    keys: &[u64],
    marks: &[u8],
    graph: &TableGraph,
) -> usize
    requires { (graph.now.size ≤ length heads.old) × (graph.now.size ≤ length words.old) }
    ensures rows_kept { RowsKept model slot keys.now (table_graph graph.now.active.now graph.now.children.now) marks.now graph.now.size (first_rows result heads.new words.new) }
    ensures upper_bound { result ≤ graph.now.size }
{
    let mut k = 0;
    for i in 0..graph.size {
        let head = head_of(model, slot, entry(keys, i));
        k = keep_row(heads, words, k, head, row_word(graph, marks, i));
    }
    k
}

// The rows of the done instances that have a listed bit, at the front of two tables that have a place for each instance, and how many they are. What the tables hold behind them is free, and so are the rows where a table has fewer places.
pub fn keep_list(
    heads: &mut [u64],
    words: &mut [u64],
    model: u64,
    slot: u8,
    keys: &[u64],
    marks: &[u8],
    active: &[u64],
    child: &[u16],
) -> usize
    ensures rows { table_size active.now ≤ length heads.old → table_size active.now ≤ length words.old
        → (kept_count (first_rows result heads.new words.new) ≡ length (table_links marks.now active.now child.now))
        × ((attention : ℕ) → kept_records attention (first_rows result heads.new words.new)
        ≡ table_records model slot attention keys.now marks.now active.now child.now) }
    ensures few { (result ≤ library_limits.node_instances) × (result ≤ length heads.old) × (result ≤ length words.old) }
{
    let graph = TableGraph::new(active, child);
    if heads.len() < graph.size || words.len() < graph.size {
        return 0;
    }
    keep_rows(heads, words, model, slot, keys, marks, &graph)
}

// The record of a bit at a place of the list.
// Kept: byte after byte, since an array of `to_be_bytes` and `copy_from_slice` took 1.8 times as long.
fn put_record(list: &mut [u8], at: usize, attention: u8, head: u64, bit: u8)
    requires { at + 16 ≤ length list.old }
    ensures { list.new ≡ take at list.old ++ (head_record attention head bit ++ drop (at + 16) list.old) }
{
    list[at] = (head / 0x100_0000_0000_0000) as u8;
    list[at + 1] = (head / 0x1_0000_0000_0000 % 256) as u8;
    list[at + 2] = (head / 0x100_0000_0000 % 256) as u8;
    list[at + 3] = (head / 0x1_0000_0000 % 256) as u8;
    list[at + 4] = attention;
    list[at + 5] = bit;
    list[at + 6] = (head / 0x1_0000 % 256) as u8;
    list[at + 7] = (head / 256 % 256) as u8;
    list[at + 8] = (head % 256) as u8;
    list[at + 9] = (head / 0x100_0000 % 256) as u8;
    list[at + 10] = 0;
    list[at + 11] = 0;
    list[at + 12] = 0;
    list[at + 13] = 0;
    list[at + 14] = 0;
    list[at + 15] = 0;
}

// The records of the bits of a word: the place after them. It looks at each of them once, and at no other.
fn put_bits(list: &mut [u8], at: usize, attention: u8, head: u64, word: u64) -> usize
    requires { at + 16 * length (set_to word 64) ≤ length list.old }
    ensures { Wrote list.old list.new at result (word_records attention head word) }
{
    let mut place = at;
    let mut unwritten = word;
    while unwritten != 0 {
        put_record(list, place, attention, head, numbers::next_bit(unwritten));
        place += 16;
        unwritten = numbers::without_next(unwritten);
    }
    place
}

// The rows of two tables: as many as the shorter one has places.
// Kept: two tables and not one of rows, since a caller lends them and has other uses for each.
#[derive(Clone, Copy)]
struct Rows<'a> {
    heads: &'a [u64],
    words: &'a [u64],
    ghost same_length: { length heads.now ≡ length words.now },
}

impl<'a> Rows<'a> {
    fn new(heads: &'a [u64], words: &'a [u64]) -> Rows<'a>
        ensures rows { rows_of result.heads.now result.words.now ≡ rows_of heads.now words.now }
        ensures few { length result.heads.now ≤ length heads.now }
    {
        let n = heads.len().min(words.len());
        Rows {
            heads: &heads[..n],
            words: &words[..n],
        }
    }

    // How many bits the rows have. It looks at each row once.
    fn count_bits(&self) -> usize
        requires { length self.now.heads.now ≤ board_node_instances }
        ensures { result ≡ kept_count (rows_of self.now.heads.now self.now.words.now) }
    {
        let mut count = 0;
        for word in self.words {
            count += word.count_ones() as usize;
        }
        count
    }

    // The records of the rows from the front of the list on: the place after them. It looks at each row once.
    fn put(&self, list: &mut [u8], attention: u8) -> usize
        requires { 16 * kept_count (rows_of self.now.heads.now self.now.words.now) ≤ length list.old }
        ensures { Wrote list.old list.new 0 result (kept_records attention (rows_of self.now.heads.now self.now.words.now)) }
    {
        let mut place = 0;
        for (head, word) in self.heads.iter().zip(self.words) {
            place = put_bits(list, place, attention, *head, *word);
        }
        place
    }
}

// The records of some rows, where there is room for all of them, and how many they are; otherwise refusal 19 with how many places are needed, and the list keeps its bytes. With more heads than a board has node instances the answer is free.
pub fn write_list(
    list: &mut [u8],
    attention: u8,
    heads: &[u64],
    words: &[u64],
) -> Result<usize, Refusal>
    ensures { length heads.now ≤ board_node_instances
        → (listing_values result ≡ listing_for (kept_count (rows_of heads.now words.now)) (length list.old))
        × (list.new ≡ list_after attention (rows_of heads.now words.now) list.old) }
{
    let rows = Rows::new(heads, words);
    if limits::BOARD_NODE_INSTANCES < rows.heads.len() {
        return Err(Refusal {
            kind: Kind::NoRoom,
            place: 0,
        });
    }
    let records = rows.count_bits();
    if list.len() / 16 < records {
        return Err(Refusal {
            kind: Kind::NoRoom,
            place: records,
        });
    }
    rows.put(list, attention);
    Ok(records)
}
