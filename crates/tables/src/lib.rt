// Tables of numbers: what a name is kept as, where it stands, and writing.
#![tactic(auto)]

ghost use Rattle.std.specs.Prelude.{◌≡◌, eqb, get_or, set};
ghost use Rattle.format.specs.Lookup.{position};
ghost use Rattle.tables.specs.Faults.{position_in};
ghost use Rattle.tables.specs.Tables.{key_of};

pub mod positions;

// What the name of a register instance or a node instance is kept as: its ID and its number in one.
#[tactic(auto, unfolding(crate::specs::Tables::key_of))]
pub fn key(id: u64, number: u8) -> u64
    ensures { result ≡ key_of id number }
{
    id % 0x1000000 * 256 + number as u64
}

// The position of the first such number in a table, or the table's length. It looks at each number once, up to that one.
pub fn position_of(table: &[u64], x: u64) -> usize
    ensures { result ≡ position (λ y. eqb y x) table.now }
{
    match table.iter().position(|y| *y == x) {
        Some(i) => i,
        None => table.len(),
    }
}

// The position of the register instance or node instance of a name among keys, or the number of keys.
#[tactic(auto, unfolding(crate::specs::Faults::position_in))]
pub fn name_position(keys: &[u64], id: u64, number: u8) -> usize
    ensures { result ≡ position_in keys.now id number }
{
    position_of(keys, key(id, number))
}

// An element at a place of a table; a table without the place keeps what it has.
fn put_at<T: Copy>(table: &mut [T], k: usize, x: T)
    ensures { table.new ≡ set table.old k x }
{
    if k < table.len() {
        table[k] = x;
    }
}

// A number at a place of a table; a table without the place keeps what it has.
pub fn put(table: &mut [u64], k: usize, x: u64)
    ensures { table.new ≡ set table.old k x }
{
    put_at(table, k, x);
}

// The number at a position of a table; 0 where the table has no such position.
pub fn entry(table: &[u64], k: usize) -> u64
    ensures { result ≡ get_or table.now k 0 }
{
    table.get(k).copied().unwrap_or(0)
}

// A kind at a place of a table of kinds; a table without the place keeps what it has.
pub fn put_kind(kinds: &mut [u8], k: usize, x: u8)
    ensures { kinds.new ≡ set kinds.old k x }
{
    put_at(kinds, k, x);
}

// The kind at a position of a table of kinds; 0 where the table has no such position.
pub fn kind_at(kinds: &[u8], k: usize) -> u64
    ensures { result ≡ get_or kinds.now k 0 }
{
    u64::from(kinds.get(k).copied().unwrap_or(0))
}
