// An index over a table: the positions of its numbers, spread over places by the numbers themselves, so that a number is found without looking at all.
// A place holds 0, or a position and one.
ghost use Rattle.std.specs.Prelude.{ℕ, suc, ◌<◌, List, ◌≡◌, eqb, length, get_or};
ghost use Rattle.format.specs.Lookup.{position};
ghost use Rattle.tables.specs.Faults.{position_in};
ghost use Rattle.tables.specs.Indexed.{start_of, FreeFrom, Indexed, IndexOf};

use crate::{key, position_of, put_at};

// The places of an index over as many register instances, and over as many node instances, as a file may have: twice that, and 32 more.
pub const REGISTER_PLACES: usize = limits::REGISTER_INSTANCES * 2 + 32;

pub const NODE_PLACES: usize = limits::NODE_INSTANCES * 2 + 32;

// The place of an index of so many places at which the search for a number begins.
#[tactic(auto, unfolding(crate::specs::Indexed::start_of))]
fn start_of(places: usize, x: u64) -> usize
    ensures { result ≡ start_of places x }
{
    if places < 33 {
        0
    } else {
        (x % 0x100000000 * 0x9E3779B1 / 0x10000) as usize & (places - 33)
    }
}

// The first place from one on that holds no position before p; where there is none, the number of places. It looks at each place once, up to that one.
fn free_from(index: &[u16], from: usize, p: usize) -> usize
    ensures { FreeFrom index.now from p result }
{
    for at in from..index.len() {
        let h = index[at] as usize;
        if h == 0 || p < h {
            return at;
        }
    }
    from.max(index.len())
}

// Enters the number x, which a table has at position p, after all before it.
fn enter(index: &mut [u16], x: u64, p: usize)
    ensures { (table : List ℕ)
        → p < 65535
        → get_or table p 0 ≡ x
        → Indexed index.old table p
        → Indexed index.new table (suc p) }
{
    let at = free_from(index, start_of(index.len(), x), p);
    put_at(index, at, (p % 0xFFFF + 1) as u16);
}

// Enters the numbers of a table from position `from` on, after those before it. It looks at each of them once.
pub fn enter_from(table: &[u64], index: &mut [u16], from: usize)
    ensures { length table.now < 65536
        → Indexed index.old table.now from
        → IndexOf index.new table.now }
{
    for i in from..table.len() {
        enter(index, table[i], i);
    }
}

// Enters all numbers of a table.
pub fn enter_all(table: &[u64], index: &mut [u16])
    ensures { length table.now < 65536 → IndexOf index.new table.now }
{
    enter_from(table, index, 0);
}

// The position of the first such number in a table that an index is over, or the table's length. It looks at the places from where the number would be entered up to it, and
// at the whole table only where these places go on to the index's end.
pub fn find(index: &[u16], table: &[u64], x: u64) -> usize
    ensures { IndexOf index.now table.now
        → result ≡ position (λ y. eqb y x) table.now }
{
    for at in start_of(index.len(), x)..index.len() {
        let h = index[at] as usize;
        if h == 0 || table.len() < h {
            return table.len();
        }
        if table[h - 1] == x {
            return h - 1;
        }
    }
    position_of(table, x)
}

// The position of the register instance or node instance of a name among keys that an index is over, or the number of keys.
#[tactic(auto, unfolding(crate::specs::Faults::position_in))]
pub fn find_name(index: &[u16], keys: &[u64], id: u64, number: u8) -> usize
    ensures { IndexOf index.now keys.now
        → result ≡ position_in keys.now id number }
{
    find(index, keys, key(id, number))
}
