// The nodes section, with a table that has a row for each node instance, in file order; and of a file whose layout was read, where the address of a register instance stands.
#![tactic(auto)]

ghost use Rattle.std.specs.Prelude.{◌≡◌};
ghost use Rattle.index.specs.Rows.{Rows, put_row};

pub mod addresses;
pub mod node_rows;

// What a register starts with, and the place after that.
#[derive(Clone, Copy)]
pub struct Head {
    pub id: u64,
    pub kind: u8,
    pub count: u8,
    pub next: usize,
}

// A register instance or a node instance: its number, the place that its row holds, and the place after it.
#[derive(Clone, Copy)]
pub struct Instance {
    pub number: u8,
    pub place: usize,
    pub next: usize,
}

// A row at a place of the three tables.
pub fn put_row(
    keys: &mut [u64],
    kinds: &mut [u64],
    places: &mut [u64],
    k: usize,
    key: u64,
    kind: u64,
    place: u64,
)
    ensures { ◌≡◌ {A = Rows}
        (record { keys = keys.new; kinds = kinds.new; places = places.new })
        (put_row (record { keys = keys.old; kinds = kinds.old; places = places.old }) k (record { key = key; kind = kind; place = place })) }
{
    tables::put(keys, k, key);
    tables::put(kinds, k, kind);
    tables::put(places, k, place);
}
