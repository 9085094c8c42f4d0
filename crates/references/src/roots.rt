// Refusal 12 of the roots: a root's node instance has to be there, with a rule for the root's attention type.
ghost use Rattle.std.specs.Prelude.{ℕ, true, List, [], map, ◌≡◌};
ghost use Rattle.format.specs.FileLayout.{root_at, roots_at};
ghost use Rattle.format.specs.Lookup.{gathered, NodeEntry};
ghost use Rattle.format.specs.Parsed.{done, row_at};
ghost use Rattle.format.specs.References.{unless};
ghost use Rattle.format.specs.Rules.{Every};
ghost use Rattle.format.specs.Tree.{Root};
ghost use Rattle.fields.specs.Views.{next_parsed};
ghost use Rattle.tables.specs.Faults.{judged_at};
ghost use Rattle.index.specs.Rows.{ReadAgain, entry_place};
ghost use Rattle.references.specs.FaultsIn.{ruled, root_faults_in};
ghost use Rattle.references.specs.RootIn.{root_position, root_of};

use fields::{ByteRead, NextRead, NumberRead, byte_at, byte_count_at, keyword_at, number_at};
use format::{Kind, Refusal};
use links::rule_place;
use numbers::Width;
use tables::name_position;

// A root: its attention type, its node instance, and the place after it.
#[derive(Clone, Copy)]
pub struct RootEntry {
    pub attention: u8,
    pub id: u64,
    pub number: u8,
    pub next: usize,
}

// The fault of a root that stands at `at` and names this node instance, or the place after it.
fn rule_fault(
    s: &[u8],
    attention: u8,
    id: u64,
    number: u8,
    at: usize,
    next: usize,
    places: &[u64],
    nodes: &[u64],
) -> NextRead
    ensures { (es : List NodeEntry)
        → Every (ReadAgain s.now) es
        → places.now ≡ map entry_place es
        → next_parsed result ≡ judged_at (unless (ruled nodes.now es attention id number) 12 at) next }
{
    let k = name_position(nodes, id, number);
    if k < places.len() {
        let p = places[k] as usize;
        if rule_place(s, p, attention) != 0 {
            return NextRead::Next(next);
        }
    }
    NextRead::Refused(Refusal {
        kind: Kind::NameAbsent,
        place: at,
    })
}

// The fault of a root, or the place after it.
fn root_fault(s: &[u8], at: usize, places: &[u64], nodes: &[u64]) -> NextRead
    ensures { (es : List NodeEntry)
        → Every (ReadAgain s.now) es
        → places.now ≡ map entry_place es
        → (before : List Root) (t : Root) (m : ℕ)
        → root_at s.now true before at ≡ done t m
        → next_parsed result ≡ judged_at (root_faults_in nodes.now es t) m }
{
    let b = byte_at(s, at);
    match b {
        ByteRead::Byte(attention, a) => {
            let i = number_at(s, a, Width::Two);
            match i {
                NumberRead::Number(id, d) => {
                    let n = byte_at(s, d);
                    match n {
                        ByteRead::Byte(number, end) => rule_fault(
                            s, attention, id, number, at, end, places, nodes,
                        ),
                        ByteRead::Refused(r) => NextRead::Refused(r),
                    }
                }
                NumberRead::Refused(r) => NextRead::Refused(r),
            }
        }
        ByteRead::Refused(r) => NextRead::Refused(r),
    }
}

// The first fault of so many roots, or the place after them. It looks each up once.
fn root_rows(s: &[u8], at: usize, n: u8, places: &[u64], nodes: &[u64]) -> NextRead
    ensures { (es : List NodeEntry)
        → Every (ReadAgain s.now) es
        → places.now ≡ map entry_place es
        → (ts : List Root) (m : ℕ)
        → row_at (root_at s.now true) n [] at ≡ done ts m
        → next_parsed result ≡ judged_at (gathered (root_faults_in nodes.now es) ts) m }
{
    let mut left = n;
    let mut place = at;
    while 0 < left {
        let f = root_fault(s, place, places, nodes);
        match f {
            NextRead::Next(next) => {
                place = next;
            }
            NextRead::Refused(r) => {
                return NextRead::Refused(r);
            }
        }
        left -= 1;
    }
    NextRead::Next(place)
}

// The first fault of the roots section at a place, or the place after it.
pub fn root_faults(s: &[u8], at: usize, places: &[u64], nodes: &[u64]) -> NextRead
    ensures { (es : List NodeEntry)
        → Every (ReadAgain s.now) es
        → places.now ≡ map entry_place es
        → (ts : List Root) (m : ℕ)
        → roots_at s.now true at ≡ done ts m
        → next_parsed result ≡ judged_at (gathered (root_faults_in nodes.now es) ts) m }
{
    let k = keyword_at(s, at, &format::ROOT);
    match k {
        NextRead::Next(a) => {
            let c = byte_count_at(s, a);
            match c {
                ByteRead::Byte(n, b) => root_rows(s, b, n, places, nodes),
                ByteRead::Refused(r) => NextRead::Refused(r),
            }
        }
        NextRead::Refused(r) => NextRead::Refused(r),
    }
}

// A root that was read before, with the place after it.
fn root_at(s: &[u8], at: usize) -> RootEntry
    ensures { (before : List Root) (t : Root) (m : ℕ) → root_at s.now true before at ≡ done t m → result ≡ root_of t m }
{
    let b = byte_at(s, at);
    match b {
        ByteRead::Byte(attention, a) => {
            let i = number_at(s, a, Width::Two);
            match i {
                NumberRead::Number(id, d) => {
                    let n = byte_at(s, d);
                    match n {
                        ByteRead::Byte(number, next) => RootEntry {
                            attention,
                            id,
                            number,
                            next,
                        },
                        ByteRead::Refused(_) => RootEntry {
                            attention: 0,
                            id: 0,
                            number: 0,
                            next: at,
                        },
                    }
                }
                NumberRead::Refused(_) => RootEntry {
                    attention: 0,
                    id: 0,
                    number: 0,
                    next: at,
                },
            }
        }
        ByteRead::Refused(_) => RootEntry {
            attention: 0,
            id: 0,
            number: 0,
            next: at,
        },
    }
}

// The position of the node instance of the first of so many roots that is for an attention type; 65,535 where there is none. It reads each root before it once.
fn find_root(s: &[u8], at: usize, n: u8, attention: u8, nodes: &[u64]) -> usize
    ensures { (ts : List Root) (m : ℕ)
        → row_at (root_at s.now true) n [] at ≡ done ts m
        → result ≡ root_position nodes.now attention ts }
{
    let mut left = n;
    let mut place = at;
    while 0 < left {
        let t = root_at(s, place);
        if t.attention == attention {
            return name_position(nodes, t.id, t.number);
        }
        place = t.next;
        left -= 1;
    }
    65535
}

// The position of the node instance of the root for an attention type; 65,535 where the roots section at a place has none.
pub fn root_position(s: &[u8], at: usize, attention: u8, nodes: &[u64]) -> usize
    ensures { (ts : List Root) (m : ℕ)
        → roots_at s.now true at ≡ done ts m
        → result ≡ root_position nodes.now attention ts }
{
    let k = keyword_at(s, at, &format::ROOT);
    match k {
        NextRead::Next(a) => {
            let c = byte_count_at(s, a);
            match c {
                ByteRead::Byte(n, b) => find_root(s, b, n, attention, nodes),
                ByteRead::Refused(_) => 65535,
            }
        }
        NextRead::Refused(_) => 65535,
    }
}
