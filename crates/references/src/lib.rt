// Refusals 12 and 13 of a file whose layout was read: the names that its captures, rules and children hold, by the tables of the file. Children that are there are written to a table.
#![tactic(auto)]

ghost use Rattle.std.specs.Prelude.{ℕ, ◌+◌, ◌%◌, true, List, [], map, ◌≡◌, set};
ghost use Rattle.format.specs.Lookup.{gathered, NodeEntry};
ghost use Rattle.format.specs.NodeLayout.{capture_at, rule_at, child_at, node_instance_at};
ghost use Rattle.format.specs.Parsed.{done, row_at};
ghost use Rattle.format.specs.References.{unless};
ghost use Rattle.format.specs.Rules.{Every};
ghost use Rattle.format.specs.Tree.{Capture, Rule, Child, NodeInstance};
ghost use Rattle.fields.specs.declared.NextRead.{NextRead};
ghost use Rattle.fields.specs.Views.{next_parsed};
ghost use Rattle.tables.specs.Faults.{judged_at, position_in, present, capture_faults_in, rule_faults_in};
ghost use Rattle.tables.specs.Indexed.{IndexOf};
ghost use Rattle.tables.specs.Tables.{written};
ghost use Rattle.index.specs.Rows.{ReadAgain, entry_place, entry_wanted};
ghost use Rattle.links.specs.Links.{child_number, children_put, child_row};
ghost use Rattle.references.specs.FaultsIn.{child_faults_in, instance_faults_in, entry_faults_in};

use fields::{ByteRead, NextRead, NumberRead, byte_at, number_at};
use format::{Kind, Refusal};
use links::{clear, put_link};
use nodes::{InstanceHeadRead, instance_head_at};
use numbers::Width;
use tables::entry;
use tables::positions::find_name;

pub mod children;
pub mod roots;

// A child's name, which has to be among the keys: 12 at `at` where it is not; otherwise the place after it, with its position among the keys at its bit of the places of `child` from place k on.
fn child_name_fault(
    index: &[u16],
    keys: &[u64],
    id: u64,
    number: u8,
    at: usize,
    next: usize,
    child: &mut [u16],
    k: usize,
    bit: u8,
) -> NextRead
    ensures result_value { IndexOf index.now keys.now → next_parsed result ≡ judged_at (unless (present keys.now id number) 12 at) next }
    ensures by_index { (after : ℕ)
        → result ≡ NextRead.Next after
        → IndexOf index.now keys.now
        → child.new ≡ set child.old (k + bit) (position_in keys.now id number % 0x10000) }
{
    let p = find_name(index, keys, id, number);
    if p < keys.len() {
        put_link(child, k, bit, (p % 0x10000) as u16);
        return NextRead::Next(next);
    }
    NextRead::Refused(Refusal {
        kind: Kind::NameAbsent,
        place: at,
    })
}

// The fault of a capture, or the place after it.
fn capture_fault(s: &[u8], at: usize, index: &[u16], keys: &[u64], kinds: &[u64]) -> NextRead
    ensures { IndexOf index.now keys.now → (before : List Capture) (k : Capture) (m : ℕ)
        → capture_at s.now before at ≡ done k m
        → next_parsed result ≡ judged_at (capture_faults_in keys.now kinds.now k) m }
{
    let i = number_at(s, at, Width::Three);
    match i {
        NumberRead::Number(id, a) => {
            let n = byte_at(s, a);
            match n {
                ByteRead::Byte(number, end) => {
                    naming::capture_fault(id, number, at, end, index, keys, kinds)
                }
                ByteRead::Refused(r) => NextRead::Refused(r),
            }
        }
        NumberRead::Refused(r) => NextRead::Refused(r),
    }
}

// The fault of a rule, or the place after it. It reads each byte of the rule once, those of a rule with a fault twice.
fn rule_fault(
    s: &[u8],
    at: usize,
    kind: u64,
    index: &[u16],
    keys: &[u64],
    kinds: &[u64],
) -> NextRead
    ensures { IndexOf index.now keys.now → (before : List Rule) (k : Rule) (m : ℕ)
        → rule_at s.now true before at ≡ done k m
        → next_parsed result ≡ judged_at (rule_faults_in keys.now kinds.now kind k) m }
{
    let b = byte_at(s, at);
    match b {
        ByteRead::Byte(_, a) => naming::faults_at(s, a, limits::LEVELS, kind, index, keys, kinds),
        ByteRead::Refused(r) => NextRead::Refused(r),
    }
}

// The fault of a child, or the place after it, with the child at its bit of the places of `child` from place k on.
fn child_fault(
    s: &[u8],
    at: usize,
    index: &[u16],
    keys: &[u64],
    child: &mut [u16],
    k: usize,
) -> NextRead
    ensures result_value { IndexOf index.now keys.now → (before : List Child) (k : Child) (m : ℕ)
        → child_at s.now true before at ≡ done k m
        → next_parsed result ≡ judged_at (child_faults_in keys.now k) m }
    ensures by_index { (after : ℕ)
        → result ≡ NextRead.Next after
        → IndexOf index.now keys.now → (before : List Child) (c : Child) (m : ℕ)
        → child_at s.now true before at ≡ done c m
        → child.new ≡ set child.old (k + c.bit) (child_number keys.now c) }
{
    let b = byte_at(s, at);
    match b {
        ByteRead::Byte(bit, a) => {
            let i = number_at(s, a, Width::Two);
            match i {
                NumberRead::Number(id, d) => {
                    let n = byte_at(s, d);
                    match n {
                        ByteRead::Byte(number, end) => {
                            child_name_fault(index, keys, id, number, at, end, child, k, bit)
                        },
                        ByteRead::Refused(r) => NextRead::Refused(r),
                    }
                }
                NumberRead::Refused(r) => NextRead::Refused(r),
            }
        }
        ByteRead::Refused(r) => NextRead::Refused(r),
    }
}

// The first fault of so many captures, or the place after them. It looks each up once. The place of the next does not depend on what is found: a capture has four bytes.
fn capture_faults(
    s: &[u8],
    at: usize,
    n: u8,
    index: &[u16],
    keys: &[u64],
    kinds: &[u64],
) -> NextRead
    ensures { IndexOf index.now keys.now → (ks : List Capture) (m : ℕ)
        → row_at (capture_at s.now) n [] at ≡ done ks m
        → next_parsed result ≡ judged_at (gathered (capture_faults_in keys.now kinds.now) ks) m }
{
    if s.len() < at {
        return NextRead::Next(at);
    }
    if s.len() - at < n as usize * 4 {
        return NextRead::Next(at);
    }
    let mut left = n;
    let mut place = at;
    while 0 < left {
        let f = capture_fault(s, place, index, keys, kinds);
        match f {
            NextRead::Next(_) => {}
            NextRead::Refused(r) => {
                return NextRead::Refused(r);
            }
        }
        place += 4;
        left -= 1;
    }
    NextRead::Next(place)
}

// The first fault of so many rules, or the place after them. It looks up each register that they name once, those of a rule with a fault twice.
fn rule_faults(
    s: &[u8],
    at: usize,
    n: u8,
    kind: u64,
    index: &[u16],
    keys: &[u64],
    kinds: &[u64],
) -> NextRead
    ensures { IndexOf index.now keys.now → (ks : List Rule) (m : ℕ)
        → row_at (rule_at s.now true) n [] at ≡ done ks m
        → next_parsed result ≡ judged_at (gathered (rule_faults_in keys.now kinds.now kind) ks) m }
{
    let mut left = n;
    let mut place = at;
    while 0 < left {
        let f = rule_fault(s, place, kind, index, keys, kinds);
        match f {
            NextRead::Next(next) => {
                place = next;
            }
            NextRead::Refused(r) => {
                return NextRead::Refused(r);
            }
        }
        left -= 1;
    }
    NextRead::Next(place)
}

// The first fault of so many children, or the place after them, with each child at its bit of the places of `child` from place k on. It looks each up once.
fn child_faults(
    s: &[u8],
    at: usize,
    n: u8,
    index: &[u16],
    keys: &[u64],
    child: &mut [u16],
    k: usize,
) -> NextRead
    ensures result_value { IndexOf index.now keys.now → (ks : List Child) (m : ℕ)
        → row_at (child_at s.now true) n [] at ≡ done ks m
        → next_parsed result ≡ judged_at (gathered (child_faults_in keys.now) ks) m }
    ensures by_index { (after : ℕ)
        → result ≡ NextRead.Next after
        → IndexOf index.now keys.now → (ks : List Child) (m : ℕ)
        → row_at (child_at s.now true) n [] at ≡ done ks m
        → child.new ≡ children_put keys.now child.old k ks }
{
    let mut left = n;
    let mut place = at;
    while 0 < left {
        let f = child_fault(s, place, index, keys, child, k);
        match f {
            NextRead::Next(next) => {
                place = next;
            }
            NextRead::Refused(r) => {
                return NextRead::Refused(r);
            }
        }
        left -= 1;
    }
    NextRead::Next(place)
}

// The first fault of a node instance, or the place after it, with the children of the instance in the 64 places of `child` from place k on. `keys` and `kinds` are those of the register
// instances, `nodes` the keys of the node instances, each keys with an index over them.
fn instance_faults(
    s: &[u8],
    at: usize,
    kind: u64,
    index: &[u16],
    keys: &[u64],
    kinds: &[u64],
    node_index: &[u16],
    nodes: &[u64],
    child: &mut [u16],
    k: usize,
) -> NextRead
    ensures result_value { IndexOf index.now keys.now → IndexOf node_index.now nodes.now → (limit total : ℕ) (before : List NodeInstance) (i : NodeInstance) (m : ℕ)
        → node_instance_at limit s.now true total before at ≡ done i m
        → next_parsed result ≡ judged_at (instance_faults_in keys.now kinds.now nodes.now kind i) m }
    ensures by_index { (after : ℕ)
        → result ≡ NextRead.Next after
        → IndexOf index.now keys.now → IndexOf node_index.now nodes.now → (limit total : ℕ) (before : List NodeInstance) (i : NodeInstance) (m : ℕ)
        → node_instance_at limit s.now true total before at ≡ done i m
        → child.new ≡ written child.old k (child_row nodes.now i) }
{
    let none = [0u8; 1];
    let top = instance_head_at(s, at, 0, limits::NODE_INSTANCES, &none);
    match top {
        InstanceHeadRead::Head(h, a) => {
            let rules = h.rules;
            let children = h.children;
            let c = capture_faults(s, a, h.captures, index, keys, kinds);
            match c {
                NextRead::Next(b) => {
                    let d = rule_faults(s, b, rules, kind, index, keys, kinds);
                    match d {
                        NextRead::Next(e) => {
                            clear(child, k, 64);
                            child_faults(s, e, children, node_index, nodes, child, k)
                        }
                        NextRead::Refused(r) => NextRead::Refused(r),
                    }
                }
                NextRead::Refused(r) => NextRead::Refused(r),
            }
        }
        InstanceHeadRead::Refused(r) => NextRead::Refused(r),
    }
}

// The first fault of all node instances in file order; where there is none, the children of each are in `child`, 64 places for each, from the front on. `places` and `wanted` are the
// places and the kinds of their rows. It looks up each name once, those of a rule with a fault twice.
pub fn node_faults(
    s: &[u8],
    places: &[u64],
    wanted: &[u64],
    index: &[u16],
    keys: &[u64],
    kinds: &[u64],
    node_index: &[u16],
    nodes: &[u64],
    child: &mut [u16],
) -> NextRead
    ensures result_value { IndexOf index.now keys.now → IndexOf node_index.now nodes.now → (es : List NodeEntry)
        → Every (ReadAgain s.now) es
        → places.now ≡ map entry_place es
        → wanted.now ≡ map entry_wanted es
        → next_parsed result ≡ judged_at (gathered (entry_faults_in keys.now kinds.now nodes.now) es) 0 }
    ensures by_index { (next : ℕ)
        → result ≡ NextRead.Next next
        → IndexOf index.now keys.now → IndexOf node_index.now nodes.now → (es : List NodeEntry)
        → Every (ReadAgain s.now) es
        → places.now ≡ map entry_place es
        → wanted.now ≡ map entry_wanted es
        → child.new ≡ written child.old 0 (gathered (λ e. child_row nodes.now e.instance) es) }
{
    let mut i = 0;
    let mut k = 0;
    while i < places.len() {
        let at = places[i] as usize;
        let f = instance_faults(
            s,
            at,
            entry(wanted, i),
            index,
            keys,
            kinds,
            node_index,
            nodes,
            child,
            k,
        );
        match f {
            NextRead::Next(_) => {}
            NextRead::Refused(r) => {
                return NextRead::Refused(r);
            }
        }
        i += 1;
        if k < child.len() {
            k += 64;
        }
    }
    NextRead::Next(0)
}
