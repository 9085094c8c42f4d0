// The nodes section in one pass, where the numbers of the instances of each node rise: its layout, a row for each node instance, and whether every register fits that captures and rules
// name. The IDs of the nodes may come in any order; where they rise no list of them is kept. A section that is not read this way is left to the exact reader.
#![tactic(auto)]

ghost use Rattle.std.specs.Prelude.{◌+◌, ◌≤◌, ◌&&◌, ◌≡◌, length};
ghost use Rattle.tables.specs.Indexed.{IndexOf};
ghost use Rattle.nodes.specs.Nodes.{ChildrenRead};
ghost use Rattle.node_pass.specs.Passed.{packed, NamesPassed, InstancePassed, InstancesPassed, HeadPassed, NodesPassed};

use fields::NextRead;
use index::put_row;
use naming::{captures_fit, rules_fit};
use nodes::{captures_at, children_at, rising_children, rules_at};
use tables::{key, put};

mod one_pass;
pub mod section;

// Where a part of the section ends, and whether every register fits that it names. The place is 0 where the part is not read in this pass.
#[derive(Clone, Copy)]
pub struct Pass {
    pub next: usize,
    pub fits: bool,
}

// A node instance: its number, what is kept of its children, the place after it, and whether every register fits that it names. The place is 0 where it is not read in this pass.
#[derive(Clone, Copy)]
pub struct InstancePass {
    pub number: u8,
    pub children: u64,
    pub next: usize,
    pub fits: bool,
}

// What a node starts with. The count is 0 where the node is not read in this pass; `falls` is true where that is for its ID.
#[derive(Clone, Copy)]
pub struct HeadPass {
    pub id: u64,
    pub kind: u8,
    pub count: u8,
    pub falls: bool,
}

// Some nodes: how many instances they have, the place after them, and whether every register fits that they name. The place is 0 where they are not read in this pass; `falls` is true where
// that is for an ID that is not above the one before it.
#[derive(Clone, Copy)]
pub struct NodesPass {
    pub total: usize,
    pub next: usize,
    pub fits: bool,
    pub falls: bool,
}

// The nodes section: how many nodes and instances it has, the place after it, and whether every register was found to fit that it names. The place is 0 where a pass does not read it.
#[derive(Clone, Copy)]
pub struct SectionPass {
    pub nodes: usize,
    pub total: usize,
    pub next: usize,
    pub fits: bool,
}

// Both are true.
fn both(a: bool, b: bool) -> bool
    ensures { result ≡ a && b }
{
    if a {
        return b;
    }
    false
}

// The captures and rules of a node instance. Where a register does not fit the rules are read for the place after them: once more where it is one that a rule names.
fn names_pass(
    s: &[u8],
    at: usize,
    captures: u8,
    rules: u8,
    kind: u64,
    index: &[u16],
    keys: &[u64],
    kinds: &[u64],
) -> Pass
    ensures { IndexOf index.now keys.now → (result.next ≡ 0 → ⊥)
        → NamesPassed s.now keys.now kinds.now kind captures rules at result }
{
    let none = Pass {
        next: 0,
        fits: false,
    };
    let c = captures_at(s, at, captures);
    match c {
        NextRead::Next(a) => {
            if captures_fit(s, at, captures, index, keys, kinds) {
                let end = rules_fit(s, a, rules, kind, index, keys, kinds);
                if end != 0 {
                    return Pass {
                        next: end,
                        fits: true,
                    };
                }
            }
            let d = rules_at(s, a, rules);
            match d {
                NextRead::Next(end) => Pass {
                    next: end,
                    fits: false,
                },
                NextRead::Refused(_) => none,
            }
        }
        NextRead::Refused(_) => none,
    }
}

// The place after so many children, or 0 where they are not read. It reads each once, and all once more where their bits do not rise.
fn children_pass(s: &[u8], at: usize, n: u8) -> usize
    ensures { (result ≡ 0 → ⊥) → ChildrenRead s.now n at result }
{
    let end = rising_children(s, at, n);
    if end != 0 {
        return end;
    }
    let c = children_at(s, at, n);
    match c {
        NextRead::Next(next) => next,
        NextRead::Refused(_) => 0,
    }
}

// What is kept of so many children, the first of which stands at a place.
fn packed(at: usize, n: u8) -> u64
    requires { at ≤ 0x100000000 }
    ensures { result ≡ packed at n }
{
    if n == 0 {
        return 0;
    }
    at as u64 * 256 + n as u64
}

// A node instance at a place, whose number is at least `bound`.
fn instance_pass(
    s: &[u8],
    at: usize,
    bound: usize,
    kind: u64,
    index: &[u16],
    keys: &[u64],
    kinds: &[u64],
) -> InstancePass
    requires { length s.now ≤ 0x100000000 }
    ensures { IndexOf index.now keys.now → (result.next ≡ 0 → ⊥)
        → InstancePassed s.now keys.now kinds.now kind bound at result }
{
    let none = InstancePass {
        number: 0,
        children: 0,
        next: 0,
        fits: false,
    };
    if s.len() <= at {
        return none;
    }
    if s.len() - at < 4 {
        return none;
    }
    let number = s[at];
    if (number as usize) < bound {
        return none;
    }
    let rules = s[at + 2];
    if rules == 0 {
        return none;
    }
    let p = names_pass(s, at + 4, s[at + 1], rules, kind, index, keys, kinds);
    let middle = p.next;
    if middle == 0 {
        return none;
    }
    if s.len() < middle {
        return none;
    }
    let n = s[at + 3];
    let end = children_pass(s, middle, n);
    InstancePass {
        number,
        children: packed(middle, n),
        next: end,
        fits: p.fits,
    }
}

// The instances of a node, with their rows and what is kept of their children; `total` instances stand before them in the file, which may have `limit`. It reads each once.
fn instances_pass(
    s: &[u8],
    at: usize,
    id: u64,
    kind: u64,
    count: u8,
    total: usize,
    limit: usize,
    index: &[u16],
    keys: &[u64],
    kinds: &[u64],
    names: &mut [u64],
    wanted: &mut [u64],
    places: &mut [u64],
    children: &mut [u64],
) -> Pass
    requires { (length s.now ≤ 0x100000000) × (total + count ≤ limit) }
    ensures { IndexOf index.now keys.now → (result.next ≡ 0 → ⊥)
        → InstancesPassed limit s.now keys.now kinds.now id kind count total at
        (record { keys = names.old; kinds = wanted.old; places = places.old }) children.old
        (record { keys = names.new; kinds = wanted.new; places = places.new }) children.new result }
{
    let mut bound = 0;
    let mut fits = true;
    let mut begun = total;
    let mut left = count;
    let mut place = at;
    while 0 < left {
        let i = instance_pass(s, place, bound, kind, index, keys, kinds);
        if i.next == 0 {
            return Pass {
                next: 0,
                fits: false,
            };
        }
        put_row(
            names,
            wanted,
            places,
            begun,
            key(id, i.number),
            kind,
            place as u64,
        );
        put(children, begun, i.children);
        fits = both(fits, i.fits);
        bound = i.number as usize + 1;
        place = i.next;
        begun += 1;
        left -= 1;
    }
    Pass { next: place, fits }
}

// What a node starts with at a place, whose ID is at least `bound`.
fn head_pass(s: &[u8], at: usize, bound: u64) -> HeadPass
    ensures { (result.count ≡ 0 → ⊥) → HeadPassed s.now bound at result }
{
    let none = HeadPass {
        id: 0,
        kind: 0,
        count: 0,
        falls: false,
    };
    if s.len() <= at {
        return none;
    }
    if s.len() - at < 4 {
        return none;
    }
    let id = s[at] as u64 * 256 + s[at + 1] as u64;
    if id < bound {
        return HeadPass {
            id: 0,
            kind: 0,
            count: 0,
            falls: true,
        };
    }
    let kind = s[at + 2];
    if kind < 1 {
        return none;
    }
    if 2 < kind {
        return none;
    }
    HeadPass {
        id,
        kind,
        count: s[at + 3],
        falls: false,
    }
}

// So many nodes, with the rows of their instances and what is kept of their children. It reads each once, and keeps no ID but the last.
fn nodes_pass(
    s: &[u8],
    at: usize,
    n: u64,
    limit: usize,
    index: &[u16],
    keys: &[u64],
    kinds: &[u64],
    names: &mut [u64],
    wanted: &mut [u64],
    places: &mut [u64],
    children: &mut [u64],
) -> NodesPass
    requires { length s.now ≤ 0x100000000 }
    ensures { IndexOf index.now keys.now → (result.next ≡ 0 → ⊥)
        → NodesPassed limit s.now keys.now kinds.now n at
        (record { keys = names.old; kinds = wanted.old; places = places.old }) children.old
        (record { keys = names.new; kinds = wanted.new; places = places.new }) children.new result }
{
    let none = NodesPass {
        total: 0,
        next: 0,
        fits: false,
        falls: false,
    };
    let mut bound = 0;
    let mut fits = true;
    let mut total = 0;
    let mut left = n;
    let mut place = at;
    while 0 < left {
        let h = head_pass(s, place, bound);
        let count = h.count;
        if count == 0 {
            return NodesPass {
                total: 0,
                next: 0,
                fits: false,
                falls: h.falls,
            };
        }
        if limit - total < count as usize {
            return none;
        }
        let p = instances_pass(
            s,
            place + 4,
            h.id,
            h.kind as u64 * 2 + 1,
            count,
            total,
            limit,
            index,
            keys,
            kinds,
            names,
            wanted,
            places,
            children,
        );
        if p.next == 0 {
            return none;
        }
        fits = both(fits, p.fits);
        bound = h.id + 1;
        total += count as usize;
        place = p.next;
        left -= 1;
    }
    NodesPass {
        total,
        next: place,
        fits,
        falls: false,
    }
}
