// The nodes section in one pass: with no list of IDs while they rise, and otherwise with one.
ghost use Rattle.std.specs.Prelude.{◌≤◌, ◌≡◌, length};
ghost use Rattle.limits.specs.Limits.{library_limits, limits_of};
ghost use Rattle.tables.specs.Indexed.{IndexOf};
ghost use Rattle.node_pass.specs.Passed.{NodesPassed, RowsPassed, SectionPassed};

use crate::{NodesPass, SectionPass, both, instances_pass, nodes_pass};
use fields::seen::{enter_ids, larger};
use fields::{NextRead, NumberRead, keyword_at, number_count_at};
use limits::{LimitSet, node_instances};
use nodes::{NodeHeadRead, node_head_at};
use numbers::Width;
use tables::positions::NODE_PLACES;

// So many nodes with IDs in any order, with the rows of their instances and what is kept of their children. It reads each once, and keeps a list of the IDs, which are entered in an index
// once one is not above all before it.
fn listed_pass(
    s: &[u8],
    at: usize,
    n: u64,
    limit: usize,
    index: &[u16],
    keys: &[u64],
    kinds: &[u64],
    names: &mut [u64],
    wanted: &mut [u64],
    places: &mut [u64],
    children: &mut [u64],
) -> NodesPass
    requires { (length s.now ≤ 0x100000000) × (limit ≤ library_limits.node_instances) }
    ensures { IndexOf index.now keys.now → (result.next ≡ 0 → ⊥)
        → NodesPassed limit s.now keys.now kinds.now n at
        (record { keys = names.old; kinds = wanted.old; places = places.old }) children.old
        (record { keys = names.new; kinds = wanted.new; places = places.new }) children.new result }
{
    let none = NodesPass {
        total: 0,
        next: 0,
        fits: false,
        falls: false,
    };
    let mut ids = [0u64; limits::NODE_INSTANCES];
    let mut id_index = [0u16; NODE_PLACES];
    let mut known = 0;
    let mut entered = 0;
    let mut largest = 0;
    let mut fits = true;
    let mut total = 0;
    let mut left = n;
    let mut place = at;
    while 0 < left {
        let top = node_head_at(s, place, &ids[..known], &id_index, entered, largest);
        match top {
            NodeHeadRead::Head(h, a) => {
                let id = h.id;
                let count = h.count;
                if limit - total < count as usize {
                    return none;
                }
                let p = instances_pass(
                    s,
                    a,
                    id,
                    h.kind as u64 * 2 + 1,
                    count,
                    total,
                    limit,
                    index,
                    keys,
                    kinds,
                    names,
                    wanted,
                    places,
                    children,
                );
                if p.next == 0 {
                    return none;
                }
                ids[known] = id;
                entered = enter_ids(&ids[..known + 1], &mut id_index, entered, largest, id);
                largest = larger(largest, id);
                fits = both(fits, p.fits);
                total += count as usize;
                place = p.next;
            }
            NodeHeadRead::Refused(_) => {
                return none;
            }
        }
        known += 1;
        left -= 1;
    }
    NodesPass {
        total,
        next: place,
        fits,
        falls: false,
    }
}

// So many nodes, with the rows of their instances and what is kept of their children. Where an ID falls it begins again with a list of them.
fn rows_pass(
    s: &[u8],
    at: usize,
    n: u64,
    limit: usize,
    index: &[u16],
    keys: &[u64],
    kinds: &[u64],
    names: &mut [u64],
    wanted: &mut [u64],
    places: &mut [u64],
    children: &mut [u64],
) -> NodesPass
    requires { (length s.now ≤ 0x100000000) × (limit ≤ library_limits.node_instances) }
    ensures { IndexOf index.now keys.now → (result.next ≡ 0 → ⊥)
        → RowsPassed limit s.now keys.now kinds.now n at
        (record { keys = names.old; kinds = wanted.old; places = places.old }) children.old
        (record { keys = names.new; kinds = wanted.new; places = places.new }) children.new result }
{
    let p = nodes_pass(
        s, at, n, limit, index, keys, kinds, names, wanted, places, children,
    );
    if p.falls {
        return listed_pass(
            s, at, n, limit, index, keys, kinds, names, wanted, places, children,
        );
    }
    p
}

// The nodes section of a file that may have `limit` node instances, with the rows of all node instances from the front of the tables on, and what is kept of the children of each. `keys`
// and `kinds` are those of the register instances, with an index over the keys.
fn section_pass(
    s: &[u8],
    at: usize,
    limit: usize,
    index: &[u16],
    keys: &[u64],
    kinds: &[u64],
    names: &mut [u64],
    wanted: &mut [u64],
    places: &mut [u64],
    children: &mut [u64],
) -> SectionPass
    requires { limit ≤ library_limits.node_instances }
    ensures { IndexOf index.now keys.now → (result.next ≡ 0 → ⊥)
        → SectionPassed limit s.now keys.now kinds.now at
        (record { keys = names.old; kinds = wanted.old; places = places.old }) children.old
        (record { keys = names.new; kinds = wanted.new; places = places.new }) children.new result }
{
    let none = SectionPass {
        nodes: 0,
        total: 0,
        next: 0,
        fits: false,
    };
    if 0x100000000 < s.len() {
        return none;
    }
    let k = keyword_at(s, at, &format::NODE);
    match k {
        NextRead::Next(a) => {
            let c = number_count_at(s, a, Width::Two);
            match c {
                NumberRead::Number(n, b) => {
                    let p = rows_pass(
                        s, b, n, limit, index, keys, kinds, names, wanted, places, children,
                    );
                    SectionPass {
                        nodes: n as usize,
                        total: p.total,
                        next: p.next,
                        fits: p.fits,
                    }
                }
                NumberRead::Refused(_) => none,
            }
        }
        NextRead::Refused(_) => none,
    }
}

// The nodes section of a file within the limits, in one pass.
pub fn pass_at(
    s: &[u8],
    at: usize,
    of: LimitSet,
    index: &[u16],
    keys: &[u64],
    kinds: &[u64],
    names: &mut [u64],
    wanted: &mut [u64],
    places: &mut [u64],
    children: &mut [u64],
) -> SectionPass
    ensures { IndexOf index.now keys.now → (result.next ≡ 0 → ⊥)
        → SectionPassed (limits_of of).node_instances s.now keys.now kinds.now at
        (record { keys = names.old; kinds = wanted.old; places = places.old }) children.old
        (record { keys = names.new; kinds = wanted.new; places = places.new }) children.new result }
{
    section_pass(
        s,
        at,
        node_instances(of),
        index,
        keys,
        kinds,
        names,
        wanted,
        places,
        children,
    )
}
