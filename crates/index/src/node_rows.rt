// The nodes section, with a row for each node instance, or its refusal.
ghost use Rattle.std.specs.Prelude.{ℕ, ◌≤◌, true, List, [], map, ◌≡◌};
ghost use Rattle.limits.specs.Limits.{library_limits, limits_of};
ghost use Rattle.format.specs.Lookup.{gathered, node_entries_of};
ghost use Rattle.format.specs.NodeLayout.{node_instance_at, node_total, node_at, nodes_at};
ghost use Rattle.format.specs.Parsed.{done, making, row_at};
ghost use Rattle.format.specs.Tree.{NodeInstance, Node};
ghost use Rattle.tables.specs.Indexed.{Indexed};
ghost use Rattle.fields.specs.Seen.{new_after, Tells};
ghost use Rattle.fields.specs.Views.{next_parsed, element_parsed, count_parsed, section_parsed, forget};
ghost use Rattle.nodes.specs.Nodes.{node_id, node_element, node_section};
ghost use Rattle.index.specs.Rows.{Rows, filled, node_row, row_of};

use crate::put_row;
use fields::seen::{enter_ids, larger};
use fields::{
    ByteRead, CountRead, ElementRead, NextRead, NumberRead, SectionRead, keyword_at,
    number_count_at,
};
use limits::{LimitSet, node_instances};
use nodes::{NodeHeadRead, node_head_at, node_instance_at};
use numbers::Width;
use tables::key;
use tables::positions::NODE_PLACES;

// The instances of a node, with their rows; `total` instances stand before them in the file, which may have `limit`. It reads each once.
fn instances_at(
    s: &[u8],
    at: usize,
    id: u64,
    code: u64,
    count: u8,
    total: usize,
    limit: usize,
    keys: &mut [u64],
    kinds: &mut [u64],
    places: &mut [u64],
) -> NextRead
    ensures result_value { next_parsed result ≡ forget (row_at (node_instance_at limit s.now true total) count [] at) }
    ensures fact { (is : List NodeInstance) (m : ℕ)
        → row_at (node_instance_at limit s.now true total) count [] at ≡ done is m
        → ◌≡◌ {A = Rows}
        (record { keys = keys.new; kinds = kinds.new; places = places.new })
        (filled (record { keys = keys.old; kinds = kinds.old; places = places.old }) total (map (λ i. row_of id code i.number i.place) is)) }
{
    let mut seen = [0u8; 256];
    let mut begun = total;
    let mut left = count;
    let mut place = at;
    while 0 < left {
        let i = node_instance_at(s, place, begun, limit, &seen);
        match i {
            ByteRead::Byte(number, next) => {
                seen[number as usize] = 1;
                put_row(
                    keys,
                    kinds,
                    places,
                    begun,
                    key(id, number),
                    code,
                    place as u64,
                );
                place = next;
            }
            ByteRead::Refused(r) => {
                return NextRead::Refused(r);
            }
        }
        begun += 1;
        left -= 1;
    }
    NextRead::Next(place)
}

// A node, with the rows of its instances: its ID and how many instances it has. `ids` are the IDs of the nodes before it, each at most `largest`, and the first `entered` are entered
// in an index; `total` is how many instances these nodes have.
fn node_at(
    s: &[u8],
    at: usize,
    ids: &[u64],
    index: &[u16],
    entered: usize,
    largest: u64,
    total: usize,
    limit: usize,
    keys: &mut [u64],
    kinds: &mut [u64],
    places: &mut [u64],
) -> ElementRead
    ensures result_value { Indexed index.now ids.now entered
        → (before : List Node)
        → Tells (new_after largest ids.now) (map node_id before)
        → total ≡ node_total before
        → element_parsed result ≡ making node_element (node_at limit s.now true before at) }
    ensures fact { Indexed index.now ids.now entered
        → (before : List Node)
        → Tells (new_after largest ids.now) (map node_id before)
        → total ≡ node_total before
        → (n : Node) (m : ℕ)
        → node_at limit s.now true before at ≡ done n m
        → ◌≡◌ {A = Rows}
        (record { keys = keys.new; kinds = kinds.new; places = places.new })
        (filled (record { keys = keys.old; kinds = kinds.old; places = places.old }) total (map node_row (node_entries_of n))) }
{
    let top = node_head_at(s, at, ids, index, entered, largest);
    match top {
        NodeHeadRead::Head(h, a) => {
            let id = h.id;
            let count = h.count;
            let code = h.kind as u64 * 2 + 1;
            let rest = instances_at(s, a, id, code, count, total, limit, keys, kinds, places);
            match rest {
                NextRead::Next(end) => ElementRead::Element(id, count, end),
                NextRead::Refused(r) => ElementRead::Refused(r),
            }
        }
        NodeHeadRead::Refused(r) => ElementRead::Refused(r),
    }
}

// So many nodes with IDs in any order, with the rows of their instances: how many instances they have. It reads each node once, and enters the IDs in an index once one is not above `largest`,
// which is 0 before the first.
fn rows_at(
    s: &[u8],
    at: usize,
    n: u64,
    limit: usize,
    keys: &mut [u64],
    kinds: &mut [u64],
    places: &mut [u64],
) -> CountRead
    requires { limit ≤ library_limits.node_instances }
    ensures result_value { count_parsed result ≡ making node_total (row_at (node_at limit s.now true) n [] at) }
    ensures fact { (ns : List Node) (m : ℕ)
        → row_at (node_at limit s.now true) n [] at ≡ done ns m
        → ◌≡◌ {A = Rows}
        (record { keys = keys.new; kinds = kinds.new; places = places.new })
        (filled (record { keys = keys.old; kinds = kinds.old; places = places.old }) 0 (map node_row (gathered node_entries_of ns))) }
{
    let mut ids = [0u64; limits::NODE_INSTANCES];
    let mut index = [0u16; NODE_PLACES];
    let mut known = 0;
    let mut entered = 0;
    let mut largest = 0;
    let mut total = 0;
    let mut left = n;
    let mut place = at;
    while 0 < left {
        let e = node_at(
            s,
            place,
            &ids[..known],
            &index,
            entered,
            largest,
            total,
            limit,
            keys,
            kinds,
            places,
        );
        match e {
            ElementRead::Element(id, count, next) => {
                ids[known] = id;
                entered = enter_ids(&ids[..known + 1], &mut index, entered, largest, id);
                largest = larger(largest, id);
                total += count as usize;
                place = next;
            }
            ElementRead::Refused(r) => {
                return CountRead::Refused(r);
            }
        }
        known += 1;
        left -= 1;
    }
    CountRead::Count(total, place)
}

// The nodes section of a file that may have `limit` node instances, with the rows of all node instances from the front of the tables on.
fn section_at(
    s: &[u8],
    at: usize,
    limit: usize,
    keys: &mut [u64],
    kinds: &mut [u64],
    places: &mut [u64],
) -> SectionRead
    requires { limit ≤ library_limits.node_instances }
    ensures result_value { section_parsed result ≡ making node_section (nodes_at limit s.now true at) }
    ensures fact { (ns : List Node) (m : ℕ)
        → nodes_at limit s.now true at ≡ done ns m
        → ◌≡◌ {A = Rows}
        (record { keys = keys.new; kinds = kinds.new; places = places.new })
        (filled (record { keys = keys.old; kinds = kinds.old; places = places.old }) 0 (map node_row (gathered node_entries_of ns))) }
{
    let k = keyword_at(s, at, &format::NODE);
    match k {
        NextRead::Next(a) => {
            let c = number_count_at(s, a, Width::Two);
            match c {
                NumberRead::Number(n, b) => {
                    let rows = rows_at(s, b, n, limit, keys, kinds, places);
                    match rows {
                        CountRead::Count(total, end) => SectionRead::Section(
                            n as usize, total, end,
                        ),
                        CountRead::Refused(r) => SectionRead::Refused(r),
                    }
                }
                NumberRead::Refused(r) => SectionRead::Refused(r),
            }
        }
        NextRead::Refused(r) => SectionRead::Refused(r),
    }
}

// The nodes section, with the rows of all node instances from the front of the tables on. It reads each node once.
pub fn nodes_at(
    s: &[u8],
    at: usize,
    of: LimitSet,
    keys: &mut [u64],
    kinds: &mut [u64],
    places: &mut [u64],
) -> SectionRead
    ensures result_value { section_parsed result ≡ making node_section (nodes_at (limits_of of).node_instances s.now true at) }
    ensures fact { (ns : List Node) (m : ℕ)
        → nodes_at (limits_of of).node_instances s.now true at ≡ done ns m
        → ◌≡◌ {A = Rows}
        (record { keys = keys.new; kinds = kinds.new; places = places.new })
        (filled (record { keys = keys.old; kinds = kinds.old; places = places.old }) 0 (map node_row (gathered node_entries_of ns))) }
{
    section_at(s, at, node_instances(of), keys, kinds, places)
}
