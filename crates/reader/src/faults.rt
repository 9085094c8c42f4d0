// Refusals 12 to 14 of a file whose layout was read.
ghost use Rattle.std.specs.Prelude.{ℕ, ◌*◌, ◌≤◌, true, List, [], ◌++◌, ◌≡◌, length};
ghost use Rattle.numbers.specs.BigEndian.{Bytes};
ghost use Rattle.limits.specs.declared.LimitSet.{LimitSet};
ghost use Rattle.limits.specs.Limits.{limits_of};
ghost use Rattle.format.specs.Cycles.{cycle_faults};
ghost use Rattle.format.specs.FileLayout.{roots_at as roots_from, file_at};
ghost use Rattle.format.specs.Lookup.{gathered, node_entries};
ghost use Rattle.format.specs.Parsed.{done};
ghost use Rattle.format.specs.References.{reference_faults};
ghost use Rattle.format.specs.Tree.{Chip};
ghost use Rattle.fields.specs.declared.NextRead.{NextRead};
ghost use Rattle.fields.specs.Views.{next_parsed};
ghost use Rattle.tables.specs.Faults.{judged_at};
ghost use Rattle.tables.specs.Indexed.{IndexOf};
ghost use Rattle.tables.specs.Keys.{node_keys};
ghost use Rattle.tables.specs.Tables.{written};
ghost use Rattle.index.specs.Columns.{node_places, TablesOf};
ghost use Rattle.links.specs.Links.{child_row};
ghost use Rattle.reader.specs.Entries.{EntriesOf, Linked};

use cycles::first_cycle;
use fields::NextRead;
use format::{Kind, Refusal};
use references::children::link_children;
use references::node_faults;
use references::roots::root_faults;
use tables::positions::enter_all;

// The first fault of 12 and 13, by the file's tables; where there is none, the place after the roots section, and the children of each node instance are in `child`. It reads each node instance again.
fn exact_faults(
    s: &[u8],
    roots_at: usize,
    index: &[u16],
    keys: &[u64],
    kinds: &[u64],
    node_index: &[u16],
    nodes: &[u64],
    wanted: &[u64],
    places: &[u64],
    child: &mut [u16],
) -> NextRead
    ensures result_value { (of : LimitSet) (c : Chip) (end : ℕ)
        → file_at (limits_of of) s.now true 0 ≡ done c end
        → roots_from s.now true roots_at ≡ done c.roots end
        → TablesOf c keys.now kinds.now nodes.now wanted.now places.now
        → IndexOf index.now keys.now
        → IndexOf node_index.now nodes.now
        → next_parsed result ≡ judged_at (reference_faults c) end }
    ensures child_after { (of : LimitSet) (c : Chip) (end next : ℕ)
        → result ≡ NextRead.Next next
        → file_at (limits_of of) s.now true 0 ≡ done c end
        → TablesOf c keys.now kinds.now nodes.now wanted.now places.now
        → IndexOf index.now keys.now
        → IndexOf node_index.now nodes.now
        → child.new ≡ written child.old 0 (gathered (λ e. child_row (node_keys c) e.instance) (node_entries c)) }
{
    let f = node_faults(
        s, places, wanted, index, keys, kinds, node_index, nodes, child,
    );
    match f {
        NextRead::Next(_) => root_faults(s, roots_at, places, nodes),
        NextRead::Refused(r) => NextRead::Refused(r),
    }
}

// The first fault of 12 and 13, by the file's tables; where there is none, the place after the roots section, and the children of each node instance are in `child`. `entries` is empty, or
// holds what is kept of the children of each node instance.
fn name_faults(
    s: &[u8],
    roots_at: usize,
    index: &[u16],
    keys: &[u64],
    kinds: &[u64],
    node_index: &[u16],
    nodes: &[u64],
    wanted: &[u64],
    places: &[u64],
    entries: &[u64],
    child: &mut [u16],
) -> NextRead
    ensures result_value { (of : LimitSet) (c : Chip) (end : ℕ)
        → file_at (limits_of of) s.now true 0 ≡ done c end
        → roots_from s.now true roots_at ≡ done c.roots end
        → TablesOf c keys.now kinds.now nodes.now wanted.now places.now
        → EntriesOf c keys.now kinds.now entries.now
        → IndexOf index.now keys.now
        → IndexOf node_index.now nodes.now
        → next_parsed result ≡ judged_at (reference_faults c) end }
    ensures linked { (of : LimitSet) (c : Chip) (end next : ℕ)
        → result ≡ NextRead.Next next
        → file_at (limits_of of) s.now true 0 ≡ done c end
        → TablesOf c keys.now kinds.now nodes.now wanted.now places.now
        → EntriesOf c keys.now kinds.now entries.now
        → IndexOf index.now keys.now
        → IndexOf node_index.now nodes.now
        → Linked c child.old child.new }
{
    if entries.len() == 0 {
        return exact_faults(
            s, roots_at, index, keys, kinds, node_index, nodes, wanted, places, child,
        );
    }
    if link_children(s, entries, node_index, nodes, child) {
        return root_faults(s, roots_at, places, nodes);
    }
    exact_faults(
        s, roots_at, index, keys, kinds, node_index, nodes, wanted, places, child,
    )
}

// 14 where the child entries make a cycle, by the table of children; otherwise the place that is given.
fn cycle_fault(child: &[u16], places: &[u64], next: usize) -> NextRead
    ensures { (of : LimitSet) (s : List ℕ) (c : Chip) (end : ℕ) (table : List ℕ)
        → Bytes s
        → file_at (limits_of of) s true 0 ≡ done c end
        → reference_faults c ≡ []
        → places.now ≡ node_places c
        → length (node_entries c) * 64 ≤ length table
        → child.now ≡ written table 0 (gathered (λ e. child_row (node_keys c) e.instance) (node_entries c))
        → next_parsed result ≡ judged_at (cycle_faults c) next }
{
    let n = places.len();
    let k = first_cycle(child, n);
    if k < n {
        return NextRead::Refused(Refusal {
            kind: Kind::ChildCycle,
            place: places[k] as usize,
        });
    }
    NextRead::Next(next)
}

// The first fault of 12 to 14, by the file's tables; where there is none, the place after the roots section, and the children of each node instance are in `child`. An index over
// the names of the register instances is in `index`, and one over those of the node instances comes to `node_index`. `entries` is empty, or holds what is kept of the children of each node instance.
pub fn table_faults(
    s: &[u8],
    roots_at: usize,
    keys: &[u64],
    kinds: &[u64],
    nodes: &[u64],
    wanted: &[u64],
    places: &[u64],
    entries: &[u64],
    index: &[u16],
    node_index: &mut [u16],
    child: &mut [u16],
) -> NextRead
    ensures result_value { (of : LimitSet) (c : Chip) (end : ℕ)
        → file_at (limits_of of) s.now true 0 ≡ done c end
        → roots_from s.now true roots_at ≡ done c.roots end
        → TablesOf c keys.now kinds.now nodes.now wanted.now places.now
        → EntriesOf c keys.now kinds.now entries.now
        → IndexOf index.now keys.now
        → length (node_entries c) * 64 ≤ length child.old
        → next_parsed result ≡ judged_at (reference_faults c ++ cycle_faults c) end }
    ensures linked { (of : LimitSet) (c : Chip) (end next : ℕ)
        → result ≡ NextRead.Next next
        → file_at (limits_of of) s.now true 0 ≡ done c end
        → TablesOf c keys.now kinds.now nodes.now wanted.now places.now
        → EntriesOf c keys.now kinds.now entries.now
        → IndexOf index.now keys.now
        → Linked c child.old child.new }
{
    enter_all(nodes, node_index);
    let f = name_faults(
        s, roots_at, index, keys, kinds, node_index, nodes, wanted, places, entries, child,
    );
    match f {
        NextRead::Next(end) => cycle_fault(child, places, end),
        NextRead::Refused(r) => NextRead::Refused(r),
    }
}
