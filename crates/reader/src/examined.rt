// An accepted file in tables that a caller lends.
ghost use Rattle.std.specs.Prelude.{ℕ, ◌*◌, ◌≤◌, true, cond, ◌&&◌, ◌++◌, ◌≡◌, leb, length, take};
ghost use Rattle.limits.specs.declared.LimitSet.{LimitSet};
ghost use Rattle.limits.specs.Limits.{limits_of};
ghost use Rattle.format.specs.Cycles.{cycle_faults};
ghost use Rattle.format.specs.FileLayout.{roots_at, file_at};
ghost use Rattle.format.specs.Lookup.{node_entries};
ghost use Rattle.format.specs.Parsed.{done, refused, making};
ghost use Rattle.format.specs.References.{reference_faults};
ghost use Rattle.format.specs.Tree.{Chip};
ghost use Rattle.format.specs.Verdict.{verdict, counts_of};
ghost use Rattle.fields.specs.declared.NextRead.{NextRead};
ghost use Rattle.fields.specs.Views.{next_parsed};
ghost use Rattle.tables.specs.Faults.{judged_at};
ghost use Rattle.tables.specs.Indexed.{IndexOf};
ghost use Rattle.index.specs.Columns.{TablesOf};
ghost use Rattle.reader.specs.declared.Layout.{Layout};
ghost use Rattle.reader.specs.declared.LayoutRead.{LayoutRead};
ghost use Rattle.reader.specs.Entries.{EntriesIn, Linked};
ghost use Rattle.reader.specs.Examined.{lengths_of, room_of, room_for, Examined};
ghost use Rattle.reader.specs.Layout.{layout_parsed, layout_values};

use crate::faults::table_faults;
use crate::file::whole;
use crate::{Layout, LayoutRead};
use fields::NextRead;
use format::{Kind, Refusal};
use limits::LimitSet;

// Whether tables of these lengths have room for the instances of a layout.
fn has_room(
    l: Layout,
    keys: usize,
    kinds: usize,
    names: usize,
    wanted: usize,
    places: usize,
    child: usize,
) -> bool
    ensures { result
        ≡ room_of (record { keys = keys; kinds = kinds; names = names; wanted = wanted; places = places; child = child }) l.register_instances l.node_instances }
{
    let m = l.register_instances;
    if keys < m {
        return false;
    }
    if kinds < m {
        return false;
    }
    let n = l.node_instances;
    if names < n {
        return false;
    }
    if wanted < n {
        return false;
    }
    if places < n {
        return false;
    }
    n <= child / 64
}

// How many of so many entries serve: those of all n node instances where every register fits and there are as many, otherwise none.
fn usable(fits: bool, n: usize, entries: usize) -> usize
    ensures { result ≡ cond (fits && leb n entries) n 0 }
{
    if fits {
        if n <= entries {
            return n;
        }
    }
    0
}

// The first fault of 12 to 14 of a file whose layout was read, by tables with room for it; where there is none, the place after the roots section, and the children are in the
// table of children.
fn judge(
    s: &[u8],
    l: Layout,
    keys: &[u64],
    kinds: &[u64],
    index: &[u16],
    names: &[u64],
    wanted: &[u64],
    places: &[u64],
    entries: &[u64],
    node_index: &mut [u16],
    child: &mut [u16],
) -> NextRead
    requires { (l.register_instances ≤ length keys.now) × (l.register_instances ≤ length kinds.now) × (l.node_instances ≤ length names.now) × (l.node_instances ≤ length wanted.now) × (l.node_instances ≤ length places.now) }
    ensures result_value { (of : LimitSet) (c : Chip)
        → file_at (limits_of of) s.now true 0 ≡ done c l.end
        → roots_at s.now true l.roots_at ≡ done c.roots l.end
        → TablesOf c (take l.register_instances keys.now) (take l.register_instances kinds.now) (take l.node_instances names.now) (take l.node_instances wanted.now) (take l.node_instances places.now)
        → EntriesIn c l keys.now kinds.now entries.now
        → IndexOf index.now (take l.register_instances keys.now)
        → length (node_entries c) * 64 ≤ length child.old
        → next_parsed result ≡ judged_at (reference_faults c ++ cycle_faults c) l.end }
    ensures linked { (of : LimitSet) (c : Chip) (next : ℕ)
        → result ≡ NextRead.Next next
        → file_at (limits_of of) s.now true 0 ≡ done c l.end
        → TablesOf c (take l.register_instances keys.now) (take l.register_instances kinds.now) (take l.node_instances names.now) (take l.node_instances wanted.now) (take l.node_instances places.now)
        → EntriesIn c l keys.now kinds.now entries.now
        → IndexOf index.now (take l.register_instances keys.now)
        → Linked c child.old child.new }
{
    let m = l.register_instances;
    let n = l.node_instances;
    let k = usable(l.fits, n, entries.len());
    table_faults(
        s,
        l.roots_at,
        &keys[..m],
        &kinds[..m],
        &names[..n],
        &wanted[..n],
        &places[..n],
        &entries[..k],
        index,
        node_index,
        child,
    )
}

// The layout of a file that is accepted, and its tables; or the refusal that the rules name first. Where the layout is read and a table is too short for it, 43 at 0. What a refusal
// leaves in the tables is free.
pub fn examine_in(
    s: &[u8],
    of: LimitSet,
    keys: &mut [u64],
    kinds: &mut [u64],
    index: &mut [u16],
    names: &mut [u64],
    wanted: &mut [u64],
    places: &mut [u64],
    node_index: &mut [u16],
    child: &mut [u16],
    entries: &mut [u64],
) -> LayoutRead
    ensures result_value { making layout_values (layout_parsed result)
        ≡ cond (room_for (limits_of of) (lengths_of keys.old kinds.old names.old wanted.old places.old child.old) s.now)
        (making counts_of (verdict (limits_of of) s.now)) (refused 43 0) }
    ensures examined { (l : Layout)
        → result ≡ LayoutRead.Done l
        → Examined of s.now l keys.new index.new names.new places.new child.new }
{
    let w = whole(s, of, keys, kinds, index, names, wanted, places, entries);
    match w {
        LayoutRead::Done(l) => {
            if has_room(
                l,
                keys.len(),
                kinds.len(),
                names.len(),
                wanted.len(),
                places.len(),
                child.len(),
            ) {
                let f = judge(
                    s, l, keys, kinds, index, names, wanted, places, entries, node_index, child,
                );
                match f {
                    NextRead::Next(_) => {
                        return LayoutRead::Done(l);
                    }
                    NextRead::Refused(r) => {
                        return LayoutRead::Refused(r);
                    }
                }
            }
            LayoutRead::Refused(Refusal {
                kind: Kind::TableTooShort,
                place: 0,
            })
        }
        LayoutRead::Refused(r) => LayoutRead::Refused(r),
    }
}
