// What isolation finds by the tables of an accepted file, and its answer by a list.
ghost use Rattle.std.specs.Prelude.{true, cond, ◌≡◌, length};
ghost use Rattle.limits.specs.declared.LimitSet.{LimitSet};
ghost use Rattle.limits.specs.Limits.{limits_of};
ghost use Rattle.format.specs.FileLayout.{roots_at as roots_from};
ghost use Rattle.format.specs.Parsed.{done};
ghost use Rattle.reader.specs.Examined.{Examined};
ghost use Rattle.isolation.specs.Outcome.{outcome_of, refused_outcome, is_exact, stopped, find, isolate};
ghost use Rattle.isolation.specs.Rows.{found_of, RowsWithin, is_found};
ghost use Rattle.isolation.specs.Ready.{Tabled, Ready, both_fit, tables_fit};

use crate::active::{first_unread, readings_fit};
use crate::reach::reach;
use crate::written::write_found;
use crate::{Isolation, Kept};
use format::{Kind, Refusal, number};
use listing::keep_list;
use reader::Layout;
use reader::wanted::wanted_root;

// Refusal 18, or the rows of the listed bits, where the type has a root and the readings fit. A rule is evaluated as the walk takes its node instance. Once every reading that is needed is known, `places` takes the heads of the rows and `unread` their words.
fn settle(
    file: &[u8],
    model: u64,
    slot: u8,
    attention: u8,
    words: &[u64],
    read: &[u8],
    root: usize,
    index: &[u16],
    keys: &[u64],
    nodes: &[u64],
    places: &mut [u64],
    children: &[u16],
    active: &mut [u64],
    unread: &mut [u64],
) -> Result<Kept, Refusal>
    requires { (length active.old ≡ length places.old) × (length unread.old ≡ length places.old) }
    ensures unread_after { (of : LimitSet) (t : Ready of file.now attention words.now read.now keys.now index.now nodes.now places.old children.now root)
        → model ≡ t.tabled.chip.model
        → found_of attention result places.new unread.new ≡ find (limits_of of) slot file.now attention words.now read.now }
    ensures rows_within { RowsWithin result places.old unread.old }
{
    let w = reach(
        file, attention, root, index, keys, places, children, words, read, active, unread,
    );
    let marks = w.marks;
    let steps = w.steps;
    let u = first_unread(&marks, unread, places.len());
    if u != 0 {
        return Err(Refusal {
            kind: Kind::RegisterUnread,
            place: u,
        });
    }
    let rows = keep_list(places, unread, model, slot, nodes, &marks, active, children);
    Ok(Kept { rows, steps })
}

// Refusals 15 to 18, or the rows of the listed bits, by the tables of an accepted file. `active` and `unread` take what its rules give; then `places` takes the heads of the rows and `unread` their words.
fn by_tables(
    file: &[u8],
    model: u64,
    roots_at: usize,
    slot: u8,
    attention: u8,
    words: &[u64],
    read: &[u8],
    index: &[u16],
    keys: &[u64],
    nodes: &[u64],
    places: &mut [u64],
    children: &[u16],
    active: &mut [u64],
    unread: &mut [u64],
) -> Result<Kept, Refusal>
    requires { (length active.old ≡ length places.old) × (length unread.old ≡ length places.old) }
    ensures unread_after { (of : LimitSet) (t : Tabled of file.now keys.now index.now nodes.now places.old children.now)
        → model ≡ t.chip.model
        → roots_from file.now true roots_at ≡ done t.chip.roots t.end
        → found_of attention result places.new unread.new ≡ find (limits_of of) slot file.now attention words.now read.now }
    ensures rows_within { RowsWithin result places.old unread.old }
{
    if attention < 1 {
        return Err(Refusal {
            kind: Kind::BadAttentionType,
            place: 0,
        });
    }
    if 5 < attention {
        return Err(Refusal {
            kind: Kind::BadAttentionType,
            place: 0,
        });
    }
    let root = wanted_root(file, roots_at, attention, nodes);
    if nodes.len() <= root {
        return Err(Refusal {
            kind: Kind::NoRoot,
            place: 0,
        });
    }
    if readings_fit(keys.len(), words, read) {
        return settle(
            file, model, slot, attention, words, read, root, index, keys, nodes, places, children,
            active, unread,
        );
    }
    Err(Refusal {
        kind: Kind::ReadingsUnfit,
        place: 0,
    })
}

// Whether tables of these lengths have room for m register instances and n node instances.
fn has_room(
    m: usize,
    n: usize,
    keys: usize,
    nodes: usize,
    places: usize,
    active: usize,
    unread: usize,
) -> bool
    ensures { result ≡ tables_fit m n keys nodes places active unread }
{
    if keys < m {
        return false;
    }
    if nodes < n {
        return false;
    }
    if places < n {
        return false;
    }
    if active < n {
        return false;
    }
    n <= unread
}

// What is found in an accepted file, by its tables as the reader fills them: rows whose heads go to `places` and whose words to `unread`, or a refusal. `active` and `unread` are to have a place for each node instance, and where one has not, the answer is 43 at 0.
pub fn find_by(
    file: &[u8],
    l: Layout,
    slot: u8,
    attention: u8,
    words: &[u64],
    read: &[u8],
    index: &[u16],
    keys: &[u64],
    nodes: &[u64],
    places: &mut [u64],
    children: &[u16],
    active: &mut [u64],
    unread: &mut [u64],
) -> Result<Kept, Refusal>
    ensures unread_after { (of : LimitSet)
        → Examined of file.now l keys.now index.now nodes.now places.old children.now
        → found_of attention result places.new unread.new ≡ cond (both_fit l.node_instances (length active.old) (length unread.old))
        (find (limits_of of) slot file.now attention words.now read.now)
        (stopped 43 0) }
    ensures rows_within { RowsWithin result places.old unread.old }
{
    let m = l.register_instances;
    let n = l.node_instances;
    if has_room(
        m,
        n,
        keys.len(),
        nodes.len(),
        places.len(),
        active.len(),
        unread.len(),
    ) {
        return by_tables(
            file,
            l.model,
            l.roots_at,
            slot,
            attention,
            words,
            read,
            index,
            &keys[..m],
            &nodes[..n],
            &mut places[..n],
            children,
            &mut active[..n],
            &mut unread[..n],
        );
    }
    Err(Refusal {
        kind: Kind::TableTooShort,
        place: 0,
    })
}

// The answer for an accepted file, by its tables as the reader fills them. `active` and `unread` are to have a place for each node instance, and where one has not, the answer is 43 at 0. What the other lent tables hold after the call is free.
pub fn answer(
    file: &[u8],
    l: Layout,
    attention: u8,
    words: &[u64],
    read: &[u8],
    list: &mut [u8],
    index: &[u16],
    keys: &[u64],
    nodes: &[u64],
    places: &mut [u64],
    children: &[u16],
    active: &mut [u64],
    unread: &mut [u64],
) -> Result<Isolation, Refusal>
    ensures { (of : LimitSet)
        → Examined of file.now l keys.now index.now nodes.now places.old children.now
        → outcome_of result list.new ≡ cond (both_fit l.node_instances (length active.old) (length unread.old))
        (isolate (limits_of of) file.now attention words.now read.now list.old)
        (refused_outcome 43 0 list.old) }
{
    let f = find_by(
        file, l, 0, attention, words, read, index, keys, nodes, places, children, active, unread,
    );
    write_found(list, attention, f, places, unread)
}

// Whether what was found is not that a table was too short.
pub fn is_found(r: Result<Kept, Refusal>) -> bool
    ensures { result ≡ is_found r }
{
    match r {
        Ok(_) => true,
        Err(x) => {
            let kind = x.kind;
            number(kind) != 43
        }
    }
}

// Whether an answer is not that a table was too short.
pub fn is_exact(r: Result<Isolation, Refusal>) -> bool
    ensures { result ≡ is_exact r }
{
    match r {
        Ok(_) => true,
        Err(x) => {
            let kind = x.kind;
            number(kind) != 43
        }
    }
}
