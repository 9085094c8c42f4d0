// Isolation in tables by the length of the file: a small file pays for small tables.
ghost use Rattle.std.specs.Prelude.{◌≤◌, true, cond, ◌≡◌, length};
ghost use Rattle.limits.specs.Classes.{small, middle, large, full};
ghost use Rattle.limits.specs.Limits.{library_limits};
ghost use Rattle.reader.specs.Classes.{class_room};
ghost use Rattle.reader.specs.Examined.{lengths_of, room_for};
ghost use Rattle.isolation.specs.Outcome.{outcome_of, refused_outcome, stopped, find, isolate};
ghost use Rattle.isolation.specs.Rows.{found_of, RowsWithin, is_found, lent_room};
ghost use Rattle.isolation.specs.Ready.{room_in};

use crate::answer::{find_by, is_exact, is_found};
use crate::written::write_found;
use crate::{Isolation, Kept};
use format::{Kind, Refusal};
use limits::LimitSet;
use limits::classes::{
    FULL_NODES, FULL_REGISTERS, LARGE_NODES, LARGE_REGISTERS, MIDDLE_NODES, MIDDLE_REGISTERS,
    SMALL_NODES, SMALL_REGISTERS,
};
use reader::LayoutRead;
use reader::examined::examine_in;

// What is found, in lent tables. Where one of them is too short for the file, 43 at 0; `unread` is to be as long as `names`, and serves the checker for the child entries first. The heads of the rows go to `places` and their words to `unread`; what else the tables then hold is free.
fn find_in(
    file: &[u8],
    slot: u8,
    attention: u8,
    words: &[u64],
    read: &[u8],
    keys: &mut [u64],
    kinds: &mut [u64],
    index: &mut [u16],
    names: &mut [u64],
    wanted: &mut [u64],
    places: &mut [u64],
    node_index: &mut [u16],
    child: &mut [u16],
    unread: &mut [u64],
) -> Result<Kept, Refusal>
    ensures unread_after { found_of attention result places.new unread.new
        ≡ cond (room_in library_limits (lengths_of keys.old kinds.old names.old wanted.old places.old child.old) (length unread.old) file.now)
        (find library_limits slot file.now attention words.now read.now)
        (stopped 43 0) }
    ensures rows_within { RowsWithin result places.old unread.old }
{
    if unread.len() < names.len() {
        return Err(Refusal {
            kind: Kind::TableTooShort,
            place: 0,
        });
    }
    let e = examine_in(
        file,
        LimitSet::Library,
        keys,
        kinds,
        index,
        names,
        wanted,
        places,
        node_index,
        child,
        unread,
    );
    match e {
        LayoutRead::Done(l) => find_by(
            file, l, slot, attention, words, read, index, keys, names, places, child, wanted,
            unread,
        ),
        LayoutRead::Refused(r) => Err(r),
    }
}

// With the tables of the small class: its own, and two that are lent.
fn find_small(
    file: &[u8],
    slot: u8,
    attention: u8,
    words: &[u64],
    read: &[u8],
    places: &mut [u64],
    unread: &mut [u64],
) -> Result<Kept, Refusal>
    ensures unread_after { found_of attention result places.new unread.new
        ≡ cond (room_in library_limits (lent_room small (length places.old)) (length unread.old) file.now)
        (find library_limits slot file.now attention words.now read.now)
        (stopped 43 0) }
    ensures rows_within { RowsWithin result places.old unread.old }
{
    let mut keys = [0u64; SMALL_REGISTERS];
    let mut kinds = [0u64; SMALL_REGISTERS];
    let mut index = [0u16; SMALL_REGISTERS * 2 + 32];
    let mut names = [0u64; SMALL_NODES];
    let mut wanted = [0u64; SMALL_NODES];
    let mut node_index = [0u16; SMALL_NODES * 2 + 32];
    let mut child = [0u16; SMALL_NODES * 64];
    find_in(
        file,
        slot,
        attention,
        words,
        read,
        &mut keys,
        &mut kinds,
        &mut index,
        &mut names,
        &mut wanted,
        places,
        &mut node_index,
        &mut child,
        unread,
    )
}

// With those of the middle one.
fn find_middle(
    file: &[u8],
    slot: u8,
    attention: u8,
    words: &[u64],
    read: &[u8],
    places: &mut [u64],
    unread: &mut [u64],
) -> Result<Kept, Refusal>
    ensures unread_after { found_of attention result places.new unread.new
        ≡ cond (room_in library_limits (lent_room middle (length places.old)) (length unread.old) file.now)
        (find library_limits slot file.now attention words.now read.now)
        (stopped 43 0) }
    ensures rows_within { RowsWithin result places.old unread.old }
{
    let mut keys = [0u64; MIDDLE_REGISTERS];
    let mut kinds = [0u64; MIDDLE_REGISTERS];
    let mut index = [0u16; MIDDLE_REGISTERS * 2 + 32];
    let mut names = [0u64; MIDDLE_NODES];
    let mut wanted = [0u64; MIDDLE_NODES];
    let mut node_index = [0u16; MIDDLE_NODES * 2 + 32];
    let mut child = [0u16; MIDDLE_NODES * 64];
    find_in(
        file,
        slot,
        attention,
        words,
        read,
        &mut keys,
        &mut kinds,
        &mut index,
        &mut names,
        &mut wanted,
        places,
        &mut node_index,
        &mut child,
        unread,
    )
}

// With those of the large one.
fn find_large(
    file: &[u8],
    slot: u8,
    attention: u8,
    words: &[u64],
    read: &[u8],
    places: &mut [u64],
    unread: &mut [u64],
) -> Result<Kept, Refusal>
    ensures unread_after { found_of attention result places.new unread.new
        ≡ cond (room_in library_limits (lent_room large (length places.old)) (length unread.old) file.now)
        (find library_limits slot file.now attention words.now read.now)
        (stopped 43 0) }
    ensures rows_within { RowsWithin result places.old unread.old }
{
    let mut keys = [0u64; LARGE_REGISTERS];
    let mut kinds = [0u64; LARGE_REGISTERS];
    let mut index = [0u16; LARGE_REGISTERS * 2 + 32];
    let mut names = [0u64; LARGE_NODES];
    let mut wanted = [0u64; LARGE_NODES];
    let mut node_index = [0u16; LARGE_NODES * 2 + 32];
    let mut child = [0u16; LARGE_NODES * 64];
    find_in(
        file,
        slot,
        attention,
        words,
        read,
        &mut keys,
        &mut kinds,
        &mut index,
        &mut names,
        &mut wanted,
        places,
        &mut node_index,
        &mut child,
        unread,
    )
}

// With those of the full one.
fn find_full(
    file: &[u8],
    slot: u8,
    attention: u8,
    words: &[u64],
    read: &[u8],
    places: &mut [u64],
    unread: &mut [u64],
) -> Result<Kept, Refusal>
    ensures unread_after { found_of attention result places.new unread.new
        ≡ cond (room_in library_limits (lent_room full (length places.old)) (length unread.old) file.now)
        (find library_limits slot file.now attention words.now read.now)
        (stopped 43 0) }
    ensures rows_within { RowsWithin result places.old unread.old }
{
    let mut keys = [0u64; FULL_REGISTERS];
    let mut kinds = [0u64; FULL_REGISTERS];
    let mut index = [0u16; FULL_REGISTERS * 2 + 32];
    let mut names = [0u64; FULL_NODES];
    let mut wanted = [0u64; FULL_NODES];
    let mut node_index = [0u16; FULL_NODES * 2 + 32];
    let mut child = [0u16; FULL_NODES * 64];
    find_in(
        file,
        slot,
        attention,
        words,
        read,
        &mut keys,
        &mut kinds,
        &mut index,
        &mut names,
        &mut wanted,
        places,
        &mut node_index,
        &mut child,
        unread,
    )
}

// Isolation of one chip with the tables of the small class.
fn isolate_small(
    file: &[u8],
    attention: u8,
    words: &[u64],
    read: &[u8],
    list: &mut [u8],
) -> Result<Isolation, Refusal>
    ensures { outcome_of result list.new
        ≡ cond (room_for library_limits (class_room small) file.now)
        (isolate library_limits file.now attention words.now read.now list.old)
        (refused_outcome 43 0 list.old) }
{
    let mut places = [0u64; SMALL_NODES];
    let mut unread = [0u64; SMALL_NODES];
    let f = find_small(file, 0, attention, words, read, &mut places, &mut unread);
    write_found(list, attention, f, &places, &unread)
}

// With those of the middle one.
fn isolate_middle(
    file: &[u8],
    attention: u8,
    words: &[u64],
    read: &[u8],
    list: &mut [u8],
) -> Result<Isolation, Refusal>
    ensures { outcome_of result list.new
        ≡ cond (room_for library_limits (class_room middle) file.now)
        (isolate library_limits file.now attention words.now read.now list.old)
        (refused_outcome 43 0 list.old) }
{
    let mut places = [0u64; MIDDLE_NODES];
    let mut unread = [0u64; MIDDLE_NODES];
    let f = find_middle(file, 0, attention, words, read, &mut places, &mut unread);
    write_found(list, attention, f, &places, &unread)
}

// With those of the large one.
fn isolate_large(
    file: &[u8],
    attention: u8,
    words: &[u64],
    read: &[u8],
    list: &mut [u8],
) -> Result<Isolation, Refusal>
    ensures { outcome_of result list.new
        ≡ cond (room_for library_limits (class_room large) file.now)
        (isolate library_limits file.now attention words.now read.now list.old)
        (refused_outcome 43 0 list.old) }
{
    let mut places = [0u64; LARGE_NODES];
    let mut unread = [0u64; LARGE_NODES];
    let f = find_large(file, 0, attention, words, read, &mut places, &mut unread);
    write_found(list, attention, f, &places, &unread)
}

// With those of the full one.
fn isolate_full(
    file: &[u8],
    attention: u8,
    words: &[u64],
    read: &[u8],
    list: &mut [u8],
) -> Result<Isolation, Refusal>
    ensures { outcome_of result list.new
        ≡ cond (room_for library_limits (class_room full) file.now)
        (isolate library_limits file.now attention words.now read.now list.old)
        (refused_outcome 43 0 list.old) }
{
    let mut places = [0u64; FULL_NODES];
    let mut unread = [0u64; FULL_NODES];
    let f = find_full(file, 0, attention, words, read, &mut places, &mut unread);
    write_found(list, attention, f, &places, &unread)
}

// With the tables of a class that so many larger ones follow, and of a larger one where they are too short. It calls itself, so that no more tables are on the stack than one class has.
pub fn isolate_with(
    file: &[u8],
    attention: u8,
    words: &[u64],
    read: &[u8],
    list: &mut [u8],
    larger: usize,
) -> Result<Isolation, Refusal>
    ensures { outcome_of result list.new ≡ isolate library_limits file.now attention words.now read.now list.old }
{
    if larger == 0 {
        return isolate_full(file, attention, words, read, list);
    }
    if larger == 1 {
        let i = isolate_large(file, attention, words, read, list);
        if is_exact(i) {
            return i;
        }
        return isolate_with(file, attention, words, read, list, larger - 1);
    }
    if larger == 2 {
        let i = isolate_middle(file, attention, words, read, list);
        if is_exact(i) {
            return i;
        }
        return isolate_with(file, attention, words, read, list, larger - 1);
    }
    let i = isolate_small(file, attention, words, read, list);
    if is_exact(i) {
        return i;
    }
    isolate_with(file, attention, words, read, list, larger - 1)
}

// What is found with the tables of a class that so many larger ones follow, and with those of a larger one where they are too short.
pub fn find_with(
    file: &[u8],
    slot: u8,
    attention: u8,
    words: &[u64],
    read: &[u8],
    heads: &mut [u64],
    rows: &mut [u64],
    larger: usize,
) -> Result<Kept, Refusal>
    ensures exact { is_found result ≡ true → found_of attention result heads.new rows.new ≡ find library_limits slot file.now attention words.now read.now }
    ensures enough { library_limits.node_instances ≤ length heads.old → library_limits.node_instances ≤ length rows.old → is_found result ≡ true }
    ensures within { RowsWithin result heads.old rows.old }
{
    if larger == 0 {
        return find_full(file, slot, attention, words, read, heads, rows);
    }
    if larger == 1 {
        let f = find_large(file, slot, attention, words, read, heads, rows);
        if is_found(f) {
            return f;
        }
        return find_with(file, slot, attention, words, read, heads, rows, larger - 1);
    }
    if larger == 2 {
        let f = find_middle(file, slot, attention, words, read, heads, rows);
        if is_found(f) {
            return f;
        }
        return find_with(file, slot, attention, words, read, heads, rows, larger - 1);
    }
    let f = find_small(file, slot, attention, words, read, heads, rows);
    if is_found(f) {
        return f;
    }
    find_with(file, slot, attention, words, read, heads, rows, larger - 1)
}
