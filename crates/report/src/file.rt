// Isolation with a readings file.
ghost use Rattle.std.specs.Prelude.{◌≤◌, cond, ◌&&◌, ◌≡◌, length};
ghost use Rattle.limits.specs.declared.LimitSet.{LimitSet};
ghost use Rattle.limits.specs.Classes.{small, middle, large};
ghost use Rattle.limits.specs.Limits.{program_limits, limits_of};
ghost use Rattle.reader.specs.Classes.{class_room};
ghost use Rattle.reader.specs.Examined.{lengths_of, room_for, Examined};
ghost use Rattle.readings.specs.ReadingsFile.{words_of, read_of, decodes, lent_after};
ghost use Rattle.isolation.specs.Outcome.{outcome_of, refused_outcome};
ghost use Rattle.isolation.specs.Ready.{both_fit, room_in};
ghost use Rattle.report.specs.Report.{isolate_file};

use format::{Kind, Refusal};
use isolation::Isolation;
use isolation::answer::{answer, is_exact};
use limits::LimitSet;
use limits::classes::{
    LARGE_NODES, LARGE_REGISTERS, MIDDLE_NODES, MIDDLE_REGISTERS, SMALL_NODES, SMALL_REGISTERS,
    larger_classes,
};
use reader::examined::examine_in;
use reader::{Layout, LayoutRead};
use readings::decode;

// Whether two tables of these lengths have a place for each of n.
fn both_fit(n: usize, first: usize, second: usize) -> bool
    ensures { result ≡ both_fit n first second }
{
    n <= first && n <= second
}

// Decodes a readings file, and says how many readings there then are. One that does not fit has none.
fn decode_named(readings: &[u8], keys: &[u64], words: &mut [u64], read: &mut [u8]) -> usize
    ensures count { result ≡ cond (decodes keys.now readings.now words.old read.old) (length keys.now) 0 }
    ensures few { result ≤ length keys.now }
    ensures words { words.new
        ≡ lent_after (decodes keys.now readings.now words.old read.old) (words_of keys.now readings.now) words.old }
    ensures read { read.new
        ≡ lent_after (decodes keys.now readings.now words.old read.old) (read_of keys.now readings.now) read.old }
{
    match decode(readings, keys, words, read) {
        Ok(()) => keys.len(),
        Err(_) => 0,
    }
}

// The answer for an accepted file, by its tables as the reader fills them and a readings file, which is decoded to `words` and `read`. No readings do not fit: a file has a register instance. Where a table has no place for each instance, 43 at 0. What the other lent tables hold after the call is free.
fn isolate_named(
    file: &[u8],
    l: Layout,
    attention: u8,
    readings: &[u8],
    list: &mut [u8],
    index: &[u16],
    keys: &[u64],
    names: &[u64],
    places: &mut [u64],
    child: &[u16],
    active: &mut [u64],
    unread: &mut [u64],
    words: &mut [u64],
    read: &mut [u8],
) -> Result<Isolation, Refusal>
    ensures { (of : LimitSet)
        → Examined of file.now l keys.now index.now names.now places.old child.now
        → outcome_of result list.new
        ≡ cond (both_fit l.register_instances (length words.old) (length read.old) && both_fit l.node_instances (length active.old) (length unread.old))
        (isolate_file (limits_of of) file.now attention readings.now list.old)
        (refused_outcome 43 0 list.old) }
{
    let m = l.register_instances;
    if keys.len() < m {
        return Err(Refusal {
            kind: Kind::TableTooShort,
            place: 0,
        });
    }
    if !both_fit(m, words.len(), read.len()) {
        return Err(Refusal {
            kind: Kind::TableTooShort,
            place: 0,
        });
    }
    let k = decode_named(readings, &keys[..m], words, read);
    answer(
        file,
        l,
        attention,
        &words[..k],
        &read[..k],
        list,
        index,
        keys,
        names,
        places,
        child,
        active,
        unread,
    )
}

// Isolation in lent tables. Where one of them is too short for the file, 43 at 0, and the list keeps its bytes; `unread` is to be as long as `names`, and serves the checker for the child entries first; `words` and `read` are to be as long as `keys`. What the other tables then hold is free.
fn isolate_in(
    file: &[u8],
    attention: u8,
    readings: &[u8],
    list: &mut [u8],
    keys: &mut [u64],
    kinds: &mut [u64],
    index: &mut [u16],
    names: &mut [u64],
    wanted: &mut [u64],
    places: &mut [u64],
    node_index: &mut [u16],
    child: &mut [u16],
    unread: &mut [u64],
    words: &mut [u64],
    read: &mut [u8],
) -> Result<Isolation, Refusal>
    ensures { outcome_of result list.new
        ≡ cond (both_fit (length keys.old) (length words.old) (length read.old) && room_in program_limits (lengths_of keys.old kinds.old names.old wanted.old places.old child.old) (length unread.old) file.now)
        (isolate_file program_limits file.now attention readings.now list.old)
        (refused_outcome 43 0 list.old) }
{
    if !both_fit(keys.len(), words.len(), read.len()) {
        return Err(Refusal {
            kind: Kind::TableTooShort,
            place: 0,
        });
    }
    if unread.len() < names.len() {
        return Err(Refusal {
            kind: Kind::TableTooShort,
            place: 0,
        });
    }
    let e = examine_in(
        file,
        LimitSet::Program,
        keys,
        kinds,
        index,
        names,
        wanted,
        places,
        node_index,
        child,
        unread,
    );
    match e {
        LayoutRead::Done(l) => isolate_named(
            file, l, attention, readings, list, index, keys, names, places, child, wanted, unread,
            words, read,
        ),
        LayoutRead::Refused(r) => Err(r),
    }
}

// With the tables of the small class.
fn isolate_small(
    file: &[u8],
    attention: u8,
    readings: &[u8],
    list: &mut [u8],
) -> Result<Isolation, Refusal>
    ensures { outcome_of result list.new
        ≡ cond (room_for program_limits (class_room small) file.now)
        (isolate_file program_limits file.now attention readings.now list.old)
        (refused_outcome 43 0 list.old) }
{
    let mut keys = [0u64; SMALL_REGISTERS];
    let mut kinds = [0u64; SMALL_REGISTERS];
    let mut index = [0u16; SMALL_REGISTERS * 2 + 32];
    let mut names = [0u64; SMALL_NODES];
    let mut wanted = [0u64; SMALL_NODES];
    let mut places = [0u64; SMALL_NODES];
    let mut node_index = [0u16; SMALL_NODES * 2 + 32];
    let mut child = [0u16; SMALL_NODES * 64];
    let mut unread = [0u64; SMALL_NODES];
    let mut words = [0u64; SMALL_REGISTERS];
    let mut read = [0u8; SMALL_REGISTERS];
    isolate_in(
        file,
        attention,
        readings,
        list,
        &mut keys,
        &mut kinds,
        &mut index,
        &mut names,
        &mut wanted,
        &mut places,
        &mut node_index,
        &mut child,
        &mut unread,
        &mut words,
        &mut read,
    )
}

// With those of the middle one.
fn isolate_middle(
    file: &[u8],
    attention: u8,
    readings: &[u8],
    list: &mut [u8],
) -> Result<Isolation, Refusal>
    ensures { outcome_of result list.new
        ≡ cond (room_for program_limits (class_room middle) file.now)
        (isolate_file program_limits file.now attention readings.now list.old)
        (refused_outcome 43 0 list.old) }
{
    let mut keys = [0u64; MIDDLE_REGISTERS];
    let mut kinds = [0u64; MIDDLE_REGISTERS];
    let mut index = [0u16; MIDDLE_REGISTERS * 2 + 32];
    let mut names = [0u64; MIDDLE_NODES];
    let mut wanted = [0u64; MIDDLE_NODES];
    let mut places = [0u64; MIDDLE_NODES];
    let mut node_index = [0u16; MIDDLE_NODES * 2 + 32];
    let mut child = [0u16; MIDDLE_NODES * 64];
    let mut unread = [0u64; MIDDLE_NODES];
    let mut words = [0u64; MIDDLE_REGISTERS];
    let mut read = [0u8; MIDDLE_REGISTERS];
    isolate_in(
        file,
        attention,
        readings,
        list,
        &mut keys,
        &mut kinds,
        &mut index,
        &mut names,
        &mut wanted,
        &mut places,
        &mut node_index,
        &mut child,
        &mut unread,
        &mut words,
        &mut read,
    )
}

// With those of the large one, which has room for every file of the program.
fn isolate_large(
    file: &[u8],
    attention: u8,
    readings: &[u8],
    list: &mut [u8],
) -> Result<Isolation, Refusal>
    ensures { outcome_of result list.new
        ≡ cond (room_for program_limits (class_room large) file.now)
        (isolate_file program_limits file.now attention readings.now list.old)
        (refused_outcome 43 0 list.old) }
{
    let mut keys = [0u64; LARGE_REGISTERS];
    let mut kinds = [0u64; LARGE_REGISTERS];
    let mut index = [0u16; LARGE_REGISTERS * 2 + 32];
    let mut names = [0u64; LARGE_NODES];
    let mut wanted = [0u64; LARGE_NODES];
    let mut places = [0u64; LARGE_NODES];
    let mut node_index = [0u16; LARGE_NODES * 2 + 32];
    let mut child = [0u16; LARGE_NODES * 64];
    let mut unread = [0u64; LARGE_NODES];
    let mut words = [0u64; LARGE_REGISTERS];
    let mut read = [0u8; LARGE_REGISTERS];
    isolate_in(
        file,
        attention,
        readings,
        list,
        &mut keys,
        &mut kinds,
        &mut index,
        &mut names,
        &mut wanted,
        &mut places,
        &mut node_index,
        &mut child,
        &mut unread,
        &mut words,
        &mut read,
    )
}

// With the tables of a class that so many larger ones follow, and of a larger one where they are too short; the last one is never needed. It calls itself, so that no more tables are on the stack than one class has.
fn isolate_with(
    file: &[u8],
    attention: u8,
    readings: &[u8],
    list: &mut [u8],
    larger: usize,
) -> Result<Isolation, Refusal>
    ensures { outcome_of result list.new ≡ isolate_file program_limits file.now attention readings.now list.old }
{
    if larger < 2 {
        return isolate_large(file, attention, readings, list);
    }
    if larger == 2 {
        let i = isolate_middle(file, attention, readings, list);
        if is_exact(i) {
            return i;
        }
        return isolate_with(file, attention, readings, list, larger - 1);
    }
    let i = isolate_small(file, attention, readings, list);
    if is_exact(i) {
        return i;
    }
    isolate_with(file, attention, readings, list, larger - 1)
}

// Isolation of a file with the readings of a readings file, by the program's limits. A readings file that does not fit is refused with 17, after the file's own refusals, 15 and 16. It takes the tables that most files of such a length fit, and larger ones where they are too short.
pub fn isolate_file(
    file: &[u8],
    attention: u8,
    readings: &[u8],
    list: &mut [u8],
) -> Result<Isolation, Refusal>
    ensures { outcome_of result list.new ≡ isolate_file program_limits file.now attention readings.now list.old }
{
    isolate_with(file, attention, readings, list, larger_classes(file.len()))
}
