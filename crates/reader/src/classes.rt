// The tables of the checker by the length of the file: a small file pays for small tables.
ghost use Rattle.std.specs.Prelude.{cond, ◌≡◌};
ghost use Rattle.limits.specs.Classes.{small, middle, large, full};
ghost use Rattle.limits.specs.Limits.{library_limits};
ghost use Rattle.format.specs.Parsed.{refused, making};
ghost use Rattle.format.specs.Verdict.{verdict, counts_of};
ghost use Rattle.reader.specs.declared.Layout.{Layout};
ghost use Rattle.reader.specs.declared.LayoutRead.{LayoutRead};
ghost use Rattle.reader.specs.Examined.{room_for};
ghost use Rattle.reader.specs.Layout.{layout_parsed, layout_at, layout_values};
ghost use Rattle.reader.specs.Classes.{class_room, is_exact};

use crate::LayoutRead;
use crate::examined::examine_in;
use format::number;
use limits::LimitSet;
use limits::classes::{
    FULL_NODES, FULL_REGISTERS, LARGE_NODES, LARGE_REGISTERS, MIDDLE_NODES, MIDDLE_REGISTERS,
    SMALL_NODES, SMALL_REGISTERS, larger_classes,
};

// Whether an answer is not that a table was too short.
fn is_exact(r: LayoutRead) -> bool
    ensures { result ≡ is_exact r }
{
    match r {
        LayoutRead::Done(_) => true,
        LayoutRead::Refused(x) => {
            let kind = x.kind;
            number(kind) != 43
        }
    }
}

// With the tables of the small class.
fn examine_small(s: &[u8]) -> LayoutRead
    ensures result_value { making layout_values (layout_parsed result) ≡ cond (room_for library_limits (class_room small) s.now) (making counts_of (verdict library_limits s.now)) (refused 43 0) }
    ensures result_value_2 { (l : Layout) → result ≡ LayoutRead.Done l → layout_parsed result ≡ layout_at library_limits s.now 0 }
{
    let mut keys = [0u64; SMALL_REGISTERS];
    let mut kinds = [0u64; SMALL_REGISTERS];
    let mut index = [0u16; SMALL_REGISTERS * 2 + 32];
    let mut names = [0u64; SMALL_NODES];
    let mut wanted = [0u64; SMALL_NODES];
    let mut places = [0u64; SMALL_NODES];
    let mut node_index = [0u16; SMALL_NODES * 2 + 32];
    let mut child = [0u16; SMALL_NODES * 64];
    let mut entries = [0u64; SMALL_NODES];
    examine_in(
        s,
        LimitSet::Library,
        &mut keys,
        &mut kinds,
        &mut index,
        &mut names,
        &mut wanted,
        &mut places,
        &mut node_index,
        &mut child,
        &mut entries,
    )
}

// With those of the middle one.
fn examine_middle(s: &[u8]) -> LayoutRead
    ensures result_value { making layout_values (layout_parsed result) ≡ cond (room_for library_limits (class_room middle) s.now) (making counts_of (verdict library_limits s.now)) (refused 43 0) }
    ensures result_value_2 { (l : Layout) → result ≡ LayoutRead.Done l → layout_parsed result ≡ layout_at library_limits s.now 0 }
{
    let mut keys = [0u64; MIDDLE_REGISTERS];
    let mut kinds = [0u64; MIDDLE_REGISTERS];
    let mut index = [0u16; MIDDLE_REGISTERS * 2 + 32];
    let mut names = [0u64; MIDDLE_NODES];
    let mut wanted = [0u64; MIDDLE_NODES];
    let mut places = [0u64; MIDDLE_NODES];
    let mut node_index = [0u16; MIDDLE_NODES * 2 + 32];
    let mut child = [0u16; MIDDLE_NODES * 64];
    let mut entries = [0u64; MIDDLE_NODES];
    examine_in(
        s,
        LimitSet::Library,
        &mut keys,
        &mut kinds,
        &mut index,
        &mut names,
        &mut wanted,
        &mut places,
        &mut node_index,
        &mut child,
        &mut entries,
    )
}

// With those of the large one.
fn examine_large(s: &[u8]) -> LayoutRead
    ensures result_value { making layout_values (layout_parsed result) ≡ cond (room_for library_limits (class_room large) s.now) (making counts_of (verdict library_limits s.now)) (refused 43 0) }
    ensures result_value_2 { (l : Layout) → result ≡ LayoutRead.Done l → layout_parsed result ≡ layout_at library_limits s.now 0 }
{
    let mut keys = [0u64; LARGE_REGISTERS];
    let mut kinds = [0u64; LARGE_REGISTERS];
    let mut index = [0u16; LARGE_REGISTERS * 2 + 32];
    let mut names = [0u64; LARGE_NODES];
    let mut wanted = [0u64; LARGE_NODES];
    let mut places = [0u64; LARGE_NODES];
    let mut node_index = [0u16; LARGE_NODES * 2 + 32];
    let mut child = [0u16; LARGE_NODES * 64];
    let mut entries = [0u64; LARGE_NODES];
    examine_in(
        s,
        LimitSet::Library,
        &mut keys,
        &mut kinds,
        &mut index,
        &mut names,
        &mut wanted,
        &mut places,
        &mut node_index,
        &mut child,
        &mut entries,
    )
}

// With those of the full one.
fn examine_full(s: &[u8]) -> LayoutRead
    ensures result_value { making layout_values (layout_parsed result) ≡ cond (room_for library_limits (class_room full) s.now) (making counts_of (verdict library_limits s.now)) (refused 43 0) }
    ensures result_value_2 { (l : Layout) → result ≡ LayoutRead.Done l → layout_parsed result ≡ layout_at library_limits s.now 0 }
{
    let mut keys = [0u64; FULL_REGISTERS];
    let mut kinds = [0u64; FULL_REGISTERS];
    let mut index = [0u16; FULL_REGISTERS * 2 + 32];
    let mut names = [0u64; FULL_NODES];
    let mut wanted = [0u64; FULL_NODES];
    let mut places = [0u64; FULL_NODES];
    let mut node_index = [0u16; FULL_NODES * 2 + 32];
    let mut child = [0u16; FULL_NODES * 64];
    let mut entries = [0u64; FULL_NODES];
    examine_in(
        s,
        LimitSet::Library,
        &mut keys,
        &mut kinds,
        &mut index,
        &mut names,
        &mut wanted,
        &mut places,
        &mut node_index,
        &mut child,
        &mut entries,
    )
}

// With the tables of a class that so many larger ones follow, and of a larger one where they are too short. It calls itself, so that no more tables are on the stack than one class has.
fn examine_with(s: &[u8], larger: usize) -> LayoutRead
    ensures result_value { making layout_values (layout_parsed result) ≡ making counts_of (verdict library_limits s.now) }
    ensures result_value_2 { (l : Layout) → result ≡ LayoutRead.Done l → layout_parsed result ≡ layout_at library_limits s.now 0 }
{
    if larger == 0 {
        return examine_full(s);
    }
    let e = match larger {
        1 => examine_large(s),
        2 => examine_middle(s),
        _ => examine_small(s),
    };
    if is_exact(e) {
        return e;
    }
    examine_with(s, larger - 1)
}

// The layout of a file that is accepted, or the refusal that the rules name first. It takes the tables that most files of such a length fit, and larger ones where they are too short.
pub fn examine(s: &[u8]) -> LayoutRead
    ensures result_value { making layout_values (layout_parsed result) ≡ making counts_of (verdict library_limits s.now) }
    ensures result_value_2 { (l : Layout) → result ≡ LayoutRead.Done l → layout_parsed result ≡ layout_at library_limits s.now 0 }
{
    examine_with(s, larger_classes(s.len()))
}
