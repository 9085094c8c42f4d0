// The layout of a whole file.
ghost use Rattle.std.specs.Prelude.{ℕ, true, List, map, ◌≡◌};
ghost use Rattle.limits.specs.Limits.{limits_of};
ghost use Rattle.format.specs.Lookup.{gathered, entries_of};
ghost use Rattle.format.specs.NodeLayout.{nodes_at};
ghost use Rattle.format.specs.Parsed.{done};
ghost use Rattle.format.specs.RegisterLayout.{registers_at};
ghost use Rattle.format.specs.Tree.{Register, Node};
ghost use Rattle.index.specs.Rows.{filled, register_row, pair};
ghost use Rattle.node_pass.specs.Section.{NodesKept, IndexKept};
ghost use Rattle.reader.specs.declared.Layout.{Layout};
ghost use Rattle.reader.specs.declared.LayoutRead.{LayoutRead};
ghost use Rattle.reader.specs.Layout.{layout_parsed, layout_at, whole_at};

use crate::roots::{roots_at, start_at};
use crate::{Layout, LayoutRead};
use fields::{ByteRead, NumberRead, SectionRead};
use format::{Kind, Refusal};
use limits::{LimitSet, bytes};
use node_pass::section::{NodesRead, nodes_at};
use register_rows::registers_at;

// The layout of a file that starts at the slice's first byte, with the rows of its register instances and node instances, and an index over the names of the former. It reads each byte of the file at most once, but for the rules of a node instance that names a register that does not fit, for children whose bits do not rise, for the instances of a register whose numbers do not rise, for a section whose IDs do not, and for a nodes section that is refused or in which the instance numbers of a node do not rise.
fn layout(
    s: &[u8],
    of: LimitSet,
    keys: &mut [u64],
    kinds: &mut [u64],
    index: &mut [u16],
    names: &mut [u64],
    wanted: &mut [u64],
    places: &mut [u64],
    entries: &mut [u64],
) -> LayoutRead
    ensures result_value { layout_parsed result ≡ layout_at (limits_of of) s.now 0 }
    ensures nodes_kept { (l : Layout) (ns : List Node) (m : ℕ)
        → result ≡ LayoutRead.Done l
        → nodes_at (limits_of of).node_instances s.now true l.nodes_at ≡ done ns m
        → NodesKept l.register_instances keys.new kinds.new
        (record { keys = names.old; kinds = wanted.old; places = places.old }) entries.old
        (record { keys = names.new; kinds = wanted.new; places = places.new }) entries.new l.fits ns }
    ensures kinds_after { (l : Layout) (rs : List Register) (m : ℕ)
        → result ≡ LayoutRead.Done l
        → registers_at (limits_of of).register_instances s.now true l.registers_at ≡ done rs m
        → pair keys.new kinds.new ≡ filled (pair keys.old kinds.old) 0 (map register_row (gathered entries_of rs)) }
    ensures index_kept { (l : Layout)
        → result ≡ LayoutRead.Done l
        → IndexKept l.register_instances keys.new kinds.new index.new }
{
    let start = start_at(s, 0);
    match start {
        NumberRead::Number(model, a) => {
            let first = registers_at(s, a, of, keys, kinds);
            match first {
                SectionRead::Section(registers, register_instances, b) => {
                    let second = nodes_at(
                        s,
                        b,
                        of,
                        register_instances,
                        keys,
                        kinds,
                        index,
                        names,
                        wanted,
                        places,
                        entries,
                    );
                    match second {
                        NodesRead::Section(p) => {
                            let third = roots_at(s, p.next);
                            match third {
                                ByteRead::Byte(roots, end) => LayoutRead::Done(Layout {
                                    model,
                                    registers,
                                    register_instances,
                                    nodes: p.nodes,
                                    node_instances: p.total,
                                    roots: roots as usize,
                                    registers_at: a,
                                    nodes_at: b,
                                    roots_at: p.next,
                                    end,
                                    fits: p.fits,
                                }),
                                ByteRead::Refused(r) => LayoutRead::Refused(r),
                            }
                        }
                        NodesRead::Refused(r) => LayoutRead::Refused(r),
                    }
                }
                SectionRead::Refused(r) => LayoutRead::Refused(r),
            }
        }
        NumberRead::Refused(r) => LayoutRead::Refused(r),
    }
}

// The layout of a whole file that is not too long and ends with its last root, with the rows of its register instances and node instances.
pub fn whole(
    s: &[u8],
    of: LimitSet,
    keys: &mut [u64],
    kinds: &mut [u64],
    index: &mut [u16],
    names: &mut [u64],
    wanted: &mut [u64],
    places: &mut [u64],
    entries: &mut [u64],
) -> LayoutRead
    ensures result_value { layout_parsed result ≡ whole_at (limits_of of) s.now }
    ensures nodes_kept { (l : Layout) (ns : List Node) (m : ℕ)
        → result ≡ LayoutRead.Done l
        → nodes_at (limits_of of).node_instances s.now true l.nodes_at ≡ done ns m
        → NodesKept l.register_instances keys.new kinds.new
        (record { keys = names.old; kinds = wanted.old; places = places.old }) entries.old
        (record { keys = names.new; kinds = wanted.new; places = places.new }) entries.new l.fits ns }
    ensures kinds_after { (l : Layout) (rs : List Register) (m : ℕ)
        → result ≡ LayoutRead.Done l
        → registers_at (limits_of of).register_instances s.now true l.registers_at ≡ done rs m
        → pair keys.new kinds.new ≡ filled (pair keys.old kinds.old) 0 (map register_row (gathered entries_of rs)) }
    ensures index_kept { (l : Layout)
        → result ≡ LayoutRead.Done l
        → IndexKept l.register_instances keys.new kinds.new index.new }
{
    if bytes(of) < s.len() {
        return LayoutRead::Refused(Refusal {
            kind: Kind::FileTooLong,
            place: 0,
        });
    }
    let read = layout(s, of, keys, kinds, index, names, wanted, places, entries);
    match read {
        LayoutRead::Done(l) => {
            let end = l.end;
            if end < s.len() {
                return LayoutRead::Refused(Refusal {
                    kind: Kind::BytesAfterEnd,
                    place: end,
                });
            }
            LayoutRead::Done(l)
        }
        LayoutRead::Refused(r) => LayoutRead::Refused(r),
    }
}
