// The nodes section of a file: in one pass where that reads it, otherwise by the exact reader.
ghost use Rattle.std.specs.Prelude.{ℕ, true, false, ◌&&◌, List, map, ◌≡◌, leb, ltb};
ghost use Rattle.limits.specs.Limits.{limits_of};
ghost use Rattle.format.specs.Lookup.{gathered, node_entries_of};
ghost use Rattle.format.specs.NodeLayout.{nodes_at};
ghost use Rattle.format.specs.Parsed.{done, making};
ghost use Rattle.format.specs.Tree.{Node};
ghost use Rattle.nodes.specs.Nodes.{node_section};
ghost use Rattle.index.specs.Rows.{Rows, filled, node_row};
ghost use Rattle.node_pass.specs.declared.SectionPass.{SectionPass};
ghost use Rattle.node_pass.specs.declared.section.NodesRead.{NodesRead};
ghost use Rattle.node_pass.specs.Section.{nodes_parsed, NodesKept, IndexKept};

use crate::SectionPass;
use crate::one_pass::pass_at;
use fields::SectionRead;
use format::Refusal;
use limits::LimitSet;
use tables::positions::enter_all;

// The nodes section, or a refusal.
#[derive(Clone, Copy)]
pub enum NodesRead {
    Section(SectionPass),
    Refused(Refusal),
}

// Whether tables of these lengths hold m names and kinds, and m is not too many for an index.
fn has_names(m: usize, keys: usize, kinds: usize) -> bool
    ensures { result ≡ leb m keys && (leb m kinds && ltb m 65536) }
{
    if keys < m {
        return false;
    }
    if kinds < m {
        return false;
    }
    m < 65536
}

// The nodes section by the exact reader. Nothing is said of the registers that it names.
fn exact_at(
    s: &[u8],
    at: usize,
    of: LimitSet,
    names: &mut [u64],
    wanted: &mut [u64],
    places: &mut [u64],
) -> NodesRead
    ensures result_value { nodes_parsed result ≡ making node_section (nodes_at (limits_of of).node_instances s.now true at) }
    ensures fits_value { (p : SectionPass) (ns : List Node) (end : ℕ)
        → result ≡ NodesRead.Section p
        → nodes_at (limits_of of).node_instances s.now true at ≡ done ns end
        → (p.fits ≡ false) × ◌≡◌ {A = Rows}
        (record { keys = names.new; kinds = wanted.new; places = places.new })
        (filled (record { keys = names.old; kinds = wanted.old; places = places.old }) 0 (map node_row (gathered node_entries_of ns))) }
{
    let e = index::node_rows::nodes_at(s, at, of, names, wanted, places);
    match e {
        SectionRead::Section(nodes, total, next) => NodesRead::Section(SectionPass {
            nodes,
            total,
            next,
            fits: false,
        }),
        SectionRead::Refused(r) => NodesRead::Refused(r),
    }
}

// The nodes section, with the rows of its node instances from the front of the tables on. The first m of `keys` and `kinds` are those of the register instances; where the tables hold them, an
// index over these keys is in `index` (m below 65,536). Where the answer says that every register fits that captures and rules name, what is kept of the children of each node instance is in `entries`.
pub fn nodes_at(
    s: &[u8],
    at: usize,
    of: LimitSet,
    m: usize,
    keys: &[u64],
    kinds: &[u64],
    index: &mut [u16],
    names: &mut [u64],
    wanted: &mut [u64],
    places: &mut [u64],
    entries: &mut [u64],
) -> NodesRead
    ensures result_value { nodes_parsed result ≡ making node_section (nodes_at (limits_of of).node_instances s.now true at) }
    ensures nodes_kept { (p : SectionPass) (ns : List Node) (end : ℕ)
        → result ≡ NodesRead.Section p
        → nodes_at (limits_of of).node_instances s.now true at ≡ done ns end
        → NodesKept m keys.now kinds.now
        (record { keys = names.old; kinds = wanted.old; places = places.old }) entries.old
        (record { keys = names.new; kinds = wanted.new; places = places.new }) entries.new p.fits ns }
    ensures index_kept { IndexKept m keys.now kinds.now index.new }
{
    if !has_names(m, keys.len(), kinds.len()) {
        return exact_at(s, at, of, names, wanted, places);
    }
    enter_all(&keys[..m], index);
    let p = pass_at(
        s,
        at,
        of,
        index,
        &keys[..m],
        &kinds[..m],
        names,
        wanted,
        places,
        entries,
    );
    if p.next == 0 {
        return exact_at(s, at, of, names, wanted, places);
    }
    NodesRead::Section(p)
}
