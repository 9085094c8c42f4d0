// The children of node instances whose layout was read: each is looked up, and its position is written to a table.
ghost use Rattle.std.specs.Prelude.{ℕ, ◌+◌, ◌*◌, ◌≤◌, true, List, [], map, ◌≡◌, length, get_or};
ghost use Rattle.format.specs.Lookup.{gathered, NodeEntry};
ghost use Rattle.format.specs.NodeLayout.{child_at};
ghost use Rattle.format.specs.Parsed.{done, row_at};
ghost use Rattle.format.specs.Rules.{Every};
ghost use Rattle.format.specs.Tree.{Child};
ghost use Rattle.tables.specs.Indexed.{IndexOf};
ghost use Rattle.tables.specs.Tables.{key_of, written};
ghost use Rattle.index.specs.Rows.{ReadAgain, entry_children};
ghost use Rattle.links.specs.Links.{children_put, childless, child_row};
ghost use Rattle.references.specs.FaultsIn.{child_faults_in};

use links::fill;
use tables::positions::find;

// What the node instance is kept as that the child entry at a place names: the three bytes after its bit, the first highest.
fn name_at(s: &[u8], at: usize) -> u64
    requires { at + 4 ≤ length s.now }
    ensures { result ≡ key_of (get_or s.now (at + 1) 0 * 256 + get_or s.now (at + 2) 0) (get_or s.now (at + 3) 0) }
{
    s[at + 1] as u64 * 0x10000 + s[at + 2] as u64 * 0x100 + s[at + 3] as u64
}

// So many child entries at a place, each with its position among the keys at its bit of `row`; or false where one names no node instance, is not there, or has a bit that `row` has not.
// It looks each up once, and an entry has four bytes.
fn link_part(s: &[u8], at: usize, n: usize, index: &[u16], nodes: &[u64], row: &mut [u16]) -> bool
    ensures { IndexOf index.now nodes.now → result ≡ true → (ks : List Child) (m : ℕ)
        → row_at (child_at s.now true) n [] at ≡ done ks m
        → (gathered (child_faults_in nodes.now) ks ≡ [])
        × (row.new ≡ children_put nodes.now (childless (length row.old)) 0 ks) }
{
    if s.len() < at {
        return false;
    }
    if (s.len() - at) / 4 < n {
        return false;
    }
    fill(row);
    let mut left = n;
    let mut place = at;
    while 0 < left {
        let bit = s[place] as usize;
        if row.len() <= bit {
            return false;
        }
        let p = find(index, nodes, name_at(s, place));
        if nodes.len() <= p {
            return false;
        }
        row[bit] = (p % 0x10000) as u16;
        place += 4;
        left -= 1;
    }
    true
}

// The children of one node instance: so many entries at a place, each with its position among the keys at its bit of the 64 places of `child` from place k on; or false where one
// names no node instance or is not there, or the table has not the 64 places (what the table then holds is free). It looks each up once.
fn link_row(
    s: &[u8],
    at: usize,
    n: usize,
    index: &[u16],
    nodes: &[u64],
    child: &mut [u16],
    k: usize,
) -> bool
    ensures ks_value { IndexOf index.now nodes.now → result ≡ true → (ks : List Child) (m : ℕ)
        → row_at (child_at s.now true) n [] at ≡ done ks m
        → (gathered (child_faults_in nodes.now) ks ≡ [])
        × (child.new ≡ written child.old k (children_put nodes.now (childless 64) 0 ks)) }
    ensures k_in_bounds { result ≡ true → k + 64 ≤ length child.old }
{
    if child.len() < k {
        return false;
    }
    if child.len() - k < 64 {
        return false;
    }
    let end = k + 64;
    link_part(s, at, n, index, nodes, &mut child[k..end])
}

// The children of all node instances in file order, 64 places of `child` for each, from the front on; `kids` holds for each the place of its first child and how many there are.
// False where a child names no node instance, an entry is not there, or the table has no room for all. It looks each child up once.
pub fn link_children(
    s: &[u8],
    kids: &[u64],
    index: &[u16],
    nodes: &[u64],
    child: &mut [u16],
) -> bool
    ensures { IndexOf index.now nodes.now → result ≡ true → (es : List NodeEntry)
        → Every (ReadAgain s.now) es
        → kids.now ≡ map entry_children es
        → (gathered (λ e. gathered (child_faults_in nodes.now) e.instance.children) es ≡ [])
        × (child.new ≡ written child.old 0 (gathered (λ e. child_row nodes.now e.instance) es)) }
{
    let mut i = 0;
    let mut k = 0;
    while i < kids.len() {
        let x = kids[i];
        let linked = link_row(
            s,
            (x / 256) as usize,
            (x % 256) as usize,
            index,
            nodes,
            child,
            k,
        );
        if !linked {
            return false;
        }
        i += 1;
        k += 64;
    }
    true
}
