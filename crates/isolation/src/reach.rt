// The walk from the wanted root: a rule is evaluated as its node instance is taken.
ghost use Rattle.std.specs.Prelude.{ℕ, ◌<◌, List, [], ◌∷◌, ◌≡◌, length};
ghost use Rattle.limits.specs.declared.LimitSet.{LimitSet};
ghost use Rattle.limits.specs.Limits.{limits_of};
ghost use Rattle.format.specs.Lookup.{at, NodeEntry, node_entries};
ghost use Rattle.format.specs.Parsed.{done};
ghost use Rattle.format.specs.Tree.{Chip};
ghost use Rattle.format.specs.Verdict.{verdict};
ghost use Rattle.tables.specs.Indexed.{IndexOf};
ghost use Rattle.walk.specs.Marks.{finished};
ghost use Rattle.walk.specs.TableGraph.{table_graph};
ghost use Rattle.isolation.specs.Activity.{active_word, unread_place, active_column, unread_column, SameDone};
ghost use Rattle.isolation.specs.Ready.{Tabled};

use crate::Activity;
use crate::active::active_at;
use reader::wanted::wanted_rule;
use tables::put;
use walk::{Walk, Walked};

// What the rule for an attention type gives of the node instance at a place. It reads the rules of the instance up to that one.
fn activity_at(
    s: &[u8],
    place: usize,
    attention: u8,
    index: &[u16],
    keys: &[u64],
    words: &[u64],
    read: &[u8],
) -> Activity
    ensures { IndexOf index.now keys.now → (of : LimitSet) (c : Chip) (end k : ℕ) (e : NodeEntry)
        → verdict (limits_of of) s.now ≡ done c end
        → at k (node_entries c) ≡ e ∷ []
        → place ≡ e.instance.place
        → (result.word ≡ active_word keys.now words.now read.now attention e) × (result.unread ≡ unread_place keys.now read.now attention e) }
{
    let p = wanted_rule(s, attention, place);
    active_at(s, p, index, keys, words, read)
}

// The walk from the root: each node instance that is taken gets the word of its active bits in `active` and the place of its first reading without a value in `unread`. It takes each node
// instance that is reached once, and evaluates no other rule.
pub fn reach(
    s: &[u8],
    attention: u8,
    root: usize,
    index: &[u16],
    keys: &[u64],
    places: &[u64],
    child: &[u16],
    words: &[u64],
    read: &[u8],
    active: &mut [u64],
    unread: &mut [u64],
) -> Walked
    ensures { (of : LimitSet) (nodes : List ℕ) (t : Tabled of s.now keys.now index.now nodes places.now child.now)
        → length active.old ≡ length places.now
        → length unread.old ≡ length places.now
        → root < length places.now
        → (result ≡ finished (table_graph (active_column keys.now words.now read.now attention t.chip) child.now) root)
        × SameDone result.marks active.new (active_column keys.now words.now read.now attention t.chip)
        × SameDone result.marks unread.new (unread_column keys.now read.now attention t.chip) }
{
    let n = places.len();
    let mut w = Walk::start(root);
    let mut steps = 0;
    while steps < limits::NODE_INSTANCES {
        let k = w.first();
        if n <= k {
            let m = w.marks;
            return Walked { marks: m, steps };
        }
        let a = activity_at(s, places[k] as usize, attention, index, keys, words, read);
        put(active, k, a.word);
        put(unread, k, a.unread as u64);
        w = w.step(active, child);
        steps += 1;
    }
    let m = w.marks;
    Walked { marks: m, steps }
}
