// What isolation needs of an accepted file for an attention type.
ghost use Rattle.std.specs.Prelude.{ℕ, true, [], ◌∷◌, ◌≡◌};
ghost use Rattle.limits.specs.declared.LimitSet.{LimitSet};
ghost use Rattle.limits.specs.Limits.{limits_of};
ghost use Rattle.format.specs.FileLayout.{roots_at as roots_from};
ghost use Rattle.format.specs.Finding.{rule_for, root_for};
ghost use Rattle.format.specs.Lookup.{at, NodeEntry, node_entries};
ghost use Rattle.format.specs.Parsed.{done};
ghost use Rattle.format.specs.Tree.{Chip};
ghost use Rattle.format.specs.Verdict.{verdict};
ghost use Rattle.tables.specs.Keys.{node_keys};
ghost use Rattle.reader.specs.Columns.{expression_place, root_place};

use links::rule_place;
use references::roots::root_position;

// The position of the node instance that the root for an attention type names; 65,535 where there is no such root. It reads the roots up to that one.
pub fn wanted_root(s: &[u8], roots_at: usize, attention: u8, names: &[u64]) -> usize
    ensures { (of : LimitSet) (c : Chip) (end : ℕ)
        → verdict (limits_of of) s.now ≡ done c end
        → roots_from s.now true roots_at ≡ done c.roots end
        → names.now ≡ node_keys c
        → result ≡ root_place c (root_for attention c) }
{
    root_position(s, roots_at, attention, names)
}

// The place of the expression of a node instance's rule for an attention type, 0 where it has none; `place` is that of the instance. It reads the rules up to that one.
pub fn wanted_rule(s: &[u8], attention: u8, place: usize) -> usize
    ensures { (of : LimitSet) (c : Chip) (end k : ℕ) (e : NodeEntry)
        → verdict (limits_of of) s.now ≡ done c end
        → at k (node_entries c) ≡ e ∷ []
        → place ≡ e.instance.place
        → result ≡ expression_place (rule_for attention e.instance) }
{
    rule_place(s, place, attention)
}
