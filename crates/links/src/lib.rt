// What the node instances of a file whose layout was read lead to: the rule of each for an attention type, and the writing of single places in a table of children.
#![tactic(auto)]

ghost use Rattle.std.specs.Prelude.{ℕ, ◌+◌, true, List, [], ◌≡◌, length, set};
ghost use Rattle.format.specs.NodeLayout.{rule_at, node_instance_at};
ghost use Rattle.format.specs.Parsed.{done, row_at};
ghost use Rattle.format.specs.Tree.{Rule, NodeInstance};
ghost use Rattle.tables.specs.Tables.{written};
ghost use Rattle.links.specs.Links.{rule_place, childless};

use expressions::expression_at;
use fields::{ByteRead, NextRead, byte_at};
use nodes::{InstanceHeadRead, captures_at, instance_head_at};

// The place of the expression of the first of so many rules that is for an attention type; 0 where there is none. It reads each byte of the rules before it once.
fn find_rule(s: &[u8], at: usize, n: u8, attention: u8) -> usize
    ensures { (rs : List Rule) (m : ℕ) → row_at (rule_at s.now true) n [] at ≡ done rs m → result ≡ rule_place attention rs }
{
    let mut left = n;
    let mut place = at;
    while 0 < left {
        let b = byte_at(s, place);
        match b {
            ByteRead::Byte(t, a) => {
                if t == attention {
                    return a;
                }
                let e = expression_at(s, a, limits::LEVELS);
                match e {
                    NextRead::Next(next) => {
                        place = next;
                    }
                    NextRead::Refused(_) => {
                        return 0;
                    }
                }
            }
            ByteRead::Refused(_) => {
                return 0;
            }
        }
        left -= 1;
    }
    0
}

// The place of the expression of a node instance's rule for an attention type; 0 where it has none.
pub fn rule_place(s: &[u8], at: usize, attention: u8) -> usize
    ensures { (limit total : ℕ) (before : List NodeInstance) (i : NodeInstance) (m : ℕ)
        → node_instance_at limit s.now true total before at ≡ done i m
        → result ≡ rule_place attention i.rules }
{
    let none = [0u8; 1];
    let top = instance_head_at(s, at, 0, limits::NODE_INSTANCES, &none);
    match top {
        InstanceHeadRead::Head(h, a) => {
            let rules = h.rules;
            let c = captures_at(s, a, h.captures);
            match c {
                NextRead::Next(b) => find_rule(s, b, rules, attention),
                NextRead::Refused(_) => 0,
            }
        }
        InstanceHeadRead::Refused(_) => 0,
    }
}

// A number at a place of a table; a table without the place keeps what it has.
fn put_child(table: &mut [u16], k: usize, x: u16)
    ensures { table.new ≡ set table.old k x }
{
    if k < table.len() {
        table[k] = x;
    }
}

// A number at a bit of the places of a table from place k on; a table without the place keeps what it has.
pub fn put_link(child: &mut [u16], k: usize, bit: u8, x: u16)
    ensures { child.new ≡ set child.old (k + bit) x }
{
    if k < child.len() {
        put_child(child, k + bit as usize, x);
    }
}

// Every place of a part of a table of children, without a child. It writes each once.
pub fn fill(part: &mut [u16])
    ensures { part.new ≡ childless (length part.old) }
{
    let mut i = 0;
    while i < part.len() {
        part[i] = 0xFFFF;
        i += 1;
    }
}

// So many places of a table of children from place k on, without a child. It writes each once.
pub fn clear(child: &mut [u16], k: usize, n: u8)
    ensures { child.new ≡ written child.old k (childless n) }
{
    if child.len() <= k {
        return;
    }
    let room = child.len() - k;
    let count = n as usize;
    if room < count {
        fill(&mut child[k..]);
        return;
    }
    let end = k + count;
    fill(&mut child[k..end]);
}
