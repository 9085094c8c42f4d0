// Nodes and node instances.
#![tactic(auto)]

ghost use Rattle.std.specs.Prelude.{ℕ, ◌+◌, true, List, [], map, ◌≡◌, length};
ghost use Rattle.format.specs.Fields.{field_at};
ghost use Rattle.format.specs.Parsed.{making, requiring, row_at};
ghost use Rattle.format.specs.Tree.{Rule, Child, NodeInstance};
ghost use Rattle.format.specs.NodeLayout.{capture_at, rule_at, child_at, instance_head_at, node_instance_at, node_head_at};
ghost use Rattle.tables.specs.Indexed.{Indexed};
ghost use Rattle.fields.specs.Seen.{unmarked, new_after, Tells};
ghost use Rattle.nodes.specs.Nodes.{child_bit_at, counts_at, node_body_at, ChildrenRead};
ghost use Rattle.fields.specs.Views.{byte_parsed, number_parsed, next_parsed, forget};
ghost use Rattle.nodes.specs.Nodes.{instance_head_parsed, node_head_parsed, rule_attention, child_bit, node_number};

use expressions::expression_at;
use fields::seen::{instance_number_at, is_marked, is_new, new_attention_at};
use fields::{ByteRead, NextRead, NumberRead, byte_at, byte_count_at, number_at, type_at};
use format::{Kind, Refusal};
use numbers::Width;

// What a node starts with.
#[derive(Clone, Copy)]
pub struct NodeHead {
    pub id: u64,
    pub kind: u8,
    pub count: u8,
}

// A node's head with the place after it, or a refusal.
#[derive(Clone, Copy)]
pub enum NodeHeadRead {
    Head(NodeHead, usize),
    Refused(Refusal),
}

// What a node instance starts with.
#[derive(Clone, Copy)]
pub struct InstanceHead {
    pub number: u8,
    pub captures: u8,
    pub rules: u8,
    pub children: u8,
}

// A node instance's head with the place after it, or a refusal.
#[derive(Clone, Copy)]
pub enum InstanceHeadRead {
    Head(InstanceHead, usize),
    Refused(Refusal),
}

// A captured register: its ID and instance.
fn capture_at(s: &[u8], at: usize) -> NextRead
    ensures { next_parsed result ≡ forget (capture_at s.now [] at) }
{
    let i = number_at(s, at, Width::Three);
    match i {
        NumberRead::Number(_, a) => {
            let n = byte_at(s, a);
            match n {
                ByteRead::Byte(_, end) => NextRead::Next(end),
                ByteRead::Refused(r) => NextRead::Refused(r),
            }
        }
        NumberRead::Refused(r) => NextRead::Refused(r),
    }
}

// The captured registers of a node instance, one after another, for the refusal of the first that is cut off. It reads each once.
fn each_capture_at(s: &[u8], at: usize, n: u8) -> NextRead
    ensures { next_parsed result ≡ forget (row_at (capture_at s.now) n [] at) }
{
    let mut left = n;
    let mut place = at;
    while 0 < left {
        let c = capture_at(s, place);
        match c {
            NextRead::Next(next) => {
                place = next;
            }
            NextRead::Refused(r) => {
                return NextRead::Refused(r);
            }
        }
        left -= 1;
    }
    NextRead::Next(place)
}

// The captured registers of a node instance: four bytes each, with any values. It looks at none where all are there.
pub fn captures_at(s: &[u8], at: usize, n: u8) -> NextRead
    ensures { next_parsed result ≡ forget (row_at (capture_at s.now) n [] at) }
{
    let size = n as usize * 4;
    if at <= s.len() && size <= s.len() - at {
        return NextRead::Next(at + size);
    }
    each_capture_at(s, at, n)
}

// A rule: its attention type. `seen` marks the attention types of the rules before it.
fn rule_at(s: &[u8], at: usize, seen: &[u8]) -> ByteRead
    ensures { (before : List Rule)
        → Tells (unmarked seen.now) (map rule_attention before)
        → byte_parsed result ≡ making rule_attention (rule_at s.now true before at) }
{
    let b = new_attention_at(s, at, seen);
    match b {
        ByteRead::Byte(attention, a) => {
            let e = expression_at(s, a, limits::LEVELS);
            match e {
                NextRead::Next(end) => ByteRead::Byte(attention, end),
                NextRead::Refused(r) => ByteRead::Refused(r),
            }
        }
        ByteRead::Refused(r) => ByteRead::Refused(r),
    }
}

// The rules of a node instance. It reads each once, a refused one twice.
pub fn rules_at(s: &[u8], at: usize, n: u8) -> NextRead
    ensures { next_parsed result ≡ forget (row_at (rule_at s.now true) n [] at) }
{
    let mut seen = [0u8; 6];
    let mut left = n;
    let mut place = at;
    while 0 < left {
        let i = rule_at(s, place, &seen);
        match i {
            ByteRead::Byte(attention, next) => {
                seen[attention as usize] = 1;
                place = next;
            }
            ByteRead::Refused(r) => {
                return NextRead::Refused(r);
            }
        }
        left -= 1;
    }
    NextRead::Next(place)
}

// The bit position of a child: 0 to 63. `seen` marks those before it.
fn child_bit_at(s: &[u8], at: usize, seen: &[u8]) -> ByteRead
    ensures { byte_parsed result ≡ child_bit_at s.now (unmarked seen.now) at }
{
    let b = byte_at(s, at);
    match b {
        ByteRead::Byte(bit, next) => {
            if 64 <= bit {
                return ByteRead::Refused(Refusal {
                    kind: Kind::BitTooHigh,
                    place: at,
                });
            }
            if is_marked(seen, bit) {
                return ByteRead::Refused(Refusal {
                    kind: Kind::Duplicate,
                    place: at,
                });
            }
            ByteRead::Byte(bit, next)
        }
        ByteRead::Refused(r) => ByteRead::Refused(r),
    }
}

// A child: its bit position. `seen` marks the bits of the children before it.
fn child_at(s: &[u8], at: usize, seen: &[u8]) -> ByteRead
    ensures { (before : List Child)
        → Tells (unmarked seen.now) (map child_bit before)
        → byte_parsed result ≡ making child_bit (child_at s.now true before at) }
{
    let b = child_bit_at(s, at, seen);
    match b {
        ByteRead::Byte(bit, a) => {
            let i = number_at(s, a, Width::Two);
            match i {
                NumberRead::Number(_, c) => {
                    let n = byte_at(s, c);
                    match n {
                        ByteRead::Byte(_, end) => ByteRead::Byte(bit, end),
                        ByteRead::Refused(r) => ByteRead::Refused(r),
                    }
                }
                NumberRead::Refused(r) => ByteRead::Refused(r),
            }
        }
        ByteRead::Refused(r) => ByteRead::Refused(r),
    }
}

// The children of a node instance. It reads each once.
pub fn children_at(s: &[u8], at: usize, n: u8) -> NextRead
    ensures { next_parsed result ≡ forget (row_at (child_at s.now true) n [] at) }
{
    let mut seen = [0u8; 64];
    let mut left = n;
    let mut place = at;
    while 0 < left {
        let i = child_at(s, place, &seen);
        match i {
            ByteRead::Byte(bit, next) => {
                seen[bit as usize] = 1;
                place = next;
            }
            ByteRead::Refused(r) => {
                return NextRead::Refused(r);
            }
        }
        left -= 1;
    }
    NextRead::Next(place)
}

// The place after so many children at a place, where they are there and their bits rise and are below 64; otherwise 0. It looks at each bit once.
pub fn rising_children(s: &[u8], at: usize, n: u8) -> usize
    ensures { (result ≡ 0 → ⊥) → ChildrenRead s.now n at result }
{
    if s.len() < at {
        return 0;
    }
    if s.len() - at < n as usize * 4 {
        return 0;
    }
    let mut bound = 0;
    let mut left = n;
    let mut place = at;
    while 0 < left {
        let b = s[place];
        if b < bound {
            return 0;
        }
        if 64 <= b {
            return 0;
        }
        bound = b + 1;
        place += 4;
        left -= 1;
    }
    place
}

// The rule count and the child count of a node instance whose number and capture count are known.
fn counts_at(s: &[u8], at: usize, number: u8, captures: u8) -> InstanceHeadRead
    ensures { instance_head_parsed result ≡ counts_at s.now number captures at }
{
    let b = byte_count_at(s, at);
    match b {
        ByteRead::Byte(rules, a) => {
            let c = byte_at(s, a);
            match c {
                ByteRead::Byte(children, end) => InstanceHeadRead::Head(
                    InstanceHead {
                        number,
                        captures,
                        rules,
                        children,
                    },
                    end,
                ),
                ByteRead::Refused(r) => InstanceHeadRead::Refused(r),
            }
        }
        ByteRead::Refused(r) => InstanceHeadRead::Refused(r),
    }
}

// What a node instance starts with. `seen` marks the numbers before it in the node; `begun` instances stand before it in the file, which may have `limit`.
pub fn instance_head_at(
    s: &[u8],
    at: usize,
    begun: usize,
    limit: usize,
    seen: &[u8],
) -> InstanceHeadRead
    ensures { (numbers : List ℕ)
        → Tells (unmarked seen.now) numbers
        → instance_head_parsed result ≡ instance_head_at limit s.now true begun numbers at }
{
    let b = instance_number_at(s, at, begun, limit, seen);
    match b {
        ByteRead::Byte(number, a) => {
            let c = byte_at(s, a);
            match c {
                ByteRead::Byte(captures, d) => counts_at(s, d, number, captures),
                ByteRead::Refused(r) => InstanceHeadRead::Refused(r),
            }
        }
        ByteRead::Refused(r) => InstanceHeadRead::Refused(r),
    }
}

// What follows the head of a node instance: so many captures, rules and children.
fn node_body_at(s: &[u8], at: usize, h: InstanceHead) -> NextRead
    ensures { next_parsed result ≡ forget (node_body_at s.now h.captures h.rules h.children at) }
{
    let c = captures_at(s, at, h.captures);
    match c {
        NextRead::Next(a) => {
            let r = rules_at(s, a, h.rules);
            match r {
                NextRead::Next(b) => children_at(s, b, h.children),
                NextRead::Refused(x) => NextRead::Refused(x),
            }
        }
        NextRead::Refused(x) => NextRead::Refused(x),
    }
}

// A node instance: its number. `seen` marks the numbers before it in the node; `begun` instances stand before it in the file, which may have `limit`.
pub fn node_instance_at(s: &[u8], at: usize, begun: usize, limit: usize, seen: &[u8]) -> ByteRead
    ensures { (total : ℕ) (before : List NodeInstance)
        → Tells (unmarked seen.now) (map node_number before)
        → begun ≡ total + length before
        → byte_parsed result ≡ making node_number (node_instance_at limit s.now true total before at) }
{
    let top = instance_head_at(s, at, begun, limit, seen);
    match top {
        InstanceHeadRead::Head(h, a) => {
            let number = h.number;
            let rest = node_body_at(s, a, h);
            match rest {
                NextRead::Next(end) => ByteRead::Byte(number, end),
                NextRead::Refused(r) => ByteRead::Refused(r),
            }
        }
        InstanceHeadRead::Refused(r) => ByteRead::Refused(r),
    }
}

// The ID of a node: none of those before it, each of which is at most `largest`, and the first `entered` are entered in an index.
fn node_id_at(
    s: &[u8],
    at: usize,
    ids: &[u64],
    index: &[u16],
    entered: usize,
    largest: u64,
) -> NumberRead
    ensures { Indexed index.now ids.now entered
        → number_parsed result ≡ requiring (new_after largest ids.now) 7 at (field_at s.now at 2) }
{
    let i = number_at(s, at, Width::Two);
    match i {
        NumberRead::Number(id, next) => {
            if !is_new(ids, index, entered, largest, id) {
                return NumberRead::Refused(Refusal {
                    kind: Kind::Duplicate,
                    place: at,
                });
            }
            NumberRead::Number(id, next)
        }
        NumberRead::Refused(r) => NumberRead::Refused(r),
    }
}

// What a node starts with; `ids` are the IDs of the nodes before it, each at most `largest`, and the first `entered` are entered in an index.
pub fn node_head_at(
    s: &[u8],
    at: usize,
    ids: &[u64],
    index: &[u16],
    entered: usize,
    largest: u64,
) -> NodeHeadRead
    ensures { Indexed index.now ids.now entered
        → (numbers : List ℕ)
        → Tells (new_after largest ids.now) numbers
        → node_head_parsed result ≡ node_head_at s.now true numbers at }
{
    let i = node_id_at(s, at, ids, index, entered, largest);
    match i {
        NumberRead::Number(id, a) => {
            let t = type_at(s, a);
            match t {
                ByteRead::Byte(kind, b) => {
                    let n = byte_count_at(s, b);
                    match n {
                        ByteRead::Byte(count, end) => NodeHeadRead::Head(
                            NodeHead { id, kind, count },
                            end,
                        ),
                        ByteRead::Refused(r) => NodeHeadRead::Refused(r),
                    }
                }
                ByteRead::Refused(r) => NodeHeadRead::Refused(r),
            }
        }
        NumberRead::Refused(r) => NodeHeadRead::Refused(r),
    }
}
