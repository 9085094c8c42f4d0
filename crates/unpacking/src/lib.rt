// The records of a chip data file that was accepted, read from its first byte to its last.
#![tactic(auto)]

ghost use Rattle.std.specs.Prelude.{◌≡◌, ◌*◌, ◌≤◌, length, drop};
ghost use Rattle.limits.specs.Limits.{library_limits};
ghost use Rattle.numbers.specs.Field.{size_of};
ghost use Rattle.format.specs.Fields.{address_size};
ghost use Rattle.records.specs.Record.{put_record, at_front};
ghost use Rattle.unpacking.specs.Unpacking.{value_at, element_next, record_next, owing, left_next, known, run, passed, registers_in, nodes_in, roots_in, unpacked, unpacked_bytes, put_records};

use numbers::Width;
use records::{Element, Record, ZEROS};

// How many elements are still to come, of each kind that has a count; and the type of the last register.
#[derive(Clone, Copy)]
pub struct Left {
    pub form: u8,
    pub owed: u64,
    pub captures: u64,
    pub rules: u64,
    pub children: u64,
    pub node_instances: u64,
    pub nodes: u64,
    pub register_instances: u64,
    pub registers: u64,
    pub roots: u64,
}

// Nothing is to come.
const NOTHING: Left = Left {
    form: 0,
    owed: 0,
    captures: 0,
    rules: 0,
    children: 0,
    node_instances: 0,
    nodes: 0,
    register_instances: 0,
    registers: 0,
    roots: 0,
};

// How many records a run gave, and the place after their elements.
#[derive(Clone, Copy)]
pub struct Passed {
    pub count: usize,
    pub end: usize,
}

// The number at a place; 0 where it is not wholly there.
#[tactic(auto, unfolding(crate::specs::Unpacking::value_at, numbers::specs::Field::number_at))]
fn value_at(s: &[u8], at: usize, w: Width) -> u64
    ensures { result ≡ value_at s.now at (size_of w) }
{
    match numbers::number_at(s, at, w) {
        Some((value, _)) => value,
        None => 0,
    }
}

// The byte at a place; 0 where there is none.
#[tactic(auto, unfolding(crate::specs::Unpacking::value_at, numbers::specs::Field::number_at))]
fn byte_at(s: &[u8], at: usize) -> u8
    ensures { result ≡ value_at s.now at 1 }
{
    match numbers::byte_at(s, at) {
        Some((value, _)) => value,
        None => 0,
    }
}

// The address at a place, of a register of some type.
#[tactic(auto, unfolding(format::specs::Fields::address_size))]
fn address_at(s: &[u8], at: usize, form: u8) -> u64
    ensures { result ≡ value_at s.now at (address_size form) }
{
    if form == 1 {
        value_at(s, at, Width::Four)
    } else {
        value_at(s, at, Width::Eight)
    }
}

// What follows a place; nothing where the bytes end before it.
fn behind(s: &[u8], at: usize) -> &[u8]
    ensures { result.now ≡ drop at s.now }
{
    s.get(at..).unwrap_or(&[])
}

// Whether there is a next element.
fn is_known(e: Element) -> bool
    ensures { result ≡ known e }
{
    !matches!(e, Element::Unknown)
}

// The count at a place.
fn count_at(s: &[u8], at: usize) -> u64
    ensures is_value { result ≡ value_at s.now at 1 }
    ensures fits_byte { result ≤ 255 }
{
    byte_at(s, at) as u64
}

impl Left {
    // What comes next, with its bytes in front.
    #[tactic(auto, unfolding(crate::specs::Unpacking::element_next))]
    fn element_next(self, s: &[u8]) -> Element
        ensures { result ≡ element_next s.now 0 self }
    {
        if 0 < self.owed {
            records::expression_of(byte_at(s, 0))
        } else if 0 < self.captures {
            Element::Capture
        } else if 0 < self.rules {
            Element::Rule
        } else if 0 < self.children {
            Element::Child
        } else if 0 < self.node_instances {
            Element::NodeInstance
        } else if 0 < self.nodes {
            Element::Node
        } else if 0 < self.register_instances {
            Element::RegisterInstance
        } else if 0 < self.registers {
            Element::Register
        } else if 0 < self.roots {
            Element::Root
        } else {
            Element::Unknown
        }
    }

    // The record of the element in front.
    fn record_next(self, s: &[u8], e: Element) -> Record
        ensures { result ≡ record_next s.now 0 self e }
    {
        match e {
            Element::Register => Record {
                kind: 1,
                form: byte_at(s, 3),
                amount: byte_at(s, 4),
                id: value_at(s, 0, Width::Three),
                ..ZEROS
            },
            Element::RegisterInstance => Record {
                kind: 2,
                number: byte_at(s, 0),
                value: address_at(s, 1, self.form),
                ..ZEROS
            },
            Element::Node => Record {
                kind: 3,
                form: byte_at(s, 2),
                id: value_at(s, 0, Width::Two),
                ..ZEROS
            },
            Element::NodeInstance => Record {
                kind: 4,
                number: byte_at(s, 0),
                ..ZEROS
            },
            Element::Capture => Record {
                kind: 5,
                number: byte_at(s, 3),
                id: value_at(s, 0, Width::Three),
                ..ZEROS
            },
            Element::Rule => Record {
                kind: 6,
                form: byte_at(s, 0),
                ..ZEROS
            },
            Element::Reading => Record {
                kind: 7,
                form: 0x01,
                number: byte_at(s, 4),
                id: value_at(s, 1, Width::Three),
                ..ZEROS
            },
            Element::Constant => Record {
                kind: 7,
                form: 0x02,
                value: value_at(s, 1, Width::Eight),
                ..ZEROS
            },
            Element::All => Record {
                kind: 7,
                form: 0x10,
                amount: byte_at(s, 1),
                ..ZEROS
            },
            Element::Any => Record {
                kind: 7,
                form: 0x11,
                amount: byte_at(s, 1),
                ..ZEROS
            },
            Element::Inverse => Record {
                kind: 7,
                form: 0x12,
                ..ZEROS
            },
            Element::Left => Record {
                kind: 7,
                form: 0x13,
                amount: byte_at(s, 1),
                ..ZEROS
            },
            Element::Right => Record {
                kind: 7,
                form: 0x14,
                amount: byte_at(s, 1),
                ..ZEROS
            },
            Element::Child => Record {
                kind: 8,
                amount: byte_at(s, 0),
                number: byte_at(s, 3),
                id: value_at(s, 1, Width::Two),
                ..ZEROS
            },
            Element::Root => Record {
                kind: 9,
                form: byte_at(s, 0),
                number: byte_at(s, 3),
                id: value_at(s, 1, Width::Two),
                ..ZEROS
            },
            Element::Unknown => ZEROS,
        }
    }

    // What is to come after an expression with so many operands.
    fn owing(self, n: u64) -> Left
        requires { (self.owed ≤ 0x10000000000) × (n ≤ 255) }
        ensures { result ≡ owing self n }
    {
        Left {
            owed: self.owed.saturating_sub(1) + n,
            ..self
        }
    }

    // What is to come after the element in front.
    fn left_next(self, s: &[u8], e: Element) -> Left
        requires { self.owed ≤ 0x10000000000 }
        ensures { result ≡ left_next s.now 0 self e }
    {
        match e {
            Element::Register => Left {
                form: byte_at(s, 3),
                register_instances: count_at(s, 5),
                registers: self.registers.saturating_sub(1),
                ..self
            },
            Element::RegisterInstance => Left {
                register_instances: self.register_instances.saturating_sub(1),
                ..self
            },
            Element::Node => Left {
                node_instances: count_at(s, 3),
                nodes: self.nodes.saturating_sub(1),
                ..self
            },
            Element::NodeInstance => Left {
                captures: count_at(s, 1),
                rules: count_at(s, 2),
                children: count_at(s, 3),
                node_instances: self.node_instances.saturating_sub(1),
                ..self
            },
            Element::Capture => Left {
                captures: self.captures.saturating_sub(1),
                ..self
            },
            Element::Rule => Left {
                owed: 1,
                rules: self.rules.saturating_sub(1),
                ..self
            },
            Element::Reading | Element::Constant => self.owing(0),
            Element::All | Element::Any => self.owing(count_at(s, 1)),
            Element::Inverse | Element::Left | Element::Right => self.owing(1),
            Element::Child => Left {
                children: self.children.saturating_sub(1),
                ..self
            },
            Element::Root => Left {
                roots: self.roots.saturating_sub(1),
                ..self
            },
            Element::Unknown => self,
        }
    }
}

// The record of the element in front, in an output from a place on, where there is room for it.
#[tactic(auto, unfolding(records::specs::Record::put_record, numbers::specs::Field::present))]
fn put_next(s: &[u8], l: Left, e: Element, out: &mut [u8], to: usize)
    ensures { out.new ≡ put_record out.old to (record_next s.now 0 l e) }
{
    if to < out.len() {
        records::put_record(out, to, l.record_next(s, e));
    }
}

// How many records a run gives, and the place after their elements; and the records in an output from a place on, each where there is room for it. It takes one step for each record.
fn put_run(s: &[u8], at: usize, l: Left, out: &mut [u8], to: usize) -> Passed
    requires { (length s.now ≤ library_limits.bytes) × (at ≤ 0x100000000) × (l.owed ≡ 0) × (to ≤ 0x100000000) }
    ensures is_passed { result ≡ passed (run s.now (length s.now) at l) }
    ensures output { out.new ≡ put_records out.old to (run s.now (length s.now) at l).records }
{
    let mut place = at;
    let mut left = l;
    for count in 0..s.len() {
        let rest = behind(s, place);
        let e = left.element_next(rest);
        if !is_known(e) {
            return Passed { count, end: place };
        }
        put_next(rest, left, e, out, to + 16 * count);
        let size = records::own_size(records::address_size(left.form), e);
        left = left.left_next(rest, e);
        place += size;
    }
    Passed {
        count: s.len(),
        end: place,
    }
}

// What is to come in each section: its count, behind its keyword. The registers' section is behind the start of the file, the others are in front.
fn registers_left(s: &[u8]) -> Left
    ensures { result ≡ registers_in s.now }
{
    Left {
        registers: value_at(s, 17, Width::Three),
        ..NOTHING
    }
}

fn nodes_left(s: &[u8]) -> Left
    ensures { result ≡ nodes_in s.now 0 }
{
    Left {
        nodes: value_at(s, 4, Width::Two),
        ..NOTHING
    }
}

fn roots_left(s: &[u8]) -> Left
    ensures { result ≡ roots_in s.now 0 }
{
    Left {
        roots: count_at(s, 4),
        ..NOTHING
    }
}

// How many records a file has; and the records at the front of an output, each where there is room for it.
fn put_all(s: &[u8], out: &mut [u8]) -> usize
    requires { length s.now ≤ library_limits.bytes }
    ensures count { result ≡ length (unpacked s.now) }
    ensures output { out.new ≡ put_records out.old 0 (unpacked s.now) }
{
    let a = put_run(s, 20, registers_left(s), out, 0);
    let b = put_run(
        s,
        a.end + 6,
        nodes_left(behind(s, a.end)),
        out,
        16 * a.count,
    );
    let first = a.count + b.count;
    let c = put_run(s, b.end + 5, roots_left(behind(s, b.end)), out, 16 * first);
    first + c.count
}

// How many bytes the records of a file have; and the records at the front of an output, where there is room for all of them. Otherwise the output keeps its bytes. A file that is longer than the limit has none.
pub fn unpack(file: &[u8], out: &mut [u8]) -> usize
    ensures needed { result ≡ length (unpacked_bytes file.now) }
    ensures output { out.new ≡ at_front (unpacked_bytes file.now) out.old }
{
    if limits::BYTES < file.len() {
        return 0;
    }
    let needed = 16 * put_all(file, &mut []);
    if out.len() < needed {
        return needed;
    }
    put_all(file, out);
    needed
}
