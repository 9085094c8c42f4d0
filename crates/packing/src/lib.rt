// A chip data file from its records, written from the end: an element's counts are known when its record is met.
#![tactic(auto)]

ghost use Rattle.std.specs.Prelude.{◌++◌, ◌≡◌, ◌+◌, ◌*◌, ◌^◌, ◌≤◌, length};
ghost use Rattle.numbers.specs.BigEndian.{bytes_of};
ghost use Rattle.format.specs.Encoding.{encode_start};
ghost use Rattle.records.specs.Record.{records_in};
ghost use Rattle.records.specs.Sizes.{own_size};
ghost use Rattle.packing.specs.Packing.{own_bytes, counting, type_with, of_registers, of_roots, file_of};
ghost use Rattle.packing.specs.Writing.{packed_in, sizes, Split, pieces_of, pieces_size, pieces_bytes, Back, Few, Known, Near, PartBack, head_size, section_of, parts_size, parts_file};

use records::{Element, Record, address_size, element_of, own_size, record_at};

// How many elements stand behind a record whose parents stand before it, of each kind that has a count.
#[derive(Clone, Copy)]
pub struct Counts {
    pub register_instances: u64,
    pub registers: u64,
    pub captures: u64,
    pub rules: u64,
    pub children: u64,
    pub node_instances: u64,
    pub nodes: u64,
    pub roots: u64,
}

// Where nothing stands behind.
const NONE: Counts = Counts {
    register_instances: 0,
    registers: 0,
    captures: 0,
    rules: 0,
    children: 0,
    node_instances: 0,
    nodes: 0,
    roots: 0,
};

// The records of registers and of roots, and the others between them.
#[derive(Clone, Copy)]
pub struct Parts<'a> {
    pub registers: &'a [u8],
    pub others: &'a [u8],
    pub roots: &'a [u8],
}

// The sections of a file.
#[derive(Clone, Copy)]
pub enum Section {
    Registers,
    Nodes,
    Roots,
}

// A register type, and the first record of a part from which on it is that of the last register before, up to the record at hand.
#[derive(Clone, Copy)]
pub struct Nearest {
    pub since: usize,
    pub form: u8,
}

// Where the bytes of a part start, and the counts of its elements whose parents stand before them.
#[derive(Clone, Copy)]
pub struct Written {
    pub at: usize,
    pub counts: Counts,
}

// Whether a record is of the registers' section.
fn is_of_registers(e: Element) -> bool
    ensures { result ≡ of_registers e }
{
    matches!(e, Element::Register | Element::RegisterInstance)
}

// Whether a record is of the roots' section.
fn is_of_roots(e: Element) -> bool
    ensures { result ≡ of_roots e }
{
    matches!(e, Element::Root)
}

// The records of each section. It looks at each record once.
#[tactic(auto, using(crate::proofs::MeasureLaws::in_whole))]
fn split(records: &[u8]) -> Parts<'_>
    ensures { Split (records_in records.now) result }
{
    let n = records.len() / 16;
    let mut registers = 0;
    let mut roots = 0;
    for i in 0..n {
        let r = record_at(records, 16 * i);
        let e = element_of(r.kind, r.form);
        registers += usize::from(is_of_registers(e));
        roots += usize::from(is_of_roots(e));
    }
    Parts {
        registers: &records[..16 * registers],
        others: &records[16 * registers..16 * (n - roots)],
        roots: &records[16 * (n - roots)..],
    }
}

// The type of the last register, with a record more.
#[tactic(auto, using(crate::proofs::SizeLaws::type_changes))]
fn form_with(form: u8, r: Record) -> u8
    ensures { result ≡ type_with form r }
{
    if r.kind == 1 { r.form } else { form }
}

// How many bytes the elements of a part are. It looks at each record once.
fn measure(part: &[u8]) -> usize
    ensures { result ≡ sizes 0 (records_in part.now) }
{
    let mut form = 0;
    let mut size = 0;
    for i in 0..part.len() / 16 {
        let r = record_at(part, 16 * i);
        let e = element_of(r.kind, r.form);
        size += own_size(address_size(form), e);
        form = form_with(form, r);
    }
    size
}

// How many bytes the file has.
#[tactic(auto, using(crate::proofs::MeasureLaws::sizes_bound))]
fn measured(p: Parts) -> usize
    ensures { result ≡ parts_size p.entry }
{
    31 + measure(p.registers) + measure(p.others) + measure(p.roots)
}

// A number in n bytes that end before a place: where they start.
// Kept: the output and the place are two parameters, since of a struct of them each contract would have to say besides that it still holds the same lent output.
fn put_back(out: &mut [u8], at: usize, n: u8, v: u64) -> usize
    requires { (n ≤ at) × (at ≤ length out.old) }
    ensures { Back out.old out.new at result (bytes_of n v) }
{
    let start = at - n as usize;
    let mut rest = v;
    for place in (start..at).rev() {
        out[place] = (rest % 256) as u8;
        rest /= 256;
    }
    start
}

// Numbers, each in so many bytes, that end before a place: where they start.
fn put_pieces(out: &mut [u8], at: usize, pieces: [(u8, u64); 4]) -> usize
    requires { (pieces_size pieces ≤ at) × (at ≤ length out.old) }
    ensures { Back out.old out.new at result (pieces_bytes pieces) }
{
    let mut place = at;
    for i in (0..4).rev() {
        let (n, v) = pieces[i];
        place = put_back(out, place, n, v);
    }
    place
}

// An element's own numbers, each with how many bytes it takes.
fn pieces_of(size: u8, c: Counts, e: Element, r: Record) -> [(u8, u64); 4]
    ensures { result ≡ pieces_of size c e r }
{
    let form = (1, r.form as u64);
    let amount = (1, r.amount as u64);
    let number = (1, r.number as u64);
    let none = (0, 0);
    match e {
        Element::Register => [(3, r.id), form, amount, (1, c.register_instances)],
        Element::RegisterInstance => [none, none, number, (size, r.value)],
        Element::Node => [none, (2, r.id), form, (1, c.node_instances)],
        Element::NodeInstance => [number, (1, c.captures), (1, c.rules), (1, c.children)],
        Element::Capture => [none, none, (3, r.id), number],
        Element::Rule | Element::Inverse => [none, none, none, form],
        Element::Reading => [none, form, (3, r.id), number],
        Element::Constant => [none, none, form, (8, r.value)],
        Element::All | Element::Any | Element::Left | Element::Right => [none, none, form, amount],
        Element::Child => [none, amount, (2, r.id), number],
        Element::Root => [none, form, (2, r.id), number],
        Element::Unknown => [none, none, none, none],
    }
}

// The bytes of an element itself, before a place: where they start.
fn put_own(out: &mut [u8], at: usize, size: u8, c: Counts, e: Element, r: Record) -> usize
    requires { (own_size size e ≤ at) × (at ≤ length out.old) }
    ensures { Back out.old out.new at result (own_bytes size c e r) }
{
    put_pieces(out, at, pieces_of(size, c, e, r))
}

impl Counts {
    // The counts with an element more.
    fn counting(self, e: Element) -> Counts
        requires { Few (2 ^ 60) self }
        ensures { result ≡ counting self e }
    {
        match e {
            Element::Register => Counts {
                registers: self.registers + 1,
                register_instances: 0,
                ..self
            },
            Element::RegisterInstance => Counts {
                register_instances: self.register_instances + 1,
                ..self
            },
            Element::Node => Counts {
                nodes: self.nodes + 1,
                node_instances: 0,
                ..self
            },
            Element::NodeInstance => Counts {
                node_instances: self.node_instances + 1,
                captures: 0,
                rules: 0,
                children: 0,
                ..self
            },
            Element::Capture => Counts {
                captures: self.captures + 1,
                ..self
            },
            Element::Rule => Counts {
                rules: self.rules + 1,
                ..self
            },
            Element::Child => Counts {
                children: self.children + 1,
                ..self
            },
            Element::Root => Counts {
                roots: self.roots + 1,
                ..self
            },
            Element::Reading
            | Element::Constant
            | Element::All
            | Element::Any
            | Element::Inverse
            | Element::Left
            | Element::Right
            | Element::Unknown => self,
        }
    }
}

// The last register among the first so many records of a part: its type, and from where on it is the last. It looks at each record once, from the last to the register.
fn look_back(part: &[u8], n: usize) -> Nearest
    requires { 16 * n ≤ length part.now }
    ensures { Near part.now 0 n result }
{
    for i in (0..n).rev() {
        let r = record_at(part, 16 * i);
        if r.kind == 1 {
            return Nearest {
                since: i + 1,
                form: r.form,
            };
        }
    }
    Nearest { since: 0, form: 0 }
}

// The same, where it may be known already.
fn form_before(part: &[u8], n: usize, known: Nearest) -> Nearest
    requires { (16 * n ≤ length part.now) × Known part.now 0 (n + 1) known }
    ensures { Near part.now 0 n result }
{
    if known.since <= n {
        known
    } else {
        look_back(part, n)
    }
}

// The elements of a part before a place, from the last to the first. It looks at each record twice: once to write it, and once for the type of the register before it.
fn put_part(out: &mut [u8], at: usize, part: &[u8]) -> Written
    requires { (sizes 0 (records_in part.now) ≤ at) × (at ≤ length out.old) }
    ensures { PartBack (records_in part.now) out.old out.new at result }
{
    let n = part.len() / 16;
    let mut place = at;
    let mut near = Nearest { since: n, form: 0 };
    let mut counts = NONE;
    for i in (0..n).rev() {
        near = form_before(part, i, near);
        let r = record_at(part, 16 * i);
        let e = element_of(r.kind, r.form);
        place = put_own(out, place, address_size(near.form), counts, e, r);
        counts = counts.counting(e);
    }
    Written { at: place, counts }
}

// A keyword, as a number of four bytes, and a count before a place: where they start.
fn put_head(out: &mut [u8], at: usize, word: u64, size: u8, count: u64) -> usize
    requires { (4 + size ≤ at) × (at ≤ length out.old) }
    ensures { Back out.old out.new at result (bytes_of 4 word ++ bytes_of size count) }
{
    let a = put_back(out, at, size, count);
    put_back(out, a, 4, word)
}

// "CHIPDATA", the model/level and version 1 before a place: where they start.
fn put_start(out: &mut [u8], at: usize, model: u32) -> usize
    requires { (13 ≤ at) × (at ≤ length out.old) }
    ensures { Back out.old out.new at result (encode_start model) }
{
    let b = put_back(out, at, 1, 1);
    let a = put_back(out, b, 4, model as u64);
    put_back(out, a, 8, 0x4348_4950_4441_5441)
}

// A section before a place: where it starts.
fn put_section(out: &mut [u8], at: usize, part: &[u8], section: Section) -> usize
    requires { (head_size section + sizes 0 (records_in part.now) ≤ at) × (at ≤ length out.old) }
    ensures { Back out.old out.new at result (section_of section (records_in part.now)) }
{
    let Written { at: start, counts } = put_part(out, at, part);
    match section {
        Section::Registers => put_head(out, start, 0x5245_4753, 3, counts.registers),
        Section::Nodes => put_head(out, start, 0x4e4f_4445, 2, counts.nodes),
        Section::Roots => put_head(out, start, 0x524f_4f54, 1, counts.roots),
    }
}

// The whole file before a place: where it starts.
fn put_file(out: &mut [u8], at: usize, model: u32, p: Parts) -> usize
    requires { (at ≡ parts_size p) × (at ≤ length out.old) }
    ensures { Back out.old out.new at result (parts_file model p.entry) }
{
    let c = put_section(out, at, p.roots, Section::Roots);
    let b = put_section(out, c, p.others, Section::Nodes);
    let a = put_section(out, b, p.registers, Section::Registers);
    put_start(out, a, model)
}

// The file of a model/level and some records, at the front of a lent output that has room for it, and how many bytes it has; an output that has no room keeps its bytes. What follows the last whole record is passed over. It looks at each record four times.
pub fn pack_file(model: u32, records: &[u8], out: &mut [u8]) -> usize
    ensures size { result ≡ length (file_of model (records_in records.now)) }
    ensures output { out.new ≡ packed_in model records.now out.old }
{
    let p = split(records);
    let size = measured(p);
    if out.len() < size {
        return size;
    }
    put_file(out, size, model, p);
    size
}
