// The records of a chip data file: 16 bytes for each element, and which records may follow which. Their fields are in docs/RECORDS.md.
#![tactic(auto)]

ghost use Rattle.std.specs.Prelude.{◌+◌, ◌≤◌, ◌≡◌, length};
ghost use Rattle.numbers.specs.Field.{size_of, present, field};
ghost use Rattle.format.specs.Fields.{address_size};
ghost use Rattle.records.specs.Record.{record_within, put_record};
ghost use Rattle.records.specs.Grammar.{expression_of, element_of, nothing};
ghost use Rattle.records.specs.Ranks.{Ranked};
ghost use Rattle.records.specs.Sizes.{own_size};

use numbers::{Width, number_at};

pub mod grammar;

// A record by its fields. The form is its type.
// Kept: the kind and the form are numbers, since they are bytes of the format and any byte may stand there.
#[derive(Clone, Copy)]
pub struct Record {
    pub kind: u8,
    pub form: u8,
    pub amount: u8,
    pub number: u8,
    pub id: u64,
    pub value: u64,
}

// The record of zeros, which is no element.
pub const ZEROS: Record = Record {
    kind: 0,
    form: 0,
    amount: 0,
    number: 0,
    id: 0,
    value: 0,
};

// What a record is: an element of the file, by its kind and, of an expression, by its type; or, of another kind or type, `Unknown`.
#[derive(Clone, Copy)]
pub enum Element {
    Register,
    RegisterInstance,
    Node,
    NodeInstance,
    Capture,
    Rule,
    Reading,
    Constant,
    All,
    Any,
    Inverse,
    Left,
    Right,
    Child,
    Root,
    Unknown,
}

// What the records before one say of it: the kind of the last that is no expression, the type of the last register, how many expressions are owed, and how many elements there are of each count that goes on.
#[derive(Clone, Copy)]
pub struct Before {
    pub last: u8,
    pub form: u8,
    pub owed: u64,
    pub registers: u64,
    pub register_instances: u64,
    pub nodes: u64,
    pub node_instances: u64,
    pub captures: u64,
    pub rules: u64,
    pub children: u64,
    pub roots: u64,
}

// Before the first record.
pub fn nothing_before() -> Before
    ensures { result ≡ nothing }
{
    Before {
        last: 0,
        form: 0,
        owed: 0,
        registers: 0,
        register_instances: 0,
        nodes: 0,
        node_instances: 0,
        captures: 0,
        rules: 0,
        children: 0,
        roots: 0,
    }
}

// A type's rank: the types of expressions have those from 1 to 7.
fn rank_of(form: u8) -> u8
    ensures { Ranked form result }
{
    match form {
        0..=2 => form,
        3..=0xF => 0,
        _ => form - 13,
    }
}

// What an expression of a type is.
#[tactic(auto, unfolding(crate::specs::Grammar::expression_of))]
pub fn expression_of(form: u8) -> Element
    ensures { result ≡ expression_of form }
{
    match rank_of(form) {
        1 => Element::Reading,
        2 => Element::Constant,
        3 => Element::All,
        4 => Element::Any,
        5 => Element::Inverse,
        6 => Element::Left,
        7 => Element::Right,
        _ => Element::Unknown,
    }
}

// What a record of a kind and a type is.
#[tactic(auto, unfolding(crate::specs::Grammar::element_of))]
pub fn element_of(kind: u8, form: u8) -> Element
    ensures { result ≡ element_of kind form }
{
    match kind {
        1 => Element::Register,
        2 => Element::RegisterInstance,
        3 => Element::Node,
        4 => Element::NodeInstance,
        5 => Element::Capture,
        6 => Element::Rule,
        7 => expression_of(form),
        8 => Element::Child,
        9 => Element::Root,
        _ => Element::Unknown,
    }
}

// How many bytes the addresses of a register of a type have.
#[tactic(auto, unfolding(format::specs::Fields::address_size))]
pub fn address_size(form: u8) -> u8
    ensures { result ≡ address_size form }
{
    if form == 1 { 4 } else { 8 }
}

// How many bytes of a file are an element itself; the size is that of an address.
pub fn own_size(size: u8, e: Element) -> usize
    ensures { result ≡ own_size size e }
{
    match e {
        Element::Register => 6,
        Element::RegisterInstance => 1 + size as usize,
        Element::Node | Element::NodeInstance | Element::Capture => 4,
        Element::Rule | Element::Inverse => 1,
        Element::Reading => 5,
        Element::Constant => 9,
        Element::All | Element::Any | Element::Left | Element::Right => 2,
        Element::Child | Element::Root => 4,
        Element::Unknown => 0,
    }
}

// The number of four or eight bytes that are there.
#[tactic(auto, unfolding(numbers::specs::Field::number_at, numbers::specs::Field::present))]
fn field_at(s: &[u8], at: usize, w: Width) -> u64
    requires { at + size_of w ≤ length s.now }
    ensures { result ≡ field s.now at (size_of w) }
{
    match number_at(s, at, w) {
        Some((value, _)) => value,
        None => 0,
    }
}

// Whether the 16 bytes of a record stand at a place.
#[tactic(auto, unfolding(numbers::specs::Field::present))]
fn has_record(s: &[u8], at: usize) -> bool
    ensures { result ≡ present s.now at 16 }
{
    16 <= s.len() && at <= s.len() - 16
}

// The record at a place where 16 bytes stand; elsewhere one of zeros.
#[tactic(auto, unfolding(numbers::specs::Field::present, crate::specs::Record::record_within, crate::specs::Record::record_at))]
pub fn record_at(s: &[u8], at: usize) -> Record
    ensures { result ≡ record_within s.now at }
{
    if !has_record(s, at) {
        return ZEROS;
    }
    Record {
        kind: s[at],
        form: s[at + 1],
        amount: s[at + 2],
        number: s[at + 3],
        id: field_at(s, at + 4, Width::Four),
        value: field_at(s, at + 8, Width::Eight),
    }
}

// A record at a place of a lent output, where there is room for it.
#[tactic(auto, unfolding(numbers::specs::Field::present, crate::specs::Record::put_record))]
pub fn put_record(out: &mut [u8], at: usize, r: Record)
    ensures { out.new ≡ put_record out.old at r }
{
    if !has_record(out, at) {
        return;
    }
    let id = (r.id % 0x1_0000_0000) as u32;
    out[at..at + 4].copy_from_slice(&[r.kind, r.form, r.amount, r.number]);
    out[at + 4..at + 8].copy_from_slice(&id.to_be_bytes());
    out[at + 8..at + 16].copy_from_slice(&r.value.to_be_bytes());
}
