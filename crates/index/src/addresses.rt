// Where the address of a register instance stands, in a registers section that was read before.
ghost use Rattle.std.specs.Prelude.{ℕ, ◌+◌, ◌≤◌, true, List, [], ◌≡◌, length};
ghost use Rattle.format.specs.Fields.{address_size};
ghost use Rattle.format.specs.Lookup.{position, at, gathered, entries_of, register_named};
ghost use Rattle.format.specs.Parsed.{done, row_at};
ghost use Rattle.format.specs.Refusals.{address_values};
ghost use Rattle.format.specs.RegisterLayout.{RegisterHead, register_instance_at, register_head_at, register_at, registers_at};
ghost use Rattle.format.specs.Tree.{RegisterInstance, Register};
ghost use Rattle.format.specs.Verdict.{address_in};
ghost use Rattle.index.specs.Rows.{head_of, instance_of};
ghost use Rattle.index.specs.Sought.{address_among, register_of};

use crate::{Head, Instance};
use fields::{ByteRead, NextRead, NumberRead, byte_at, keyword_at, number_at, number_count_at};
use format::{Address, Kind, Refusal};
use numbers::Width;
use registers::{RegisterHeadRead, address_at, register_rest_at};

// A register instance that was read before.
fn instance_at(s: &[u8], at: usize, kind: u8) -> Instance
    ensures { (limit total : ℕ) (before : List RegisterInstance) (i : RegisterInstance) (m : ℕ)
        → register_instance_at limit s.now true total kind before at ≡ done i m
        → result ≡ instance_of i.number i.place m }
{
    let b = byte_at(s, at);
    match b {
        ByteRead::Byte(number, place) => {
            let x = address_at(s, place, kind);
            match x {
                NumberRead::Number(_, next) => Instance {
                    number,
                    place,
                    next,
                },
                NumberRead::Refused(_) => Instance {
                    number,
                    place,
                    next: place,
                },
            }
        }
        ByteRead::Refused(_) => Instance {
            number: 0,
            place: at,
            next: at,
        },
    }
}

// Where a register that was read before is not there, which does not happen.
fn no_head(next: usize) -> Head {
    Head {
        id: 0,
        kind: 0,
        count: 0,
        next,
    }
}

// What a register that was read before starts with.
fn head_at(s: &[u8], at: usize) -> Head
    ensures { (ids : List ℕ) (h : RegisterHead) (m : ℕ) → register_head_at s.now true ids at ≡ done h m → result ≡ head_of h m }
{
    let i = number_at(s, at, Width::Three);
    match i {
        NumberRead::Number(id, a) => {
            let top = register_rest_at(s, a, id);
            match top {
                RegisterHeadRead::Head(h, next) => Head {
                    id: h.id,
                    kind: h.kind,
                    count: h.count,
                    next,
                },
                RegisterHeadRead::Refused(_) => no_head(a),
            }
        }
        NumberRead::Refused(_) => no_head(at),
    }
}

// The answer where there is no such register instance.
fn absent() -> Result<Address, Refusal>
    ensures { address_values result ≡ address_in [] }
{
    Err(Refusal {
        kind: Kind::NameAbsent,
        place: 0,
    })
}

// The size of an address: four bytes at type 1, eight at type 2.
fn address_size(kind: u8) -> usize
    ensures { result ≡ address_size kind }
{
    if kind == 1 {
        return 4;
    }
    8
}

// The address of the instance of that number, of a register that was read before. It reads each instance once, up to that one.
fn instance_address(s: &[u8], h: Head, number: u8) -> Result<Address, Refusal>
    ensures { (limit total flags : ℕ) (is : List RegisterInstance) (m : ℕ)
        → row_at (register_instance_at limit s.now true total h.kind) h.count [] h.next ≡ done is m
        → address_values result ≡ address_among h.id number (entries_of (register_of h.id h.kind flags is)) }
{
    let kind = h.kind;
    let mut left = h.count;
    let mut place = h.next;
    while 0 < left {
        let i = instance_at(s, place, kind);
        if i.number == number {
            return Ok(Address {
                place: i.place,
                size: address_size(kind),
            });
        }
        place = i.next;
        left -= 1;
    }
    absent()
}

// The address of the instance of that ID and number, if it is one of a register that was read before. It looks at no instance of a register with another ID.
fn register_address(s: &[u8], h: Head, id: u64, number: u8) -> Result<Address, Refusal>
    ensures { (limit total flags : ℕ) (is : List RegisterInstance) (m : ℕ)
        → row_at (register_instance_at limit s.now true total h.kind) h.count [] h.next ≡ done is m
        → address_values result ≡ address_among id number (entries_of (register_of h.id h.kind flags is)) }
{
    if h.id == id {
        return instance_address(s, h, number);
    }
    absent()
}

// The place so many bytes on, where these stand in the file; where they do not, the place itself.
fn place_after(s: &[u8], at: usize, n: usize) -> usize
    ensures value { at + n ≤ length s.now → result ≡ at + n }
    ensures value_2 { n ≡ 0 → result ≡ at }
{
    if s.len() < n {
        return at;
    }
    if s.len() - n < at {
        return at;
    }
    at + n
}

// The place after the instances of a register that was read before. Each is a number byte and an address, so it reads none.
fn after_instances(s: &[u8], h: Head) -> usize
    ensures { (limit total : ℕ) (is : List RegisterInstance) (m : ℕ)
        → row_at (register_instance_at limit s.now true total h.kind) h.count [] h.next ≡ done is m
        → result ≡ m }
{
    let n = h.count as usize;
    if h.kind == 1 {
        return place_after(s, h.next, n * 5);
    }
    place_after(s, h.next, n * 9)
}

// The address of the instance of that ID and number among those of so many registers that were read before. It reads the head of each, up to the one that is sought.
fn row_address(s: &[u8], from: usize, n: u64, id: u64, number: u8) -> Result<Address, Refusal>
    ensures { (limit : ℕ) (rs : List Register) (m : ℕ)
        → row_at (register_at limit s.now true) n [] from ≡ done rs m
        → address_values result ≡ address_among id number (gathered entries_of rs) }
{
    let mut left = n;
    let mut place = from;
    while 0 < left {
        let h = head_at(s, place);
        let a = register_address(s, h, id, number);
        match a {
            Ok(found) => {
                return Ok(found);
            }
            Err(_) => {
                place = after_instances(s, h);
            }
        }
        left -= 1;
    }
    absent()
}

// The address of the instance of that ID and number in a registers section that was read before: its place and its size; or refusal 12 at 0 where no register has such an instance.
// It walks over the section once, up to the instance that is sought, and keeps no table.
pub fn find_address(s: &[u8], from: usize, id: u64, number: u8) -> Result<Address, Refusal>
    ensures { (limit : ℕ) (rs : List Register) (m : ℕ)
        → registers_at limit s.now true from ≡ done rs m
        → address_values result ≡ address_in (at (position (register_named id number) (gathered entries_of rs)) (gathered entries_of rs)) }
{
    let k = keyword_at(s, from, &format::REGS);
    match k {
        NextRead::Next(a) => {
            let c = number_count_at(s, a, Width::Three);
            match c {
                NumberRead::Number(n, b) => row_address(s, b, n, id, number),
                NumberRead::Refused(_) => absent(),
            }
        }
        NextRead::Refused(_) => absent(),
    }
}
