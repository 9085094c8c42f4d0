// The parts of a register.
#![tactic(auto)]

ghost use Rattle.std.specs.Prelude.{ℕ, ◌+◌, true, List, map, ◌≡◌, length};
ghost use Rattle.format.specs.Fields.{field_at, address_size};
ghost use Rattle.format.specs.Parsed.{making, requiring};
ghost use Rattle.format.specs.Tree.{RegisterInstance};
ghost use Rattle.format.specs.RegisterLayout.{register_instance_at};
ghost use Rattle.tables.specs.Indexed.{Indexed};
ghost use Rattle.fields.specs.Seen.{unmarked, new_after, Tells};
ghost use Rattle.registers.specs.Registers.{register_flags_at, register_rest_at};
ghost use Rattle.fields.specs.Views.{byte_parsed, number_parsed};
ghost use Rattle.registers.specs.Registers.{register_head_parsed, register_number};

use fields::seen::{instance_number_at, is_new};
use fields::{ByteRead, NumberRead, byte_count_at, flags_at, number_at, type_at};
use format::{Kind, Refusal};
use numbers::Width;

// What a register starts with.
#[derive(Clone, Copy)]
pub struct RegisterHead {
    pub id: u64,
    pub kind: u8,
    pub flags: u8,
    pub count: u8,
}

// A register's head with the place after it, or a refusal.
#[derive(Clone, Copy)]
pub enum RegisterHeadRead {
    Head(RegisterHead, usize),
    Refused(Refusal),
}

// The address of a register instance: four bytes at type 1, eight at type 2.
pub fn address_at(s: &[u8], at: usize, kind: u8) -> NumberRead
    ensures { number_parsed result ≡ field_at s.now at (address_size kind) }
{
    if kind == 1 {
        return number_at(s, at, Width::Four);
    }
    number_at(s, at, Width::Eight)
}

// A register instance: its number. `seen` marks the numbers before it in the register; `begun` instances stand before it in the file, which may have `limit`.
pub fn register_instance_at(
    s: &[u8],
    at: usize,
    kind: u8,
    begun: usize,
    limit: usize,
    seen: &[u8],
) -> ByteRead
    ensures { (total : ℕ) (before : List RegisterInstance)
        → Tells (unmarked seen.now) (map register_number before)
        → begun ≡ total + length before
        → byte_parsed result ≡ making register_number (register_instance_at limit s.now true total kind before at) }
{
    let b = instance_number_at(s, at, begun, limit, seen);
    match b {
        ByteRead::Byte(number, a) => {
            let x = address_at(s, a, kind);
            match x {
                NumberRead::Number(_, end) => ByteRead::Byte(number, end),
                NumberRead::Refused(r) => ByteRead::Refused(r),
            }
        }
        ByteRead::Refused(r) => ByteRead::Refused(r),
    }
}

// The ID of a register: none of those before it, each of which is at most `largest`, and the first `entered` are entered in an index.
pub fn register_id_at(
    s: &[u8],
    at: usize,
    ids: &[u64],
    index: &[u16],
    entered: usize,
    largest: u64,
) -> NumberRead
    ensures { Indexed index.now ids.now entered
        → number_parsed result ≡ requiring (new_after largest ids.now) 7 at (field_at s.now at 3) }
{
    let i = number_at(s, at, Width::Three);
    match i {
        NumberRead::Number(id, next) => {
            if !is_new(ids, index, entered, largest, id) {
                return NumberRead::Refused(Refusal {
                    kind: Kind::Duplicate,
                    place: at,
                });
            }
            NumberRead::Number(id, next)
        }
        NumberRead::Refused(r) => NumberRead::Refused(r),
    }
}

// The flags and the instance count of a register whose ID and type are known.
fn register_flags_at(s: &[u8], at: usize, id: u64, kind: u8) -> RegisterHeadRead
    ensures { register_head_parsed result ≡ register_flags_at s.now id kind at }
{
    let f = flags_at(s, at);
    match f {
        ByteRead::Byte(flags, a) => {
            let n = byte_count_at(s, a);
            match n {
                ByteRead::Byte(count, end) => RegisterHeadRead::Head(
                    RegisterHead {
                        id,
                        kind,
                        flags,
                        count,
                    },
                    end,
                ),
                ByteRead::Refused(r) => RegisterHeadRead::Refused(r),
            }
        }
        ByteRead::Refused(r) => RegisterHeadRead::Refused(r),
    }
}

// The rest of a register's head, after its ID.
pub fn register_rest_at(s: &[u8], at: usize, id: u64) -> RegisterHeadRead
    ensures { register_head_parsed result ≡ register_rest_at s.now id at }
{
    let t = type_at(s, at);
    match t {
        ByteRead::Byte(kind, a) => register_flags_at(s, a, id, kind),
        ByteRead::Refused(r) => RegisterHeadRead::Refused(r),
    }
}
