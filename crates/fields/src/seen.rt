// What the reader keeps of the elements before: marks for numbers of one byte, and a list of IDs with the largest of them.
ghost use Rattle.std.specs.Prelude.{ℕ, max, ◌≤◌, ◌<◌, true, not, List, ◌≡◌, length};
ghost use Rattle.tables.specs.Indexed.{Indexed};
ghost use Rattle.numbers.specs.Field.{size_of};
ghost use Rattle.format.specs.Fields.{field_at, attention_at, fresh};
ghost use Rattle.format.specs.Parsed.{requiring};
ghost use Rattle.fields.specs.Rising.{IdTold};
ghost use Rattle.fields.specs.Seen.{unmarked, new_after, instance_number_at, Below};
ghost use Rattle.fields.specs.Views.{byte_parsed};

use crate::{ByteRead, NumberRead, RisingId, attention_at, byte_at, number_at};
use format::{Kind, Refusal};
use numbers::Width;
use tables::position_of;
use tables::positions::{enter_from, find};

// Whether a number has a mark.
pub fn is_marked(seen: &[u8], x: u8) -> bool
    ensures { result ≡ not (unmarked seen.now x) }
{
    let i = x as usize;
    if i < seen.len() {
        return seen[i] != 0;
    }
    false
}

// Whether an ID is new after those of a list, each of which is at most `largest`; the first `entered` of them are entered in an index. Where the ID is above `largest` it looks at
// none of them, and where all are entered it goes by the index.
pub fn is_new(ids: &[u64], index: &[u16], entered: usize, largest: u64, id: u64) -> bool
    ensures { Indexed index.now ids.now entered → result ≡ new_after largest ids.now id }
{
    if largest < id {
        return true;
    }
    if entered == ids.len() {
        return ids.len() <= find(index, ids, id);
    }
    ids.len() <= position_of(ids, id)
}

// Enters the IDs of a list, the last of which is `id`, after the first `entered` of them: how many are entered. It enters none where none was and `id` is above `largest`.
pub fn enter_ids(ids: &[u64], index: &mut [u16], entered: usize, largest: u64, id: u64) -> usize
    ensures { (result ≤ length ids.now) × (length ids.now < 65536
        → Indexed index.old ids.now entered
        → Indexed index.new ids.now result) }
{
    if entered == 0 && largest < id {
        return 0;
    }
    enter_from(ids, index, entered);
    ids.len()
}

// The larger of two IDs.
pub fn larger(a: u64, b: u64) -> u64
    ensures { result ≡ max a b }
{
    if a < b {
        return b;
    }
    a
}

// An ID of two or three bytes after others that are all below `bound`: it is new where it is not below `bound` too. It looks at none of the others.
pub fn rising_id_at(s: &[u8], at: usize, w: Width, bound: u64) -> RisingId
    ensures { (numbers : List ℕ)
        → Below bound numbers
        → IdTold (size_of w) bound result (requiring (fresh true numbers) 7 at (field_at s.now at (size_of w))) }
{
    let i = number_at(s, at, w);
    match i {
        NumberRead::Number(id, next) => {
            if id < bound {
                return RisingId::Falls;
            }
            RisingId::Id(id, next)
        }
        NumberRead::Refused(r) => RisingId::Refused(r),
    }
}

// The number byte of an instance: `seen` marks the numbers before it, and `begun` instances stand before it in the file.
pub fn instance_number_at(s: &[u8], at: usize, begun: usize, limit: usize, seen: &[u8]) -> ByteRead
    ensures { byte_parsed result ≡ instance_number_at s.now (unmarked seen.now) begun limit at }
{
    let b = byte_at(s, at);
    match b {
        ByteRead::Byte(number, next) => {
            if limit <= begun {
                return ByteRead::Refused(Refusal {
                    kind: Kind::TooManyInstances,
                    place: at,
                });
            }
            if is_marked(seen, number) {
                return ByteRead::Refused(Refusal {
                    kind: Kind::Duplicate,
                    place: at,
                });
            }
            ByteRead::Byte(number, next)
        }
        ByteRead::Refused(r) => ByteRead::Refused(r),
    }
}

// An attention type that has no mark yet.
pub fn new_attention_at(s: &[u8], at: usize, seen: &[u8]) -> ByteRead
    ensures { byte_parsed result ≡ requiring (unmarked seen.now) 7 at (attention_at s.now at) }
{
    let b = attention_at(s, at);
    match b {
        ByteRead::Byte(attention, next) => {
            if is_marked(seen, attention) {
                return ByteRead::Refused(Refusal {
                    kind: Kind::Duplicate,
                    place: at,
                });
            }
            ByteRead::Byte(attention, next)
        }
        ByteRead::Refused(r) => ByteRead::Refused(r),
    }
}
