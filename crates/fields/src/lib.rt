// Fields of a chip data file: bytes and numbers at a place, the values that are allowed of them, and the answers that readers give.
#![tactic(auto)]

ghost use Rattle.std.specs.Prelude.{◌≡◌, eqb};
ghost use Rattle.numbers.specs.Field.{size_of};
ghost use Rattle.format.specs.Parsed.{requiring};
ghost use Rattle.format.specs.Fields.{field_at, same, keyword_at, count_at, type_at, flags_at, attention_at};
ghost use Rattle.fields.specs.Views.{byte_parsed, number_parsed, next_parsed};

use format::{Kind, Refusal};
use numbers::Width;

pub mod seen;

// A byte with the place after it, or a refusal.
#[derive(Clone, Copy)]
pub enum ByteRead {
    Byte(u8, usize),
    Refused(Refusal),
}

// A number with the place after it, or a refusal.
#[derive(Clone, Copy)]
pub enum NumberRead {
    Number(u64, usize),
    Refused(Refusal),
}

// The place after an element whose value is not kept, or a refusal.
#[derive(Clone, Copy)]
pub enum NextRead {
    Next(usize),
    Refused(Refusal),
}

// A register or a node, read whole: its ID, how many instances it has, and the place after it; or a refusal.
#[derive(Clone, Copy)]
pub enum ElementRead {
    Element(u64, u8, usize),
    Refused(Refusal),
}

// How many instances some registers or nodes have, with the place after them; or a refusal.
#[derive(Clone, Copy)]
pub enum CountRead {
    Count(usize, usize),
    Refused(Refusal),
}

// A section: how many registers or nodes it has, how many instances, and the place after it; or a refusal.
#[derive(Clone, Copy)]
pub enum SectionRead {
    Section(usize, usize, usize),
    Refused(Refusal),
}

// An ID that is not below a bound, with the place after it; or a refusal; or neither, where the ID is below.
#[derive(Clone, Copy)]
pub enum RisingId {
    Id(u64, usize),
    Refused(Refusal),
    Falls,
}

// The same of a whole register or node.
#[derive(Clone, Copy)]
pub enum RisingElement {
    Element(u64, u8, usize),
    Refused(Refusal),
    Falls,
}

// The same of some registers or nodes.
#[derive(Clone, Copy)]
pub enum RisingCount {
    Read(CountRead),
    Falls,
}

// The field of one byte.
pub fn byte_at(s: &[u8], at: usize) -> ByteRead
    ensures { byte_parsed result ≡ field_at s.now at 1 }
{
    match numbers::byte_at(s, at) {
        Some((value, next)) => ByteRead::Byte(value, next),
        None => ByteRead::Refused(Refusal {
            kind: Kind::FieldCut,
            place: at,
        }),
    }
}

// The field of two, three, four or eight bytes.
pub fn number_at(s: &[u8], at: usize, w: Width) -> NumberRead
    ensures { number_parsed result ≡ field_at s.now at (size_of w) }
{
    match numbers::number_at(s, at, w) {
        Some((value, next)) => NumberRead::Number(value, next),
        None => NumberRead::Refused(Refusal {
            kind: Kind::FieldCut,
            place: at,
        }),
    }
}

// A count of one byte that may not be zero.
pub fn byte_count_at(s: &[u8], at: usize) -> ByteRead
    ensures { byte_parsed result ≡ count_at s.now at 1 }
{
    let b = byte_at(s, at);
    match b {
        ByteRead::Byte(n, next) => {
            if 0 < n {
                return ByteRead::Byte(n, next);
            }
            ByteRead::Refused(Refusal {
                kind: Kind::ZeroCount,
                place: at,
            })
        }
        ByteRead::Refused(r) => ByteRead::Refused(r),
    }
}

// A longer count that may not be zero.
pub fn number_count_at(s: &[u8], at: usize, w: Width) -> NumberRead
    ensures { number_parsed result ≡ count_at s.now at (size_of w) }
{
    let b = number_at(s, at, w);
    match b {
        NumberRead::Number(count, next) => {
            if 0 < count {
                return NumberRead::Number(count, next);
            }
            NumberRead::Refused(Refusal {
                kind: Kind::ZeroCount,
                place: at,
            })
        }
        NumberRead::Refused(r) => NumberRead::Refused(r),
    }
}

// The version: 1.
pub fn version_at(s: &[u8], at: usize) -> ByteRead
    ensures { byte_parsed result ≡ requiring (eqb 1) 4 at (field_at s.now at 1) }
{
    let b = byte_at(s, at);
    match b {
        ByteRead::Byte(version, next) => {
            if version == 1 {
                return ByteRead::Byte(version, next);
            }
            ByteRead::Refused(Refusal {
                kind: Kind::WrongVersion,
                place: at,
            })
        }
        ByteRead::Refused(r) => ByteRead::Refused(r),
    }
}

// The type of a register or an isolation node: 1 or 2.
pub fn type_at(s: &[u8], at: usize) -> ByteRead
    ensures { byte_parsed result ≡ type_at s.now at }
{
    let b = byte_at(s, at);
    match b {
        ByteRead::Byte(t, next) => {
            if t == 1 {
                return ByteRead::Byte(t, next);
            }
            if t == 2 {
                return ByteRead::Byte(t, next);
            }
            ByteRead::Refused(Refusal {
                kind: Kind::UnknownValue,
                place: at,
            })
        }
        ByteRead::Refused(r) => ByteRead::Refused(r),
    }
}

// A register's flags: the six low bits are 0.
pub fn flags_at(s: &[u8], at: usize) -> ByteRead
    ensures { byte_parsed result ≡ flags_at s.now at }
{
    let b = byte_at(s, at);
    match b {
        ByteRead::Byte(f, next) => {
            if f % 0x40 == 0 {
                return ByteRead::Byte(f, next);
            }
            ByteRead::Refused(Refusal {
                kind: Kind::UnknownValue,
                place: at,
            })
        }
        ByteRead::Refused(r) => ByteRead::Refused(r),
    }
}

// An attention type: 1 to 5.
pub fn attention_at(s: &[u8], at: usize) -> ByteRead
    ensures { byte_parsed result ≡ attention_at s.now at }
{
    let b = byte_at(s, at);
    match b {
        ByteRead::Byte(a, next) => {
            if a < 1 {
                return ByteRead::Refused(Refusal {
                    kind: Kind::UnknownValue,
                    place: at,
                });
            }
            if 5 < a {
                return ByteRead::Refused(Refusal {
                    kind: Kind::UnknownValue,
                    place: at,
                });
            }
            ByteRead::Byte(a, next)
        }
        ByteRead::Refused(r) => ByteRead::Refused(r),
    }
}

// Whether two parts hold the same bytes. It looks at each byte once, up to the first that differs.
fn same_bytes(a: &[u8], b: &[u8]) -> bool
    ensures { result ≡ same a.now b.now }
{
    if a.len() != b.len() {
        return false;
    }
    let mut i = 0;
    while i < a.len() {
        if a[i] != b[i] {
            return false;
        }
        i += 1;
    }
    true
}

// A keyword.
pub fn keyword_at(s: &[u8], at: usize, word: &[u8]) -> NextRead
    ensures { next_parsed result ≡ keyword_at s.now at word.now }
{
    if s.len() < at {
        return NextRead::Refused(Refusal {
            kind: Kind::FieldCut,
            place: at,
        });
    }
    let n = word.len();
    if s.len() - at < n {
        return NextRead::Refused(Refusal {
            kind: Kind::FieldCut,
            place: at,
        });
    }
    let end = at + n;
    if same_bytes(&s[at..end], word) {
        return NextRead::Next(end);
    }
    NextRead::Refused(Refusal {
        kind: Kind::WrongKeyword,
        place: at,
    })
}
