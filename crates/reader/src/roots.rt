// The start of a file and the roots section.
ghost use Rattle.std.specs.Prelude.{true, List, [], map, ◌≡◌, length};
ghost use Rattle.format.specs.Parsed.{making, row_at};
ghost use Rattle.format.specs.Tree.{Root};
ghost use Rattle.format.specs.FileLayout.{start_at, root_at, roots_at};
ghost use Rattle.fields.specs.Seen.{unmarked, Tells};
ghost use Rattle.fields.specs.Views.{byte_parsed, number_parsed, next_parsed, forget};
ghost use Rattle.reader.specs.Roots.{root_attention};

use fields::seen::new_attention_at;
use fields::{
    ByteRead, NextRead, NumberRead, byte_at, byte_count_at, keyword_at, number_at, version_at,
};
use numbers::Width;

// The start of a file: its model/level.
pub fn start_at(s: &[u8], at: usize) -> NumberRead
    ensures { number_parsed result ≡ start_at s.now at }
{
    let k = keyword_at(s, at, &format::CHIPDATA);
    match k {
        NextRead::Next(a) => {
            let m = number_at(s, a, Width::Four);
            match m {
                NumberRead::Number(model, b) => {
                    let v = version_at(s, b);
                    match v {
                        ByteRead::Byte(_, end) => NumberRead::Number(model, end),
                        ByteRead::Refused(r) => NumberRead::Refused(r),
                    }
                }
                NumberRead::Refused(r) => NumberRead::Refused(r),
            }
        }
        NextRead::Refused(r) => NumberRead::Refused(r),
    }
}

// A root: its attention type. `seen` marks the attention types of the roots before it.
fn root_at(s: &[u8], at: usize, seen: &[u8]) -> ByteRead
    ensures { (before : List Root)
        → Tells (unmarked seen.now) (map root_attention before)
        → byte_parsed result ≡ making root_attention (root_at s.now true before at) }
{
    let b = new_attention_at(s, at, seen);
    match b {
        ByteRead::Byte(attention, a) => {
            let i = number_at(s, a, Width::Two);
            match i {
                NumberRead::Number(_, c) => {
                    let n = byte_at(s, c);
                    match n {
                        ByteRead::Byte(_, end) => ByteRead::Byte(attention, end),
                        ByteRead::Refused(r) => ByteRead::Refused(r),
                    }
                }
                NumberRead::Refused(r) => ByteRead::Refused(r),
            }
        }
        ByteRead::Refused(r) => ByteRead::Refused(r),
    }
}

// So many roots. It reads each once.
fn root_rows_at(s: &[u8], at: usize, n: u8) -> NextRead
    ensures { next_parsed result ≡ forget (row_at (root_at s.now true) n [] at) }
{
    let mut seen = [0u8; 256];
    let mut left = n;
    let mut place = at;
    while 0 < left {
        let i = root_at(s, place, &seen);
        match i {
            ByteRead::Byte(attention, next) => {
                seen[attention as usize] = 1;
                place = next;
            }
            ByteRead::Refused(r) => {
                return NextRead::Refused(r);
            }
        }
        left -= 1;
    }
    NextRead::Next(place)
}

// The roots section: how many roots it has.
pub fn roots_at(s: &[u8], at: usize) -> ByteRead
    ensures { byte_parsed result ≡ making length (roots_at s.now true at) }
{
    let k = keyword_at(s, at, &format::ROOT);
    match k {
        NextRead::Next(a) => {
            let c = byte_count_at(s, a);
            match c {
                ByteRead::Byte(n, b) => {
                    let rows = root_rows_at(s, b, n);
                    match rows {
                        NextRead::Next(end) => ByteRead::Byte(n, end),
                        NextRead::Refused(r) => ByteRead::Refused(r),
                    }
                }
                ByteRead::Refused(r) => ByteRead::Refused(r),
            }
        }
        NextRead::Refused(r) => ByteRead::Refused(r),
    }
}
