// Expressions: a head, which is what an expression's own fields say, and the operands after it.
#![tactic(auto)]

ghost use Rattle.std.specs.Prelude.{◌≡◌};
ghost use Rattle.format.specs.Fields.{field_at};
ghost use Rattle.format.specs.Parsed.{done, making};
ghost use Rattle.format.specs.ExpressionLayout.{operation_of, expr_at};
ghost use Rattle.expressions.specs.declared.Head.{Head};
ghost use Rattle.expressions.specs.Heads.{arity_of, reading_head_at, operand_count_at, shift_at, operation_head_at, head_at};
ghost use Rattle.fields.specs.Views.{byte_parsed, next_parsed, forget};
ghost use Rattle.expressions.specs.Heads.{head_parsed};
ghost use Rattle.expressions.specs.Openings.{Opening};

use fields::{ByteRead, NextRead, NumberRead, byte_at, number_at};
use format::{Kind, Refusal};
use numbers::Width;

// What an expression's own fields say. Its operands follow: none, the number that it holds, or one.
#[derive(Clone, Copy)]
pub enum Head {
    Reading(u64, u8),
    Constant(u64),
    All(u8),
    Any(u8),
    Inverse,
    Left(u8),
    Right(u8),
}

// A head with the place after it, or a refusal.
#[derive(Clone, Copy)]
pub enum HeadRead {
    Head(Head, usize),
    Refused(Refusal),
}

// How many operands a head has.
pub fn arity(h: Head) -> u8
    ensures { result ≡ arity_of h }
{
    match h {
        Head::Reading(_, _) => 0,
        Head::Constant(_) => 0,
        Head::All(n) => n,
        Head::Any(n) => n,
        Head::Inverse => 1,
        Head::Left(_) => 1,
        Head::Right(_) => 1,
    }
}

// A register ID and an instance.
fn reading_head_at(s: &[u8], at: usize) -> HeadRead
    ensures { head_parsed result ≡ reading_head_at s.now at }
{
    let i = number_at(s, at, Width::Three);
    match i {
        NumberRead::Number(id, a) => {
            let n = byte_at(s, a);
            match n {
                ByteRead::Byte(number, end) => HeadRead::Head(Head::Reading(id, number), end),
                ByteRead::Refused(r) => HeadRead::Refused(r),
            }
        }
        NumberRead::Refused(r) => HeadRead::Refused(r),
    }
}

// A constant of eight bytes.
fn constant_head_at(s: &[u8], at: usize) -> HeadRead
    ensures { head_parsed result ≡ making (λ v. Head.Constant v) (field_at s.now at 8) }
{
    let c = number_at(s, at, Width::Eight);
    match c {
        NumberRead::Number(value, end) => HeadRead::Head(Head::Constant(value), end),
        NumberRead::Refused(r) => HeadRead::Refused(r),
    }
}

// The count of operands of AND and OR: 2 or more.
fn operand_count_at(s: &[u8], at: usize) -> ByteRead
    ensures { byte_parsed result ≡ operand_count_at s.now at }
{
    let b = byte_at(s, at);
    match b {
        ByteRead::Byte(n, next) => {
            if n < 2 {
                return ByteRead::Refused(Refusal {
                    kind: Kind::BadExpression,
                    place: at,
                });
            }
            ByteRead::Byte(n, next)
        }
        ByteRead::Refused(r) => ByteRead::Refused(r),
    }
}

// A shift: 1 or more.
fn shift_at(s: &[u8], at: usize) -> ByteRead
    ensures { byte_parsed result ≡ shift_at s.now at }
{
    let b = byte_at(s, at);
    match b {
        ByteRead::Byte(k, next) => {
            if k < 1 {
                return ByteRead::Refused(Refusal {
                    kind: Kind::BadExpression,
                    place: at,
                });
            }
            ByteRead::Byte(k, next)
        }
        ByteRead::Refused(r) => ByteRead::Refused(r),
    }
}

fn all_head_at(s: &[u8], at: usize) -> HeadRead
    ensures { head_parsed result ≡ making (λ n. Head.All n) (operand_count_at s.now at) }
{
    let c = operand_count_at(s, at);
    match c {
        ByteRead::Byte(n, next) => HeadRead::Head(Head::All(n), next),
        ByteRead::Refused(r) => HeadRead::Refused(r),
    }
}

fn any_head_at(s: &[u8], at: usize) -> HeadRead
    ensures { head_parsed result ≡ making (λ n. Head.Any n) (operand_count_at s.now at) }
{
    let c = operand_count_at(s, at);
    match c {
        ByteRead::Byte(n, next) => HeadRead::Head(Head::Any(n), next),
        ByteRead::Refused(r) => HeadRead::Refused(r),
    }
}

fn left_head_at(s: &[u8], at: usize) -> HeadRead
    ensures { head_parsed result ≡ making (λ k. Head.Left k) (shift_at s.now at) }
{
    let c = shift_at(s, at);
    match c {
        ByteRead::Byte(k, next) => HeadRead::Head(Head::Left(k), next),
        ByteRead::Refused(r) => HeadRead::Refused(r),
    }
}

fn right_head_at(s: &[u8], at: usize) -> HeadRead
    ensures { head_parsed result ≡ making (λ k. Head.Right k) (shift_at s.now at) }
{
    let c = shift_at(s, at);
    match c {
        ByteRead::Byte(k, next) => HeadRead::Head(Head::Right(k), next),
        ByteRead::Refused(r) => HeadRead::Refused(r),
    }
}

// What follows the type byte that stood at `start`.
fn operation_head_at(s: &[u8], start: usize, at: usize, kind: u8) -> HeadRead
    ensures { head_parsed result ≡ operation_head_at s.now start at (operation_of kind) }
{
    match kind {
        0x01 => reading_head_at(s, at),
        0x02 => constant_head_at(s, at),
        0x10 => all_head_at(s, at),
        0x11 => any_head_at(s, at),
        0x12 => HeadRead::Head(Head::Inverse, at),
        0x13 => left_head_at(s, at),
        0x14 => right_head_at(s, at),
        _ => HeadRead::Refused(Refusal {
            kind: Kind::UnknownValue,
            place: start,
        }),
    }
}

// The head of the expression at a place with so many levels left.
pub fn head_at(s: &[u8], at: usize, levels: usize) -> HeadRead
    ensures { head_parsed result ≡ head_at s.now levels at }
{
    let b = byte_at(s, at);
    match b {
        ByteRead::Byte(kind, a) => {
            if levels == 0 {
                return HeadRead::Refused(Refusal {
                    kind: Kind::BadExpression,
                    place: at,
                });
            }
            operation_head_at(s, at, a, kind)
        }
        ByteRead::Refused(r) => HeadRead::Refused(r),
    }
}

// The opening of a reading: five bytes, and no operand.
pub const READING: usize = 0x500;

// The opening of the expression at a place with so many levels left: 256 times the number of its own bytes, and how many operands follow them. It is 0 where the head is
// not accepted.
pub fn opening_at(s: &[u8], at: usize, levels: usize) -> usize
    ensures { (result ≡ 0 → ⊥) → Opening s.now levels at result }
{
    if levels == 0 {
        return 0;
    }
    if s.len() <= at {
        return 0;
    }
    let room = s.len() - at;
    let kind = s[at];
    if kind == 0x01 {
        if room < 5 {
            return 0;
        }
        return READING;
    }
    if kind == 0x02 {
        if room < 9 {
            return 0;
        }
        return 0x900;
    }
    if kind == 0x12 {
        return 0x101;
    }
    if room < 2 {
        return 0;
    }
    let n = s[at + 1];
    if n < 1 {
        return 0;
    }
    if kind == 0x13 {
        return 0x201;
    }
    if kind == 0x14 {
        return 0x201;
    }
    if n < 2 {
        return 0;
    }
    if kind == 0x10 {
        return 0x200 + n as usize;
    }
    if kind == 0x11 {
        return 0x200 + n as usize;
    }
    0
}

// The place after the expression at a place with so many levels left, or 0 where it is not accepted. It reads each byte of the expression at most once.
fn end_of(s: &[u8], at: usize, levels: usize) -> usize
    ensures { (result ≡ 0 → ⊥) → done tt result ≡ forget (expr_at s.now levels at) }
{
    let o = opening_at(s, at, levels);
    if o == 0 {
        return 0;
    }
    let mut left = o % 256;
    let mut place = at + o / 256;
    while 0 < left {
        let next = end_of(s, place, levels - 1);
        if next == 0 {
            return 0;
        }
        place = next;
        left -= 1;
    }
    place
}

// The place after the expression at a place with so many levels left, or its refusal. It reads each byte of the expression at most once.
fn exact_at(s: &[u8], at: usize, levels: usize) -> NextRead
    ensures { next_parsed result ≡ forget (expr_at s.now levels at) }
{
    let top = head_at(s, at, levels);
    match top {
        HeadRead::Head(h, start) => {
            let mut left = arity(h);
            let mut place = start;
            while 0 < left {
                let e = exact_at(s, place, levels - 1);
                match e {
                    NextRead::Next(next) => {
                        place = next;
                    }
                    NextRead::Refused(r) => {
                        return NextRead::Refused(r);
                    }
                }
                left -= 1;
            }
            NextRead::Next(place)
        }
        HeadRead::Refused(r) => NextRead::Refused(r),
    }
}

// The place after the expression at a place with so many levels left. Only where it is not accepted is it read a second time, for its refusal.
pub fn expression_at(s: &[u8], at: usize, levels: usize) -> NextRead
    ensures { next_parsed result ≡ forget (expr_at s.now levels at) }
{
    let next = end_of(s, at, levels);
    if next != 0 {
        return NextRead::Next(next);
    }
    exact_at(s, at, levels)
}
