// What a rule's expression is worth with readings. Only isolation calls it.
#![tactic(auto)]

ghost use Rattle.std.specs.Prelude.{ℕ, ◌≡◌, eqb, get_or};
ghost use Rattle.format.specs.ExpressionLayout.{expr_at};
ghost use Rattle.format.specs.Parsed.{done};
ghost use Rattle.format.specs.Tree.{Expr};
ghost use Rattle.tables.specs.Indexed.{IndexOf};
ghost use Rattle.expressions.specs.declared.Head.{Head};
ghost use Rattle.evaluation.specs.Value.{valued};
ghost use Rattle.evaluation.specs.Combining.{combined, plain_value, own_value, joined_value};

use expressions::{Head, HeadRead, arity, head_at};
use numbers::{and_word, left_word, not_word, or_word, right_word};
use tables::entry;
use tables::positions::find_name;

// The value of an expression, whether it names a register without a reading, the place of the first such, and the place after it.
#[derive(Clone, Copy)]
pub struct Value {
    pub word: u64,
    pub unread: bool,
    pub place: usize,
    pub next: usize,
}

// Whether the register instance at a position has a reading; one that the list does not have has none.
fn is_read(read: &[u8], k: usize) -> bool
    ensures { result ≡ eqb (get_or read.now k 0) 1 }
{
    if k < read.len() {
        return read[k] == 1;
    }
    false
}

// The reading of the register that the expression at a place names.
fn reading_value(
    id: u64,
    number: u8,
    at: usize,
    next: usize,
    index: &[u16],
    keys: &[u64],
    words: &[u64],
    read: &[u8],
) -> Value
    ensures { IndexOf index.now keys.now → result ≡ own_value keys.now words.now read.now at (Head.Reading id number) next }
{
    let k = find_name(index, keys, id, number);
    let word = entry(words, k);
    if is_read(read, k) {
        return Value {
            word: word,
            unread: false,
            place: 0,
            next: next,
        };
    }
    Value {
        word: word,
        unread: true,
        place: at,
        next: next,
    }
}

// What a head gives before any operand, where it names no register.
fn plain_value(word: u64, next: usize) -> Value
    ensures { result ≡ plain_value word next }
{
    Value {
        word: word,
        unread: false,
        place: 0,
        next: next,
    }
}

// What a head, which stands at a place, gives before any operand.
fn own_value(
    h: Head,
    at: usize,
    next: usize,
    index: &[u16],
    keys: &[u64],
    words: &[u64],
    read: &[u8],
) -> Value
    ensures { IndexOf index.now keys.now → result ≡ own_value keys.now words.now read.now at h next }
{
    match h {
        Head::Reading(id, number) => reading_value(id, number, at, next, index, keys, words, read),
        Head::Constant(v) => plain_value(v, next),
        Head::All(_) => plain_value(0xFFFF_FFFF_FFFF_FFFF, next),
        Head::Any(_) => plain_value(0, next),
        Head::Inverse => plain_value(0, next),
        Head::Left(_) => plain_value(0, next),
        Head::Right(_) => plain_value(0, next),
    }
}

// The word after one more operand, which is x.
fn combine(h: Head, acc: u64, x: u64) -> u64
    ensures { result ≡ combined h acc x }
{
    match h {
        Head::Reading(_, _) => acc,
        Head::Constant(_) => acc,
        Head::All(_) => and_word(acc, x),
        Head::Any(_) => or_word(acc, x),
        Head::Inverse => not_word(x),
        Head::Left(k) => left_word(x, k),
        Head::Right(k) => right_word(x, k),
    }
}

// What is known after one more operand, which gives x.
fn joined(h: Head, v: Value, x: Value) -> Value
    ensures { result ≡ joined_value h v x }
{
    let word = combine(h, v.word, x.word);
    if v.unread {
        return Value {
            word: word,
            unread: true,
            place: v.place,
            next: x.next,
        };
    }
    Value {
        word: word,
        unread: x.unread,
        place: x.place,
        next: x.next,
    }
}

// The value of the expression at a place, and the first register that it names without a reading. It speaks of an expression that
// is read with so many levels left. It reads each byte of the expression once: no operand is passed over.
pub fn value_at(
    s: &[u8],
    at: usize,
    levels: usize,
    index: &[u16],
    keys: &[u64],
    words: &[u64],
    read: &[u8],
) -> Value
    ensures { IndexOf index.now keys.now → (e : Expr) (m : ℕ) → expr_at s.now levels at ≡ done e m
        → result ≡ valued levels keys.now words.now read.now e m }
{
    let top = head_at(s, at, levels);
    match top {
        HeadRead::Head(h, start) => {
            let mut ahead = arity(h);
            let mut v = own_value(h, at, start, index, keys, words, read);
            while 0 < ahead {
                let place = v.next;
                let x = value_at(s, place, levels - 1, index, keys, words, read);
                v = joined(h, v, x);
                ahead -= 1;
            }
            v
        }
        HeadRead::Refused(_) => plain_value(0, at),
    }
}
