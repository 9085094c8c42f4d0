// What the node instances' rules give with readings: the active bits of each, and where one names a register without a reading.
ghost use Rattle.std.specs.Prelude.{ℕ, not, ◌≡◌, ltb};
ghost use Rattle.format.specs.ExpressionLayout.{expr_at};
ghost use Rattle.limits.specs.Limits.{levels};
ghost use Rattle.format.specs.Lookup.{some};
ghost use Rattle.format.specs.Parsed.{done};
ghost use Rattle.format.specs.Tree.{Expr};
ghost use Rattle.tables.specs.Indexed.{IndexOf};
ghost use Rattle.isolation.specs.Activity.{activity_of, inactive, unread_at, first_unread, fitting};

use crate::Activity;
use evaluation::value_at;
use tables::entry;

// What the rule whose expression stands at a place gives; 0 is the place of no rule. It reads each byte of the expression once.
pub fn active_at(
    s: &[u8],
    at: usize,
    index: &[u16],
    keys: &[u64],
    words: &[u64],
    read: &[u8],
) -> Activity
    ensures value { at ≡ 0 → result ≡ inactive }
    ensures value_2 { IndexOf index.now keys.now → (e : Expr) (m : ℕ)
        → (at ≡ 0 → ⊥)
        → expr_at s.now levels at ≡ done e m
        → result ≡ activity_of keys.now words.now read.now e }
{
    if at == 0 {
        return Activity { word: 0, unread: 0 };
    }
    let v = value_at(s, at, limits::LEVELS, index, keys, words, read);
    if v.unread {
        return Activity {
            word: 0,
            unread: v.place,
        };
    }
    Activity {
        word: v.word,
        unread: 0,
    }
}

// The place that a table holds for the node instance i, if it is done; otherwise 0.
fn unread_at(marks: &[u8], unread: &[u64], i: usize) -> u64
    ensures { result ≡ unread_at marks.now unread.now i }
{
    if i < marks.len() {
        if marks[i] == 2 {
            return entry(unread, i);
        }
    }
    0
}

// The first place that a table holds for a done one of the first n node instances; 0 where it holds none. It looks at each instance once, up to that one.
pub fn first_unread(marks: &[u8], unread: &[u64], n: usize) -> usize
    ensures { result ≡ first_unread marks.now unread.now n }
{
    let mut i = 0;
    while i < n {
        let p = unread_at(marks, unread, i);
        if p != 0 {
            return p as usize;
        }
        i += 1;
    }
    0
}

// Every read byte is 0 or 1. It looks at each once.
fn all_known(read: &[u8]) -> bool
    ensures { result ≡ not (some (ltb 1) read.now) }
{
    let mut i = 0;
    while i < read.len() {
        if 1 < read[i] {
            return false;
        }
        i += 1;
    }
    true
}

// The readings fit so many register instances. It looks at each read byte once.
#[tactic(auto, using(crate::proofs::ActivityLaws::words_other))]
pub fn readings_fit(m: usize, words: &[u64], read: &[u8]) -> bool
    ensures { result ≡ fitting m words.now read.now }
{
    if words.len() != m {
        return false;
    }
    if read.len() != m {
        return false;
    }
    all_known(read)
}
