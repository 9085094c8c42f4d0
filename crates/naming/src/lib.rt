// The registers that captures and rules name: whether all of them fit, and once the layout was read, their faults, refusals 12 and 13.
#![tactic(auto)]

ghost use Rattle.std.specs.Prelude.{ℕ, ◌+◌, ◌≤◌, true, length, ◌++◌, ◌≡◌};
ghost use Rattle.format.specs.ExpressionLayout.{expr_at};
ghost use Rattle.format.specs.Lookup.{gathered};
ghost use Rattle.format.specs.Parsed.{done};
ghost use Rattle.format.specs.References.{unless, named_by};
ghost use Rattle.format.specs.Tree.{Expr};
ghost use Rattle.tables.specs.Faults.{judged_at, register_faults_in, name_faults};
ghost use Rattle.tables.specs.Indexed.{IndexOf};
ghost use Rattle.tables.specs.Kinds.{readable_kind};
ghost use Rattle.expressions.specs.declared.Head.{Head};
ghost use Rattle.fields.specs.Views.{next_parsed, forget};
ghost use Rattle.expressions.specs.Names.{own_names};
ghost use Rattle.naming.specs.Fits.{key_in, KeyFits, CapturesFit, RulesFit};

use expressions::{Head, HeadRead, READING, arity, head_at, opening_at};
use fields::NextRead;
use format::{Kind, Refusal};
use tables::entry;
use tables::positions::{find, find_name};

// A register that is named at a place: 12 where it was not found, then 13 where it is not fit, otherwise the place after it.
fn register_fault(found: bool, fit: bool, at: usize, next: usize) -> NextRead
    ensures { next_parsed result ≡ judged_at (unless found 12 at ++ unless fit 13 at) next }
{
    if found {
        if fit {
            return NextRead::Next(next);
        }
        return NextRead::Refused(Refusal {
            kind: Kind::RegisterUnfit,
            place: at,
        });
    }
    NextRead::Refused(Refusal {
        kind: Kind::NameAbsent,
        place: at,
    })
}

// The fault of the register that the capture at a place names, or the place after it: a captured register is readable.
pub fn capture_fault(
    id: u64,
    number: u8,
    at: usize,
    next: usize,
    index: &[u16],
    keys: &[u64],
    kinds: &[u64],
) -> NextRead
    ensures { IndexOf index.now keys.now
        → next_parsed result ≡ judged_at (register_faults_in keys.now kinds.now readable_kind id number at) next }
{
    let k = find_name(index, keys, id, number);
    register_fault(k < keys.len(), entry(kinds, k) % 2 == 1, at, next)
}

// The fault of the register that the expression at a place names, or the place after it: it has the kind that the rule's node asks for.
fn name_fault(
    id: u64,
    number: u8,
    at: usize,
    next: usize,
    kind: u64,
    index: &[u16],
    keys: &[u64],
    kinds: &[u64],
) -> NextRead
    ensures { IndexOf index.now keys.now
        → next_parsed result ≡ judged_at (gathered (name_faults keys.now kinds.now kind) (own_names at (Head.Reading id number))) next }
{
    let k = find_name(index, keys, id, number);
    register_fault(k < keys.len(), entry(kinds, k) == kind, at, next)
}

// The fault of a head itself, which stands at a place: only a reading names a register.
fn own_fault(
    h: Head,
    at: usize,
    next: usize,
    kind: u64,
    index: &[u16],
    keys: &[u64],
    kinds: &[u64],
) -> NextRead
    ensures { IndexOf index.now keys.now
        → next_parsed result ≡ judged_at (gathered (name_faults keys.now kinds.now kind) (own_names at h)) next }
{
    match h {
        Head::Reading(id, number) => name_fault(id, number, at, next, kind, index, keys, kinds),
        Head::Constant(_) => NextRead::Next(next),
        Head::All(_) => NextRead::Next(next),
        Head::Any(_) => NextRead::Next(next),
        Head::Inverse => NextRead::Next(next),
        Head::Left(_) => NextRead::Next(next),
        Head::Right(_) => NextRead::Next(next),
    }
}

// What the register is kept as whose name stands at a place: the four bytes there, the first highest.
fn key_at(s: &[u8], at: usize) -> u64
    requires { at + 4 ≤ length s.now }
    ensures { result ≡ key_in s.now at }
{
    s[at] as u64 * 0x1000000
        + s[at + 1] as u64 * 0x10000
        + s[at + 2] as u64 * 0x100
        + s[at + 3] as u64
}

// Whether the register that is kept as x is there and has the kind.
fn key_fits(x: u64, kind: u64, index: &[u16], keys: &[u64], kinds: &[u64]) -> bool
    ensures { IndexOf index.now keys.now → result ≡ true
        → KeyFits keys.now kinds.now kind x }
{
    let k = find(index, keys, x);
    if k < keys.len() {
        return entry(kinds, k) == kind;
    }
    false
}

// Whether so many captures are there at a place, and each names a register that is there and readable. It looks each up once, up to the first that does not fit.
pub fn captures_fit(s: &[u8], at: usize, n: u8, index: &[u16], keys: &[u64], kinds: &[u64]) -> bool
    ensures { IndexOf index.now keys.now → result ≡ true
        → CapturesFit s.now keys.now kinds.now n at }
{
    if s.len() < at {
        return false;
    }
    if s.len() - at < n as usize * 4 {
        return false;
    }
    let mut left = n;
    let mut place = at;
    while 0 < left {
        let k = find(index, keys, key_at(s, place));
        if keys.len() <= k {
            return false;
        }
        if entry(kinds, k) % 2 != 1 {
            return false;
        }
        place += 4;
        left -= 1;
    }
    true
}

// The place after the expression at a place, where it is read with so many levels left and every register that it names is there and has the kind; otherwise 0. It reads each
// byte of the expression at most once.
fn fit_at(
    s: &[u8],
    at: usize,
    levels: usize,
    kind: u64,
    index: &[u16],
    keys: &[u64],
    kinds: &[u64],
) -> usize
    ensures { IndexOf index.now keys.now → (result ≡ 0 → ⊥)
        → (done tt result ≡ forget (expr_at s.now levels at))
        × ((e : Expr) (m : ℕ) → expr_at s.now levels at ≡ done e m
        → done tt result ≡ judged_at (gathered (name_faults keys.now kinds.now kind) (named_by e)) m) }
{
    let o = opening_at(s, at, levels);
    if o == 0 {
        return 0;
    }
    let start = at + o / 256;
    if o == READING {
        if key_fits(key_at(s, at + 1), kind, index, keys, kinds) {
            return start;
        }
        return 0;
    }
    let mut left = o % 256;
    let mut place = start;
    while 0 < left {
        let next = fit_at(s, place, levels - 1, kind, index, keys, kinds);
        if next == 0 {
            return 0;
        }
        place = next;
        left -= 1;
    }
    place
}

// The place after so many rules at a place, where they are read and every register that they name is there and has the kind; otherwise 0. It reads each byte of the rules at most once.
pub fn rules_fit(
    s: &[u8],
    at: usize,
    n: u8,
    kind: u64,
    index: &[u16],
    keys: &[u64],
    kinds: &[u64],
) -> usize
    ensures { IndexOf index.now keys.now → (result ≡ 0 → ⊥)
        → RulesFit s.now keys.now kinds.now kind n at result }
{
    let mut seen = [0u8; 6];
    let mut left = n;
    let mut place = at;
    while 0 < left {
        if s.len() <= place {
            return 0;
        }
        let a = s[place];
        if a < 1 {
            return 0;
        }
        if 5 < a {
            return 0;
        }
        if seen[a as usize] != 0 {
            return 0;
        }
        let end = fit_at(s, place + 1, limits::LEVELS, kind, index, keys, kinds);
        if end == 0 {
            return 0;
        }
        seen[a as usize] = 1;
        place = end;
        left -= 1;
    }
    place
}

// The first fault among the registers that the expression at a place names, or the place after the expression. It speaks of an
// expression that is read with so many levels left. It reads each byte of the expression at most once.
fn first_fault_at(
    s: &[u8],
    at: usize,
    levels: usize,
    kind: u64,
    index: &[u16],
    keys: &[u64],
    kinds: &[u64],
) -> NextRead
    ensures { IndexOf index.now keys.now → (e : Expr) (m : ℕ) → expr_at s.now levels at ≡ done e m
        → next_parsed result ≡ judged_at (gathered (name_faults keys.now kinds.now kind) (named_by e)) m }
{
    let top = head_at(s, at, levels);
    match top {
        HeadRead::Head(h, start) => {
            let own = own_fault(h, at, start, kind, index, keys, kinds);
            match own {
                NextRead::Next(first) => {
                    let mut left = arity(h);
                    let mut place = first;
                    while 0 < left {
                        let e = first_fault_at(s, place, levels - 1, kind, index, keys, kinds);
                        match e {
                            NextRead::Next(next) => {
                                place = next;
                            }
                            NextRead::Refused(r) => {
                                return NextRead::Refused(r);
                            }
                        }
                        left -= 1;
                    }
                    NextRead::Next(place)
                }
                NextRead::Refused(r) => NextRead::Refused(r),
            }
        }
        HeadRead::Refused(r) => NextRead::Refused(r),
    }
}

// The first fault among the registers that the expression at a place names, or the place after the expression. It speaks of an
// expression that is read with so many levels left. Only where a register does not fit is it read a second time, for its fault.
pub fn faults_at(
    s: &[u8],
    at: usize,
    levels: usize,
    kind: u64,
    index: &[u16],
    keys: &[u64],
    kinds: &[u64],
) -> NextRead
    ensures { IndexOf index.now keys.now → (e : Expr) (m : ℕ) → expr_at s.now levels at ≡ done e m
        → next_parsed result ≡ judged_at (gathered (name_faults keys.now kinds.now kind) (named_by e)) m }
{
    let next = fit_at(s, at, levels, kind, index, keys, kinds);
    if next != 0 {
        return NextRead::Next(next);
    }
    first_fault_at(s, at, levels, kind, index, keys, kinds)
}
