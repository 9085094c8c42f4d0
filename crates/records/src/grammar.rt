// Which records may follow which: refusal 40.
ghost use Rattle.std.specs.Prelude.{◌≤◌, ◌^◌, true, ◌≡◌, Err};
ghost use Rattle.format.specs.Parsed.{refused, making};
ghost use Rattle.records.specs.Grammar.{after, is_owed, follows, counted, used_alone, widths, allowed_as, paid, with_element, grammar};
ghost use Rattle.records.specs.Judging.{LargestOf, within, capped, finish, judged_parsed};

use crate::{Before, Element, Record, element_of, nothing_before, record_at};
use format::{Kind, Refusal};

// The largest value of each field of a record that has a width.
#[derive(Clone, Copy)]
struct Largest {
    form: u8,
    amount: u8,
    number: u8,
    id: u64,
    value: u64,
}

// Those of fields that are not used.
const UNUSED: Largest = Largest {
    form: 0,
    amount: 0,
    number: 0,
    id: 0,
    value: 0,
};

// The largest values of an element's fields; the type is that of the register before.
#[tactic(auto, unfolding(format::specs::Fields::address_size))]
fn largest_of(form: u8, e: Element) -> Largest
    ensures { LargestOf (widths form e) result }
{
    match e {
        Element::Register => Largest {
            form: 255,
            amount: 255,
            id: 0xFF_FFFF,
            ..UNUSED
        },
        Element::RegisterInstance => Largest {
            number: 255,
            value: if form == 1 { 0xFFFF_FFFF } else { u64::MAX },
            ..UNUSED
        },
        Element::Node => Largest {
            form: 255,
            id: 0xFFFF,
            ..UNUSED
        },
        Element::NodeInstance => Largest {
            number: 255,
            ..UNUSED
        },
        Element::Capture => Largest {
            number: 255,
            id: 0xFF_FFFF,
            ..UNUSED
        },
        Element::Rule | Element::Inverse => Largest {
            form: 255,
            ..UNUSED
        },
        Element::Reading => Largest {
            form: 255,
            number: 255,
            id: 0xFF_FFFF,
            ..UNUSED
        },
        Element::Constant => Largest {
            form: 255,
            value: u64::MAX,
            ..UNUSED
        },
        Element::All | Element::Any | Element::Left | Element::Right => Largest {
            form: 255,
            amount: 255,
            ..UNUSED
        },
        Element::Child => Largest {
            amount: 255,
            number: 255,
            id: 0xFFFF,
            ..UNUSED
        },
        Element::Root => Largest {
            form: 255,
            number: 255,
            id: 0xFFFF,
            ..UNUSED
        },
        Element::Unknown => UNUSED,
    }
}

// Whether no field is above its largest value.
#[tactic(auto, unfolding(crate::specs::Judging::within))]
fn is_within(r: Record, m: Largest) -> bool
    ensures { result ≡ within m.form m.amount m.number m.id m.value r }
{
    r.form <= m.form
        && r.amount <= m.amount
        && r.number <= m.number
        && r.id <= m.id
        && r.value <= m.value
}

// Whether every byte that a record does not use is zero.
#[tactic(auto, using(crate::proofs::TestLaws::within_used))]
fn used_alone(r: Record, form: u8, e: Element) -> bool
    ensures { result ≡ used_alone (widths form e) r }
{
    is_within(r, largest_of(form, e))
}

impl Before {
    // Whether no expression is owed and the last kind is one of these.
    #[tactic(auto, unfolding(crate::specs::Grammar::after))]
    fn is_after(self, least: u8, most: u8) -> bool
        ensures { result ≡ after least most self }
    {
        self.owed == 0 && least <= self.last && self.last <= most
    }

    // Whether an element may follow.
    #[tactic(auto, unfolding(crate::specs::Grammar::is_owed))]
    fn is_followed_by(self, e: Element) -> bool
        ensures { result ≡ follows self e }
    {
        match e {
            Element::Register => self.is_after(0, 2),
            Element::RegisterInstance => self.is_after(1, 2),
            Element::Node => self.is_after(0, 8),
            Element::NodeInstance => self.is_after(3, 8),
            Element::Capture => self.is_after(4, 5),
            Element::Rule => self.is_after(4, 6),
            Element::Reading
            | Element::Constant
            | Element::All
            | Element::Any
            | Element::Inverse
            | Element::Left
            | Element::Right => 0 < self.owed,
            Element::Child => self.is_after(4, 8),
            Element::Root => self.is_after(0, 9),
            Element::Unknown => false,
        }
    }

    // Whether the count field that an element counts for has room for one more.
    #[tactic(auto, unfolding(crate::specs::Grammar::one_more))]
    fn has_count_for(self, e: Element) -> bool
        ensures { result ≡ counted self e }
    {
        match e {
            Element::Register => self.registers < 0xFF_FFFF,
            Element::RegisterInstance => self.register_instances < 255,
            Element::Node => self.nodes < 0xFFFF,
            Element::NodeInstance => self.node_instances < 255,
            Element::Capture => self.captures < 255,
            Element::Rule => self.rules < 255,
            Element::Reading
            | Element::Constant
            | Element::All
            | Element::Any
            | Element::Inverse
            | Element::Left
            | Element::Right => true,
            Element::Child => self.children < 255,
            Element::Root => self.roots < 255,
            Element::Unknown => false,
        }
    }

    // Whether the records before one allow it.
    #[tactic(auto, unfolding(crate::specs::Grammar::allowed_as))]
    fn allows(self, r: Record, e: Element) -> bool
        ensures { result ≡ allowed_as e self r }
    {
        self.is_followed_by(e) && self.has_count_for(e) && used_alone(r, self.form, e)
    }

    // After an expression with so many operands.
    fn paid(self, n: u8) -> Before
        requires { (1 ≤ self.owed) × (self.owed ≤ 2 ^ 63) }
        ensures { result ≡ paid self n }
    {
        Before {
            owed: self.owed - 1 + n as u64,
            ..self
        }
    }

    // What is before the record behind one that is allowed.
    #[tactic(auto, unfolding(crate::specs::Grammar::allowed_as, crate::specs::Grammar::is_owed, crate::specs::Grammar::one_more))]
    fn with_record(self, r: Record, e: Element) -> Before
        requires { (allowed_as e self r ≡ true) × (self.owed ≤ 2 ^ 63) }
        ensures { result ≡ with_element self r e }
    {
        match e {
            Element::Register => Before {
                last: 1,
                form: r.form,
                registers: self.registers + 1,
                register_instances: 0,
                ..self
            },
            Element::RegisterInstance => Before {
                last: 2,
                register_instances: self.register_instances + 1,
                ..self
            },
            Element::Node => Before {
                last: 3,
                nodes: self.nodes + 1,
                node_instances: 0,
                ..self
            },
            Element::NodeInstance => Before {
                last: 4,
                node_instances: self.node_instances + 1,
                captures: 0,
                rules: 0,
                children: 0,
                ..self
            },
            Element::Capture => Before {
                last: 5,
                captures: self.captures + 1,
                ..self
            },
            Element::Rule => Before {
                last: 6,
                owed: 1,
                rules: self.rules + 1,
                ..self
            },
            Element::Reading | Element::Constant => self.paid(0),
            Element::All | Element::Any => self.paid(r.amount),
            Element::Inverse | Element::Left | Element::Right => self.paid(1),
            Element::Child => Before {
                last: 8,
                children: self.children + 1,
                ..self
            },
            Element::Root => Before {
                last: 9,
                roots: self.roots + 1,
                ..self
            },
            Element::Unknown => self,
        }
    }

    // With so many records left, owing more than one above their number is no different from owing that: one is owed at the end either way.
    #[tactic(auto, unfolding(crate::specs::Judging::capped))]
    fn capped(self, left: usize) -> Before
        requires { left ≤ 2 ^ 60 }
        ensures { result ≡ capped left self }
    {
        if self.owed <= left as u64 {
            self
        } else {
            Before {
                owed: left as u64 + 1,
                ..self
            }
        }
    }
}

// A refusal by 40.
fn not_allowed(place: usize) -> Refusal
    ensures { judged_parsed (Err result) ≡ refused 40 place }
{
    Refusal {
        kind: Kind::RecordNotAllowed,
        place,
    }
}

// The end of whole records: nothing may be behind them, and no expression may be owed.
#[tactic(auto, unfolding(crate::specs::Judging::finish, format::specs::Parsed::require))]
fn finish(s: &[u8], b: Before, end: usize) -> Result<usize, Refusal>
    ensures { judged_parsed result ≡ finish s.now b end }
{
    if s.len() <= end && b.owed == 0 {
        Ok(end)
    } else {
        Err(not_allowed(end))
    }
}

// Whether the records are those of a tree: the place after them, or 40. It looks at each record once.
pub fn judge(s: &[u8]) -> Result<usize, Refusal>
    ensures { judged_parsed result ≡ making (λ _. tt) (grammar s.now) }
{
    let n = s.len() / 16;
    let mut b = nothing_before();
    for i in 0..n {
        let r = record_at(s, 16 * i);
        let e = element_of(r.kind, r.form);
        if !b.allows(r, e) {
            return Err(not_allowed(16 * i));
        }
        b = b.with_record(r, e).capped(n - (i + 1));
    }
    finish(s, b, 16 * n)
}
