// The registers section, with a row for each register instance.
#![tactic(auto)]

ghost use Rattle.std.specs.Prelude.{ℕ, suc, min, ◌+◌, ◌≤◌, ◌<◌, true, cond, List, [], map, ◌≡◌, length, leb};
ghost use Rattle.limits.specs.Classes.{middle};
ghost use Rattle.limits.specs.Limits.{library_limits, limits_of};
ghost use Rattle.format.specs.Fields.{address_size};
ghost use Rattle.format.specs.Lookup.{gathered, entries_of};
ghost use Rattle.format.specs.Parsed.{done, refused, making, row_at};
ghost use Rattle.format.specs.RegisterLayout.{register_total, register_instance_at, register_at, registers_at};
ghost use Rattle.format.specs.Tree.{RegisterInstance, Register};
ghost use Rattle.tables.specs.Indexed.{Indexed};
ghost use Rattle.fields.specs.Rising.{ElementTold, CountTold, ElementUnless, CountUnless};
ghost use Rattle.fields.specs.Seen.{new_after, Tells, Below};
ghost use Rattle.fields.specs.Views.{next_parsed, element_parsed, count_parsed, section_parsed, forget};
ghost use Rattle.registers.specs.Registers.{register_after, register_id, register_element, register_section};
ghost use Rattle.index.specs.Rows.{put_row, filled, register_row, row_of, pair, Covered};
ghost use Rattle.register_rows.specs.Told.{is_told};

use fields::seen::{enter_ids, larger, rising_id_at};
use fields::{
    ByteRead, CountRead, ElementRead, NextRead, NumberRead, RisingCount, RisingElement, RisingId,
    SectionRead, keyword_at, number_count_at,
};
use format::{Kind, Refusal, number};
use limits::classes::{MIDDLE_REGISTERS, larger_classes};
use limits::{LimitSet, register_instances};
use numbers::Width;
use registers::{RegisterHeadRead, register_id_at, register_instance_at, register_rest_at};
use tables::key;
use tables::positions::REGISTER_PLACES;

// A row at a place of the two tables.
fn put_pair(keys: &mut [u64], kinds: &mut [u64], k: usize, key: u64, kind: u64)
    ensures { (place : ℕ)
        → pair keys.new kinds.new ≡ put_row (pair keys.old kinds.old) k (record { key = key; kind = kind; place = place }) }
{
    tables::put(keys, k, key);
    tables::put(kinds, k, kind);
}

// How many bytes a register instance has: its number, and its address.
fn instance_size(kind: u8) -> usize
    ensures { result ≡ suc (address_size kind) }
{
    if kind == 1 {
        return 5;
    }
    9
}

// The instances of a register whose numbers rise, with their rows, where all their bytes are there, the file may have them, and the tables have room: the place after them. Otherwise 0.
// It reads each number once, and marks none.
fn rising_at(
    s: &[u8],
    at: usize,
    kind: u8,
    id: u64,
    code: u64,
    count: u8,
    total: usize,
    limit: usize,
    keys: &mut [u64],
    kinds: &mut [u64],
) -> usize
    ensures at_value { 0 < result → (is : List RegisterInstance)
        × (row_at (register_instance_at limit s.now true total kind) count [] at ≡ done is result)
        × (pair keys.new kinds.new ≡ filled (pair keys.old kinds.old) total (map (λ i. row_of id code i.number i.place) is)) }
    ensures covered { Covered (pair keys.old kinds.old) (pair keys.new kinds.new) total (total + count) }
{
    let size = instance_size(kind);
    let n = count as usize;
    if s.len() < at {
        return 0;
    }
    if s.len() - at < n * size {
        return 0;
    }
    if limit < total {
        return 0;
    }
    if limit - total < n {
        return 0;
    }
    if keys.len() < total + n {
        return 0;
    }
    if kinds.len() < total + n {
        return 0;
    }
    let mut bound = 0;
    let mut place = at;
    let mut k = total;
    let mut left = count;
    while 0 < left {
        let x = s[place];
        if (x as usize) < bound {
            return 0;
        }
        keys[k] = key(id, x);
        kinds[k] = code;
        bound = x as usize + 1;
        place += size;
        k += 1;
        left -= 1;
    }
    place
}

// The instances of a register in any order, with their rows; `total` instances stand before them in the file. It reads each once, and marks its number.
fn marked_at(
    s: &[u8],
    at: usize,
    kind: u8,
    id: u64,
    code: u64,
    count: u8,
    total: usize,
    limit: usize,
    keys: &mut [u64],
    kinds: &mut [u64],
) -> NextRead
    ensures result_value { next_parsed result ≡ forget (row_at (register_instance_at limit s.now true total kind) count [] at) }
    ensures kinds_after { (is : List RegisterInstance) (m : ℕ)
        → row_at (register_instance_at limit s.now true total kind) count [] at ≡ done is m
        → pair keys.new kinds.new ≡ filled (pair keys.old kinds.old) total (map (λ i. row_of id code i.number i.place) is) }
{
    let mut seen = [0u8; 256];
    let mut begun = total;
    let mut left = count;
    let mut place = at;
    while 0 < left {
        let i = register_instance_at(s, place, kind, begun, limit, &seen);
        match i {
            ByteRead::Byte(number, next) => {
                seen[number as usize] = 1;
                put_pair(keys, kinds, begun, key(id, number), code);
                place = next;
            }
            ByteRead::Refused(r) => {
                return NextRead::Refused(r);
            }
        }
        begun += 1;
        left -= 1;
    }
    NextRead::Next(place)
}

// The instances of a register, with their rows; `total` instances stand before them in the file. Where their numbers do not rise, or one is refused, it begins again with marks.
fn instances_at(
    s: &[u8],
    at: usize,
    kind: u8,
    id: u64,
    code: u64,
    count: u8,
    total: usize,
    limit: usize,
    keys: &mut [u64],
    kinds: &mut [u64],
) -> NextRead
    ensures result_value { next_parsed result ≡ forget (row_at (register_instance_at limit s.now true total kind) count [] at) }
    ensures kinds_after { (is : List RegisterInstance) (m : ℕ)
        → row_at (register_instance_at limit s.now true total kind) count [] at ≡ done is m
        → pair keys.new kinds.new ≡ filled (pair keys.old kinds.old) total (map (λ i. row_of id code i.number i.place) is) }
{
    let next = rising_at(s, at, kind, id, code, count, total, limit, keys, kinds);
    if 0 < next {
        return NextRead::Next(next);
    }
    marked_at(s, at, kind, id, code, count, total, limit, keys, kinds)
}

// The rest of a register, after its ID, with the rows of its instances; `total` instances stand before it in the file.
fn register_after(
    s: &[u8],
    at: usize,
    id: u64,
    total: usize,
    limit: usize,
    keys: &mut [u64],
    kinds: &mut [u64],
) -> ElementRead
    ensures result_value { element_parsed result ≡ making register_element (register_after limit s.now total id at) }
    ensures kinds_after { (g : Register) (m : ℕ)
        → register_after limit s.now total id at ≡ done g m
        → pair keys.new kinds.new ≡ filled (pair keys.old kinds.old) total (map register_row (entries_of g)) }
{
    let top = register_rest_at(s, at, id);
    match top {
        RegisterHeadRead::Head(h, a) => {
            let name = h.id;
            let count = h.count;
            let code = h.kind as u64 * 2 + (h.flags / 128) as u64;
            let rest = instances_at(s, a, h.kind, name, code, count, total, limit, keys, kinds);
            match rest {
                NextRead::Next(end) => ElementRead::Element(name, count, end),
                NextRead::Refused(r) => ElementRead::Refused(r),
            }
        }
        RegisterHeadRead::Refused(r) => ElementRead::Refused(r),
    }
}

// A register, with the rows of its instances: its ID and how many instances it has. `ids` are the IDs of the registers before it, each at most `largest`, and the first `entered` are
// entered in an index; `total` is how many instances these registers have.
fn register_at(
    s: &[u8],
    at: usize,
    ids: &[u64],
    index: &[u16],
    entered: usize,
    largest: u64,
    total: usize,
    limit: usize,
    keys: &mut [u64],
    kinds: &mut [u64],
) -> ElementRead
    ensures result_value { Indexed index.now ids.now entered
        → (before : List Register)
        → Tells (new_after largest ids.now) (map register_id before)
        → total ≡ register_total before
        → element_parsed result ≡ making register_element (register_at limit s.now true before at) }
    ensures kinds_after { Indexed index.now ids.now entered
        → (before : List Register)
        → Tells (new_after largest ids.now) (map register_id before)
        → total ≡ register_total before
        → (g : Register) (m : ℕ)
        → register_at limit s.now true before at ≡ done g m
        → pair keys.new kinds.new ≡ filled (pair keys.old kinds.old) total (map register_row (entries_of g)) }
{
    let i = register_id_at(s, at, ids, index, entered, largest);
    match i {
        NumberRead::Number(id, a) => register_after(s, a, id, total, limit, keys, kinds),
        NumberRead::Refused(r) => ElementRead::Refused(r),
    }
}

// The same where the IDs before it are all below `bound`, and its own is not.
fn rising_register_at(
    s: &[u8],
    at: usize,
    bound: u64,
    total: usize,
    limit: usize,
    keys: &mut [u64],
    kinds: &mut [u64],
) -> RisingElement
    ensures element_told { (before : List Register)
        → Below bound (map register_id before)
        → total ≡ register_total before
        → ElementTold bound result (making register_element (register_at limit s.now true before at)) }
    ensures element_unless { (before : List Register)
        → Below bound (map register_id before)
        → total ≡ register_total before
        → ElementUnless result
        ((g : Register) (m : ℕ)
        → register_at limit s.now true before at ≡ done g m
        → pair keys.new kinds.new ≡ filled (pair keys.old kinds.old) total (map register_row (entries_of g)))
        (pair keys.new kinds.new ≡ pair keys.old kinds.old) }
{
    let i = rising_id_at(s, at, Width::Three, bound);
    match i {
        RisingId::Id(id, a) => {
            let e = register_after(s, a, id, total, limit, keys, kinds);
            match e {
                ElementRead::Element(_, count, next) => RisingElement::Element(id, count, next),
                ElementRead::Refused(r) => RisingElement::Refused(r),
            }
        }
        RisingId::Refused(r) => RisingElement::Refused(r),
        RisingId::Falls => RisingElement::Falls,
    }
}

// So many registers while their IDs rise, with the rows of their instances: how many instances they have. It reads each register once, and keeps no ID but the last.
fn rising_rows_at(
    s: &[u8],
    at: usize,
    n: u64,
    limit: usize,
    keys: &mut [u64],
    kinds: &mut [u64],
) -> RisingCount
    ensures count_told { CountTold result (making register_total (row_at (register_at limit s.now true) n [] at)) }
    ensures count_unless { (rs : List Register) (m : ℕ)
        → row_at (register_at limit s.now true) n [] at ≡ done rs m
        → CountUnless result
        (pair keys.new kinds.new ≡ filled (pair keys.old kinds.old) 0 (map register_row (gathered entries_of rs)))
        (filled (pair keys.new kinds.new) 0 (map register_row (gathered entries_of rs)) ≡ filled (pair keys.old kinds.old) 0 (map register_row (gathered entries_of rs))) }
{
    let mut bound = 0;
    let mut total = 0;
    let mut left = n;
    let mut place = at;
    while 0 < left {
        let e = rising_register_at(s, place, bound, total, limit, keys, kinds);
        match e {
            RisingElement::Element(id, count, next) => {
                bound = id + 1;
                total += count as usize;
                place = next;
            }
            RisingElement::Refused(r) => {
                return RisingCount::Read(CountRead::Refused(r));
            }
            RisingElement::Falls => {
                return RisingCount::Falls;
            }
        }
        left -= 1;
    }
    RisingCount::Read(CountRead::Count(total, place))
}

// So many registers with IDs in any order, with the rows of their instances: how many instances they have. `ids` and `index` are lent: a list with room for the IDs of as many registers as
// there are or may be, and an index over it. It reads each register once, and enters the IDs in the index once one is not above `largest`, which is 0 before the first.
fn indexed_rows_at(
    s: &[u8],
    at: usize,
    n: u64,
    limit: usize,
    ids: &mut [u64],
    index: &mut [u16],
    keys: &mut [u64],
    kinds: &mut [u64],
) -> CountRead
    requires { (limit ≤ library_limits.register_instances) × (min n limit ≤ length ids.old) × (length ids.old < 65536) }
    ensures result_value { count_parsed result ≡ making register_total (row_at (register_at limit s.now true) n [] at) }
    ensures kinds_after { (rs : List Register) (m : ℕ)
        → row_at (register_at limit s.now true) n [] at ≡ done rs m
        → pair keys.new kinds.new ≡ filled (pair keys.old kinds.old) 0 (map register_row (gathered entries_of rs)) }
{
    let mut known = 0;
    let mut entered = 0;
    let mut largest = 0;
    let mut total = 0;
    let mut left = n;
    let mut place = at;
    while 0 < left {
        let e = register_at(
            s,
            place,
            &ids[..known],
            index,
            entered,
            largest,
            total,
            limit,
            keys,
            kinds,
        );
        match e {
            ElementRead::Element(id, count, next) => {
                ids[known] = id;
                entered = enter_ids(&ids[..known + 1], index, entered, largest, id);
                largest = larger(largest, id);
                total += count as usize;
                place = next;
            }
            ElementRead::Refused(r) => {
                return CountRead::Refused(r);
            }
        }
        known += 1;
        left -= 1;
    }
    CountRead::Count(total, place)
}

// The same with a short list, where it has room for all of them; where it has not, 43 at 0, and the tables keep their rows.
fn few_rows_at(
    s: &[u8],
    at: usize,
    n: u64,
    limit: usize,
    keys: &mut [u64],
    kinds: &mut [u64],
) -> CountRead
    requires { limit ≤ library_limits.register_instances }
    ensures result_value { count_parsed result ≡ cond (leb n middle.registers) (making register_total (row_at (register_at limit s.now true) n [] at)) (refused 43 0) }
    ensures kinds_after { (rs : List Register) (m : ℕ)
        → n ≤ middle.registers
        → row_at (register_at limit s.now true) n [] at ≡ done rs m
        → pair keys.new kinds.new ≡ filled (pair keys.old kinds.old) 0 (map register_row (gathered entries_of rs)) }
    ensures kinds_unchanged { middle.registers < n → pair keys.new kinds.new ≡ pair keys.old kinds.old }
{
    if (MIDDLE_REGISTERS as u64) < n {
        return CountRead::Refused(Refusal {
            kind: Kind::TableTooShort,
            place: 0,
        });
    }
    let mut ids = [0u64; MIDDLE_REGISTERS];
    let mut index = [0u16; MIDDLE_REGISTERS * 2 + 32];
    indexed_rows_at(s, at, n, limit, &mut ids, &mut index, keys, kinds)
}

// The same with a list for as many registers as a file may have: each has an instance, so that `limit` bounds them too.
fn all_rows_at(
    s: &[u8],
    at: usize,
    n: u64,
    limit: usize,
    keys: &mut [u64],
    kinds: &mut [u64],
) -> CountRead
    requires { limit ≤ library_limits.register_instances }
    ensures result_value { count_parsed result ≡ making register_total (row_at (register_at limit s.now true) n [] at) }
    ensures kinds_after { (rs : List Register) (m : ℕ)
        → row_at (register_at limit s.now true) n [] at ≡ done rs m
        → pair keys.new kinds.new ≡ filled (pair keys.old kinds.old) 0 (map register_row (gathered entries_of rs)) }
{
    let mut ids = [0u64; limits::REGISTER_INSTANCES];
    let mut index = [0u16; REGISTER_PLACES];
    indexed_rows_at(s, at, n, limit, &mut ids, &mut index, keys, kinds)
}

// Whether an answer is not that a list was too short.
fn is_told(c: CountRead) -> bool
    ensures { result ≡ is_told (count_parsed c) }
{
    match c {
        CountRead::Count(_, _) => true,
        CountRead::Refused(r) => {
            let kind = r.kind;
            number(kind) != 43
        }
    }
}

// The same with the short list where it has room, and otherwise with the long one. `larger` classes of tables are larger than that of the file; where none is, it does not try the short
// list. It calls itself so that the long list stands on the stack only where it is used.
fn listed_rows_at(
    s: &[u8],
    at: usize,
    n: u64,
    limit: usize,
    keys: &mut [u64],
    kinds: &mut [u64],
    larger: usize,
) -> CountRead
    requires { limit ≤ library_limits.register_instances }
    ensures result_value { count_parsed result ≡ making register_total (row_at (register_at limit s.now true) n [] at) }
    ensures kinds_after { (rs : List Register) (m : ℕ)
        → row_at (register_at limit s.now true) n [] at ≡ done rs m
        → pair keys.new kinds.new ≡ filled (pair keys.old kinds.old) 0 (map register_row (gathered entries_of rs)) }
{
    if larger == 0 {
        return all_rows_at(s, at, n, limit, keys, kinds);
    }
    let c = few_rows_at(s, at, n, limit, keys, kinds);
    if is_told(c) {
        return c;
    }
    listed_rows_at(s, at, n, limit, keys, kinds, larger - 1)
}

// So many registers, with the rows of their instances: how many instances they have. Where an ID falls it begins again with a list of them.
fn rows_at(
    s: &[u8],
    at: usize,
    n: u64,
    limit: usize,
    keys: &mut [u64],
    kinds: &mut [u64],
) -> CountRead
    requires { limit ≤ library_limits.register_instances }
    ensures result_value { count_parsed result ≡ making register_total (row_at (register_at limit s.now true) n [] at) }
    ensures kinds_after { (rs : List Register) (m : ℕ)
        → row_at (register_at limit s.now true) n [] at ≡ done rs m
        → pair keys.new kinds.new ≡ filled (pair keys.old kinds.old) 0 (map register_row (gathered entries_of rs)) }
{
    let r = rising_rows_at(s, at, n, limit, keys, kinds);
    match r {
        RisingCount::Read(c) => c,
        RisingCount::Falls => listed_rows_at(s, at, n, limit, keys, kinds, larger_classes(s.len())),
    }
}

// The registers section of a file that may have `limit` register instances, with the rows of all register instances from the front of the tables on.
fn section_at(s: &[u8], at: usize, limit: usize, keys: &mut [u64], kinds: &mut [u64]) -> SectionRead
    requires { limit ≤ library_limits.register_instances }
    ensures result_value { section_parsed result ≡ making register_section (registers_at limit s.now true at) }
    ensures kinds_after { (rs : List Register) (m : ℕ)
        → registers_at limit s.now true at ≡ done rs m
        → pair keys.new kinds.new ≡ filled (pair keys.old kinds.old) 0 (map register_row (gathered entries_of rs)) }
{
    let k = keyword_at(s, at, &format::REGS);
    match k {
        NextRead::Next(a) => {
            let c = number_count_at(s, a, Width::Three);
            match c {
                NumberRead::Number(n, b) => {
                    let rows = rows_at(s, b, n, limit, keys, kinds);
                    match rows {
                        CountRead::Count(total, end) => SectionRead::Section(
                            n as usize, total, end,
                        ),
                        CountRead::Refused(r) => SectionRead::Refused(r),
                    }
                }
                NumberRead::Refused(r) => SectionRead::Refused(r),
            }
        }
        NextRead::Refused(r) => SectionRead::Refused(r),
    }
}

// The registers section, with the rows of all register instances from the front of the tables on. It reads the section once, and again from its first register on where an ID falls.
pub fn registers_at(
    s: &[u8],
    at: usize,
    of: LimitSet,
    keys: &mut [u64],
    kinds: &mut [u64],
) -> SectionRead
    ensures result_value { section_parsed result ≡ making register_section (registers_at (limits_of of).register_instances s.now true at) }
    ensures kinds_after { (rs : List Register) (m : ℕ)
        → registers_at (limits_of of).register_instances s.now true at ≡ done rs m
        → pair keys.new kinds.new ≡ filled (pair keys.old kinds.old) 0 (map register_row (gathered entries_of rs)) }
{
    section_at(s, at, register_instances(of), keys, kinds)
}
