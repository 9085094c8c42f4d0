// The address of a register instance.
ghost use Rattle.std.specs.Prelude.{◌+◌, true, ◌≡◌, take, drop};
ghost use Rattle.limits.specs.Limits.{library_limits};
ghost use Rattle.format.specs.FileLayout.{file_at};
ghost use Rattle.format.specs.Lookup.{at, register_entries, register_position};
ghost use Rattle.format.specs.Parsed.{done};
ghost use Rattle.format.specs.Refusals.{address_values};
ghost use Rattle.format.specs.Tree.{Chip};
ghost use Rattle.format.specs.Verdict.{address_in, address};
ghost use Rattle.reader.specs.Layout.{laid_out, layout_at};

use crate::classes::examine;
use crate::{Layout, LayoutRead};
use format::{Address, Refusal};
use index::addresses::find_address;

// The address of a register instance of a file whose layout was read. It reads the registers section once, up to that instance.
fn laid_address(s: &[u8], l: Layout, id: u64, number: u8) -> Result<Address, Refusal>
    ensures { (c : Chip)
        → done (laid_out l) l.end ≡ layout_at library_limits s.now 0
        → file_at library_limits s.now true 0 ≡ done c l.end
        → address_values result ≡ address_in (at (register_position c id number) (register_entries c)) }
{
    find_address(s, l.registers_at, id, number)
}

// The address query: where the address of a register instance stands in the file, and its size; or a refusal.
pub fn address(file: &[u8], id: u64, number: u8) -> Result<Address, Refusal>
    ensures { address_values result ≡ address library_limits file.now id number }
{
    let e = examine(file);
    match e {
        LayoutRead::Done(l) => laid_address(file, l, id, number),
        LayoutRead::Refused(r) => Err(r),
    }
}

// The part of the file that holds the address of a register instance; an empty part where the query refuses.
pub fn address_part(file: &[u8], id: u64, number: u8) -> &[u8]
    ensures place { (result.ref_ptr.0 ≡ file.entry.ref_ptr.0) × (result.ref_ptr.1 ≡ file.entry.ref_ptr.1 + (address library_limits file.now id number).offset) }
    ensures content { result.now
        ≡ take (address library_limits file.now id number).size (drop (address library_limits file.now id number).offset file.now) }
{
    match address(file, id, number) {
        Ok(a) => &file[a.place..a.place + a.size],
        Err(_) => &file[0..0],
    }
}
