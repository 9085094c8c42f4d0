// The reader of chip data files.
#![tactic(auto)]

ghost use Rattle.std.specs.Prelude.{◌≡◌, Ok};
ghost use Rattle.limits.specs.Limits.{library_limits};
ghost use Rattle.format.specs.Refusals.{checked_values};
ghost use Rattle.format.specs.Verdict.{check};
ghost use Rattle.reader.specs.Layout.{laid_out, layout_values};

use crate::classes::examine;
use format::{Refusal, Summary};

pub mod address;
mod classes;
pub mod examined;
mod faults;
mod file;
mod roots;
pub mod wanted;

// Where a file's sections begin, and what it holds; and whether every register that captures and rules name was found to fit while it was read.
#[derive(Clone, Copy)]
pub struct Layout {
    pub model: u64,
    pub registers: usize,
    pub register_instances: usize,
    pub nodes: usize,
    pub node_instances: usize,
    pub roots: usize,
    pub registers_at: usize,
    pub nodes_at: usize,
    pub roots_at: usize,
    pub end: usize,
    pub fits: bool,
}

// The layout of a file, or a refusal: the first of 1 to 11 in byte order; of a file that was examined that of 1 to 14, or 43 where a table is too short.
#[derive(Clone, Copy)]
pub enum LayoutRead {
    Done(Layout),
    Refused(Refusal),
}

// What a layout says that the file holds.
fn summary(l: Layout) -> Summary
    ensures { checked_values (Ok result) ≡ layout_values (laid_out l) }
{
    Summary {
        model: l.model,
        registers: l.registers,
        register_instances: l.register_instances,
        nodes: l.nodes,
        node_instances: l.node_instances,
        roots: l.roots,
    }
}

// The checker: what an accepted file holds, or the refusal that the rules name first. With tables that have room for the file, and IDs, instance numbers and child bits that rise, it reads an accepted file once, and its child entries, its roots and the rules of each root's node instance once more.
pub fn check(file: &[u8]) -> Result<Summary, Refusal>
    ensures { checked_values result ≡ check library_limits file.now }
{
    let e = examine(file);
    match e {
        LayoutRead::Done(l) => Ok(summary(l)),
        LayoutRead::Refused(r) => Err(r),
    }
}
