// The minutes' demands in their own words. Each function calls one of the library's and promises what the demands ask of its answer by the library's limits.
#![tactic(auto)]

ghost use Rattle.limits.specs.declared.LimitSet;
ghost use Rattle.limits.specs.declared.LimitSet.{LimitSet};
ghost use Rattle.demands.specs.Demand1.{Refuses};
ghost use Rattle.demands.specs.Demand2.{Checks};
ghost use Rattle.demands.specs.Demand3.{Isolates};

use format::{Refusal, Summary};
use isolation::Isolation;

// The checker keeps to demand 2.
pub fn check(file: &[u8]) -> Result<Summary, Refusal>
    ensures { Checks LimitSet.Library file.now result }
{
    reader::check(file)
}

// Isolation keeps to demand 1 and to demand 3.
pub fn isolate(
    file: &[u8],
    attention: u8,
    words: &[u64],
    read: &[u8],
    list: &mut [u8],
) -> Result<Isolation, Refusal>
    ensures demand1 { Refuses LimitSet.Library file.now attention words.now read.now list.old result list.new }
    ensures demand3 { Isolates LimitSet.Library file.now attention words.now read.now list.old result list.new }
{
    isolation::isolate(file, attention, words, read, list)
}
