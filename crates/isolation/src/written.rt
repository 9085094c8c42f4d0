// The answer of isolation by a list: the records of what was found, or 19.
ghost use Rattle.std.specs.Prelude.{◌≤◌, ◌≡◌, length};
ghost use Rattle.limits.specs.Limits.{board_node_instances};
ghost use Rattle.listing.specs.Rows.{rows_of, kept_count, kept_records};
ghost use Rattle.isolation.specs.Outcome.{outcome_of, written, in_list};
ghost use Rattle.isolation.specs.Rows.{found_of, RowsWithin};

use crate::{Isolation, Kept};
use format::{Kind, Refusal};
use listing::write_list;

// The answer by some rows: their records in the lent list, or 19 and the list keeps its bytes. With more heads than a board has node instances it is free.
pub fn write_rows(
    list: &mut [u8],
    attention: u8,
    heads: &[u64],
    words: &[u64],
    steps: usize,
) -> Result<Isolation, Refusal>
    ensures { length heads.now ≤ board_node_instances
        → outcome_of result list.new ≡ written (kept_count (rows_of heads.now words.now)) (kept_records attention (rows_of heads.now words.now)) steps list.old }
{
    let records = write_list(list, attention, heads, words)?;
    Ok(Isolation { records, steps })
}

// The answer by what was found, from the tables that hold its rows. Where they do not hold so many, or these are more than a file has node instances, it is free.
pub fn write_found(
    list: &mut [u8],
    attention: u8,
    f: Result<Kept, Refusal>,
    heads: &[u64],
    words: &[u64],
) -> Result<Isolation, Refusal>
    ensures { RowsWithin f heads.now words.now
        → outcome_of result list.new ≡ in_list list.old (found_of attention f heads.now words.now) }
{
    match f {
        Ok(k) => {
            let n = k.rows;
            if heads.len() < n || words.len() < n {
                return Err(Refusal {
                    kind: Kind::TableTooShort,
                    place: 0,
                });
            }
            write_rows(list, attention, &heads[..n], &words[..n], k.steps)
        }
        Err(r) => Err(r),
    }
}
