// The readings file: words and read bytes from its records, one record for each register instance.
#![tactic(auto)]

ghost use Rattle.std.specs.Prelude.{◌+◌, ◌*◌, ◌≤◌, ◌≡◌, length};
ghost use Rattle.numbers.specs.Field.{size_of, field};
ghost use Rattle.tables.specs.Tables.{written};
ghost use Rattle.readings.specs.ReadingsFile.{record_fits, records_fit, file_fits, words_of, read_of, decodes, decoded_values, decoding, lent_after};

use format::{Kind, Refusal};
use numbers::{Width, number_at};

// The bytes of a record.
const RECORD: usize = 16;

// The number at a place where it is wholly there.
#[tactic(auto, unfolding(numbers::specs::Field::number_at, numbers::specs::Field::present))]
fn value_at(s: &[u8], at: usize, w: Width) -> u64
    requires { at + size_of w ≤ length s.now }
    ensures { result ≡ field s.now at (size_of w) }
{
    match number_at(s, at, w) {
        Some((value, _)) => value,
        None => 0,
    }
}

// Whether a record is one for a key.
#[tactic(auto, using(crate::proofs::RecordLaws::read_is), unfolding(crate::specs::ReadingsFile::record_fits, crate::specs::ReadingsFile::value_in))]
fn record_fits(row: &[u8], key: u64) -> bool
    requires { length row.now ≡ 16 }
    ensures { result ≡ record_fits key row.now }
{
    let read = row[4];
    value_at(row, 0, Width::Four) == key
        && read <= 1
        && value_at(row, 5, Width::Three) == 0
        && (read == 1 || value_at(row, 8, Width::Eight) == 0)
}

// Whether every key's record is one for it. It reads each record once, up to the first that is not.
#[tactic(auto, using(crate::proofs::RecordLaws::fitting))]
fn records_fit(bytes: &[u8], keys: &[u64]) -> bool
    requires { length bytes.now ≡ 16 * length keys.now }
    ensures { result ≡ records_fit keys.now bytes.now }
{
    for (key, row) in keys.iter().zip(bytes.chunks_exact(RECORD)) {
        if !record_fits(row, *key) {
            return false;
        }
    }
    true
}

// Whether some bytes are a file for these keys.
#[tactic(auto, unfolding(crate::specs::ReadingsFile::file_fits))]
fn file_fits(bytes: &[u8], keys: &[u64]) -> bool
    ensures { result ≡ file_fits keys.now bytes.now }
{
    bytes.len() % RECORD == 0 && bytes.len() / RECORD == keys.len() && records_fit(bytes, keys)
}

// The value and the read byte of each key's record, from the front of `words` and of `read` on. It reads each record once.
#[tactic(auto, using(crate::proofs::RecordLaws::putting), unfolding(crate::specs::ReadingsFile::value_in))]
fn put_records(bytes: &[u8], keys: &[u64], words: &mut [u64], read: &mut [u8])
    requires size { length bytes.now ≡ 16 * length keys.now }
    requires words { length keys.now ≤ length words.old }
    requires read { length keys.now ≤ length read.old }
    ensures words { words.new ≡ written words.old 0 (words_of keys.now bytes.now) }
    ensures read { read.new ≡ written read.old 0 (read_of keys.now bytes.now) }
{
    for (i, row) in bytes.chunks_exact(RECORD).enumerate() {
        words[i] = value_at(row, 8, Width::Eight);
        read[i] = row[4];
    }
}

// Decodes a readings file: `keys` are those of the register instances in file order. The first places of `words` and `read` then hold the values and the read bytes.
// A lent list without a place for each key is 43 at 0, and a file that does not fit the keys is 17 at 0; no lent place changes then. It reads each record twice: to
// check it, and to write.
#[tactic(auto, using(crate::proofs::RecordLaws::file_size, crate::proofs::RecordLaws::lent_written), unfolding(crate::specs::ReadingsFile::decoding, crate::specs::ReadingsFile::decodes, crate::specs::ReadingsFile::places_for, crate::specs::ReadingsFile::lent_after))]
pub fn decode(bytes: &[u8], keys: &[u64], words: &mut [u64], read: &mut [u8]) -> Result<(), Refusal>
    ensures answer { decoded_values result ≡ decoding keys.now bytes.now words.old read.old }
    ensures words { words.new
        ≡ lent_after (decodes keys.now bytes.now words.old read.old) (words_of keys.now bytes.now) words.old }
    ensures read { read.new
        ≡ lent_after (decodes keys.now bytes.now words.old read.old) (read_of keys.now bytes.now) read.old }
{
    if words.len() < keys.len() || read.len() < keys.len() {
        return Err(Refusal {
            kind: Kind::TableTooShort,
            place: 0,
        });
    }
    if !file_fits(bytes, keys) {
        return Err(Refusal {
            kind: Kind::ReadingsUnfit,
            place: 0,
        });
    }
    put_records(bytes, keys, words, read);
    Ok(())
}
