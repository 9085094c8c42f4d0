// Numbers: big-endian numbers at a place of a lent slice, and words of 64 bits with bit 0 leftmost.
#![tactic(auto)]

ghost use Rattle.std.specs.Prelude.{◌≡◌, ◌≤◌, length};
ghost use Rattle.numbers.specs.BigEndian.{big_endian};
ghost use Rattle.numbers.specs.Bits.{not_word, and_word, or_word, left_word, right_word};
ghost use Rattle.numbers.specs.NextBit.{next_bit, without_next, with_bit};
ghost use Rattle.numbers.specs.Field.{size_of, read_values, number_at};

// How many bytes a number takes.
#[derive(Clone, Copy)]
pub enum Width {
    Two,
    Three,
    Four,
    Eight,
}

// How many bytes a width has.
pub fn size(w: Width) -> usize
    ensures { result ≡ size_of w }
{
    match w {
        Width::Two => 2,
        Width::Three => 3,
        Width::Four => 4,
        Width::Eight => 8,
    }
}

// The number of at most 8 bytes, the first byte highest.
fn big_endian(s: &[u8]) -> u64
    requires { length s.now ≤ 8 }
    ensures { result ≡ big_endian s.now }
{
    let mut value: u64 = 0;
    for b in s {
        value = value * 256 + u64::from(*b);
    }
    value
}

// The number at a place with the place after it; nothing where it is not wholly there.
#[tactic(auto, unfolding(crate::specs::Field::number_at, crate::specs::Field::present))]
pub fn number_at(s: &[u8], at: usize, w: Width) -> Option<(u64, usize)>
    ensures { read_values at result ≡ number_at s.now at (size_of w) }
{
    let n = size(w);
    if s.len() < at || s.len() - at < n {
        return None;
    }
    let end = at + n;
    Some((big_endian(&s[at..end]), end))
}

// The byte at a place with the place after it; nothing at the end.
#[tactic(auto, unfolding(crate::specs::Field::number_at, crate::specs::Field::present))]
pub fn byte_at(s: &[u8], at: usize) -> Option<(u8, usize)>
    ensures { read_values at result ≡ number_at s.now at 1 }
{
    let b = s.get(at)?;
    Some((*b, at + 1))
}

// The next bit of a word that has the bits not yet taken: the least of them, or 64 where none is left. Bit 0 is leftmost, so it is how many zeros the word begins with.
pub fn next_bit(x: u64) -> u8
    ensures { result ≡ next_bit 64 x }
{
    u64::leading_zeros(x) as u8
}

// The word without its next bit. A word that has none stays as it is.
pub fn without_next(x: u64) -> u64
    ensures { result ≡ without_next 64 x }
{
    if x == 0 {
        0
    } else {
        x ^ (0x8000_0000_0000_0000 >> next_bit(x))
    }
}

// The word with a bit set. A word has no bit from 64 on, and stays as it is.
pub fn with_bit(x: u64, b: u8) -> u64
    ensures { result ≡ with_bit 64 b x }
{
    if b < 64 {
        x | (0x8000_0000_0000_0000 >> b)
    } else {
        x
    }
}

// Every bit inverted.
pub fn not_word(x: u64) -> u64
    ensures { result ≡ not_word 64 x }
{
    !x
}

// The bits that both words have.
pub fn and_word(x: u64, y: u64) -> u64
    ensures { result ≡ and_word 64 x y }
{
    x & y
}

// The bits that one of the words has.
pub fn or_word(x: u64, y: u64) -> u64
    ensures { result ≡ or_word 64 x y }
{
    x | y
}

// A word shifted to the left; nothing is left of it from 64 on.
pub fn left_word(x: u64, k: u8) -> u64
    ensures { result ≡ left_word 64 k x }
{
    if k < 64 { x << k } else { 0 }
}

// A word shifted to the right; nothing is left of it from 64 on.
pub fn right_word(x: u64, k: u8) -> u64
    ensures { result ≡ right_word 64 k x }
{
    if k < 64 { x >> k } else { 0 }
}
