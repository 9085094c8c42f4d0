// Whether the lengths of a board add up.
ghost use Rattle.std.specs.Prelude.{◌≡◌, eqb};
ghost use Rattle.board.specs.Board.{total, board_of, board_fits};

// Whether some lengths add up to so many. It takes each away from what is left, so that no sum is too large for a number.
fn adds_up(lengths: &[u64], lent: u64) -> bool
    ensures { result ≡ eqb (total lengths.now) lent }
{
    let mut left = lent;
    let mut i = 0;
    while i < lengths.len() {
        let n = lengths[i];
        if left < n {
            return false;
        }
        left -= n;
        i += 1;
    }
    left == 0
}

// Whether there are 1 to 16 slots, the three lists of lengths are as long as each other, and each adds up to what was lent.
pub fn board_fits(
    files: &[u8],
    file_lengths: &[u64],
    words: &[u64],
    word_lengths: &[u64],
    read: &[u8],
    read_lengths: &[u64],
) -> bool
    ensures { result ≡ board_fits (board_of files.now file_lengths.now words.now word_lengths.now read.now read_lengths.now) }
{
    if file_lengths.len() < 1 {
        return false;
    }
    if limits::SLOTS < file_lengths.len() {
        return false;
    }
    if word_lengths.len() != file_lengths.len() {
        return false;
    }
    if read_lengths.len() != file_lengths.len() {
        return false;
    }
    if !adds_up(file_lengths, files.len() as u64) {
        return false;
    }
    if !adds_up(word_lengths, words.len() as u64) {
        return false;
    }
    adds_up(read_lengths, read.len() as u64)
}
