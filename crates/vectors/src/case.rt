// One case: its form, the call that it asks for, and whether the answer is the expected one.
use crate::calls::{Answer, boarded, checked, isolated, queried, unpacked, written};
use crate::faults::NoCase;
use crate::head::{HEAD, Head, Kind, MOST_LIST, MOST_NUMBERS, RECORD, part};
use crate::tally::Tally;
use reader::address::address_part;

// A case. Its chip data file, of a board all its files, the records that it lends, and what a case of records is to write are parts of what stands before the cases. `expected` is what the list or output is to begin with after the call.
#[derive(Clone, Copy)]
pub struct Case<'a> {
    head: Head,
    file: &'a [u8],
    numbers: &'a [u8],
    read: &'a [u8],
    expected: &'a [u8],
}

// The number of 8 bytes at the front, if they are there.
fn eight(bytes: &[u8]) -> Option<u64> {
    let first = bytes.first_chunk()?;
    Some(u64::from_be_bytes(*first))
}

// The numbers of 8 bytes each, at the front of `room`, and as many as it has room for.
fn read_numbers<'a>(bytes: &[u8], room: &'a mut [u64]) -> &'a [u64] {
    for (number, eight_bytes) in room.iter_mut().zip(bytes.chunks_exact(8)) {
        *number = eight(eight_bytes).unwrap_or(0);
    }
    let n = room.len().min(bytes.len() / 8);
    &room[..n]
}

impl<'a> Case<'a> {
    // The case that some bytes begin with, and those after it.
    pub fn first(bytes: &'a [u8], files: &'a [u8]) -> Result<(Case<'a>, &'a [u8]), NoCase> {
        let (head, rest) = bytes.split_first_chunk::<HEAD>().ok_or(NoCase::NotWhole)?;
        let head = Head::formed(head)?;
        let file = head.file(files).ok_or(NoCase::NotAmongFiles)?;
        let output = head.output(files).ok_or(NoCase::NotAmongFiles)?;
        let (numbers, rest) = rest
            .split_at_checked(8 * head.numbers())
            .ok_or(NoCase::NotWhole)?;
        let (read, rest) = rest
            .split_at_checked(head.read as usize)
            .ok_or(NoCase::NotWhole)?;
        let (records, rest) = rest
            .split_at_checked(RECORD * head.records())
            .ok_or(NoCase::NotWhole)?;
        let expected = if head.is_of_records() {
            output
        } else {
            records
        };
        let case = Case {
            head,
            file,
            numbers,
            read,
            expected,
        };
        Ok((case, rest))
    }

    // Whether its call answers as it expects.
    pub fn is_met(&self, tally: &mut Tally) -> bool {
        match self.head.kind {
            Kind::Check => self.is_answer(checked(self.file), tally),
            Kind::Address => self.address_is_met(tally),
            Kind::Isolation => self.isolation_is_met(tally),
            Kind::Board => self.board_is_met(tally),
            Kind::Write => self.writing_is_met(tally),
            Kind::Read => {
                self.list_is_met(tally, |out| Some(unpacked(&self.head, self.file, out)))
            }
        }
    }

    // Counts an answer, and says whether its eight values are those of the case.
    fn is_answer(&self, got: Answer, tally: &mut Tally) -> bool {
        tally.count(self.head.kind, got[0]);
        got.iter()
            .zip(&self.head.answer)
            .all(|(x, y)| *x == u64::from(*y))
    }

    // Whether a call that is lent the list or output of a case answers as the case expects, and leaves there what the case expects and each byte after that as it was. The list that is lent is the first part of a longer one; no byte beyond it may change either.
    fn list_is_met<F: FnOnce(&mut [u8]) -> Option<Answer>>(
        &self,
        tally: &mut Tally,
        call: F,
    ) -> bool
        requires { F.IsAlwaysCallable call }
    {
        let lent = self.head.lent;
        let mut list = [lent; MOST_LIST];
        let Some(front) = list.get_mut(..self.head.list as usize) else {
            return false;
        };
        let Some(got) = call(front) else {
            return false;
        };
        let is_answer = self.is_answer(got, tally);
        let Some(rest) = list.strip_prefix(self.expected) else {
            return false;
        };
        is_answer && rest.iter().all(|b| *b == lent)
    }

    // Whether the address query answers as the case expects, and its companion hands back the bytes that the case names.
    fn address_is_met(&self, tally: &mut Tally) -> bool {
        let instance = self.head.parameter;
        let [_, _, place, size, ..] = self.head.answer;
        let Some(id) = eight(self.numbers) else {
            return false;
        };
        self.is_answer(queried(self.file, id, instance), tally)
            && address_part(self.file, id, instance) == part(self.file, place, size).unwrap_or(&[])
    }

    // Whether isolation does with the words, the read bytes and the list what the case expects.
    fn isolation_is_met(&self, tally: &mut Tally) -> bool {
        let mut room = [0u64; MOST_NUMBERS];
        let words = read_numbers(self.numbers, &mut room);
        self.list_is_met(tally, |list| {
            Some(isolated(self.file, self.head.parameter, words, self.read, list))
        })
    }

    // Whether a board does with the numbers, the read bytes and the list what the case expects.
    fn board_is_met(&self, tally: &mut Tally) -> bool {
        let mut room = [0u64; MOST_NUMBERS];
        let numbers = read_numbers(self.numbers, &mut room);
        self.list_is_met(tally, |list| {
            boarded(&self.head, self.file, numbers, self.read, list)
        })
    }

    // Whether the writer does with the model/level, the records and the output what the case expects.
    fn writing_is_met(&self, tally: &mut Tally) -> bool {
        let Some(Ok(model)) = eight(self.numbers).map(u32::try_from) else {
            return false;
        };
        self.list_is_met(
            tally,
            |out| Some(written(&self.head, model, self.file, out)),
        )
    }
}
