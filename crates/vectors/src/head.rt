// What each case begins with, and what its kind allows there.
ghost use Rattle.std.specs.Prelude.{◌<◌, ⊤};

use crate::START;
use crate::faults::NoCase;
use std::fmt;

// How many bytes a head has.
pub const HEAD: usize = 56;

// The bytes of a record of the list.
pub const RECORD: usize = 16;

// The most numbers and the most read bytes of a case, the most bytes of its list, and the most lengths of each kind.
pub const MOST_NUMBERS: usize = 1_100;

pub const MOST_LIST: usize = 66_000;

const MOST_LENGTHS: u32 = 40;

// The call that a case asks for.
#[derive(Clone, Copy, PartialEq, Eq)]
pub enum Kind {
    Check,
    Address,
    Isolation,
    Board,
    Write,
    Read,
}

impl TryFrom<u8> for Kind {
    type Error = NoCase;

    ghost try_from_gives = { λ _ _. ⊤ };

    fn try_from(number: u8) -> Result<Kind, NoCase> {
        match number {
            1 => Ok(Kind::Check),
            2 => Ok(Kind::Address),
            3 => Ok(Kind::Isolation),
            4 => Ok(Kind::Board),
            5 => Ok(Kind::Write),
            6 => Ok(Kind::Read),
            _ => Err(NoCase::NoSuchValue),
        }
    }
}

impl fmt::Display for Kind {
    fn fmt<W: fmt::Write>(&self, f: &mut fmt::Formatter<W>) -> fmt::Result {
        f.write_str(match self {
            Kind::Check => "check",
            Kind::Address => "address",
            Kind::Isolation => "isolation",
            Kind::Board => "board",
            Kind::Write => "write",
            Kind::Read => "read",
        })
    }
}

// The kinds, in the order of their numbers.
pub const KINDS: [Kind; 6] = [
    Kind::Check,
    Kind::Address,
    Kind::Isolation,
    Kind::Board,
    Kind::Write,
    Kind::Read,
];

// What a case has before its numbers: the call with an instance or an attention type, the byte that the list or output is full of, the place and the size of the file among the files, how many words, read bytes and bytes of the list are lent, and the eight values of the answer.
#[derive(Clone, Copy)]
pub struct Head {
    pub kind: Kind,
    pub parameter: u8,
    pub lent: u8,
    pub place: u32,
    pub size: u32,
    pub words: u32,
    pub read: u32,
    pub list: u32,
    pub answer: [u32; 8],
}

// The number of 4 bytes at a place; 0 where they are not there.
// Kept: a number and no `Option`, since it answers every place.
pub fn four(s: &[u8], at: usize) -> u32
    ensures { result < 4294967296 }
{
    match s.get(at..).unwrap_or(&[]).first_chunk() {
        Some(bytes) => u32::from_be_bytes(*bytes),
        None => 0,
    }
}

// So many bytes from a place on, if they are there.
pub fn part(s: &[u8], from: u32, size: u32) -> Option<&[u8]> {
    s.get(from as usize..)?.get(..size as usize)
}

// So many bytes from a place on, if they stand among the files, behind their start.
fn among(files: &[u8], place: u32, size: u32) -> Option<&[u8]> {
    if (place as usize) < START {
        return None;
    }
    part(files, place, size)
}

impl Head {
    // A head with one of the six kinds, if the fields that its kind has not are 0, and it lends no more than its kind may.
    pub fn formed(bytes: &[u8; HEAD]) -> Result<Head, NoCase> {
        let head = Head {
            kind: Kind::try_from(bytes[0])?,
            parameter: bytes[1],
            lent: bytes[2],
            place: four(bytes, 4),
            size: four(bytes, 8),
            words: four(bytes, 12),
            read: four(bytes, 16),
            list: four(bytes, 20),
            answer: [
                four(bytes, 24),
                four(bytes, 28),
                four(bytes, 32),
                four(bytes, 36),
                four(bytes, 40),
                four(bytes, 44),
                four(bytes, 48),
                four(bytes, 52),
            ],
        };
        if bytes[3] == 0 && head.fits_its_kind() {
            Ok(head)
        } else {
            Err(NoCase::NoSuchValue)
        }
    }

    fn fits_its_kind(&self) -> bool {
        match self.kind {
            Kind::Check => self.parameter == 0 && self.words == 0 && self.lends_nothing(),
            Kind::Address => self.words == 1 && self.lends_nothing(),
            Kind::Isolation => self.lends_little(),
            Kind::Board => self.lends_little() && self.has_few_lengths(),
            Kind::Write => self.words == 1 && self.lends_output(),
            Kind::Read => self.words == 0 && self.lends_output(),
        }
    }

    // Whether it lends nothing: no read bytes and no list.
    fn lends_nothing(&self) -> bool {
        self.lent == 0 && self.read == 0 && self.list == 0
    }

    // Whether it lends no more than a case of isolation or of a board may, and a list with room for its records.
    fn lends_little(&self) -> bool {
        self.words as usize <= MOST_NUMBERS
            && self.read as usize <= MOST_NUMBERS
            && self.list as usize <= MOST_LIST
            && self.records() <= self.list as usize / RECORD
    }

    // Whether it has no more lengths than a board may, and no more words and lengths than there is room for.
    fn has_few_lengths(&self) -> bool {
        self.lengths().iter().all(|n| *n <= MOST_LENGTHS) && self.numbers() <= MOST_NUMBERS
    }

    // Whether it lends nothing but an output that is not too long, and has room there for what is to be written.
    fn lends_output(&self) -> bool {
        self.parameter == 0
            && self.read == 0
            && self.list as usize <= MOST_LIST
            && self.answer[2] <= self.list
    }

    // Whether a case writes or reads records.
    pub fn is_of_records(&self) -> bool {
        matches!(self.kind, Kind::Write | Kind::Read)
    }

    // How many records a case expects.
    pub fn records(&self) -> usize
        ensures { result < 4294967296 }
    {
        match self.kind {
            Kind::Isolation | Kind::Board => self.answer[2] as usize,
            _ => 0,
        }
    }

    // How many lengths of files, of words and of read bytes the case of a board has: they stand among the values.
    pub fn lengths(&self) -> [u32; 3] {
        let [_, _, _, _, _, files, words, read] = self.answer;
        [files, words, read]
    }

    // How many numbers of 8 bytes a case has: words, and the lengths of a board.
    pub fn numbers(&self) -> usize
        ensures { result < 17179869184 }
    {
        let [files, words, read] = match self.kind {
            Kind::Board => self.lengths(),
            _ => [0; 3],
        };
        self.words as usize + files as usize + words as usize + read as usize
    }

    // The file of a case, or what stands for it.
    pub fn file<'a>(&self, files: &'a [u8]) -> Option<&'a [u8]> {
        among(files, self.place, self.size)
    }

    // What a case of records is to write. After a refusal, and in the other cases, that is nothing.
    pub fn output<'a>(&self, files: &'a [u8]) -> Option<&'a [u8]> {
        let [number, _, size, place, ..] = self.answer;
        if !self.is_of_records() {
            return Some(&files[..0]);
        }
        if number == 0 {
            return among(files, place, size);
        }
        if size == 0 && place == 0 {
            Some(&files[..0])
        } else {
            None
        }
    }
}
