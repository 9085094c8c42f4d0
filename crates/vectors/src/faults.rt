// What is wrong with a file of vectors, and what ends a walk.
use std::{fmt, io};

// Why some bytes are no case.
#[derive(Clone, Copy)]
pub enum NoCase {
    NotWhole,
    NoSuchValue,
    NotAmongFiles,
}

impl fmt::Display for NoCase {
    fn fmt<W: fmt::Write>(&self, f: &mut fmt::Formatter<W>) -> fmt::Result {
        f.write_str(match self {
            NoCase::NotWhole => "not wholly there",
            NoCase::NoSuchValue => "a field has no such value",
            NoCase::NotAmongFiles => { "its file, or what it is to write, is not among the files" }
        })
    }
}

// Why the file is no file of vectors. The first case has number 1.
#[derive(Clone, Copy)]
pub enum Malformed {
    Unopened,
    TooLong,
    TooShort,
    WrongKeyword,
    FirstInStart,
    FirstBeyondEnd,
    BytesAfter,
    Case(u32, NoCase),
}

impl fmt::Display for Malformed {
    fn fmt<W: fmt::Write>(&self, f: &mut fmt::Formatter<W>) -> fmt::Result {
        let why = match self {
            Malformed::Unopened => "it cannot be opened",
            Malformed::TooLong => "too long",
            Malformed::TooShort => "too short",
            Malformed::WrongKeyword => "wrong keyword",
            Malformed::FirstInStart => "the first case stands in the start",
            Malformed::FirstBeyondEnd => "the first case stands beyond the end",
            Malformed::BytesAfter => "bytes after the last case",
            Malformed::Case(number, why) => return write!(f, "case {number} is malformed: {why}"),
        };
        write!(f, "vectors.bin is malformed: {why}")
    }
}

// What ends a walk: the file is malformed, or it cannot be read, or nothing can be printed.
#[derive(Drop)]
pub enum Stop {
    Malformed(Malformed),
    Io(io::Error),
}

impl From<Malformed> for Stop {
    fn from(why: Malformed) -> Stop {
        Stop::Malformed(why)
    }
}

impl From<io::Error> for Stop {
    fn from(e: io::Error) -> Stop {
        Stop::Io(e)
    }
}
