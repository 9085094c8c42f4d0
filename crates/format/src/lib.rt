// The public types of the chip data reader, and its keywords. The layout and its rules are in specs/.
#![tactic(auto)]

ghost use Rattle.std.specs.Prelude.{◌≡◌};
ghost use Rattle.format.specs.Refusals.{number_of};

// The four section keywords.
pub const CHIPDATA: [u8; 8] = *b"CHIPDATA";

pub const REGS: [u8; 4] = *b"REGS";

pub const NODE: [u8; 4] = *b"NODE";

pub const ROOT: [u8; 4] = *b"ROOT";

// Why an input is refused: a case for each number of the refusal table, in its order; and the last, a table that a caller lent for a file and that is too short for it.
#[derive(Clone, Copy)]
pub enum Kind {
    FileTooLong,
    FieldCut,
    WrongKeyword,
    WrongVersion,
    ZeroCount,
    UnknownValue,
    Duplicate,
    TooManyInstances,
    BadExpression,
    BitTooHigh,
    BytesAfterEnd,
    NameAbsent,
    RegisterUnfit,
    ChildCycle,
    BadAttentionType,
    NoRoot,
    ReadingsUnfit,
    RegisterUnread,
    NoRoom,
    BoardUnfit,
    RecordNotAllowed,
    OutputTooShort,
    TableTooShort,
}

// A refusal: why, and where.
#[derive(Clone, Copy)]
pub struct Refusal {
    pub kind: Kind,
    pub place: usize,
}

// What an accepted file holds.
#[derive(Clone, Copy)]
pub struct Summary {
    pub model: u64,
    pub registers: usize,
    pub register_instances: usize,
    pub nodes: usize,
    pub node_instances: usize,
    pub roots: usize,
}

// Where an address stands in a file, and its size in bytes.
#[derive(Clone, Copy)]
pub struct Address {
    pub place: usize,
    pub size: usize,
}

// The number of a refusal.
pub fn number(k: Kind) -> u8
    ensures { result ≡ number_of k }
{
    match k {
        Kind::FileTooLong => 1,
        Kind::FieldCut => 2,
        Kind::WrongKeyword => 3,
        Kind::WrongVersion => 4,
        Kind::ZeroCount => 5,
        Kind::UnknownValue => 6,
        Kind::Duplicate => 7,
        Kind::TooManyInstances => 8,
        Kind::BadExpression => 9,
        Kind::BitTooHigh => 10,
        Kind::BytesAfterEnd => 11,
        Kind::NameAbsent => 12,
        Kind::RegisterUnfit => 13,
        Kind::ChildCycle => 14,
        Kind::BadAttentionType => 15,
        Kind::NoRoot => 16,
        Kind::ReadingsUnfit => 17,
        Kind::RegisterUnread => 18,
        Kind::NoRoom => 19,
        Kind::BoardUnfit => 20,
        Kind::RecordNotAllowed => 40,
        Kind::OutputTooShort => 41,
        Kind::TableTooShort => 43,
    }
}
