// Classes of tables: a small file pays for small tables. The class of a file is that of its length; where its tables are too short for the file, the next larger is taken. The largest
// class has room for every file of the library, and the large one for every file of the program.

ghost use Rattle.std.specs.Prelude.{◌≤◌};

// The length of the longest file that is first tried with the tables of a class.
pub const SMALL_BYTES: usize = 256;

pub const MIDDLE_BYTES: usize = 4_096;

pub const LARGE_BYTES: usize = 16_384;

// For how many register instances the tables of a class have room.
pub const SMALL_REGISTERS: usize = 32;

pub const MIDDLE_REGISTERS: usize = 256;

pub const LARGE_REGISTERS: usize = crate::PROGRAM_REGISTER_INSTANCES;

pub const FULL_REGISTERS: usize = crate::REGISTER_INSTANCES;

// For how many node instances.
pub const SMALL_NODES: usize = 8;

pub const MIDDLE_NODES: usize = 64;

pub const LARGE_NODES: usize = crate::PROGRAM_NODE_INSTANCES;

pub const FULL_NODES: usize = crate::NODE_INSTANCES;

// How many classes are larger than that of a file of so many bytes. One that is too long for the library is refused without a table, so that its class is the small one.
pub fn larger_classes(bytes: usize) -> usize
    ensures { result ≤ 3 }
{
    if crate::BYTES < bytes || bytes <= SMALL_BYTES {
        3
    } else if bytes <= MIDDLE_BYTES {
        2
    } else if bytes <= LARGE_BYTES {
        1
    } else {
        0
    }
}
