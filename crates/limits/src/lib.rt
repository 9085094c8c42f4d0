// The limits of a chip data file: the library's, and the program's.
#![tactic(auto)]

ghost use Rattle.std.specs.Prelude.{◌≡◌};
ghost use Rattle.limits.specs.Limits.{limits_of};

pub mod classes;

// Whose limits hold.
#[derive(Clone, Copy)]
pub enum LimitSet {
    Library,
    Program,
}

// The library's: bytes, register instances and node instances of a file.
pub const BYTES: usize = 1_048_576;

pub const REGISTER_INSTANCES: usize = 8_192;

pub const NODE_INSTANCES: usize = 1_024;

// The program's.
pub const PROGRAM_BYTES: usize = 65_536;

pub const PROGRAM_REGISTER_INSTANCES: usize = 1_024;

pub const PROGRAM_NODE_INSTANCES: usize = 256;

// The levels of an expression, in either set.
pub const LEVELS: usize = 16;

// The most slots of a board, and the node instances that their files may have in all.
pub const SLOTS: usize = 16;

pub const BOARD_NODE_INSTANCES: usize = SLOTS * NODE_INSTANCES;

// The limits of a set.
#[derive(Clone, Copy)]
struct Limits {
    bytes: usize,
    register_instances: usize,
    node_instances: usize,
}

#[tactic(auto, unfolding(crate::specs::Limits::limits_of))]
fn limits_of(of: LimitSet) -> Limits
    ensures bytes { result.bytes ≡ (limits_of of).bytes }
    ensures register_instances { result.register_instances ≡ (limits_of of).register_instances }
    ensures node_instances { result.node_instances ≡ (limits_of of).node_instances }
{
    match of {
        LimitSet::Library => Limits {
            bytes: BYTES,
            register_instances: REGISTER_INSTANCES,
            node_instances: NODE_INSTANCES,
        },
        LimitSet::Program => Limits {
            bytes: PROGRAM_BYTES,
            register_instances: PROGRAM_REGISTER_INSTANCES,
            node_instances: PROGRAM_NODE_INSTANCES,
        },
    }
}

// The most bytes of a file.
pub fn bytes(of: LimitSet) -> usize
    ensures { result ≡ (limits_of of).bytes }
{
    limits_of(of).bytes
}

// The most register instances of a file.
pub fn register_instances(of: LimitSet) -> usize
    ensures { result ≡ (limits_of of).register_instances }
{
    limits_of(of).register_instances
}

// The most node instances of a file.
pub fn node_instances(of: LimitSet) -> usize
    ensures { result ≡ (limits_of of).node_instances }
{
    limits_of(of).node_instances
}
