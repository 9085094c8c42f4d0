// Chip data files, put together piece by piece.

// Sample B1, 60 bytes, with the place of each field:
// - 0 "CHIPDATA", 8 model/level, 12 version;
// - 13 "REGS", 17 register count, 20 register 1, 23 its type, 24 flags, 25 instance count, 26 instance 0, 27 its address;
// - 31 "NODE", 35 node count, 37 node 1, 39 its type, 40 instance count, 41 instance 0, 42 counts of captures, rules and children, 45 the rule's attention type, 46 the reading of register 1, instance 0;
// - 51 "ROOT", 55 root count, 56 the root's attention type, 57 node ID, 59 instance.
pub const B1: [u8; 60] =
    *b"\x43\x48\x49\x50\x44\x41\x54\x41\x00\x00\x00\x01\x01\x52\x45\x47\x53\x00\x00\x01\x00\x00\x01\x01\x80\x01\x00\x00\x00\x10\x00\x4E\x4F\x44\x45\x00\x01\x00\x01\x01\x01\x00\x00\x01\x00\x03\x01\x00\x00\x01\x00\x52\x4F\x4F\x54\x01\x03\x00\x01\x00";

// So many bytes from the front, or all where there are fewer.
pub fn first(bytes: &[u8], size: usize) -> &[u8] {
    &bytes[..size.min(bytes.len())]
}

// B1 with other bytes from a place on.
pub fn b1_with(at: usize, bytes: &[u8]) -> [u8; 60] {
    let mut file = B1;
    for (place, b) in file.iter_mut().skip(at).zip(bytes) {
        *place = *b;
    }
    file
}

// How many bytes a file may have.
const SPACE: usize = 65_536;

// A file as far as it is put together. What it has no room for is left out.
#[derive(Drop)]
pub struct Draft {
    space: [u8; SPACE],
    size: usize,
}

impl Draft {
    pub fn new() -> Draft {
        Draft {
            space: [0; SPACE],
            size: 0,
        }
    }

    // The bytes that are there.
    pub fn bytes(&self) -> &[u8] {
        first(&self.space, self.size)
    }

    // Some bytes, one after the other.
    pub fn put(&mut self, bytes: &[u8]) {
        let room = &mut self.space[self.size.min(SPACE)..];
        for (place, b) in room.iter_mut().zip(bytes) {
            *place = *b;
        }
        self.size = self.size.saturating_add(bytes.len());
    }

    // NOT, so many times: each is one level of an expression.
    pub fn put_nots(&mut self, nots: usize) {
        for _ in 0..nots {
            self.put(&[0x12]);
        }
    }

    // A readable register of type 1 with instances from 0 up: 6 bytes, and 5 for each instance.
    pub fn put_register(&mut self, id: u8, instances: u8) {
        self.put(&[0, 0, id, 1, 0x80, instances]);
        for i in 0..instances {
            self.put(&[i, 0, 0, id, i]);
        }
    }

    // Registers with IDs from 1 up, each with 128 instances: 646 bytes for each.
    pub fn put_registers(&mut self, registers: u8) {
        for id in 1..=registers {
            self.put_register(id, 128);
        }
    }

    // A node instance with a rule for type 3 that is the reading of an instance of register 1, and a count of children: 10 bytes.
    fn put_instance(&mut self, instance: u8, children: u8, reading: u8) {
        self.put(&[instance, 0, 1, children, 3, 1, 0, 0, 1, reading]);
    }

    // A node of type 1 with instances from 0 up, each with the reading of register 1, instance 0, for its rule, and no child: 4 bytes, and 10 for each instance.
    fn put_node(&mut self, id: u8, instances: u8) {
        self.put(&[0, id, 1, instances]);
        for i in 0..instances {
            self.put_instance(i, 0, 0);
        }
    }

    // Nodes with IDs from 1 up, each with 128 instances: 1,284 bytes for each.
    pub fn put_nodes(&mut self, nodes: u8) {
        for id in 1..=nodes {
            self.put_node(id, 128);
        }
    }

    // A node of type 1 with instance 0 alone, the reading of an instance of register 1 for its rule, and a count of children, which are to follow.
    pub fn put_parent(&mut self, id: u8, reading: u8, children: u8) {
        self.put(&[0, id, 1, 1]);
        self.put_instance(0, children, reading);
    }

    // A child at a bit: instance 0 of a node.
    pub fn put_child(&mut self, bit: u8, id: u8) {
        self.put(&[bit, 0, id, 0]);
    }
}
