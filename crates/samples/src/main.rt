// Runs the bench samples that are not in the proved table, and further ones for change requests (iii) and (x), and prints what came out of each.
//
// What each sample has to give is worked out from the rules and the layout in the comment above its function. Each function puts its file together from the bytes of B1 as far as they serve. So each file, and with it each record, has model/level 1; and each record has slot 0, which the call for one chip writes.
#![tactic(auto)]

use crate::build::{B1, Draft, b1_with, first};
use crate::print::{print_check, print_isolation, print_station};
use std::io;

mod build;
mod print;

// Bit 0 alone, the leftmost.
const BIT_0: u64 = 0x8000000000000000;

// Type 6: 15, whose place is always 0. The file is B1 as it stands.
fn type_6(rt: &impl Print) -> io::Result<()> {
    print_isolation(rt, "type 6", &B1, 6, &[BIT_0], &[1])
}

// First 59 bytes: the last field of B1, the root's instance at 59, is not there, so 2 at 59.
fn first_59_bytes(rt: &impl Print) -> io::Result<()> {
    print_isolation(rt, "first 59 bytes", &B1[..59], 3, &[BIT_0], &[1])
}

// "CHIP", which is 43 48 49 50, where "REGS" has to stand, at 13: 3 at 13.
fn chip_at_13(rt: &impl Print) -> io::Result<()> {
    let file = b1_with(13, b"CHIP");
    print_isolation(rt, "CHIP at 13", &file, 3, &[BIT_0], &[1])
}

// Version 2, in the byte at 12: 4 at 12.
fn version_2(rt: &impl Print) -> io::Result<()> {
    let file = b1_with(12, &[2]);
    print_isolation(rt, "version 2", &file, 3, &[BIT_0], &[1])
}

// Flags 01, in the byte at 24: a reserved bit is set, so 6 at 24.
fn flags_01(rt: &impl Print) -> io::Result<()> {
    let file = b1_with(24, &[1]);
    print_isolation(rt, "flags 01", &file, 3, &[BIT_0], &[1])
}

// Root instance 1, in the byte at 59: node 1 has no instance 1. The place is the root's first byte, so 12 at 56.
fn root_instance_1(rt: &impl Print) -> io::Result<()> {
    let file = b1_with(59, &[1]);
    print_isolation(rt, "root instance 1", &file, 3, &[BIT_0], &[1])
}

// (FFFF << 8) >> 8 is FFFF: a right shift (14) by 8 of a left shift (13) by 8 of the constant FFFF (02) takes the place of B1's reading, which stands from 46 to 50. A word has 64 bits, so none of the constant's 16 is lost. They are the rightmost: bits 48 to 63. The rule names no register, so the reading means nothing.
fn shifts(rt: &impl Print) -> io::Result<()> {
    let mut file = Draft::new();
    file.put(&B1[..46]);
    file.put(&[0x14, 8, 0x13, 8, 2, 0, 0, 0, 0, 0, 0, 0xFF, 0xFF]);
    file.put(&B1[51..]);
    print_isolation(rt, "(FFFF << 8) >> 8", file.bytes(), 3, &[0], &[1])
}

// B1 with so many NOTs in front of its reading, which begins at 46.
fn levels(nots: usize) -> Draft {
    let mut file = Draft::new();
    file.put(&B1[..46]);
    file.put_nots(nots);
    file.put(&B1[46..]);
    file
}

// Level 16: the outermost NOT has level 1, so after 15 of them the reading has level 16, and the file is accepted. The number of NOTs is odd: where the reading has every bit but bit 0, the rule has bit 0 alone.
fn level_16(rt: &impl Print) -> io::Result<()> {
    let file = levels(15);
    print_check(rt, "level 16", file.bytes())?;
    print_isolation(rt, "level 16", file.bytes(), 3, &[!BIT_0], &[1])
}

// Level 17: after 16 NOTs, from 46 to 61, the reading has level 17. The place is its type byte, at 62: 9 at 62.
fn level_17(rt: &impl Print) -> io::Result<()> {
    let file = levels(16);
    print_isolation(rt, "level 17", file.bytes(), 3, &[BIT_0], &[1])
}

// Zeros: a file that is longer than the limit is refused by 1, whose place is always 0, whatever its bytes are. One that is as long as the limit is read, and "CHIPDATA" does not stand at its front: 3 at 0. The limit is the library's for the library, and the program's for the station.
fn lengths(rt: &impl Print, zeros: &[u8]) -> io::Result<()> {
    print_check(rt, "1048576 bytes", first(zeros, limits::BYTES))?;
    print_check(rt, "1048577 bytes", zeros)?;
    print_station(rt, "65536 bytes", first(zeros, limits::PROGRAM_BYTES))?;
    print_station(rt, "65537 bytes", first(zeros, limits::PROGRAM_BYTES + 1))
}

// The same, with one zero more than the library's limit.
fn lengths_of_zeros(rt: &impl Print) -> io::Result<()> {
    let zeros = [0u8; limits::BYTES + 1];
    lengths(rt, &zeros)
}

// B1 up to its register count, which stands at 17; so many registers from 1 up, from 20 on, each with instances 0 to 127; then what is asked for; then one node, whose rule for type 3 is the reading of instance 127 of the last of these registers; and B1's root.
fn many_registers(registers: u8, count: u8, more: &[u8]) -> Draft {
    let mut file = Draft::new();
    file.put(&B1[..17]);
    file.put(&[0, 0, count]);
    file.put_registers(registers);
    file.put(more);
    file.put(&B1[31..46]);
    file.put(&[1, 0, 0, registers, 127]);
    file.put(&B1[51..]);
    file
}

// 8,192 register instances, 64 * 128: accepted. Bit 5 of the last reading is set, and no other bit of any, so the rule has bit 5 alone. 8,193: the first instance of register 65 is one too many. The 64 registers before it take 6 + 128 * 5 = 646 bytes each from 20 on, so register 65 begins at 20 + 64 * 646 = 41364, and its instance's number byte stands 6 bytes after that: 8 at 41370.
fn register_instances(rt: &impl Print) -> io::Result<()> {
    let most = many_registers(64, 64, &[]);
    let mut words = [0u64; 8192];
    words[8191] = 0x0400000000000000;
    print_check(rt, "8192 register instances", most.bytes())?;
    print_isolation(
        rt,
        "8192 register instances",
        most.bytes(),
        3,
        &words,
        &[1; 8192],
    )?;
    let more = many_registers(64, 65, &[0, 0, 65, 1, 0x80, 1, 0, 0, 0, 65, 0]);
    print_check(rt, "8193 register instances", more.bytes())
}

// The station with 1,024 register instances, 8 * 128: the file is accepted, and the empty readings file does not fit, so 17, whose place is always 0. With 1,025: register 9 begins at 20 + 8 * 646 = 5188, and its instance's number byte stands 6 bytes after that: 8 at 5194.
fn station_register_instances(rt: &impl Print) -> io::Result<()> {
    let most = many_registers(8, 8, &[]);
    print_station(rt, "1024 register instances", most.bytes())?;
    let more = many_registers(8, 9, &[0, 0, 9, 1, 0x80, 1, 0, 0, 0, 9, 0]);
    print_station(rt, "1025 register instances", more.bytes())
}

// B1 up to its node count, which stands at 35; so many nodes from 1 up, from 37 on, each with instances 0 to 127; then what is asked for; and a root for type 3 at instance 127 of the last of these nodes.
fn many_nodes(nodes: u8, count: u8, more: &[u8]) -> Draft {
    let mut file = Draft::new();
    file.put(&B1[..35]);
    file.put(&[0, count]);
    file.put_nodes(nodes);
    file.put(more);
    file.put(&B1[51..56]);
    file.put(&[3, 0, nodes, 127]);
    file
}

// 1,024 node instances, 8 * 128: accepted. The root's instance is the last of them, and its rule has bit 0. 1,025: the instance of node 9 is one too many. The eight nodes before it take 4 + 128 * 10 = 1284 bytes each from 37 on, so node 9 begins at 37 + 8 * 1284 = 10309, and its instance's number byte stands 4 bytes after that: 8 at 10313.
fn node_instances(rt: &impl Print) -> io::Result<()> {
    let most = many_nodes(8, 8, &[]);
    print_check(rt, "1024 node instances", most.bytes())?;
    print_isolation(rt, "1024 node instances", most.bytes(), 3, &[BIT_0], &[1])?;
    let more = many_nodes(8, 9, &[0, 9, 1, 1, 0, 0, 1, 0, 3, 1, 0, 0, 1, 0]);
    print_check(rt, "1025 node instances", more.bytes())
}

// The station with 256 node instances, 2 * 128: accepted, and 17 at 0, as above. With 257: node 3 begins at 37 + 2 * 1284 = 2605, and its instance's number byte stands 4 bytes after that: 8 at 2609.
fn station_node_instances(rt: &impl Print) -> io::Result<()> {
    let most = many_nodes(2, 2, &[]);
    print_station(rt, "256 node instances", most.bytes())?;
    let more = many_nodes(2, 3, &[0, 3, 1, 1, 0, 0, 1, 0, 3, 1, 0, 0, 1, 0]);
    print_station(rt, "257 node instances", more.bytes())
}

// The nodes of the diamond. The rule of node n is the reading of register 1, instance n - 1. Node 1 has node 2 at bit 0 and node 3 at bit 1; nodes 2 and 3 have node 4 at bit 0; node 4 has no child.
fn put_diamond_nodes(file: &mut Draft) {
    file.put_parent(1, 0, 2);
    file.put_child(0, 2);
    file.put_child(1, 3);
    file.put_parent(2, 1, 1);
    file.put_child(0, 4);
    file.put_parent(3, 2, 1);
    file.put_child(0, 4);
    file.put_parent(4, 3, 0);
}

// B1 up to its registers, which begin at 20; register 1 with instances 0 to 3; the four nodes; and B1's root, which is node 1, instance 0.
fn drawn_diamond() -> Draft {
    let mut file = Draft::new();
    file.put(&B1[..20]);
    file.put_register(1, 4);
    file.put(&B1[31..35]);
    file.put(&[0, 4]);
    put_diamond_nodes(&mut file);
    file.put(&B1[51..]);
    file
}

// The diamond: of node 1 bits 0 and 1 are active, of nodes 2 and 3 bit 0, of node 4 bit 5. All but the last have a child. So node 4's bit 5 is listed, once, though two chains lead to it; and each of the four instances is reached, so there are 4 steps.
fn diamond(rt: &impl Print) -> io::Result<()> {
    let file = drawn_diamond();
    let words = [0xC000000000000000, BIT_0, BIT_0, 0x0400000000000000];
    print_isolation(rt, "diamond", file.bytes(), 3, &words, &[1, 1, 1, 1])
}

// Silent children, on the diamond: of node 1 bits 0 and 1 are active, and of their children no bit. So both bits are listed, though each has a child; nodes 2 and 3 are reached, so there are 3 steps.
fn silent_children(rt: &impl Print) -> io::Result<()> {
    let file = drawn_diamond();
    let words = [0xC000000000000000, 0, 0, 0];
    print_isolation(
        rt,
        "silent children",
        file.bytes(),
        3,
        &words,
        &[1, 1, 1, 1],
    )
}

// A silent bottom, on the diamond: bit 0 of node 2 and bit 0 of node 3 have one child, node 4, which shows nothing. So both are listed, and node 4 is one step, the fourth. Nodes 2 and 3 show bits, all of them followed: the bits of node 1 are not listed.
fn silent_bottom(rt: &impl Print) -> io::Result<()> {
    let file = drawn_diamond();
    let words = [0xC000000000000000, BIT_0, BIT_0, 0];
    print_isolation(rt, "silent bottom", file.bytes(), 3, &words, &[1, 1, 1, 1])
}

// Two nodes. The rule of node 1 is the reading of register 1, instance 0, and it has node 2 at bit 0 and at bit 1: 22 bytes. The only rule of node 2 is for this attention type, and is the reading of instance 1, which stands 9 bytes after the node's first: 14 bytes.
fn put_two_nodes(file: &mut Draft, attention: u8) {
    file.put_parent(1, 0, 2);
    file.put_child(0, 2);
    file.put_child(1, 2);
    file.put(&[0, 2, 1, 1, 0, 0, 1, 0, attention]);
    file.put(&[1, 0, 0, 1, 1]);
}

// B1 up to its registers, which begin at 20; register 1 with instances 0 and 1, up to 36; "NODE" and the node count, at 40; the two nodes, at 42 and 64; and B1's root, which is node 1, instance 0.
fn one_child(attention: u8) -> Draft {
    let mut file = Draft::new();
    file.put(&B1[..20]);
    file.put_register(1, 2);
    file.put(&B1[31..35]);
    file.put(&[0, 2]);
    put_two_nodes(&mut file, attention);
    file.put(&B1[51..]);
    file
}

// A child without a rule for type 3: bits 0 and 1 of node 1 are active, and the only rule of their child is for type 1, and would have all bits. So the child shows nothing for type 3, and both bits are listed; the child is one step.
fn child_without_rule(rt: &impl Print) -> io::Result<()> {
    let file = one_child(1);
    let words = [0xC000000000000000, 0xFFFFFFFFFFFFFFFF];
    print_isolation(rt, "child without a rule", file.bytes(), 3, &words, &[1, 1])
}

// An unread child: now the rule is for type 3. The child is reached and its register is unread, so 18 at the expression that names it, at 73.
fn unread_child(rt: &impl Print) -> io::Result<()> {
    let file = one_child(3);
    let words = [0xC000000000000000, 0];
    print_isolation(rt, "unread child", file.bytes(), 3, &words, &[1, 0])
}

fn main(rt: HostRuntime) -> io::Result<()> {
    type_6(&rt)?;
    first_59_bytes(&rt)?;
    chip_at_13(&rt)?;
    version_2(&rt)?;
    flags_01(&rt)?;
    root_instance_1(&rt)?;
    shifts(&rt)?;
    level_16(&rt)?;
    level_17(&rt)?;
    lengths_of_zeros(&rt)?;
    register_instances(&rt)?;
    station_register_instances(&rt)?;
    node_instances(&rt)?;
    station_node_instances(&rt)?;
    diamond(&rt)?;
    silent_children(&rt)?;
    silent_bottom(&rt)?;
    child_without_rule(&rt)?;
    unread_child(&rt)
}
