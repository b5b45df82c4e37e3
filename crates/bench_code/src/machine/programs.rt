//! The programs that are measured, made by a small generator of pseudo-random numbers.

use std::alloc::{AllocError, Global};
use std::ops::Range;

/// A program: its name, and its code.
#[derive(Drop)]
pub(crate) struct Program {
    pub(crate) name: &'static str,
    pub(crate) code: Vec<u8>,
}

/// The first opcodes of arithmetic with an immediate of class ALU64 (RFC 9669, section 4.1): all but
/// divisions, whose own time would hide the interpreter's.
const OPERATIONS: [u8; 9] = [0x07, 0x17, 0x27, 0x47, 0x57, 0x67, 0x77, 0xa7, 0xb7];

/// The opcodes of tests against an immediate of class JMP (RFC 9669, section 4.3).
const TESTS: [u8; 11] = [
    0x15, 0x25, 0x35, 0x45, 0x55, 0x65, 0x75, 0xa5, 0xb5, 0xc5, 0xd5,
];

/// The opcodes of loads, least size first (RFC 9669, section 5.1).
const LOADS: [u8; 4] = [0x71, 0x69, 0x61, 0x79];

/// The opcodes of stores of a register, least size first (RFC 9669, section 5.1).
const STORES: [u8; 4] = [0x73, 0x6b, 0x63, 0x7b];

/// Numbers that look random and are the same each time.
#[derive(Drop)]
struct Numbers(u64);

impl Numbers {
    /// A number below this one, or 0.
    fn below(&mut self, limit: u64) -> u64 {
        self.0 = self
            .0
            .wrapping_mul(6_364_136_223_846_793_005)
            .wrapping_add(1_442_695_040_888_963_407);
        (self.0 >> 33) % limit.max(1)
    }
}

/// A slot (RFC 9669, section 3.1).
fn slot(opcode: u8, dst: u8, src: u8, offset: i16, imm: i32) -> [u8; 8] {
    let [offset0, offset1] = offset.to_le_bytes();
    let [imm0, imm1, imm2, imm3] = imm.to_le_bytes();
    let registers = src.wrapping_mul(16) | dst;
    [opcode, registers, offset0, offset1, imm0, imm1, imm2, imm3]
}

/// Gives r0 and r3 to r9 a number each.
fn with_registers(alloc: Global) -> Result<Vec<u8>, AllocError> {
    let mut code = Vec::new(alloc);
    for register in [0u8, 3, 4, 5, 6, 7, 8, 9] {
        code.extend_from_slice(&slot(0xb7, register, 0, 0, i32::from(register).wrapping_mul(77)))?;
    }
    Ok(code)
}

/// Ends the code by an exit.
fn ended_program(name: &'static str, mut code: Vec<u8>) -> Result<Program, AllocError> {
    code.extend_from_slice(&slot(0x95, 0, 0, 0, 0))?;
    Ok(Program { name, code })
}

/// One of r0 and r3 to r9.
fn register(numbers: &mut Numbers) -> u8 {
    match numbers.below(8) {
        0 => 0,
        1 => 3,
        2 => 4,
        3 => 5,
        4 => 6,
        5 => 7,
        6 => 8,
        _ => 9,
    }
}

/// A number below 128.
fn small(numbers: &mut Numbers, limit: u64) -> u8 {
    (numbers.below(limit) & 0x7f) as u8
}

/// An element of a table.
fn one_of(numbers: &mut Numbers, table: &[u8]) -> u8 {
    let at = numbers.below(table.len() as u64) as usize;
    table.get(at).copied().unwrap_or(0)
}

/// One arithmetic instruction of either class and source.
fn arithmetic(numbers: &mut Numbers) -> [u8; 8] {
    let class = if numbers.below(4) == 0 { 3 } else { 0 };
    let opcode = one_of(numbers, &OPERATIONS).wrapping_sub(class);
    let dst = register(numbers);
    if numbers.below(2) == 0 {
        slot(opcode | 8, dst, register(numbers), 0, 0)
    } else {
        slot(opcode, dst, 0, 0, i32::from(small(numbers, 31)))
    }
}

/// The same addition over and over.
fn same_operation(alloc: Global, count: u32) -> Result<Program, AllocError> {
    let mut code = with_registers(alloc)?;
    for _ in 0..count {
        code.extend_from_slice(&slot(0x0f, 0, 3, 0, 0))?;
    }
    ended_program("same_operation", code)
}

/// Mixed arithmetic.
fn mixed(alloc: Global, name: &'static str, count: u32) -> Result<Program, AllocError> {
    let mut numbers = Numbers(1);
    let mut code = with_registers(alloc)?;
    for _ in 0..count {
        code.extend_from_slice(&arithmetic(&mut numbers))?;
    }
    ended_program(name, code)
}

/// A load or a store of any size, in the stack frame or in the arguments.
fn access(numbers: &mut Numbers) -> [u8; 8] {
    let (base, offset) = if numbers.below(2) == 0 {
        (10, i16::from(small(numbers, 120)).wrapping_sub(128))
    } else {
        (1, i16::from(small(numbers, 120)))
    };
    let value = register(numbers);
    if numbers.below(2) == 0 {
        slot(one_of(numbers, &LOADS), value, base, offset, 0)
    } else {
        slot(one_of(numbers, &STORES), base, value, offset, 0)
    }
}

/// Loads and stores, behind stores over the last 128 bytes of the frame.
fn accesses(alloc: Global, seed: u64, count: u32) -> Result<Program, AllocError> {
    let mut numbers = Numbers(seed);
    let mut code = with_registers(alloc)?;
    for index in 1..17i16 {
        code.extend_from_slice(&slot(0x7a, 10, 0, index.wrapping_mul(-8), 7))?;
    }
    for _ in 0..count {
        code.extend_from_slice(&access(&mut numbers))?;
    }
    ended_program("loads_and_stores", code)
}

/// Appends tests that jump over an addition, some of them of low halves.
fn push_tests(code: &mut Vec<u8>, seed: u64, count: u32) -> Result<(), AllocError> {
    let mut numbers = Numbers(seed);
    for _ in 0..count {
        let class = if numbers.below(4) == 0 { 1 } else { 0 };
        let opcode = one_of(&mut numbers, &TESTS).wrapping_add(class);
        let dst = register(&mut numbers);
        if numbers.below(2) == 0 {
            code.extend_from_slice(&slot(opcode | 8, dst, register(&mut numbers), 1, 0))?;
        } else {
            let imm = i32::from(small(&mut numbers, 127)).wrapping_mul(6);
            code.extend_from_slice(&slot(opcode, dst, 0, 1, imm))?;
        }
        let dst = register(&mut numbers);
        code.extend_from_slice(&slot(0x07, dst, 0, 0, 41))?;
    }
    Ok(())
}

/// Tests of constants: the verifier knows of each which edge is taken.
fn tests(alloc: Global, seed: u64, count: u32) -> Result<Program, AllocError> {
    let mut code = with_registers(alloc)?;
    push_tests(&mut code, seed, count)?;
    ended_program("tests", code)
}

/// Tests of numbers that are loaded: nearly each can be taken or not, and its edges join behind the
/// addition.
fn joins(alloc: Global, seed: u64, count: u32) -> Result<Program, AllocError> {
    let mut code = Vec::new(alloc);
    for register in [0u8, 3, 4, 5, 6, 7, 8, 9] {
        let offset = i16::from(register).wrapping_mul(4);
        code.extend_from_slice(&slot(0x61, register, 1, offset, 0))?;
    }
    push_tests(&mut code, seed, count)?;
    ended_program("joins", code)
}

/// What the verifier is measured on.
#[derive(Clone, Copy)]
pub(crate) enum Kind {
    /// Tests of which the verifier knows the outcome.
    DecidedTests,
    /// Tests whose edges join.
    JoiningTests,
    /// Loads and stores.
    Accesses,
}

impl Kind {
    /// What it is called where it is printed.
    pub(crate) fn name(self) -> &'static str {
        match self {
            Kind::DecidedTests => "decided tests",
            Kind::JoiningTests => "tests with joins",
            Kind::Accesses => "loads and stores",
        }
    }

    /// A program for each of these seeds, of at least 27 slots: so many, or one less.
    pub(crate) fn programs(
        self,
        alloc: Global,
        seeds: Range<u64>,
        slots: u32,
    ) -> Result<Vec<Program>, AllocError> {
        let mut programs = Vec::new(alloc);
        for seed in seeds {
            programs.push(self.program(alloc, seed, slots)?)?;
        }
        Ok(programs)
    }

    /// A program. Another seed makes another one.
    fn program(self, alloc: Global, seed: u64, slots: u32) -> Result<Program, AllocError> {
        match self {
            Kind::DecidedTests => tests(alloc, seed, slots.saturating_sub(9) / 2),
            Kind::JoiningTests => joins(alloc, seed, slots.saturating_sub(9) / 2),
            Kind::Accesses => accesses(alloc, seed, slots.saturating_sub(25)),
        }
    }
}

/// Local calls of a function of three instructions, which stands behind the exit.
fn local_calls(alloc: Global, count: i32) -> Result<Program, AllocError> {
    let mut code = Vec::new(alloc);
    code.extend_from_slice(&slot(0xb7, 0, 0, 0, 7))?;
    for index in 0..count {
        let offset = count.wrapping_sub(index).wrapping_mul(2).wrapping_sub(1);
        code.extend_from_slice(&slot(0xbf, 1, 0, 0, 0))?;
        code.extend_from_slice(&slot(0x85, 0, 1, 0, offset))?;
    }
    code.extend_from_slice(&slot(0x95, 0, 0, 0, 0))?;
    code.extend_from_slice(&slot(0xbf, 0, 1, 0, 0))?;
    code.extend_from_slice(&slot(0x07, 0, 0, 0, 1))?;
    ended_program("local_calls", code)
}

/// Calls of the helper of a number, each with another key at r1, and with a value at r2. The last eight
/// bytes of the first key are the first eight argument bytes modulo 4,096, those of the next key 1,009
/// more, and so on; a key's first bytes are 0.
pub(crate) fn helper_calls(
    alloc: Global,
    name: &'static str,
    helper: i32,
    count: u32,
) -> Result<Program, AllocError> {
    let mut code = Vec::new(alloc);
    code.extend_from_slice(&slot(0x79, 8, 1, 0, 0))?;
    for (register, offset) in [(6, -16), (7, -48)] {
        code.extend_from_slice(&slot(0xbf, register, 10, 0, 0))?;
        code.extend_from_slice(&slot(0x07, register, 0, 0, offset))?;
    }
    for offset in [-16i16, -48, -40, -32, -24] {
        code.extend_from_slice(&slot(0x7a, 10, 0, offset, 0))?;
    }
    for _ in 0..count {
        code.extend_from_slice(&slot(0x57, 8, 0, 0, 4095))?;
        code.extend_from_slice(&slot(0x7b, 10, 8, -8, 0))?;
        code.extend_from_slice(&slot(0xbf, 1, 6, 0, 0))?;
        code.extend_from_slice(&slot(0xbf, 2, 7, 0, 0))?;
        code.extend_from_slice(&slot(0x85, 0, 0, 0, helper))?;
        code.extend_from_slice(&slot(0x07, 8, 0, 0, 1009))?;
    }
    ended_program(name, code)
}

/// Straight code of so many slots, at least 9.
pub(crate) fn straight(alloc: Global, slots: u32) -> Result<Program, AllocError> {
    same_operation(alloc, slots.wrapping_sub(9))
}

/// Seven functions that each call the next one twice, the last of them one of so many moves.
pub(crate) fn two_calls_each(alloc: Global, moves: u32) -> Result<Program, AllocError> {
    let mut code = Vec::new(alloc);
    for _ in 0..7 {
        code.extend_from_slice(&slot(0x85, 0, 1, 0, 2))?;
        code.extend_from_slice(&slot(0x85, 0, 1, 0, 1))?;
        code.extend_from_slice(&slot(0x95, 0, 0, 0, 0))?;
    }
    for _ in 0..moves {
        code.extend_from_slice(&slot(0xb7, 0, 0, 0, 0))?;
    }
    ended_program("two_calls_each", code)
}

/// All programs that are measured against the C interpreter. The last is a call of two instructions.
pub(crate) fn all(alloc: Global) -> Result<Vec<Program>, AllocError> {
    let mut programs = Vec::new(alloc);
    programs.push(same_operation(alloc, 1000)?)?;
    programs.push(mixed(alloc, "mixed_128", 128)?)?;
    programs.push(mixed(alloc, "mixed_1000", 1000)?)?;
    programs.push(accesses(alloc, 2, 990)?)?;
    programs.push(tests(alloc, 3, 500)?)?;
    programs.push(local_calls(alloc, 200)?)?;
    let mut code = Vec::new(alloc);
    code.extend_from_slice(&slot(0xb7, 0, 0, 0, 7))?;
    programs.push(ended_program("call", code)?)?;
    Ok(programs)
}
