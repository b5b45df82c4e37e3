//! Registers, operands and instructions.

ghost use Rattle.std.specs.Prelude.{◌≡◌, ◌≤◌, ◌↔◌, IsSome, IfSome};

use bpf_num::{AluOp, AluWidth, SwapKind, Test, Width};

/// One of the registers r0 to r10 (RFC 9669, section 2.1). r10 is the frame pointer: it holds
/// the end of the function's frame and is never written.
#[derive(Clone, Copy, Debug, PartialEq, Eq)]
pub struct Reg {
    /// Its number, 0 to 10.
    pub number: u8,
    ghost in_range: { number ≤ 10 },
}

impl Reg {
    /// The register of this number, or none above 10.
    pub fn new(number: u8) -> Option<Reg>
        ensures found { IsSome result ↔ (number ≤ 10) }
        ensures value { IfSome result (λ reg. reg.number ≡ number) }
    {
        if number <= 10 {
            Some(Reg { number })
        } else {
            None
        }
    }
}

/// The second operand of an instruction (RFC 9669, section 4).
#[derive(Clone, Copy, Debug, PartialEq, Eq)]
pub enum Source {
    /// An immediate, a signed number of 32 bits.
    Imm(i32),
    /// What a register holds.
    Reg(Reg),
}

/// How many bytes a load or a store moves (RFC 9669, section 5).
#[derive(Clone, Copy, Debug, PartialEq, Eq)]
pub enum Size {
    /// One byte.
    B,
    /// Two bytes.
    H,
    /// Four bytes.
    W,
    /// Eight bytes.
    Dw,
}

/// An instruction. Each value that fits its fields has one encoding in slots. Offsets and targets
/// of jumps count slots from the following instruction.
#[derive(Clone, Copy, Debug, PartialEq, Eq)]
pub enum Insn {
    /// Arithmetic on `dst` (RFC 9669, section 4.1). NEG has the immediate 0; moves that extend a
    /// sign have a register, those of 32 bits in class ALU64 alone.
    Alu {
        width: AluWidth,
        op: AluOp,
        dst: Reg,
        src: Source,
    },
    /// Byte swap of `dst` (RFC 9669, section 4.2).
    Swap {
        kind: SwapKind,
        width: Width,
        dst: Reg,
    },
    /// A constant of 64 bits to `dst`; it takes two slots (RFC 9669, section 5.4).
    LoadImm {
        dst: Reg,
        value: u64,
    },
    /// Load from `base + offset` to `dst`, zero-extended, or `signed` and below 8 bytes
    /// sign-extended (RFC 9669, sections 5.1 and 5.2).
    Load {
        size: Size,
        signed: bool,
        dst: Reg,
        base: Reg,
        offset: i16,
    },
    /// Store of an immediate to `base + offset` (RFC 9669, section 5.1).
    StoreImm {
        size: Size,
        base: Reg,
        offset: i16,
        imm: i32,
    },
    /// Store of `src` to `base + offset` (RFC 9669, section 5.1).
    Store {
        size: Size,
        base: Reg,
        offset: i16,
        src: Reg,
    },
    /// Jump by an offset (RFC 9669, section 4.3: JA of class JMP).
    Jump {
        offset: i16,
    },
    /// Jump by an immediate (RFC 9669, section 4.3: JA of class JMP32).
    JumpLong {
        offset: i32,
    },
    /// Jump where a test holds of `dst` and `src`, or, `narrow`, of their low halves (RFC 9669,
    /// section 4.3).
    Test {
        narrow: bool,
        test: Test,
        dst: Reg,
        src: Source,
        offset: i16,
    },
    /// Call of the helper of this number (RFC 9669, section 4.3.1).
    CallHelper {
        helper: i32,
    },
    /// Call of the local function at an offset (RFC 9669, section 4.3.2).
    CallLocal {
        offset: i32,
    },
    /// Return from the function (RFC 9669, section 4.3).
    Exit,
}
