//! The arithmetic of BPF registers (RFC 9669, sections 4.1 to 4.3), as plain functions on 64-bit numbers:
//! `alu64(AluOp::Add, 2, 3)` is 5, and `alu32(AluOp::Add, 0xffff_ffff, 1)` is 0.
#![tactic(auto)]

mod jump;
mod narrow;
mod swap;
mod wide;

ghost use Rattle.std.specs.Prelude.{◌≡◌};
ghost use Rattle.bpf_num.specs.Arithmetic.{alu64_of, alu32_of, alu_of, reads_destination};

pub use jump::{Test, jump_test};
pub use swap::{SwapKind, Width, byte_swap};

/// An arithmetic operation of the classes ALU and ALU64 (RFC 9669, section 4.1).
#[derive(Clone, Copy, Debug, PartialEq, Eq)]
pub enum AluOp {
    /// `dst += src`, modulo the width.
    Add,
    /// `dst -= src`, modulo the width.
    Sub,
    /// `dst *= src`, modulo the width.
    Mul,
    /// `dst /= src`, or 0 where src is 0.
    Div,
    /// `dst /= src` of signed numbers, or 0 where src is 0.
    Sdiv,
    /// `dst |= src`.
    Or,
    /// `dst &= src`.
    And,
    /// `dst <<= src`, the count masked.
    Lsh,
    /// `dst >>= src`, the count masked.
    Rsh,
    /// `dst = -dst`.
    Neg,
    /// `dst %= src`, or dst where src is 0.
    Mod,
    /// `dst %= src` of signed numbers, or dst where src is 0.
    Smod,
    /// `dst ^= src`.
    Xor,
    /// `dst = src`.
    Mov,
    /// `dst = src`, its low 8 bits sign-extended.
    Movsx8,
    /// `dst = src`, its low 16 bits sign-extended.
    Movsx16,
    /// `dst = src`, its low 32 bits sign-extended.
    Movsx32,
    /// `dst >>= src` of a signed number, the count masked.
    Arsh,
}

impl AluOp {
    /// Whether the result depends on the destination's value.
    pub fn reads_destination(self) -> bool
        ensures { result ≡ reads_destination self }
    {
        match self {
            AluOp::Mov | AluOp::Movsx8 | AluOp::Movsx16 | AluOp::Movsx32 => false,
            _ => true,
        }
    }
}

/// The width of an arithmetic instruction: its class, ALU or ALU64 (RFC 9669, section 3.1).
#[derive(Clone, Copy, Debug, PartialEq, Eq)]
pub enum AluWidth {
    /// Class ALU: the low halves of the operands; the upper half of the result is zero.
    W32,
    /// Class ALU64: whole registers.
    W64,
}

/// The register after an instruction of class ALU64.
pub fn alu64(op: AluOp, dst: u64, src: u64) -> u64
    ensures { result ≡ alu64_of op dst src }
{
    wide::result(op, dst, src)
}

/// The register after an instruction of class ALU: it works on low halves, and the upper half of
/// the result is zero.
pub fn alu32(op: AluOp, dst: u64, src: u64) -> u64
    ensures { result ≡ alu32_of op dst src }
{
    let a = (dst & 0xffff_ffff) as u32;
    let b = (src & 0xffff_ffff) as u32;
    u64::from(narrow::result(op, a, b))
}

/// The register after an arithmetic instruction of this width.
pub fn alu(width: AluWidth, op: AluOp, dst: u64, src: u64) -> u64
    ensures { result ≡ alu_of width op dst src }
{
    match width {
        AluWidth::W32 => alu32(op, dst, src),
        AluWidth::W64 => alu64(op, dst, src),
    }
}
