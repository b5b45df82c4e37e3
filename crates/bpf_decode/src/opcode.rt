//! Opcode bytes, and what they stand for.

ghost use Rattle.std.specs.Prelude.{◌≡◌, ◌<◌, ◌==◌, ℤ, true, false, pos, Some, IfSome};
ghost use Rattle.bpf_decode.specs.Opcodes.{opcode_byte, opcode_of, source_bit, operation_bits, test_bits, size_bits, variant_of, has_form, uses_offset, has_operand, operation_of, offset_of, swap_width};
ghost use Rattle.bpf_num.specs.declared.AluWidth.{AluWidth};
ghost use Rattle.bpf_num.specs.ByteSwap.{swap_bits};
ghost use Rattle.bpf_decode.specs.declared.opcode.Opcode.TheVariants.{Alu};
ghost use Rattle.bpf_decode.specs.declared.opcode.Operation.TheVariants.{Neg, Mov};
ghost use Rattle.bpf_decode.specs.declared.opcode.SourceKind.{SourceKind};
ghost use Rattle.bpf_decode.specs.declared.opcode.SourceKind.TheVariants.{K};
ghost use Rattle.bpf_decode.specs.Parts.{IsOpcode};

use crate::insn::Size;
use crate::opcode_table::OPCODES;
use bpf_num::{AluOp, AluWidth, SwapKind, Test, Width};

/// Where an instruction's second operand comes from: the opcode's source bit (RFC 9669, section 4).
#[derive(Clone, Copy, Debug, PartialEq, Eq)]
pub enum SourceKind {
    /// The slot's immediate.
    K,
    /// A register.
    X,
}

/// The operation that an arithmetic opcode names (RFC 9669, section 4.1); offsets tell its variants
/// apart.
#[derive(Clone, Copy, Debug, PartialEq, Eq)]
pub enum Operation {
    Add,
    Sub,
    Mul,
    /// DIV and SDIV.
    Div,
    Or,
    And,
    Lsh,
    Rsh,
    Neg,
    /// MOD and SMOD.
    Mod,
    Xor,
    /// MOV and MOVSX.
    Mov,
    Arsh,
}

/// What an opcode byte stands for (RFC 9669, sections 3.1, 4 and 5).
#[derive(Clone, Copy, Debug, PartialEq, Eq)]
pub enum Opcode {
    Alu {
        width: AluWidth,
        operation: Operation,
        source: SourceKind,
    },
    Swap {
        kind: SwapKind,
    },
    LoadImm,
    Load {
        size: Size,
        signed: bool,
    },
    StoreImm {
        size: Size,
    },
    Store {
        size: Size,
    },
    Jump,
    JumpLong,
    Test {
        narrow: bool,
        test: Test,
        source: SourceKind,
    },
    Call,
    Exit,
}

impl Opcode {
    /// What this byte stands for, or none where it is no opcode.
    pub fn of(byte: u8) -> Option<Opcode>
        ensures found { result ≡ opcode_of byte }
        ensures encoded { IfSome result (λ opcode. (opcode_byte opcode ≡ byte) × IsOpcode opcode) }
    {
        OPCODES[byte as usize]
    }

    /// The byte that stands for it.
    pub fn byte(self) -> u8
        ensures { result ≡ opcode_byte self }
    {
        match self {
            Opcode::Alu {
                width,
                operation,
                source,
            } => {
                let class = match width {
                    AluWidth::W32 => 0x4,
                    AluWidth::W64 => 0x7,
                };
                16 * operation_bits(operation) + 8 * source_bit(source) + class
            }
            Opcode::Swap { kind } => match kind {
                SwapKind::Le => 0xd4,
                SwapKind::Be => 0xdc,
                SwapKind::Swap => 0xd7,
            },
            Opcode::LoadImm => 0x18,
            Opcode::Load { size, signed } => {
                let mode = if signed { 0x80 } else { 0x60 };
                mode + 8 * size_bits(size) + 0x1
            }
            Opcode::StoreImm { size } => 0x60 + 8 * size_bits(size) + 0x2,
            Opcode::Store { size } => 0x60 + 8 * size_bits(size) + 0x3,
            Opcode::Jump => 0x05,
            Opcode::JumpLong => 0x06,
            Opcode::Test {
                narrow,
                test,
                source,
            } => {
                let class = if narrow { 0x6 } else { 0x5 };
                16 * test_bits(test) + 8 * source_bit(source) + class
            }
            Opcode::Call => 0x85,
            Opcode::Exit => 0x95,
        }
    }
}

/// The variant of an operation that has this offset and form, if one does.
pub fn variant(
    width: AluWidth,
    operation: Operation,
    source: SourceKind,
    offset: i16,
) -> Option<AluOp>
    ensures found { result ≡ variant_of width operation source offset }
    ensures form { IfSome result (λ op.
        (operation_of op ≡ operation) × (has_form width op source ≡ true)) }
    ensures offset { IfSome result (λ op. uses_offset operation ≡ true → offset_of op ≡ offset) }
    ensures no_offset { IfSome result (λ op. uses_offset operation ≡ false → offset_of op ≡ pos 0) }
{
    if operation == Operation::Neg && source == SourceKind::X {
        return None;
    }
    if offset == 0 || !operation.uses_offset() {
        return Some(first_variant(operation));
    }
    match operation {
        Operation::Div if offset == 1 => Some(AluOp::Sdiv),
        Operation::Mod if offset == 1 => Some(AluOp::Smod),
        Operation::Mov => move_variant(width, source, offset),
        _ => None,
    }
}

/// The variant of an operation that has the offset 0, or of one whose offset has no use the only one.
fn first_variant(operation: Operation) -> AluOp
    ensures found { (width : AluWidth) (source : SourceKind) (offset : ℤ) →
        (operation ≡ Neg → source ≡ K) → (uses_offset operation ≡ true → offset ≡ pos 0) →
        variant_of width operation source offset ≡ Some result }
    ensures operation { operation_of result ≡ operation }
    ensures offset { offset_of result ≡ pos 0 }
{
    match operation {
        Operation::Add => AluOp::Add,
        Operation::Sub => AluOp::Sub,
        Operation::Mul => AluOp::Mul,
        Operation::Div => AluOp::Div,
        Operation::Or => AluOp::Or,
        Operation::And => AluOp::And,
        Operation::Lsh => AluOp::Lsh,
        Operation::Rsh => AluOp::Rsh,
        Operation::Neg => AluOp::Neg,
        Operation::Mod => AluOp::Mod,
        Operation::Xor => AluOp::Xor,
        Operation::Mov => AluOp::Mov,
        Operation::Arsh => AluOp::Arsh,
    }
}

/// The move that has this offset: moves that extend a sign have a register, those of 32 bits in
/// class ALU64 alone.
fn move_variant(width: AluWidth, source: SourceKind, offset: i16) -> Option<AluOp>
    ensures found { result ≡ variant_of width Mov source offset }
    ensures form { IfSome result (λ op.
        (operation_of op ≡ Mov) × (has_form width op source ≡ true)) }
    ensures offset { IfSome result (λ op. offset_of op ≡ offset) }
{
    match (offset, source) {
        (0, _) => Some(AluOp::Mov),
        (8, SourceKind::X) => Some(AluOp::Movsx8),
        (16, SourceKind::X) => Some(AluOp::Movsx16),
        (32, SourceKind::X) => match width {
            AluWidth::W32 => None,
            AluWidth::W64 => Some(AluOp::Movsx32),
        },
        _ => None,
    }
}

/// The width of a byte swap that the immediate names, if it names one.
pub fn swap_width(imm: i32) -> Option<Width>
    ensures { result ≡ swap_width imm }
{
    match imm {
        16 => Some(Width::W16),
        32 => Some(Width::W32),
        64 => Some(Width::W64),
        _ => None,
    }
}

/// The immediate of a byte swap of this width.
pub fn swap_immediate(width: Width) -> i32
    ensures { result ≡ pos (swap_bits width) }
{
    match width {
        Width::W16 => 16,
        Width::W32 => 32,
        Width::W64 => 64,
    }
}

/// The offset of an instruction of this operation.
pub fn offset_of(op: AluOp) -> i16
    ensures { result ≡ offset_of op }
{
    match op {
        AluOp::Sdiv | AluOp::Smod => 1,
        AluOp::Movsx8 => 8,
        AluOp::Movsx16 => 16,
        AluOp::Movsx32 => 32,
        _ => 0,
    }
}

impl Operation {
    /// The operation that the opcode of an instruction names.
    pub fn of(op: AluOp) -> Operation
        ensures { result ≡ operation_of op }
    {
        match op {
            AluOp::Add => Operation::Add,
            AluOp::Sub => Operation::Sub,
            AluOp::Mul => Operation::Mul,
            AluOp::Div | AluOp::Sdiv => Operation::Div,
            AluOp::Or => Operation::Or,
            AluOp::And => Operation::And,
            AluOp::Lsh => Operation::Lsh,
            AluOp::Rsh => Operation::Rsh,
            AluOp::Neg => Operation::Neg,
            AluOp::Mod | AluOp::Smod => Operation::Mod,
            AluOp::Xor => Operation::Xor,
            AluOp::Mov | AluOp::Movsx8 | AluOp::Movsx16 | AluOp::Movsx32 => Operation::Mov,
            AluOp::Arsh => Operation::Arsh,
        }
    }

    /// Whether offsets tell variants of the operation apart.
    pub fn uses_offset(self) -> bool
        ensures { result ≡ uses_offset self }
    {
        matches!(self, Operation::Div | Operation::Mod | Operation::Mov)
    }

    /// Whether the operation has a second operand.
    pub fn has_operand(self) -> bool
        ensures { result ≡ has_operand self }
    {
        self != Operation::Neg
    }
}

fn size_bits(size: Size) -> u8
    ensures { result ≡ size_bits size }
{
    match size {
        Size::W => 0,
        Size::H => 1,
        Size::B => 2,
        Size::Dw => 3,
    }
}

fn source_bit(source: SourceKind) -> u8
    ensures { result ≡ source_bit source }
{
    match source {
        SourceKind::K => 0,
        SourceKind::X => 1,
    }
}

fn operation_bits(operation: Operation) -> u8
    ensures { result ≡ operation_bits operation }
{
    match operation {
        Operation::Add => 0x0,
        Operation::Sub => 0x1,
        Operation::Mul => 0x2,
        Operation::Div => 0x3,
        Operation::Or => 0x4,
        Operation::And => 0x5,
        Operation::Lsh => 0x6,
        Operation::Rsh => 0x7,
        Operation::Neg => 0x8,
        Operation::Mod => 0x9,
        Operation::Xor => 0xa,
        Operation::Mov => 0xb,
        Operation::Arsh => 0xc,
    }
}

fn test_bits(test: Test) -> u8
    ensures { result ≡ test_bits test }
{
    match test {
        Test::Jeq => 0x1,
        Test::Jgt => 0x2,
        Test::Jge => 0x3,
        Test::Jset => 0x4,
        Test::Jne => 0x5,
        Test::Jsgt => 0x6,
        Test::Jsge => 0x7,
        Test::Jlt => 0xa,
        Test::Jle => 0xb,
        Test::Jslt => 0xc,
        Test::Jsle => 0xd,
    }
}
