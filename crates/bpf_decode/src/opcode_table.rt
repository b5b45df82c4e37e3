//! What each opcode byte stands for (RFC 9669, sections 3.1, 4 and 5), in the order of the bytes.

use crate::insn::Size;
use crate::opcode::{Opcode, Operation, SourceKind};
use bpf_num::{AluWidth, SwapKind, Test};

/// A load of this size.
macro_rules! load {
    ($size:ident, $signed:expr) => {
        Some(Opcode::Load { size: Size::$size, signed: $signed })
    };
}

/// A store of this size.
macro_rules! store {
    ($form:ident, $size:ident) => {
        Some(Opcode::$form { size: Size::$size })
    };
}

/// An operation of a class of arithmetic.
macro_rules! alu {
    ($width:ident, $operation:ident, $source:ident) => {
        Some(Opcode::Alu {
            width: AluWidth::$width,
            operation: Operation::$operation,
            source: SourceKind::$source,
        })
    };
}

/// A byte swap.
macro_rules! swap {
    ($kind:ident) => {
        Some(Opcode::Swap { kind: SwapKind::$kind })
    };
}

/// A test of a class of jumps.
macro_rules! test {
    ($narrow:expr, $test:ident, $source:ident) => {
        Some(Opcode::Test {
            narrow: $narrow,
            test: Test::$test,
            source: SourceKind::$source,
        })
    };
}

/// An opcode that says all of itself.
macro_rules! plain {
    ($opcode:ident) => {
        Some(Opcode::$opcode)
    };
}

/// One table of its rows.
macro_rules! rows {
    ($([$($entry:expr),*]),*) => {
        [$($($entry),*),*]
    };
}

/// What a byte stands for. A row has the bytes of the same upper five bits, an entry for each class, which the
/// low three bits name: LD, LDX, ST, STX, ALU, JMP, JMP32 and ALU64. The upper five bits are the operation and
/// the source bit of arithmetic and jumps, and the mode and the size of loads and stores.
pub static OPCODES: [Option<Opcode>; 256] = rows!(
    // 0x00 to 0x07
    [None, None, None, None, alu!(W32, Add, K), plain!(Jump), plain!(JumpLong), alu!(W64, Add, K)],
    // 0x08 to 0x0f
    [None, None, None, None, alu!(W32, Add, X), None, None, alu!(W64, Add, X)],
    // 0x10 to 0x17
    [None, None, None, None, alu!(W32, Sub, K), test!(false, Jeq, K), test!(true, Jeq, K), alu!(W64, Sub, K)],
    // 0x18 to 0x1f
    [plain!(LoadImm), None, None, None, alu!(W32, Sub, X), test!(false, Jeq, X), test!(true, Jeq, X), alu!(W64, Sub, X)],
    // 0x20 to 0x27
    [None, None, None, None, alu!(W32, Mul, K), test!(false, Jgt, K), test!(true, Jgt, K), alu!(W64, Mul, K)],
    // 0x28 to 0x2f
    [None, None, None, None, alu!(W32, Mul, X), test!(false, Jgt, X), test!(true, Jgt, X), alu!(W64, Mul, X)],
    // 0x30 to 0x37
    [None, None, None, None, alu!(W32, Div, K), test!(false, Jge, K), test!(true, Jge, K), alu!(W64, Div, K)],
    // 0x38 to 0x3f
    [None, None, None, None, alu!(W32, Div, X), test!(false, Jge, X), test!(true, Jge, X), alu!(W64, Div, X)],
    // 0x40 to 0x47
    [None, None, None, None, alu!(W32, Or, K), test!(false, Jset, K), test!(true, Jset, K), alu!(W64, Or, K)],
    // 0x48 to 0x4f
    [None, None, None, None, alu!(W32, Or, X), test!(false, Jset, X), test!(true, Jset, X), alu!(W64, Or, X)],
    // 0x50 to 0x57
    [None, None, None, None, alu!(W32, And, K), test!(false, Jne, K), test!(true, Jne, K), alu!(W64, And, K)],
    // 0x58 to 0x5f
    [None, None, None, None, alu!(W32, And, X), test!(false, Jne, X), test!(true, Jne, X), alu!(W64, And, X)],
    // 0x60 to 0x67
    [None, load!(W, false), store!(StoreImm, W), store!(Store, W), alu!(W32, Lsh, K), test!(false, Jsgt, K), test!(true, Jsgt, K), alu!(W64, Lsh, K)],
    // 0x68 to 0x6f
    [None, load!(H, false), store!(StoreImm, H), store!(Store, H), alu!(W32, Lsh, X), test!(false, Jsgt, X), test!(true, Jsgt, X), alu!(W64, Lsh, X)],
    // 0x70 to 0x77
    [None, load!(B, false), store!(StoreImm, B), store!(Store, B), alu!(W32, Rsh, K), test!(false, Jsge, K), test!(true, Jsge, K), alu!(W64, Rsh, K)],
    // 0x78 to 0x7f
    [None, load!(Dw, false), store!(StoreImm, Dw), store!(Store, Dw), alu!(W32, Rsh, X), test!(false, Jsge, X), test!(true, Jsge, X), alu!(W64, Rsh, X)],
    // 0x80 to 0x87
    [None, load!(W, true), None, None, alu!(W32, Neg, K), plain!(Call), None, alu!(W64, Neg, K)],
    // 0x88 to 0x8f
    [None, load!(H, true), None, None, None, None, None, None],
    // 0x90 to 0x97
    [None, load!(B, true), None, None, alu!(W32, Mod, K), plain!(Exit), None, alu!(W64, Mod, K)],
    // 0x98 to 0x9f
    [None, None, None, None, alu!(W32, Mod, X), None, None, alu!(W64, Mod, X)],
    // 0xa0 to 0xa7
    [None, None, None, None, alu!(W32, Xor, K), test!(false, Jlt, K), test!(true, Jlt, K), alu!(W64, Xor, K)],
    // 0xa8 to 0xaf
    [None, None, None, None, alu!(W32, Xor, X), test!(false, Jlt, X), test!(true, Jlt, X), alu!(W64, Xor, X)],
    // 0xb0 to 0xb7
    [None, None, None, None, alu!(W32, Mov, K), test!(false, Jle, K), test!(true, Jle, K), alu!(W64, Mov, K)],
    // 0xb8 to 0xbf
    [None, None, None, None, alu!(W32, Mov, X), test!(false, Jle, X), test!(true, Jle, X), alu!(W64, Mov, X)],
    // 0xc0 to 0xc7
    [None, None, None, None, alu!(W32, Arsh, K), test!(false, Jslt, K), test!(true, Jslt, K), alu!(W64, Arsh, K)],
    // 0xc8 to 0xcf
    [None, None, None, None, alu!(W32, Arsh, X), test!(false, Jslt, X), test!(true, Jslt, X), alu!(W64, Arsh, X)],
    // 0xd0 to 0xd7
    [None, None, None, None, swap!(Le), test!(false, Jsle, K), test!(true, Jsle, K), swap!(Swap)],
    // 0xd8 to 0xdf
    [None, None, None, None, swap!(Be), test!(false, Jsle, X), test!(true, Jsle, X), None],
    // 0xe0 to 0xe7
    [None, None, None, None, None, None, None, None],
    // 0xe8 to 0xef
    [None, None, None, None, None, None, None, None],
    // 0xf0 to 0xf7
    [None, None, None, None, None, None, None, None],
    // 0xf8 to 0xff
    [None, None, None, None, None, None, None, None]
);
