//! An assembler of BPF code (RFC 9669), and the text of instructions: `exit` is the one instruction
//! `Insn::Exit`, and is printed so.
#![tactic(auto)]

mod fault;
mod form;
mod law;
mod line;
mod number;
mod operand;
mod printing;
mod rounds;
mod text;

pub use fault::{AsmFault, AsmKind};
pub use law::printed_code_assembles_to_itself;
pub use printing::print;
pub use rounds::assemble;
