//! BPF instructions and their encoding in slots of 8 bytes (RFC 9669, section 3), read and written
//! exactly: the bytes `95 00 00 00 00 00 00 00` are `Insn::Exit`, and no others are.
#![tactic(auto)]

mod code;
mod insn;
mod law;
mod opcode;
mod opcode_table;
mod refusal;
mod sink;
mod slot;

pub use code::{MAX_SLOTS, SLOT_SIZE, decode_all, encode_all, read_into};
pub use insn::{Insn, Reg, Size, Source};
pub use law::{bytes_are_decided, code_is_one};
pub use opcode::{Opcode, Operation, SourceKind};
pub use refusal::{DecodeFault, Refusal};
pub use sink::Sink;
pub use slot::Slot;
