//! What one does with code alone: to assemble a text, to print code as one, to verify it, with what the verifier
//! knows at each visit, and to run it over a map. Each command reads its input to the end and writes lines.
//!
//!     verify(alloc, CodeForm::Hex, Profile::One, Format::Words, &mut reader, &mut writer)?;
#![tactic(auto)]

mod asm_sentence;
mod call;
mod call_text;
mod commands;
mod decimal;
mod explain;
mod failure;
mod input;
mod json;
mod law;
mod lines;
mod map_text;
mod numbers;
mod object_hints;
mod reason;
mod sentence;
mod shown;

pub use bpf_verifier::Profile;
pub use call::Call;
pub use call_text::{CallFault, CallKind, read_calls};
pub use commands::{Arguments, Execution, asm, disasm, exec, verify, verify_explained};
pub use decimal::{NumberFault, NumberKind, read_numbers};
pub use failure::CodeFailure;
pub use input::{CodeForm, HexSlip};
pub use json::{failure_object, push_json};
pub use law::a_printed_map_is_read_back;
pub use map_text::{Entry, MapFault, MapKind, print_map, read_map};
pub use sentence::sentence_for;
pub use shown::Format;
