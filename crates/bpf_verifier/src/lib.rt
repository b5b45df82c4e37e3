//! The verifier: which BPF code is accepted, with which bound on its steps, and what holds of all that
//! is accepted: `verify(alloc, &code)?.bound()` is the most steps that a call of it takes.
#![tactic(auto)]

mod abstract_state;
mod checks;
mod dataflow;
mod effects;
mod flat;
mod frame_bytes;
mod law;
mod observer;
mod procedure;
mod reading;
mod registers;
mod slots;
mod stack_words;
mod structure;

pub use abstract_state::AbstractState;
pub use bpf_model::{Profile, Refusal, VerifyFault};
pub use flat::FlatInsn;
pub use law::verified_code_cannot_go_wrong;
pub use observer::{Observer, Unobserved};
pub use procedure::{Procedure, UNFOLLOWED, verify, verify_observed, verify2};
pub use slots::Slots;
