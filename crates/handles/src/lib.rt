//! Handles: what C keeps for the library of replicas. A handle is a pointer and a flag; a call takes out the value behind it, works on it
//! and puts it back.
#![tactic(auto)]

mod handle;
mod held;
mod slot;

pub use driver_notes::{Audit, Deed, Ledger, Remark, Repeats};
pub use handle::Handle;
pub use handle_parts::{BUFFER_TOO_SHORT, DONE, put_front, tell};
pub use held::Held;
pub use members::{
    Client, Dest, Done, Draft, Halt, Input, JoinFault, Member, Output, Row, StepFault, Votes,
};
pub use slot::Slot;
