//! What who drives a replica keeps beside it. Messages between machines are lost, and processes end: so a driver sends a replica's
//! own messages again, the same bytes, as long as no later one stands for them (`Repeats`). And who reads what replicas have said
//! looks for one that contradicts itself (`Audit`), or whose deeds differ from the others' (`Ledger`).
//!
//!     repeats.note(&output.message)?;
//!     repeats.move_to(status.low, status.executed, status.view);
//!     while let Some(message) = repeats.get(index) { .. }
#![tactic(auto)]

mod audit;
mod ledger;
mod repeats;

pub use audit::Audit;
pub use ledger::{Deed, Ledger, Remark};
pub use repeats::{Repeats, Subject};
