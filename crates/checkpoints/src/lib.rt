//! What a replica keeps of checkpoints (Castro and Liskov 1999, section 4.3): the `Checkpoint` messages of
//! replicas by number, which numbers are stable, and snapshots of states.
//!
//!     checkpoints.note(&message)?;
//!     if let Some(number) = checkpoints.stable_above(executed) {
//!         let digest = checkpoints.stable(number);
//!     }
#![tactic(auto)]

mod by_number;
mod fault;
mod snapshot;
mod table;

pub use fault::CheckpointFault;
pub use table::Checkpoints;
