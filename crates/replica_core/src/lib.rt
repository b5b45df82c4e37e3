//! One replica (Castro and Liskov 1999, section 4), as a value: it takes opened messages and timeouts,
//! and answers what it does for each as a row. It reads no clock, and has no thread and no socket.
//!
//!     let mut replica = Replica::new(alloc, &config, id, signer)?;
//!     let row = replica.take(&message)?;
//!     let late = replica.timeout()?;
#![tactic(auto)]

mod acts;
mod batch;
mod duties;
mod executing;
mod halt;
mod inputs;
mod kept;
mod laws;
mod noting;
mod recording;
mod replica;
mod row;
mod sending;
mod settling;
mod step;
mod views;

pub use halt::Halt;
pub use laws::checkpoints_give_valid_proofs;
pub use replica::{Replica, Status, rows_are_lawful};
pub use row::{Dest, Done, Input, Output, Row};
pub use tenant_lanes::{State, StateFault};
