//! A replica with its journal: the rows that it gave since it began, up to a limit. Each step appends the
//! one row of the replica's step, or halts.
//!
//!     let mut journal = Journal::new(alloc, &config, ReplicaId(0), signer, 65_536)?;
//!     let row = journal.take_lanes(&rt, &message, 2, &gate)?;
#![tactic(auto)]

mod journal;
mod keeper;
mod law;
mod unkept;

pub use journal::Journal;
pub use keeper::Keeper;
pub use law::a_core_is_the_journals_replay;
pub use replica_core::{Dest, Done, Halt, Input, Output, Replica, Row, State, StateFault, Status};
pub use unkept::Unkept;
