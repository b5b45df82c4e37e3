//! Whether the records of correct replicas are drained: each message that one of them gave came to each other one that it is for. The
//! laws of progress speak of such journals.
//!
//!     match first_missing(&records) {
//!         None => println!(rt; "each message came")?,
//!         Some(m) => println!(rt; "output {} of row {} of replica {} has not come to replica {}", m.output, m.row, m.from.0, m.to.0)?,
//!     }
#![tactic(auto)]

mod law;
mod missing;
mod receipt;

pub use byz_world::{
    AuditFault, Dest, Done, Event, Halt, History, Input, Outcome, Output, Replica, Report, Row,
    State, StateFault, Status, World, WorldFault, audit, run_world,
};
pub use law::drained_families_miss_nothing;
pub use missing::{Missing, first_missing};
