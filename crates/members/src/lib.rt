//! Members of a group that are given bytes: a replica, and a client's session. Each opens what it is given under its own
//! configuration, so that whoever moves bytes between members needs nothing else. Beside them a configuration that is written
//! down entry by entry (`Draft`), and votes that come early to a replica, kept for it.
//!
//!     let mut member = Member::new(alloc, &config, ReplicaId(0), signer)?;
//!     member.take(&bytes)?;
//!     for output in member.row().map_or(&[], |row| row.outputs()) { .. }
#![tactic(auto)]

mod client;
mod draft;
mod fault;
mod member;
mod votes;

pub use client::Client;
pub use draft::Draft;
pub use fault::{JoinFault, StepFault};
pub use member::Member;
pub use replica_core::{Dest, Done, Halt, Input, Output, Row};
pub use votes::Votes;
