//! Replicas in threads. A station is a replica with its journal under a lock; a host has a station for
//! each replica in a thread of its own, and posts messages between them and to clients.
//!
//!     let host = Host::start(&rt, alloc, &config, signers, 65_536, 1, gate)?;
//!     host.post(&rt, ReplicaId(0), request)?;
//!     let reply = host.receive(&rt, ClientId(100))?;
//!     let journals = host.close(&rt)?;
#![tactic(auto)]

mod board;
mod desk;
mod fault;
mod furnishing;
mod host;
mod keeping;
mod lane_gate;
mod law;
mod links;
mod locked;
mod named;
mod opener;
mod overseer;
mod record;
mod repeats;
mod seat;
mod serving;
mod standing;
mod station;
mod ticker;
mod waiting;

pub use byz_world::{Dest, Halt, Input, Replica, Row, Status, audit};
pub use fault::HostFault;
pub use host::{Closed, Host};
pub use law::a_stations_signer_has_used_its_rows_leaves;
pub use locked::Locked;
pub use named::Named;
pub use seat::Seat;
pub use station::Station;
pub use ticker::Ticker;
