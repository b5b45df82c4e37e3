//! The names of things that the whole host speaks of: who sends, who owns, which procedure, which
//! view, which sequence number; who takes part; what is asked and answered.
//!
//!     let config = Config::new(1, 8, keys, clients)?;
//!     let primary = config.primary(View(0));
#![tactic(auto)]

mod ascending;
mod bytes;
mod config;
mod gate;
mod key;
pub mod limits;
pub mod operation;
mod replica_set;
mod request;

pub use bytes::Bytes;
pub use config::{ClientEntry, Config, ConfigFault};
pub use gate::Gate;
pub use key::PublicKey;
pub use replica_set::ReplicaSet;
pub use request::{Reply, Request};

/// A replica, by its index in the list of replicas, from 0.
#[derive(Clone, Copy, Debug, PartialEq, Eq, PartialOrd, Ord, Hash)]
pub struct ReplicaId(pub u8);

/// A client that may ask for operations.
#[derive(Clone, Copy, Debug, Default, PartialEq, Eq, PartialOrd, Ord, Hash)]
pub struct ClientId(pub u32);

/// A tenant: the owner of one map and of the procedures that change it.
#[derive(Clone, Copy, Debug, Default, PartialEq, Eq, PartialOrd, Ord, Hash)]
pub struct TenantId(pub u32);

/// An installed procedure of a tenant, numbered from 0 in the order of installation.
#[derive(Clone, Copy, Debug, PartialEq, Eq, PartialOrd, Ord, Hash)]
pub struct ProcId(pub u32);

/// A view: a period with one primary (Castro and Liskov 1999, section 4).
#[derive(Clone, Copy, Debug, PartialEq, Eq, PartialOrd, Ord, Hash)]
pub struct View(pub u32);

/// A sequence number: the position of a request in the one order, from 1; 0 is before the first.
#[derive(Clone, Copy, Debug, PartialEq, Eq, PartialOrd, Ord, Hash)]
pub struct SeqNo(pub u64);

/// A SHA-256 digest (FIPS 180-4).
#[derive(Clone, Copy, Debug, PartialEq, Eq, PartialOrd, Ord, Hash)]
pub struct Digest(pub [u8; 32]);
