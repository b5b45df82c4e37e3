//! What a replica records of votes (Castro and Liskov 1999, section 4.2), as tables: of each replica the
//! first message counts, and how many replicas voted for a digest is the number of bits of a mask.
//!
//!     let mut log = QuorumLog::new(alloc, &config)?;
//!     log.accept(&message)?;
//!     let committed = log.committed(View(0), SeqNo(1));
#![tactic(auto)]

mod certificate;
mod fault;
mod log;
mod slot;
mod view_slots;
mod window;

pub use ballots::{Votes, digest_named};
pub use certificate::CheckedCertificate;
pub use fault::LogFault;
pub use log::QuorumLog;
