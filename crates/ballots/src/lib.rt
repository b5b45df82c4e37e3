//! The votes of replicas on one question (Castro and Liskov 1999, section 4.2), such as which digest a number has: of
//! each replica the first message counts, and how many replicas voted for a digest is the number of bits of a mask.
//!
//!     let is_first = votes.insert(&message)?;
//!     let is_certified = votes.has_backups(&config, View(0), &digest);
#![tactic(auto)]

mod votes;

pub use votes::{Votes, digest_named};
