//! Votes that come early. A replica drops a vote for a number above its high water mark, and the protocol doesn't send it
//! again: a message that overtakes the Checkpoints by which that mark rises would be lost. What drives a replica keeps such votes,
//! and hands them in once the mark has risen. To the replica they are messages that came later.
//!
//!     if held.is_early(&message) {
//!         held.keep(message)?;
//!     } else {
//!         step(&message);
//!         held.move_to(status.low, status.view);
//!         while let Some(vote) = held.next() {
//!             step(&vote);
//!             ..
//!         }
//!     }
#![tactic(auto)]

mod held;

pub use held::Held;
