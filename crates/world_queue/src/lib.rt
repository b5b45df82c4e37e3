//! Messages on their way between the replicas and the clients of a script: the queue, which of its letters a step means, what
//! becomes of each delivery, how steps change them, and who makes them, clients by their sessions and faulty replicas by their signers.
//!
//!     queue.send(&letter, &everyone)?;
//!     let (fate, state) = draw(&order, done, state, queue.count_meant(&filter), replicas);
//!     if let Fate::Handed(passed) = fate {
//!         hand_over(queue.take_meant(&filter, passed))?;
//!     }
#![tactic(auto)]

mod edits;
mod fates;
mod forging;
mod lines;
mod listing;
mod named;
mod queue;
mod sessions;

pub use edits::{changed, find_named};
pub use fates::{Fate, draw, seed_of};
pub use forging::{Forger, checkpoint_body, forge, view_change_body, vote_body};
pub use lines::{line_of_nothing_queued, line_of_refusal, line_of_reply};
pub use named::Named;
pub use queue::{Letter, Queue, letter_of};
pub use sessions::{Sessions, open_sessions};
