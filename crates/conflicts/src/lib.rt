//! Who can be blamed. A correct replica says at most one thing of a digest at each place: one vote of a kind for a
//! number of a view, one Checkpoint of a number; it sends one ViewChange and one NewView of a view, and hides no Commit in the one
//! (Castro and Liskov 1999, sections 4.2 and 4.4); and a leaf of a key signs one message (RFC 8554, section 9.2). Two messages that
//! say otherwise were signed by a faulty replica, and its signatures prove it to everybody.
//!
//!     for (first, second) in &conflicts(alloc, &messages)? {
//!         show(&messages[*first], &messages[*second])?;
//!     }
#![tactic(auto)]

mod blame;
mod claim;
mod leaf;
mod pairs;
mod views;

pub use blame::Blame;
pub use claim::{Claim, Topic, claim_of};
pub use leaf::leaf_claim_of;
pub use pairs::conflicts;
pub use views::{Leaving, Reported, view_claim_of};
