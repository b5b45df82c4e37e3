//! View changes (Castro and Liskov 1999, section 4.4): which ViewChanges and NewViews are valid, the
//! ViewChange that a replica makes when it leaves a view, and what the primary of the next view opens
//! it with.
//!
//!     valid(&config, &view_change)?;
//!     let opening = new_view(alloc, View(1), &view_changes)?;
#![tactic(auto)]

mod certificates;
mod fault;
mod given;
mod laws;
mod making;
mod nested;
mod new_views;
mod opening;
mod report;
mod validity;
mod view_changes;

pub use fault::ViewFault;
pub use given::{floor_of, null_digest};
pub use laws::{
    authentic_signatures_are_short, bodies_can_be_sealed, certificates_of_a_log_fit,
    proofs_of_stable_numbers_fit,
};
pub use making::{make, make_new_view};
pub use opening::{Opening, new_view};
pub use quorum_log::{CheckedCertificate, LogFault, QuorumLog};
pub use validity::{valid, valid_new_view};
