//! What a replica keeps beside its log, its Checkpoints and its service (Castro and Liskov 1999, section 4): the requests
//! that it holds, the ViewChanges of others, the certificates of views that it has left, what it sent in its view and
//! asked for, and what it owes for its last execution.
//!
//! Each says what it keeps as the protocol's core has it, and changes nothing where memory runs out.
//!
//!     let mut sent = Sent::new(alloc);
//!     sent.prepare(number)?;
//!     sent.has_prepared(number)
#![tactic(auto)]

mod certificates;
mod changes;
mod owed;
mod requests;
mod sent;

pub use certificates::Certificates;
pub use changes::Changes;
pub use owed::Owed;
pub use requests::Requests;
pub use sent::{Proposal, Sent};
pub use view_change::{
    LogFault, QuorumLog, floor_of, make, make_new_view, new_view, valid, valid_new_view,
};
