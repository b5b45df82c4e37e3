//! A client's session with the replicated service (Castro and Liskov 1999, section 4.1): it makes signed
//! requests, one at a time, and accepts a result that f + 1 different replicas reply with.
//!
//!     let request = session.request(op)?;
//!     session.offer(&reply)?;
//!     if let Some(reply) = session.accepted() {
//!         use_result(&reply.result)?;
//!     }
#![tactic(auto)]

mod answer;
mod fault;
mod laws;
mod session;

pub use fault::SessionFault;
pub use laws::{
    accepted_replies_are_answers, answered_requests_are_the_clients, numbers_rise_with_times,
};
pub use session::Session;
