//! What is sent, measured: signatures, and messages. A part does a little of its work and prints what came of it; for
//! `time` it prints what the work costs, and fails where a limit is passed.
//!
//!     lms::run(&rt, None)?;
//!     lms::run(&rt, Some("time"))?;
#![tactic(auto)]

pub mod lms;
pub mod messages;
