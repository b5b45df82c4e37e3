//! Replicas that run in no thread of their own, measured, and what they record. A part does a little of its work and
//! prints what came of it; for `time` it prints what the work costs, and fails where a limit is passed.
//!
//!     replica::run(&rt, None)?;
//!     replica::run(&rt, Some("time"))?;
#![tactic(auto)]

pub mod records;
pub mod replica;
