//! What runs procedures, measured: the interpreter and the verifier, the service, and lanes by tenant. A part does a
//! little of its work and prints what came of it; with a word, as `time`, it prints what the work costs, and fails where
//! a limit is passed.
//!
//!     machine::run(&rt, None)?;
//!     machine::run(&rt, Some("time"))?;
#![tactic(auto)]

pub mod lanes;
pub mod machine;
pub mod service;
