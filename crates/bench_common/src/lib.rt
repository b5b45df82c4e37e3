//! What measurements share: members and their messages, operations, states of the service, times, and what a time may be
//! of another.
//!
//!     let comparison = Comparison { work: "puts", taken, other: "copies", floor, limit: Limit::Thousandths(1500) };
//!     require_within_limits(comparison.print(&rt)?)?;
#![tactic(auto)]

pub mod case;
mod measures;
pub mod members;
mod no_gate;
pub mod operations;
pub mod peak;
mod processor_time;
pub mod ratio;
pub mod signing;
pub mod states;

pub use measures::Measures;
pub use no_gate::NoGate;
pub use processor_time::ProcessorTime;
