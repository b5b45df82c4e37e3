//! Tests of worlds of replicas, of the audit of what they did, of what is told of them, and of scripts whose reader or writer
//! fails or that name files, by public calls alone. They stand apart, so that the crates below are proved once and not again beside their tests.
//! And contracts of those crates that no other proof uses (`held`).
#![tactic(auto)]

#[cfg(test)]
mod audits;
#[cfg(test)]
mod files;
#[cfg(test)]
mod group;
mod held;
#[cfg(test)]
mod lines;
#[cfg(test)]
mod reads;
#[cfg(test)]
mod rows;
#[cfg(test)]
mod runs;
#[cfg(test)]
mod scripts;

pub use held::{files_in, script_with};
