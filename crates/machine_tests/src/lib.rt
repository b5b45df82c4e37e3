//! Tests of maps and of code that no run of the program shows: `crates/bpf_host/data/` has the rows that it
//! runs. They stand apart, so that the crates below are proved once and not again beside their tests. And contracts of those
//! crates that no other proof uses (`held`).
#![tactic(auto)]

#[cfg(test)]
mod code;
#[cfg(test)]
mod commands;
mod held;
#[cfg(test)]
mod inputs;
#[cfg(test)]
mod maps;
#[cfg(test)]
mod texts;

pub use held::{bytes_in, calls_in, map_in};
