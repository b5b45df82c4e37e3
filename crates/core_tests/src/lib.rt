//! Tests of one replica by its public calls alone: what it answers to each message, row by row. What four
//! replicas do beside one another, the scripts of `crates/bpf_host/data/` show.
#![tactic(auto)]

#[cfg(test)]
mod batches;
#[cfg(test)]
mod halts;
#[cfg(test)]
mod messages;
#[cfg(test)]
mod node;
#[cfg(test)]
mod normal;
#[cfg(test)]
mod order;
#[cfg(test)]
mod scene;
#[cfg(test)]
mod script;
#[cfg(test)]
mod signing;
#[cfg(test)]
mod states;
#[cfg(test)]
mod views;
#[cfg(test)]
mod words;
