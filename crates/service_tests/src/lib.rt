//! Tests of the service and of its lanes, over their public calls: what clients get, states as bytes, and lanes against
//! a state that takes the same requests one after another, with gates that watch the lanes or hold one. They stand
//! apart, so that these crates are proved once and not again beside their tests.
#![tactic(auto)]

#[cfg(test)]
mod answers;
#[cfg(test)]
mod asked;
#[cfg(test)]
mod changes;
#[cfg(test)]
mod gates;
#[cfg(test)]
mod generated;
#[cfg(test)]
mod lanes;
#[cfg(test)]
mod largest;
#[cfg(test)]
mod numbers;
#[cfg(test)]
mod pair;
#[cfg(test)]
mod service;
