//! Tests of what a replica records, by public calls alone. They stand in a crate of their own, since a
//! crate with tests is proved twice.
#![tactic(auto)]

#[cfg(test)]
mod answers;
#[cfg(test)]
mod flat_log;
#[cfg(test)]
mod log;
#[cfg(test)]
mod messages;
#[cfg(test)]
mod openings;
#[cfg(test)]
mod sealing;
#[cfg(test)]
mod signing;
#[cfg(test)]
mod stable;
#[cfg(test)]
mod validity;
#[cfg(test)]
mod view_messages;
#[cfg(test)]
mod votes;
