//! Tests of configurations, keys, messages, what is signed, and a client's session, over the public calls of their
//! crates. They stand apart, so that those crates are proved once and not again beside their tests.
#![tactic(auto)]

#[cfg(test)]
mod codec;
#[cfg(test)]
mod faults;
#[cfg(test)]
mod replies;
#[cfg(test)]
mod sealing;
#[cfg(test)]
mod sessions;
#[cfg(test)]
mod types;
