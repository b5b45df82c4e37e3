//! Tests of replicas in threads. Each ends by itself: a gate gives up after ten thousand turns of a
//! millisecond, and a call is made beside a watcher that closes its host after as long.
#![tactic(auto)]

#[cfg(test)]
mod calls;
#[cfg(test)]
mod early;
#[cfg(test)]
mod gates;
#[cfg(test)]
mod going;
#[cfg(test)]
mod hosts;
#[cfg(test)]
mod lanes;
#[cfg(test)]
mod levels;
#[cfg(test)]
mod place;
#[cfg(test)]
mod stations;
#[cfg(test)]
mod streams;
#[cfg(test)]
mod texts;
