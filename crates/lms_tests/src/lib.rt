//! Tests of signers and of the verifier with keys of one tree and of two levels, over rows of another
//! implementation.
#![tactic(auto)]

#[cfg(test)]
mod cases;
#[cfg(test)]
mod faults;
#[cfg(test)]
mod going_on;
#[cfg(test)]
mod one_tree;
#[cfg(test)]
mod signers;
#[cfg(test)]
mod two_levels;
