//! The conflicts among messages.

ghost use Rattle.std.specs.Prelude.{◌≡◌, ◌<◌, ◌↔◌, ℕ, IsTrue, IfOk, OnOk, length};
ghost use Rattle.std.specs.List.{Contains};
ghost use Rattle.conflicts.specs.Claims.{IsConflict};
ghost use Rattle.conflicts.specs.Gathering.{Grows};

use crate::claim::claim_of;
use seal::Checked;
use std::alloc::{AllocError, Global};

/// The pairs of messages in which one replica contradicts itself: it signed two votes of one kind, view and number with two
/// digests, or two Checkpoints of one number with two digests. Each pair has the places of its messages, the
/// earlier first. Every such pair is among them, and no other. It is refused only where memory ran out.
pub fn conflicts(alloc: Global, messages: &[Checked]) -> Result<Vec<(usize, usize)>, AllocError>
    ensures { IfOk result (λ pairs. (i j : ℕ) → Contains pairs.items (i, j) ↔ IsConflict messages.now i j) }
{
    let mut pairs = Vec::new(alloc);
    for second in 0..messages.len() {
        with_earlier(messages, second, &mut pairs)?;
    }
    Ok(pairs)
}

/// Adds the conflicts of a message with those before it.
fn with_earlier(
    messages: &[Checked],
    second: usize,
    pairs: &mut Vec<(usize, usize)>,
) -> Result<(), AllocError>
    requires { second < length messages.now }
    ensures { OnOk result (Grows messages.now second second pairs.old.items pairs.new.items) }
{
    for first in 0..second {
        if contradict(messages, first, second) {
            pairs.push((first, second))?;
        }
    }
    Ok(())
}

/// Whether a message contradicts an earlier one.
fn contradict(messages: &[Checked], first: usize, second: usize) -> bool
    requires { (first < second) × (second < length messages.now) }
    ensures { IsTrue result ↔ IsConflict messages.now first second }
{
    match (claim_of(&messages[first]), claim_of(&messages[second])) {
        (Some(one), Some(other)) => one.contradicts(&other),
        _ => false,
    }
}
