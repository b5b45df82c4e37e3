//! How many blocks of SHA-256 each work takes, counted from the very signature.

use lms_ots::digits;
use sha2::{Digest, Sha256};

/// The blocks of a message: its bytes, one byte of padding at least, and 8 of its length.
pub(crate) fn blocks_of(len: u64) -> u64 {
    (len / 64).saturating_add(if len % 64 < 56 { 1 } else { 2 })
}

/// The blocks over the 67 ends of chains.
pub(crate) fn public_blocks() -> u64 {
    blocks_of(22 + 67 * 32)
}

/// A leaf's 67 chains of a start and 15 steps, its public value and its node.
pub(crate) fn leaf_blocks() -> u64 {
    (67u64 * 16)
        .saturating_add(public_blocks())
        .saturating_add(blocks_of(54))
}

/// A tree of height 10: what each leaf takes, and the nodes above.
pub(crate) fn key_blocks() -> u64 {
    1024u64
        .saturating_mul(leaf_blocks())
        .saturating_add(1023u64.saturating_mul(blocks_of(86)))
}

/// The steps to the digits, and those from there to the chains' ends.
fn steps_of(id: &[u8; 16], message: &[u8], sig: &[u8]) -> (u64, u64) {
    let (Some(leaf), Some(randomizer)) = (sig.get(..4), sig.get(8..40)) else {
        return (0, 0);
    };
    let mut hasher = Sha256::new();
    hasher.update(id);
    hasher.update(leaf);
    hasher.update([0x81u8, 0x81]);
    hasher.update(randomizer);
    hasher.update(message);
    let mut to = 0u64;
    let mut from = 0u64;
    for digit in digits(&hasher.finalize()) {
        to = to.saturating_add(u64::from(digit));
        from = from.saturating_add(15u64.saturating_sub(u64::from(digit)));
    }
    (to, from)
}

/// A signature: its randomizer, the message, and each chain's start and steps.
pub(crate) fn sign_blocks(id: &[u8; 16], message: &[u8], sig: &[u8]) -> u64 {
    (1u64 + 67)
        .saturating_add(blocks_of(54u64.saturating_add(message.len() as u64)))
        .saturating_add(steps_of(id, message, sig).0)
}

/// A verification: the message, the steps left, the public value, the leaf's node and the path.
pub(crate) fn verify_blocks(id: &[u8; 16], message: &[u8], sig: &[u8], levels: u64) -> u64 {
    blocks_of(54u64.saturating_add(message.len() as u64))
        .saturating_add(steps_of(id, message, sig).1)
        .saturating_add(public_blocks())
        .saturating_add(blocks_of(54))
        .saturating_add(levels.saturating_mul(blocks_of(86)))
}
