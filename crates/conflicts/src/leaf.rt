//! Which leaf of its signer's key signed a message.

ghost use Rattle.std.specs.Prelude.{◌≡◌, ◌+◌, ◌≤◌, Some, length};
ghost use Rattle.std.specs.Option.{option_copied};
ghost use Rattle.conflicts.specs.Leaves.{leaf_by, leaf_claim_of, leaf_named};
ghost use Rattle.host_types.specs.declared.key.PublicKey.TheVariants.{Hss, Lms};
ghost use Rattle.lms_level.specs.Signature.{key_height};
ghost use Rattle.seal.specs.Signature.{lms_length, signed_key_in, top_key_in};
ghost use Rattle.seal.specs.Signers.{key_of};

use crate::claim::{Claim, Topic};
use host_types::{ClientId, Config, PublicKey, ReplicaId};
use lms_level::{Height, key_height, word_at};
use pbft_codec::Role;
use seal::{Checked, request_digest};

/// The length of one tree's key.
const KEY_LEN: usize = 56;

/// What a message claims of the leaf that its signature names: that it signs this, by the digest of what was signed. It takes no
/// memory.
pub fn leaf_claim_of(message: &Checked) -> Option<Claim>
    ensures { result ≡ leaf_claim_of message.now }
{
    let (role, id) = message.signer();
    let key = key_of(message.config(), role, id)?;
    let leaf = leaf_named(key, message.message().sig.as_slice())?;
    Some(Claim {
        signer: id,
        topic: Topic::Leaf { leaf },
        digest: request_digest(message),
    })
}

/// The number of the leaf that a signature under this key names; none where its length isn't that of the trees.
fn leaf_named(key: &PublicKey, sig: &[u8]) -> Option<u64>
    ensures { result ≡ leaf_named key.now sig.now }
{
    match key {
        PublicKey::Lms(own) => leaf_of_tree(own, sig),
        PublicKey::Hss(levels) => leaf_of_levels(levels, sig),
    }
}

fn leaf_of_tree(key: &[u8; 56], sig: &[u8]) -> Option<u64>
    ensures { result ≡ leaf_named (Lms key.now) sig.now }
{
    let height = key_height(key)?;
    if sig.len() != height.signature_len() {
        return None;
    }
    Some(u64::from(word_at(sig, 0)))
}

fn leaf_of_levels(key: &[u8; 60], sig: &[u8]) -> Option<u64>
    ensures { result ≡ leaf_named (Hss key.now) sig.now }
{
    let top = top_height(key)?;
    if sig.len() < 4 + top.signature_len() + KEY_LEN {
        return None;
    }
    let bottom = bottom_height(top, sig)?;
    leaf_of_parts(top, bottom, sig)
}

/// The height of the top tree.
fn top_height(key: &[u8; 60]) -> Option<Height>
    ensures { result ≡ key_height (top_key_in key.now) }
{
    match key[4..].as_array::<56>() {
        Some(top_key) => key_height(top_key),
        None => unreachable!(),
    }
}

/// The height of the bottom tree, by its key in the signature.
fn bottom_height(top: Height, sig: &[u8]) -> Option<Height>
    requires { 60 + lms_length top ≤ length sig.now }
    ensures { result ≡ key_height (signed_key_in top sig.now) }
{
    let start = 4 + top.signature_len();
    match sig[start..start + KEY_LEN].as_array::<56>() {
        Some(signed_key) => key_height(signed_key),
        None => unreachable!(),
    }
}

/// The number of the leaf by the trees' heights.
fn leaf_of_parts(top: Height, bottom: Height, sig: &[u8]) -> Option<u64>
    ensures { result ≡ leaf_by top (Some bottom) sig.now }
{
    let front = 4 + top.signature_len() + KEY_LEN;
    if sig.len() != front + bottom.signature_len() {
        return None;
    }
    let above = u64::from(word_at(sig, 4)) * u64::from(bottom.leaf_count());
    Some(above + u64::from(word_at(sig, front)))
}

/// The listed key of a replica or a client.
fn key_of(config: &Config, role: Role, id: u32) -> Option<&PublicKey>
    ensures { option_copied result ≡ key_of config.now role id }
{
    match role {
        Role::Replica => {
            if id >= u32::from(config.replica_count()) {
                return None;
            }
            config.replica_key(ReplicaId(id as u8))
        }
        Role::Client => match config.client(ClientId(id)) {
            Some(entry) => Some(&entry.key),
            None => None,
        },
    }
}
