//! Keys and seeds, as bytes.

ghost use Rattle.std.specs.Prelude.{◌≡◌, ◌⊎◌, ◌++◌, ◌<◌, MatchResult, Ok, Err, IsOk, drop, length};
ghost use Rattle.lms_tree.specs.Keys.{public_key_of_signer};
ghost use Rattle.lms_tree.specs.SigningState.{SigningState};
ghost use Rattle.member_calls.specs.Keys.{bottom_in, height_in, key_in, key_text, signer_in};
ghost use Rattle.member_calls.specs.declared.status.Status.{Status as StatusSaid};
ghost use Rattle.member_calls.specs.declared.status.Status.TheVariants as statuses;

use crate::status::Status;
use handles::put_front;
use host_types::PublicKey;
use lms_tree::{Height, Signer};
use std::alloc::Global;

/// A key of one level begins so (RFC 8554, section 6.1).
const ONE_LEVEL: [u8; 4] = [0, 0, 0, 1];

/// A key of two levels begins so.
const TWO_LEVELS: [u8; 4] = [0, 0, 0, 2];

/// Writes the public key of a seed to the front of a buffer, which takes 60 bytes: it is written where the status is `Done`
/// alone. `top` is the height of the top tree, 5 or 10; `bottom` that of the trees below it, or 0 for a key of one tree.
pub fn write_key_of(alloc: Global, seed: &[u8], top: u8, bottom: u8, buffer: &mut [u8]) -> Status
    ensures key { (signer : SigningState) → signer_in seed.now top bottom 0 ≡ Ok signer → result ≡ statuses.Done →
        buffer.new ≡ key_text (public_key_of_signer signer) ++ drop 60 buffer.old }
    ensures untouched { (result ≡ statuses.Done) ⊎ (buffer.new ≡ buffer.old) }
    ensures wrong { (status : StatusSaid) → signer_in seed.now top bottom 0 ≡ Err status → result ≡ status }
    ensures right { (signer : SigningState) → signer_in seed.now top bottom 0 ≡ Ok signer →
        (result ≡ statuses.Done) ⊎ (result ≡ statuses.Memory) ⊎ ((result ≡ statuses.BufferTooShort) × (length buffer.old < 60)) }
{
    match signer_of(alloc, seed, top, bottom, 0) {
        Ok(signer) => write_key(&signer.public_key(), buffer),
        Err(status) => status,
    }
}

/// Writes a key to the front of a buffer.
fn write_key(key: &PublicKey, buffer: &mut [u8]) -> Status
    ensures done { result ≡ statuses.Done → buffer.new ≡ key_text key.now ++ drop 60 buffer.old }
    ensures short { (result ≡ statuses.Done) ⊎ ((result ≡ statuses.BufferTooShort) × (length buffer.old < 60) × (buffer.new ≡ buffer.old)) }
{
    if buffer.len() < 60 {
        return Status::BufferTooShort;
    }
    put_front(buffer, &key_text(key));
    Status::Done
}

/// The bytes of a key.
fn key_text(key: &PublicKey) -> [u8; 60]
    ensures { result ≡ key_text key.now }
{
    match key {
        PublicKey::Hss(bytes) => *bytes,
        PublicKey::Lms(bytes) => {
            let mut text = [0; 60];
            text[..4].copy_from_slice(&ONE_LEVEL);
            text[4..].copy_from_slice(bytes);
            text
        }
    }
}

/// The key that bytes are.
pub(crate) fn key_in(bytes: &[u8]) -> Option<PublicKey>
    ensures { result ≡ key_in bytes.now }
{
    let Ok(bytes) = <[u8; 60]>::try_from(bytes) else {
        return None;
    };
    let (level, key) = bytes.split_at(4);
    if level == &ONE_LEVEL[..] {
        let Ok(key) = <[u8; 56]>::try_from(key) else {
            return None;
        };
        return Some(PublicKey::Lms(key));
    }
    if level == &TWO_LEVELS[..] {
        return Some(PublicKey::Hss(bytes));
    }
    None
}

/// The height of a tree by its number of levels above the leaves.
fn height_in(number: u8) -> Option<Height>
    ensures { result ≡ height_in number }
{
    match number {
        5 => Some(Height::H5),
        10 => Some(Height::H10),
        _ => None,
    }
}

/// The height of bottom trees, or that there are none.
fn bottom_in(number: u8) -> Option<Option<Height>>
    ensures { result ≡ bottom_in number }
{
    match number {
        0 => Some(None),
        5 => Some(Some(Height::H5)),
        10 => Some(Some(Height::H10)),
        _ => None,
    }
}

/// The signer of a seed that has used the leaves below this one.
pub(crate) fn signer_of(
    alloc: Global,
    seed: &[u8],
    top: u8,
    bottom: u8,
    leaf: u32,
) -> Result<Signer, Status>
    ensures { MatchResult result (λ signer. signer_in seed.now top bottom leaf ≡ Ok signer)
        (λ status. ((status ≡ statuses.Memory) × IsOk (signer_in seed.now top bottom leaf)) ⊎ (signer_in seed.now top bottom leaf ≡ Err status)) }
{
    if seed.len() != 48 {
        return Err(Status::NoSeed);
    }
    let (id, secret) = seed.split_at(16);
    let (Ok(id), Ok(secret)) = (<[u8; 16]>::try_from(id), <[u8; 32]>::try_from(secret)) else {
        return Err(Status::NoSeed);
    };
    let (Some(top), Some(bottom)) = (height_in(top), bottom_in(bottom)) else {
        return Err(Status::NoHeight);
    };
    if leaf > Signer::leaf_count_of(top, bottom) {
        return Err(Status::NoLeaf);
    }
    let made = match bottom {
        None => Signer::from_seed_at(alloc, top, id, secret, leaf),
        Some(bottom) => Signer::from_seed2_at(alloc, top, bottom, id, secret, leaf),
    };
    match made {
        Ok(signer) => Ok(signer),
        Err(_) => Err(Status::Memory),
    }
}
