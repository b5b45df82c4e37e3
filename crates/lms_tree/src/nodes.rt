//! The hashes that bottom trees come from.

ghost use Rattle.std.specs.Prelude.{◌≡◌, ◌∷◌, ◌++◌, take};
ghost use Rattle.lms_level.specs.Ots.{tagged_hash};
ghost use Rattle.lms_tree.specs.Levels.{bottom_id, bottom_secret};

use lms_level::hasher;
use sha2::Digest;

// In place of a chain's number where a bottom tree's identifier is drawn from the top tree's seed.
const IDENTIFIER_TAG: u16 = 0xffff;

// The same where a bottom tree's seed is drawn.
const SEED_TAG: u16 = 0xfffe;

// In place of a step's number where a value is drawn from a seed (RFC 8554, appendix A).
const SEED_STEP: u8 = 0xff;

// The hash of the identifier, `number`, `tag` and two strings.
fn hash_of_two(id: &[u8; 16], number: u32, tag: u16, first: &[u8], second: &[u8]) -> [u8; 32]
    ensures { result ≡ tagged_hash id.now number tag (first.now ++ second.now) }
{
    let mut hasher = hasher(id, number, tag);
    hasher.update(first);
    hasher.update(second);
    hasher.finalize()
}

// The identifier of bottom tree `number`.
pub(crate) fn bottom_id(id: &[u8; 16], secret: &[u8; 32], number: u32) -> [u8; 16]
    ensures { result ≡ bottom_id id.now secret.now number }
{
    let hash = hash_of_two(id, number, IDENTIFIER_TAG, &[SEED_STEP], secret);
    let mut bottom = [0u8; 16];
    bottom.copy_from_slice(&hash[..16]);
    bottom
}

// The seed of bottom tree `number`.
pub(crate) fn bottom_secret(id: &[u8; 16], secret: &[u8; 32], number: u32) -> [u8; 32]
    ensures { result ≡ bottom_secret id.now secret.now number }
{
    hash_of_two(id, number, SEED_TAG, &[SEED_STEP], secret)
}
