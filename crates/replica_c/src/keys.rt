//! The export that tells a public key.

ghost use Rattle.std.specs.Prelude.{◌≡◌, ◌⊎◌, ◌++◌, ◌<◌, Ok, Err, drop, length};
ghost use Rattle.member_calls.specs.Keys.{key_text, signer_in};
ghost use Rattle.member_calls.specs.Statuses.{number_of};
ghost use Rattle.member_calls.specs.Words.{SigningState, public_key_of_signer};
ghost use Rattle.member_calls.specs.declared.status.Status.{Status as StatusSaid};

use member_calls::write_key_of;
use std::alloc::Global;

/// Writes the public key of a seed, which takes 60 bytes. The seed has 48 bytes: an identifier of 16, and 32 that are secret.
/// `top` is the height of the top tree, 5 or 10; `bottom` that of the trees below it, or 0 for a key of one tree. The key is
/// written where the status is 0 alone.
#[unsafe(no_mangle)]
pub extern "C" fn bpfh_key(alloc: Global, seed: &[u8], top: u8, bottom: u8, key: &mut [u8]) -> u32
    ensures key { (signer : SigningState) → signer_in seed.now top bottom 0 ≡ Ok signer → result ≡ 0 →
        key.new ≡ key_text (public_key_of_signer signer) ++ drop 60 key.old }
    ensures untouched { (result ≡ 0) ⊎ (key.new ≡ key.old) }
    ensures wrong { (status : StatusSaid) → signer_in seed.now top bottom 0 ≡ Err status → result ≡ number_of status }
    ensures right { (signer : SigningState) → signer_in seed.now top bottom 0 ≡ Ok signer →
        (result ≡ 0) ⊎ (result ≡ 21) ⊎ ((result ≡ 35) × (length key.old < 60)) }
{
    write_key_of(alloc, seed, top, bottom, key).number()
}
