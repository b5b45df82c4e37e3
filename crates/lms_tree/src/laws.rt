//! Laws of signers of either kind, which ask for no height: how many signatures, how long, and what signs what.

ghost use Rattle.std.specs.Prelude.{◌≡◌, ℕ, ◌+◌, ◌^◌, ◌<◌, ◌≤◌, List, Option, Some, length};
ghost use Rattle.std.specs.Fn.{iterate};
ghost use Rattle.lms_level.specs.declared.height.Height.{Height};
ghost use Rattle.lms_level.specs.Signature.{levels_of, word_at};
ghost use Rattle.host_types.specs.declared.key.PublicKey.{PublicKey};
ghost use Rattle.lms_tree.specs.Keys.{IsValid, after_signing, leaf_count, signature_by, signature_length, signature_number, signature_of, signer_at};
ghost use Rattle.lms_tree.specs.Levels.{hss_signature_at};
ghost use Rattle.lms_tree.specs.Signature.{signed_key_in};
ghost use Rattle.lms_tree.specs.SigningState.{SigningState};

use crate::signer::Signer;

/// **A key gives at most 2^20 signatures.**
pub fn leaves_are_few()
    ensures { (s : SigningState) → leaf_count s ≤ 2 ^ 20 }
{}

/// **A signature has the length that the heights say, which is at most 5,076 bytes**, and no longer one is valid
/// under any key.
pub fn signatures_are_short()
    ensures long { (s : SigningState) (message : List ℕ) → length (signature_of s message) ≡ signature_length s }
    ensures bounded { (s : SigningState) → signature_length s ≤ 5076 }
    ensures valid { (key : PublicKey) (message sig : List ℕ) → IsValid key message sig → length sig ≤ 5076 }
{}

/// **A signer's next leaf is at most the number of its leaves.**
pub fn next_leaf_is_within(signer: &Signer)
    ensures { signer.now.next_leaf ≤ leaf_count signer.now }
{
    let _next = signer.next_leaf();
}

/// **No leaf signs twice**: of the signatures of one signer, two that name the same leaf have one number. With two
/// levels that is a leaf of a bottom tree.
pub fn no_leaf_signs_twice()
    ensures { (s : SigningState) (n m : ℕ) (first second : List ℕ) → n < leaf_count s → m < leaf_count s
        → signature_number s (signature_by s.height s.bottom s.id s.secret n first)
        ≡ signature_number s (signature_by s.height s.bottom s.id s.secret m second) → n ≡ m }
{}

/// **A leaf of the top tree signs one key alone**: of the signatures of one signer, two that name the same leaf of
/// the top tree carry one key.
pub fn a_top_leaf_signs_one_key()
    ensures { (top bottom : Height) (id secret : List ℕ) (n m : ℕ) (first second : List ℕ)
        → n < 2 ^ (levels_of top + levels_of bottom) → m < 2 ^ (levels_of top + levels_of bottom)
        → word_at (hss_signature_at top bottom id secret n first) 4
        ≡ word_at (hss_signature_at top bottom id secret m second) 4
        → signed_key_in top (hss_signature_at top bottom id secret n first)
        ≡ signed_key_in top (hss_signature_at top bottom id secret m second) }
{}

/// **A signer that goes on signs as the one that has stopped would have**: the signer of a seed at leaf n, which
/// `Signer::from_seed_at` and `Signer::from_seed2_at` give, is the one that began at leaf 0 and has used n leaves, and
/// its next signature is number n.
pub fn signers_go_on()
    ensures same { (height : Height) (bottom : Option Height) (id secret : List ℕ) (n : ℕ) →
        iterate after_signing n (signer_at height bottom id secret 0) ≡ signer_at height bottom id secret n }
    ensures next { (height : Height) (bottom : Option Height) (id secret : List ℕ) (n : ℕ) (message : List ℕ) →
        signature_of (iterate after_signing n (signer_at height bottom id secret 0)) message
        ≡ signature_by height bottom id secret n message }
{}
