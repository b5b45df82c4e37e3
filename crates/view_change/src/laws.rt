//! Laws of the bodies that a replica seals, and of the certificates that they carry, for every configuration.

ghost use Rattle.std.specs.Prelude.{◌≡◌, ◌≤◌, ℕ, List, map, Some, true, length};
ghost use Rattle.host_types.specs.Configuration.{Configuration};
ghost use Rattle.pbft_codec.specs.declared.body.Body.{Body};
ghost use Rattle.pbft_codec.specs.declared.body.Body.TheVariants as bodies;
ghost use Rattle.pbft_codec.specs.Limits.{FetchFieldsInRange, FetchWellFormed, IsDigest, IsSequenceNumber};
ghost use Rattle.quorum_log.specs.Words.{Checkpoint, Commit, Fetch, PrePrepare, Prepare, ReplyBody, Signed, Snapshot};
ghost use Rattle.quorum_log.specs.Certificates.{is_stable};
ghost use Rattle.quorum_log.specs.Core.{Core, proof_of};
ghost use Rattle.quorum_log.specs.Setup.{Setup};
ghost use Rattle.quorum_log.specs.Log.{Log, checked_certificate};
ghost use Rattle.quorum_log.specs.declared.certificate.CheckedCertificate.{CheckedCertificate};
ghost use Rattle.seal.specs.Parts.{as_message};
ghost use Rattle.seal.specs.Signers.{IsAuthentic};
ghost use Rattle.view_change.specs.Made.{IsCertificateAt, IsStableBy};
ghost use Rattle.view_change.specs.Sealable.{IsSealable};

/// The signature of an authentic message has at most the 5,076 bytes of one by two trees of height 10
/// (RFC 8554, section 6.2).
pub fn authentic_signatures_are_short()
    ensures { (c : Configuration) (m : Signed Body) → IsAuthentic c m → length m.sig ≤ 5_076 }
{}

/// A body that holds no messages can be sealed where its number is a sequence number and its digest has 32
/// bytes: a Reply with a result of at most 265 bytes, a Snapshot with a state of at most the 5,788,337 bytes
/// that a state of the service has.
pub fn bodies_can_be_sealed()
    ensures pre_prepare { (c : Configuration) (b : PrePrepare) → IsSequenceNumber b.number → IsDigest b.digest → IsSealable c (bodies.PrePrepare b) }
    ensures prepare { (c : Configuration) (b : Prepare) → IsSequenceNumber b.number → IsDigest b.digest → IsSealable c (bodies.Prepare b) }
    ensures commit { (c : Configuration) (b : Commit) → IsSequenceNumber b.number → IsDigest b.digest → IsSealable c (bodies.Commit b) }
    ensures reply { (c : Configuration) (b : ReplyBody) → IsSequenceNumber b.number → length b.result ≤ 265 → IsSealable c (bodies.Reply b) }
    ensures checkpoint { (c : Configuration) (b : Checkpoint) → IsSequenceNumber b.number → IsDigest b.digest → IsSealable c (bodies.Checkpoint b) }
    ensures fetch { (c : Configuration) (b : Fetch) → FetchWellFormed b → FetchFieldsInRange b → IsSealable c (bodies.Fetch b) }
    ensures snapshot { (c : Configuration) (b : Snapshot) → IsSequenceNumber b.number → length b.state ≤ 5_788_337 → IsSealable c (bodies.Snapshot b) }
{}

/// What a log's `certificate` gives at a number in a view is a certificate of that view and number: the
/// PrePrepare, and matching Prepares of 2f replicas, ids ascending, as `make` wants of valid parts.
pub fn certificates_of_a_log_fit()
    ensures { (c : Configuration) (l : Log) (view number : ℕ) (x : CheckedCertificate) → checked_certificate c l view number ≡ Some x → IsCertificateAt c view number x }
{}

/// The proof of a number that is stable among a core's Checkpoints is one: Checkpoints of 2f + 1 replicas at the
/// number with the digest, ids ascending, as `make` wants of valid parts.
pub fn proofs_of_stable_numbers_fit()
    ensures { (c : Setup) (s : Core) (number : ℕ) (digest : List ℕ) → is_stable c.config s.checkpoints number digest ≡ true
        → IsStableBy c.config number (map (as_message bodies.Checkpoint) (proof_of c s number digest)) }
{}
