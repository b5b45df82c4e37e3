//! Proofs of a stable checkpoint, and certificates of what was prepared.

ghost use Rattle.std.specs.Prelude.{◌≡◌, ◌+◌, ◌*◌};
ghost use Rattle.std.specs.List.{list_all};
ghost use Rattle.quorum_log.specs.Certificates.{of_pre_prepare, of_prepare, same_fields, is_checkpoint_of};
ghost use Rattle.view_change.specs.Opened.{is_full_certificate, is_full_proof};

use host_types::{Config, Digest, SeqNo};
use pbft_codec::{Certificate, Checkpoint, PrePrepare, Prepare, Signed};

/// How many replicas are a quorum: 2f + 1.
pub fn quorum(config: &Config) -> usize
    ensures { result ≡ 2 * config.now.f + 1 }
{
    2 * usize::from(config.f()) + 1
}

/// Whether a Checkpoint is of this number and has this digest.
fn is_checkpoint_of(number: SeqNo, digest: Digest, checkpoint: &Checkpoint) -> bool
    ensures { result ≡ is_checkpoint_of number.0 digest.0 checkpoint.now }
{
    checkpoint.number == number && checkpoint.digest == digest
}

/// Whether all these Checkpoints are of this number and have this digest.
fn are_checkpoints_of(number: SeqNo, digest: Digest, checkpoints: &[Signed<Checkpoint>]) -> bool
    ensures { result ≡ list_all (λ m. is_checkpoint_of number.0 digest.0 m.body) checkpoints.now }
{
    checkpoints
        .iter()
        .all(|message| is_checkpoint_of(number, digest, &message.body))
}

/// Whether these are a quorum of Checkpoints of this number, with one digest.
pub fn is_proof(config: &Config, number: SeqNo, checkpoints: &[Signed<Checkpoint>]) -> bool
    ensures { result ≡ is_full_proof config.now number.0 checkpoints.now }
{
    if checkpoints.len() != quorum(config) {
        return false;
    }
    match checkpoints {
        [] => false,
        [first, ..] => are_checkpoints_of(number, first.body.digest, checkpoints),
    }
}

/// Whether a Prepare agrees with a proposal.
fn agrees(proposal: &PrePrepare, prepare: &Prepare) -> bool
    ensures { result ≡ same_fields (of_prepare prepare.now) (of_pre_prepare proposal.now) }
{
    prepare.view == proposal.view
        && prepare.number == proposal.number
        && prepare.digest == proposal.digest
}

/// Whether all these Prepares agree with a proposal.
fn all_agree(proposal: &PrePrepare, prepares: &[Signed<Prepare>]) -> bool
    ensures { result ≡ list_all (λ m. same_fields (of_prepare m.body) (of_pre_prepare proposal.now)) prepares.now }
{
    prepares
        .iter()
        .all(|message| agrees(proposal, &message.body))
}

/// Whether a proposal has 2f Prepares, which all agree with it.
pub fn is_certificate(config: &Config, certificate: &Certificate) -> bool
    ensures { result ≡ is_full_certificate config.now certificate.now }
{
    let prepares = certificate.prepares.as_slice();
    prepares.len() == 2 * usize::from(config.f())
        && all_agree(&certificate.pre_prepare.body, prepares)
}
