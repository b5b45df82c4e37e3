//! The ViewChange that a replica makes as it leaves a view, and the NewView that a primary makes.

ghost use Rattle.std.specs.Prelude.{◌≡◌, List, None, Some, IfErr, IfOk, OnOk};
ghost use Rattle.std.specs.List.{AllByRecursion};
ghost use Rattle.host_types.specs.Configuration.{IsConfiguration};
ghost use Rattle.pbft_codec.specs.declared.body.Body.TheVariants as bodies;
ghost use Rattle.pbft_codec.specs.declared.body.certificate.Certificate.{Certificate};
ghost use Rattle.pbft_codec.specs.declared.body.new_view.NewView.{NewView};
ghost use Rattle.pbft_codec.specs.declared.body.view_change.ViewChange.{ViewChange};
ghost use Rattle.quorum_log.specs.Validity.{view_change_fault};
ghost use Rattle.view_change.specs.declared.fault.ViewFault.TheVariants.{Memory};
ghost use Rattle.view_change.specs.Made.{AreValidParts, HasValidParts, IsCertificateOf, IsMadeOf, IsNewViewOf, IsValidChange, OneForOne};
ghost use Rattle.view_change.specs.Sealable.{AreUnder, HasFewMessages, HasShortLists, IsCheckedCertificate, IsSealable};
ghost use Rattle.quorum_log.specs.Setup.{setup_of};

use crate::fault::ViewFault;
use crate::nested::{copies_of, copy_of};
use host_types::{SeqNo, View};
use pbft_codec::{Body, Certificate, Certificates, NewView, Sequence, ViewChange};
use quorum_log::CheckedCertificate;
use seal::CheckedList;
use std::alloc::{AllocError, Global};

/// A copy of a certificate, if its messages are a PrePrepare and Prepares.
fn certificate_of(
    alloc: Global,
    certificate: &CheckedCertificate,
) -> Result<Option<Certificate>, AllocError>
    ensures copy { (x : Certificate) → IsCertificateOf certificate.now x → IfOk result (λ copy. copy ≡ Some x) }
    ensures checked { OnOk result (IsCheckedCertificate certificate.now) }
{
    let prepares = copies_of(alloc, certificate.prepares.as_slice())?;
    let Some(pre_prepare) = copy_of(alloc, certificate.pre_prepare.message())? else {
        return Ok(None);
    };
    Ok(Some(Certificate {
        pre_prepare,
        prepares,
    }))
}

/// Copies of the certificates, in order.
fn certificates_of(
    alloc: Global,
    certificates: &[CheckedCertificate],
) -> Result<Certificates, AllocError>
    ensures copies { (xs : List Certificate) → OneForOne IsCertificateOf certificates.now xs → IfOk result (λ copies. copies ≡ xs) }
    ensures checked { OnOk result (AllByRecursion IsCheckedCertificate certificates.now) }
{
    let mut copies = Vec::new(alloc);
    for certificate in certificates {
        if let Some(copy) = certificate_of(alloc, certificate)? {
            copies.push(copy)?;
        }
    }
    Ok(Sequence::from_vec(copies))
}

/// The `ViewChange` for a view of this low mark, the Checkpoints that prove it, and these certificates
/// (Castro and Liskov 1999, section 4.4), for the replica to seal. The caller owes Checkpoints, and
/// certificates of a `PrePrepare` and Prepares each; messages of other kinds are left out. With lists no
/// longer than the grammar has them, and signers ascending, it can be sealed. It answers `Memory` alone,
/// and then nothing is made.
pub fn make(
    alloc: Global,
    view: View,
    low: SeqNo,
    proof: &CheckedList,
    certificates: &[CheckedCertificate],
) -> Result<Body, ViewFault>
    ensures made { (v : ViewChange) → IsMadeOf view low proof.now certificates.now v → IfOk result (λ body. body ≡ bodies.ViewChange v) }
    ensures valid { (v : ViewChange) → IsMadeOf view low proof.now certificates.now v → HasValidParts (setup_of proof.now.config) v
        → view_change_fault (setup_of proof.now.config) v ≡ None }
    ensures from_valid_parts { IsConfiguration proof.now.config → AreValidParts view low proof.now certificates.now → IfOk result (IsValidChange (setup_of proof.now.config)) }
    ensures sealable { (v : ViewChange) → IsMadeOf view low proof.now certificates.now v → HasShortLists v → AreUnder proof.now.config certificates.now
        → IfOk result (IsSealable proof.now.config) }
    ensures memory { IfErr result (λ fault. fault ≡ Memory) }
{
    let checkpoints = copies_of(alloc, proof.as_slice())?;
    let certificates = certificates_of(alloc, certificates)?;
    Ok(Body::ViewChange(ViewChange {
        view,
        low,
        checkpoints,
        certificates,
    }))
}

/// The `NewView` for a view of these `ViewChange`s and `PrePrepare`s (Castro and Liskov 1999, section 4.4), for
/// the primary to seal. The caller owes messages of these kinds; those of other kinds are left out. With
/// at most 7 `ViewChange`s, which is 2f + 1 for the greatest f, no more `PrePrepare`s than the grammar has, and
/// signers ascending, it can be sealed. It answers `Memory` alone, and then nothing is made.
pub fn make_new_view(
    alloc: Global,
    view: View,
    changes: &CheckedList,
    pre_prepares: &CheckedList,
) -> Result<Body, ViewFault>
    ensures made { (n : NewView) → IsNewViewOf view changes.now pre_prepares.now n → IfOk result (λ body. body ≡ bodies.NewView n) }
    ensures sealable { (n : NewView) → IsNewViewOf view changes.now pre_prepares.now n → HasFewMessages n → pre_prepares.now.config ≡ changes.now.config
        → IfOk result (IsSealable changes.now.config) }
    ensures memory { IfErr result (λ fault. fault ≡ Memory) }
{
    let changes = copies_of(alloc, changes.as_slice())?;
    let pre_prepares = copies_of(alloc, pre_prepares.as_slice())?;
    Ok(Body::NewView(NewView {
        view,
        changes,
        pre_prepares,
    }))
}
