//! What ViewChanges give for the next view: the greatest stable number, the greatest number of a
//! certificate, and the digest at each number between.

ghost use Rattle.std.specs.Prelude.{◌≡◌, ◌++◌, [], max, map, List};
ghost use Rattle.std.specs.List.{flat_map};
ghost use Rattle.sha2.specs.Sha256.{sha256};
ghost use Rattle.pbft_codec.specs.declared.body.certificate.Certificate.{Certificate};
ghost use Rattle.quorum_log.specs.Validity.{digest_or_null, floor_of, greatest_of, highest};
ghost use Rattle.host_types.specs.Configuration.{Configuration};
ghost use Rattle.quorum_log.specs.Setup.{setup_of};
ghost use Rattle.view_change.specs.Proposals.{comes_instead, or_later};

use crate::report::Report;
use host_types::{Digest, SeqNo};
use pbft_codec::{Certificate, PrePrepare, Signed, ViewChange};
use sha2::{Digest as _, Sha256};

/// The digest that stands for the null request: the SHA-256 digest (FIPS 180-4) of no bytes. It takes no
/// memory.
pub fn null_digest() -> Digest
    ensures { result.0 ≡ sha256 [] }
{
    let nothing: &[u8] = &[];
    Digest(Sha256::digest(nothing))
}

/// The floor that the `ViewChange`s of a `NewView` give (Castro and Liskov 1999, section 4.4): their greatest
/// low mark, 0 where there are none. It takes no memory.
pub fn floor_of(changes: &[Signed<ViewChange>]) -> SeqNo
    ensures { result.0 ≡ floor_of changes.now }
{
    SeqNo(greatest_low(changes))
}

/// The greatest low mark.
pub fn greatest_low<T: Report>(changes: &[T]) -> u64
    ensures { result ≡ greatest_of (map T.low changes.now) }
{
    let mut floor = 0;
    for change in changes {
        floor = floor.max(change.low().0);
    }
    floor
}

/// The greatest number of these certificates and this one.
fn greatest_in(certificates: &[Certificate], least: u64) -> u64
    ensures { result ≡ max least (greatest_of (map (λ x. x.pre_prepare.body.number.0) certificates.now)) }
{
    let mut top = least;
    for certificate in certificates {
        top = top.max(certificate.pre_prepare.body.number.0);
    }
    top
}

/// The greatest number of a certificate, or the floor if none is above it.
pub fn top_of<T: Report>(changes: &[T]) -> u64
    ensures { result ≡ max (greatest_of (map T.low changes.now))
        (greatest_of (map (λ x. x.pre_prepare.body.number.0) (flat_map T.certificates changes.now))) }
{
    let mut top = greatest_low(changes);
    for change in changes {
        top = greatest_in(change.certificates(), top);
    }
    top
}

/// Whether a certificate's proposal comes in place of the one found before.
fn is_higher(number: u64, proposal: &PrePrepare, found: Option<PrePrepare>) -> bool
    ensures { result ≡ comes_instead number proposal.now found }
{
    match found {
        None => proposal.number.0 == number,
        Some(before) => proposal.number.0 == number && before.view.0 < proposal.view.0,
    }
}

/// The proposal at this number of the highest view, of the one found before and these.
fn highest_in(
    number: u64,
    certificates: &[Certificate],
    before: Option<PrePrepare>,
) -> Option<PrePrepare>
    ensures { (later : List Certificate) →
        or_later result (highest number later) ≡ or_later before (highest number (certificates.now ++ later)) }
{
    let mut found = before;
    for certificate in certificates {
        let proposal = &certificate.pre_prepare.body;
        if is_higher(number, proposal, found) {
            found = Some(*proposal);
        }
    }
    found
}

/// The digest at a number: that of the certificate of the highest view, else the null digest.
pub fn digest_at<T: Report>(number: u64, changes: &[T]) -> Digest
    ensures { (c : Configuration) → result.0 ≡ digest_or_null (setup_of c) (highest number (flat_map T.certificates changes.now)) }
{
    let mut found = None;
    for change in changes {
        found = highest_in(number, change.certificates(), found);
    }
    match found {
        Some(proposal) => proposal.digest,
        None => null_digest(),
    }
}
