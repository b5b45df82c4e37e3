//! The tests of a NewView.

ghost use Rattle.std.specs.Prelude.{◌≡◌};
ghost use Rattle.quorum_log.specs.Certificates.{is_by, of_pre_prepare, same_fields};
ghost use Rattle.quorum_log.specs.Setup.{primary, setup_of};
ghost use Rattle.quorum_log.specs.Validity.{are_given, given, has_order};
ghost use Rattle.view_change.specs.Faults.{answer};
ghost use Rattle.view_change.specs.Opened.{each_change, is_for_view, has_full_certificates, has_full_proof, have_full_proofs, have_given_order, opening_fault};

use crate::certificates::quorum;
use crate::fault::ViewFault;
use crate::given::{digest_at, greatest_low, top_of};
use crate::view_changes::{has_certificates, has_order, has_proof, has_view};
use host_types::{Config, SeqNo, View};
use pbft_codec::{NewView, PrePrepare, Role, Signed, ViewChange};

/// Whether each ViewChange is for this view.
fn are_for_view(entry: &NewView) -> bool
    ensures { result ≡ each_change (is_for_view entry.now) entry.now.changes }
{
    let view = entry.view;
    let changes = entry.changes.as_slice();
    changes.iter().all(|message| has_view(&message.body) && message.body.view == view)
}

/// Whether each of these ViewChanges has its proof.
fn all_have_proofs(config: &Config, changes: &[Signed<ViewChange>]) -> bool
    ensures { result ≡ each_change (has_full_proof config.now) changes.now }
{
    changes
        .iter()
        .all(|message| has_proof(config, &message.body))
}

/// Whether there is a quorum of ViewChanges, each with its proof.
fn have_proofs(config: &Config, entry: &NewView) -> bool
    ensures { result ≡ have_full_proofs config.now entry.now }
{
    let changes = entry.changes.as_slice();
    all_have_proofs(config, changes) && changes.len() == quorum(config)
}

/// Whether the certificates of each ViewChange are such.
fn have_certificates(config: &Config, changes: &[Signed<ViewChange>]) -> bool
    ensures { result ≡ each_change (has_full_certificates config.now) changes.now }
{
    changes
        .iter()
        .all(|message| has_certificates(config, &message.body))
}

/// Whether a PrePrepare is this replica's, for this proposal.
fn is_proposed(leader: u32, message: &Signed<PrePrepare>, proposal: &PrePrepare) -> bool
    ensures { result ≡ is_by leader (λ b. same_fields (of_pre_prepare b) (of_pre_prepare proposal.now)) message.now }
{
    message.role == Role::Replica && message.id == leader && message.body == *proposal
}

/// Whether the PrePrepares are the primary's, one for each number that the ViewChanges give.
fn are_given(
    config: &Config,
    view: View,
    changes: &[Signed<ViewChange>],
    pre_prepares: &[Signed<PrePrepare>],
) -> bool
    ensures { result ≡ are_given (primary config.now view.0) (given (setup_of config.now) view.0 changes.now) pre_prepares.now }
{
    let leader = u32::from(config.primary(view).0);
    let top = top_of(changes);
    let mut number = greatest_low(changes);
    for message in pre_prepares {
        if number >= top {
            return false;
        }
        number += 1;
        let proposal = PrePrepare {
            view,
            number: SeqNo(number),
            digest: digest_at(number, changes),
        };
        if !is_proposed(leader, message, &proposal) {
            return false;
        }
    }
    number == top
}

/// Whether each of these ViewChanges has its order.
fn all_have_order(config: &Config, changes: &[Signed<ViewChange>]) -> bool
    ensures { result ≡ each_change (has_order (setup_of config.now)) changes.now }
{
    changes
        .iter()
        .all(|message| has_order(config, &message.body))
}

/// Whether each ViewChange has its order, and the PrePrepares are those that the ViewChanges give.
fn have_order(config: &Config, entry: &NewView) -> bool
    ensures { result ≡ have_given_order config.now entry.now }
{
    let changes = entry.changes.as_slice();
    all_have_order(config, changes)
        && are_given(config, entry.view, changes, entry.pre_prepares.as_slice())
}

/// The first fault of a NewView.
pub fn check_new_view(config: &Config, entry: &NewView) -> Result<(), ViewFault>
    ensures { result ≡ answer (opening_fault config.now entry.now) }
{
    if !are_for_view(entry) {
        return Err(ViewFault::View);
    }
    if !have_proofs(config, entry) {
        return Err(ViewFault::Proof);
    }
    if !have_certificates(config, entry.changes.as_slice()) {
        return Err(ViewFault::Certificate);
    }
    if !have_order(config, entry) {
        return Err(ViewFault::Order);
    }
    Ok(())
}
