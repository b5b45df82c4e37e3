//! The tests of a ViewChange.

ghost use Rattle.std.specs.Prelude.{◌≡◌, nat_lt};
ghost use Rattle.std.specs.List.{list_all};
ghost use Rattle.quorum_log.specs.Validity.{has_view, has_order};
ghost use Rattle.view_change.specs.Faults.{answer};
ghost use Rattle.view_change.specs.Opened.{change_fault, has_full_certificates, has_full_proof};
ghost use Rattle.quorum_log.specs.Setup.{setup_of};

use crate::certificates::{is_certificate, is_proof};
use crate::fault::ViewFault;
use host_types::{Config, View};
use pbft_codec::{Certificate, ViewChange};

/// Whether all these certificates are of views below this one.
fn are_below(view: View, certificates: &[Certificate]) -> bool
    ensures { result ≡ list_all (λ x. nat_lt x.pre_prepare.body.view.0 view.0) certificates.now }
{
    certificates
        .iter()
        .all(|certificate| certificate.pre_prepare.body.view.0 < view.0)
}

/// Whether the view is above 0 and the certificates are of lower views.
pub fn has_view(change: &ViewChange) -> bool
    ensures { result ≡ has_view change.now }
{
    change.view.0 > 0 && are_below(change.view, change.certificates.as_slice())
}

/// Whether the Checkpoints show that the low mark is stable.
pub fn has_proof(config: &Config, change: &ViewChange) -> bool
    ensures { result ≡ has_full_proof config.now change.now }
{
    let checkpoints = change.checkpoints.as_slice();
    is_proof(config, change.low, checkpoints) || (change.low.0 == 0 && checkpoints.is_empty())
}

/// Whether each certificate is one.
pub fn has_certificates(config: &Config, change: &ViewChange) -> bool
    ensures { result ≡ has_full_certificates config.now change.now }
{
    change
        .certificates
        .as_slice()
        .iter()
        .all(|certificate| is_certificate(config, certificate))
}

/// Whether the numbers of the certificates ascend between the water marks.
pub fn has_order(config: &Config, change: &ViewChange) -> bool
    ensures { result ≡ has_order (setup_of config.now) change.now }
{
    let low = change.low.0;
    let span = 2 * u64::from(config.k());
    let mut last = low;
    for certificate in change.certificates.as_slice() {
        let number = certificate.pre_prepare.body.number.0;
        if number <= last || number - low > span {
            return false;
        }
        last = number;
    }
    true
}

/// The first fault of a ViewChange.
pub fn check_change(config: &Config, change: &ViewChange) -> Result<(), ViewFault>
    ensures { result ≡ answer (change_fault config.now change.now) }
{
    if !has_view(change) {
        return Err(ViewFault::View);
    }
    if !has_proof(config, change) {
        return Err(ViewFault::Proof);
    }
    if !has_certificates(config, change) {
        return Err(ViewFault::Certificate);
    }
    if !has_order(config, change) {
        return Err(ViewFault::Order);
    }
    Ok(())
}
