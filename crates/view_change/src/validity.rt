//! Which ViewChanges and NewViews are valid.

ghost use Rattle.std.specs.Prelude.{◌≡◌};
ghost use Rattle.pbft_codec.specs.declared.body.Body.TheVariants as bodies;
ghost use Rattle.pbft_codec.specs.declared.body.new_view.NewView.{NewView};
ghost use Rattle.pbft_codec.specs.declared.body.view_change.ViewChange.{ViewChange};
ghost use Rattle.quorum_log.specs.Validity.{view_change_fault, new_view_fault};
ghost use Rattle.view_change.specs.Faults.{answer};
ghost use Rattle.quorum_log.specs.Setup.{setup_of};
ghost use Rattle.view_change.specs.Messages.{IsViewChange, IsNewView};

use crate::fault::ViewFault;
use crate::new_views::check_new_view;
use crate::view_changes::check_change;
use host_types::Config;
use pbft_codec::Body;
use seal::Checked;

/// Whether a `ViewChange` that was checked under this configuration is valid (Castro and Liskov 1999,
/// section 4.4), or its first fault: `View` where its view is 0 or a certificate's view is not lower;
/// `Proof` where its Checkpoints are not those of a quorum at its low mark with one digest, unless the
/// mark is 0 and there are none; `Certificate` where a `PrePrepare` has not 2f Prepares that match it;
/// `Order` where the numbers do not ascend between the marks. It takes no memory.
pub fn valid(cfg: &Config, message: &Checked) -> Result<(), ViewFault>
    requires under { message.now.config ≡ cfg.now }
    requires kind { IsViewChange message.now.message.body }
    ensures { (v : ViewChange) → message.now.message.body ≡ bodies.ViewChange v → result ≡ answer (view_change_fault (setup_of cfg.now) v) }
{
    let _ = (cfg.f(), message.signer());
    match message.body() {
        Body::ViewChange(change) => check_change(cfg, change),
        _ => unreachable!(),
    }
}

/// Whether a `NewView` that was checked under this configuration is valid (Castro and Liskov 1999,
/// section 4.4), or its first fault: `View` where a `ViewChange` has this fault or is for another view;
/// `Proof` where one has this fault, or they are not 2f+1; `Certificate` where one has this fault;
/// `Order` where one has this fault, or the PrePrepares are not the primary's for the numbers and
/// digests that the `ViewChange`s give. It takes no memory.
pub fn valid_new_view(cfg: &Config, message: &Checked) -> Result<(), ViewFault>
    requires under { message.now.config ≡ cfg.now }
    requires kind { IsNewView message.now.message.body }
    ensures { (n : NewView) → message.now.message.body ≡ bodies.NewView n → result ≡ answer (new_view_fault (setup_of cfg.now) n) }
{
    let _ = (cfg.f(), message.signer());
    match message.body() {
        Body::NewView(entry) => check_new_view(cfg, entry),
        _ => unreachable!(),
    }
}
