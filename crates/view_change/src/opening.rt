//! What the primary of a view opens it with.

ghost use Rattle.std.specs.Prelude.{◌≡◌, ◌≤◌, true, List, None, IfErr, IfOk, map, length};
ghost use Rattle.std.specs.List.{list_all};
ghost use Rattle.host_types.specs.Configuration.{Configuration, IsConfiguration};
ghost use Rattle.pbft_codec.specs.declared.body.Body.TheVariants as bodies;
ghost use Rattle.pbft_codec.specs.declared.body.new_view.NewView.{NewView};
ghost use Rattle.pbft_codec.specs.declared.body.view_change.ViewChange.{ViewChange};
ghost use Rattle.pbft_codec.specs.declared.signed.Signed.{Signed};
ghost use Rattle.quorum_log.specs.Validity.{bodies_in, has_order, new_view_fault};
ghost use Rattle.quorum_log.specs.Rules.{pre_prepare_of};
ghost use Rattle.seal.specs.Lists.{messages_of};
ghost use Rattle.view_change.specs.Proposals.{left_from};
ghost use Rattle.seal.specs.Parts.{as_message};
ghost use Rattle.view_change.specs.declared.fault.ViewFault.TheVariants.{Memory};
ghost use Rattle.view_change.specs.Opening.{IsOpeningOf, IsSignedFrom};
ghost use Rattle.quorum_log.specs.Setup.{setup_of};

use crate::fault::ViewFault;
use crate::given::{digest_at, greatest_low, top_of};
use host_types::{SeqNo, View};
use pbft_codec::PrePrepare;
use seal::{Checked, CheckedList};
use std::alloc::{AllocError, Global};

/// What ViewChanges give for a view: the greatest stable number, the greatest number of a certificate,
/// which is the floor if none is above it, and a proposal for each number above the floor up to the top,
/// ascending, for the primary to sign.
#[derive(Debug, Drop)]
pub struct Opening {
    pub floor: SeqNo,
    pub top: SeqNo,
    pub entries: Vec<PrePrepare>,
}

/// A proposal for each number above the floor up to the top, ascending.
fn proposals(
    alloc: Global,
    view: View,
    changes: &[Checked],
    floor: u64,
    top: u64,
) -> Result<Vec<PrePrepare>, AllocError>
    ensures { (c : Configuration) (ms : List (Signed ViewChange)) → messages_of changes.now ≡ map (as_message bodies.ViewChange) ms
        → IfOk result (λ entries. entries.items ≡ map pre_prepare_of (left_from (setup_of c) view.0 ms floor top)) }
{
    let mut entries = Vec::new(alloc);
    for below in floor..top {
        let number = below + 1;
        entries.push(PrePrepare {
            view,
            number: SeqNo(number),
            digest: digest_at(number, changes),
        })?;
    }
    Ok(entries)
}

/// What these `ViewChange`s give for a view (Castro and Liskov 1999, section 4.4). The proposal at a
/// number has the digest of the certificate of the highest view there, of the first of those of one
/// view, else the null digest. The caller owes valid `ViewChange`s, which give at most 16 proposals;
/// messages of other kinds are passed over. It answers `Memory` alone.
pub fn new_view(alloc: Global, view: View, changes: &CheckedList) -> Result<Opening, ViewFault>
    ensures given { (ms : List (Signed ViewChange)) → changes.now.messages ≡ map (as_message bodies.ViewChange) ms
        → IfOk result (λ o. IsOpeningOf (setup_of changes.now.config) view.0 ms o) }
    ensures few { IsConfiguration changes.now.config → (ms : List (Signed ViewChange)) → changes.now.messages ≡ map (as_message bodies.ViewChange) ms
        → list_all (has_order (setup_of changes.now.config)) (bodies_in ms) ≡ true → IfOk result (λ o. length o.entries.items ≤ 16) }
    ensures valid { IsConfiguration changes.now.config → (n : NewView) → changes.now.messages ≡ map (as_message bodies.ViewChange) n.changes
        → IfOk result (λ o. IsSignedFrom (setup_of changes.now.config) view.0 o n → new_view_fault (setup_of changes.now.config) n ≡ None) }
    ensures memory { IfErr result (λ fault. fault ≡ Memory) }
{
    let changes = changes.as_slice();
    let floor = greatest_low(changes);
    let top = top_of(changes);
    let entries = proposals(alloc, view, changes, floor, top)?;
    Ok(Opening {
        floor: SeqNo(floor),
        top: SeqNo(top),
        entries,
    })
}
