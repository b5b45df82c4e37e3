//! A NewView, and recording the Checkpoints in it.

ghost use Rattle.std.specs.Prelude.{◌≡◌, IfOk};

use crate::records::replicas::{INTERVAL, QUORUM, at, message, signed};
use anyhow::Result;
use checkpoints::Checkpoints;
use host_types::{Config, Digest, SeqNo, View};
use lms_tree::Signer;
use pbft_codec::{Body, Checkpoint, NewView, Sequence, ViewChange};
use seal::{Checked, nested_checkpoints};
use std::alloc::Global;
use std::sync::Arc;

/// The view that is entered.
const VIEW: View = View(1);

/// The number of the checkpoint that a replica's ViewChange proves, different for each of them.
fn low_of(id: u8) -> SeqNo {
    SeqNo((u64::from(id) + 1) * u64::from(INTERVAL))
}

/// The ViewChange of a replica, with a Checkpoint of each replica of a quorum.
fn view_change(alloc: Global, signers: &mut [Signer], id: u8) -> Result<ViewChange> {
    let checkpoint = Checkpoint {
        number: low_of(id),
        digest: Digest([7; 32]),
    };
    let mut proof = Vec::new(alloc);
    for other in 0..QUORUM {
        proof.push(signed(alloc, signers, other, checkpoint)?)?;
    }
    Ok(ViewChange {
        view: VIEW,
        low: checkpoint.number,
        checkpoints: Sequence::from_vec(proof),
        certificates: Sequence::from_vec(Vec::new(alloc)),
    })
}

/// A NewView of as many ViewChanges with as many Checkpoints each as there may be, all at different
/// numbers or of different replicas. A signer takes nine leaves at most.
pub(crate) fn new_view(
    alloc: Global,
    config: &Arc<Config>,
    signers: &mut [Signer],
) -> Result<Checked>
    ensures { IfOk result (λ m. m.config ≡ config.now.value) }
{
    let mut changes = Vec::new(alloc);
    for id in 0..QUORUM {
        let change = view_change(alloc, signers, id)?;
        changes.push(signed(alloc, signers, id, change)?)?;
    }
    let body = Body::NewView(NewView {
        view: VIEW,
        changes: Sequence::from_vec(changes),
        pre_prepares: Sequence::from_vec(Vec::new(alloc)),
    });
    message(alloc, config, signers, 1, body)
}

fn note(table: &mut Checkpoints, message: &Checked) -> Result<()>
    requires { message.now.config ≡ table.old.config }
    ensures { table.new.config ≡ table.old.config }
{
    if let Body::Checkpoint(_) = message.body() {
        table.note(message)?;
    }
    Ok(())
}

/// Records the Checkpoints in a message, as a replica does with those of a NewView that is valid, and
/// returns how many there are.
pub(crate) fn record(alloc: Global, table: &mut Checkpoints, message: &Checked) -> Result<usize>
    requires { message.now.config ≡ table.old.config }
{
    let inside = nested_checkpoints(alloc, message)?;
    for index in 0..inside.len() {
        if let Some(checkpoint) = at(&inside, index) {
            note(table, checkpoint)?;
        }
    }
    Ok(inside.len())
}

/// How many of the numbers are stable that the ViewChanges prove.
pub(crate) fn stable_numbers(table: &Checkpoints) -> usize {
    (0..QUORUM)
        .filter(|id| table.stable(low_of(*id)).is_some())
        .count()
}
