//! What is told of a world, and who is blamed: just what is defined, and its words.

ghost use Rattle.std.specs.Prelude.{◌≡◌, ◌++◌, ◌↔◌, ℕ, IfOk, OnOk, string_bytes};
ghost use Rattle.std.specs.List.{Contains};
ghost use Rattle.conflicts.specs.Claims.{IsConflict, claim_of};
ghost use Rattle.conflicts.specs.Leaves.{leaf_claim_of};
ghost use Rattle.pbft_codec.specs.Reading.{reading};
ghost use Rattle.world_lines.specs.Changes.{changes};
ghost use Rattle.world_lines.specs.Lines.{happening_line};
ghost use Rattle.world_lines.specs.Sayings.{said_in};

use crate::group::Group;
use conflicts::{Blame, Claim, Topic, claim_of, conflicts, leaf_claim_of};
use host_types::{Digest, ReplicaId, SeqNo, View};
use pbft_codec::{Body, Checkpoint};
use script_text::{Kind, Node};
use seal::{Checked, open};
use std::alloc::{AllocError, Global};
use std::test::Fail;
use world_lines::{Happening, Saying, Standing, changes, line_of, saying_in};
use world_script::Status;

/// The line of what happened.
fn told(alloc: Global, happening: &Happening) -> Result<String, AllocError>
    ensures { IfOk result (λ line. string_bytes line ≡ happening_line happening.now) }
{
    line_of(alloc, happening)
}

/// What bytes say, of the kind that a script gave them.
fn said(alloc: Global, kind: Option<Kind>, bytes: &[u8]) -> Result<Saying, AllocError>
    ensures { IfOk result (λ saying. saying ≡ said_in kind (reading bytes.now)) }
{
    saying_in(alloc, kind, bytes)
}

/// Adds what changed of a standing.
fn add_changes(standing: &Standing, happened: &mut Vec<Happening>) -> Result<(), AllocError>
    ensures { OnOk result (happened.new.items ≡ happened.old.items ++ changes standing.now) }
{
    changes(standing, happened)
}

/// What a message claims.
fn claim(message: &Checked) -> Option<Claim>
    ensures { result ≡ claim_of message.now.message }
{
    claim_of(message)
}

/// What a message claims of the leaf that signed it.
fn leaf_claim(message: &Checked) -> Option<Claim>
    ensures { result ≡ leaf_claim_of message.now }
{
    leaf_claim_of(message)
}

/// The places of messages that contradict each other, in pairs.
fn conflicts_of(alloc: Global, messages: &[Checked]) -> Result<Vec<(usize, usize)>, AllocError>
    ensures { IfOk result (λ pairs. (i j : ℕ) → Contains pairs.items (i, j) ↔ IsConflict messages.now i j) }
{
    conflicts(alloc, messages)
}

#[test]
fn bytes_that_are_lost_are_told(rt: HostRuntime) -> Result<(), Fail> {
    let lost = Happening::Lost {
        from: None,
        to: Node::Replica(ReplicaId(2)),
        saying: said(rt.alloc(), Some(Kind::Prepare), b"no message")?,
    };
    assert!(rt; told(rt.alloc(), &lost)?.as_str() == "- -x 2 prepare unreadable\n");
    Ok(())
}

/// A replica in a view, with nothing executed.
fn active_in(view: u32) -> Status {
    Status {
        view: View(view),
        active: true,
        low: SeqNo(0),
        executed: SeqNo(0),
        halted: None,
    }
}

#[test]
fn a_view_that_is_entered_is_told(rt: HostRuntime) -> Result<(), Fail> {
    let at = ReplicaId(1);
    let mut happened = Vec::new(rt.alloc());
    let (before, after) = (active_in(0), active_in(3));
    add_changes(&Standing { at, before, after }, &mut happened)?;
    let view = View(3);
    assert!(rt; happened.as_slice() == [Happening::Entered { at, view }].as_slice());
    Ok(())
}

/// A replica's Checkpoint of number 8.
fn checkpoint(group: &mut Group, id: u8, digest: Digest) -> Result<Checked, Fail> {
    let number = SeqNo(8);
    let bytes = group.say(id, Body::Checkpoint(Checkpoint { number, digest }))?;
    Ok(open(group.alloc, &group.config, bytes.as_slice())?)
}

#[test]
fn two_checkpoints_of_a_number_contradict_each_other(rt: HostRuntime) -> Result<(), Fail> {
    let mut group = Group::new(rt.alloc())?;
    let mut messages = Vec::new(rt.alloc());
    for (id, byte) in [(1, 7), (2, 8), (1, 8)] {
        messages.push(checkpoint(&mut group, id, Digest([byte; 32]))?)?;
    }
    let claimed = Claim {
        signer: 1,
        topic: Topic::Checkpoint { number: SeqNo(8) },
        digest: Digest([7; 32]),
    };
    assert!(rt; messages.first().and_then(|first| claim(first)) == Some(claimed));
    assert!(rt; conflicts_of(rt.alloc(), &messages)?.as_slice() == [(0, 2)].as_slice());
    Ok(())
}

/// What a message of a replica claims of the leaf that signed it, which is this one.
fn leaf_of(group: &mut Group, digest: Digest, leaf: u64) -> Result<Claim, Fail> {
    let message = checkpoint(group, 1, digest)?;
    match leaf_claim(&message) {
        Some(claim) if claim.topic == Topic::Leaf { leaf } => Ok(claim),
        _ => Err(Fail::new("another leaf")),
    }
}

#[test]
fn two_messages_of_a_leaf_contradict_each_other(rt: HostRuntime) -> Result<(), Fail> {
    let one = leaf_of(&mut Group::new(rt.alloc())?, Digest([7; 32]), 0)?;
    let mut again = Group::new(rt.alloc())?;
    let other = leaf_of(&mut again, Digest([8; 32]), 0)?;
    let later = leaf_of(&mut again, Digest([8; 32]), 1)?;
    assert!(rt; one.contradicts(&other));
    assert!(rt; !one.contradicts(&later));
    Ok(())
}

#[test]
fn a_leaf_that_signs_twice_is_told(rt: HostRuntime) -> Result<(), Fail> {
    let [one, other] = [7u8, 8].map(|byte| Claim {
        signer: 100,
        topic: Topic::Leaf { leaf: 17 },
        digest: Digest([byte; 32]),
    });
    let blamed = Happening::Blamed(Blame::Twice { one, other });
    assert!(rt; told(rt.alloc(), &blamed)?.as_str() == "blame 100 leaf 17 07070707 08080808\n");
    Ok(())
}
