//! What a replica sends again, kept beside it.

ghost use Rattle.std.specs.Prelude.{◌≡◌, ℕ, OnErr, OnOk, Some, None, MatchResult};
ghost use Rattle.std.specs.Option.{option_copied};
ghost use Rattle.handles.specs.Repeating.{none_kept};
ghost use Rattle.handles.specs.declared.held.Held.TheVariants as kinds;
ghost use Rattle.member_calls.specs.Inside.{member_of, repeats_of};
ghost use Rattle.member_calls.specs.Repeating.{FollowedIn, NotedIn, Notes, RepeatIn, followed, receiver_of, taken_by};
ghost use Rattle.member_calls.specs.Statuses.{number_of};
ghost use Rattle.member_calls.specs.declared.status.Status.TheVariants as statuses;

use crate::status::Status;
use crate::stepping::{Sent, tell_message};
use handles::{Dest, Held, Input, Member, Repeats, Row};
use pbft_codec::Body;
use seal::Checked;
use std::alloc::{AllocError, Global};

/// What is sent again by a replica before its first message: nothing, in a box. The status is `Memory`.
pub fn new_repeats(alloc: Global) -> Result<Box<Held>, Status>
    ensures { MatchResult result (λ boxed. boxed.value ≡ kinds.Repeats none_kept) (λ status. status ≡ statuses.Memory) }
{
    match Box::new(alloc, Held::Repeats(Repeats::new(alloc))) {
        Ok(boxed) => Ok(boxed),
        Err(_) => Err(Status::Memory),
    }
}

/// Notes a message that a replica's last step gave, by its place from 0 on. One that isn't the replica's own is passed over.
pub fn note(held: &mut Held, replica: &Held, index: u32) -> Status
    ensures { NotedIn (Some held.old) (member_of replica.now) index (number_of result) (Some held.new) }
{
    let Held::Repeats(repeats) = held else {
        return Status::NoRepeats;
    };
    let Held::Member(member) = replica else {
        return Status::NoReplica;
    };
    match member.row() {
        Some(row) => note_output(repeats, row, index),
        None => Status::NoRow,
    }
}

fn note_output(repeats: &mut Repeats, row: &Row, index: u32) -> Status
    ensures { Notes repeats.old (Some row.now) index (number_of result) repeats.new }
{
    let Some(output) = row.outputs().get(index as usize) else {
        return Status::NoEntry;
    };
    if !output.own {
        return Status::Done;
    }
    match repeats.note(&output.message) {
        Ok(()) => Status::Done,
        Err(_) => Status::Memory,
    }
}

/// The replica has stepped: what it took may answer a Fetch, or be the NewView by which it has entered its view, and what it doesn't
/// send again any more goes.
pub fn follow(held: &mut Held, replica: &Held) -> Status
    ensures { FollowedIn (Some held.old) (member_of replica.now) (number_of result) (Some held.new) }
{
    let Held::Repeats(repeats) = held else {
        return Status::NoRepeats;
    };
    let Held::Member(member) = replica else {
        return Status::NoReplica;
    };
    match follow_step(repeats, member) {
        Ok(()) => Status::Done,
        Err(_) => Status::Memory,
    }
}

fn follow_step(repeats: &mut Repeats, member: &Member) -> Result<(), AllocError>
    ensures followed { OnOk result (repeats.new ≡ followed repeats.old member.now) }
    ensures unchanged { OnErr result (repeats.new ≡ repeats.old) }
{
    let status = member.replica().status();
    if let Some(message) = taken_by(member) {
        repeats.take(message, status.view, status.active)?;
    }
    repeats.move_to(status.low, status.executed, status.view);
    Ok(())
}

/// The message that a replica has taken last.
fn taken_by(member: &Member) -> Option<&Checked>
    ensures { option_copied result ≡ taken_by member.now.row }
{
    match member.row()?.input() {
        Input::Message(message) => Some(message),
        Input::Timeout => None,
    }
}

/// What is answered where no handle holds a replica.
pub fn no_replica(held: &Held) -> Status
    ensures noted { (index : ℕ) → NotedIn (Some held.now) None index (number_of result) (Some held.now) }
    ensures followed { FollowedIn (Some held.now) None (number_of result) (Some held.now) }
{
    match held {
        Held::Repeats(_) => Status::NoReplica,
        _ => Status::NoRepeats,
    }
}

/// Tells a message that is sent again, by its place from 0 on, and whom it is for. Where the buffer is too short only `sent` is
/// written.
pub fn repeat(held: &Held, index: u32, message: &mut [u8], sent: &mut Sent) -> u32
    ensures { RepeatIn (repeats_of held.now) index result sent.new.kind sent.new.id sent.new.length message.old message.new }
{
    let Held::Repeats(repeats) = held else {
        return Status::NoRepeats.number();
    };
    match repeats.get(index as usize) {
        Some(kept) => tell_message(receiver_of(kept.body()), kept, message, sent),
        None => Status::NoEntry.number(),
    }
}

/// Whom a message with this body is for, of those that are sent again.
fn receiver_of(body: &Body) -> Dest
    ensures { result ≡ receiver_of body.now }
{
    match body {
        Body::Reply(said) => Dest::Client(said.client),
        _ => Dest::All,
    }
}
