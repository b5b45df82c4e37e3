//! Votes that come early, kept beside a replica.

ghost use Rattle.std.specs.Prelude.{◌≡◌, ◌⊎◌, Some, None, MatchResult};
ghost use Rattle.std.specs.Option.{option_map};
ghost use Rattle.handles.specs.Votes.{no_votes};
ghost use Rattle.member_calls.specs.Inside.{config_of, votes_of};
ghost use Rattle.member_calls.specs.Statuses.{number_of};
ghost use Rattle.member_calls.specs.Voting.{HeldIn, MovedIn, NextIn, Passes, TellsNext};
ghost use Rattle.member_calls.specs.declared.status.Status.TheVariants as statuses;

use crate::status::Status;
use handles::{DONE, Held, Votes, tell};
use host_types::{SeqNo, View};
use std::alloc::Global;

/// No votes yet, under a configuration, in a box.
pub fn new_votes(alloc: Global, held: &Held) -> Result<Box<Held>, Status>
    ensures { MatchResult result (λ boxed. Some (votes_of boxed.value) ≡ option_map (λ c. Some (no_votes c)) (config_of held.now))
        (λ status. (status ≡ statuses.Memory) ⊎ ((status ≡ statuses.NoConfig) × (config_of held.now ≡ None))) }
{
    let Held::Config(config) = held else {
        return Err(Status::NoConfig);
    };
    let Ok(votes) = Votes::new(alloc, config) else {
        return Err(Status::Memory);
    };
    match Box::new(alloc, Held::Votes(votes)) {
        Ok(boxed) => Ok(boxed),
        Err(_) => Err(Status::Memory),
    }
}

/// Opens the bytes of a message, and keeps the vote that they are where it comes early: `early` is 1 then, else 0.
pub fn hold(held: &mut Held, bytes: &[u8], early: &mut u32) -> Status
    ensures { HeldIn (Some held.old) bytes.now (number_of result) early.old early.new (Some held.new) }
{
    let Held::Votes(votes) = held else {
        return Status::NoVotes;
    };
    match votes.hold(bytes) {
        Ok(is_early) => {
            *early = u32::from(is_early);
            Status::Done
        }
        Err(fault) => Status::from(fault),
    }
}

/// The replica has this low mark and this view.
pub fn move_votes(held: &mut Held, low: SeqNo, view: View) -> Status
    ensures { MovedIn (Some held.old) low.0 view.0 (number_of result) (Some held.new) }
{
    let Held::Votes(votes) = held else {
        return Status::NoVotes;
    };
    votes.move_to(low, view);
    Status::Done
}

/// Tells the bytes of the first vote that is on time, and gives it up. Where the buffer is too short it stays the next one.
pub fn next_vote(held: &mut Held, message: &mut [u8], told: &mut u64) -> u32
    ensures { NextIn (Some held.old) result told.new message.old message.new (Some held.new) }
{
    let Held::Votes(votes) = held else {
        return Status::NoVotes.number();
    };
    tell_next(votes, message, told)
}

fn tell_next(votes: &mut Votes, message: &mut [u8], told: &mut u64) -> u32
    ensures { TellsNext votes.old result told.new message.old message.new votes.new }
{
    votes.ready();
    tell_ready(votes, message, told)
}

fn tell_ready(votes: &mut Votes, message: &mut [u8], told: &mut u64) -> u32
    ensures { Passes votes.old.next votes.old result told.new message.old message.new votes.new }
{
    let Some(next) = votes.next() else {
        return Status::NoEntry.number();
    };
    let status = tell(next.bytes(), message, told);
    if status == DONE {
        votes.pass();
    }
    status
}
