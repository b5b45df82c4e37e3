//! The exports that keep votes which come early.

ghost use Rattle.std.specs.Prelude.{◌≡◌, ◌⊎◌, ◌<◌, Some, None};
ghost use Rattle.std.specs.Option.{option_map};
ghost use Rattle.member_calls.specs.Inside.{config_in, votes_in};
ghost use Rattle.member_calls.specs.Voting.{HeldIn, MovedIn, NextIn};
ghost use Rattle.member_calls.specs.Words.{no_votes};

use member_calls::{Handle, SeqNo, Status, View, hold, move_votes, new_votes, next_vote};
use std::alloc::Global;

/// Makes what keeps the votes that come early for a replica before its first message. The handle's former content is freed.
#[unsafe(no_mangle)]
pub extern "C" fn bpfh_votes_new(alloc: Global, config: &mut Handle, votes: &mut Handle) -> u32
    ensures status { (result ≡ 21) ⊎ ((result ≡ 52) × (config_in config.old.slot.inside ≡ None))
        ⊎ ((result ≡ 0) × (Some (votes_in votes.new.slot.inside) ≡ option_map (λ c. Some (no_votes c)) (config_in config.old.slot.inside))) }
    ensures none { 0 < result → votes.new.slot.inside ≡ None }
    ensures kept { config.new.slot.inside ≡ config.old.slot.inside }
{
    votes.clear(alloc);
    let Some(held) = config.take(alloc) else {
        return Status::NoConfig.number();
    };
    let made = new_votes(alloc, &held);
    config.put(held);
    match made {
        Ok(boxed) => {
            votes.put(boxed);
            Status::Done.number()
        }
        Err(status) => status.number(),
    }
}

/// Opens the bytes of a message, and keeps the vote that they are where it is for a number above the replica's high mark. `early`
/// is 1 then, and the replica isn't given the bytes now; else it is 0. It is written where the status is 0 alone.
#[unsafe(no_mangle)]
pub extern "C" fn bpfh_votes_hold(
    alloc: Global,
    votes: &mut Handle,
    bytes: &[u8],
    early: &mut u32,
) -> u32
    ensures { HeldIn votes.old.slot.inside bytes.now result early.old early.new votes.new.slot.inside }
{
    let Some(mut held) = votes.take(alloc) else {
        return Status::NoVotes.number();
    };
    let status = hold(&mut held, bytes, early);
    votes.put(held);
    status.number()
}

/// Says where the replica stands: votes that it can't record any more go.
#[unsafe(no_mangle)]
pub extern "C" fn bpfh_votes_move(alloc: Global, votes: &mut Handle, low: u64, view: u32) -> u32
    ensures { MovedIn votes.old.slot.inside low view result votes.new.slot.inside }
{
    let Some(mut held) = votes.take(alloc) else {
        return Status::NoVotes.number();
    };
    let status = move_votes(&mut held, SeqNo(low), View(view));
    votes.put(held);
    status.number()
}

/// Writes the bytes of the first vote that is on time, which is given up then: the replica is to take it. Where none is, the
/// status is 62. Where the buffer is too short only the length is written, and the vote stays the next one.
#[unsafe(no_mangle)]
pub extern "C" fn bpfh_votes_next(
    alloc: Global,
    votes: &mut Handle,
    message: &mut [u8],
    told: &mut u64,
) -> u32
    ensures { NextIn votes.old.slot.inside result told.new message.old message.new votes.new.slot.inside }
{
    let Some(mut held) = votes.take(alloc) else {
        return Status::NoVotes.number();
    };
    let status = next_vote(&mut held, message, told);
    votes.put(held);
    status
}
