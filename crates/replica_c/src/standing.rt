//! The exports that tell where a replica stands, and its state.

ghost use Rattle.std.specs.Prelude.{◌≡◌};
ghost use Rattle.member_calls.specs.Inside.{member_in};
ghost use Rattle.member_calls.specs.Standing.{StandsIn, StateIn};

use member_calls::{Handle, Standing, Status, stand, tell_state};
use std::alloc::Global;

/// Tells where a replica stands. It is written where the status is 0 alone.
#[unsafe(no_mangle)]
pub extern "C" fn bpfh_replica_standing(
    alloc: Global,
    replica: &mut Handle,
    standing: &mut Standing,
) -> u32
    ensures standing { StandsIn (member_in replica.old.slot.inside) result standing.old standing.new }
    ensures kept { replica.new.slot.inside ≡ replica.old.slot.inside }
{
    let Some(held) = replica.take(alloc) else {
        return Status::NoReplica.number();
    };
    let status = stand(&held, standing);
    replica.put(held);
    status
}

/// Writes the canonical encoding of a replica's state, version 2. Where the buffer is too short only the length is written; once the
/// replica has halted the status is 63.
#[unsafe(no_mangle)]
pub extern "C" fn bpfh_replica_state(
    alloc: Global,
    replica: &mut Handle,
    state: &mut [u8],
    told: &mut u64,
) -> u32
    ensures state { StateIn (member_in replica.old.slot.inside) result told.new state.old state.new }
    ensures kept { replica.new.slot.inside ≡ replica.old.slot.inside }
{
    let Some(held) = replica.take(alloc) else {
        return Status::NoReplica.number();
    };
    let status = tell_state(&held, state, told);
    replica.put(held);
    status
}
