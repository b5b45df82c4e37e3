//! Where a replica stands, and its state.

ghost use Rattle.member_calls.specs.Inside.{member_of};
ghost use Rattle.member_calls.specs.Standing.{StandsIn, StateIn};

use crate::status::Status;
use handles::{Held, tell};
use std::alloc::Global;

/// Where a replica stands after its last step.
#[repr(C)]
pub struct Standing {
    /// The low water mark.
    pub low: u64,
    /// The last executed number.
    pub executed: u64,
    pub view: u32,
    /// 1 where it is active in the view, 0 where it is changing to it.
    pub active: u32,
    /// Why it has halted: 1 for a signer without leaves, 2 for memory, 3 for the last view or number; 0 while it continues.
    pub halted: u32,
    /// How many leaves of its signer have not signed; none once it has halted.
    pub leaves: u32,
}

/// Tells where a replica stands.
pub fn stand(held: &Held, standing: &mut Standing) -> u32
    ensures { StandsIn (member_of held.now) result standing.old standing.new }
{
    let Held::Member(member) = held else {
        return Status::NoReplica.number();
    };
    let status = member.replica().status();
    standing.low = status.low.0;
    standing.executed = status.executed.0;
    standing.view = status.view.0;
    standing.active = u32::from(status.active);
    standing.halted = match status.halted {
        Some(halt) => u32::from(halt.number()),
        None => 0,
    };
    standing.leaves = member.replica().leaves_left();
    Status::Done.number()
}

/// Tells the canonical encoding of a replica's state, version 2.
pub fn tell_state(held: &Held, buffer: &mut [u8], told: &mut u64) -> u32
    ensures { StateIn (member_of held.now) result told.new buffer.old buffer.new }
{
    let Held::Member(member) = held else {
        return Status::NoReplica.number();
    };
    let Some(state) = member.replica().state() else {
        return Status::NoState.number();
    };
    match state.to_bytes() {
        Ok(bytes) => tell(&bytes, buffer, told),
        Err(_) => Status::Memory.number(),
    }
}
