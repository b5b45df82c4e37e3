//! What bytes and timeouts make of a replica, and what its last step gave.

ghost use Rattle.std.specs.Prelude.{◌≡◌, ◌⊎◌, ◌<◌, Some, None};
ghost use Rattle.member_calls.specs.Inside.{member_of};
ghost use Rattle.member_calls.specs.Statuses.{number_of};
ghost use Rattle.member_calls.specs.Stepping.{MessageTold, OutputIn, OutputOf, OutputTold, TimedOutIn, TookIn, WaitsIn, id_of, kind_of};

use crate::status::Status;
use handles::{Dest, Held, Output, Row, tell};
use seal::Checked;
use std::alloc::Global;

/// Whom a message is for, and how long it is.
#[repr(C)]
pub struct Sent {
    /// 0 for all other replicas, 1 for a replica, 2 for a client.
    pub kind: u32,
    /// The id of the replica or the client.
    pub id: u32,
    /// How many bytes the message has.
    pub length: u64,
}

/// Has a replica take the message that bytes are. Bytes that aren't opened change nothing.
pub fn take(held: &mut Held, bytes: &[u8]) -> Status
    ensures { TookIn (Some held.old) bytes.now (number_of result) (Some held.new) }
{
    let Held::Member(member) = held else {
        return Status::NoReplica;
    };
    match member.take(bytes) {
        Ok(()) => Status::Done,
        Err(fault) => Status::from(fault),
    }
}

/// Has a replica take a timeout.
pub fn time_out(held: &mut Held) -> Status
    ensures { TimedOutIn (Some held.old) (number_of result) (Some held.new) }
{
    let Held::Member(member) = held else {
        return Status::NoReplica;
    };
    match member.timeout() {
        Ok(()) => Status::Done,
        Err(halt) => Status::Halted(halt),
    }
}

/// Opens the bytes of a message, and tells whether a replica waits for it: `waits` is 1 where they are a request that its state
/// hasn't answered, else 0.
pub fn waits_for(held: &Held, bytes: &[u8], waits: &mut u32) -> Status
    ensures { WaitsIn (member_of held.now) bytes.now (number_of result) waits.old waits.new }
{
    let Held::Member(member) = held else {
        return Status::NoReplica;
    };
    match member.waits_for(bytes) {
        Ok(is_waited_for) => {
            *waits = u32::from(is_waited_for);
            Status::Done
        }
        Err(fault) => Status::from(fault),
    }
}

/// Tells a message of what the last step gave, by its place from 0 on. Where the buffer is too short only `sent` is written.
pub fn output(held: &Held, index: u32, message: &mut [u8], sent: &mut Sent) -> u32
    ensures { OutputIn (member_of held.now) index result sent.new.kind sent.new.id sent.new.length message.old message.new }
{
    let Held::Member(member) = held else {
        return Status::NoReplica.number();
    };
    match member.row() {
        Some(row) => output_of(row, index, message, sent),
        None => Status::NoRow.number(),
    }
}

fn output_of(row: &Row, index: u32, message: &mut [u8], sent: &mut Sent) -> u32
    ensures { OutputOf (Some row.now) index result sent.new.kind sent.new.id sent.new.length message.old message.new }
{
    match row.outputs().get(index as usize) {
        Some(output) => tell_output(output, message, sent),
        None => Status::NoEntry.number(),
    }
}

fn tell_output(output: &Output, message: &mut [u8], sent: &mut Sent) -> u32
    ensures { OutputTold (Some output.now) result sent.new.kind sent.new.id sent.new.length message.old message.new }
{
    tell_message(output.to, &output.message, message, sent)
}

/// Tells a message, and whom it is for.
pub(crate) fn tell_message(to: Dest, told: &Checked, message: &mut [u8], sent: &mut Sent) -> u32
    ensures { MessageTold to told.now result sent.new.kind sent.new.id sent.new.length message.old message.new }
{
    sent.kind = kind_of(to);
    sent.id = id_of(to);
    tell(told.bytes(), message, &mut sent.length)
}

fn kind_of(to: Dest) -> u32
    ensures { result ≡ kind_of to }
{
    match to {
        Dest::All => 0,
        Dest::Replica(_) => 1,
        Dest::Client(_) => 2,
    }
}

fn id_of(to: Dest) -> u32
    ensures { result ≡ id_of to }
{
    match to {
        Dest::All => 0,
        Dest::Replica(id) => u32::from(id.0),
        Dest::Client(id) => id.0,
    }
}
