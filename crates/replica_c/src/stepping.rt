//! The exports that have a replica step, and that tell what it did.

ghost use Rattle.std.specs.Prelude.{◌≡◌};
ghost use Rattle.member_calls.specs.Inside.{member_in};
ghost use Rattle.member_calls.specs.Stepping.{OutputIn, TimedOutIn, TookIn, WaitsIn};

use member_calls::{Handle, Sent, Status, output, take, time_out, waits_for};
use std::alloc::Global;

/// Opens the bytes of a message under the replica's configuration, and has the replica take it. What it did stays inside
/// until the next step. Bytes that aren't opened change nothing.
#[unsafe(no_mangle)]
pub extern "C" fn bpfh_replica_take(alloc: Global, replica: &mut Handle, bytes: &[u8]) -> u32
    ensures { TookIn replica.old.slot.inside bytes.now result replica.new.slot.inside }
{
    let Some(mut held) = replica.take(alloc) else {
        return Status::NoReplica.number();
    };
    let status = take(&mut held, bytes);
    replica.put(held);
    status.number()
}

/// Has the replica take a timeout. What it did stays inside until the next step.
#[unsafe(no_mangle)]
pub extern "C" fn bpfh_replica_timeout(alloc: Global, replica: &mut Handle) -> u32
    ensures { TimedOutIn replica.old.slot.inside result replica.new.slot.inside }
{
    let Some(mut held) = replica.take(alloc) else {
        return Status::NoReplica.number();
    };
    let status = time_out(&mut held);
    replica.put(held);
    status.number()
}

/// Opens the bytes of a message, and tells whether the replica waits for it: `waits` is 1 where they are a request that its
/// state hasn't answered, else 0. It is written where the status is 0 alone.
#[unsafe(no_mangle)]
pub extern "C" fn bpfh_replica_waits(
    alloc: Global,
    replica: &mut Handle,
    bytes: &[u8],
    waits: &mut u32,
) -> u32
    ensures waits { WaitsIn (member_in replica.old.slot.inside) bytes.now result waits.old waits.new }
    ensures kept { replica.new.slot.inside ≡ replica.old.slot.inside }
{
    let Some(held) = replica.take(alloc) else {
        return Status::NoReplica.number();
    };
    let status = waits_for(&held, bytes, waits);
    replica.put(held);
    status.number()
}

/// Writes a message of what the last step gave, by its place from 0 on. Behind the last one the status is 62. Where the buffer
/// is too short only `sent` is written.
#[unsafe(no_mangle)]
pub extern "C" fn bpfh_replica_output(
    alloc: Global,
    replica: &mut Handle,
    index: u32,
    message: &mut [u8],
    sent: &mut Sent,
) -> u32
    ensures output { OutputIn (member_in replica.old.slot.inside) index result sent.new.kind sent.new.id sent.new.length message.old message.new }
    ensures kept { replica.new.slot.inside ≡ replica.old.slot.inside }
{
    let Some(held) = replica.take(alloc) else {
        return Status::NoReplica.number();
    };
    let status = output(&held, index, message, sent);
    replica.put(held);
    status
}
