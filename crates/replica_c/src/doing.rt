//! The export that tells what a replica did to its state.

ghost use Rattle.std.specs.Prelude.{◌≡◌};
ghost use Rattle.member_calls.specs.Doing.{DoneIn};
ghost use Rattle.member_calls.specs.Inside.{member_in};

use member_calls::{DoneItem, Handle, Status, done};
use std::alloc::Global;

/// Tells what the last step did to the replica's state, by its place from 0 on, and writes the result of an executed request.
/// Behind the last one the status is 62. Where the buffer is too short only `item` is written.
#[unsafe(no_mangle)]
pub extern "C" fn bpfh_replica_done(
    alloc: Global,
    replica: &mut Handle,
    index: u32,
    answer: &mut [u8],
    item: &mut DoneItem,
) -> u32
    ensures done { DoneIn (member_in replica.old.slot.inside) index result item.new answer.old answer.new }
    ensures kept { replica.new.slot.inside ≡ replica.old.slot.inside }
{
    let Some(held) = replica.take(alloc) else {
        return Status::NoReplica.number();
    };
    let status = done(&held, index, answer, item);
    replica.put(held);
    status
}
