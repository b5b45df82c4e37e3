//! The exports that keep what a replica sends again.

ghost use Rattle.std.specs.Prelude.{◌≡◌, ◌⊎◌, Some, None};
ghost use Rattle.member_calls.specs.Inside.{member_in, repeats_in};
ghost use Rattle.member_calls.specs.Repeating.{FollowedIn, NotedIn, RepeatIn};
ghost use Rattle.member_calls.specs.Words.{none_kept};

use member_calls::{Handle, Sent, Status, follow, new_repeats, no_replica, note, repeat};
use std::alloc::Global;

/// Makes what keeps the messages that a replica sends again, which are none before its first message. The handle's former content
/// is freed.
#[unsafe(no_mangle)]
pub extern "C" fn bpfh_repeats_new(alloc: Global, repeats: &mut Handle) -> u32
    ensures { ((result ≡ 0) × (repeats_in repeats.new.slot.inside ≡ Some none_kept)) ⊎ ((result ≡ 21) × (repeats.new.slot.inside ≡ None)) }
{
    repeats.clear(alloc);
    match new_repeats(alloc) {
        Ok(boxed) => {
            repeats.put(boxed);
            Status::Done.number()
        }
        Err(status) => status.number(),
    }
}

/// Notes a message that the replica's last step gave, by its place from 0 on. One that isn't the replica's own, or isn't sent again, is
/// passed over.
#[unsafe(no_mangle)]
pub extern "C" fn bpfh_repeats_note(
    alloc: Global,
    repeats: &mut Handle,
    replica: &mut Handle,
    index: u32,
) -> u32
    ensures noted { NotedIn repeats.old.slot.inside (member_in replica.old.slot.inside) index result repeats.new.slot.inside }
    ensures kept { replica.new.slot.inside ≡ replica.old.slot.inside }
{
    let Some(mut held) = repeats.take(alloc) else {
        return Status::NoRepeats.number();
    };
    let Some(member) = replica.take(alloc) else {
        let status = no_replica(&held);
        repeats.put(held);
        return status.number();
    };
    let status = note(&mut held, &member, index);
    repeats.put(held);
    replica.put(member);
    status.number()
}

/// Says that the replica has stepped, once what it gave was noted: a Fetch that what it took answers goes, the NewView by which it
/// has entered its view is kept, and what it doesn't send again any more goes.
#[unsafe(no_mangle)]
pub extern "C" fn bpfh_repeats_follow(
    alloc: Global,
    repeats: &mut Handle,
    replica: &mut Handle,
) -> u32
    ensures followed { FollowedIn repeats.old.slot.inside (member_in replica.old.slot.inside) result repeats.new.slot.inside }
    ensures kept { replica.new.slot.inside ≡ replica.old.slot.inside }
{
    let Some(mut held) = repeats.take(alloc) else {
        return Status::NoRepeats.number();
    };
    let Some(member) = replica.take(alloc) else {
        let status = no_replica(&held);
        repeats.put(held);
        return status.number();
    };
    let status = follow(&mut held, &member);
    repeats.put(held);
    replica.put(member);
    status.number()
}

/// Writes a message that is sent again, by its place from 0 on. Behind the last one the status is 62. Where the buffer is too short
/// only `sent` is written.
#[unsafe(no_mangle)]
pub extern "C" fn bpfh_repeats_get(
    alloc: Global,
    repeats: &mut Handle,
    index: u32,
    message: &mut [u8],
    sent: &mut Sent,
) -> u32
    ensures message { RepeatIn (repeats_in repeats.old.slot.inside) index result sent.new.kind sent.new.id sent.new.length message.old message.new }
    ensures kept { repeats.new.slot.inside ≡ repeats.old.slot.inside }
{
    let Some(held) = repeats.take(alloc) else {
        return Status::NoRepeats.number();
    };
    let status = repeat(&held, index, message, sent);
    repeats.put(held);
    status
}
