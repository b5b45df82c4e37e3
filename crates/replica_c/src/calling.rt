//! The exports that have a client ask and hear, and that tell which reply it accepts.

ghost use Rattle.std.specs.Prelude.{◌≡◌};
ghost use Rattle.member_calls.specs.Calling.{AskedIn, HeardIn, ReplyIn, RequestIn};
ghost use Rattle.member_calls.specs.Inside.{client_in};

use member_calls::{Accepted, Handle, Status, ask, hear, last_message, reply};
use std::alloc::Global;

/// Makes the signed request of an operation, which is then the session's open one; what was open is given up. Where the
/// signer has no leaf left the status is 301, and nothing is changed. Where memory runs out it is 21, and nothing is changed,
/// or 304, and a leaf may be used.
#[unsafe(no_mangle)]
pub extern "C" fn bpfh_client_request(alloc: Global, client: &mut Handle, operation: &[u8]) -> u32
    ensures { AskedIn client.old.slot.inside operation.now result client.new.slot.inside }
{
    let Some(mut held) = client.take(alloc) else {
        return Status::NoClient.number();
    };
    let status = ask(alloc, &mut held, operation);
    client.put(held);
    status.number()
}

/// Writes the bytes of the last request, which are for all replicas. Where the buffer is too short only the length is written.
#[unsafe(no_mangle)]
pub extern "C" fn bpfh_client_message(
    alloc: Global,
    client: &mut Handle,
    message: &mut [u8],
    told: &mut u64,
) -> u32
    ensures message { RequestIn (client_in client.old.slot.inside) result told.new message.old message.new }
    ensures kept { client.new.slot.inside ≡ client.old.slot.inside }
{
    let Some(held) = client.take(alloc) else {
        return Status::NoClient.number();
    };
    let status = last_message(&held, message, told);
    client.put(held);
    status
}

/// Opens the bytes of a message under the session's configuration, and offers it to the session: a reply to the open request
/// counts, and all else is passed over. Bytes that aren't opened change nothing.
#[unsafe(no_mangle)]
pub extern "C" fn bpfh_client_hear(alloc: Global, client: &mut Handle, bytes: &[u8]) -> u32
    ensures { HeardIn client.old.slot.inside bytes.now result client.new.slot.inside }
{
    let Some(mut held) = client.take(alloc) else {
        return Status::NoClient.number();
    };
    let status = hear(&mut held, bytes);
    client.put(held);
    status.number()
}

/// Writes the result of the reply to the last request that is accepted. Where none is yet, the status is 67. Where the buffer
/// is too short only `accepted` is written.
#[unsafe(no_mangle)]
pub extern "C" fn bpfh_client_accepted(
    alloc: Global,
    client: &mut Handle,
    answer: &mut [u8],
    accepted: &mut Accepted,
) -> u32
    ensures reply { ReplyIn (client_in client.old.slot.inside) result accepted.new.time accepted.new.number accepted.new.length answer.old answer.new }
    ensures kept { client.new.slot.inside ≡ client.old.slot.inside }
{
    let Some(held) = client.take(alloc) else {
        return Status::NoClient.number();
    };
    let status = reply(&held, answer, accepted);
    client.put(held);
    status
}
