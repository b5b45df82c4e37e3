//! What a client's session asks and hears, and which reply it accepts.

ghost use Rattle.std.specs.Prelude.{◌≡◌, Some};
ghost use Rattle.member_calls.specs.Calling.{AskedIn, HeardIn, ReplyIn, ReplyTold, RequestIn, RequestTold};
ghost use Rattle.member_calls.specs.Inside.{client_of};
ghost use Rattle.member_calls.specs.Statuses.{number_of};

use crate::status::Status;
use handles::{Held, tell};
use host_types::{Bytes, Reply};
use std::alloc::Global;

/// The most bytes of an operation.
const MAX_OPERATION: usize = 1_048_576;

/// The reply that is accepted.
#[repr(C)]
pub struct Accepted {
    /// The time of the request.
    pub time: u64,
    /// The number at which it was executed.
    pub number: u64,
    /// How many bytes the result has.
    pub length: u64,
}

/// Has a session make the signed request of an operation, which is then its open one. `NoClient` comes where nothing of the
/// kind is held, then `OperationTooLong`, then `Session` with what the session says; with all but its `Memory` the session
/// stays as it was, and there a leaf may be used.
pub fn ask(alloc: Global, held: &mut Held, operation: &[u8]) -> Status
    ensures { AskedIn (Some held.old) operation.now (number_of result) (Some held.new) }
{
    let Held::Client(client) = held else {
        return Status::NoClient;
    };
    if operation.len() > MAX_OPERATION {
        return Status::OperationTooLong;
    }
    let Ok(operation) = Vec::from_slice(alloc, operation) else {
        return Status::Memory;
    };
    match client.request(Bytes::from_vec(operation)) {
        Ok(()) => Status::Done,
        Err(fault) => Status::Session(fault),
    }
}

/// Tells the bytes of the session's last request.
pub fn last_message(held: &Held, message: &mut [u8], told: &mut u64) -> u32
    ensures { RequestIn (client_of held.now) result told.new message.old message.new }
{
    let Held::Client(client) = held else {
        return Status::NoClient.number();
    };
    match client.session().last_request() {
        Some(request) => tell(request.bytes(), message, told),
        None => Status::NoRequest.number(),
    }
}

/// Has a session take the message that bytes are. Bytes that aren't opened change nothing.
pub fn hear(held: &mut Held, bytes: &[u8]) -> Status
    ensures { HeardIn (Some held.old) bytes.now (number_of result) (Some held.new) }
{
    let Held::Client(client) = held else {
        return Status::NoClient;
    };
    match client.hear(bytes) {
        Ok(()) => Status::Done,
        Err(fault) => Status::from(fault),
    }
}

/// Tells the reply to the session's last request that it accepts. Where the buffer is too short only `accepted` is written.
pub fn reply(held: &Held, buffer: &mut [u8], accepted: &mut Accepted) -> u32
    ensures { ReplyIn (client_of held.now) result accepted.new.time accepted.new.number accepted.new.length buffer.old buffer.new }
{
    let Held::Client(client) = held else {
        return Status::NoClient.number();
    };
    match client.session().accepted() {
        Some(reply) => tell_reply(reply, buffer, accepted),
        None => Status::NoReply.number(),
    }
}

fn tell_reply(reply: &Reply, buffer: &mut [u8], accepted: &mut Accepted) -> u32
    ensures { ReplyTold (Some reply.now) result accepted.new.time accepted.new.number accepted.new.length buffer.old buffer.new }
{
    accepted.time = reply.time;
    accepted.number = reply.number.0;
    tell(reply.result.as_slice(), buffer, &mut accepted.length)
}
