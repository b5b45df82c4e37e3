//! The lines that a script prints of messages.

ghost use Rattle.std.specs.Prelude.{◌≡◌, IfOk, string_bytes};
ghost use Rattle.world_queue.specs.Lines.{nothing_queued_line, refusal_line, reply_line};

use host_types::{ReplicaId, Reply};
use seal::SealFault;
use std::alloc::{AllocError, Global};

/// What a client has accepted.
pub fn line_of_reply(alloc: Global, reply: &Reply) -> Result<String, AllocError>
    ensures { IfOk result (λ line. string_bytes line ≡ reply_line reply.now) }
{
    let client = reply.client.0;
    let time = reply.time;
    let number = reply.number.0;
    let result = hex::encode(alloc, reply.result.as_slice())?;
    format!(in alloc; "client {client} time {time} number {number} result {result}\n")
}

/// Why a replica refuses bytes.
pub fn line_of_refusal(alloc: Global, id: ReplicaId, fault: SealFault) -> Result<String, AllocError>
    ensures { IfOk result (λ line. string_bytes line ≡ refusal_line id fault) }
{
    let id = id.0;
    format!(in alloc; "refused {id} {fault}\n")
}

/// What is printed where nothing is queued.
pub fn line_of_nothing_queued(alloc: Global) -> Result<String, AllocError>
    ensures { IfOk result (λ line. string_bytes line ≡ nothing_queued_line) }
{
    String::from_str(alloc, "nothing queued\n")
}
