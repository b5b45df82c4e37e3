//! Replicas and clients for C: a group's members take bytes and give bytes, behind handles that C keeps, and C moves the bytes
//! between them. Each export repeats the clauses of the library's function over what the handles hold, and requires nothing
//! of C but what the header says (include/bpf_host_replica.h): lengths, numbers and the kinds of handles are tested, and each
//! test has a status. No export signs bytes that its caller gives.
#![tactic(auto)]

mod accounting;
mod auditing;
mod calling;
mod doing;
mod drafting;
mod joining;
mod keys;
mod opening;
mod repeating;
mod standing;
mod stepping;
mod voting;

ghost use Rattle.std.specs.Prelude.{◌≡◌, None};

use member_calls::Handle;
use std::alloc::Global;

/// Frees what a handle holds. One that holds nothing stays as it is.
#[unsafe(no_mangle)]
pub extern "C" fn bpfh_release(alloc: Global, handle: &mut Handle)
    ensures { handle.new.slot.inside ≡ None }
{
    handle.clear(alloc);
}
