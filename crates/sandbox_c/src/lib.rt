//! The sandbox for C: procedures in BPF code are verified and run over maps, behind handles that C keeps. Each export
//! repeats the clauses of the library's function over what the handles hold, and requires nothing of C but what the
//! header says (include/bpf_host_sandbox.h): lengths, numbers and the kinds of handles are tested, and each test has a
//! status.
#![tactic(auto)]

mod handle;
mod held;
mod maps;
mod running;
mod slot;
mod status;
mod texts;
mod verifying;

ghost use Rattle.std.specs.Prelude.{◌≡◌, None};

use crate::handle::Handle;
use std::alloc::Global;

/// Frees what a handle holds. One that holds nothing stays as it is.
#[unsafe(no_mangle)]
pub extern "C" fn bpfh_clear(alloc: Global, handle: &mut Handle)
    ensures { handle.new.slot.inside ≡ None }
{
    handle.clear(alloc);
}
