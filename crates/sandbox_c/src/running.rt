//! The export that runs a procedure over a map.

ghost use Rattle.std.specs.Prelude.{◌≡◌, ◌≢◌, ◌⊎◌, ◌<◌, ◌≤◌, ℕ, List, length, take, Some, None, OnOk, OnErr, IfErr};
ghost use Rattle.sandbox_c.specs.Inside.{code_of, entries_of, code_in, map_in};
ghost use Rattle.sandbox_c.specs.RunAnswers.{HasRunIn, HasStoppedIn, RunRefused, run_status, ended_so};
ghost use Rattle.sandbox_c.specs.Statuses.{number_of};
ghost use Rattle.sandbox_c.specs.declared.status.Status.TheVariants.{Done};

use crate::handle::Handle;
use crate::held::Held;
use crate::status::Status;
use bpf_machine::{MAX_OUTPUT, run};
use bpf_model::layout::ARGUMENTS_SIZE;
use bpf_verifier::VerifyFault;
use handle_parts::put_front;
use host_types::ClientId;
use std::alloc::Global;

/// How a call ended.
#[repr(C)]
pub struct Ended {
    /// r0 at the last exit.
    pub value: u64,
    /// How many steps it took.
    pub steps: u32,
    /// How many bytes it emitted.
    pub length: u32,
}

/// Runs a procedure with argument bytes, called by a client, over a map. Where the status is 0 the map is that behind the
/// run, the output's first bytes are those that it emitted, and `ended` says how many. Where memory ran out for a new
/// entry the map is that just before the put. Else the map is as it was.
#[unsafe(no_mangle)]
pub extern "C" fn bpfh_run(
    alloc: Global,
    procedure: &mut Handle,
    map: &mut Handle,
    client: u32,
    args: &[u8],
    out: &mut [u8],
    ended: &mut Ended,
) -> u32
    ensures run { result ≡ 0 → HasRunIn procedure.old.slot.inside map.old.slot.inside map.new.slot.inside args.now client
        (ended_so ended.new.value ended.new.steps (take ended.new.length out.new)) }
    ensures stopped { result ≡ 21 →
        HasStoppedIn procedure.old.slot.inside map.old.slot.inside map.new.slot.inside args.now client }
    ensures refused { (result ≡ 0) ⊎ (result ≡ 21) ⊎ (map.new.slot.inside ≡ map.old.slot.inside) }
    ensures status { let wrong = run_status (code_in procedure.old.slot.inside) (map_in map.old.slot.inside) args.now
        (length out.old) in (((result ≡ 0) ⊎ (result ≡ 21)) × (wrong ≡ Done)) ⊎ ((wrong ≢ Done) × (result ≡ number_of wrong)) }
    ensures untouched { 0 < result → (out.new ≡ out.old) × (ended.new ≡ ended.old) }
    ensures kept { procedure.new.slot.inside ≡ procedure.old.slot.inside }
{
    let Some(code) = procedure.take(alloc) else {
        return Status::NoProcedure.number();
    };
    let Some(mut held) = map.take(alloc) else {
        let status = missing(&code);
        procedure.put(code);
        return status.number();
    };
    let finished = run_over(&code, &mut held, ClientId(client), args, out, ended);
    procedure.put(code);
    map.put(held);
    match finished {
        Ok(()) => Status::Done.number(),
        Err(status) => status.number(),
    }
}

/// Why nothing runs where there is no map.
fn missing(code: &Held) -> Status
    ensures value { (args : List ℕ) (room : ℕ) → result ≡ run_status (code_of code.now) None args room }
    ensures wrong { result ≢ Done }
{
    match code {
        Held::Procedure(_) => Status::NoMap,
        _ => Status::NoProcedure,
    }
}

/// Runs the one over the other.
fn run_over(
    code: &Held,
    map: &mut Held,
    client: ClientId,
    args: &[u8],
    out: &mut [u8],
    ended: &mut Ended,
) -> Result<(), Status>
    ensures run { OnOk result (HasRunIn (Some code.now) (Some map.old) (Some map.new) args.now client.0
        (ended_so ended.new.value ended.new.steps (take ended.new.length out.new))) }
    ensures right { OnOk result
        (run_status (code_of code.now) (entries_of map.old) args.now (length out.old) ≡ Done) }
    ensures refused { IfErr result (λ status. RunRefused status
        (run_status (code_of code.now) (entries_of map.old) args.now (length out.old)) code.now map.old map.new args.now client.0) }
    ensures untouched { OnErr result ((out.new ≡ out.old) × (ended.new ≡ ended.old)) }
{
    let Held::Procedure(procedure) = code else {
        return Err(Status::NoProcedure);
    };
    let Held::Map(map) = map else {
        return Err(Status::NoMap);
    };
    if args.len() > ARGUMENTS_SIZE {
        return Err(Status::ArgumentsTooLong);
    }
    if out.len() < MAX_OUTPUT {
        return Err(Status::BufferTooShort);
    }
    match run(procedure, args, client, map) {
        Ok(finished) => {
            put_front(out, finished.out.as_slice());
            ended.value = finished.result;
            ended.steps = finished.steps;
            ended.length = finished.out.len() as u32;
            Ok(())
        }
        Err(_) => Err(Status::Fault(VerifyFault::Memory)),
    }
}
