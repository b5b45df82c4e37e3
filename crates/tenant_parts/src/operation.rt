//! What a client asks for: to install code, or to call a procedure; and doing it.

ghost use Rattle.std.specs.Prelude.{◌≡◌, ◌≤◌, ℕ, [], ◌∷◌, map, length, IfOk, MatchResult};
ghost use Rattle.bpf_model.specs.Verdict.{AcceptsUnder};
ghost use Rattle.bpf_model.specs.declared.fault.VerifyFault.TheVariants.{Memory};
ghost use Rattle.service_model.specs.Operations.{Installs, Calls, Does, operation_of, installed, called};
ghost use Rattle.tenant_parts.specs.Procedures.{procedure_of};
ghost use Rattle.tenant_parts.specs.ReadOperations.{meaning_of, result_byte};

use bpf_machine::{Finished, Procedure, Refusal, VerifyFault, run, verify, verify2};
use bpf_model::Profile;
use bpf_model::layout::ARGUMENTS_SIZE;
use host_types::ClientId;
use host_types::operation::{CALL, INSTALL, INSTALL2};
use std::alloc::{AllocError, Global};
use tenant_maps::TenantMap;

/// The most procedures of a tenant.
pub const MAX_PROCEDURES: usize = 64;

/// What a client asks for.
#[derive(Clone, Copy)]
pub(crate) enum Operation<'a> {
    /// To install this code under this profile.
    Install(Profile, &'a [u8]),
    /// To call the procedure of this id with these arguments.
    Call(u32, &'a [u8]),
    /// Nothing that this service knows.
    Bad,
}

impl<'a> Operation<'a> {
    /// Reads the bytes of an operation.
    pub(crate) fn read(bytes: &'a [u8]) -> Operation<'a>
        ensures { meaning_of result ≡ operation_of bytes.now }
    {
        let Some((kind, rest)) = bytes.split_first() else {
            return Operation::Bad;
        };
        if *kind == INSTALL {
            return Operation::Install(Profile::One, rest);
        }
        if *kind == INSTALL2 {
            return Operation::Install(Profile::Two, rest);
        }
        if *kind == CALL && rest.len() >= 4 {
            let procedure = u32::from_be_bytes([rest[0], rest[1], rest[2], rest[3]]);
            return Operation::Call(procedure, &rest[4..]);
        }
        Operation::Bad
    }
}

/// The first byte of a result; all but `Done` stand alone.
#[derive(Clone, Copy)]
enum ResultCode {
    Done = 0,
    BadOperation = 1,
    Refused = 2,
    NoProcedure = 3,
    TooManyProcedures = 4,
    ArgumentsTooLong = 5,
}

/// Does an operation, and returns its result.
pub(crate) fn perform(
    alloc: Global,
    procedures: &mut Vec<Procedure>,
    entries: &mut TenantMap,
    client: ClientId,
    operation: Operation<'_>,
) -> Result<Vec<u8>, AllocError>
    ensures does { IfOk result (λ bytes. Does client.0 (meaning_of operation.entry) (map procedure_of procedures.old.items) entries.old.entries (map procedure_of procedures.new.items) entries.new.entries bytes.items) }
    ensures few { length procedures.old.items ≤ 64 → length procedures.new.items ≤ 64 }
    ensures short { IfOk result (λ bytes. length bytes.items ≤ 265) }
{
    match operation {
        Operation::Install(profile, code) => install(alloc, procedures, profile, code),
        Operation::Call(procedure, arguments) => call(
            alloc, procedures, entries, client, procedure, arguments,
        ),
        Operation::Bad => code_alone(alloc, ResultCode::BadOperation),
    }
}

/// A result of one byte.
fn code_alone(alloc: Global, code: ResultCode) -> Result<Vec<u8>, AllocError>
    ensures { IfOk result (λ bytes. bytes.items ≡ result_byte code ∷ []) }
{
    [code as u8].to_vec(alloc)
}

/// Verifies code under a profile.
pub fn verify_under(alloc: Global, profile: Profile, code: &[u8]) -> Result<Procedure, Refusal>
    ensures accepted { IfOk result (λ p. (procedure_of p ≡ record { profile = profile; code = code.now }) × AcceptsUnder profile code.now p.bound) }
    ensures only { (bound : ℕ) → AcceptsUnder profile code.now bound →
        MatchResult result (λ p. p.bound ≡ bound) (λ refusal. refusal.fault ≡ Memory) }
{
    match profile {
        Profile::One => verify(alloc, code),
        Profile::Two => verify2(alloc, code),
    }
}

/// Installs code that the profile accepts as the tenant's next procedure.
fn install(
    alloc: Global,
    procedures: &mut Vec<Procedure>,
    profile: Profile,
    code: &[u8],
) -> Result<Vec<u8>, AllocError>
    ensures installs { IfOk result (λ bytes. Installs (map procedure_of procedures.old.items) (record { profile = profile; code = code.now }) (map procedure_of procedures.new.items) bytes.items) }
    ensures few { length procedures.old.items ≤ 64 → length procedures.new.items ≤ 64 }
    ensures short { IfOk result (λ bytes. length bytes.items ≤ 265) }
{
    let id = procedures.len();
    if id >= MAX_PROCEDURES {
        return code_alone(alloc, ResultCode::TooManyProcedures);
    }
    match verify_under(alloc, profile, code) {
        Ok(procedure) => {
            procedures.push(procedure)?;
            installed(alloc, id as u32)
        }
        Err(refusal) => match refusal.fault {
            VerifyFault::Memory => Err(AllocError),
            _ => code_alone(alloc, ResultCode::Refused),
        },
    }
}

/// The result of an installation.
#[tactic(auto, unfolding(service_model::specs::Words::u32_bytes))]
fn installed(alloc: Global, id: u32) -> Result<Vec<u8>, AllocError>
    ensures value { IfOk result (λ bytes. bytes.items ≡ installed id) }
    ensures short { IfOk result (λ bytes. length bytes.items ≤ 265) }
{
    let mut bytes = code_alone(alloc, ResultCode::Done)?;
    bytes.extend_from_slice(&id.to_be_bytes())?;
    Ok(bytes)
}

/// Runs the procedure of this id, called by a client.
fn call(
    alloc: Global,
    procedures: &[Procedure],
    entries: &mut TenantMap,
    client: ClientId,
    id: u32,
    args: &[u8],
) -> Result<Vec<u8>, AllocError>
    ensures calls { IfOk result (λ bytes. Calls client.0 (map procedure_of procedures.now) id args.now entries.old.entries entries.new.entries bytes.items) }
    ensures short { IfOk result (λ bytes. length bytes.items ≤ 265) }
{
    let id = id as usize;
    if id >= procedures.len() {
        return code_alone(alloc, ResultCode::NoProcedure);
    }
    if args.len() > ARGUMENTS_SIZE {
        return code_alone(alloc, ResultCode::ArgumentsTooLong);
    }
    let procedure = &procedures[id];
    let finished = run(procedure, args, client, entries)?;
    returned(alloc, &finished)
}

/// The result of a call.
#[tactic(auto, unfolding(service_model::specs::Words::u64_bytes))]
fn returned(alloc: Global, finished: &Finished) -> Result<Vec<u8>, AllocError>
    ensures value { IfOk result (λ bytes. bytes.items ≡ called finished.now.result finished.now.out.items) }
    ensures short { IfOk result (λ bytes. length bytes.items ≤ 265) }
{
    let mut bytes = code_alone(alloc, ResultCode::Done)?;
    bytes.extend_from_slice(&finished.result.to_be_bytes())?;
    bytes.extend_from_slice(finished.out.as_slice())?;
    Ok(bytes)
}
