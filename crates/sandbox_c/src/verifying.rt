//! The export that verifies.

ghost use Rattle.std.specs.Prelude.{◌≡◌, ◌⊎◌, ℕ, MatchResult, Some, None};
ghost use Rattle.bpf_model.specs.Faults.{number_of as fault_number};
ghost use Rattle.bpf_model.specs.Profiles.{profile_of};
ghost use Rattle.bpf_model.specs.Verdict.{AcceptsUnder, RefusesUnder};
ghost use Rattle.bpf_model.specs.declared.fault.VerifyFault.TheVariants.{Memory};
ghost use Rattle.bpf_model.specs.declared.profile.Profile.{Profile as Following};
ghost use Rattle.sandbox_c.specs.Verdicts.{IsVerdict};
ghost use Rattle.sandbox_c.specs.declared.held.Held.TheVariants as held;

use crate::handle::Handle;
use crate::held::Held;
use crate::status::Status;
use bpf_verifier::{Procedure, Profile, Refusal, VerifyFault, verify, verify2};
use std::alloc::Global;

/// What the verifier says of code.
#[repr(C)]
pub struct Verdict {
    /// The most steps that a call takes, of code that was accepted.
    pub bound: u32,
    /// Where the first fault is, of code that was refused.
    pub slot: u32,
}

/// Verifies code under the profile of a number, 1 or 2. The handle's former content is freed; where the status is 0 it
/// holds the procedure, else nothing.
#[unsafe(no_mangle)]
pub extern "C" fn bpfh_verify(
    alloc: Global,
    code: &[u8],
    profile: u8,
    procedure: &mut Handle,
    verdict: &mut Verdict,
) -> u32
    ensures { IsVerdict profile code.now result verdict.new.bound verdict.new.slot procedure.new.slot.inside }
{
    procedure.clear(alloc);
    let Some(profile) = Profile::of(profile) else {
        return Status::NoProfile.number();
    };
    match boxed(alloc, code, profile) {
        Ok((held, bound)) => {
            verdict.bound = bound;
            procedure.put(held);
            Status::Done.number()
        }
        Err(refusal) => {
            verdict.slot = refusal.slot;
            Status::Fault(refusal.fault).number()
        }
    }
}

/// The procedure of the code, in a box, and its bound.
fn boxed(alloc: Global, code: &[u8], profile: Profile) -> Result<(Box<Held>, u32), Refusal>
    ensures { MatchResult result
        (λ found. AcceptsUnder profile code.now found.1
        × (found.0.value ≡ held.Procedure (record { bytes = code.now; bound = found.1; profile = profile })))
        (λ refusal. (refusal.fault ≡ Memory) ⊎ RefusesUnder profile code.now refusal.fault refusal.slot) }
{
    let procedure = verified(alloc, code, profile)?;
    let bound = procedure.bound();
    match Box::new(alloc, Held::Procedure(procedure)) {
        Ok(held) => Ok((held, bound)),
        Err(_) => Err(Refusal {
            fault: VerifyFault::Memory,
            slot: 0,
        }),
    }
}

/// The procedure of the code, or its refusal.
pub fn verified(alloc: Global, code: &[u8], profile: Profile) -> Result<Procedure, Refusal>
    ensures { MatchResult result
        (λ procedure. AcceptsUnder profile code.now procedure.bound × (procedure.bytes ≡ code.now) × (procedure.profile ≡ profile))
        (λ refusal. (refusal.fault ≡ Memory) ⊎ RefusesUnder profile code.now refusal.fault refusal.slot) }
{
    match profile {
        Profile::One => verify(alloc, code),
        Profile::Two => verify2(alloc, code),
    }
}
