//! The exports over texts: why code is refused, and the assembler's.

ghost use Rattle.std.specs.Prelude.{◌≡◌, ◌≤◌, ◌<◌, ◌⊎◌, ◌↔◌, None, length};
ghost use Rattle.bpf_model.specs.Profiles.{profile_of};
ghost use Rattle.sandbox_c.specs.Texts.{IsDisassembly, IsAssembled};

use crate::status::Status;
use crate::verifying::verified;
use bpf_asm::{AsmKind, assemble, print};
use bpf_decode::{decode_all, encode_all};
use bpf_verifier::{Profile, VerifyFault};
use code_commands::{CodeFailure, CodeForm, sentence_for};
use handle_parts::tell;
use std::alloc::{AllocError, Global};

/// Writes why a profile refuses code, as a sentence without a line end, and how many bytes that takes: none where the code
/// is accepted. Where the buffer is too short nothing is written but that number.
#[unsafe(no_mangle)]
pub extern "C" fn bpfh_explain(
    alloc: Global,
    code: &[u8],
    profile: u8,
    text: &mut [u8],
    told: &mut u64,
) -> u32
    ensures written { result ≡ 0 → told.new ≤ length text.new }
    ensures short { result ≡ 35 → length text.old < told.new }
    ensures untouched { 0 < result → text.new ≡ text.old }
    ensures profile { (result ≡ 31) ↔ (profile_of profile ≡ None) }
{
    let Some(profile) = Profile::of(profile) else {
        return Status::NoProfile.number();
    };
    match reason(alloc, profile, code) {
        Ok(Some(reason)) => tell(reason.as_bytes(), text, told),
        Ok(None) => tell(&[], text, told),
        Err(_) => Status::Fault(VerifyFault::Memory).number(),
    }
}

/// Why a profile refuses code, if it does. The error is that memory ran out.
fn reason(alloc: Global, profile: Profile, code: &[u8]) -> Result<Option<String>, AllocError> {
    let failure = match verified(alloc, code, profile) {
        Ok(_) => return Ok(None),
        Err(refusal) => CodeFailure::from(refusal),
    };
    match failure {
        CodeFailure::Memory => Err(AllocError),
        _ => sentence_for(alloc, CodeForm::Raw, profile, code, &failure),
    }
}

/// Writes the text of code, a line for each instruction, and how many bytes it has; of bytes that are no code, the slot of
/// the first fault. Where the buffer is too short nothing is written but the number of bytes.
#[unsafe(no_mangle)]
pub extern "C" fn bpfh_disassemble(
    alloc: Global,
    code: &[u8],
    text: &mut [u8],
    told: &mut u64,
    slot: &mut u32,
) -> u32
    ensures { IsDisassembly code.now result told.new slot.new text.old text.new }
{
    match decode_all(alloc, code) {
        Ok(insns) => match print(alloc, &insns) {
            Ok(lines) => tell(lines.as_bytes(), text, told),
            Err(_) => Status::Fault(VerifyFault::Memory).number(),
        },
        Err(refusal) => {
            *slot = refusal.slot;
            Status::Fault(VerifyFault::from(refusal.fault)).number()
        }
    }
}

/// Writes the code of an assembler text, and how many bytes it has; of a text with a fault, the line of the first one, from
/// 1. Where the buffer is too short nothing is written but the number of bytes.
#[unsafe(no_mangle)]
pub extern "C" fn bpfh_assemble(
    alloc: Global,
    text: &[u8],
    code: &mut [u8],
    told: &mut u64,
    line: &mut u32,
) -> u32
    ensures { IsAssembled text.now result told.new line.new code.old code.new }
{
    match assemble(alloc, text) {
        Ok(insns) => match encode_all(alloc, &insns) {
            Ok(bytes) => tell(&bytes, code, told),
            Err(_) => Status::Fault(VerifyFault::Memory).number(),
        },
        Err(fault) => {
            *line = fault.line;
            match fault.kind {
                AsmKind::Memory => Status::Fault(VerifyFault::Memory).number(),
                kind => Status::Line(kind).number(),
            }
        }
    }
}
