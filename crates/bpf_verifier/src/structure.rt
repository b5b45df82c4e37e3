//! The structure of the code: what is wrong with an instruction at its slot, reached or not.

ghost use Rattle.std.specs.Prelude.{◌≡◌, ℕ, ◌≤◌, ◌<◌, ◌==◌, true, false, nat_le, pos, if◌then◌else◌, List, length, Some, None, OnOk, IfErr};
ghost use Rattle.std.specs.Option.{is_none};
ghost use Rattle.bpf_decode.specs.declared.insn.Insn.{Insn};
ghost use Rattle.bpf_model.specs.Code.{insns_by_slot};
ghost use Rattle.bpf_model.specs.Verdict.{insn_structure_fault, structure_fault, is_backward, leads_outside, IsFirst};
ghost use Rattle.map_helpers.specs.Helpers.{helper_of};
ghost use Rattle.bpf_verifier.specs.Reading.{IsPlain};
ghost use Rattle.bpf_verifier.specs.Sweep.{IsStructured};

use crate::slots::{begins_at, target_of};
use bpf_decode::{Insn, Reg};
use bpf_model::layout::FRAME_POINTER;
use bpf_model::{Refusal, VerifyFault};
use map_helpers::Helper;

/// Whether an instruction is known to have no fault, as it is read: before so many slots more, in code where
/// one instruction begins at each.
#[inline(always)]
pub fn is_plain(insn: &Insn, behind: usize) -> bool
    requires { behind ≤ 1024 }
    ensures { result ≡ true → IsPlain behind insn.now }
{
    match insn {
        Insn::Alu { dst, .. } | Insn::Swap { dst, .. } | Insn::Load { dst, .. } => {
            behind > 0 && dst.number != FRAME_POINTER
        }
        Insn::StoreImm { .. } | Insn::Store { .. } => behind > 0,
        Insn::Jump { offset } => leads_ahead(i32::from(*offset), behind),
        Insn::JumpLong { offset } => leads_ahead(*offset, behind),
        Insn::Test { offset, .. } => leads_ahead(i32::from(*offset), behind),
        Insn::CallHelper { helper } => behind > 0 && Helper::of(*helper).is_some(),
        Insn::Exit => true,
        Insn::CallLocal { .. } | Insn::LoadImm { .. } => false,
    }
}

/// Whether an offset leads to one of so many slots behind: as a number without a sign, one that leads back is
/// great.
#[inline(always)]
fn leads_ahead(offset: i32, behind: usize) -> bool
    requires { behind ≤ 1024 }
    ensures { result ≡ true → (n : ℕ) × (offset ≡ pos n) × (n < behind) }
{
    (offset.cast_unsigned() as usize) < behind
}

/// Checks what each slot holds, whether it is reached or not, and returns the first fault.
pub fn check_structure(slots: &[Option<Insn>]) -> Result<(), Refusal>
    requires { length slots.now ≤ 1024 }
    ensures right { OnOk result ((code : List Insn) → slots.now ≡ insns_by_slot code →
        IsStructured code) }
    ensures refused { IfErr result (λ refusal. (code : List Insn) → slots.now ≡ insns_by_slot code →
        IsFirst (structure_fault code) refusal.fault refusal.slot) }
{
    for slot in 0..slots.len() {
        if let Some(fault) = slot_structure_fault(slots, slot) {
            return Err(Refusal {
                fault,
                slot: slot as u32,
            });
        }
    }
    Ok(())
}

/// What is wrong with what a slot holds.
fn slot_structure_fault(slots: &[Option<Insn>], slot: usize) -> Option<VerifyFault>
    requires few { length slots.now ≤ 1024 }
    requires inside { slot < length slots.now }
    ensures { (code : List Insn) → slots.now ≡ insns_by_slot code → result ≡
        structure_fault code slot }
{
    match &slots[slot] {
        Some(insn) => insn_structure_fault(slots, slot, insn),
        None => None,
    }
}

/// What is wrong with an instruction at a slot.
fn insn_structure_fault(slots: &[Option<Insn>], slot: usize, insn: &Insn) -> Option<VerifyFault>
    requires few { length slots.now ≤ 1024 }
    requires inside { slot < length slots.now }
    ensures { (code : List Insn) → slots.now ≡ insns_by_slot code →
        result ≡ insn_structure_fault code slot insn.now }
{
    match insn {
        Insn::Alu { dst, .. } | Insn::Swap { dst, .. } | Insn::Load { dst, .. } => {
            fault_behind(slots, slot + 1).or_else(|| fault_of_write(*dst))
        }
        Insn::LoadImm { dst, .. } => fault_behind(slots, slot + 2).or_else(|| fault_of_write(*dst)),
        Insn::StoreImm { .. } | Insn::Store { .. } => fault_behind(slots, slot + 1),
        Insn::Jump { offset } => fault_of_jump(slots, slot, i32::from(*offset)),
        Insn::JumpLong { offset } => fault_of_jump(slots, slot, *offset),
        Insn::Test { offset, .. } => {
            fault_of_jump(slots, slot, i32::from(*offset)).or_else(|| fault_behind(slots, slot + 1))
        }
        Insn::CallHelper { helper } => {
            fault_behind(slots, slot + 1).or_else(|| fault_of_helper(*helper))
        }
        Insn::CallLocal { offset } => {
            fault_of_target(slots, slot, *offset).or_else(|| fault_behind(slots, slot + 1))
        }
        Insn::Exit => None,
    }
}

/// What is wrong with a jump: it leads back, or outside.
fn fault_of_jump(slots: &[Option<Insn>], slot: usize, offset: i32) -> Option<VerifyFault>
    requires { slot ≤ 1024 }
    ensures { (code : List Insn) → slots.now ≡ insns_by_slot code →
        result ≡ (if is_backward offset then Some VerifyFault.JumpBackward
        else if leads_outside code slot (Some offset) then Some VerifyFault.JumpOutside
        else None) }
{
    if offset < 0 {
        Some(VerifyFault::JumpBackward)
    } else {
        fault_of_target(slots, slot, offset)
    }
}

/// What is wrong with where an offset leads to: no instruction begins there.
fn fault_of_target(slots: &[Option<Insn>], slot: usize, offset: i32) -> Option<VerifyFault>
    requires { slot ≤ 1024 }
    ensures { (code : List Insn) → slots.now ≡ insns_by_slot code →
        result ≡ (if leads_outside code slot (Some offset) then Some VerifyFault.JumpOutside
        else None) }
{
    if leads_outside(slots, slot, offset) {
        Some(VerifyFault::JumpOutside)
    } else {
        None
    }
}

/// Whether no instruction begins where an offset leads to.
fn leads_outside(slots: &[Option<Insn>], slot: usize, offset: i32) -> bool
    requires { slot ≤ 1024 }
    ensures { (code : List Insn) → slots.now ≡ insns_by_slot code → result ≡
        leads_outside code slot (Some offset) }
{
    match target_of(slot, offset) {
        Some(target) => !begins_at(slots, target),
        None => true,
    }
}

/// What is wrong with an instruction that falls through to a slot: the code ends before it.
fn fault_behind(slots: &[Option<Insn>], behind: usize) -> Option<VerifyFault>
    ensures { result ≡ (if nat_le (length slots.now) behind then Some VerifyFault.FallsOffEnd
        else None) }
{
    if slots.len() <= behind {
        Some(VerifyFault::FallsOffEnd)
    } else {
        None
    }
}

/// What is wrong with a call of a helper: this host doesn't have it.
fn fault_of_helper(number: i32) -> Option<VerifyFault>
    ensures { result ≡ (if is_none (helper_of number) then Some VerifyFault.UnknownHelper
        else None) }
{
    if Helper::of(number).is_none() {
        Some(VerifyFault::UnknownHelper)
    } else {
        None
    }
}

/// What is wrong with an instruction that writes a register: it would write r10, the frame pointer.
fn fault_of_write(dst: Reg) -> Option<VerifyFault>
    ensures { result ≡ (if dst.number == 10 then Some VerifyFault.WritesFramePointer else None) }
{
    if dst.number == FRAME_POINTER {
        Some(VerifyFault::WritesFramePointer)
    } else {
        None
    }
}
