//! Code as a whole: reads and writes lists of instructions.

ghost use Rattle.std.specs.Prelude.{◌≡◌, ◌+◌, ◌*◌, ◌%◌, ◌≤◌, ◌<◌, ◌⊎◌, ◌++◌, List, length, take, IfOk, IfErr, IfSome, OnOk, MatchResult};
ghost use Rattle.std.specs.List.{flat_map};
ghost use Rattle.bpf_decode.specs.declared.insn.Insn.{Insn};
ghost use Rattle.bpf_decode.specs.declared.refusal.DecodeFault.TheVariants.{Memory};
ghost use Rattle.bpf_decode.specs.Taken.{TakesAll};
ghost use Rattle.bpf_decode.specs.Faults.{IsCode, IsRefused, FaultyAt, length_fault};
ghost use Rattle.bpf_decode.specs.Encoding.{encoding, insn_slots, slot_bytes, EncodesAt, IsAt, IsBehind, IsSlot};

use crate::insn::Insn;
use crate::refusal::{DecodeFault, Refusal};
use crate::sink::Sink;
use crate::slot::Slot;
use std::alloc::{AllocError, Global};

/// The bytes of a slot (RFC 9669, section 3).
pub const SLOT_SIZE: usize = 8;

/// The opcode of the one wide instruction, a load of an immediate of 64 bits (RFC 9669, section 5.4).
const WIDE: u8 = 0x18;

/// The most slots that code has (a limit of this host).
pub const MAX_SLOTS: usize = 1024;

/// Reads code: 1 to 1,024 slots that encode instructions (RFC 9669, section 3). A refusal is the
/// first fault: of the length, or of the first slot that has one.
pub fn decode_all(alloc: Global, bytes: &[u8]) -> Result<Vec<Insn>, Refusal>
    // What is read is encoded so.
    ensures found { IfOk result (λ code. IsCode bytes.now code.items) }

    // What is encoded so is read, unless memory runs out.
    ensures only { (code : List Insn) → IsCode bytes.now code →
        MatchResult result (λ found. found.items ≡ code) (λ refusal. refusal.fault ≡ Memory) }
    ensures refused { IfErr result (λ refusal.
        (refusal.fault ≡ Memory) ⊎ IsRefused bytes.now refusal.fault refusal.slot) }
{
    read_code(alloc, bytes)
}

fn read_code(alloc: Global, bytes: &[u8]) -> Result<Vec<Insn>, Refusal>
    ensures found { IfOk result (λ code. IsCode bytes.now code.items) }
    ensures refused { IfErr result (λ refusal.
        (refusal.fault ≡ Memory) ⊎ IsRefused bytes.now refusal.fault refusal.slot) }
{
    let mut code = Vec::with_capacity(alloc, MAX_SLOTS.min(bytes.len() / SLOT_SIZE))?;
    read_into(bytes, &mut code)?;
    Ok(code)
}

/// Reads code as `decode_all` does, and gives each instruction to a sink as it is read. After a refusal the
/// sink has taken the instructions before its slot; where memory ran out, these or some of them.
pub fn read_into<S: Sink>(bytes: &[u8], sink: &mut S) -> Result<(), Refusal>
    ensures found { OnOk result ((code : List Insn) × IsCode bytes.now code
        × TakesAll S.takes sink.old code sink.new) }
    ensures refused { IfErr result (λ refusal.
        (refusal.fault ≡ Memory) ⊎ IsRefused bytes.now refusal.fault refusal.slot) }
    ensures left { IfErr result (λ refusal. (refusal.fault ≡ Memory)
        ⊎ ((before : List Insn) × (take (8 * refusal.slot) bytes.now ≡ encoding before)
        × TakesAll S.takes sink.old before sink.new)) }
{
    if let Some(fault) = length_fault(bytes.len()) {
        return Err(Refusal { fault, slot: 0 });
    }
    let slots = bytes.len() / SLOT_SIZE;
    let mut slot = 0;
    while slot < slots {
        slot += read_insn(bytes, slot, sink)?;
    }
    Ok(())
}

/// Gives a sink the instruction that the slots from this one on encode, and returns how many they are; or
/// returns the slot's first fault.
#[inline(always)]
fn read_insn<S: Sink>(bytes: &[u8], slot: usize, sink: &mut S) -> Result<usize, Refusal>
    requires within { 8 * slot + 8 ≤ length bytes.now }
    requires whole { length bytes.now % 8 ≡ 0 }
    requires few { slot < 1024 }
    ensures found { IfOk result (λ slots. (insn : Insn) × EncodesAt bytes.now slot insn
        × (slots ≡ length (insn_slots insn)) × S.takes sink.old insn sink.new) }
    ensures fits { IfOk result (λ slots. 8 * slot + 8 * slots ≤ length bytes.now) }
    ensures refused { IfErr result (λ refusal. (refusal.fault ≡ Memory) ⊎
        ((refusal.slot ≡ slot) × FaultyAt bytes.now refusal.fault slot × (sink.new ≡ sink.old))) }
{
    let first = slot_at(bytes, slot);
    // Only a wide instruction has a second slot.
    let (read, slots) = if first.opcode == WIDE {
        (first.read_wide(slot_behind(bytes, slot), sink), 2)
    } else {
        (first.read(None, sink), 1)
    };
    match read {
        Ok(()) => Ok(slots),
        Err(fault) => Err(Refusal {
            fault,
            slot: slot as u32,
        }),
    }
}

fn slot_at(bytes: &[u8], slot: usize) -> Slot
    requires within { 8 * slot + 8 ≤ length bytes.now }
    ensures { IsAt bytes.now slot result }
{
    let at = slot * SLOT_SIZE;
    Slot::from_bytes(&bytes[at..at + SLOT_SIZE])
}

fn slot_behind(bytes: &[u8], slot: usize) -> Option<Slot>
    requires within { 8 * slot + 8 ≤ length bytes.now }
    requires whole { length bytes.now % 8 ≡ 0 }
    ensures behind { IsBehind bytes.now slot result }
    ensures fits { IfSome result (λ behind. IsSlot behind) }
    ensures within { IfSome result (λ behind. 8 * slot + 16 ≤ length bytes.now) }
{
    if bytes.len() - slot * SLOT_SIZE > SLOT_SIZE {
        Some(slot_at(bytes, slot + 1))
    } else {
        None
    }
}

fn length_fault(bytes: usize) -> Option<DecodeFault>
    ensures { result ≡ length_fault bytes }
{
    if bytes == 0 {
        Some(DecodeFault::Empty)
    } else if bytes % SLOT_SIZE != 0 {
        Some(DecodeFault::NotSlots)
    } else if bytes > SLOT_SIZE * MAX_SLOTS {
        Some(DecodeFault::TooLong)
    } else {
        None
    }
}

/// The bytes that encode the instructions.
pub fn encode_all(alloc: Global, code: &[Insn]) -> Result<Vec<u8>, AllocError>
    ensures { IfOk result (λ bytes. bytes.items ≡ encoding code.now) }
{
    let mut bytes = Vec::new(alloc);
    for insn in code {
        push_insn(&mut bytes, *insn)?;
    }
    Ok(bytes)
}

fn push_insn(bytes: &mut Vec<u8>, insn: Insn) -> Result<(), AllocError>
    ensures { OnOk result (bytes.new.items ≡
        bytes.old.items ++ flat_map slot_bytes (insn_slots insn)) }
{
    bytes.extend_from_slice(&insn.first_slot().to_bytes())?;
    if let Some(second) = insn.second_slot() {
        bytes.extend_from_slice(&second.to_bytes())?;
    }
    Ok(())
}
