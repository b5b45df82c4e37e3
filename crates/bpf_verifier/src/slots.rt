//! Code by slots, and where jumps lead.

ghost use Rattle.std.specs.Prelude.{◌≡◌, ◌≤◌, List, map, IfOk};
ghost use Rattle.std.specs.Option.{is_some};
ghost use Rattle.bpf_decode.specs.declared.insn.Insn.{Insn};
ghost use Rattle.bpf_model.specs.Code.{insns_by_slot, insn_at, target_of};
ghost use Rattle.bpf_verifier.specs.Slots.{or_exit};

use bpf_decode::Insn;
use std::alloc::{AllocError, Global};
use std::marker::Model;

/// The instruction that begins at each slot, and none at a slot that an instruction continues in.
pub fn insns_by_slot(alloc: Global, code: &[Insn]) -> Result<Vec<Option<Insn>>, AllocError>
    ensures { IfOk result (λ slots. slots.items ≡ insns_by_slot code.now) }
{
    let mut slots = Vec::with_capacity(alloc, code.len())?;
    for insn in code {
        slots.push(Some(*insn))?;
        if insn.slots() > 1 {
            slots.push(None)?;
        }
    }
    Ok(slots)
}

/// The instructions of code, found by their slots. Where each takes one slot, as in most code, the list of
/// them serves as it is.
#[derive(Drop)]
pub struct Slots {
    /// One for each slot: the instruction that begins there, or an exit where one continues.
    by_slot: Vec<Insn>,
    /// The instructions, where that list is another one.
    insns: Option<Vec<Insn>>,
}

impl Model for Slots {
    ghost use Rattle.std.specs.Prelude.{◌≡◌, List, Option, map};
    ghost use Rattle.bpf_decode.specs.declared.insn.Insn.{Insn};
    ghost use Rattle.bpf_model.specs.Code.{insns_by_slot};
    ghost use Rattle.bpf_verifier.specs.Slots.{or_exit, insns_of};

    ghost Value = { List (Option Insn) };

    ghost view = { λ s. insns_by_slot (insns_of s.by_slot.items s.insns) };

    ghost invariant = { λ s. s.by_slot.items ≡ map or_exit (insns_by_slot (insns_of s.by_slot.items s.insns)) };
}

impl Slots {
    ghost use Rattle.std.specs.Prelude.{◌≡◌, ◌<◌, List, None, IfOk, map, length, slice_index_or};
    ghost use Rattle.bpf_model.specs.Code.{insns_by_slot};
    ghost use Rattle.bpf_verifier.specs.Slots.{AreSingle, or_exit};

    /// Those of instructions that take one slot each.
    pub(crate) fn of_single(insns: Vec<Insn>) -> Slots
        requires { AreSingle insns.items }
        ensures { result ≡ insns_by_slot insns.items }
    {
        Slots {
            by_slot: insns,
            insns: None,
        }
    }

    /// Those of instructions whose list by slots this is.
    pub(crate) fn new(
        alloc: Global,
        insns: Vec<Insn>,
        by_slot: &[Option<Insn>],
    ) -> Result<Slots, AllocError>
        requires { by_slot.now ≡ insns_by_slot insns.items }
        ensures { IfOk result (λ slots. slots ≡ insns_by_slot insns.items) }
    {
        Ok(Slots {
            by_slot: filled(alloc, by_slot)?,
            insns: Some(insns),
        })
    }

    /// How many slots the code has.
    pub fn len(&self) -> usize
        ensures { result ≡ length self.now }
    {
        self.by_slot.len()
    }

    /// The instruction that begins at a slot, or an exit where none does.
    #[inline(always)]
    pub fn at(&self, slot: usize) -> Insn
        requires { slot < length self.now }
        ensures { result ≡ or_exit (slice_index_or self.now slot None) }
    {
        self.by_slot[slot]
    }

    /// The instructions.
    pub(crate) fn into_insns(self) -> Vec<Insn>
        ensures { insns_by_slot result.items ≡ self }
    {
        let Slots { by_slot, insns } = self;
        match insns {
            Some(insns) => insns,
            None => by_slot,
        }
    }
}

/// One instruction for each slot: that which begins there, or an exit where none does.
fn filled(alloc: Global, slots: &[Option<Insn>]) -> Result<Vec<Insn>, AllocError>
    ensures { IfOk result (λ list. list.items ≡ map or_exit slots.now) }
{
    let mut list = Vec::with_capacity(alloc, slots.len())?;
    for slot in slots {
        list.push(slot.unwrap_or(Insn::Exit))?;
    }
    Ok(list)
}

/// Whether an instruction begins at a slot.
pub fn begins_at(slots: &[Option<Insn>], slot: usize) -> bool
    ensures { (code : List Insn) → slots.now ≡ insns_by_slot code → result ≡
        is_some (insn_at code slot) }
{
    match slots.get(slot) {
        Some(insn) => insn.is_some(),
        None => false,
    }
}

/// The slot that an instruction jumps to or calls; none before the first slot.
pub fn target_of(slot: usize, offset: i32) -> Option<usize>
    requires { slot ≤ 1024 }
    ensures { result ≡ target_of slot offset }
{
    if offset >= 0 {
        Some(slot + 1 + offset as usize)
    } else {
        (slot + 1).checked_sub(offset.unsigned_abs() as usize)
    }
}
