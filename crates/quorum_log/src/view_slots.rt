//! What is recorded for one number.

ghost use Rattle.std.specs.Prelude.{◌≡◌, ◌==◌, ◌||◌, ◌&&◌, ℕ, ◌<◌, nat_lt, cond, true, false, None, IfOk, IfErr, OnOk, OnErr, IsSome};
ghost use Rattle.std.specs.List.{list_any};
ghost use Rattle.std.specs.Option.{option_copied};
ghost use Rattle.std.specs.Ordering.{nat_cmp};
ghost use Rattle.std.specs.BTreeMap as tree;
ghost use Rattle.ballots.specs.Ballots.{digest_in, is_for_other};
ghost use Rattle.quorum_log.specs.Entering.{IsProper, IsReady, entered_slot};
ghost use Rattle.quorum_log.specs.Slots.{HasSlot, HaveSameSlots, IsRefusal, digest_here, empty_slot, is_named, met_by, number_here, slot_in, with_vote};

use crate::fault::LogFault;
use crate::slot::Slot;
use host_types::{Digest, SeqNo, View};
use seal::{Checked, Vote};
use std::alloc::{AllocError, Global};
use std::collections::BTreeMap;

/// The slots of one number, by view.
#[derive(Drop)]
pub(crate) struct ViewSlots {
    slots: BTreeMap<u32, Slot>,
}

impl ViewSlots {
    pub(crate) fn new(alloc: Global) -> ViewSlots
        ensures { (v : ℕ) → slot_in result.slots v ≡ empty_slot }
    {
        ViewSlots {
            slots: BTreeMap::new(alloc),
        }
    }

    /// The slot of this view, if it was opened.
    pub(crate) fn slot(&self, view: View) -> Option<&Slot>
        ensures { option_copied result ≡ tree.get nat_cmp self.now.slots view.0 }
    {
        self.slots.get(&view.0)
    }

    /// Whether the PrePrepare of some slot names the digest.
    pub(crate) fn names(&self, digest: &Digest) -> bool
        ensures any { result ≡ list_any (is_named digest.now.0) (tree.values self.now.slots) }
        ensures ordered { tree.IsOrdered nat_cmp self.now.slots }
    {
        self.slots
            .values()
            .any(|slot| slot.digest() == Some(*digest))
    }

    /// The digest that the PrePrepare of a view names, if there is one.
    pub(crate) fn digest(&self, view: View) -> Option<Digest>
        ensures { result ≡ digest_here (slot_in self.now.slots view.0) }
    {
        self.slot(view)?.digest()
    }

    /// The number that the PrePrepare of a view names, if there is one.
    pub(crate) fn number(&self, view: View) -> Option<SeqNo>
        ensures { result ≡ number_here (slot_in self.now.slots view.0) }
    {
        self.slot(view)?.number()
    }

    pub(crate) fn clear(&mut self)
        ensures { (v : ℕ) → slot_in self.new.slots v ≡ empty_slot }
    {
        self.slots.clear();
    }

    /// Records a vote: the first of each signer counts.
    pub(crate) fn accept(
        &mut self,
        alloc: Global,
        message: &Checked,
        vote: &Vote,
    ) -> Result<(), LogFault>
        requires signer { message.now.message.id < 10 }
        requires digest { IsSome (digest_in message.now.message.body) }
        ensures same { OnOk result (is_for_other vote.now.digest.0 (met_by vote.now.kind message.now.message.id (slot_in self.old.slots vote.now.view.0)) ≡ false) }
        ensures recorded { OnOk result (HasSlot vote.now.view.0 (with_vote vote.now.kind message.now (slot_in self.old.slots vote.now.view.0)) self.old.slots self.new.slots) }
        ensures fault { IfErr result (IsRefusal (is_for_other vote.now.digest.0 (met_by vote.now.kind message.now.message.id (slot_in self.old.slots vote.now.view.0)))) }
        ensures unchanged { OnErr result (HaveSameSlots self.old.slots self.new.slots) }
    {
        open(&mut self.slots, alloc, vote.view)?;
        match self.slots.get_mut(&vote.view.0) {
            Some(slot) => slot.accept(message, vote.kind, &vote.digest),
            None => unreachable!(),
        }
    }

    /// Opens the slot of a view for a PrePrepare that it is to have, and returns a handle to that one.
    pub(crate) fn prepare(
        &mut self,
        alloc: Global,
        view: View,
        message: Option<&Checked>,
    ) -> Result<Option<Checked>, AllocError>
        ensures copied { IfOk result (λ o. o ≡ option_copied message.entry) }
        ensures proper { IfOk result IsProper }
        ensures ready { IfOk result (λ o. IsReady o (tree.get nat_cmp self.new.slots view.0)) }
        ensures same { HaveSameSlots self.old.slots self.new.slots }
    {
        let Some(message) = message else {
            return Ok(None);
        };
        let _ = message.vote();
        open(&mut self.slots, alloc, view)?;
        Ok(Some(message.copy()?))
    }

    /// What stays as a view is entered: the slots of higher views; and its own, if the number is above the
    /// floor, where up to the top the PrePrepare is the given one.
    pub(crate) fn enter(
        &mut self,
        view: View,
        is_above_floor: bool,
        is_above_top: bool,
        given: Option<Checked>,
    )
        requires above { IsSome given → is_above_floor ≡ true }
        requires ready { IsReady given (tree.get nat_cmp self.old.slots view.0) }
        ensures { (v : ℕ) → slot_in self.new.slots v ≡ entered_slot view.0 is_above_floor is_above_top given v (slot_in self.old.slots v) }
    {
        drop_below(&mut self.slots, view, is_above_floor);
        if !is_above_top {
            give(&mut self.slots, view, given);
        }
    }
}

// Drops the slots of lower views, and this one's where it is not kept.
fn drop_below(slots: &mut BTreeMap<u32, Slot>, view: View, keeps_own: bool)
    ensures { (v : ℕ) → tree.get nat_cmp slots.new v ≡ cond (nat_lt view.0 v || ((v == view.0) && keeps_own)) (tree.get nat_cmp slots.old v) None }
{
    slots.retain(|of, _| *of > view.0 || (*of == view.0 && keeps_own));
}

// The slot of this view has the given PrePrepare: one that has none need not be open.
fn give(slots: &mut BTreeMap<u32, Slot>, view: View, given: Option<Checked>)
    requires { IsReady given (tree.get nat_cmp slots.old view.0) }
    ensures { (v : ℕ) → slot_in slots.new v ≡ cond (v == view.0) (record (slot_in slots.old view.0) { pre_prepare = given }) (slot_in slots.old v) }
{
    if let Some(slot) = slots.get_mut(&view.0) {
        slot.replace_proposal(given);
    }
}

// Opens the slot of this view: an empty slot holds no vote.
fn open(slots: &mut BTreeMap<u32, Slot>, alloc: Global, view: View) -> Result<(), AllocError>
    ensures absent { OnErr result (tree.get nat_cmp slots.old view.0 ≡ None) }
    ensures opened { OnOk result (IsSome (tree.get nat_cmp slots.new view.0)) }
    ensures same { HaveSameSlots slots.old slots.new }
{
    if !slots.contains_key(&view.0) {
        slots.insert(view.0, Slot::new(alloc))?;
    }
    Ok(())
}
