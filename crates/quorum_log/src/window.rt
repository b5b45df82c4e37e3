//! What is recorded between the water marks.

ghost use Rattle.std.specs.Prelude.{◌≡◌, ℕ, ◌+◌, ◌-◌, ◌*◌, ◌<◌, ◌≤◌, ◌^◌, Bool, min, true, false, length, Option, None, Some, unwrap_or, IfOk, IfErr, OnOk, OnErr, IsSome};
ghost use Rattle.std.proofs.Common.{◌⊎◌};
ghost use Rattle.std.specs.List.{list_any};
ghost use Rattle.std.specs.Option.{option_copied};
ghost use Rattle.std.specs.Ordering.{nat_cmp};
ghost use Rattle.std.specs.BTreeMap as tree;
ghost use Rattle.ballots.specs.Ballots.{digest_in, is_for_other};
ghost use Rattle.quorum_log.specs.Slots.{IsRefusal, empty_slot, is_named, met_by, slot_in, with_vote};
ghost use Rattle.quorum_log.specs.Entering.{AreEntered, ArePrepared, AreProper, offered_for};
ghost use Rattle.quorum_log.specs.Windows.{HasSlotAt, HaveSameWindows, IsCleared, IsLastNumber, IsNamedSomewhere, index_in, slots_at};

use crate::fault::LogFault;
use crate::slot::Slot;
use crate::view_slots::ViewSlots;
use host_types::{Digest, SeqNo, View};
use seal::{Checked, Vote};
use std::alloc::{AllocError, Global};

/// The slots of the numbers between the water marks, `number - low - 1` being the index of each.
#[derive(Drop)]
pub(crate) struct Window {
    pub(crate) low: SeqNo,
    numbers: Vec<ViewSlots>,
}

impl Window {
    pub(crate) fn new(alloc: Global, span: usize) -> Result<Window, AllocError>
        ensures { IfOk result (λ w. (w.low.0 ≡ 0) × (length w.numbers.items ≡ span) × ((i v : ℕ) → slots_at w.numbers.items i v ≡ empty_slot)) }
    {
        let mut numbers = Vec::new(alloc);
        for _ in 0..span {
            numbers.push(ViewSlots::new(alloc))?;
        }
        Ok(Window {
            low: SeqNo(0),
            numbers,
        })
    }

    /// The index of a number between the marks.
    pub(crate) fn index(&self, number: SeqNo) -> Option<usize>
        ensures { result ≡ index_in self.now.low.0 (length self.now.numbers.items) number.0 }
    {
        if number.0 <= self.low.0 || number.0 - self.low.0 > self.numbers.len() as u64 {
            return None;
        }
        Some((number.0 - self.low.0 - 1) as usize)
    }

    /// The slot of this view, if it was opened.
    pub(crate) fn slot(&self, view: View, index: usize) -> Option<&Slot>
        requires { index < length self.now.numbers.items }
        ensures { unwrap_or (option_copied result) empty_slot ≡ slots_at self.now.numbers.items index view.0 }
    {
        self.numbers[index].slot(view)
    }

    /// Records a vote at an index: the first of each signer counts.
    pub(crate) fn accept(
        &mut self,
        alloc: Global,
        index: usize,
        message: &Checked,
        vote: &Vote,
    ) -> Result<(), LogFault>
        requires within { index < length self.old.numbers.items }
        requires signer { message.now.message.id < 10 }
        requires digest { IsSome (digest_in message.now.message.body) }
        ensures same { OnOk result (is_for_other vote.now.digest.0 (met_by vote.now.kind message.now.message.id (slots_at self.old.numbers.items index vote.now.view.0)) ≡ false) }
        ensures recorded { OnOk result (HasSlotAt index vote.now.view.0 (with_vote vote.now.kind message.now (slots_at self.old.numbers.items index vote.now.view.0)) self.old.numbers.items self.new.numbers.items) }
        ensures fault { IfErr result (IsRefusal (is_for_other vote.now.digest.0 (met_by vote.now.kind message.now.message.id (slots_at self.old.numbers.items index vote.now.view.0)))) }
        ensures unchanged { OnErr result (HaveSameWindows self.old.numbers.items self.new.numbers.items) }
        ensures length { length self.new.numbers.items ≡ length self.old.numbers.items }
        ensures low { self.new.low ≡ self.old.low }
    {
        self.numbers[index].accept(alloc, message, vote)
    }

    /// Whether a recorded PrePrepare names the digest, of whatever view.
    pub(crate) fn names(&self, digest: &Digest) -> bool
        ensures { IsNamedSomewhere digest.now.0 self.now.numbers.items result }
    {
        for view_slots in &self.numbers {
            if view_slots.names(digest) {
                return true;
            }
        }
        false
    }

    /// Whether a recorded PrePrepare of the view names the digest.
    pub(crate) fn names_in(&self, view: View, digest: &Digest) -> bool
        ensures { result ≡ list_any (λ p. is_named digest.now.0 (slot_in p.slots view.0)) self.now.numbers.items }
    {
        self.numbers
            .iter()
            .any(|view_slots| view_slots.digest(view) == Some(*digest))
    }

    /// The greatest number of a recorded PrePrepare of the view: the last that has one.
    pub(crate) fn greatest_in(&self, view: View) -> Option<SeqNo>
        ensures { IsLastNumber view.0 self.now.numbers.items result }
    {
        for index in (0..self.numbers.len()).rev() {
            if let Some(number) = self.numbers[index].number(view) {
                return Some(number);
            }
        }
        None
    }

    /// Discards what is recorded at or below a number above the mark, which becomes the mark.
    pub(crate) fn discard_to(&mut self, number: SeqNo)
        ensures above { self.old.low.0 < number.0 → (self.new.low.0 ≡ number.0)
            × ((i v : ℕ) → slots_at self.new.numbers.items i v ≡ slots_at self.old.numbers.items (i + (number.0 - self.old.low.0)) v) }
        ensures below { number.0 ≤ self.old.low.0 → (self.new.low ≡ self.old.low) × (self.new.numbers.items ≡ self.old.numbers.items) }
        ensures length { length self.new.numbers.items ≡ length self.old.numbers.items }
    {
        if number.0 > self.low.0 {
            let gone = fewer(self.numbers.len(), number.0 - self.low.0);
            self.clear(gone);
            self.numbers.rotate_left(gone);
            self.low = number;
        }
    }

    /// Opens the slots that are to have these PrePrepares, of the numbers above the floor one after another:
    /// for each number the one that it is to have, if there is one.
    pub(crate) fn prepare(
        &mut self,
        alloc: Global,
        view: View,
        floor: SeqNo,
        messages: &[Checked],
    ) -> Result<Vec<Option<Checked>>, AllocError>
        requires { floor.0 + length messages.now < 2 ^ 48 }
        ensures prepared { IfOk result (λ given. ArePrepared (length self.old.numbers.items) self.old.low.0 floor.0 view.0 messages.now given.items self.new.numbers.items) }
        ensures same { HaveSameWindows self.old.numbers.items self.new.numbers.items }
        ensures length { length self.new.numbers.items ≡ length self.old.numbers.items }
        ensures low { self.new.low ≡ self.old.low }
    {
        let mut given = Vec::new(alloc);
        for index in 0..self.numbers.len() {
            let message = offered(messages, floor, number_at(self.low, index));
            given.push(self.numbers[index].prepare(alloc, view, message)?)?;
        }
        Ok(given)
    }

    /// What stays as a view is entered, and what is given.
    pub(crate) fn enter(
        &mut self,
        view: View,
        floor: SeqNo,
        top: u64,
        messages: &[Checked],
        given: &mut [Option<Checked>],
    )
        requires top { top ≡ floor.0 + length messages.now }
        requires bound { top < 2 ^ 48 }
        requires prepared { ArePrepared (length self.old.numbers.items) self.old.low.0 floor.0 view.0 messages.now given.old self.old.numbers.items }
        ensures entered { AreEntered (length self.old.numbers.items) self.old.low.0 floor.0 view.0 messages.now self.old.numbers.items self.new.numbers.items }
        ensures proper { AreProper (length self.old.numbers.items) self.old.low.0 floor.0 messages.now }
        ensures low { self.new.low ≡ self.old.low }
    {
        for index in 0..self.numbers.len() {
            let number = number_at(self.low, index);
            let own = given[index].take();
            self.numbers[index].enter(view, number > floor.0, number > top, own);
        }
    }

    // Clears the slots of the first numbers.
    fn clear(&mut self, many: usize)
        requires { many ≤ length self.old.numbers.items }
        ensures cleared { IsCleared many self.old.numbers.items self.new.numbers.items }
        ensures low { self.new.low ≡ self.old.low }
    {
        for index in 0..many {
            self.numbers[index].clear();
        }
    }
}

// The number at an index, or the greatest there is.
fn number_at(low: SeqNo, index: usize) -> u64
    ensures { result ≡ min (low.0 + 1 + index) (2 ^ 64 - 1) }
{
    low.0.saturating_add(1).saturating_add(index as u64)
}

// The message for a number, of those for the numbers above the floor one after another.
fn offered(messages: &[Checked], floor: SeqNo, number: u64) -> Option<&Checked>
    ensures { option_copied result ≡ offered_for floor.0 messages.now number }
{
    if number <= floor.0 {
        return None;
    }
    messages.get((number - floor.0 - 1) as usize)
}

// The number, where it is below the span, else the span.
fn fewer(span: usize, numbers: u64) -> usize
    ensures bound { result ≤ span }
    ensures value { (result ≡ numbers) ⊎ ((result ≡ span) × (result ≤ numbers)) }
{
    if numbers < span as u64 {
        numbers as usize
    } else {
        span
    }
}
