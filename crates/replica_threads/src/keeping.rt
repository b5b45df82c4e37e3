//! What a replica's thread keeps beside its station.

ghost use Rattle.std.specs.Prelude.{◌≡◌, IfSome};

use crate::links::Links;
use crate::repeats::Repeats;
use crate::waiting::Waiting;
use byz_world::{Row, Status};
use early_votes::Held;
use host_types::{Gate, ReplicaId};
use seal::Checked;
use std::alloc::Global;
use std::sync::Wait;

/// Votes that came early, what is posted again at a tick, and whether a request waits.
#[derive(Drop)]
pub(crate) struct Keeping {
    pub(crate) held: Held,
    repeats: Repeats,
    waiting: Waiting,
}

impl Keeping {
    pub(crate) fn new(alloc: Global, held: Held) -> Keeping
        ensures { result.held ≡ held }
    {
        Keeping {
            held,
            repeats: Repeats::new(alloc),
            waiting: Waiting::new(alloc),
        }
    }

    /// The message, unless it is a vote that comes early: that is kept. Where memory runs out it is lost.
    pub(crate) fn unless_early(&mut self, message: Checked) -> Option<Checked>
        requires config { message.config ≡ self.old.held.config }
        ensures same { IfSome result (λ m. m ≡ message) }
        ensures held { self.new.held.config ≡ self.old.held.config }
    {
        if self.held.is_early(&message) {
            let _ = self.held.keep(message);
            return None;
        }
        Some(message)
    }

    /// The replica gave a row.
    pub(crate) fn note(&mut self, row: &Row)
        ensures { self.new.held ≡ self.old.held }
    {
        self.repeats.note(row);
        self.waiting.note(row);
    }

    /// The replica stands so. Once it has halted nothing is kept.
    pub(crate) fn move_to(&mut self, status: &Status)
        ensures { self.new.held.config ≡ self.old.held.config }
    {
        self.held.move_to(status.low, status.view);
        self.repeats.move_to(status);
        if status.halted.is_some() {
            self.held.clear();
            self.waiting.clear();
        }
    }

    pub(crate) fn is_waiting(&self) -> bool {
        self.waiting.is_waiting()
    }

    /// Posts the replica's own Checkpoints above its low mark and its last own Fetches again, those that were not
    /// answered: the same bytes.
    pub(crate) fn post_again<R: Wait, G: Gate + Drop>(
        &self,
        rt: &R,
        links: &Links<G>,
        id: ReplicaId,
    ) {
        for message in self.repeats.checkpoints() {
            links.give_to_others(rt, id, message);
        }
        let (request, snapshot) = self.repeats.fetches();
        if let Some(fetch) = request {
            links.give_to_others(rt, id, fetch);
        }
        if let Some(fetch) = snapshot {
            links.give_to_others(rt, id, fetch);
        }
    }
}
