//! What a replica's thread posts again.

use byz_world::{Input, Output, Row, Status};
use pbft_codec::{Body, Fetch};
use seal::{Checked, request_digest};
use std::alloc::Global;

/// A replica's own Checkpoints above its low mark, and the last own Fetches, of a request and of a snapshot, that were not
/// answered: what no later message stands for where they were lost. At a tick they are posted again, the same bytes.
#[derive(Drop)]
pub(crate) struct Repeats {
    checkpoints: Vec<Checked>,
    request: Option<Checked>,
    snapshot: Option<Checked>,
}

impl Repeats {
    pub(crate) fn new(alloc: Global) -> Repeats {
        Repeats {
            checkpoints: Vec::new(alloc),
            request: None,
            snapshot: None,
        }
    }

    /// A replica gave a row. Where memory runs out, its Checkpoint or Fetch isn't posted again.
    pub(crate) fn note(&mut self, row: &Row) {
        if let Input::Message(message) = row.input() {
            if answers(message, self.request.as_ref()) {
                self.request = None;
            }
        }
        for output in row.outputs() {
            if output.own {
                self.note_own(output);
            }
        }
    }

    fn note_own(&mut self, output: &Output) {
        let Ok(copy) = output.message.copy() else {
            return;
        };
        match output.message.body() {
            Body::Checkpoint(_) => {
                let _ = self.checkpoints.push(copy);
            }
            Body::Fetch(Fetch::Request(_)) => self.request = Some(copy),
            Body::Fetch(Fetch::State(_)) => self.snapshot = Some(copy),
            _ => {}
        }
    }

    /// The replica stands so: Checkpoints at or below its low mark are not posted again, nor is a Fetch of a snapshot that
    /// it has executed past, nor anything once it has halted.
    pub(crate) fn move_to(&mut self, status: &Status) {
        if status.halted.is_some() {
            self.checkpoints.clear();
            self.request = None;
            self.snapshot = None;
            return;
        }
        let low = status.low.0;
        self.checkpoints.retain(|message| is_above(message, low));
        if !is_wanted(self.snapshot.as_ref(), status.executed.0) {
            self.snapshot = None;
        }
    }

    pub(crate) fn checkpoints(&self) -> &[Checked] {
        self.checkpoints.as_slice()
    }

    /// The Fetch of a request, and that of a snapshot.
    pub(crate) fn fetches(&self) -> (Option<&Checked>, Option<&Checked>) {
        (self.request.as_ref(), self.snapshot.as_ref())
    }
}

fn is_above(message: &Checked, low: u64) -> bool {
    match message.body() {
        Body::Checkpoint(said) => said.number.0 > low,
        _ => false,
    }
}

// Whether this Fetch asks for a snapshot of a number that was not executed.
fn is_wanted(fetch: Option<&Checked>, executed: u64) -> bool {
    let Some(fetch) = fetch else {
        return false;
    };
    match fetch.body() {
        Body::Fetch(Fetch::State(number)) => number.0 > executed,
        _ => false,
    }
}

// Whether a message is the request that this Fetch asks for.
fn answers(message: &Checked, fetch: Option<&Checked>) -> bool {
    let Some(fetch) = fetch else {
        return false;
    };
    match (message.body(), fetch.body()) {
        (Body::Request(_), Body::Fetch(Fetch::Request(digest))) => request_digest(message)
            == *digest,
        _ => false,
    }
}
