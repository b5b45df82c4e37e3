//! What a replica sends again.

ghost use Rattle.std.specs.Prelude.{◌≡◌, OnErr, OnOk, not, position, slice_get};
ghost use Rattle.std.specs.List.{filter};
ghost use Rattle.std.specs.Option.{option_copied};
ghost use Rattle.pbft_codec.specs.Encoding.{signed_text};
ghost use Rattle.sha2.specs.Sha256.{sha256};
ghost use Rattle.driver_notes.specs.Repeating.{about, answered, asks_for, is_about, is_entered, is_same, is_wanted_in, moved, none_kept, noted, taken};

use host_types::{ClientId, Digest, SeqNo, View};
use pbft_codec::{Body, Fetch};
use seal::{Checked, request_digest};
use std::alloc::{AllocError, Global};
use std::marker::Model;

/// What a message is about. Of two own messages that are about the same the later one is sent again.
#[derive(Clone, Copy, Debug, PartialEq, Eq)]
pub enum Subject {
    Request,
    PrePrepare { view: View, number: SeqNo },
    Prepare { view: View, number: SeqNo },
    Commit { view: View, number: SeqNo },
    /// The client's last answer.
    Reply { client: ClientId },
    Checkpoint { number: SeqNo },
    ViewChange,
    NewView,
    /// A Fetch of a request, whichever.
    FetchedRequest,
    /// A Fetch of a state, whichever.
    FetchedState,
    Snapshot,
}

/// A replica's own messages that are sent again, and the NewView of its view: votes and Checkpoints above its low mark, votes,
/// ViewChanges and NewViews of its view and later ones, the last Fetch of a request and of a state that isn't answered, and each
/// client's last Reply.
#[derive(Drop)]
pub struct Repeats {
    low: SeqNo,
    executed: SeqNo,
    view: View,
    kept: Vec<Checked>,
}

impl Model for Repeats {
    ghost use Rattle.driver_notes.specs.Repeating.{RepeatsFacts};

    ghost Value = { RepeatsFacts };

    ghost view = { λ r. record { low = r.low.0; executed = r.executed.0; view = r.view.0; kept = r.kept.items } };
}

impl Repeats {
    /// Nothing is kept, for a replica before its first message.
    pub fn new(alloc: Global) -> Repeats
        ensures { result ≡ none_kept }
    {
        Repeats {
            low: SeqNo(0),
            executed: SeqNo(0),
            view: View(0),
            kept: Vec::new(alloc),
        }
    }

    /// Keeps a message of the replica, or a NewView by which it has entered its view, in the place of one that is about the same.
    /// What isn't sent again by a replica that stands so is passed over. The error is that memory ran out, and changes nothing.
    pub fn note(&mut self, message: &Checked) -> Result<(), AllocError>
        ensures noted { OnOk result (self.new ≡ noted self.old message.now) }
        ensures unchanged { OnErr result (self.new ≡ self.old) }
    {
        if !is_wanted(message, self.low, self.executed, self.view) {
            return Ok(());
        }
        let copy = message.copy()?;
        match self.place_of(about(message.body())) {
            Some(place) => self.kept[place] = copy,
            None => self.kept.push(copy)?,
        }
        Ok(())
    }

    /// The replica has taken this message, and stands in this view: a Fetch that asks for it as a request is answered, and a NewView by
    /// which it has entered its view is sent again. The error is that memory ran out, and changes nothing.
    pub fn take(&mut self, message: &Checked, view: View, is_active: bool) -> Result<(), AllocError>
        ensures taken { OnOk result (self.new ≡ taken self.old message.now view.0 is_active) }
        ensures unchanged { OnErr result (self.new ≡ self.old) }
    {
        if is_entered(message.body(), view, is_active) {
            self.note(message)?;
        }
        self.answer(message);
        Ok(())
    }

    /// A Fetch that asks for this message as a request is answered.
    fn answer(&mut self, message: &Checked)
        ensures { self.new ≡ answered self.old (sha256 (signed_text message.now.message)) }
    {
        drop_answered(&mut self.kept, &request_digest(message));
    }

    /// The replica stands so: what it doesn't send again any more goes. It takes no memory.
    pub fn move_to(&mut self, low: SeqNo, executed: SeqNo, view: View)
        ensures { self.new ≡ moved self.old low.0 executed.0 view.0 }
    {
        self.low = low;
        self.executed = executed;
        self.view = view;
        drop_past(&mut self.kept, low, executed, view);
    }

    /// A message that is sent again, by its place from 0 on. It takes no memory.
    pub fn get(&self, place: usize) -> Option<&Checked>
        ensures { option_copied result ≡ slice_get self.now.kept place }
    {
        self.kept.get(place)
    }

    fn place_of(&self, subject: Subject) -> Option<usize>
        ensures { result ≡ position (is_about subject) self.now.kept }
    {
        self.kept.iter().position(|kept| is_about(&subject, kept))
    }
}

// Drops a Fetch of the request with this digest.
fn drop_answered(kept: &mut Vec<Checked>, digest: &Digest)
    ensures { kept.new.items ≡ filter (λ m. not (asks_for digest.now.0 m)) kept.old.items }
{
    kept.retain(|message| !asks_for(message, digest));
}

// Drops what a replica that stands so doesn't send again.
fn drop_past(kept: &mut Vec<Checked>, low: SeqNo, executed: SeqNo, view: View)
    ensures { kept.new.items ≡ filter (is_wanted_in low.0 executed.0 view.0) kept.old.items }
{
    kept.retain(|message| is_wanted(message, low, executed, view));
}

// Whether it is the NewView by which a replica has entered the view in which it stands.
fn is_entered(body: &Body, view: View, is_active: bool) -> bool
    ensures { result ≡ is_entered view.0 is_active body.now }
{
    match body {
        Body::NewView(said) => is_active && said.view.0 == view.0,
        _ => false,
    }
}

/// What a message with this body is about.
fn about(body: &Body) -> Subject
    ensures { result ≡ about body.now }
{
    match body {
        Body::Request(_) => Subject::Request,
        Body::PrePrepare(said) => Subject::PrePrepare {
            view: said.view,
            number: said.number,
        },
        Body::Prepare(said) => Subject::Prepare {
            view: said.view,
            number: said.number,
        },
        Body::Commit(said) => Subject::Commit {
            view: said.view,
            number: said.number,
        },
        Body::Reply(said) => Subject::Reply {
            client: said.client,
        },
        Body::Checkpoint(said) => Subject::Checkpoint {
            number: said.number,
        },
        Body::ViewChange(_) => Subject::ViewChange,
        Body::NewView(_) => Subject::NewView,
        Body::Fetch(Fetch::Request(_)) => Subject::FetchedRequest,
        Body::Fetch(Fetch::State(_)) => Subject::FetchedState,
        Body::Snapshot(_) => Subject::Snapshot,
    }
}

fn is_about(subject: &Subject, message: &Checked) -> bool
    ensures { result ≡ is_about subject.now message.now }
{
    is_same(&about(message.body()), subject)
}

fn is_same(one: &Subject, other: &Subject) -> bool
    ensures { result ≡ is_same one.now other.now }
{
    one == other
}

// Whether it is a Fetch of the request with this digest.
fn asks_for(message: &Checked, digest: &Digest) -> bool
    ensures { result ≡ asks_for digest.now.0 message.now }
{
    match message.body() {
        Body::Fetch(Fetch::Request(wanted)) => wanted.0 == digest.0,
        _ => false,
    }
}

// Whether a replica that stands so sends it again.
fn is_wanted(message: &Checked, low: SeqNo, executed: SeqNo, view: View) -> bool
    ensures { result ≡ is_wanted_in low.0 executed.0 view.0 message.now }
{
    match message.body() {
        Body::PrePrepare(said) => low.0 < said.number.0 && view.0 <= said.view.0,
        Body::Prepare(said) => low.0 < said.number.0 && view.0 <= said.view.0,
        Body::Commit(said) => low.0 < said.number.0 && view.0 <= said.view.0,
        Body::Checkpoint(said) => low.0 < said.number.0,
        Body::ViewChange(said) => view.0 <= said.view.0,
        Body::NewView(said) => view.0 <= said.view.0,
        Body::Fetch(Fetch::State(number)) => executed.0 < number.0,
        Body::Fetch(Fetch::Request(_)) | Body::Reply(_) => true,
        Body::Request(_) | Body::Snapshot(_) => false,
    }
}
