//! What a replica must do next: the first of its duties that is due (Castro and Liskov 1999, section 4).

ghost use Rattle.std.specs.Prelude.{◌≡◌, ◌+◌, ◌<◌, Some, true};
ghost use Rattle.std.specs.Option.{option_map};
ghost use Rattle.pbft_model.specs.Setup.{span, setup_of};
ghost use Rattle.replica_core.specs.declared.duties.Duty.TheVariants as duties;
ghost use Rattle.pbft_model.specs.Duties as model;
ghost use Rattle.replica_core.specs.Meanings.{Finds, IsDue, at_once, by_taken, fetch_for, in_view};

use crate::kept::{Core, digest_of};
use host_types::limits::SEQUENCE_NUMBER_LIMIT;
use host_types::{ClientId, Digest, ReplicaId, SeqNo, View};
use pbft_codec::{Body, Fetch};
use replica_stores::valid_new_view;
use seal::Checked;

/// There is no view of this number or above.
const VIEW_LIMIT: u64 = 4_294_967_296;

/// A duty: what is to be done.
#[derive(Clone, Copy)]
pub(crate) enum Duty {
    /// To change to a view.
    ChangeTo(View),
    /// To send the reply of the number just executed.
    Reply,
    /// To send the Checkpoint of the number just executed.
    Checkpoint,
    /// To send a client its last reply again.
    AnswerAgain(ClientId),
    /// To pass on the held request of this digest.
    Relay(Digest, ReplicaId),
    /// To send the snapshot that is kept at this number.
    Supply(SeqNo, ReplicaId),
    /// To enter the view of the NewView just taken.
    Enter,
    /// To install the state that the Snapshot just taken reads as.
    Install,
    /// To raise the low mark to a stable number with this digest.
    Rise(SeqNo, Digest),
    Propose(SeqNo, Digest),
    Prepare(SeqNo, Digest),
    Commit(SeqNo, Digest),
    Execute(SeqNo, Digest),
    /// To open the view by a NewView.
    Open,
    FetchState(SeqNo),
    FetchRequest(Digest),
    /// It wants a view or a number that is not there.
    WornOut,
}

impl Core {
    /// The first duty that is due. It takes no memory.
    pub(crate) fn due(&self) -> Option<Duty>
        ensures { IsDue (setup_of self.now.config) self.now.me self.now.core result }
    {
        if let Some(duty) = self.due_at_once() {
            return Some(duty);
        }
        if let Some(duty) = self.due_on_taken() {
            return Some(duty);
        }
        if let Some(duty) = self.due_rise() {
            return Some(duty);
        }
        if let Some(duty) = self.due_in_view() {
            return Some(duty);
        }
        if let Some(duty) = self.due_join() {
            return Some(duty);
        }
        if let Some(duty) = self.due_open() {
            return Some(duty);
        }
        if let Some(duty) = self.due_fetch_state() {
            return Some(duty);
        }
        self.due_fetch_request()
    }

    // What a timeout or an execution leaves to do.
    fn due_at_once(&self) -> Option<Duty>
        ensures { Finds self.now at_once result }
    {
        if let Some(duty) = self.due_on_timeout() {
            return Some(duty);
        }
        if let Some(duty) = self.due_reply() {
            return Some(duty);
        }
        self.due_checkpoint()
    }

    // What the message just taken gives.
    fn due_on_taken(&self) -> Option<Duty>
        ensures { Finds self.now by_taken result }
    {
        let message = self.step.taken.as_ref()?;
        if let Some(duty) = self.due_answer(message) {
            return Some(duty);
        }
        if let Some(duty) = self.due_supply(message) {
            return Some(duty);
        }
        if let Some(duty) = self.due_enter(message) {
            return Some(duty);
        }
        self.due_install(message)
    }

    // What is due only in a view that the replica is active in (section 4.2).
    fn due_in_view(&self) -> Option<Duty>
        ensures { Finds self.now in_view result }
    {
        if !self.is_active() {
            return None;
        }
        if let Some(duty) = self.due_propose() {
            return Some(duty);
        }
        if let Some(duty) = self.due_prepare() {
            return Some(duty);
        }
        if let Some(duty) = self.due_commit() {
            return Some(duty);
        }
        self.due_execute()
    }

    // Timeout: change to the next view.
    fn due_on_timeout(&self) -> Option<Duty>
        ensures { Finds self.now model.due_on_timeout result }
    {
        if !self.step.timed_out {
            return None;
        }
        let next = u64::from(self.view().0) + 1;
        if next == VIEW_LIMIT {
            Some(Duty::WornOut)
        } else {
            Some(Duty::ChangeTo(View(next as u32)))
        }
    }

    // The reply of the number just executed.
    fn due_reply(&self) -> Option<Duty>
        ensures { Finds self.now (λ c me s. model.due_reply me s s.reply_due) result }
    {
        self.step.owed.reply.as_ref()?;
        Some(Duty::Reply)
    }

    // The Checkpoint of the number just executed.
    fn due_checkpoint(&self) -> Option<Duty>
        ensures { Finds self.now model.due_checkpoint result }
    {
        if self.step.owed.checkpoint {
            Some(Duty::Checkpoint)
        } else {
            None
        }
    }

    // The Request just taken has its client's last time.
    fn due_answer(&self, message: &Checked) -> Option<Duty>
        requires { self.now.core.taken ≡ Some message.now.message }
        ensures { Finds self.now (λ c me s. model.due_answer me s) result }
    {
        let Body::Request(request) = message.body() else {
            return None;
        };
        let client = ClientId(message.signer().1);
        if self.step.is_fresh && self.service.last_time(client) == Some(request.time) {
            Some(Duty::AnswerAgain(client))
        } else {
            None
        }
    }

    // The Fetch just taken names a request that is held, or a snapshot that is kept.
    fn due_supply(&self, message: &Checked) -> Option<Duty>
        requires under { message.now.config ≡ self.now.config }
        requires taken { self.now.core.taken ≡ Some message.now.message }
        ensures { Finds self.now model.due_supply result }
    {
        let Body::Fetch(wanted) = message.body() else {
            return None;
        };
        if !self.step.is_fresh {
            return None;
        }
        let asker = ReplicaId(message.signer().1 as u8);
        match wanted {
            Fetch::Request(digest) => {
                self.requests.find(digest)?;
                Some(Duty::Relay(*digest, asker))
            }
            Fetch::State(number) => {
                self.checkpoints.snapshot_of(*number)?;
                Some(Duty::Supply(*number, asker))
            }
        }
    }

    // The NewView just taken is valid and for a view that is awaited.
    fn due_enter(&self, message: &Checked) -> Option<Duty>
        requires under { message.now.config ≡ self.now.config }
        requires taken { self.now.core.taken ≡ Some message.now.message }
        ensures { Finds self.now (λ c me s. model.due_enter c s) result }
    {
        let Body::NewView(opened) = message.body() else {
            return None;
        };
        if self.is_awaited(opened.view) && valid_new_view(&self.config, message).is_ok() {
            Some(Duty::Enter)
        } else {
            None
        }
    }

    // The Snapshot just taken is above what was executed, has a stable digest and reads as a state.
    fn due_install(&self, message: &Checked) -> Option<Duty>
        requires { self.now.core.taken ≡ Some message.now.message }
        ensures { Finds self.now (λ c me s. model.due_install c s) result }
    {
        let Body::Snapshot(snapshot) = message.body() else {
            return None;
        };
        self.step.reading.as_ref()?;
        if snapshot.number <= self.executed() {
            return None;
        }
        let digest = self.checkpoints.stable(snapshot.number)?;
        if digest == digest_of(snapshot.state.as_slice()) {
            Some(Duty::Install)
        } else {
            None
        }
    }

    // The greatest number above the low mark, not above what was executed, that is stable with the
    // digest of the snapshot kept there.
    fn due_rise(&self) -> Option<Duty>
        ensures { Finds self.now (λ c me s. model.due_rise c s) result }
    {
        let (number, digest) = self.checkpoints.stable_kept(self.executed())?;
        Some(Duty::Rise(number, digest))
    }

    // Active primary: the first request that is new and not proposed gets the next number, if it is
    // between the marks.
    fn due_propose(&self) -> Option<Duty>
        requires { self.now.core.active ≡ true }
        ensures { Finds self.now model.due_propose result }
    {
        if !self.leads() {
            return None;
        }
        let digest = self
            .requests
            .first_new(&self.service, &self.log, self.view(), &self.sent)?;
        let number = self.next_number();
        if number > self.low().0 + self.span() {
            return None;
        }
        if number == SEQUENCE_NUMBER_LIMIT {
            Some(Duty::WornOut)
        } else {
            Some(Duty::Propose(SeqNo(number), digest))
        }
    }

    // Active backup: Prepare at the lowest number whose recorded PrePrepare names a request that is held
    // or null, once for each number.
    fn due_prepare(&self) -> Option<Duty>
        requires { self.now.core.active ≡ true }
        ensures { Finds self.now model.due_prepare result }
    {
        if self.leads() {
            return None;
        }
        for index in 0..self.span() {
            let number = self.number_at(index);
            if let Some(digest) = self.to_prepare(number) {
                return Some(Duty::Prepare(number, digest));
            }
        }
        None
    }

    // The number at an index between the marks.
    fn number_at(&self, index: u64) -> SeqNo
        requires { index < span self.now.config }
        ensures { result.0 ≡ self.now.core.low + 1 + index }
    {
        SeqNo(self.log.low().0 + 1 + index)
    }

    // The digest to prepare at a number.
    fn to_prepare(&self, number: SeqNo) -> Option<Digest>
        ensures { Finds self.now (λ c me s. model.prepare_for c me s number.0) (option_map (λ digest. duties.Prepare number digest) result) }
    {
        if self.sent.has_prepared(number) {
            return None;
        }
        let digest = self.log.pre_prepare(self.view(), number)?;
        if self.is_known(&digest) {
            Some(digest)
        } else {
            None
        }
    }

    // Active: Commit at the lowest number that is prepared, once for each number.
    fn due_commit(&self) -> Option<Duty>
        requires { self.now.core.active ≡ true }
        ensures { Finds self.now model.due_commit result }
    {
        for index in 0..self.span() {
            let number = self.number_at(index);
            if let Some(digest) = self.to_commit(number) {
                return Some(Duty::Commit(number, digest));
            }
        }
        None
    }

    // The digest to commit at a number.
    fn to_commit(&self, number: SeqNo) -> Option<Digest>
        ensures { Finds self.now (λ c me s. model.commit_for c me s number.0) (option_map (λ digest. duties.Commit number digest) result) }
    {
        if self.sent.has_committed(number) {
            return None;
        }
        self.prepared_at(number)
    }

    // Active, and the number after the last executed is committed.
    fn due_execute(&self) -> Option<Duty>
        requires { self.now.core.active ≡ true }
        ensures { Finds self.now (λ c me s. model.due_execute c s) result }
    {
        let number = SeqNo(self.service.number().0 + 1);
        let digest = self.committed_at(number)?;
        Some(Duty::Execute(number, digest))
    }

    // ViewChanges of f + 1 different others for higher views: change to the smallest of those views.
    fn due_join(&self) -> Option<Duty>
        ensures { Finds self.now model.due_join result }
    {
        let view = self.changes.to_join(self.view(), self.id)?;
        Some(Duty::ChangeTo(view))
    }

    // Changing to a view as its primary, with ViewChanges of a quorum, its own among them.
    fn due_open(&self) -> Option<Duty>
        ensures { Finds self.now model.due_open result }
    {
        let view = self.view();
        if !self.is_active()
            && self.leads()
            && self.changes.wants(view, self.id.0)
            && self.changes.has_quorum(view)
        {
            Some(Duty::Open)
        } else {
            None
        }
    }

    // The snapshot of the greatest stable number above what was executed, once.
    fn due_fetch_state(&self) -> Option<Duty>
        ensures { Finds self.now model.due_fetch_state result }
    {
        let number = self.checkpoints.stable_above(self.executed())?;
        if self.sent.has_asked_state(number) {
            None
        } else {
            Some(Duty::FetchState(number))
        }
    }

    // Active: the request of a recorded PrePrepare of this view that is not held, once.
    fn due_fetch_request(&self) -> Option<Duty>
        ensures { Finds self.now model.due_fetch_request result }
    {
        if !self.is_active() {
            return None;
        }
        for index in 0..self.span() {
            if let Some(digest) = self.to_fetch(self.number_at(index)) {
                return Some(Duty::FetchRequest(digest));
            }
        }
        None
    }

    // The digest of the request that lacks at a number.
    fn to_fetch(&self, number: SeqNo) -> Option<Digest>
        ensures { Finds self.now (λ c me s. fetch_for c me s number.0) (option_map (λ digest. duties.FetchRequest digest) result) }
    {
        let digest = self.log.pre_prepare(self.view(), number)?;
        if self.is_known(&digest) {
            return None;
        }
        if self.sent.has_asked_request(&digest) {
            return None;
        }
        Some(digest)
    }
}
