//! A replica's recorded votes.

ghost use Rattle.std.specs.Prelude.{◌≡◌, ℕ, ◌+◌, ◌<◌, ◌≤◌, ◌^◌, ◌==◌, ◌&&◌, length, List, None, is_some, map, IfOk, IfErr, IfSome, OnOk, OnErr, IsSome};
ghost use Rattle.host_types.specs.Configuration.{IsConfiguration};
ghost use Rattle.seal.specs.Votes.{vote_of};
ghost use Rattle.quorum_log.specs.Reading.{position_fault, fault_of};
ghost use Rattle.std.specs.Option.{option_copied, option_map, option_map_or, unwrap_or};
ghost use Rattle.ballots.specs.Core.{names, of_view};
ghost use Rattle.ballots.specs.Tables.{entries_in};
ghost use Rattle.ballots.specs.Validity.{greatest_of};
ghost use Rattle.quorum_log.specs.Asking.{Represents};
ghost use Rattle.quorum_log.specs.Slots.{empty_slot};
ghost use Rattle.quorum_log.specs.declared.fault.LogFault.TheVariants.{Memory};
ghost use Rattle.quorum_log.specs.Log.{AreBetweenMarks, AreProposals, IsBetweenMarks, KeptLog, IsRefusedFor, accepted, checked_certificate, certified_at, discarded, entered, is_committed_at, is_under_floor, left, pre_prepares_in, proposal_in, start, vote_fault};

use crate::certificate::CheckedCertificate;
use crate::fault::LogFault;
use crate::slot::Slot;
use crate::window::Window;
use host_types::{Config, Digest, SeqNo, View};
use seal::{Checked, CheckedList, Vote};
use std::alloc::{AllocError, Global};
use std::marker::Model;
use std::sync::Arc;

/// A replica's recorded votes between the water marks, as tables: `n - low - 1` is the index of
/// number n, which has a slot for each view.
#[derive(Drop)]
pub struct QuorumLog {
    alloc: Global,
    config: Arc<Config>,
    view: View,
    // The floor of the view, if it is entered.
    floor: Option<SeqNo>,
    window: Window,
}

impl Model for QuorumLog {
    ghost use Rattle.quorum_log.specs.Log.{KeptLog};
    ghost use Rattle.quorum_log.specs.Reading.{AreKept, log_in};

    ghost Value = { KeptLog };

    ghost view = { λ l. record { config = l.config.value; log = log_in l.view.0 l.floor l.window.low.0 l.window.numbers.items } };

    ghost invariant = { λ l. AreKept l.config.value l.window.low.0 l.window.numbers.items };
}

impl QuorumLog {
    /// The log of no votes, in view 0, which is entered with floor 0; the low mark is 0.
    pub fn new(alloc: Global, config: &Arc<Config>) -> Result<QuorumLog, AllocError>
        ensures { IfOk result (λ l. l ≡ record { config = config.now.value; log = start }) }
    {
        Ok(QuorumLog {
            alloc,
            config: Arc::try_clone(config)?,
            view: View(0),
            floor: Some(SeqNo(0)),
            window: Window::new(alloc, 2 * usize::from(config.k()))?,
        })
    }

    /// The view that the replica is in, entered or not. It takes no memory.
    pub fn view(&self) -> View
        ensures { result.0 ≡ self.now.log.view }
    {
        View(self.view.0)
    }

    /// The low water mark. Each vote that is recorded is for a number above it, up to the high mark. It takes
    /// no memory.
    pub fn low(&self) -> SeqNo
        ensures value { result.0 ≡ self.now.log.low }
        ensures inside { AreBetweenMarks self.now }
    {
        self.window.low
    }

    /// The floor of the view, if it is entered. It takes no memory.
    pub fn floor(&self) -> Option<SeqNo>
        ensures { option_map (λ n. n.0) result ≡ self.now.log.floor }
    {
        self.floor
    }

    /// Records a vote, a `PrePrepare`, a `Prepare` or a `Commit` under the log's configuration: the first
    /// of each kind, view, number and signer counts, and another of the same digest changes nothing. It is
    /// refused for the first fault in the order of [`LogFault`], and then the log is as it was.
    pub fn accept(&mut self, message: &Checked) -> Result<(), LogFault>
        requires config { message.now.config ≡ self.old.config }
        requires vote { IsSome (vote_of message.now.message) }
        ensures faultless { OnOk result (vote_fault self.old.config self.old.log message.now.message message.now.message.body ≡ None) }
        ensures recorded { OnOk result (self.new ≡ record self.old { log = accepted self.old.log message.now.message message.now.message.body }) }
        ensures fault { IfErr result (IsRefusedFor (vote_fault self.old.config self.old.log message.now.message message.now.message.body)) }
        ensures unchanged { OnErr result (self.new ≡ self.old) }
    {
        let Some(vote) = message.vote() else {
            unreachable!();
        };
        let _ = self.config.f();
        let index = self.index_for(&vote)?;
        self.window.accept(self.alloc, index, message, &vote)
    }

    /// The index of a vote's number. A vote of a lower view is refused first, then one of a number that is
    /// not between the marks, or not above the floor of the entered view.
    fn index_for(&self, vote: &Vote) -> Result<usize, LogFault>
        ensures fault { position_fault self.now.config self.now.log vote.now ≡ fault_of result }
        ensures index { IfOk result (λ i. vote.now.number.0 ≡ self.now.log.low + 1 + i) }
    {
        if vote.view.0 < self.view.0 {
            return Err(LogFault::WrongView);
        }
        match self.window.index(vote.number) {
            Some(index) if !self.is_under_floor(vote) => Ok(index),
            _ => Err(LogFault::OutsideMarks),
        }
    }

    // Whether the number is not above the floor of the view, if that one is entered.
    fn is_under_floor(&self, vote: &Vote) -> bool
        ensures { result ≡ ((vote.now.view.0 == self.now.log.view) && is_under_floor self.now.log.floor vote.now.number.0) }
    {
        match self.floor {
            Some(floor) => vote.view == self.view && vote.number.0 <= floor.0,
            None => false,
        }
    }

    /// The digest that the view's primary proposes for a number. It takes no memory.
    pub fn pre_prepare(&self, view: View, number: SeqNo) -> Option<Digest>
        ensures { result ≡ option_map (λ m. m.body.digest) (proposal_in self.now.config self.now.log view.0 number.0) }
    {
        match self.slot(view, number) {
            Some(slot) => slot.digest(),
            None => None,
        }
    }

    /// Whether a recorded PrePrepare names the digest, of whatever view and number. It takes no memory.
    pub fn names(&self, digest: &Digest) -> bool
        ensures { result ≡ names (entries_in self.now.log.pre_prepares) digest.now.0 }
    {
        let _ = self.config.f();
        self.window.names(digest)
    }

    /// Whether a recorded PrePrepare of the view names the digest, of whatever number. It takes no memory.
    pub fn names_in(&self, view: View, digest: &Digest) -> bool
        ensures { result ≡ names (of_view view.0 (entries_in self.now.log.pre_prepares)) digest.now.0 }
    {
        let _ = self.config.f();
        self.window.names_in(view, digest)
    }

    /// The greatest number of a recorded PrePrepare of the view, if there is one. It lies between the water
    /// marks. It takes no memory.
    pub fn greatest_in(&self, view: View) -> Option<SeqNo>
        ensures greatest { option_map_or (λ n. n.0) result 0 ≡ greatest_of (map (λ m. m.body.number.0) (of_view view.0 (entries_in self.now.log.pre_prepares))) }
        ensures inside { IfSome result (λ n. IsBetweenMarks self.now n.0) }
    {
        let _ = self.config.f();
        self.window.greatest_in(view)
    }

    /// Whether a number is certified in a view: its primary proposes a digest, and 2f backups agree with it
    /// (Castro and Liskov 1999, section 4.2). That the request is there is not asked. It takes no memory.
    pub fn prepared(&self, view: View, number: SeqNo) -> bool
        ensures { result ≡ is_some (certified_at self.now.config self.now.log view.0 number.0) }
    {
        match self.slot(view, number) {
            Some(slot) => slot.is_certified(&self.config, view),
            None => false,
        }
    }

    /// Whether a number is certified in a view, and a quorum of replicas, 2f + 1, has committed. It takes no
    /// memory.
    pub fn committed(&self, view: View, number: SeqNo) -> bool
        ensures { result ≡ is_committed_at self.now.config self.now.log view.0 number.0 }
    {
        match self.slot(view, number) {
            Some(slot) => slot.is_committed(&self.config, view),
            None => false,
        }
    }

    /// The certificate of a number in a view, or none where it is not certified there: the PrePrepare, and
    /// the matching Prepares of the 2f backups of least ids. It is refused for lack of memory alone.
    pub fn certificate(
        &self,
        view: View,
        number: SeqNo,
    ) -> Result<Option<CheckedCertificate>, LogFault>
        ensures certificate { IfOk result (λ o. o ≡ checked_certificate self.now.config self.now.log view.0 number.0) }
        ensures fault { IfErr result (λ fault. fault ≡ Memory) }
    {
        match self.slot(view, number) {
            Some(slot) => Ok(slot.certificate(self.alloc, &self.config, view)?),
            None => Ok(None),
        }
    }

    // The slot of a number in a view, if it was opened.
    fn slot(&self, view: View, number: SeqNo) -> Option<&Slot>
        ensures represents { Represents self.now.config self.now.log view.0 number.0 (unwrap_or (option_copied result) empty_slot) }
        ensures legal { IsConfiguration self.now.config }
    {
        let _ = self.config.f();
        self.window.slot(view, self.window.index(number)?)
    }

    /// Leaves the view for this one, which is not entered yet. It takes no memory.
    pub fn leave(&mut self, view: View)
        requires { self.old.log.view < view.0 }
        ensures { self.new ≡ record self.old { log = left view.0 self.old.log } }
    {
        self.view = view;
        self.floor = None;
    }

    /// Enters a view with this floor, by the PrePrepares of its NewView for the numbers above the floor one
    /// after another (Castro and Liskov 1999, section 4.4): votes of lower views, and of this one at or
    /// below the floor, are dropped, and its PrePrepares up to the last of these numbers are these, where
    /// they lie between the marks. It is refused for lack of memory alone, and then the log is as it was.
    pub fn enter(
        &mut self,
        view: View,
        floor: SeqNo,
        pre_prepares: &CheckedList,
    ) -> Result<(), LogFault>
        requires config { pre_prepares.now.config ≡ self.old.config }
        requires view { self.old.log.view ≤ view.0 }
        requires proposals { AreProposals view.0 (floor.0 + 1) pre_prepares.now.messages }
        requires bound { floor.0 + length pre_prepares.now.messages < 2 ^ 48 }
        ensures entered { OnOk result (self.new ≡ record self.old { log = entered self.old.config view.0 floor.0 (floor.0 + length pre_prepares.now.messages) (pre_prepares_in pre_prepares.now.messages) self.old.log }) }
        ensures unchanged { OnErr result (self.new ≡ self.old) }
        ensures fault { IfErr result (λ fault. fault ≡ Memory) }
    {
        let messages = pre_prepares.as_slice();
        let _ = self.config.f();
        let mut given = self.window.prepare(self.alloc, view, floor, messages)?;
        let top = floor.0 + messages.len() as u64;
        self.window.enter(view, floor, top, messages, &mut given);
        self.view = view;
        self.floor = Some(floor);
        Ok(())
    }

    /// Discards what is recorded at or below a number above the low mark, which becomes the low mark. It
    /// takes no memory.
    pub fn discard_to(&mut self, number: SeqNo)
        ensures { self.new ≡ record self.old { log = discarded number.0 self.old.log } }
    {
        self.window.discard_to(number);
    }
}
