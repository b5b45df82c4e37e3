//! The votes that are kept for a replica.

ghost use Rattle.std.specs.Prelude.{◌≡◌, ◌≤◌, ◌+◌, not, ◌&&◌, [], length, position, IfOk, IfSome, OnErr, OnOk};
ghost use Rattle.std.specs.List.{filter, list_any};
ghost use Rattle.early_votes.specs.Holding.{HandsIn, between_marks, is_above, is_at, is_awaited, is_early, is_kind, is_near_number, is_near_view, is_to_keep, is_vote, kept, most_held, moved, none_held};

use host_types::{Config, SeqNo, View};
use seal::{Checked, Vote, VoteKind};
use std::alloc::{AllocError, Global};
use std::marker::Model;
use std::sync::Arc;

/// The early votes that are kept for a replica: of its view or the next one, for numbers at most as far above its high
/// water mark as that is above the low one, the first of each kind, view, number and signer. So there are at most 960.
#[derive(Drop)]
pub struct Held {
    config: Arc<Config>,
    /// The replica's low mark.
    low: SeqNo,
    view: View,
    /// In the order in which they came.
    votes: Vec<Checked>,
}

impl Model for Held {
    ghost use Rattle.std.specs.Prelude.{◌≡◌, ◌≤◌, length, All};
    ghost use Rattle.early_votes.specs.Holding.{HeldFacts, most_held};

    ghost Value = { HeldFacts };

    ghost view = { λ h. record { config = h.config.value; low = h.low.0; view = h.view.0; votes = h.votes.items } };

    ghost invariant = { λ h. All (λ m. m.config ≡ h.config.value) h.votes.items × (length h.votes.items ≤ most_held h.config.value) };
}

impl Held {
    /// Nothing is kept, for a replica before its first message.
    pub fn new(alloc: Global, config: &Arc<Config>) -> Result<Held, AllocError>
        ensures { IfOk result (λ h. h ≡ none_held config.now.value) }
    {
        Ok(Held {
            config: Arc::try_clone(config)?,
            low: SeqNo(0),
            view: View(0),
            votes: Vec::new(alloc),
        })
    }

    /// Whether the message is a vote for a number above the high mark. It takes no memory.
    pub fn is_early(&self, message: &Checked) -> bool
        ensures { result ≡ is_early self.now message.now }
    {
        match message.vote() {
            Some(vote) => self.is_above(&vote),
            None => false,
        }
    }

    /// Keeps a vote that is early; any other message is passed over, and so is a vote of another view, a number too far
    /// ahead, or a kind, view, number and signer of which one is kept. The error is that memory ran out: the vote is
    /// lost, and the others stay.
    pub fn keep(&mut self, message: Checked) -> Result<(), AllocError>
        requires config { message.config ≡ self.old.config }
        ensures kept { OnOk result (self.new ≡ kept self.old message) }
        ensures unchanged { OnErr result (self.new ≡ self.old) }
    {
        if self.is_to_keep(&message) && self.votes.len() < self.most() {
            self.votes.push(message)?;
        }
        Ok(())
    }

    /// The replica has this low mark and this view: votes that it can't record any more go. It takes no memory.
    pub fn move_to(&mut self, low: SeqNo, view: View)
        ensures { self.new ≡ moved self.old low.0 view.0 }
    {
        self.low = low;
        self.view = view;
        drop_left(&mut self.votes, low, view);
    }

    /// Drops all votes. It takes no memory.
    pub fn clear(&mut self)
        ensures { self.new ≡ record self.old { votes = [] } }
    {
        self.votes.clear();
    }

    /// Takes out the first vote that is on time; the others stay, in their order. None where all are early. It takes no
    /// memory.
    pub fn next(&mut self) -> Option<Checked>
        ensures next { HandsIn self.old result self.new }
        ensures config { IfSome result (λ m. m.config ≡ self.old.config) }
        ensures fewer { IfSome result (λ m. length self.new.votes + 1 ≡ length self.old.votes) }
    {
        let index = self.place_of_next()?;
        Some(self.votes.remove(index))
    }

    /// How many votes are kept. It takes no memory.
    pub fn len(&self) -> usize
        ensures count { result ≡ length self.now.votes }
        ensures most { result ≤ most_held self.now.config }
    {
        self.votes.len()
    }

    fn place_of_next(&self) -> Option<usize>
        ensures { result ≡ position (λ m. not (is_early self.now m)) self.now.votes }
    {
        self.votes.iter().position(|vote| !self.is_early(vote))
    }

    fn is_to_keep(&self, message: &Checked) -> bool
        ensures { result ≡ is_vote (is_to_keep self.now) message.now }
    {
        match message.vote() {
            Some(vote) => { self.is_above(&vote) && self.is_near(&vote) && !self.has_at(&vote) }
            None => false,
        }
    }

    // How many numbers lie between the marks.
    fn between_marks(&self) -> u64
        ensures { result ≡ between_marks self.now.config }
    {
        2 * u64::from(self.config.k())
    }

    fn most(&self) -> usize
        ensures { result ≡ most_held self.now.config }
    {
        12 * usize::from(self.config.k()) * usize::from(self.config.replica_count())
    }

    fn is_above(&self, vote: &Vote) -> bool
        ensures { result ≡ is_above self.now vote.now }
    {
        vote.number.0.saturating_sub(self.low.0) > self.between_marks()
    }

    fn is_near(&self, vote: &Vote) -> bool
        ensures { result ≡ (is_near_number self.now vote.now && is_near_view self.now vote.now) }
    {
        vote.number.0.saturating_sub(self.low.0) <= 4 * u64::from(self.config.k())
            && self.view.0 <= vote.view.0
            && vote.view.0 - self.view.0 <= 1
    }

    fn has_at(&self, vote: &Vote) -> bool
        ensures { result ≡ list_any (is_vote (is_at vote.now)) self.now.votes }
    {
        self.votes.iter().any(|kept| is_vote_at(vote, kept))
    }
}

// Whether the message is a vote of this one's kind, view, number and signer.
fn is_vote_at(vote: &Vote, kept: &Checked) -> bool
    ensures { result ≡ is_vote (is_at vote.now) kept.now }
{
    match kept.vote() {
        Some(other) => is_at(vote, &other),
        None => false,
    }
}

fn is_at(one: &Vote, other: &Vote) -> bool
    ensures { result ≡ is_at one.now other.now }
{
    is_kind(one.kind, other.kind)
        && one.view == other.view
        && one.number == other.number
        && one.signer == other.signer
}

fn is_kind(one: VoteKind, other: VoteKind) -> bool
    ensures { result ≡ is_kind one other }
{
    match (one, other) {
        (VoteKind::PrePrepare, VoteKind::PrePrepare)
        | (VoteKind::Prepare, VoteKind::Prepare)
        | (VoteKind::Commit, VoteKind::Commit) => true,
        _ => false,
    }
}

// Drops votes that a replica with this low mark and this view can't record.
fn drop_left(votes: &mut Vec<Checked>, low: SeqNo, view: View)
    ensures { votes.new.items ≡ filter (is_vote (is_awaited low.0 view.0)) votes.old.items }
{
    votes.retain(|vote| is_awaited(vote, low, view));
}

fn is_awaited(message: &Checked, low: SeqNo, view: View) -> bool
    ensures { result ≡ is_vote (is_awaited low.0 view.0) message.now }
{
    match message.vote() {
        Some(vote) => low.0 < vote.number.0 && view.0 <= vote.view.0,
        None => false,
    }
}
