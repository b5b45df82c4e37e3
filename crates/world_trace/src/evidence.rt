//! What replicas and clients were seen to say.

ghost use Rattle.std.specs.Prelude.{◌≡◌, List, [], ◌++◌, Some, OnOk};
ghost use Rattle.std.specs.List.{All, Contains};
ghost use Rattle.seal.specs.Opening.{CheckedMessage};
ghost use Rattle.conflicts.specs.Claims.{claim_of};
ghost use Rattle.conflicts.specs.Views.{view_claim_of};
ghost use Rattle.world_trace.specs.Heard.{AllRest, AreClaimed, HasHeard, IsClaimed, heard_in, heard_of, with_carried};

use crate::leavings::{HeardCommit, Leavings};
use crate::validity::is_invalid;
use host_types::{SeqNo, View};
use pbft_codec::Body;
use seal::{Checked, nested};
use std::alloc::{AllocError, Global};
use std::collections::BTreeMap;
use std::mem::replace;
use world_chart::{Blame, Claim, Leaving, Topic, claim_of, leaf_claim_of, view_claim_of};
use world_script::{Input, Row};

/// What claims are about that may contradict each other.
#[derive(Clone, Copy, Debug, PartialEq, Eq, PartialOrd, Ord)]
enum Subject {
    Vote { number: SeqNo, view: View },
    Checkpoint { number: SeqNo },
    ViewChange { view: View },
    NewView { view: View },
    Leaf { leaf: u64 },
}

/// Whose claims are about one thing.
#[derive(Clone, Copy, Debug, PartialEq, Eq, PartialOrd, Ord)]
struct Place {
    signer: u32,
    subject: Subject,
}

impl Place {
    /// Where a claim belongs. Claims that contradict each other belong to one place.
    fn of(claim: &Claim) -> Place {
        let subject = match claim.topic {
            Topic::Vote { view, number, .. } => Subject::Vote { number, view },
            Topic::Checkpoint { number } => Subject::Checkpoint { number },
            Topic::ViewChange { view } => Subject::ViewChange { view },
            Topic::NewView { view } => Subject::NewView { view },
            Topic::Leaf { leaf } => Subject::Leaf { leaf },
        };
        Place {
            signer: claim.signer,
            subject,
        }
    }
}

/// What messages claim, those that are nested in others too.
#[derive(Drop)]
pub(crate) struct Evidence {
    alloc: Global,
    /// Each claim once, in the order in which they were heard.
    said: BTreeMap<Place, Vec<Claim>>,
    leavings: Leavings,
    /// Blame that nobody asked for yet.
    news: Vec<Blame>,
}

impl Evidence {
    pub(crate) fn new(alloc: Global) -> Evidence
        ensures { HasHeard [] result }
    {
        Evidence {
            alloc,
            said: BTreeMap::new(alloc),
            leavings: Leavings::new(alloc),
            news: Vec::new(alloc),
        }
    }

    /// Adds the message that a row was given.
    pub(crate) fn add(&mut self, row: &Row) -> Result<(), AllocError>
        ensures { OnOk result ((ms : List CheckedMessage) → HasHeard ms self.old → HasHeard (ms ++ heard_in row.now.input) self.new) }
    {
        match row.input() {
            Input::Message(message) => self.add_whole(message),
            Input::Timeout => Ok(()),
        }
    }

    /// Adds a message and what is nested in it, which is at most two levels deep.
    fn add_whole(&mut self, message: &Checked) -> Result<(), AllocError>
        ensures { OnOk result ((ms : List CheckedMessage) → All (Contains ms) (heard_of message.now) → HasHeard ms self.old → HasHeard ms self.new) }
    {
        self.add_one(message)?;
        let carried = nested(self.alloc, message)?;
        self.add_each_inside(&carried)
    }

    /// Adds messages and those that each of them holds itself.
    fn add_each_inside(&mut self, messages: &[Checked]) -> Result<(), AllocError>
        ensures { OnOk result ((ms : List CheckedMessage) → All (λ m. All (Contains ms) (with_carried m)) messages.now → HasHeard ms self.old → HasHeard ms self.new) }
    {
        for message in messages {
            self.add_inside(message)?;
        }
        Ok(())
    }

    /// Adds a message and those that it holds itself.
    fn add_inside(&mut self, message: &Checked) -> Result<(), AllocError>
        ensures { OnOk result ((ms : List CheckedMessage) → All (Contains ms) (with_carried message.now) → HasHeard ms self.old → HasHeard ms self.new) }
    {
        self.add_one(message)?;
        let carried = nested(self.alloc, message)?;
        self.add_each(&carried)
    }

    /// Adds messages, each by itself.
    fn add_each(&mut self, messages: &[Checked]) -> Result<(), AllocError>
        ensures { OnOk result ((ms : List CheckedMessage) → All (Contains ms) messages.now → HasHeard ms self.old → HasHeard ms self.new) }
    {
        for message in messages {
            self.add_one(message)?;
        }
        Ok(())
    }

    /// Adds what a message claims itself.
    fn add_one(&mut self, message: &Checked) -> Result<(), AllocError>
        ensures { OnOk result ((ms : List CheckedMessage) → Contains ms message.now → HasHeard ms self.old → HasHeard ms self.new) }
    {
        self.hear_vote(message)?;
        self.hear_change(message)?;
        self.hear_leaf(message)
    }

    /// Hears a vote or a Checkpoint, if it is one.
    fn hear_vote(&mut self, message: &Checked) -> Result<(), AllocError>
        ensures { OnOk result ((ms : List CheckedMessage) → Contains ms message.now → HasHeard ms self.old → HasHeard ms self.new) }
    {
        let Some(claim) = claim_of(message) else {
            return Ok(());
        };
        if !self.hear(claim)? {
            return Ok(());
        }
        self.keep_commit(message, claim)
    }

    /// Keeps a Commit, which claims this.
    fn keep_commit(&mut self, message: &Checked, claim: Claim) -> Result<(), AllocError>
        requires { claim_of message.now.message ≡ Some claim }
        ensures { OnOk result ((ms : List CheckedMessage) → Contains ms message.now → HasHeard ms self.old → HasHeard ms self.new) }
    {
        match message.body() {
            Body::Commit(commit) => {
                let said = HeardCommit {
                    signer: claim.signer,
                    commit: *commit,
                };
                self.leavings.commit(said, &mut self.news)
            }
            _ => Ok(()),
        }
    }

    /// Hears a ViewChange or a NewView, if it is one.
    fn hear_change(&mut self, message: &Checked) -> Result<(), AllocError>
        ensures { OnOk result ((ms : List CheckedMessage) → Contains ms message.now → HasHeard ms self.old → HasHeard ms self.new) }
    {
        let Some(claim) = view_claim_of(message) else {
            return Ok(());
        };
        if !self.hear(claim)? {
            return Ok(());
        }
        self.add_if_invalid(message, claim)?;
        self.keep_leaving(message, claim)
    }

    /// Adds a ViewChange or a NewView, which claims this, to the news where it isn't valid.
    fn add_if_invalid(&mut self, message: &Checked, claim: Claim) -> Result<(), AllocError>
        requires { view_claim_of message.now.message ≡ Some claim }
        ensures { OnOk result ((ms : List CheckedMessage) → Contains ms message.now → HasHeard ms self.old → HasHeard ms self.new) }
    {
        if is_invalid(message) {
            self.news.push(Blame::Invalid(claim))?;
        }
        Ok(())
    }

    /// Keeps a ViewChange, which claims this.
    fn keep_leaving(&mut self, message: &Checked, claim: Claim) -> Result<(), AllocError>
        requires { view_claim_of message.now.message ≡ Some claim }
        ensures { OnOk result ((ms : List CheckedMessage) → Contains ms message.now → HasHeard ms self.old → HasHeard ms self.new) }
    {
        match message.body() {
            Body::ViewChange(change) => {
                let leaving = Leaving::new(self.alloc, change)?;
                self.leavings.leave(claim, leaving, &mut self.news)
            }
            _ => Ok(()),
        }
    }

    /// Hears which leaf signed a message.
    fn hear_leaf(&mut self, message: &Checked) -> Result<(), AllocError>
        ensures { OnOk result ((ms : List CheckedMessage) → Contains ms message.now → HasHeard ms self.old → HasHeard ms self.new) }
    {
        if let Some(claim) = leaf_claim_of(message) {
            self.hear(claim)?;
        }
        Ok(())
    }

    /// Hears a claim. Whether it was not heard before.
    fn hear(&mut self, claim: Claim) -> Result<bool, AllocError>
        ensures { OnOk result ((ms : List CheckedMessage) → IsClaimed ms claim → HasHeard ms self.old → HasHeard ms self.new) }
    {
        let place = Place::of(&claim);
        if let Some(said) = self.said.get_mut(&place) {
            return add_claim(said, claim, &mut self.news);
        }
        let mut said = Vec::new(self.alloc);
        said.push(claim)?;
        match self.said.insert(place, said) {
            Ok(_) => Ok(true),
            Err(_) => Err(AllocError),
        }
    }

    /// Who is blamed by what came since the last call; of two claims the one that was heard earlier stands first.
    pub(crate) fn news(&mut self) -> Vec<Blame>
        ensures rest { (ms : List CheckedMessage) → HasHeard ms self.old → AllRest ms result.items }
        ensures kept { (ms : List CheckedMessage) → HasHeard ms self.old → HasHeard ms self.new }
    {
        replace(&mut self.news, Vec::new(self.alloc))
    }
}

/// Adds a claim to those of its place, and the earlier ones that it contradicts to the news, with it. Whether it was not there.
fn add_claim(said: &mut Vec<Claim>, claim: Claim, news: &mut Vec<Blame>) -> Result<bool, AllocError>
    ensures { OnOk result ((ms : List CheckedMessage) → IsClaimed ms claim → AreClaimed ms said.old.items → AllRest ms news.old.items → AreClaimed ms said.new.items × AllRest ms news.new.items) }
{
    if said.contains(&claim) {
        return Ok(false);
    }
    add_contradicted(said, claim, news)?;
    said.push(claim)?;
    Ok(true)
}

/// Adds to the news each of the claims that another contradicts, with that one.
fn add_contradicted(said: &[Claim], claim: Claim, news: &mut Vec<Blame>) -> Result<(), AllocError>
    ensures { OnOk result ((ms : List CheckedMessage) → IsClaimed ms claim → AreClaimed ms said.now → AllRest ms news.old.items → AllRest ms news.new.items) }
{
    for earlier in said {
        add_if_contradicted(earlier, claim, news)?;
    }
    Ok(())
}

/// Adds two claims to the news where they contradict each other.
fn add_if_contradicted(one: &Claim, other: Claim, news: &mut Vec<Blame>) -> Result<(), AllocError>
    ensures { OnOk result ((ms : List CheckedMessage) → IsClaimed ms one.now → IsClaimed ms other → AllRest ms news.old.items → AllRest ms news.new.items) }
{
    if one.contradicts(&other) {
        news.push(Blame::Twice { one: *one, other })?;
    }
    Ok(())
}
