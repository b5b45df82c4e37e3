//! ViewChanges, and Commits of their signers that they hide.

ghost use Rattle.std.specs.Prelude.{List, OnOk};
ghost use Rattle.seal.specs.Opening.{CheckedMessage};
ghost use Rattle.world_trace.specs.Heard.{AllRest, AreLeft, AreCommits, IsHeardCommit, IsHeardLeft, KeepsHeard};

use host_types::{SeqNo, View};
use pbft_codec::Commit;
use std::alloc::{AllocError, Global};
use std::cmp::max;
use std::collections::BTreeMap;
use world_chart::{Blame, Claim, Leaving};

/// Whose Commit for which number of which view.
#[derive(Clone, Copy, Debug, PartialEq, Eq, PartialOrd, Ord)]
struct CommitPlace {
    signer: u32,
    number: SeqNo,
    view: View,
}

impl CommitPlace {
    /// The first place behind those for this number of views up to this one.
    fn behind(signer: u32, number: SeqNo, view: View) -> Option<CommitPlace> {
        match view.0.checked_add(1) {
            Some(next) => Some(CommitPlace {
                signer,
                number,
                view: View(next),
            }),
            None => CommitPlace::above(signer, number),
        }
    }

    /// The first place for a higher number.
    fn above(signer: u32, number: SeqNo) -> Option<CommitPlace> {
        let next = number.0.checked_add(1)?;
        Some(CommitPlace {
            signer,
            number: SeqNo(next),
            view: View(0),
        })
    }
}

/// Whose ViewChange for which view.
#[derive(Clone, Copy, Debug, PartialEq, Eq, PartialOrd, Ord)]
struct LeavingPlace {
    signer: u32,
    view: View,
}

/// A Commit that was heard.
#[derive(Clone, Copy)]
pub(crate) struct HeardCommit {
    pub(crate) signer: u32,
    pub(crate) commit: Commit,
}

/// A ViewChange that was heard.
#[derive(Drop)]
struct Left {
    claim: Claim,
    leaving: Leaving,
}

/// The Commits and the ViewChanges that were heard, each once, by their signers: so that neither looks through all of the other.
#[derive(Drop)]
pub(crate) struct Leavings {
    alloc: Global,
    commits: BTreeMap<CommitPlace, Vec<HeardCommit>>,
    left: BTreeMap<LeavingPlace, Vec<Left>>,
}

impl Leavings {
    pub(crate) fn new(alloc: Global) -> Leavings
        ensures { (ms : List CheckedMessage) → KeepsHeard ms result }
    {
        Leavings {
            alloc,
            commits: BTreeMap::new(alloc),
            left: BTreeMap::new(alloc),
        }
    }

    /// Hears a Commit, and adds to the news each ViewChange that hides it.
    pub(crate) fn commit(
        &mut self,
        said: HeardCommit,
        news: &mut Vec<Blame>,
    ) -> Result<(), AllocError>
        ensures { OnOk result ((ms : List CheckedMessage) → IsHeardCommit ms said → KeepsHeard ms self.old → AllRest ms news.old.items → KeepsHeard ms self.new × AllRest ms news.new.items) }
    {
        self.add_leavings(&said, news)?;
        self.keep_commit(said)
    }

    /// Adds a Commit to the news for each ViewChange of its signer that hides it.
    fn add_leavings(&self, said: &HeardCommit, news: &mut Vec<Blame>) -> Result<(), AllocError>
        ensures { OnOk result ((ms : List CheckedMessage) → IsHeardCommit ms said.now → KeepsHeard ms self.now → AllRest ms news.old.items → AllRest ms news.new.items) }
    {
        let from = LeavingPlace {
            signer: said.signer,
            view: View(said.commit.view.0.saturating_add(1)),
        };
        for (later, changes) in self.left.range(from..) {
            if later.signer != said.signer {
                break;
            }
            add_hiding(changes, said, news)?;
        }
        Ok(())
    }

    /// Keeps a Commit.
    fn keep_commit(&mut self, said: HeardCommit) -> Result<(), AllocError>
        ensures { OnOk result ((ms : List CheckedMessage) → IsHeardCommit ms said → KeepsHeard ms self.old → KeepsHeard ms self.new) }
    {
        let place = CommitPlace {
            signer: said.signer,
            number: said.commit.number,
            view: said.commit.view,
        };
        if let Some(commits) = self.commits.get_mut(&place) {
            commits.push(said)?;
            return Ok(());
        }
        let mut commits = Vec::new(self.alloc);
        commits.push(said)?;
        match self.commits.insert(place, commits) {
            Ok(_) => Ok(()),
            Err(_) => Err(AllocError),
        }
    }

    /// Hears a ViewChange, which claims this, and adds to the news each Commit that it hides.
    pub(crate) fn leave(
        &mut self,
        claim: Claim,
        leaving: Leaving,
        news: &mut Vec<Blame>,
    ) -> Result<(), AllocError>
        ensures { OnOk result ((ms : List CheckedMessage) → IsHeardLeft ms (record { claim = claim; leaving = leaving }) → KeepsHeard ms self.old → AllRest ms news.old.items → KeepsHeard ms self.new × AllRest ms news.new.items) }
    {
        let left = Left { claim, leaving };
        self.add_commits(&left, news)?;
        self.keep_leaving(left)
    }

    /// Adds to the news each Commit that a ViewChange of its signer hides.
    fn add_commits(&self, left: &Left, news: &mut Vec<Blame>) -> Result<(), AllocError>
        ensures { OnOk result ((ms : List CheckedMessage) → IsHeardLeft ms left.now → KeepsHeard ms self.now → AllRest ms news.old.items → AllRest ms news.new.items) }
    {
        let mut from = CommitPlace::above(left.claim.signer, left.leaving.low());
        for _ in 0..u64::MAX {
            let Some(first) = from else { break };
            from = self.add_next(left, first, news)?;
        }
        Ok(())
    }

    /// Adds to the news the Commits at the first place from this one on that has some of the signer, where the ViewChange hides
    /// them. From where to look on, if anywhere: places that it shows, or that are of no lower view, are passed over.
    fn add_next(
        &self,
        left: &Left,
        from: CommitPlace,
        news: &mut Vec<Blame>,
    ) -> Result<Option<CommitPlace>, AllocError>
        ensures { OnOk result ((ms : List CheckedMessage) → IsHeardLeft ms left.now → KeepsHeard ms self.now → AllRest ms news.old.items → AllRest ms news.new.items) }
    {
        let mut found = self.commits.range(from..);
        let Some((place, commits)) = found.next() else {
            return Ok(None);
        };
        let CommitPlace {
            signer,
            number,
            view,
        } = *place;
        if signer != from.signer {
            return Ok(None);
        }
        add_hidden(left, commits, news)?;
        if view.0 >= left.leaving.view().0 {
            return Ok(CommitPlace::above(signer, number));
        }
        let shown = left.leaving.shown(number).unwrap_or(view);
        let last = View(max(view.0, shown.0));
        Ok(CommitPlace::behind(signer, number, last))
    }

    /// Keeps a ViewChange.
    fn keep_leaving(&mut self, left: Left) -> Result<(), AllocError>
        ensures { OnOk result ((ms : List CheckedMessage) → IsHeardLeft ms left → KeepsHeard ms self.old → KeepsHeard ms self.new) }
    {
        let place = LeavingPlace {
            signer: left.claim.signer,
            view: left.leaving.view(),
        };
        if let Some(changes) = self.left.get_mut(&place) {
            changes.push(left)?;
            return Ok(());
        }
        let mut changes = Vec::new(self.alloc);
        changes.push(left)?;
        match self.left.insert(place, changes) {
            Ok(_) => Ok(()),
            Err(_) => Err(AllocError),
        }
    }
}

/// Adds a Commit to the news for each of the ViewChanges that hides it.
fn add_hiding(changes: &[Left], said: &HeardCommit, news: &mut Vec<Blame>) -> Result<(), AllocError>
    ensures { OnOk result ((ms : List CheckedMessage) → AreLeft ms changes.now → IsHeardCommit ms said.now → AllRest ms news.old.items → AllRest ms news.new.items) }
{
    for change in changes {
        add_if_hidden(change, said, news)?;
    }
    Ok(())
}

/// Adds those of the Commits to the news that a ViewChange hides.
fn add_hidden(left: &Left, commits: &[HeardCommit], news: &mut Vec<Blame>) -> Result<(), AllocError>
    ensures { OnOk result ((ms : List CheckedMessage) → IsHeardLeft ms left.now → AreCommits ms commits.now → AllRest ms news.old.items → AllRest ms news.new.items) }
{
    for said in commits {
        add_if_hidden(left, said, news)?;
    }
    Ok(())
}

/// Adds a Commit to the news where a ViewChange of its signer hides it.
fn add_if_hidden(left: &Left, said: &HeardCommit, news: &mut Vec<Blame>) -> Result<(), AllocError>
    ensures { OnOk result ((ms : List CheckedMessage) → IsHeardLeft ms left.now → IsHeardCommit ms said.now → AllRest ms news.old.items → AllRest ms news.new.items) }
{
    let Commit {
        view,
        number,
        digest,
    } = said.commit;
    if left.claim.signer == said.signer && left.leaving.hides(view, number) {
        news.push(Blame::Hidden {
            change: left.claim,
            view,
            number,
            digest,
        })?;
    }
    Ok(())
}
