//! What is recorded for one number in one view.

ghost use Rattle.std.specs.Prelude.{◌≡◌, ℕ, ◌<◌, List, false, IfErr, IfOk, OnOk, OnErr, IsSome, true};
ghost use Rattle.quorum_log.specs.declared.fault.LogFault.TheVariants.{OtherDigest};
ghost use Rattle.host_types.specs.Configuration.{Configuration};
ghost use Rattle.ballots.specs.Ballots.{AreListed, AreUnder, digest_in, is_digest, vote_at, first_of, is_for_other, with_first};
ghost use Rattle.quorum_log.specs.Slots.{certificate_here, empty_slot, IsRefusal, digest_here, is_certified_here, is_committed_here, met_by, number_here, with_vote};

use crate::certificate::CheckedCertificate;
use crate::fault::LogFault;
use ballots::{Votes, digest_named};
use host_types::{Config, Digest, ReplicaId, SeqNo, View};
use seal::{Checked, VoteKind};
use std::alloc::{AllocError, Global};
use std::sync::Arc;

/// The primary's PrePrepare, and each replica's Prepare and Commit.
#[derive(Drop)]
pub(crate) struct Slot {
    pre_prepare: Option<Checked>,
    prepares: Votes,
    commits: Votes,
}

impl Slot {
    pub(crate) fn new(alloc: Global) -> Slot
        ensures { result ≡ empty_slot }
    {
        Slot {
            pre_prepare: None,
            prepares: Votes::new(alloc),
            commits: Votes::new(alloc),
        }
    }

    /// Records a vote of this kind for this digest: the first of each signer counts.
    pub(crate) fn accept(
        &mut self,
        message: &Checked,
        kind: VoteKind,
        digest: &Digest,
    ) -> Result<(), LogFault>
        requires signer { message.now.message.id < 10 }
        requires digest { IsSome (digest_in message.now.message.body) }
        ensures same { OnOk result (is_for_other digest.now.0 (met_by kind message.now.message.id self.old) ≡ false) }
        ensures recorded { OnOk result (self.new ≡ with_vote kind message.now self.old) }
        ensures fault { IfErr result (IsRefusal (is_for_other digest.now.0 (met_by kind message.now.message.id self.old))) }
        ensures unchanged { OnErr result (self.new ≡ self.old) }
    {
        match kind {
            VoteKind::PrePrepare => propose(&mut self.pre_prepare, message, digest),
            VoteKind::Prepare => record(&mut self.prepares, message, digest),
            VoteKind::Commit => record(&mut self.commits, message, digest),
        }
    }

    /// Has this PrePrepare instead of its own.
    pub(crate) fn replace_proposal(&mut self, given: Option<Checked>)
        ensures { self.new ≡ record self.old { pre_prepare = given } }
    {
        self.pre_prepare = given;
    }

    /// The digest that the PrePrepare names, if there is one.
    pub(crate) fn digest(&self) -> Option<Digest>
        ensures { result ≡ digest_here self.now }
    {
        digest_named(self.pre_prepare.as_ref()?.body())
    }

    /// The number that the PrePrepare names, if there is one.
    pub(crate) fn number(&self) -> Option<SeqNo>
        ensures { result ≡ number_here self.now }
    {
        let vote = self.pre_prepare.as_ref()?.vote()?;
        Some(vote.number)
    }

    /// Whether there is a PrePrepare, and 2f backups agree with it.
    pub(crate) fn is_certified(&self, config: &Config, view: View) -> bool
        requires { AreListed config.now self.now.prepares }
        ensures { result ≡ is_certified_here config.now view.0 self.now }
    {
        match self.digest() {
            Some(digest) => self.prepares.has_backups(config, view, &digest),
            None => false,
        }
    }

    /// Whether it is certified, and a quorum has committed.
    pub(crate) fn is_committed(&self, config: &Config, view: View) -> bool
        requires prepares { AreListed config.now self.now.prepares }
        requires commits { AreListed config.now self.now.commits }
        ensures { result ≡ is_committed_here config.now view.0 self.now }
    {
        match self.digest() {
            Some(digest) => self.is_certified(config, view)
                && self.commits.has_quorum(config, &digest),
            None => false,
        }
    }

    /// The PrePrepare, and the Prepares for its digest of 2f replicas of least ids, if it is certified.
    pub(crate) fn certificate(
        &self,
        alloc: Global,
        config: &Arc<Config>,
        view: View,
    ) -> Result<Option<CheckedCertificate>, AllocError>
        requires listed { AreListed config.now.value self.now.prepares }
        requires under { AreUnder config.now.value self.now.prepares }
        ensures { IfOk result (λ o. o ≡ certificate_here config.now.value view.0 self.now) }
    {
        if !self.is_certified(config, view) {
            return Ok(None);
        }
        let Some(pre_prepare) = &self.pre_prepare else {
            return Ok(None);
        };
        let Some(digest) = self.digest() else {
            return Ok(None);
        };
        let many = 2 * usize::from(config.f());
        Ok(Some(CheckedCertificate {
            pre_prepare: pre_prepare.copy()?,
            prepares: self.prepares.least(alloc, config, &digest, many)?,
        }))
    }
}

// The first PrePrepare counts; another of the same digest changes nothing.
fn propose(
    proposal: &mut Option<Checked>,
    message: &Checked,
    digest: &Digest,
) -> Result<(), LogFault>
    ensures same { OnOk result (is_for_other digest.now.0 proposal.old ≡ false) }
    ensures recorded { OnOk result (proposal.new ≡ first_of message.now proposal.old) }
    ensures fault { IfErr result (IsRefusal (is_for_other digest.now.0 proposal.old)) }
    ensures unchanged { OnErr result (proposal.new ≡ proposal.old) }
{
    match proposal {
        Some(first) => unless_other(first, digest),
        None => {
            *proposal = Some(message.copy()?);
            Ok(())
        }
    }
}

// The first vote of a signer counts; another of the same digest changes nothing.
fn record(votes: &mut Votes, message: &Checked, digest: &Digest) -> Result<(), LogFault>
    requires signer { message.now.message.id < 10 }
    requires digest { IsSome (digest_in message.now.message.body) }
    ensures same { OnOk result (is_for_other digest.now.0 (vote_at votes.old message.now.message.id) ≡ false) }
    ensures recorded { OnOk result (votes.new ≡ with_first message.now votes.old) }
    ensures fault { IfErr result (IsRefusal (is_for_other digest.now.0 (vote_at votes.old message.now.message.id))) }
    ensures unchanged { OnErr result (votes.new ≡ votes.old) }
{
    match votes.get(ReplicaId(message.signer().1 as u8)) {
        Some(first) => unless_other(first, digest),
        None => {
            votes.insert(message)?;
            Ok(())
        }
    }
}

fn unless_other(first: &Checked, digest: &Digest) -> Result<(), LogFault>
    ensures same { OnOk result (is_digest digest.now.0 (digest_in first.now.message.body) ≡ true) }
    ensures fault { IfErr result (λ fault. (fault ≡ OtherDigest) × (is_digest digest.now.0 (digest_in first.now.message.body) ≡ false)) }
{
    if digest_named(first.body()) == Some(*digest) {
        Ok(())
    } else {
        Err(LogFault::OtherDigest)
    }
}
