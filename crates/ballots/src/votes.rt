//! The votes of replicas on one question.

ghost use Rattle.std.specs.Prelude.{◌≡◌, ℕ, List, ◌+◌, ◌^◌, ◌<◌, not, true, cond, replicate, is_some, bytes_eq, IsSome, None, IfOk, OnOk, OnErr, if◌then◌else◌};
ghost use Rattle.std.specs.Option.{option_copied, option_map};
ghost use Rattle.std.specs.Int.{bit_at};
ghost use Rattle.std.specs.Ordering.{nat_cmp};
ghost use Rattle.std.specs.Cmp.Lexicographic.{slice_cmp};
ghost use Rattle.std.specs.BTreeMap as tree;
ghost use Rattle.pbft_model.specs.Certificates.{certified, has_quorum};
ghost use Rattle.pbft_model.specs.Setup.{count};
ghost use Rattle.ballots.specs.Ballots.{AreListed, AreUnder, digest_in, least_votes, mask_at, recorded, vote_at, voted_for};

use host_types::limits::MAX_REPLICAS;
use host_types::{Config, Digest, ReplicaId, View};
use pbft_model::{Body, Checked, CheckedList};
use std::alloc::{AllocError, Global};
use std::collections::BTreeMap;
use std::marker::Model;
use std::sync::Arc;

/// The votes of replicas on one question: which digest a number has, for instance. Of each replica it
/// keeps the first message, as a handle, and of each digest who voted for it. Contracts see the list of
/// the messages by the index of their signer.
#[derive(Drop)]
pub struct Votes {
    by_signer: [Option<Checked>; MAX_REPLICAS],
    // Bit `s` of a digest's mask is set where replica `s` voted for it.
    masks: BTreeMap<[u8; 32], u16>,
}

impl Model for Votes {
    ghost use Rattle.ballots.specs.Ballots.{Ballot, IsTallied};

    ghost Value = { Ballot };

    ghost view = { λ v. v.by_signer };

    ghost invariant = { λ v. IsTallied v.by_signer v.masks };
}

impl Votes {
    /// No votes. It takes no memory.
    pub fn new(alloc: Global) -> Votes
        ensures { result ≡ replicate 10 None }
    {
        Votes {
            by_signer: [None, None, None, None, None, None, None, None, None, None],
            masks: BTreeMap::new(alloc),
        }
    }

    /// Records the message as its signer's vote, if the signer has not voted yet, and returns whether it
    /// did: the first vote counts. Where memory runs out, nothing changes.
    pub fn insert(&mut self, message: &Checked) -> Result<bool, AllocError>
        requires signer { message.now.message.id < 10 }
        requires digest { IsSome (digest_in message.now.message.body) }
        ensures is_first { IfOk result (λ first. first ≡ not (is_some (vote_at self.old message.now.message.id))) }
        ensures recorded { IfOk result (λ first. self.new ≡ (if first then recorded self.old message.now else self.old)) }
        ensures unchanged { OnErr result (self.new ≡ self.old) }
    {
        let (_, signer) = message.signer();
        let Some(digest) = digest_named(message.body()) else {
            unreachable!();
        };
        if self.by_signer[signer as usize].is_some() {
            return Ok(false);
        }
        let handle = message.copy()?;
        tally(&mut self.masks, &digest.0, signer)?;
        self.by_signer[signer as usize] = Some(handle);
        Ok(true)
    }

    /// The message that this replica voted by, if it has voted.
    pub fn get(&self, signer: ReplicaId) -> Option<&Checked>
        ensures { option_copied result ≡ vote_at self.now signer.0 }
    {
        match self.by_signer.get(usize::from(signer.0)) {
            Some(Some(message)) => Some(message),
            _ => None,
        }
    }

    /// How many replicas voted for the digest. It takes no memory.
    pub fn count(&self, digest: &Digest) -> u32
        ensures { result ≡ count (voted_for digest.now.0 self.now) 10 }
    {
        mask(&self.masks, &digest.0).count_ones()
    }

    /// Whether a quorum of replicas, 2f + 1, voted for the digest. The caller owes votes of listed replicas
    /// alone. It takes no memory.
    pub fn has_quorum(&self, config: &Config, digest: &Digest) -> bool
        requires { AreListed config.now self.now }
        ensures { result ≡ has_quorum config.now (voted_for digest.now.0 self.now) }
    {
        self.count(digest) > 2 * u32::from(config.f())
    }

    /// Whether 2f backups of the view voted for the digest: its primary doesn't count. The caller owes votes
    /// of listed replicas alone. It takes no memory.
    pub fn has_backups(&self, config: &Config, view: View, digest: &Digest) -> bool
        requires { AreListed config.now self.now }
        ensures { result ≡ certified config.now (λ i. true) (voted_for digest.now.0 self.now) view.0 }
    {
        let of_primary = self.vote_for(config.primary(view), digest).is_some();
        self.count(digest) >= 2 * u32::from(config.f()) + u32::from(of_primary)
    }

    /// The votes for the digest of so many replicas, those of the least indices first: of all, where they
    /// are fewer. It is refused only where memory ran out.
    pub fn least(
        &self,
        alloc: Global,
        config: &Arc<Config>,
        digest: &Digest,
        many: usize,
    ) -> Result<CheckedList, AllocError>
        requires { AreUnder config.now.value self.now }
        ensures { IfOk result (λ l. l ≡ record { config = config.now.value; messages = least_votes many digest.now.0 self.now }) }
    {
        let mut list = CheckedList::new(alloc, config)?;
        let mut seen = 0;
        for signer in 0..MAX_REPLICAS as u8 {
            if let Some(message) = self.vote_for(ReplicaId(signer), digest) {
                if seen < many {
                    list.push(message.copy()?)?;
                }
                seen += 1;
            }
        }
        Ok(list)
    }

    /// The message of this replica, if it voted for the digest.
    fn vote_for(&self, signer: ReplicaId, digest: &Digest) -> Option<&Checked>
        ensures { option_copied result ≡ cond (voted_for digest.now.0 self.now signer.0) (vote_at self.now signer.0) None }
    {
        let message = self.get(signer)?;
        if digest_named(message.body()) == Some(*digest) {
            Some(message)
        } else {
            None
        }
    }
}

/// The digest that a message names, if its kind names one: a request's in a `PrePrepare`, a `Prepare` and
/// a `Commit`, and a state's in a `Checkpoint`.
pub fn digest_named(body: &Body) -> Option<Digest>
    ensures { result ≡ digest_in body.now }
{
    match body {
        Body::PrePrepare(said) => Some(said.digest),
        Body::Prepare(said) => Some(said.digest),
        Body::Commit(said) => Some(said.digest),
        Body::Checkpoint(said) => Some(said.digest),
        _ => None,
    }
}

/// The digest's mask.
fn mask(masks: &BTreeMap<[u8; 32], u16>, digest: &[u8; 32]) -> u16
    ensures { result ≡ mask_at masks.now digest.now }
{
    masks.get(digest).copied().unwrap_or(0)
}

/// Sets the bit of this replica.
fn with_bit(mask: u16, signer: u32) -> u16
    requires listed { signer < 10 }
    requires not_set { bit_at mask signer ≡ 0 }
    ensures { result ≡ mask + 2 ^ signer }
{
    mask | 1 << signer
}

/// Adds this replica to the digest's mask. Where memory runs out, no mask changes.
fn tally(
    masks: &mut BTreeMap<[u8; 32], u16>,
    digest: &[u8; 32],
    signer: u32,
) -> Result<(), AllocError>
    requires listed { signer < 10 }
    requires not_set { bit_at (mask_at masks.old digest.now) signer ≡ 0 }
    ensures set { OnOk result ((q : List ℕ) → mask_at masks.new q ≡ cond (bytes_eq digest.now q) (mask_at masks.old digest.now + 2 ^ signer) (mask_at masks.old q)) }
    ensures unchanged { OnErr result ((q : List ℕ) → mask_at masks.new q ≡ mask_at masks.old q) }
    ensures ordered { tree.IsOrdered (slice_cmp nat_cmp) masks.new }
{
    let mask = mask(masks, digest);
    masks.insert(*digest, with_bit(mask, signer))?;
    Ok(())
}
