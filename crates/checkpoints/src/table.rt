//! What a replica keeps of checkpoints.

ghost use Rattle.std.specs.Prelude.{◌≡◌, IfOk, IfErr, IfSome, OnOk, OnErr, IsSome, IsNone, MatchOption, Some, cond, nat_le};
ghost use Rattle.std.specs.Option.{option_copied, option_map, option_map_or};
ghost use Rattle.ballots.specs.Acts.{Rise};
ghost use Rattle.ballots.specs.Duties.{Do};
ghost use Rattle.sha2.specs.Sha256.{sha256};
ghost use Rattle.ballots.specs.Tables.{at, number_key, with_entry};
ghost use Rattle.ballots.specs.Core.{if_passes};
ghost use Rattle.ballots.specs.Ballots.{is_digest};
ghost use Rattle.checkpoints.specs.Faults.{Reports};
ghost use Rattle.checkpoints.specs.Kept.{IsFetched, IsGreatestStable, IsRaised, IsStableExactly, NoneStableAbove, checkpoint_of, discarded, note_fault, noted, offer_fault, proof_list, stable_at, start, with_snapshot};
ghost use Rattle.checkpoints.specs.Reading.{IsGreatestRaised, NoneRaised, greater_of, is_raised, snapshots_in};
ghost use Rattle.checkpoints.specs.declared.fault.CheckpointFault.TheVariants.{Memory};

use crate::by_number::{accept, drop_below, quorum_at};
use crate::fault::CheckpointFault;
use crate::snapshot::Snapshot;
use ballots::Votes;
use host_types::{Bytes, Config, Digest, SeqNo};
use pbft_codec::Body;
use seal::{Checked, CheckedList};
use std::alloc::{AllocError, Global};
use std::collections::BTreeMap;
use std::marker::Model;
use std::sync::Arc;

/// The Checkpoint messages of replicas by number above the low water mark, those that prove the mark, and
/// snapshots of states by number. Contracts see them as the protocol's core keeps them: the messages and
/// the snapshots as tables, the proof as a list.
#[derive(Drop)]
pub struct Checkpoints {
    alloc: Global,
    config: Arc<Config>,
    low: SeqNo,
    // By number from the low mark on: the ballot at the mark has its proof.
    ballots: BTreeMap<u64, Votes>,
    snapshots: BTreeMap<u64, Snapshot>,
    // The greatest number that is stable.
    greatest: Option<SeqNo>,
}

impl Model for Checkpoints {
    ghost use Rattle.checkpoints.specs.Kept.{KeptCheckpoints};
    ghost use Rattle.checkpoints.specs.Reading.{AreKept, kept_in};

    ghost Value = { KeptCheckpoints };

    ghost view = { λ t. kept_in t.config.value t.low.0 t.ballots t.snapshots };

    ghost invariant = { λ t. AreKept t.config.value t.low.0 t.ballots t.greatest };
}

impl Checkpoints {
    /// No Checkpoint and no snapshot; the low mark is 0. It is refused only where the count of the
    /// configuration's handles is full.
    pub fn new(alloc: Global, config: &Arc<Config>) -> Result<Checkpoints, AllocError>
        ensures { IfOk result (λ t. t ≡ start config.now.value) }
    {
        let _ = config.f();
        Ok(Checkpoints {
            alloc,
            config: Arc::try_clone(config)?,
            low: SeqNo(0),
            ballots: BTreeMap::new(alloc),
            snapshots: BTreeMap::new(alloc),
            greatest: None,
        })
    }

    /// The low water mark. It takes no memory.
    pub fn low(&self) -> SeqNo
        ensures { result.0 ≡ self.now.low }
    {
        self.low
    }

    /// Records a Checkpoint: the first of each signer at a number counts, another of the same digest changes
    /// nothing. It is `Old` where its number is not above the low mark, else `DigestDiffers` where the
    /// signer's Checkpoint there has another digest, else `Memory`. Where it is refused, nothing changes.
    /// The caller owes a Checkpoint, under the same configuration.
    pub fn note(&mut self, message: &Checked) -> Result<(), CheckpointFault>
        requires config { message.now.config ≡ self.old.config }
        requires kind { IsSome (checkpoint_of message.now.message) }
        ensures fault { Reports (note_fault self.old (checkpoint_of message.now.message)) result }
        ensures noted { OnOk result (self.new ≡ noted self.old (checkpoint_of message.now.message)) }
        ensures unchanged { OnErr result (self.new ≡ self.old) }
    {
        let _ = message.signer();
        let Body::Checkpoint(said) = message.body() else {
            unreachable!();
        };
        if said.number <= self.low {
            return Err(CheckpointFault::Old);
        }
        accept(
            &mut self.ballots,
            self.alloc,
            message,
            said.number,
            &said.digest,
        )?;
        let is_stable = quorum_at(&self.config, &self.ballots, said.number).is_some();
        self.greatest = greatest_with(self.greatest, said.number, is_stable);
        Ok(())
    }

    /// Keeps an own snapshot: the bytes of the state at this number. It is refused only for `Memory`, and
    /// nothing changes then.
    pub fn keep(&mut self, number: SeqNo, bytes: Bytes) -> Result<(), CheckpointFault>
        ensures fault { IfErr result (λ fault. fault ≡ Memory) }
        ensures kept { OnOk result (self.new ≡ with_snapshot self.old number.0 bytes) }
        ensures unchanged { OnErr result (self.new ≡ self.old) }
    {
        self.keep_hashed(number, bytes)?;
        Ok(())
    }

    /// Keeps an own snapshot as `keep` does, and returns the SHA-256 digest of its bytes.
    pub fn keep_hashed(&mut self, number: SeqNo, bytes: Bytes) -> Result<Digest, CheckpointFault>
        ensures digest { IfOk result (λ digest. digest.0 ≡ sha256 bytes) }
        ensures fault { IfErr result (λ fault. fault ≡ Memory) }
        ensures kept { OnOk result (self.new ≡ with_snapshot self.old number.0 bytes) }
        ensures unchanged { OnErr result (self.new ≡ self.old) }
    {
        let snapshot = Snapshot::new(bytes);
        let digest = snapshot.digest();
        put(&mut self.snapshots, number, snapshot)?;
        Ok(digest)
    }

    /// Keeps another replica's snapshot: the bytes of a state at this number. It is `Old` where the number is
    /// not above the low mark, else `DigestDiffers` where the SHA-256 digest of the bytes is not stable at
    /// the number, also where no digest is, else `Memory`. Where it is refused, nothing changes.
    pub fn offer(&mut self, number: SeqNo, bytes: Bytes) -> Result<(), CheckpointFault>
        ensures fault { Reports (offer_fault self.old number.0 bytes) result }
        ensures kept { OnOk result (self.new ≡ with_snapshot self.old number.0 bytes) }
        ensures unchanged { OnErr result (self.new ≡ self.old) }
    {
        if number <= self.low {
            return Err(CheckpointFault::Old);
        }
        let Some(stable) = self.stable(number) else {
            return Err(CheckpointFault::DigestDiffers);
        };
        let snapshot = Snapshot::new(bytes);
        if stable != snapshot.digest() {
            return Err(CheckpointFault::DigestDiffers);
        }
        put(&mut self.snapshots, number, snapshot)?;
        Ok(())
    }

    /// The digest that is stable at a number, if one is: 2f + 1 replicas have sent Checkpoints with it. At
    /// the low mark it is that of the mark's proof. It takes no memory.
    pub fn stable(&self, number: SeqNo) -> Option<Digest>
        ensures value { result ≡ stable_at self.now number.0 }
        ensures exact { IsStableExactly self.now number.0 result }
    {
        if number < self.low {
            return None;
        }
        let (_, digest) = quorum_at(&self.config, &self.ballots, number)?;
        Some(digest)
    }

    /// The greatest stable number above another, if one is. It takes no memory.
    pub fn stable_above(&self, number: SeqNo) -> Option<SeqNo>
        ensures greatest { IfSome result (λ n. IsGreatestStable self.now number.0 n.0) }
        ensures none { IsNone result → NoneStableAbove self.now number.0 }
        ensures core { IsFetched self.now number.0 (option_map_or (λ n. n.0) result 0) }
    {
        let greatest = self.greatest?;
        if greatest > number {
            Some(greatest)
        } else {
            None
        }
    }

    /// The greatest number above the low mark, and not above this one, at which a snapshot is kept whose
    /// SHA-256 digest is stable there, with that digest. It takes no memory.
    pub fn stable_kept(&self, up_to: SeqNo) -> Option<(SeqNo, Digest)>
        ensures { IsRaised self.now up_to.0 (option_map (λ p. Do (Rise p.0.0 p.1.0)) result) }
    {
        let number = self.greatest_raised(up_to)?;
        Some((number, self.stable(number)?))
    }

    // That number. It goes down over the snapshots.
    fn greatest_raised(&self, up_to: SeqNo) -> Option<SeqNo>
        ensures { MatchOption result (NoneRaised self.now up_to.0) (IsGreatestRaised self.now up_to.0) }
    {
        for (number, snapshot) in self.snapshots.iter().rev() {
            if self.is_raised(SeqNo(*number), snapshot, up_to) {
                return Some(SeqNo(*number));
            }
        }
        None
    }

    // Whether the number is above the low mark and not above another, and the digest of the bytes is stable
    // there.
    fn is_raised(&self, number: SeqNo, snapshot: &Snapshot, up_to: SeqNo) -> bool
        ensures { result ≡ is_raised self.now up_to.0 number.0 snapshot.now }
    {
        number > self.low && number <= up_to && is_of(self.stable(number), snapshot)
    }

    /// The bytes of the snapshot that is kept at a number. It takes no memory.
    pub fn snapshot_of(&self, number: SeqNo) -> Option<&[u8]>
        ensures { option_copied result ≡ at self.now.snapshots (number_key number.0) }
    {
        match self.snapshots.get(&number.0) {
            Some(snapshot) => Some(snapshot.bytes()),
            None => None,
        }
    }

    /// The SHA-256 digest of the snapshot that is kept at a number. It was hashed as it was kept: this
    /// hashes nothing, and takes no memory.
    pub fn snapshot_digest(&self, number: SeqNo) -> Option<Digest>
        ensures { option_map (λ digest. digest.0) result ≡ option_map sha256 (at self.now.snapshots (number_key number.0)) }
    {
        match self.snapshots.get(&number.0) {
            Some(snapshot) => Some(snapshot.digest()),
            None => None,
        }
    }

    /// The proof that a number is stable: the Checkpoints there of the 2f + 1 least signers, ascending; at
    /// the low mark the proof that was kept. It is empty where no digest is stable. It is refused only for
    /// `Memory`.
    pub fn proof(&self, number: SeqNo) -> Result<CheckedList, CheckpointFault>
        ensures fault { IfErr result (λ fault. fault ≡ Memory) }
        ensures proof { IfOk result (λ l. l ≡ proof_list self.now number.0) }
    {
        if number < self.low {
            return Ok(CheckedList::new(self.alloc, &self.config)?);
        }
        match quorum_at(&self.config, &self.ballots, number) {
            Some((votes, digest)) => {
                let quorum = 2 * usize::from(self.config.f()) + 1;
                Ok(votes.least(self.alloc, &self.config, &digest, quorum)?)
            }
            None => Ok(CheckedList::new(self.alloc, &self.config)?),
        }
    }

    /// Raises the low mark to a number, and discards all at or below it but the snapshot there and the proof
    /// of the number. At or below the mark it changes nothing. It takes no memory.
    pub fn discard_to(&mut self, number: SeqNo)
        ensures { self.new ≡ discarded number.0 self.old }
    {
        if number > self.low {
            drop_below(&mut self.ballots, number);
            drop_below(&mut self.snapshots, number);
            self.greatest = unless_below(self.greatest, number);
            self.low = number;
        }
    }
}

// Whether there is a digest, and it is that of the snapshot.
fn is_of(digest: Option<Digest>, snapshot: &Snapshot) -> bool
    ensures { result ≡ is_digest (sha256 snapshot.now) digest }
{
    match digest {
        Some(digest) => digest == snapshot.digest(),
        None => false,
    }
}

fn put(
    snapshots: &mut BTreeMap<u64, Snapshot>,
    number: SeqNo,
    snapshot: Snapshot,
) -> Result<(), AllocError>
    ensures kept { OnOk result (snapshots_in snapshots.new ≡ with_entry (snapshots_in snapshots.old) (number_key number.0) snapshot) }
    ensures unchanged { OnErr result (snapshots_in snapshots.new ≡ snapshots_in snapshots.old) }
{
    snapshots.insert(number.0, snapshot)?;
    Ok(())
}

// The greatest stable number, once it is known whether this one is stable.
fn greatest_with(greatest: Option<SeqNo>, number: SeqNo, is_stable: bool) -> Option<SeqNo>
    ensures { result ≡ cond is_stable (Some (greater_of greatest number)) greatest }
{
    match greatest {
        Some(other) if !is_stable || other > number => Some(other),
        _ if is_stable => Some(number),
        _ => None,
    }
}

// The number, if it isn't below this one.
fn unless_below(greatest: Option<SeqNo>, number: SeqNo) -> Option<SeqNo>
    ensures { result ≡ if_passes (λ n. nat_le number.0 n.0) greatest }
{
    match greatest {
        Some(other) if other >= number => Some(other),
        _ => None,
    }
}
