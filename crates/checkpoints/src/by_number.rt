//! The Checkpoints of replicas by number.

ghost use Rattle.std.specs.Prelude.{◌≡◌, ℕ, ◌<◌, cond, true, false, nat_le, None, IfErr, IfSome, OnOk, OnErr, IsSome};
ghost use Rattle.std.specs.Option.{option_map};
ghost use Rattle.std.specs.Ordering.{nat_cmp};
ghost use Rattle.std.specs.BTreeMap as tree;
ghost use Rattle.ballots.specs.Ballots.{digest_in, is_digest, vote_at, is_for_other, with_first};
ghost use Rattle.checkpoints.specs.Faults.{IsRefusal};
ghost use Rattle.checkpoints.specs.Reading.{HasBallot, HaveSameBallots, IsBallotAt, ballot_in, quorum_by, quorum_digest, said_by};
ghost use Rattle.checkpoints.specs.declared.fault.CheckpointFault.TheVariants.{DigestDiffers};

use crate::fault::CheckpointFault;
use ballots::{Votes, digest_named};
use host_types::{Config, Digest, ReplicaId, SeqNo};
use seal::Checked;
use std::alloc::{AllocError, Global};
use std::collections::BTreeMap;

/// Records a Checkpoint at its number: the first of each signer counts.
pub(crate) fn accept(
    ballots: &mut BTreeMap<u64, Votes>,
    alloc: Global,
    message: &Checked,
    number: SeqNo,
    digest: &Digest,
) -> Result<(), CheckpointFault>
    requires signer { message.now.message.id < 10 }
    requires digest { IsSome (digest_in message.now.message.body) }
    ensures same { OnOk result (is_for_other digest.now.0 (vote_at (ballot_in ballots.old number.0) message.now.message.id) ≡ false) }
    ensures recorded { OnOk result (HasBallot number.0 (with_first message.now (ballot_in ballots.old number.0)) ballots.old ballots.new) }
    ensures fault { IfErr result (IsRefusal (is_for_other digest.now.0 (vote_at (ballot_in ballots.old number.0) message.now.message.id))) }
    ensures unchanged { OnErr result (HaveSameBallots ballots.old ballots.new) }
{
    open(ballots, alloc, number)?;
    match ballots.get_mut(&number.0) {
        Some(votes) => record(votes, message, digest),
        None => unreachable!(),
    }
}

// Opens the ballot of a number: an empty ballot holds no vote.
fn open(ballots: &mut BTreeMap<u64, Votes>, alloc: Global, number: SeqNo) -> Result<(), AllocError>
    ensures absent { OnErr result (tree.get nat_cmp ballots.old number.0 ≡ None) }
    ensures opened { OnOk result (IsSome (tree.get nat_cmp ballots.new number.0)) }
    ensures same { HaveSameBallots ballots.old ballots.new }
{
    if !ballots.contains_key(&number.0) {
        ballots.insert(number.0, Votes::new(alloc))?;
    }
    Ok(())
}

// The first Checkpoint of a signer counts; another of the same digest changes nothing.
fn record(votes: &mut Votes, message: &Checked, digest: &Digest) -> Result<(), CheckpointFault>
    requires signer { message.now.message.id < 10 }
    requires digest { IsSome (digest_in message.now.message.body) }
    ensures same { OnOk result (is_for_other digest.now.0 (vote_at votes.old message.now.message.id) ≡ false) }
    ensures recorded { OnOk result (votes.new ≡ with_first message.now votes.old) }
    ensures fault { IfErr result (IsRefusal (is_for_other digest.now.0 (vote_at votes.old message.now.message.id))) }
    ensures unchanged { OnErr result (votes.new ≡ votes.old) }
{
    match votes.get(ReplicaId(message.signer().1 as u8)) {
        Some(first) => unless_other(first, digest),
        None => {
            votes.insert(message)?;
            Ok(())
        }
    }
}

fn unless_other(first: &Checked, digest: &Digest) -> Result<(), CheckpointFault>
    ensures same { OnOk result (is_digest digest.now.0 (digest_in first.now.message.body) ≡ true) }
    ensures fault { IfErr result (λ fault. (fault ≡ DigestDiffers) × (is_digest digest.now.0 (digest_in first.now.message.body) ≡ false)) }
{
    if digest_named(first.body()) == Some(*digest) {
        Ok(())
    } else {
        Err(CheckpointFault::DigestDiffers)
    }
}

/// The digest that a quorum has at a number, if one has, and the ballot there. It takes no memory.
pub(crate) fn quorum_at<'a>(
    config: &Config,
    ballots: &'a BTreeMap<u64, Votes>,
    number: SeqNo,
) -> Option<(&'a Votes, Digest)>
    requires { IsBallotAt config.now number.0 (ballot_in ballots.now number.0) }
    ensures ballot { IfSome result (λ p. p.0.now ≡ ballot_in ballots.now number.0) }
    ensures digest { option_map (λ p. p.1) result ≡ quorum_digest config.now (said_by (ballot_in ballots.now number.0)) number.0 }
{
    let votes = ballots.get(&number.0)?;
    let digest = digest_of_quorum(config, votes, number)?;
    Some((votes, digest))
}

// The digest that a quorum has, if one has.
fn digest_of_quorum(config: &Config, votes: &Votes, number: SeqNo) -> Option<Digest>
    requires { IsBallotAt config.now number.0 votes.now }
    ensures { result ≡ quorum_digest config.now (said_by votes.now) number.0 }
{
    for signer in 0..config.replica_count() {
        if let Some(digest) = digest_if_quorum(config, votes, number, ReplicaId(signer)) {
            return Some(digest);
        }
    }
    None
}

// The digest of this replica's Checkpoint, if a quorum has it.
fn digest_if_quorum(
    config: &Config,
    votes: &Votes,
    number: SeqNo,
    signer: ReplicaId,
) -> Option<Digest>
    requires { IsBallotAt config.now number.0 votes.now }
    ensures { result ≡ quorum_by config.now (said_by votes.now) number.0 signer.0 }
{
    let _ = number;
    let digest = digest_named(votes.get(signer)?.body())?;
    if votes.has_quorum(config, &digest) {
        Some(digest)
    } else {
        None
    }
}

/// Drops what stands below a number. It takes no memory.
pub(crate) fn drop_below<V: Drop>(map: &mut BTreeMap<u64, V>, number: SeqNo)
    ensures { (n : ℕ) → tree.get nat_cmp map.new n ≡ cond (nat_le number.0 n) (tree.get nat_cmp map.old n) None }
{
    map.retain(|key, _| *key >= number.0);
}
