ghost use Rattle.std.specs.Prelude.{◌≡◌, IfOk};
ghost use Rattle.ballots.specs.Ballots.{AreListed, AreUnder};

use crate::messages::vote;
use crate::view_messages::replicas;
use host_types::{Config, Digest, ReplicaId, View};
use lms_tree::Signer;
use quorum_log::{Votes, digest_named};
use seal::Checked;
use std::alloc::{AllocError, Global};
use std::process::Abort;
use std::sync::Arc;
use std::test::Fail;

// The same as a plain list: each replica's first message, in the order in which they came.
#[derive(Drop)]
struct FlatVotes {
    messages: Vec<Checked>,
}

impl FlatVotes {
    fn insert(&mut self, message: &Checked) -> Result<bool, AllocError> {
        if self.get(message.signer().1).is_some() {
            return Ok(false);
        }
        self.messages.push(message.copy()?)?;
        Ok(true)
    }

    fn get(&self, signer: u32) -> Option<&Checked> {
        self.messages
            .iter()
            .find(|message| message.signer().1 == signer)
    }

    fn count(&self, digest: &Digest) -> usize {
        self.messages
            .iter()
            .filter(|message| digest_named(message.body()) == Some(*digest))
            .count()
    }
}

// Whether both have the same message of each replica, and as many for the digest, of which `many` are returned.
fn agree(votes: &Votes, flat: &FlatVotes, digest: &Digest) -> bool {
    for signer in 0..10u8 {
        let one = votes.get(ReplicaId(signer)).map(|message| message.bytes());
        if one != flat.get(u32::from(signer)).map(|message| message.bytes()) {
            return false;
        }
    }
    votes.count(digest) as usize == flat.count(digest)
}

// How many are wanted; the signers of the least that voted for digest 7 where replicas 0, 1 and 3 did.
const LEAST: &str = "\
0 =>\n\
2 => 0 1\n\
3 => 0 1 3\n\
4 => 0 1 3\n\
";

// Records the message, which is under this configuration as all others are.
fn put(config: &Arc<Config>, votes: &mut Votes, message: &Checked) -> Result<(), AllocError>
    requires own { message.now.config ≡ config.now.value }
    requires others { AreUnder config.now.value votes.old }
    requires listed { AreListed config.now.value votes.old }
    ensures under { AreUnder config.now.value votes.new }
    ensures listed { AreListed config.now.value votes.new }
{
    let listed = message.signer().1 < u32::from(config.replica_count());
    if listed && digest_named(message.body()).is_some() {
        votes.insert(message)?;
    }
    Ok(())
}

// The Commits of `SIGNER:DIGEST ..`.
fn commits(
    alloc: Global,
    config: &Arc<Config>,
    signers: &mut [Signer],
    text: &str,
) -> Result<Votes, Fail>
    ensures under { IfOk result (λ votes. AreUnder config.now.value votes) }
    ensures listed { IfOk result (λ votes. AreListed config.now.value votes) }
{
    let mut votes = Votes::new(alloc);
    for word in text.split(' ') {
        let (id, digest) = word.split_once(":").ok_or("no digest")?;
        let message = vote(alloc, config, signers, id.parse()?, 2, digest.parse()?)?;
        put(config, &mut votes, &message)?;
    }
    Ok(votes)
}

// The signers of the least that voted for digest 7, in words.
fn least(alloc: Global, config: &Arc<Config>, votes: &Votes, many: usize) -> Result<String, Fail>
    requires { AreUnder config.now.value votes.now }
{
    let list = votes.least(alloc, config, &Digest([7; 32]), many)?;
    let mut text = String::new(alloc);
    for message in list.as_slice() {
        let (_, id) = message.signer();
        text.push_str(&format!(in alloc; " {id}")?)?;
    }
    Ok(text)
}

// Votes for digests 7 and 8.
const SPLIT: &str = "3:7 1:7 2:8 0:7";

// Whether the least are those of each line.
fn are_least(alloc: Global, config: &Arc<Config>, votes: &Votes) -> Result<bool, Fail>
    requires { AreUnder config.now.value votes.now }
{
    let mut right = true;
    for line in LEAST.lines() {
        let (many, wanted) = line.split_once(" =>").ok_or("no signers")?;
        right = right && least(alloc, config, votes, many.parse()?)?.as_str() == wanted;
    }
    Ok(right)
}

#[test]
fn the_least_signers_come_first(rt: HostRuntime) -> Result<(), Fail> {
    let (mut signers, config) = replicas(rt.alloc(), 5)?;
    let votes = commits(rt.alloc(), &config, &mut signers, SPLIT)?;
    assert!(rt; are_least(rt.alloc(), &config, &votes)?);
    Ok(())
}

// Who voted for which digest, and a view; whether a quorum and whether two of its backups voted for digest 7.
const ENOUGH: &str = "\
3:7 1:7 2:8 0:7 in 0 => true true\n\
0:7 1:7 in 0 => false false\n\
0:7 1:7 in 2 => false true\n\
0:7 1:7 in 5 => false false\n\
3:8 2:8 1:8 0:7 in 1 => false false\n\
";

// Whether a quorum and whether two backups of the view voted for digest 7, in words.
fn enough(
    alloc: Global,
    config: &Arc<Config>,
    votes: &Votes,
    view: u32,
) -> Result<String, AllocError>
    requires { AreListed config.now.value votes.now }
{
    let digest = Digest([7; 32]);
    let quorum = votes.has_quorum(config, &digest);
    let backups = votes.has_backups(config, View(view), &digest);
    format!(in alloc; "{quorum} {backups}")
}

// Whether the answers are those of a line.
fn is_answered(
    alloc: Global,
    config: &Arc<Config>,
    signers: &mut [Signer],
    line: &str,
) -> Result<bool, Fail> {
    let (said, wanted) = line.split_once(" => ").ok_or("no answer")?;
    let (voted, view) = said.split_once(" in ").ok_or("no view")?;
    let view = view.parse()?;
    let votes = commits(alloc, config, signers, voted)?;
    Ok(enough(alloc, config, &votes, view)?.as_str() == wanted)
}

#[test]
fn quorums_and_backups(rt: HostRuntime) -> Result<(), Fail> {
    let (mut signers, config) = replicas(rt.alloc(), 5)?;
    for line in ENOUGH.lines() {
        assert!(rt;
            is_answered(rt.alloc(), &config, &mut signers, line)?,
            "{line}"
        );
    }
    Ok(())
}

// The Checkpoints of each replica for each of two digests.
fn pool(alloc: Global) -> Result<Vec<Checked>, Fail> {
    let (mut signers, config) = replicas(alloc, 5)?;
    let mut pool = Vec::new(alloc);
    for drawn in 0..8 {
        pool.push(vote(alloc, &config, &mut signers, drawn / 2, 3, 7 + drawn % 2)?)?;
    }
    Ok(pool)
}

// Whether both take the message alike, and agree then.
fn take(votes: &mut Votes, flat: &mut FlatVotes, message: &Checked) -> Result<bool, AllocError> {
    if message.signer().1 >= 10 || digest_named(message.body()).is_none() {
        return Ok(true);
    }
    let is_new = votes.insert(message)?;
    Ok(
        is_new == flat.insert(message)?
            && agree(votes, flat, &Digest([7; 32]))
            && agree(votes, flat, &Digest([8; 32])),
    )
}

// Whether both answer alike along eight draws from the pool.
fn are_alike(alloc: Global, pool: &[Checked], drawn: &mut u32) -> Result<bool, AllocError> {
    let mut votes = Votes::new(alloc);
    let mut flat = FlatVotes {
        messages: Vec::new(alloc),
    };
    let mut alike = true;
    for _ in 0..8 {
        *drawn = drawn.wrapping_mul(1_664_525).wrapping_add(1_013_904_223);
        if let Some(message) = pool.get((*drawn >> 16) as usize % 8) {
            alike = take(&mut votes, &mut flat, message)? && alike;
        }
    }
    Ok(alike)
}

// A faulty replica votes for both digests: whatever comes first counts. Sequences of eight draws from a
// pool in which each replica votes for each of two digests.
#[test]
fn votes_answer_as_a_plain_list(rt: HostRuntime) -> Result<(), Fail> {
    let pool = pool(rt.alloc())?;
    let mut drawn: u32 = 1;
    for _ in 0..50 {
        assert!(rt; are_alike(rt.alloc(), &pool, &mut drawn)?);
    }
    Ok(())
}
