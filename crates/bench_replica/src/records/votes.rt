//! The votes of all replicas in view 0, and recording them.

ghost use Rattle.std.specs.Prelude.{◌≡◌, IfOk};

use crate::records::replicas::{REPLICAS, at, message};
use anyhow::Result;
use host_types::{Config, Digest, SeqNo, View};
use lms_tree::Signer;
use pbft_codec::{Body, Commit, PrePrepare, Prepare};
use quorum_log::QuorumLog;
use seal::{Checked, CheckedList};
use std::alloc::{AllocError, Global};
use std::sync::Arc;

/// What a replica votes for a number: the primary proposes, the others agree, and all commit.
fn vote(id: u8, number: SeqNo, commits: bool) -> Body {
    let (view, digest) = (View(0), Digest([7; 32]));
    if commits {
        return Body::Commit(Commit {
            view,
            number,
            digest,
        });
    }
    if id == 0 {
        return Body::PrePrepare(PrePrepare {
            view,
            number,
            digest,
        });
    }
    Body::Prepare(Prepare {
        view,
        number,
        digest,
    })
}

fn put(list: &mut CheckedList, message: Checked) -> Result<(), AllocError>
    requires { message.config ≡ list.old.config }
    ensures { list.new.config ≡ list.old.config }
{
    list.push(message)
}

/// The votes for the numbers from 1 on, so many of them: for each a PrePrepare, nine Prepares and ten
/// Commits. A signer takes two leaves for a number.
pub(crate) fn votes(
    alloc: Global,
    config: &Arc<Config>,
    signers: &mut [Signer],
    numbers: u8,
) -> Result<CheckedList>
    ensures { IfOk result (λ l. l.config ≡ config.now.value) }
{
    let mut votes = CheckedList::new(alloc, config)?;
    for below in 0..numbers {
        let number = SeqNo(u64::from(below) + 1);
        for commits in [false, true] {
            for id in 0..REPLICAS {
                let body = vote(id, number, commits);
                put(&mut votes, message(alloc, config, signers, id, body)?)?;
            }
        }
    }
    Ok(votes)
}

/// Records a vote and asks the two questions that follow it: whether its number is prepared, and whether
/// it is committed.
fn record_one(log: &mut QuorumLog, message: &Checked) -> Result<bool>
    requires { message.now.config ≡ log.old.config }
    ensures { log.new.config ≡ log.old.config }
{
    let Some(vote) = message.vote() else {
        return Ok(false);
    };
    log.accept(message)?;
    let is_prepared = log.prepared(vote.view, vote.number);
    let is_committed = log.committed(vote.view, vote.number);
    Ok(is_prepared && is_committed)
}

/// Records votes, and returns after how many of them the number was committed.
pub(crate) fn record(log: &mut QuorumLog, votes: &CheckedList) -> Result<u32>
    requires { votes.now.config ≡ log.old.config }
{
    let mut committed = 0u32;
    for index in 0..votes.len() {
        if let Some(message) = at(votes, index) {
            if record_one(log, message)? {
                committed = committed.saturating_add(1);
            }
        }
    }
    Ok(committed)
}
