ghost use Rattle.std.specs.Prelude.{◌≡◌};

use crate::messages::vote;
use crate::view_messages::{numbers, replicas};
use host_types::Config;
use seal::{Checked, CheckedList, VoteKind};
use std::alloc::Global;
use std::process::Abort;
use std::sync::Arc;
use std::test::Fail;

// Signer, kind and digest; what the vote is.
const VOTES: &str = "\
0 0 7 => PrePrepare 0 1 7 of 0\n\
2 1 8 => Prepare 0 1 8 of 2\n\
0 2 9 => Commit 0 1 9 of 0\n\
3 2 7 => Commit 0 1 7 of 3\n\
1 3 7 => -\n\
";

fn name_of(kind: VoteKind) -> &'static str {
    match kind {
        VoteKind::PrePrepare => "PrePrepare",
        VoteKind::Prepare => "Prepare",
        VoteKind::Commit => "Commit",
    }
}

// A message's vote: kind, view, number, the first byte of the digest, and the signer.
fn vote_text(alloc: Global, message: &Checked) -> Result<String, Fail> {
    let Some(vote) = message.vote() else {
        return Ok(String::from_str(alloc, "-")?);
    };
    let (kind, view, number) = (name_of(vote.kind), vote.view.0, vote.number.0);
    let (digest, signer) = (vote.digest.0[0], vote.signer.0);
    Ok(format!(in alloc; "{kind} {view} {number} {digest} of {signer}")?)
}

// Whether a list is empty, and has the message alone once that is pushed.
fn is_listed(alloc: Global, config: &Arc<Config>, message: Checked) -> Result<bool, Fail>
    requires { message.config ≡ config.now.value }
{
    let signer = message.signer();
    let mut list = CheckedList::new(alloc, config)?;
    let was_empty = list.is_empty();
    list.push(message)?;
    let first = list.as_slice().get(0).map(|message| message.signer());
    Ok(was_empty && list.len() == 1 && first == Some(signer))
}

#[test]
fn votes_and_lists_of_messages(rt: HostRuntime) -> Result<(), Fail> {
    let (mut signers, config) = replicas(rt.alloc(), 5)?;
    for line in VOTES.lines() {
        let (said, wanted) = line.split_once(" => ").ok_or("no vote")?;
        let [id, kind, digest] = numbers(said, " ")?;
        let message = vote(rt.alloc(), &config, &mut signers, id, kind, digest)?;
        assert!(rt;
            vote_text(rt.alloc(), &message)?.as_str() == wanted,
            "{line}"
        );
        assert!(rt; is_listed(rt.alloc(), &config, message)?);
    }
    Ok(())
}
