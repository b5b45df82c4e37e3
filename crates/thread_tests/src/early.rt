//! Votes that come early: which are kept, and which are handed in, in which order.

ghost use Rattle.std.specs.Prelude.{◌≡◌};

use crate::lanes::sign;
use crate::place::{Group, group_of};
use early_votes::Held;
use host_types::{Config, Digest, SeqNo, View};
use lms_tree::Signer;
use pbft_codec::{Body, Commit, PrePrepare, Prepare, Role};
use seal::{Checked, VoteKind};
use std::alloc::Global;
use std::sync::Arc;
use std::test::Fail;

/// By the interval between Checkpoints: the votes that come while the low mark and the view are 0; the low mark and the view
/// then; and the votes that are handed in, in their order. A vote is its kind (pre-prepare, prepare, commit), its view, its
/// number and its signer. Signer 0 is the primary of view 0, signer 1 that of view 1.
const ROWS: &str = "\
1 | c031 | 1 0 | c031
1 | c021 c011 | 2 0 |
1 | c041 | 2 0 | c041
1 | c051 | 3 0 |
1 | c031 c042 | 1 0 | c031
1 | c042 c031 | 2 0 | c042 c031
1 | c031 p032 a030 c032 | 1 0 | c031 p032 a030 c032
1 | c031 c031 | 1 0 | c031
1 | c031 c131 | 1 0 | c031 c131
1 | c231 c331 | 1 0 |
1 | c231 | 1 2 |
1 | c031 c131 | 1 1 | c131
1 | c031 c042 | 3 0 | c042
1 | c031 c042 | 4 0 |
1 | c031 | 0 0 |
2 | c041 c051 | 1 0 | c051
2 | c081 c091 | 4 0 | c081
";

/// Reads the digit at an index.
fn digit(text: &[u8], at: usize) -> Result<u8, Fail> {
    match text.get(at).and_then(|digit| digit.checked_sub(b'0')) {
        Some(digit) if digit < 10 => Ok(digit),
        _ => Err(Fail::new("no digit")),
    }
}

/// The body of a vote.
fn body_of(text: &[u8]) -> Result<Body, Fail> {
    let view = View(u32::from(digit(text, 1)?));
    let number = SeqNo(u64::from(digit(text, 2)?));
    let digest = Digest([7; 32]);
    match text.first() {
        Some(b'a') => Ok(Body::PrePrepare(PrePrepare {
            view,
            number,
            digest,
        })),
        Some(b'p') => Ok(Body::Prepare(Prepare {
            view,
            number,
            digest,
        })),
        _ => Ok(Body::Commit(Commit {
            view,
            number,
            digest,
        })),
    }
}

/// The vote as a message.
fn message_of(
    alloc: Global,
    config: &Arc<Config>,
    signers: &mut [Signer],
    text: &[u8],
) -> Result<Checked, Fail> {
    let id = digit(text, 3)?;
    let Some(signer) = signers.get_mut(usize::from(id)) else {
        return Err(Fail::new("no signer"));
    };
    sign(
        alloc,
        config,
        signer,
        Role::Replica,
        u32::from(id),
        body_of(text)?,
    )
}

/// A vote's kind, view, number and signer.
fn text_of(alloc: Global, message: &Checked) -> Result<String, Fail> {
    let Some(vote) = message.vote() else {
        return Err(Fail::new("no vote"));
    };
    let kind = match vote.kind {
        VoteKind::PrePrepare => "a",
        VoteKind::Prepare => "p",
        VoteKind::Commit => "c",
    };
    let (view, number, signer) = (vote.view.0, vote.number.0, vote.signer.0);
    Ok(format!(in alloc; "{kind}{view}{number}{signer}")?)
}

/// What is handed in, one behind another.
fn handed_in(alloc: Global, held: &mut Held) -> Result<String, Fail> {
    let mut texts = String::new(alloc);
    for _ in 0..held.len() {
        let Some(message) = held.next() else {
            break;
        };
        if !texts.is_empty() {
            texts.push_str(" ")?;
        }
        texts.push_str(&text_of(alloc, &message)?)?;
    }
    Ok(texts)
}

/// Keeps votes.
fn keep_all(
    alloc: Global,
    config: &Arc<Config>,
    held: &mut Held,
    signers: &mut [Signer],
    votes: &str,
) -> Result<(), Fail>
    requires { held.old.config ≡ config.now.value }
{
    for vote in votes.split(' ') {
        if !vote.is_empty() {
            keep(alloc, config, held, signers, vote)?;
        }
    }
    Ok(())
}

fn keep(
    alloc: Global,
    config: &Arc<Config>,
    held: &mut Held,
    signers: &mut [Signer],
    vote: &str,
) -> Result<(), Fail>
    requires { held.old.config ≡ config.now.value }
    ensures { held.new.config ≡ held.old.config }
{
    let message = message_of(alloc, config, signers, vote.as_bytes())?;
    if !message.under(config) {
        return Err(Fail::new("another configuration"));
    }
    held.keep(message)?;
    Ok(())
}

/// What is handed in of a row.
fn found(alloc: Global, group: &mut Group, votes: &str, marks: &str) -> Result<String, Fail> {
    let Group {
        config,
        signers,
        ..
    } = group;
    let mut held = Held::new(alloc, config)?;
    keep_all(alloc, config, &mut held, signers, votes)?;
    let low = SeqNo(u64::from(digit(marks.as_bytes(), 0)?));
    let view = View(u32::from(digit(marks.as_bytes(), 2)?));
    held.move_to(low, view);
    handed_in(alloc, &mut held)
}

/// Whether a row comes to what it says. The groups have Checkpoints at each number, and at each second one.
fn holds(alloc: Global, groups: &mut [Group], row: &str) -> Result<bool, Fail> {
    let mut parts = row.split('|');
    let (Some(interval), Some(votes), Some(marks), Some(wanted)) = (
        parts.next(),
        parts.next(),
        parts.next(),
        parts.next(),
    ) else {
        return Err(Fail::new("a row of other parts"));
    };
    let interval = digit(interval.trim().as_bytes(), 0)?;
    let Some(group) = groups.get_mut(usize::from(interval.saturating_sub(1))) else {
        return Err(Fail::new("no group of this interval"));
    };
    let found = found(alloc, group, votes.trim(), marks.trim())?;
    Ok(found.as_str() == wanted.trim())
}

#[test]
fn early_votes_are_kept_and_handed_in(rt: HostRuntime) -> Result<(), Fail> {
    let mut groups = Vec::new(rt.alloc());
    for interval in 1..3u8 {
        groups.push(group_of(rt.alloc(), interval, 1)?)?;
    }
    for row in ROWS.lines() {
        if !holds(rt.alloc(), &mut groups, row)? {
            return Err(format!(in rt.alloc(); "{row}")?.into());
        }
    }
    Ok(())
}
