//! What tables and messages answer, and the NewView that is made of checked messages.

ghost use Rattle.std.specs.Prelude.{◌≡◌, ◌<◌, IfOk};

use crate::messages::{cast, checkpoint, config, signers};
use crate::signing::checked;
use crate::view_messages::{change, digest_of, fault_name, new_view_of, proposal, replicas};
use checkpoints::Checkpoints;
use host_types::{Bytes, Config, Digest, SeqNo, View};
use lms_tree::Signer;
use pbft_codec::Body;
use quorum_log::QuorumLog;
use seal::{Checked, CheckedList, nested_checkpoints, nested_pre_prepares};
use std::alloc::{AllocError, Global};
use std::process::Abort;
use std::sync::Arc;
use std::test::Fail;
use view_change::{floor_of, make_new_view, null_digest};

/// Proposals for three numbers of two views, and the Prepares of two backups for the first: signer, kind, view, number
/// and digest each.
const VOTES: &str = "\
0 0 0 1 7\n\
0 0 0 3 8\n\
1 0 1 2 9\n\
1 1 0 1 7\n\
2 1 0 1 7\n\
";

/// The numbers of a line.
fn vote_of(line: &str) -> Result<[u8; 5], Fail> {
    let mut numbers = [0; 5];
    for (number, word) in numbers.iter_mut().zip(line.split(' ')) {
        *number = word.parse()?;
    }
    Ok(numbers)
}

/// Records these votes.
fn record(
    alloc: Global,
    config: &Arc<Config>,
    signers: &mut [Signer],
    log: &mut QuorumLog,
    votes: &str,
) -> Result<bool, Fail>
    requires { log.old.config ≡ config.now.value }
{
    let mut all = true;
    for line in votes.lines() {
        let [id, kind, view, number, digest] = vote_of(line)?;
        let (view, number) = (View(u32::from(view)), SeqNo(u64::from(number)));
        let message = cast(alloc, config, signers, id, kind, view, number, digest)?;
        all = accept(log, &message) && all;
    }
    Ok(all)
}

fn accept(log: &mut QuorumLog, message: &Checked) -> bool
    requires { message.now.config ≡ log.old.config }
    ensures { log.new.config ≡ log.old.config }
{
    match message.vote() {
        Some(_) => log.accept(message).is_ok(),
        None => false,
    }
}

/// A log of these replicas that has recorded the votes. A box is dropped in one step of a proof.
fn recorded(alloc: Global, secret: u8) -> Result<Box<QuorumLog>, Fail> {
    let mut signers = signers(alloc, secret)?;
    let config = config(alloc, &signers)?;
    let mut log = Box::new(alloc, QuorumLog::new(alloc, &config)?)?;
    if log.greatest_in(View(0)).is_none()
        && record(alloc, &config, &mut signers, &mut log, VOTES)?
    {
        Ok(log)
    } else {
        Err(Fail::new("a vote is refused"))
    }
}

/// Whether it names digests as the votes do.
fn names_digests(log: &QuorumLog) -> bool {
    let (seven, nine) = (Digest([7; 32]), Digest([9; 32]));
    log.names(&seven)
        && !log.names(&Digest([6; 32]))
        && log.names_in(View(0), &seven)
        && !log.names_in(View(0), &nine)
        && log.names_in(View(1), &nine)
}

/// Whether it has the marks, and the greatest numbers in views 0 to 2.
fn has_numbers(log: &QuorumLog) -> bool {
    (log.low(), log.floor()) == (SeqNo(0), Some(SeqNo(0)))
        && log.greatest_in(View(0)) == Some(SeqNo(3))
        && log.greatest_in(View(1)) == Some(SeqNo(2))
        && log.greatest_in(View(2)).is_none()
}

#[test]
fn a_log_reports_names_and_numbers(rt: HostRuntime) -> Result<(), Fail> {
    let log = recorded(rt.alloc(), 9)?;
    assert!(rt; names_digests(&log));
    assert!(rt; has_numbers(&log));
    Ok(())
}

#[test]
fn a_certificate_is_copied(rt: HostRuntime) -> Result<(), Fail> {
    let log = recorded(rt.alloc(), 10)?;
    let certificate = log.certificate(View(0), SeqNo(1))?.ok_or("not certified")?;
    let copy = certificate.copy()?;
    assert!(rt; copy.pre_prepare.bytes() == certificate.pre_prepare.bytes());
    assert!(rt; copy.prepares.len() == 2);
    Ok(())
}

/// SHA-256 of "abc" (FIPS 180-4's example).
static OF_ABC: [u8; 32] = [
    0xba, 0x78, 0x16, 0xbf, 0x8f, 0x01, 0xcf, 0xea, 0x41, 0x41, 0x40, 0xde, 0x5d, 0xae, 0x22, 0x23,
    0xb0, 0x03, 0x61, 0xa3, 0x96, 0x17, 0x7a, 0x9c, 0xb4, 0x10, 0xff, 0x61, 0xf2, 0x00, 0x15, 0xad,
];

/// Notes the Checkpoints of replicas 0 to 2 at this number.
fn note_three(
    alloc: Global,
    config: &Arc<Config>,
    signers: &mut [Signer],
    kept: &mut Checkpoints,
    number: SeqNo,
) -> Result<(), Fail>
    requires { kept.old.config ≡ config.now.value }
    ensures { IfOk result (λ _. kept.new.config ≡ kept.old.config) }
{
    for id in 0..3 {
        let message = checkpoint(alloc, config, signers, id, number, Digest(OF_ABC))?;
        if let Body::Checkpoint(_) = message.body() {
            kept.note(&message)?;
        }
    }
    Ok(())
}

/// Notes them at 2, 4 and 6.
fn note_all(
    alloc: Global,
    config: &Arc<Config>,
    signers: &mut [Signer],
    kept: &mut Checkpoints,
) -> Result<(), Fail>
    requires { kept.old.config ≡ config.now.value }
{
    note_three(alloc, config, signers, kept, SeqNo(2))?;
    note_three(alloc, config, signers, kept, SeqNo(4))?;
    note_three(alloc, config, signers, kept, SeqNo(6))
}

/// A table in which 2, 4 and 6 are stable. A box is dropped in one step of a proof.
fn three_stable(alloc: Global) -> Result<Box<Checkpoints>, Fail> {
    let mut signers = signers(alloc, 11)?;
    let config = config(alloc, &signers)?;
    let mut kept = Box::new(alloc, Checkpoints::new(alloc, &config)?)?;
    note_all(alloc, &config, &mut signers, &mut kept)?;
    Ok(kept)
}

/// Keeps these bytes at a number.
fn keep(alloc: Global, kept: &mut Checkpoints, number: u64, bytes: &[u8]) -> Result<(), Fail> {
    let bytes = Bytes::from_vec(Vec::from_slice(alloc, bytes)?);
    Ok(kept.keep(SeqNo(number), bytes)?)
}

/// Keeps "abc" at a number, and returns whether it has its digest there.
fn keeps_abc(alloc: Global, kept: &mut Checkpoints, number: u64) -> Result<bool, Fail> {
    let bytes = Bytes::from_vec(Vec::from_slice(alloc, b"abc")?);
    let digest = kept.keep_hashed(SeqNo(number), bytes)?;
    let is_there = kept.snapshot_digest(SeqNo(number)) == Some(digest);
    Ok(is_there && digest == Digest(OF_ABC))
}

/// Whether this number is the greatest up to another at which what is kept has the stable digest.
fn is_greatest(kept: &Checkpoints, up_to: u64, number: u64) -> bool {
    kept.stable_kept(SeqNo(up_to)) == Some((SeqNo(number), Digest(OF_ABC)))
}

#[test]
fn the_greatest_kept_snapshot_that_is_stable(rt: HostRuntime) -> Result<(), Fail> {
    let mut kept = three_stable(rt.alloc())?;
    keep(rt.alloc(), &mut kept, 2, b"abc")?;
    assert!(rt; keeps_abc(rt.alloc(), &mut kept, 4)?);
    keep(rt.alloc(), &mut kept, 6, b"abd")?;
    assert!(rt; kept.stable_kept(SeqNo(1)).is_none());
    assert!(rt; is_greatest(&kept, 3, 2) && is_greatest(&kept, 9, 4));
    kept.discard_to(SeqNo(4));
    assert!(rt; kept.low() == SeqNo(4) && kept.stable_kept(SeqNo(9)).is_none());
    Ok(())
}

/// A ViewChange for view 1 at low mark 8.
const AT_8: &str = "1 low 8, proof 0:8:5 1:8:5 3:8:5";

/// A NewView with such a ViewChange, and two proposals.
const ENTRY: &str = "1; 0 1 low 8, proof 0:8:5 1:8:5 3:8:5; with 1/9/0 1/10/7";

fn put(list: &mut CheckedList, message: Checked) -> Result<(), AllocError>
    requires { message.config ≡ list.old.config }
    ensures { list.new.config ≡ list.old.config }
{
    list.push(message)
}

/// Three ViewChanges.
fn three_changes(
    alloc: Global,
    config: &Arc<Config>,
    signers: &mut [Signer],
) -> Result<CheckedList, Fail>
    ensures { IfOk result (λ l. l.config ≡ config.now.value) }
{
    let mut list = CheckedList::new(alloc, config)?;
    for id in 0..3 {
        let body = change(alloc, signers, AT_8)?;
        put(
            &mut list,
            checked(alloc, config, signers, id, Body::ViewChange(body))?,
        )?;
    }
    Ok(list)
}

/// The body of the NewView that is made of three ViewChanges, which have a copy; and whether 8 is its floor.
fn made(alloc: Global, config: &Arc<Config>, signers: &mut [Signer]) -> Result<(Body, bool), Fail> {
    let changes = three_changes(alloc, config, signers)?;
    let none = CheckedList::new(alloc, config)?;
    let are_copied = changes.copy()?.len() == 3;
    let body = make_new_view(alloc, View(1), &changes, &none)?;
    let is_right = has_floor(&body) && are_copied;
    Ok((body, is_right))
}

/// Whether 8 is the floor of a NewView's ViewChanges.
fn has_floor(body: &Body) -> bool {
    match body {
        Body::NewView(entry) => floor_of(entry.changes.as_slice()) == SeqNo(8),
        _ => false,
    }
}

/// Whether a NewView is valid, and has so many Checkpoints and proposals inside.
fn reports(
    alloc: Global,
    config: &Arc<Config>,
    message: &Checked,
    checkpoints: usize,
    proposals: usize,
) -> Result<bool, Fail>
    requires { message.now.config ≡ config.now.value }
{
    Ok(
        fault_name(alloc, config, message)?.as_str() == "-"
            && nested_checkpoints(alloc, message)?.len() == checkpoints
            && nested_pre_prepares(alloc, message)?.len() == proposals,
    )
}

#[test]
fn a_new_view_is_made_and_reported(rt: HostRuntime) -> Result<(), Fail> {
    let (mut signers, config) = replicas(rt.alloc(), 12)?;
    let (body, is_right) = made(rt.alloc(), &config, &mut signers)?;
    let message = checked(rt.alloc(), &config, &mut signers, 1, body)?;
    assert!(rt; is_right && reports(rt.alloc(), &config, &message, 9, 0)?);
    Ok(())
}

/// The NewView of `ENTRY`, signed by replica 1.
fn entry(alloc: Global, config: &Arc<Config>, signers: &mut [Signer]) -> Result<Checked, Fail>
    ensures { IfOk result (λ c. c.config ≡ config.now.value) }
{
    let entry = new_view_of(alloc, signers, ENTRY)?;
    checked(alloc, config, signers, 1, Body::NewView(entry))
}

/// The number of the last proposal inside.
fn last_proposed(alloc: Global, message: &Checked) -> Result<Option<SeqNo>, AllocError> {
    let proposals = nested_pre_prepares(alloc, message)?;
    let last = proposals.as_slice().last().and_then(|inside| inside.vote());
    Ok(last.map(|vote| vote.number))
}

#[test]
fn the_nested_messages_are_reported(rt: HostRuntime) -> Result<(), Fail> {
    let (mut signers, config) = replicas(rt.alloc(), 13)?;
    let message = entry(rt.alloc(), &config, &mut signers)?;
    assert!(rt; last_proposed(rt.alloc(), &message)? == Some(proposal(1, 10, 7).number));
    assert!(rt; nested_checkpoints(rt.alloc(), &message)?.len() == 3);
    assert!(rt; null_digest() == digest_of(0));
    Ok(())
}
