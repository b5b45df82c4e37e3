ghost use Rattle.std.specs.Prelude.{◌≡◌, ◌+◌, ◌<◌, ◌≤◌, length, true, IfOk, IfSome};
ghost use Rattle.std.specs.Option.{option_copied};
ghost use Rattle.quorum_log.specs.Log.{AreProposals, IsProposal};

use crate::flat_log::FlatLog;
use crate::messages::{cast, narrow_config, signers};
use host_types::{Config, SeqNo, View};
use lms_tree::Signer;
use quorum_log::{CheckedCertificate, LogFault, QuorumLog};
use seal::{Checked, CheckedList, Vote, VoteKind};
use std::alloc::{AllocError, Global};
use std::process::Abort;
use std::sync::Arc;
use std::test::Fail;

// Votes of two views for two numbers: of all replicas for digest 7, and of replicas 0 and 1 for digest 8,
// too. PrePrepares and Prepares for digest 7 are signed twice: which copy is kept is seen by its bytes.
// The first 12 are the PrePrepares.
fn pool(alloc: Global, config: &Arc<Config>, signers: &mut [Signer]) -> Result<CheckedList, Fail>
    ensures { IfOk result (λ l. l.config ≡ config.now.value) }
{
    let mut pool = CheckedList::new(alloc, config)?;
    for drawn in 0..96u32 {
        let (kind, id) = ((drawn / 32) as u8, (drawn / 8 % 4) as u8);
        let (view, number) = (drawn / 4 % 2, 1 + u64::from(drawn / 2 % 2));
        let digest = 7 + (drawn % 2) as u8;
        let leads = u32::from(id) == view;
        if (kind == 2 || leads == (kind == 0)) && (digest == 7 || id < 2) {
            let copies = if kind < 2 && digest == 7 { 2 } else { 1 };
            for _ in 0..copies {
                let vote = cast(
                    alloc,
                    config,
                    signers,
                    id,
                    kind,
                    View(view),
                    SeqNo(number),
                    digest,
                )?;
                put(&mut pool, vote)?;
            }
        }
    }
    Ok(pool)
}

fn put(pool: &mut CheckedList, message: Checked) -> Result<(), AllocError>
    requires { message.config ≡ pool.old.config }
    ensures { pool.new.config ≡ pool.old.config }
{
    pool.push(message)
}

// The message at a position of the pool.
fn at(pool: &CheckedList, position: usize) -> Option<&Checked>
    ensures { IfSome (option_copied result) (λ m. m.config ≡ pool.now.config) }
{
    pool.as_slice().get(position)
}

fn is_proposal(message: &Checked, view: u32, number: u64) -> bool
    ensures { result ≡ true → IsProposal view number message.now.message }
{
    match message.vote() {
        Some(vote) => match vote.kind {
            VoteKind::PrePrepare => vote.view.0 == view && vote.number.0 == number,
            _ => false,
        },
        None => false,
    }
}

// The PrePrepares at these positions that follow one another, for the numbers above the floor.
fn opening(
    alloc: Global,
    config: &Arc<Config>,
    pool: &CheckedList,
    view: u32,
    floor: u64,
    positions: &[usize],
) -> Result<(CheckedList, Vec<(Vote, usize)>), Fail>
    requires config { pool.now.config ≡ config.now.value }
    requires floor { floor < 3 }
    requires few { length positions.now ≤ 4 }
    ensures config { IfOk result (λ r. r.0.config ≡ config.now.value) }
    ensures proposals { IfOk result (λ r. AreProposals view (floor + 1) r.0.messages) }
    ensures few { IfOk result (λ r. length r.0.messages ≤ length positions.now) }
{
    let mut list = CheckedList::new(alloc, config)?;
    let mut given = Vec::new(alloc);
    for position in positions {
        if let Some(message) = at(pool, *position) {
            if add(&mut list, message, view, floor)? {
                if let Some(vote) = message.vote() {
                    given.push((vote, *position))?;
                }
            }
        }
    }
    Ok((list, given))
}

// Puts the message at the end if it is the next.
fn add(list: &mut CheckedList, message: &Checked, view: u32, floor: u64) -> Result<bool, AllocError>
    requires config { message.now.config ≡ list.old.config }
    requires bound { floor + length list.old.messages < 10 }
    requires proposals { AreProposals view (floor + 1) list.old.messages }
    ensures config { list.new.config ≡ list.old.config }
    ensures proposals { AreProposals view (floor + 1) list.new.messages }
    ensures few { length list.new.messages ≤ length list.old.messages + 1 }
{
    if is_proposal(message, view, floor + 1 + list.len() as u64) {
        list.push(message.copy()?)?;
        return Ok(true);
    }
    Ok(false)
}

// What the sequences came to.
#[derive(Drop)]
struct Seen {
    prepared: bool,
    committed: bool,
    other_digest: bool,
    entered: bool,
}

// Takes what was drawn to both logs, and returns whether they answer the same.
fn both(
    alloc: Global,
    config: &Arc<Config>,
    pool: &CheckedList,
    log: &mut QuorumLog,
    flat: &mut FlatLog,
    seen: &mut Seen,
    drawn: u32,
) -> Result<bool, Fail>
    requires pool { pool.now.config ≡ config.now.value }
    requires log { log.old.config ≡ config.now.value }
    ensures { IfOk result (λ r. log.new.config ≡ config.now.value) }
{
    let position = (drawn >> 8) as usize % 64;
    let number = u64::from(drawn >> 4 & 3) % 3;
    let view = drawn >> 6 & 1;
    match drawn & 15 {
        0 if number > 0 && drawn >> 22 & 1 == 0 => {
            log.discard_to(SeqNo(number));
            flat.discard_to(number);
        }
        1 if view > log.view().0 => {
            log.leave(View(view));
            flat.leave(view);
        }
        2 if view >= log.view().0 => {
            let positions = [position % 12, position % 11, position % 9, position % 7];
            let (list, given) = opening(alloc, config, pool, view, number, &positions)?;
            log.enter(View(view), SeqNo(number), &list)?;
            flat.enter(view, number, number + given.len() as u64, &given)?;
            seen.entered |= !given.is_empty();
        }
        _ => {
            if let Some(message) = at(pool, position) {
                if let Some(vote) = message.vote() {
                    let answer = log.accept(message);
                    seen.other_digest |= answer == Err(LogFault::OtherDigest);
                    return Ok(answer == flat.accept(&vote, position));
                }
            }
        }
    }
    Ok(true)
}

// Whether the certificate is made of the messages at these positions.
fn is_made_of(
    certificate: &Option<CheckedCertificate>,
    pool: &CheckedList,
    positions: &[usize],
) -> bool {
    let Some(certificate) = certificate else {
        return positions.len() < 3;
    };
    let Some((first, rest)) = positions.split_first() else {
        return false;
    };
    let Some(proposal) = at(pool, *first) else {
        return false;
    };
    certificate.pre_prepare.bytes() == proposal.bytes()
        && rest.len() >= 2
        && certificate.prepares.len() == 2
        && are_at(certificate.prepares.as_slice(), pool, rest)
}

fn are_at(messages: &[Checked], pool: &CheckedList, positions: &[usize]) -> bool {
    for index in 0..messages.len() {
        let same = match positions.get(index) {
            Some(position) => at(pool, *position).map(|m| m.bytes())
                == Some(messages[index].bytes()),
            None => false,
        };
        if !same {
            return false;
        }
    }
    true
}

// Whether both logs answer the same of a number in a view.
fn agree(
    alloc: Global,
    pool: &CheckedList,
    log: &QuorumLog,
    flat: &FlatLog,
    seen: &mut Seen,
    view: u32,
    number: u64,
) -> Result<bool, Fail> {
    let prepares = flat.matching(alloc, VoteKind::Prepare, view, number)?;
    let commits = flat.matching(alloc, VoteKind::Commit, view, number)?;
    let proposal = match prepares.get(0) {
        Some(position) => at(pool, *position).and_then(|message| message.vote()),
        None => None,
    };
    let prepared = prepares.len() >= 3;
    let committed = prepared && commits.len() >= 4;
    seen.prepared |= prepared;
    seen.committed |= committed;
    let (view, number) = (View(view), SeqNo(number));
    let certificate = log.certificate(view, number)?;
    Ok(
        log.pre_prepare(view, number) == proposal.map(|vote| vote.digest)
            && log.prepared(view, number) == prepared
            && log.committed(view, number) == committed
            && is_made_of(&certificate, pool, &prepares),
    )
}

// Whether both logs answer the same all along a sequence of draws.
fn a_sequence(
    alloc: Global,
    config: &Arc<Config>,
    pool: &CheckedList,
    seen: &mut Seen,
    seed: u32,
) -> Result<bool, Fail>
    requires { pool.now.config ≡ config.now.value }
{
    let mut drawn = seed;
    let mut log = Box::new(alloc, QuorumLog::new(alloc, config)?)?;
    let mut flat = FlatLog::new(alloc);
    for _ in 0..48 {
        drawn = drawn.wrapping_mul(1_664_525).wrapping_add(1_013_904_223);
        if !both(alloc, config, pool, &mut log, &mut flat, seen, drawn >> 8)? {
            return Ok(false);
        }
        let asked = drawn >> 29;
        let (view, number) = (asked % 2, u64::from(asked / 2));
        if !agree(alloc, pool, &log, &flat, seen, view, number)? {
            return Ok(false);
        }
    }
    Ok(true)
}

// Two digests by one signer are a faulty replica's.
#[test]
fn a_log_answers_as_a_plain_list(rt: HostRuntime) -> Result<(), Fail> {
    let alloc = rt.alloc();
    let mut signers = signers(alloc, 5)?;
    let config = narrow_config(alloc, &signers)?;
    let pool = pool(alloc, &config, &mut signers)?;
    let mut seen = Seen {
        prepared: false,
        committed: false,
        other_digest: false,
        entered: false,
    };
    for seed in 0..16 {
        assert!(rt; a_sequence(alloc, &config, &pool, &mut seen, seed)?);
    }
    assert!(rt; seen.prepared && seen.committed && seen.other_digest && seen.entered);
    Ok(())
}
