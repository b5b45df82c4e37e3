//! Checkpoints: which numbers are stable, their proofs, snapshots, and what is discarded.

ghost use Rattle.std.specs.Prelude.{◌≡◌, IfOk};

use crate::messages::{checkpoint, config, signers};
use crate::view_messages::numbers;
use checkpoints::{CheckpointFault, Checkpoints};
use host_types::{Bytes, Config, Digest, SeqNo};
use lms_tree::Signer;
use pbft_codec::Body;
use seal::Checked;
use std::alloc::{AllocError, Global};
use std::process::Abort;
use std::sync::Arc;
use std::test::Fail;

/// Notes a Checkpoint of the same configuration.
fn note(kept: &mut Checkpoints, message: &Checked) -> Option<CheckpointFault>
    requires { message.now.config ≡ kept.old.config }
    ensures { kept.new.config ≡ kept.old.config }
{
    match message.body() {
        Body::Checkpoint(_) => kept.note(message).err(),
        _ => None,
    }
}

/// The signers of the proof of a number, in order.
fn provers(alloc: Global, kept: &Checkpoints, number: u64) -> Result<Vec<u32>, Fail> {
    let proof = kept.proof(SeqNo(number))?;
    let mut ids = Vec::new(alloc);
    for message in proof.as_slice() {
        ids.push(message.signer().1)?;
    }
    Ok(ids)
}

/// The first byte of the digest that is stable at a number.
fn stable(kept: &Checkpoints, number: u64) -> Option<u8> {
    kept.stable(SeqNo(number)).map(|digest| digest.0[0])
}

/// Signer, number and digest of a Checkpoint; its fault, and the digest that is stable at 2 then.
const NOTES: &str = "\
3 2 7 => - -\n\
1 2 8 => - -\n\
1 2 7 => DigestDiffers -\n\
1 2 8 => - -\n\
0 2 7 => - -\n\
2 4 7 => - -\n\
2 2 7 => - 7\n\
0 0 7 => Old 7\n\
";

/// The name of a fault, `-` for none.
fn name_of(fault: Option<CheckpointFault>) -> &'static str {
    match fault {
        None => "-",
        Some(CheckpointFault::Old) => "Old",
        Some(CheckpointFault::DigestDiffers) => "DigestDiffers",
        Some(CheckpointFault::Memory) => "Memory",
    }
}

/// Notes these Checkpoints one after another, and returns whether each answer and the stable digest are
/// as they must be.
fn answers(
    alloc: Global,
    config: &Arc<Config>,
    signers: &mut [Signer],
    kept: &mut Checkpoints,
    table: &str,
) -> Result<bool, Fail>
    requires { kept.old.config ≡ config.now.value }
    ensures { kept.new.config ≡ config.now.value }
{
    let mut right = true;
    for line in table.lines() {
        let (said, wanted) = line.split_once(" => ").ok_or("no answer")?;
        let (fault, answer) = wanted.split_once(" ").ok_or("no digest")?;
        let [id, number, digest] = numbers(said, " ")?;
        let (number, digest) = (SeqNo(u64::from(number)), Digest([digest; 32]));
        let message = checkpoint(alloc, config, signers, id, number, digest)?;
        let found = name_of(note(kept, &message));
        right = right && found == fault && stable(kept, 2) == answer.parse::<u8>().ok();
    }
    Ok(right)
}

/// Signers, their configuration, and a table with nothing in it. A box is dropped in one step of a proof.
fn nothing_kept(
    alloc: Global,
    secret: u8,
) -> Result<(Vec<Signer>, Arc<Config>, Box<Checkpoints>), Fail>
    ensures { IfOk result (λ r. r.2.value.config ≡ r.1.value) }
{
    let signers = signers(alloc, secret)?;
    let config = config(alloc, &signers)?;
    let kept = Box::new(alloc, Checkpoints::new(alloc, &config)?)?;
    Ok((signers, config, kept))
}

/// Whether 2 has become stable, by replicas 0, 2 and 3.
fn has_its_proof(alloc: Global, kept: &Checkpoints) -> Result<bool, Fail> {
    let expected: [u32; 3] = [0, 2, 3];
    Ok(provers(alloc, kept, 2)?.as_slice() == &expected[..])
}

#[test]
fn a_quorum_makes_a_number_stable(rt: HostRuntime) -> Result<(), Fail> {
    let (mut signers, config, mut kept) = nothing_kept(rt.alloc(), 6)?;
    assert!(rt; answers(rt.alloc(), &config, &mut signers, &mut kept, NOTES)?);
    assert!(rt; has_its_proof(rt.alloc(), &kept)?);
    Ok(())
}

/// Checkpoints at 2, 4 and 6, of which 2 and 4 are stable.
const THREE_NUMBERS: &str = "\
0 2 7 => - -\n\
1 2 7 => - -\n\
2 2 7 => - 7\n\
1 4 9 => - 7\n\
2 4 9 => - 7\n\
3 4 9 => - 7\n\
0 6 5 => - 7\n\
1 6 5 => - 7\n\
";

/// At the mark and below it a Checkpoint is old; above it one counts.
const AFTER_THE_MARK: &str = "\
0 4 9 => Old -\n\
0 3 9 => Old -\n\
0 5 9 => - -\n\
2 6 5 => - -\n\
";

/// Keeps one byte at each of these numbers.
fn keep_each(alloc: Global, kept: &mut Checkpoints, numbers: &[u64]) -> Result<(), Fail>
    ensures { kept.new.config ≡ kept.old.config }
{
    for number in numbers {
        let mut bytes = Vec::new(alloc);
        bytes.push(1)?;
        kept.keep(SeqNo(*number), Bytes::from_vec(bytes))?;
    }
    Ok(())
}

/// The numbers up to 8 at which a snapshot is kept.
fn snapshots(alloc: Global, kept: &Checkpoints) -> Result<Vec<u64>, AllocError> {
    let mut numbers = Vec::new(alloc);
    for number in 0..9 {
        if kept.snapshot_of(SeqNo(number)).is_some() {
            numbers.push(number)?;
        }
    }
    Ok(numbers)
}

/// What is kept after the mark rose to 4: whether the digest of 4 and its proof stay, and all at or below
/// it is gone but its snapshot.
fn is_cut(alloc: Global, kept: &Checkpoints) -> Result<bool, Fail> {
    let signers: [u32; 3] = [1, 2, 3];
    let numbers: [u64; 2] = [4, 5];
    Ok(
        stable(kept, 2).is_none()
            && stable(kept, 4) == Some(9)
            && provers(alloc, kept, 4)?.as_slice() == &signers[..]
            && provers(alloc, kept, 2)?.is_empty()
            && snapshots(alloc, kept)?.as_slice() == &numbers[..],
    )
}

/// Whether 4 is the greatest stable number, and remains it where the mark rises to it, and no longer rises.
fn rises(alloc: Global, kept: &mut Checkpoints) -> Result<bool, Fail>
    ensures { kept.new.config ≡ kept.old.config }
{
    let before = kept.stable_above(SeqNo(0)) == Some(SeqNo(4));
    let above = kept.stable_above(SeqNo(4)).is_none();
    kept.discard_to(SeqNo(4));
    let cut = is_cut(alloc, kept)?;
    kept.discard_to(SeqNo(4));
    kept.discard_to(SeqNo(2));
    Ok(before && above && cut && is_cut(alloc, kept)?)
}

#[test]
fn the_mark_rises(rt: HostRuntime) -> Result<(), Fail> {
    let (mut signers, config, mut kept) = nothing_kept(rt.alloc(), 7)?;
    assert!(rt; answers(rt.alloc(), &config, &mut signers, &mut kept, THREE_NUMBERS)?);
    keep_each(rt.alloc(), &mut kept, &[2, 3, 4, 5])?;
    assert!(rt; rises(rt.alloc(), &mut kept)?);
    assert!(rt; answers(rt.alloc(), &config, &mut signers, &mut kept, AFTER_THE_MARK)?);
    assert!(rt; kept.stable_above(SeqNo(4)) == Some(SeqNo(6)));
    Ok(())
}

/// SHA-256 of "abc" (FIPS 180-4's example).
static OF_ABC: [u8; 32] = [
    0xba, 0x78, 0x16, 0xbf, 0x8f, 0x01, 0xcf, 0xea, 0x41, 0x41, 0x40, 0xde, 0x5d, 0xae, 0x22, 0x23,
    0xb0, 0x03, 0x61, 0xa3, 0x96, 0x17, 0x7a, 0x9c, 0xb4, 0x10, 0xff, 0x61, 0xf2, 0x00, 0x15, 0xad,
];

/// At which number what is offered, and the fault.
const BEFORE: &str = "\
2 abd => DigestDiffers\n\
3 abc => DigestDiffers\n\
0 abc => Old\n\
2  => DigestDiffers\n\
";

/// Each with one byte of the snapshot changed.
const CHANGED: &str = "\
2 `bc => DigestDiffers\n\
2 aBc => DigestDiffers\n\
2 abb => DigestDiffers\n\
";

const AT_THE_MARK: &str = "\
2 abc => Old\n\
1 abc => Old\n\
";

fn bytes_of(alloc: Global, text: &[u8]) -> Result<Bytes, AllocError> {
    let mut bytes = Vec::new(alloc);
    for byte in text {
        bytes.push(*byte)?;
    }
    Ok(Bytes::from_vec(bytes))
}

/// What can be seen of a table whose number 2 is the only one that has anything.
type Seen = (SeqNo, Option<u8>, Option<SeqNo>, Option<usize>);

fn seen(kept: &Checkpoints) -> Seen {
    let length = kept.snapshot_of(SeqNo(2)).map(|bytes| bytes.len());
    (
        kept.low(),
        stable(kept, 2),
        kept.stable_above(SeqNo(0)),
        length,
    )
}

/// Whether an offer has its fault and all stays as it is.
fn is_refused(
    alloc: Global,
    kept: &mut Checkpoints,
    number: u64,
    text: &str,
    fault: &str,
) -> Result<bool, AllocError> {
    let was = seen(kept);
    let bytes = bytes_of(alloc, text.as_bytes())?;
    let answer = kept.offer(SeqNo(number), bytes).err();
    Ok(name_of(answer) == fault && seen(kept) == was)
}

/// Whether each offer has its fault and all stays as it is.
fn refuses(alloc: Global, kept: &mut Checkpoints, offers: &str) -> Result<bool, Fail> {
    let mut right = true;
    for line in offers.lines() {
        let (said, fault) = line.split_once(" => ").ok_or("no fault")?;
        let (number, text) = said.split_once(" ").ok_or("no number")?;
        right = is_refused(alloc, kept, number.parse()?, text, fault)? && right;
    }
    Ok(right)
}

/// Notes the Checkpoints at 2 with the digest of "abc" of replicas 0 to 2.
fn note_three(
    alloc: Global,
    config: &Arc<Config>,
    signers: &mut [Signer],
    kept: &mut Checkpoints,
) -> Result<(), Fail>
    requires { kept.old.config ≡ config.now.value }
{
    for id in 0..3 {
        let message = checkpoint(alloc, config, signers, id, SeqNo(2), Digest(OF_ABC))?;
        if note(kept, &message).is_some() {
            return Err(Fail::new("a Checkpoint is refused"));
        }
    }
    Ok(())
}

/// Whether the snapshot at 2 is "abc", with its digest.
fn is_kept(kept: &Checkpoints) -> bool {
    let abc: &[u8] = b"abc";
    kept.snapshot_of(SeqNo(2)) == Some(abc)
        && kept.snapshot_digest(SeqNo(2)) == Some(Digest(OF_ABC))
}

/// Whether "abc" is kept at 2, and stays where another is offered and where the mark rises to it.
fn keeps_abc(alloc: Global, kept: &mut Checkpoints) -> Result<bool, Fail> {
    kept.offer(SeqNo(2), bytes_of(alloc, b"abc")?)?;
    let is_there = is_kept(kept);
    let changed = refuses(alloc, kept, CHANGED)?;
    kept.discard_to(SeqNo(2));
    let after = refuses(alloc, kept, AT_THE_MARK)?;
    Ok(is_there && changed && after && is_kept(kept))
}

#[test]
fn snapshots_are_offered(rt: HostRuntime) -> Result<(), Fail> {
    let (mut signers, config, mut kept) = nothing_kept(rt.alloc(), 8)?;
    note_three(rt.alloc(), &config, &mut signers, &mut kept)?;
    assert!(rt; refuses(rt.alloc(), &mut kept, BEFORE)?);
    assert!(rt; kept.snapshot_of(SeqNo(2)).is_none() && kept.snapshot_digest(SeqNo(2)).is_none());
    assert!(rt; keeps_abc(rt.alloc(), &mut kept)?);
    Ok(())
}
