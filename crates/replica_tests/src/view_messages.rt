//! Signed ViewChanges and NewViews of four replicas, built of texts.

ghost use Rattle.std.specs.Prelude.{◌≡◌};

use crate::messages::{config, signers};
pub use crate::signing::checked;
use crate::signing::signed;
use host_types::{Config, Digest, SeqNo, View};
use lms_tree::Signer;
use pbft_codec::{
    Body, Certificate, Checkpoint, NewView, PrePrepare, Prepare, Sequence, Signed, ViewChange,
};
use seal::Checked;
use std::alloc::Global;
use std::sync::Arc;
use std::test::Fail;
use view_change::{valid, valid_new_view};

/// The SHA-256 digest of no bytes (FIPS 180-4).
const NULL_DIGEST: [u8; 32] = [
    0xe3, 0xb0, 0xc4, 0x42, 0x98, 0xfc, 0x1c, 0x14, 0x9a, 0xfb, 0xf4, 0xc8, 0x99, 0x6f, 0xb9, 0x24,
    0x27, 0xae, 0x41, 0xe4, 0x64, 0x9b, 0x93, 0x4c, 0xa4, 0x95, 0x99, 0x1b, 0x78, 0x52, 0xb8, 0x55,
];

/// Four replicas: their signers and their configuration.
pub fn replicas(alloc: Global, secret: u8) -> Result<(Vec<Signer>, Arc<Config>), Fail> {
    let signers = signers(alloc, secret)?;
    let config = config(alloc, &signers)?;
    Ok((signers, config))
}

/// The digest with this byte throughout; 0 is the null digest.
pub fn digest_of(byte: u8) -> Digest {
    if byte == 0 {
        Digest(NULL_DIGEST)
    } else {
        Digest([byte; 32])
    }
}

pub fn proposal(view: u32, number: u64, digest: u8) -> PrePrepare {
    PrePrepare {
        view: View(view),
        number: SeqNo(number),
        digest: digest_of(digest),
    }
}

/// The numbers of a text between these signs, three at most.
pub fn numbers(text: &str, between: &str) -> Result<[u8; 3], Fail> {
    let mut numbers = [0; 3];
    for (number, word) in numbers.iter_mut().zip(text.split(between)) {
        *number = word.parse()?;
    }
    Ok(numbers)
}

/// The proposal of `VIEW/NUMBER/DIGEST`.
pub fn proposal_of(text: &str) -> Result<PrePrepare, Fail> {
    let [view, number, digest] = numbers(text, "/")?;
    Ok(proposal(u32::from(view), u64::from(number), digest))
}

/// The certificate of `VIEW/NUMBER/DIGEST by SIGNER:DIGEST ..`.
fn certificate(alloc: Global, signers: &mut [Signer], text: &str) -> Result<Certificate, Fail> {
    let (said, by) = text.split_once(" by ").ok_or("no Prepares")?;
    let said = proposal_of(said)?;
    let primary = (said.view.0 % 4) as u8;
    let pre_prepare = signed(alloc, signers, primary, said)?;
    Ok(Certificate {
        pre_prepare,
        prepares: Sequence::from_vec(prepares(alloc, signers, &said, by)?),
    })
}

/// The Prepares of a proposal's number, of `SIGNER:DIGEST ..`.
fn prepares(
    alloc: Global,
    signers: &mut [Signer],
    proposal: &PrePrepare,
    text: &str,
) -> Result<Vec<Signed<Prepare>>, Fail> {
    let mut prepares = Vec::new(alloc);
    for word in text.split(' ') {
        let [id, digest, _] = numbers(word, ":")?;
        let prepare = Prepare {
            view: proposal.view,
            number: proposal.number,
            digest: digest_of(digest),
        };
        prepares.push(signed(alloc, signers, id, prepare)?)?;
    }
    Ok(prepares)
}

pub fn checkpoint(number: u64, digest: u8) -> Checkpoint {
    Checkpoint {
        number: SeqNo(number),
        digest: digest_of(digest),
    }
}

/// The Checkpoints of `SIGNER:NUMBER:DIGEST ..`.
fn proof(
    alloc: Global,
    signers: &mut [Signer],
    text: &str,
) -> Result<Vec<Signed<Checkpoint>>, Fail> {
    let mut checkpoints = Vec::new(alloc);
    for word in text.split(' ') {
        let [id, number, digest] = numbers(word, ":")?;
        let said = checkpoint(u64::from(number), digest);
        checkpoints.push(signed(alloc, signers, id, said)?)?;
    }
    Ok(checkpoints)
}

/// The proof of `proof .., CERTIFICATE ..`; without one, none.
fn proof_in(
    alloc: Global,
    signers: &mut [Signer],
    text: &str,
) -> Result<Vec<Signed<Checkpoint>>, Fail> {
    for part in text.split(", ") {
        if let Some(said) = part.strip_prefix("proof ") {
            return proof(alloc, signers, said);
        }
    }
    Ok(Vec::new(alloc))
}

/// The certificates of `proof .., CERTIFICATE ..`.
fn certificates_in(
    alloc: Global,
    signers: &mut [Signer],
    text: &str,
) -> Result<Vec<Certificate>, Fail> {
    let mut certificates = Vec::new(alloc);
    for part in text.split(", ") {
        if !part.is_empty() && !part.starts_with("proof ") {
            certificates.push(certificate(alloc, signers, part)?)?;
        }
    }
    Ok(certificates)
}

/// The ViewChange of `VIEW low MARK, proof .., CERTIFICATE ..`.
pub fn change(alloc: Global, signers: &mut [Signer], text: &str) -> Result<ViewChange, Fail> {
    let (head, rest) = text.split_once(", ").unwrap_or((text, ""));
    let (view, low) = head.split_once(" low ").ok_or("no low mark")?;
    let (view, low) = (View(view.parse()?), SeqNo(low.parse()?));
    let checkpoints = proof_in(alloc, signers, rest)?;
    let certificates = certificates_in(alloc, signers, rest)?;
    Ok(ViewChange {
        view,
        low,
        checkpoints: Sequence::from_vec(checkpoints),
        certificates: Sequence::from_vec(certificates),
    })
}

/// The signed ViewChange of `SIGNER CHANGE`.
fn signed_change(
    alloc: Global,
    signers: &mut [Signer],
    text: &str,
) -> Result<Signed<ViewChange>, Fail> {
    let (id, said) = text.split_once(" ").ok_or("no ViewChange")?;
    let id = id.parse()?;
    let body = change(alloc, signers, said)?;
    signed(alloc, signers, id, body)
}

/// The signed proposals of `VIEW/NUMBER/DIGEST ..`.
fn proposals(
    alloc: Global,
    signers: &mut [Signer],
    id: u8,
    text: &str,
) -> Result<Vec<Signed<PrePrepare>>, Fail> {
    let mut proposals = Vec::new(alloc);
    for word in text.split(' ') {
        proposals.push(signed(alloc, signers, id, proposal_of(word)?)?)?;
    }
    Ok(proposals)
}

/// The ViewChanges of `SIGNER CHANGE; ..; with PROPOSAL ..`.
fn changes_in(
    alloc: Global,
    signers: &mut [Signer],
    text: &str,
) -> Result<Vec<Signed<ViewChange>>, Fail> {
    let mut changes = Vec::new(alloc);
    for part in text.split("; ") {
        if !part.starts_with("with ") {
            changes.push(signed_change(alloc, signers, part)?)?;
        }
    }
    Ok(changes)
}

/// The NewView of `VIEW; SIGNER CHANGE; ..; with PROPOSAL ..`.
pub fn new_view_of(alloc: Global, signers: &mut [Signer], text: &str) -> Result<NewView, Fail> {
    let (view, rest) = text.split_once("; ").ok_or("no ViewChanges")?;
    let view = View(view.parse()?);
    let changes = changes_in(alloc, signers, rest)?;
    let pre_prepares = match rest.split_once("with ") {
        Some((_, said)) => proposals(alloc, signers, (view.0 % 4) as u8, said)?,
        None => Vec::new(alloc),
    };
    Ok(NewView {
        view,
        changes: Sequence::from_vec(changes),
        pre_prepares: Sequence::from_vec(pre_prepares),
    })
}

/// The name of the fault of a ViewChange or a NewView, `-` for none.
pub fn fault_name(alloc: Global, config: &Arc<Config>, message: &Checked) -> Result<String, Fail>
    requires { message.now.config ≡ config.now.value }
{
    let result = match message.body() {
        Body::ViewChange(_) => valid(config, message),
        Body::NewView(_) => valid_new_view(config, message),
        _ => return Err(Fail::new("another kind of message")),
    };
    match result {
        Ok(()) => Ok(String::from_str(alloc, "-")?),
        Err(fault) => Ok(fault.to_string(alloc)?),
    }
}
