//! What ViewChanges give, and what is made and signed of it.

ghost use Rattle.std.specs.Prelude.{◌≡◌, IfOk};

use crate::signing::{checked, signed};
use crate::view_messages::{change, checkpoint, digest_of, fault_name, proposal, replicas};
use host_types::{Config, Digest, SeqNo, View};
use lms_tree::Signer;
use pbft_codec::{Body, NewView, PrePrepare, Prepare, Sequence};
use quorum_log::CheckedCertificate;
use seal::CheckedList;
use std::alloc::Global;
use std::process::Abort;
use std::sync::Arc;
use std::test::Fail;
use view_change::{Opening, make, new_view};

/// ViewChanges of replicas 0, 1 and 2; the floor, the top and the proposals that they give.
const OPENINGS: &str = "\
1 low 0; 1 low 8, proof 0:8:5 1:8:5 3:8:5; 1 low 0, 0/3/7 by 1:7 2:7 => 8 8\n\
1 low 0, 0/1/7 by 1:7 2:7, 0/4/8 by 1:8 3:8; 1 low 0; 1 low 0, 0/1/7 by 1:7 2:7 => 0 4 1/1/7 1/2/0 1/3/0 1/4/8\n\
 => 0 0\n\
";

/// The checked ViewChanges of replicas 0, 1 and 2, in a list.
fn list_of(
    alloc: Global,
    config: &Arc<Config>,
    signers: &mut [Signer],
    text: &str,
) -> Result<CheckedList, Fail> {
    let mut list = CheckedList::new(alloc, config)?;
    for (id, said) in text.split("; ").enumerate() {
        if !said.is_empty() {
            let body = Body::ViewChange(change(alloc, signers, said)?);
            list.push(checked(alloc, config, signers, (id % 4) as u8, body)?)?;
        }
    }
    Ok(list)
}

/// Floor, top and proposals of an opening, in words.
fn opening_text(alloc: Global, opening: &Opening) -> Result<String, Fail> {
    let (floor, top) = (opening.floor.0, opening.top.0);
    let mut text = format!(in alloc; "{floor} {top}")?;
    for entry in &opening.entries {
        let (view, number) = (entry.view.0, entry.number.0);
        let digest = digest_byte(&entry.digest);
        text.push_str(&format!(in alloc; " {view}/{number}/{digest}")?)?;
    }
    Ok(text)
}

/// The byte of a digest that has it throughout; 0 for the null digest.
fn digest_byte(digest: &Digest) -> u8 {
    if *digest == digest_of(0) {
        0
    } else {
        digest.0[0]
    }
}

/// Whether a line's ViewChanges give its opening.
fn is_given(
    alloc: Global,
    config: &Arc<Config>,
    signers: &mut [Signer],
    line: &str,
) -> Result<bool, Fail> {
    let (text, wanted) = line.split_once("=> ").ok_or("no opening")?;
    let list = list_of(alloc, config, signers, text.trim_end())?;
    let opening = new_view(alloc, View(1), &list)?;
    Ok(opening_text(alloc, &opening)?.as_str() == wanted)
}

#[test]
fn view_changes_give_floor_top_and_proposals(rt: HostRuntime) -> Result<(), Fail> {
    let (mut signers, config) = replicas(rt.alloc(), 12)?;
    for line in OPENINGS.lines() {
        assert!(rt;
            is_given(rt.alloc(), &config, &mut signers, line)?,
            "{line}"
        );
    }
    Ok(())
}

/// Three ViewChanges for view 1 with certificates at 1 and 3.
const ASKING: &str = "\
1 low 0, 0/1/7 by 1:7 2:7; \
1 low 0; \
1 low 0, 0/3/8 by 1:8 3:8";

/// The NewView of view 1 with these proposals, signed by replica 1.
fn signed_from(
    alloc: Global,
    signers: &mut [Signer],
    proposals: &[PrePrepare],
) -> Result<NewView, Fail> {
    let mut changes = Vec::new(alloc);
    for (id, said) in ASKING.split("; ").enumerate() {
        let body = change(alloc, signers, said)?;
        changes.push(signed(alloc, signers, (id % 4) as u8, body)?)?;
    }
    let mut pre_prepares = Vec::new(alloc);
    for said in proposals {
        pre_prepares.push(signed(alloc, signers, 1, *said)?)?;
    }
    Ok(NewView {
        view: View(1),
        changes: Sequence::from_vec(changes),
        pre_prepares: Sequence::from_vec(pre_prepares),
    })
}

/// The fault of the NewView that replica 1 signs from an opening.
fn fault_from(alloc: Global, config: &Arc<Config>, signers: &mut [Signer]) -> Result<String, Fail> {
    let list = list_of(alloc, config, signers, ASKING)?;
    let opening = new_view(alloc, View(1), &list)?;
    let entry = signed_from(alloc, signers, &opening.entries)?;
    let message = checked(alloc, config, signers, 1, Body::NewView(entry))?;
    fault_name(alloc, config, &message)
}

#[test]
fn what_is_signed_from_an_opening_is_valid(rt: HostRuntime) -> Result<(), Fail> {
    let (mut signers, config) = replicas(rt.alloc(), 13)?;
    assert!(rt; fault_from(rt.alloc(), &config, &mut signers)?.as_str() == "-");
    Ok(())
}

/// The checked Checkpoints of these replicas at 8.
fn proof_of_8(
    alloc: Global,
    config: &Arc<Config>,
    signers: &mut [Signer],
    ids: &[u8],
) -> Result<CheckedList, Fail> {
    let mut list = CheckedList::new(alloc, config)?;
    for id in ids {
        let body = Body::Checkpoint(checkpoint(8, 5));
        list.push(checked(alloc, config, signers, *id, body)?)?;
    }
    Ok(list)
}

/// The checked Prepares of these replicas in view 0 at a number.
fn prepares_at(
    alloc: Global,
    config: &Arc<Config>,
    signers: &mut [Signer],
    number: u64,
    ids: &[u8],
) -> Result<CheckedList, Fail> {
    let mut prepares = CheckedList::new(alloc, config)?;
    for id in ids {
        let body = Body::Prepare(Prepare {
            view: View(0),
            number: SeqNo(number),
            digest: digest_of(7),
        });
        prepares.push(checked(alloc, config, signers, *id, body)?)?;
    }
    Ok(prepares)
}

/// The checked certificate of view 0 at a number, with the Prepares of these replicas.
fn prepared_at(
    alloc: Global,
    config: &Arc<Config>,
    signers: &mut [Signer],
    number: u64,
    ids: &[u8],
) -> Result<CheckedCertificate, Fail> {
    let said = Body::PrePrepare(proposal(0, number, 7));
    Ok(CheckedCertificate {
        pre_prepare: checked(alloc, config, signers, 0, said)?,
        prepares: prepares_at(alloc, config, signers, number, ids)?,
    })
}

/// Certificates at 9 and 11.
fn two_certificates(
    alloc: Global,
    config: &Arc<Config>,
    signers: &mut [Signer],
) -> Result<Vec<CheckedCertificate>, Fail> {
    let mut certificates = Vec::new(alloc);
    certificates.push(prepared_at(alloc, config, signers, 9, &[1, 2])?)?;
    certificates.push(prepared_at(alloc, config, signers, 11, &[2, 3])?)?;
    Ok(certificates)
}

/// The body that is made of a proof of 8 and of these certificates.
fn made(alloc: Global, config: &Arc<Config>, signers: &mut [Signer]) -> Result<Body, Fail> {
    let proof = proof_of_8(alloc, config, signers, &[0, 1, 3])?;
    let certificates = two_certificates(alloc, config, signers)?;
    Ok(make(alloc, View(1), SeqNo(8), &proof, &certificates)?)
}

/// The fault of a body that replica 3 signs.
fn fault_of(
    alloc: Global,
    config: &Arc<Config>,
    signers: &mut [Signer],
    body: Body,
) -> Result<String, Fail> {
    let message = checked(alloc, config, signers, 3, body)?;
    fault_name(alloc, config, &message)
}

#[test]
fn what_is_made_is_valid(rt: HostRuntime) -> Result<(), Fail> {
    let (mut signers, config) = replicas(rt.alloc(), 14)?;
    let body = made(rt.alloc(), &config, &mut signers)?;
    assert!(rt; matches!(&body, Body::ViewChange(made) if made.certificates.as_slice().len() == 2));
    assert!(rt; fault_of(rt.alloc(), &config, &mut signers, body)?.as_str() == "-");
    Ok(())
}
