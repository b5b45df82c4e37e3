//! Messages that are sealed, opened and refused.

use crate::codec::layouts::kind;
use host_types::{
    Bytes, ClientEntry, ClientId, Config, Digest, PublicKey, ReplicaId, SeqNo, TenantId, View,
};
use lms_tree::{Height, SignFault, Signer};
use pbft_codec::{Body, Prepare, RequestBody, Role, Signed, signed_bytes};
use seal::{Checked, nested, open, parts, request_digest, seal};
use sha2::{Digest as _, Sha256};
use std::alloc::{AllocError, Global};
use std::process::Abort;
use std::sync::Arc;
use std::test::Fail;

/// The body of a Request at time 1 of one operation byte.
const REQUEST: [u8; 14] = [1, 0, 0, 0, 0, 0, 0, 0, 1, 0, 0, 0, 1, 9];

/// A signer of height 5. The seeds are parameters, so that a proof takes them as they come and computes nothing
/// of them.
fn signer(alloc: Global, identifier: [u8; 16], seed: [u8; 32]) -> Result<Signer, AllocError> {
    Signer::from_seed(alloc, Height::H5, identifier, seed)
}

/// Four replicas, of which one may be faulty, and the client 100.
fn config(alloc: Global, keys: &[PublicKey], client: PublicKey) -> Result<Arc<Config>, Fail> {
    let mut clients = Vec::new(alloc);
    clients.push(ClientEntry {
        id: ClientId(100),
        tenant: TenantId(1),
        key: client,
    })?;
    let keys = Vec::from_slice(alloc, keys)?;
    Ok(Arc::new(alloc, Config::new(1, 8, keys, clients)?)?)
}

fn put_length_prefixed(out: &mut Vec<u8>, bytes: &[u8]) -> Result<(), Fail> {
    let length = u32::try_from(bytes.len())?;
    out.extend_from_slice(&length.to_be_bytes())?;
    out.extend_from_slice(bytes)?;
    Ok(())
}

/// What is signed of a message.
fn covered(alloc: Global, role: u8, id: u32, body: &[u8]) -> Result<Vec<u8>, Fail> {
    let mut text = Vec::new(alloc);
    text.push(role)?;
    text.extend_from_slice(&id.to_be_bytes())?;
    text.extend_from_slice(body)?;
    Ok(text)
}

/// A message of this body, put together by hand.
fn message(
    alloc: Global,
    signer: &mut Signer,
    role: u8,
    id: u32,
    body: &[u8],
) -> Result<Vec<u8>, Fail> {
    let text = covered(alloc, role, id, body)?;
    message_of(alloc, &text, &signer.sign(&text)?)
}

/// The message of which this is signed, with this signature.
pub(crate) fn message_of(alloc: Global, text: &[u8], signature: &[u8]) -> Result<Vec<u8>, Fail> {
    let (sender, body) = text.split_at(text.len().min(5));
    let mut out = Vec::from_slice(alloc, sender)?;
    put_length_prefixed(&mut out, body)?;
    put_length_prefixed(&mut out, signature)?;
    Ok(out)
}

/// The body of a PrePrepare (2), a Prepare (3) or a Commit (4) of number 1.
fn vote(alloc: Global, kind: u8, view: u32) -> Result<Vec<u8>, Fail> {
    let mut body = Vec::new(alloc);
    body.push(kind)?;
    body.extend_from_slice(&view.to_be_bytes())?;
    body.extend_from_slice(&[0, 0, 0, 0, 0, 0, 0, 1])?;
    body.extend_from_slice(&[7; 32])?;
    Ok(body)
}

/// Changes the last byte, or puts one more behind it.
fn damage(bytes: &mut Vec<u8>, how: &str) -> Result<(), AllocError> {
    match (how.as_bytes(), bytes.last_mut()) {
        (b"changed", Some(last)) => {
            *last = last.wrapping_add(1);
            Ok(())
        }
        (b"longer", _) => Ok(bytes.push(0)?),
        _ => Ok(()),
    }
}

/// The words of a text up to the first blank, and behind it.
fn halves(line: &str) -> (&str, &str) {
    line.split_once(" ").unwrap_or((line, ""))
}

/// The signers of replicas 0, 1 and 2.
#[derive(Drop)]
struct Group {
    alloc: Global,
    signers: Vec<Signer>,
    config: Arc<Config>,
}

impl Group {
    fn new(alloc: Global) -> Result<Group, Fail> {
        let mut signers = Vec::new(alloc);
        let mut keys = [PublicKey::Lms([0; 56]); 4];
        for index in 0..3u8 {
            let signer = signer(alloc, [index; 16], [5; 32])?;
            keys[usize::from(index)] = signer.public_key();
            signers.push(signer)?;
        }
        let config = config(alloc, &keys, PublicKey::Lms([0; 56]))?;
        Ok(Group {
            alloc,
            signers,
            config,
        })
    }

    /// The message of a replica's id, signed by one of the signers.
    fn message(&mut self, id: u32, signer: usize, body: &[u8]) -> Result<Vec<u8>, Fail> {
        let signer = self.signers.get_mut(signer).ok_or("no such signer")?;
        message(self.alloc, signer, 1, id, body)
    }

    /// A vote of view 0 that a replica signs: a PrePrepare of the primary, a Prepare of another one.
    fn vote(&mut self, id: u32, signer: usize) -> Result<Vec<u8>, Fail> {
        let kind = if id == 0 { 2 } else { 3 };
        let body = vote(self.alloc, kind, 0)?;
        self.message(id, signer, &body)
    }

    /// The body of a ViewChange for view 1 with no Checkpoints and one certificate: a PrePrepare, damaged so, and
    /// the Prepares of replica 1 and of this other one, which signer 2 signs.
    fn change(&mut self, how: &str, other: u32) -> Result<Vec<u8>, Fail> {
        let mut body = [7, 0, 0, 0, 1].to_vec(self.alloc)?;
        body.extend_from_slice(&[0; 12])?;
        body.extend_from_slice(&[0, 0, 0, 1])?;
        let mut proposal = self.vote(0, 0)?;
        damage(&mut proposal, how)?;
        body.extend_from_slice(&proposal)?;
        body.extend_from_slice(&[0, 0, 0, 2])?;
        body.extend_from_slice(&self.vote(1, 1)?)?;
        body.extend_from_slice(&self.vote(other, 2)?)?;
        Ok(body)
    }

    /// What the NewView for view 1 holds: the ViewChanges of replicas 1 and 2, and a PrePrepare of replica 1.
    fn held(&mut self) -> Result<Vec<Vec<u8>>, Fail> {
        let mut held = Vec::new(self.alloc);
        let change = self.change("-", 2)?;
        held.push(self.message(1, 1, &change)?)?;
        held.push(self.message(2, 2, &change)?)?;
        let proposal = vote(self.alloc, 2, 1)?;
        held.push(self.message(1, 1, &proposal)?)?;
        Ok(held)
    }

    /// The body of the text's name: `prepare`, `request`, `change HOW OTHER` or `new-view`.
    fn body(&mut self, text: &str) -> Result<Vec<u8>, Fail> {
        let (name, rest) = halves(text);
        match name.as_bytes() {
            b"prepare" => vote(self.alloc, 3, 0),
            b"request" => Ok(REQUEST.to_vec(self.alloc)?),
            b"change" => {
                let (how, other) = halves(rest);
                self.change(how, other.parse()?)
            }
            b"new-view" => {
                let held = self.held()?;
                new_view(self.alloc, &held)
            }
            _ => Err(Fail::new("no such body")),
        }
    }

    /// The name of the fault of a message, or `-`: its id, its signer, how it is damaged, and its body.
    fn fault(&mut self, text: &str) -> Result<String, Fail> {
        let (id, rest) = halves(text);
        let (signer, rest) = halves(rest);
        let (how, body) = halves(rest);
        let body = self.body(body)?;
        let mut bytes = self.message(id.parse()?, signer.parse()?, &body)?;
        damage(&mut bytes, how)?;
        match open(self.alloc, &self.config, &bytes).err() {
            Some(fault) => Ok(fault.to_string(self.alloc)?),
            None => Ok(String::from_str(self.alloc, "-")?),
        }
    }
}

/// The body of the NewView for view 1 of two ViewChanges and a PrePrepare.
fn new_view(alloc: Global, held: &[Vec<u8>]) -> Result<Vec<u8>, Fail> {
    let [own, other, proposed] = held else {
        return Err(Fail::new("not three messages"));
    };
    let mut body = [8, 0, 0, 0, 1].to_vec(alloc)?;
    body.extend_from_slice(&[0, 0, 0, 2])?;
    body.extend_from_slice(own)?;
    body.extend_from_slice(other)?;
    body.extend_from_slice(&[0, 0, 0, 1])?;
    body.extend_from_slice(proposed)?;
    Ok(body)
}

/// The id that a message names, who signs it, how it is damaged behind its signature, and its body; and the fault.
/// A certificate has a PrePrepare that is damaged so, and Prepares of replica 1 and of the one that is named.
const MESSAGES: &str = "\
1 1 - prepare => -\n\
1 1 changed prepare => BadSignature\n\
1 1 longer prepare => Trailing\n\
0 0 - prepare => WrongRole\n\
0 0 changed prepare => WrongRole\n\
0 0 - request => WrongRole\n\
4 0 - prepare => UnknownSigner\n\
257 0 - prepare => UnknownSigner\n\
4 0 - request => UnknownSigner\n\
257 0 - request => UnknownSigner\n\
1 1 - change - 2 => -\n\
1 1 - change - 4 => UnknownSigner\n\
1 1 - change changed 4 => BadSignature\n\
1 1 changed change - 4 => BadSignature\n\
1 1 - new-view => -\n\
2 2 - new-view => WrongRole\n\
";

#[test]
fn the_first_part_with_a_fault_is_reported(rt: HostRuntime) -> Result<(), Fail> {
    let mut group = Group::new(rt.alloc())?;
    for line in MESSAGES.lines() {
        let (text, wanted) = line.split_once(" => ").ok_or("no fault")?;
        assert!(rt; group.fault(text)?.as_str() == wanted, "{line}");
    }
    Ok(())
}

/// Signers and kinds of the parts of a NewView, each after the one it is nested in.
const PARTS: &str = "1:8 1:7 0:2 1:3 2:3 2:7 0:2 1:3 2:3 1:2 ";

/// Signers and kinds of a message's parts.
fn parts_of(alloc: Global, message: &Checked) -> Result<String, Fail> {
    let mut text = String::new(alloc);
    for part in &parts(alloc, message)? {
        let (id, kind) = (part.id, kind(&part.body));
        text.push_str(&format!(in alloc; "{id}:{kind} ")?)?;
    }
    Ok(text)
}

/// Whether the messages inside are those that are held, of which the second one is of replica 2.
fn holds(held: &[Vec<u8>], inside: &[Checked]) -> bool {
    held.len() == inside.len()
        && held
            .iter()
            .zip(inside)
            .all(|(bytes, message)| message.bytes() == bytes.as_slice())
        && matches!(inside.get(1), Some(other) if other.signer() == (Role::Replica, 2))
}

#[test]
fn the_parts_of_a_new_view(rt: HostRuntime) -> Result<(), Fail> {
    let mut group = Group::new(rt.alloc())?;
    let held = group.held()?;
    let body = new_view(rt.alloc(), &held)?;
    let bytes = group.message(1, 1, &body)?;
    let opened = Box::new(rt.alloc(), open(rt.alloc(), &group.config, &bytes)?)?;
    assert!(rt; parts_of(rt.alloc(), &opened)?.as_str() == PARTS);
    assert!(rt; holds(&held, &nested(rt.alloc(), &opened)?));
    Ok(())
}

/// Seals a request of one byte for client 100, after what the caller of `seal` owes was tested.
fn sealed_request(
    rt: &impl Abort,
    alloc: Global,
    config: &Arc<Config>,
    signer: &mut Signer,
) -> Result<Result<Checked, SignFault>, Fail> {
    let Some(entry) = config.client(ClientId(100)) else {
        return Err("no entry")?;
    };
    assert!(rt; entry.key == signer.public_key());
    let unsigned = Signed {
        role: Role::Client,
        id: 100,
        body: Body::Request(RequestBody {
            time: 1,
            op: Bytes::from_vec(Vec::from_slice(alloc, &[9])?),
        }),
        sig: Bytes::from_vec(Vec::new(alloc)),
    };
    assert!(rt; signed_bytes(alloc, &unsigned)?.len() < 8_000_000);
    Ok(seal(alloc, config, signer, Role::Client, 100, unsigned.body))
}

/// Whether a sealed request of client 100 shows what it was made of.
fn is_sealed_as(sealed: &Checked, bytes: &[u8]) -> bool {
    sealed.bytes() == bytes
        && sealed.signer() == (Role::Client, 100)
        && kind(sealed.body()) == 1
        && sealed.config().f() == 1
}

/// Whether it has no part but itself, is opened, and has the digest of what is signed.
fn is_opened(alloc: Global, sealed: &Checked) -> Result<bool, Fail> {
    let digest = Sha256::digest(&covered(alloc, 2, 100, &REQUEST)?);
    Ok(
        parts_of(alloc, sealed)?.as_str() == "100:1 "
            && nested(alloc, sealed)?.is_empty()
            && open(alloc, sealed.config(), sealed.bytes()).is_ok()
            && sealed.copy()?.bytes() == sealed.bytes()
            && request_digest(sealed).0 == digest,
    )
}

/// The signer of client 100.
fn client(alloc: Global) -> Result<Box<Signer>, AllocError> {
    Ok(Box::new(alloc, signer(alloc, [100; 16], [6; 32])?)?)
}

/// Whether the first request is as it should be, and after 32 none is sealed.
fn seals_32(
    rt: &impl Abort,
    alloc: Global,
    config: &Arc<Config>,
    signer: &mut Signer,
    bytes: &[u8],
) -> Result<bool, Fail> {
    let first = sealed_request(rt, alloc, config, signer)??;
    let is_right = is_sealed_as(&first, bytes) && is_opened(alloc, &first)?;
    Ok(is_right && is_exhausted_after(rt, alloc, config, signer, 31)?)
}

/// Whether the signer seals so many more, and then none.
fn is_exhausted_after(
    rt: &impl Abort,
    alloc: Global,
    config: &Arc<Config>,
    signer: &mut Signer,
    more: u8,
) -> Result<bool, Fail> {
    for _ in 0..more {
        let _next = sealed_request(rt, alloc, config, signer)??;
    }
    let none = sealed_request(rt, alloc, config, signer)?;
    Ok(none.err() == Some(SignFault::Exhausted) && signer.next_leaf() == 32)
}

/// The first request's bytes, as a twin of the signer makes them.
fn first_request(alloc: Global) -> Result<Vec<u8>, Fail> {
    let mut twin = client(alloc)?;
    message(alloc, &mut twin, 2, 100, &REQUEST)
}

#[test]
fn a_signer_seals_until_it_is_exhausted(rt: HostRuntime) -> Result<(), Fail> {
    let alloc = rt.alloc();
    let bytes = first_request(alloc)?;
    let mut signer = client(alloc)?;
    let config = config(alloc, &[PublicKey::Lms([0; 56]); 4], signer.public_key())?;
    assert!(rt; seals_32(&rt, alloc, &config, &mut signer, &bytes)?);
    Ok(())
}

/// Seals a Prepare of replica 1, after what the caller of `seal` owes was tested.
fn sealed_prepare(
    rt: &impl Abort,
    alloc: Global,
    config: &Arc<Config>,
    signer: &mut Signer,
) -> Result<Checked, Fail> {
    let Some(key) = config.replica_key(ReplicaId(1)) else {
        return Err("no key")?;
    };
    assert!(rt; *key == signer.public_key());
    assert!(rt; config.primary(View(0)).0 != 1);
    let unsigned = Signed {
        role: Role::Replica,
        id: 1,
        body: Body::Prepare(Prepare {
            view: View(0),
            number: SeqNo(1),
            digest: Digest([7; 32]),
        }),
        sig: Bytes::from_vec(Vec::new(alloc)),
    };
    assert!(rt; signed_bytes(alloc, &unsigned)?.len() < 8_000_000);
    Ok(seal(alloc, config, signer, Role::Replica, 1, unsigned.body)?)
}

#[test]
fn a_sealed_prepare_has_one_part(rt: HostRuntime) -> Result<(), Fail> {
    let alloc = rt.alloc();
    let mut signer = Box::new(alloc, signer(alloc, [1; 16], [5; 32])?)?;
    let config = config(alloc, &[signer.public_key(); 4], PublicKey::Lms([0; 56]))?;
    let sealed = Box::new(alloc, sealed_prepare(&rt, alloc, &config, &mut signer)?)?;
    assert!(rt; parts_of(alloc, &sealed)?.as_str() == "1:3 ");
    Ok(())
}
