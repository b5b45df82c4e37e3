//! Messages that faulty replicas sign, whether they may or not.

ghost use Rattle.std.specs.Prelude.{◌≡◌, true, false, IfOk, IsErrOf, OnOk, position, option_map};
ghost use Rattle.lms_tree.specs.declared.fault.SignFault.{SignFault};
ghost use Rattle.lms_tree.specs.Keys.{after_signing, signature_of};
ghost use Rattle.pbft_codec.specs.declared.body.Body.TheVariants as bodies;
ghost use Rattle.pbft_codec.specs.Encoding.{encoding, signed_text};
ghost use Rattle.pbft_codec.specs.WellFormed.{BodyWellFormed};
ghost use Rattle.seal.specs.Opening.{sealed_message};
ghost use Rattle.world_queue.specs.Effects.{Forges};
ghost use Rattle.world_queue.specs.Parties.{bare_view_change, forged_message, has_no_leaf, is_forger, vote_body};

use host_types::{Bytes, Digest, ReplicaId, SeqNo, View};
use lms_tree::{SignFault, Signer};
use pbft_codec::{
    Body, Certificates, Checkpoint, CheckpointList, Commit, PrePrepare, Prepare, Role, Signed,
    ViewChange, encode, signed_bytes,
};
use script_text::{ForgedVote, Forgery, Number};
use seal::VoteKind;
use std::alloc::{AllocError, Global};

/// A faulty replica's signer.
#[derive(Drop)]
pub struct Forger {
    /// Which replica it is.
    pub id: ReplicaId,
    /// What it signs by.
    pub signer: Signer,
}

/// The bytes of the message that a forgery's forger signs, with this body; none where it has no leaf left,
/// or is no forger.
pub fn forge(
    alloc: Global,
    forgers: &mut Vec<Forger>,
    forgery: &Forgery,
    body: Body,
) -> Result<Option<Vec<u8>>, AllocError>
    requires { BodyWellFormed body }
    ensures { IfOk result (λ signed. Forges forgers.old.items forgery.now body forgers.new.items (option_map (λ bytes. bytes.items) signed)) }
{
    let Some(index) = index_of(forgers, forgery.from) else {
        return Ok(None);
    };
    match forgers[index].sign(alloc, forgery, body) {
        Ok(bytes) => Ok(Some(bytes)),
        Err(SignFault::Memory) => Err(AllocError),
        Err(SignFault::Exhausted) => Ok(None),
    }
}

fn index_of(forgers: &[Forger], id: ReplicaId) -> Option<usize>
    ensures { result ≡ position (is_forger id) forgers.now }
{
    forgers.iter().position(|forger| forger.id == id)
}

impl Forger {
    /// The bytes of a message with this body. Any view and number is signed, the primary's and a backup's
    /// votes alike. `Exhausted` comes where the signer has no leaf left.
    fn sign(&mut self, alloc: Global, forgery: &Forgery, body: Body) -> Result<Vec<u8>, SignFault>
        requires { BodyWellFormed body }
        ensures message { IfOk result (λ bytes. bytes.items ≡ encoding (forged_message self.old.signer forgery.now body)) }
        ensures signed { OnOk result (self.new ≡ record self.old { signer = after_signing self.old.signer }) }
        ensures can { OnOk result (has_no_leaf self.old.signer ≡ false) }
        ensures exhausted { IsErrOf result SignFault.Exhausted → (has_no_leaf self.old.signer ≡ true) × (self.new ≡ self.old) }
    {
        let mut message = Signed {
            role: Role::Replica,
            id: u32::from(forgery.from.0),
            body,
            sig: Bytes::from_vec(Vec::new(alloc)),
        };
        sign_and_encode(alloc, &mut self.signer, &mut message)
    }
}

/// Puts a signer's signature into a message. Its bytes.
fn sign_and_encode(
    alloc: Global,
    signer: &mut Signer,
    message: &mut Signed,
) -> Result<Vec<u8>, SignFault>
    requires { BodyWellFormed message.old.body }
    ensures message { IfOk result (λ bytes. bytes.items ≡ encoding (sealed_message signer.old message.old.role message.old.id message.old.body)) }
    ensures signed { OnOk result (signer.new ≡ after_signing signer.old) }
    ensures can { OnOk result (has_no_leaf signer.old ≡ false) }
    ensures exhausted { IsErrOf result SignFault.Exhausted → (has_no_leaf signer.old ≡ true) × (signer.new ≡ signer.old) }
{
    message.sig = signature(alloc, signer, message)?;
    match encode(alloc, message) {
        Ok(bytes) => Ok(bytes),
        Err(_) => Err(SignFault::Memory),
    }
}

/// The signature of a signer under a message, whatever stands there.
fn signature(alloc: Global, signer: &mut Signer, message: &Signed) -> Result<Bytes, SignFault>
    ensures signature { IfOk result (λ sig. sig ≡ signature_of signer.old (signed_text message.now)) }
    ensures signed { OnOk result (signer.new ≡ after_signing signer.old) }
    ensures can { OnOk result (has_no_leaf signer.old ≡ false) }
    ensures exhausted { IsErrOf result SignFault.Exhausted → (has_no_leaf signer.old ≡ true) × (signer.new ≡ signer.old) }
{
    if signer.leaves_left() == 0 {
        return Err(SignFault::Exhausted);
    }
    let Ok(text) = signed_bytes(alloc, message) else {
        return Err(SignFault::Memory);
    };
    Ok(Bytes::from_vec(signer.sign(&text)?))
}

/// The body of a forged vote for a digest.
pub fn vote_body(vote: &ForgedVote, digest: Digest) -> Body
    ensures formed { BodyWellFormed result }
    ensures value { result ≡ vote_body vote.now.kind vote.now digest.0 }
{
    let view = vote.view;
    let number = vote.number.get();
    match vote.kind {
        VoteKind::PrePrepare => Body::PrePrepare(PrePrepare {
            view,
            number,
            digest,
        }),
        VoteKind::Prepare => Body::Prepare(Prepare {
            view,
            number,
            digest,
        }),
        VoteKind::Commit => Body::Commit(Commit {
            view,
            number,
            digest,
        }),
    }
}

/// The body of a Checkpoint.
pub fn checkpoint_body(number: &Number, digest: Digest) -> Body
    ensures formed { BodyWellFormed result }
    ensures value { result ≡ bodies.Checkpoint (record { number = number.now; digest = digest }) }
{
    Body::Checkpoint(Checkpoint {
        number: number.get(),
        digest,
    })
}

/// The body of a ViewChange from number 0, which proves nothing.
pub fn view_change_body(alloc: Global, view: View) -> Body
    ensures formed { BodyWellFormed result }
    ensures value { result ≡ bodies.ViewChange (bare_view_change view) }
{
    Body::ViewChange(ViewChange {
        view,
        low: SeqNo(0),
        checkpoints: CheckpointList::from_vec(Vec::new(alloc)),
        certificates: Certificates::from_vec(Vec::new(alloc)),
    })
}
