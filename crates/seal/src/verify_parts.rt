//! Verifies the parts of a message: their signers, who may sign what, and their signatures.

ghost use Rattle.std.specs.Prelude.{◌≡◌, ◌++◌, ◌⊎◌, IsTrue, Some, None, IfOk, MatchResult};
ghost use Rattle.std.specs.Option.{option_copied};
ghost use Rattle.seal.specs.declared.fault.SealFault.TheVariants.{Memory};
ghost use Rattle.pbft_codec.specs.declared.body.Body.{Body};
ghost use Rattle.pbft_codec.specs.declared.signed.Signed.{Signed};
ghost use Rattle.pbft_codec.specs.Bodies.{sender_of};
ghost use Rattle.pbft_codec.specs.Encoding.{encoding, signed_text};
ghost use Rattle.pbft_codec.specs.Snapshots.{message_in};
ghost use Rattle.seal.specs.Claims.{IsClaimOf, MayHaveSigned};
ghost use Rattle.seal.specs.Parts.{messages_in};
ghost use Rattle.seal.specs.Signers.{key_of, may_sign, client_may_send, replica_may_send, own_fault, first_fault};

use crate::fault::SealFault;
use crate::nested_messages::descendants;
use crate::signature::{check_signature, copy_checked};
use host_types::{ClientId, Config, PublicKey, ReplicaId};
use pbft_codec::{Body, Role, Sender, Signed, SignedSnapshot, signed_bytes, signed_parts};
use std::alloc::Global;

/// The listed key of a replica or a client.
pub fn listed_key(config: &Config, role: Role, id: u32) -> Option<&PublicKey>
    ensures { option_copied result ≡ key_of config.now role id }
{
    match role {
        Role::Replica => {
            if id >= u32::from(config.replica_count()) {
                return None;
            }
            config.replica_key(ReplicaId(id as u8))
        }
        Role::Client => match config.client(ClientId(id)) {
            Some(entry) => Some(&entry.key),
            None => None,
        },
    }
}

/// Whether a client is such a sender.
fn client_may_send(sender: Sender) -> bool
    ensures { result ≡ client_may_send sender }
{
    matches!(sender, Sender::Client)
}

/// Whether the replica with this id is such a sender.
fn replica_may_send(config: &Config, id: u32, sender: Sender) -> bool
    ensures { result ≡ replica_may_send config.now id sender }
{
    match sender {
        Sender::Client => false,
        Sender::Replica => true,
        Sender::Primary(view) => u32::from(config.primary(view).0) == id,
        Sender::Backup(view) => u32::from(config.primary(view).0) != id,
    }
}

/// Whether a body of such a sender may come from this signer.
fn may_send(config: &Config, role: Role, id: u32, sender: Sender) -> bool
    ensures { (body : Body) → sender_of body ≡ sender → result ≡ may_sign config.now role id body }
{
    match role {
        Role::Replica => replica_may_send(config, id, sender),
        Role::Client => client_may_send(sender),
    }
}

/// Whether a body may come from this signer.
pub fn may_sign(config: &Config, role: Role, id: u32, body: &Body) -> bool
    ensures { result ≡ may_sign config.now role id body.now }
{
    may_send(config, role, id, body.sender())
}

/// What is verified of a message itself, whatever is nested in it.
#[derive(Clone, Copy)]
struct Claim<'a> {
    role: Role,
    id: u32,
    /// Who may send its body.
    sender: Sender,
    sig: &'a [u8],
}

/// The key of the one who claims to have signed a message, if it is listed and may send such a body.
fn signers_key<'a>(config: &'a Config, claim: &Claim<'_>) -> Result<&'a PublicKey, SealFault>
    ensures { (m : Signed Body) → IsClaimOf claim.now m → MatchResult result
        (λ key. MayHaveSigned config.now m key.now) (λ fault. own_fault config.now m ≡ Some fault) }
{
    let Some(key) = listed_key(config, claim.role, claim.id) else {
        return Err(SealFault::UnknownSigner);
    };
    if !may_send(config, claim.role, claim.id, claim.sender) {
        return Err(SealFault::WrongRole);
    }
    Ok(key)
}

/// Verifies a message itself, of which no more is at hand, over the two parts of what is signed.
fn verify_claim(
    config: &Config,
    claim: &Claim<'_>,
    head: &[u8],
    tail: &[u8],
) -> Result<(), SealFault>
    ensures { (m : Signed Body) → IsClaimOf claim.now m → head.now ++ tail.now ≡ signed_text m →
        MatchResult result (λ _. own_fault config.now m ≡ None) (λ fault. own_fault config.now m ≡ Some fault) }
{
    let key = signers_key(config, claim)?;
    match check_signature(key, head, tail, claim.sig) {
        Ok(()) => Ok(()),
        Err(_) => Err(SealFault::BadSignature),
    }
}

/// Verifies a message itself, whatever is nested in it, over the two parts of what is signed.
fn verify_part(config: &Config, message: &Signed, head: &[u8], tail: &[u8]) -> Result<(), SealFault>
    requires { head.now ++ tail.now ≡ signed_text message.now }
    ensures { MatchResult result (λ _. own_fault config.now message.now ≡ None)
        (λ fault. own_fault config.now message.now ≡ Some fault) }
{
    let claim = Claim {
        role: message.role,
        id: message.id,
        sender: message.body.sender(),
        sig: message.sig.as_slice(),
    };
    verify_claim(config, &claim, head, tail)
}

/// Verifies a nested message itself, whose bytes are not at hand.
fn verify_nested(alloc: Global, config: &Config, message: &Signed) -> Result<(), SealFault>
    ensures { MatchResult result (λ _. own_fault config.now message.now ≡ None)
        (λ fault. (fault ≡ Memory) ⊎ (own_fault config.now message.now ≡ Some fault)) }
{
    let text = signed_bytes(alloc, message)?;
    verify_part(config, message, &[], &text)
}

/// Verifies nested messages one after the other, up to the first that has a fault.
fn verify_all(alloc: Global, config: &Config, messages: &[Signed]) -> Result<(), SealFault>
    ensures { MatchResult result (λ _. first_fault config.now messages.now ≡ None)
        (λ fault. (fault ≡ Memory) ⊎ (first_fault config.now messages.now ≡ Some fault)) }
{
    for message in messages {
        verify_nested(alloc, config, message)?;
    }
    Ok(())
}

/// Verifies a message over its bytes, then what is nested in it.
pub fn verify_message(
    alloc: Global,
    config: &Config,
    message: &Signed,
    bytes: &[u8],
) -> Result<(), SealFault>
    requires { bytes.now ≡ encoding message.now }
    ensures { MatchResult result (λ _. first_fault config.now (messages_in message.now) ≡ None)
        (λ fault. (fault ≡ Memory) ⊎ (first_fault config.now (messages_in message.now) ≡ Some fault)) }
{
    let (head, tail) = signed_parts(message, bytes);
    verify_part(config, message, head, tail)?;
    let inside = descendants(alloc, &message.body)?;
    verify_all(alloc, config, &inside)
}

/// Verifies a Snapshot over its bytes, and copies them meanwhile. Nothing is nested in it.
pub fn copy_verified(
    alloc: Global,
    config: &Config,
    snapshot: &SignedSnapshot<'_>,
    bytes: &[u8],
) -> Result<Vec<u8>, SealFault>
    requires { bytes.now ≡ encoding (message_in snapshot.now) }
    ensures copied { IfOk result (λ copy. copy.items ≡ bytes.now) }
    ensures verdict { MatchResult result (λ _. first_fault config.now (messages_in (message_in snapshot.now)) ≡ None)
        (λ fault. (fault ≡ Memory) ⊎ (first_fault config.now (messages_in (message_in snapshot.now)) ≡ Some fault)) }
{
    let (head, tail) = snapshot.signed_parts(bytes);
    let claim = Claim {
        role: snapshot.role,
        id: snapshot.id,
        sender: snapshot.sender(),
        sig: snapshot.sig,
    };
    let key = signers_key(config, &claim)?;
    copy_checked(alloc, key, head, tail, snapshot.sig, bytes)
}
