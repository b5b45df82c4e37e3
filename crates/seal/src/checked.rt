//! Messages whose signatures were verified, as values.

ghost use Rattle.std.specs.Prelude.{◌≡◌, ◌↔◌, IsTrue, ◌≤◌, ◌<◌, ◌^◌, length, IfOk, IfSome, IsSome};
ghost use Rattle.std.specs.List.{AllByRecursion};
ghost use Rattle.pbft_codec.specs.Bodies.{BodyWellFormed};
ghost use Rattle.pbft_codec.specs.WellFormed.{Encodes};
ghost use Rattle.pbft_codec.specs.Encoding.{max_bytes, encoding};
ghost use Rattle.seal.specs.Opening.{CheckedMessage, IsChecked};
ghost use Rattle.seal.specs.Parts.{messages_in};
ghost use Rattle.seal.specs.Signers.{IsAuthentic};
ghost use Rattle.seal.specs.Votes.{vote_of, vote_in, IsVoteOf};

use crate::vote::{Vote, VoteKind};
use host_types::{Bytes, Config, ReplicaId};
use pbft_codec::{Body, CodecFault, Role, Signed, encode};
use std::alloc::{AllocError, Global};
use std::marker::Model;
use std::sync::Arc;

/// What a `Checked` is a handle of.
#[derive(Drop)]
struct Inner {
    config: Arc<Config>,
    message: Signed,
    bytes: Bytes,
}

/// A message of the grammar, within the limit of length, whose parts all have a signer that a
/// configuration lists, who may say what it says, and whose signature is valid. It is a handle: a copy
/// of it copies no bytes. Contracts see the configuration and the message.
#[derive(Drop)]
pub struct Checked {
    inner: Arc<Inner>,
}

impl Model for Checked {
    ghost use Rattle.std.specs.Prelude.{◌≡◌};
    ghost use Rattle.pbft_codec.specs.Encoding.{encoding};
    ghost use Rattle.seal.specs.Opening.{CheckedMessage, IsChecked};

    ghost Value = { CheckedMessage };

    ghost view = { λ c. record { config = c.inner.value.config.value; message = c.inner.value.message } };

    ghost invariant = { λ c. (c.inner.value.bytes ≡ encoding c.inner.value.message)
        × IsChecked (record { config = c.inner.value.config.value; message = c.inner.value.message }) };
}

impl Checked {
    pub(crate) fn new(
        alloc: Global,
        config: &Arc<Config>,
        message: Signed,
        bytes: Bytes,
    ) -> Result<Checked, AllocError>
        requires encoded { Encodes bytes message }
        requires authentic { AllByRecursion (IsAuthentic config.now.value) (messages_in message) }
        ensures { IfOk result (λ c. c ≡ record { config = config.now.value; message = message }) }
    {
        let config = Arc::try_clone(config)?;
        let inner = Inner {
            config,
            message,
            bytes,
        };
        match Arc::new(alloc, inner) {
            Ok(inner) => Ok(Checked { inner }),
            Err(_) => Err(AllocError),
        }
    }

    /// An authentic message of the grammar that keeps the limit of length.
    pub(crate) fn encoded(
        alloc: Global,
        config: &Arc<Config>,
        message: Signed,
    ) -> Result<Checked, AllocError>
        requires well_formed { BodyWellFormed message.body }
        requires within { length (encoding message) ≤ max_bytes }
        requires authentic { AllByRecursion (IsAuthentic config.now.value) (messages_in message) }
        ensures { IfOk result (λ c. c ≡ record { config = config.now.value; message = message }) }
    {
        match encode(alloc, &message) {
            Ok(bytes) => Checked::new(alloc, config, message, Bytes::from_vec(bytes)),
            Err(CodecFault::Memory) => Err(AllocError),
            Err(_) => unreachable!(),
        }
    }

    /// Who takes part.
    pub fn config(&self) -> &Arc<Config>
        ensures value { result.now.value ≡ self.now.config }
        ensures checked { IsChecked self.now }
    {
        let inner: &Inner = &self.inner;
        &inner.config
    }

    /// Whether the message was opened or sealed under a configuration equal to this one. It takes no memory.
    pub fn under(&self, config: &Config) -> bool
        ensures { IsTrue result ↔ (self.now.config ≡ config.now) }
    {
        self.config().is_same(config)
    }

    /// The signer of the whole message.
    pub fn signer(&self) -> (Role, u32)
        ensures value { result ≡ (self.now.message.role, self.now.message.id) }
        ensures checked { IsChecked self.now }
    {
        let inner: &Inner = &self.inner;
        (inner.message.role, inner.message.id)
    }

    /// What the message says.
    pub fn body(&self) -> &Body
        ensures value { result.now ≡ self.now.message.body }
        ensures checked { IsChecked self.now }
    {
        let inner: &Inner = &self.inner;
        &inner.message.body
    }

    /// The message's one encoding.
    pub fn bytes(&self) -> &[u8]
        ensures value { result.now ≡ encoding self.now.message }
        ensures checked { IsChecked self.now }
    {
        let inner: &Inner = &self.inner;
        inner.bytes.as_slice()
    }

    /// One more handle of the same message. No bytes are copied; it is refused only where the count of
    /// handles is full.
    pub fn copy(&self) -> Result<Checked, AllocError>
        ensures { IfOk result (λ c. c ≡ self.now) }
    {
        let inner = Arc::try_clone(&self.inner)?;
        Ok(Checked { inner })
    }

    /// The message, with its signature: a list of such messages can be nested in another body (`TryClone`).
    pub fn message(&self) -> &Signed
        ensures value { result.now ≡ self.now.message }
        ensures checked { IsChecked self.now }
    {
        let inner: &Inner = &self.inner;
        &inner.message
    }

    /// The message as a vote, or none where it is none. The primary of its view signed a `PrePrepare`,
    /// another replica a `Prepare`. It takes no memory.
    pub fn vote(&self) -> Option<Vote>
        ensures value { result ≡ vote_of self.now.message }
        ensures proper { IfSome result (λ v. IsVoteOf self.now v) }
    {
        let _ = self.config().f();
        vote_in(self.body(), self.signer().1)
    }
}

/// What a body says as a vote of this replica.
fn vote_in(body: &Body, signer: u32) -> Option<Vote>
    requires { IsSome (vote_in signer body.now) → signer < 2 ^ 8 }
    ensures { result ≡ vote_in signer body.now }
{
    let (kind, view, number, digest) = match body {
        Body::PrePrepare(said) => (VoteKind::PrePrepare, said.view, said.number, said.digest),
        Body::Prepare(said) => (VoteKind::Prepare, said.view, said.number, said.digest),
        Body::Commit(said) => (VoteKind::Commit, said.view, said.number, said.digest),
        _ => return None,
    };
    Some(Vote {
        kind,
        view,
        number,
        digest,
        signer: ReplicaId(signer as u8),
    })
}
