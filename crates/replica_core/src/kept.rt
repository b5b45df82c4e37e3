//! What a replica keeps (Castro and Liskov 1999, section 4), and what it reads off it.

ghost use Rattle.std.specs.Prelude.{◌≡◌, ◌+◌, ◌*◌, ◌==◌, ◌<◌, ◌≤◌, ◌^◌, [], Some, None, true, IfOk, IsSomeAnd};
ghost use Rattle.std.specs.Option.{option_map};
ghost use Rattle.host_types.specs.Configuration.{replicas_for};
ghost use Rattle.lms_tree.specs.Keys.{IsKeyOf};
ghost use Rattle.pbft_codec.specs.declared.signed.Role.TheVariants as roles;
ghost use Rattle.pbft_model.specs.Core.{floor_in, is_committed, is_known, if_passes, next_number, pre_prepare_at, prepared_at, start_of};
ghost use Rattle.pbft_model.specs.Certificates.{of_pre_prepare};
ghost use Rattle.pbft_model.specs.Acts.{is_awaited};
ghost use Rattle.pbft_model.specs.Duties.{leads};
ghost use Rattle.pbft_model.specs.Setup.{null_digest, span, setup_of};
ghost use Rattle.seal.specs.Signers.{key_of};
ghost use Rattle.sha2.specs.Sha256.{sha256};

use crate::step::Step;
use checkpoints::Checkpoints;
use host_types::{Config, Digest, ReplicaId, SeqNo, View};
use lms_tree::Signer;
use replica_stores::{Certificates, Changes, QuorumLog, Requests, Sent};
use seal::Checked;
use sha2::Sha256;
use std::alloc::{AllocError, Global};
use std::marker::Model;
use std::sync::Arc;
use tenant_lanes::State;

/// What a replica keeps.
#[derive(Drop)]
pub(crate) struct Core {
    pub alloc: Global,
    pub config: Arc<Config>,
    pub id: ReplicaId,
    pub signer: Signer,
    /// The view, its floor if it is entered, and the recorded votes between the marks.
    pub log: QuorumLog,
    /// The NewView that the active view was entered by: the floor follows from it.
    pub basis: Option<Checked>,
    /// The recorded Checkpoints, the proof of the low mark, and the snapshots.
    pub checkpoints: Checkpoints,
    /// The state after the last executed number.
    pub service: State,
    pub requests: Requests,
    pub changes: Changes,
    pub kept: Certificates,
    pub sent: Sent,
    /// What passes.
    pub step: Step,
}

impl Model for Core {
    ghost use Rattle.std.specs.Coded.{codes};
    ghost use Rattle.service_model.specs.Equality.{service_code};
    ghost use Rattle.replica_core.specs.Replicas.{AreOne, KeptReplica, kept_in};

    ghost Value = { KeptReplica };

    ghost coded = { Prim.hlevel (codes, service_code) };

    ghost view = { λ c. kept_in c.config.value c.id.0 (record { log = c.log; basis = c.basis; table = c.checkpoints; service = c.service; requests = c.requests; changes = c.changes; kept = c.kept; sent = c.sent; step = c.step; signer = c.signer }) };

    ghost invariant = { λ c. AreOne c.config.value c.id.0 (record { log = c.log; basis = c.basis; table = c.checkpoints; service = c.service; requests = c.requests; changes = c.changes; kept = c.kept; sent = c.sent; step = c.step; signer = c.signer }) };
}

impl Core {
    /// A replica before its first message: active in view 0, with the state that a service begins with.
    pub(crate) fn new(
        alloc: Global,
        config: &Arc<Config>,
        id: ReplicaId,
        signer: Signer,
    ) -> Result<Core, AllocError>
        requires replica { id.0 < replicas_for config.now.value.f }
        requires key { IsSomeAnd (key_of config.now.value roles.Replica id.0) (λ key. IsKeyOf key signer) }
        ensures { IfOk result (λ c. c ≡ record { config = config.now.value; me = id.0; core = start_of (setup_of config.now.value) signer; outputs = []; done = []; leaves = 0 }) }
    {
        let _ = config.f();
        Ok(Core {
            alloc,
            config: Arc::try_clone(config)?,
            id,
            signer,
            log: QuorumLog::new(alloc, config)?,
            basis: None,
            checkpoints: Checkpoints::new(alloc, config)?,
            service: State::genesis(alloc, Arc::try_clone(config)?)?,
            requests: Requests::new(alloc, config)?,
            changes: Changes::new(alloc, config)?,
            kept: Certificates::new(alloc, config)?,
            sent: Sent::new(alloc),
            step: Step::none(alloc),
        })
    }

    pub(crate) fn view(&self) -> View
        ensures { result.0 ≡ self.now.core.view }
    {
        self.log.view()
    }

    /// Active in the view, or changing to it.
    pub(crate) fn is_active(&self) -> bool
        ensures { result ≡ self.now.core.active }
    {
        self.log.floor().is_some()
    }

    /// The low water mark.
    pub(crate) fn low(&self) -> SeqNo
        ensures { result.0 ≡ self.now.core.low }
    {
        self.log.low()
    }

    /// How many numbers lie between the marks.
    pub(crate) fn span(&self) -> u64
        ensures { result ≡ span self.now.config }
    {
        2 * u64::from(self.config.k())
    }

    /// The last executed number.
    pub(crate) fn executed(&self) -> SeqNo
        ensures { result.0 ≡ self.now.core.executed }
    {
        self.service.number()
    }

    /// Whether this replica is the primary of its view.
    pub(crate) fn leads(&self) -> bool
        ensures { result ≡ leads (setup_of self.now.config) self.now.me self.now.core }
    {
        self.config.primary(self.view()) == self.id
    }

    /// The floor of the active view: the greatest low mark of the ViewChanges that it was entered by.
    pub(crate) fn floor(&self) -> SeqNo
        ensures { result.0 ≡ floor_in self.now.core }
    {
        self.log.floor().unwrap_or(SeqNo(0))
    }

    /// Whether the digest is that of a held request, or of the null request.
    pub(crate) fn is_known(&self, digest: &Digest) -> bool
        ensures { result ≡ is_known (setup_of self.now.config) self.now.core digest.now.0 }
    {
        self.requests.find(digest).is_some() || *digest == null_digest()
    }

    /// The digest with which a number is prepared in this view: it is certified, and the request is held
    /// or null (section 4.2).
    pub(crate) fn prepared_at(&self, number: SeqNo) -> Option<Digest>
        ensures { result ≡ option_map (λ m. m.body.digest) (prepared_at (setup_of self.now.config) self.now.core number.0) }
    {
        let digest = self.log.pre_prepare(self.view(), number)?;
        if !self.log.prepared(self.view(), number) {
            return None;
        }
        if !self.is_known(&digest) {
            return None;
        }
        Some(digest)
    }

    /// The digest with which a number is committed in this view: it is prepared, and a quorum has
    /// committed (section 4.2).
    pub(crate) fn committed_at(&self, number: SeqNo) -> Option<Digest>
        ensures { result ≡ option_map (λ m. m.body.digest) (if_passes (λ m. is_committed (setup_of self.now.config) self.now.core (of_pre_prepare m.body)) (pre_prepare_at (setup_of self.now.config) self.now.core self.now.core.view number.0)) }
    {
        let digest = self.prepared_at(number)?;
        if self.log.committed(self.view(), number) {
            Some(digest)
        } else {
            None
        }
    }

    /// The next number: one above the greatest of the low mark, the floor, and the numbers of PrePrepares
    /// of this view; the list of an own NewView counts whole.
    pub(crate) fn next_number(&self) -> u64
        requires active { self.now.core.active ≡ true }
        ensures value { result ≡ next_number self.now.core }
        ensures limit { result ≤ 2 ^ 48 }
    {
        let recorded = self.log.greatest_in(self.view()).unwrap_or(SeqNo(0));
        let last = self
            .low()
            .max(self.floor())
            .max(recorded)
            .max(self.sent.greatest());
        last.0 + 1
    }

    /// Whether a ViewChange or a NewView for this view is awaited: the view is above the replica's, or the
    /// one that it changes to.
    pub(crate) fn is_awaited(&self, view: View) -> bool
        ensures { result ≡ is_awaited self.now.core view.0 }
    {
        view > self.view() || (view == self.view() && !self.is_active())
    }
}

/// The digest of the null request: that of no bytes.
pub(crate) fn null_digest() -> Digest
    ensures { result.0 ≡ sha256 [] }
{
    let nothing: &[u8] = &[];
    digest_of(nothing)
}

/// The SHA-256 digest of bytes.
pub(crate) fn digest_of(bytes: &[u8]) -> Digest
    ensures { result.0 ≡ sha256 bytes.now }
{
    Digest(<Sha256 as sha2::Digest>::digest(bytes))
}
