//! All replicas of a configuration in threads.

ghost use Rattle.std.specs.Prelude.{◌≡◌, ◌≤◌, ◌<◌, ◌↔◌, ◌⊎◌, Some, IfErr, IfOk, IfSome, IsErrOf, OnOk, map, length, slice_get};
ghost use Rattle.host_types.specs.Configuration.{replicas_for};
ghost use Rattle.replica_threads.specs.declared.fault.HostFault.TheVariants as faults;
ghost use Rattle.replica_threads.specs.Hosts.{AgreeAtClose, AreIdsFrom, AreRecords, HaveKeys, StandsAt};

use crate::board::{Board, Progress};
use crate::desk::Desk;
use crate::fault::HostFault;
use crate::furnishing::{Parts, are_listed, furnish, next_leaves, open_parts};
use crate::links::{Letter, Links, Parcel, Posts};
use crate::overseer::oversee;
use crate::record::JournalRecord;
use byz_world::{Halt, Row, Status, journals_of_all_replicas_agree};
use crossbeam_channel::{Receiver, RecvTimeoutError, bounded};
use host_types::{Bytes, ClientId, Config, Gate, ReplicaId};
use lms_tree::Signer;
use seal::Checked;
use std::alloc::{AllocError, Global};
use std::marker::Model;
use std::sync::{Arc, Mutex, Wait};
use std::thread;
use std::thread::Threads;
use std::time::{Clock, Duration};

/// The replicas of a configuration, each in a thread of its own, with threads that open what is posted to
/// it. A host may be shared by threads. It runs until it is closed: one that is dropped unclosed runs on.
/// It makes no timeouts by itself: without ticks (`tick`, or a `Ticker`) its view never changes.
#[derive(Drop)]
pub struct Host {
    alloc: Global,
    config: Arc<Config>,
    /// By the replicas' ids: the leaf that each signer would have used next as it was given.
    leaves: Vec<u32>,
    posts: Arc<Posts>,
    openers: u8,
    /// In the order in which the configuration lists the clients.
    replies: Vec<Receiver<Checked>>,
    /// By the replicas' ids, once their threads have ended.
    records: Arc<Mutex<Vec<Option<JournalRecord>>>>,
    /// Disconnected once all threads have ended.
    overseer: Receiver<bool>,
}

impl Model for Host {
    ghost use Rattle.replica_threads.specs.Hosts.{HostFacts};

    ghost Value = { HostFacts };

    ghost view = { λ h. record { config = h.config.value; leaves = h.leaves.items } };
}

/// What a host leaves, by its replicas' ids.
#[derive(Drop)]
pub struct Closed {
    /// The journal of each replica.
    pub journals: Vec<(ReplicaId, Vec<Row>)>,
    /// Why each has halted, if it has.
    pub halts: Vec<Option<Halt>>,
}

impl Host {
    /// Starts a thread for each replica, and 1 to 4 threads for each that open what is posted to it. A
    /// replica's journal takes at most so many rows, 1 to 65,536: then it halts. The gate sees each step and
    /// each opening. `WrongSigners` comes exactly where the signers aren't those of the listed keys, in the
    /// order of the replicas; `Memory` where memory ran out or a thread could not be made. Refused, it has
    /// ended the threads that it made, and the signers are dropped.
    pub fn start<
        R: Threads + Wait + Copy + Send + Sync + 'static,
        G: Gate + Send + Sync + Drop + 'static,
    >(
        rt: &R,
        alloc: Global,
        config: &Arc<Config>,
        signers: Vec<Signer>,
        limit: u32,
        openers: u8,
        gate: Arc<G>,
    ) -> Result<Host, HostFault>
        requires limit { (1 ≤ limit) × (limit ≤ 65536) }
        requires openers { (1 ≤ openers) × (openers ≤ 4) }
        ensures host { IfOk result (λ host. host ≡ record { config = config.now.value; leaves = map (λ s. s.next_leaf) signers.items }) }
        ensures fault { IfErr result (λ fault. (fault ≡ faults.WrongSigners) ⊎ (fault ≡ faults.Memory)) }
        ensures signers { IsErrOf result faults.WrongSigners ↔ (HaveKeys config.now.value.keys signers.items → ⊥) }
    {
        if !are_listed(config, &signers) {
            return Err(HostFault::WrongSigners);
        }
        let config = Arc::try_clone(config)?;
        let leaves = next_leaves(alloc, &signers)?;
        let Parts {
            posts,
            inboxes,
            replies,
            records,
            links,
        } = open_parts(alloc, &config, gate)?;
        let desks = furnish(alloc, &config, signers, limit, inboxes)?;
        let overseer = run_overseer(rt, alloc, links, desks, openers)?;
        Ok(Host {
            alloc,
            config,
            leaves,
            posts,
            openers,
            replies,
            records,
            overseer,
        })
    }

    /// The configuration. It takes no memory.
    pub fn config(&self) -> &Arc<Config>
        ensures { result.now.value ≡ self.now.config }
    {
        &self.config
    }

    /// Posts bytes to a replica that the configuration has: its openers open them. `Closed` comes once the
    /// host is closed, `Memory` where the queue can't grow. A message that is posted may still not be
    /// answered.
    pub fn post<R: Wait>(&self, rt: &R, to: ReplicaId, bytes: Bytes) -> Result<(), HostFault>
        requires replica { to.0 < replicas_for self.now.config.f }
        ensures fault { IfErr result (λ fault. (fault ≡ faults.Closed) ⊎ (fault ≡ faults.Memory)) }
    {
        if self.board().is_closed() {
            return Err(HostFault::Closed);
        }
        self.posts.post(rt, to, Parcel::Posted(bytes))
    }

    /// Gives a replica that the configuration has a timeout. Behind its step the replica's thread posts again
    /// what nothing later stands for where it was lost: its own Checkpoints above its low mark, and its last
    /// own Fetches. The refusals are those of `post`.
    pub fn tick<R: Wait>(&self, rt: &R, at: ReplicaId) -> Result<(), HostFault>
        requires replica { at.0 < replicas_for self.now.config.f }
        ensures fault { IfErr result (λ fault. (fault ≡ faults.Closed) ⊎ (fault ≡ faults.Memory)) }
    {
        if self.board().is_closed() {
            return Err(HostFault::Closed);
        }
        self.posts.hand(rt, at, Letter::Timeout)
    }

    /// Where a replica stands that the configuration has, as its thread last told: after a lawful journal of
    /// its, from the signer on that the host was given; and why it has halted since, if it has. Behind
    /// `close` it is where the replica stood last. None where its thread has told nothing yet.
    pub fn status<R: Wait>(&self, rt: &R, id: ReplicaId) -> Option<Status>
        ensures { IfSome result (λ status. StandsAt self.now id.0 status) }
    {
        let first_leaf = self.first_leaf(id.0)?;
        self.board().status(rt, &self.config, id, first_leaf)
    }

    /// Whether more than f replicas have halted: no further request can be executed.
    pub fn is_stuck(&self) -> bool {
        self.board().halts() > usize::from(self.config.f())
    }

    /// Whether nothing is under way: what was posted is opened and taken, and so is all that came of it. What
    /// replicas gave to clients may still wait to be received. Until something is posted or a replica is given
    /// a timeout, nothing more comes. Behind `close` it says nothing.
    pub fn is_idle(&self) -> bool {
        self.board().is_idle()
    }

    // What a ticker looks at.
    pub(crate) fn progress(&self, id: ReplicaId) -> Progress {
        self.board().progress(id)
    }

    /// Waits for the next message that a replica gave to a client, and returns its bytes. `Closed` comes
    /// where the host was closed and no message is left, or the configuration doesn't list the client.
    /// `Memory` loses the message.
    pub fn receive<R: Wait>(&self, rt: &R, client: ClientId) -> Result<Bytes, HostFault>
        ensures fault { IfErr result (λ fault. (fault ≡ faults.Closed) ⊎ (fault ≡ faults.Memory)) }
    {
        let Some(queue) = self.replies_to(client) else {
            return Err(HostFault::Closed);
        };
        match queue.recv(rt) {
            Ok(message) => self.bytes_of(&message),
            Err(_) => Err(HostFault::Closed),
        }
    }

    /// Waits as `receive` does, but no longer than so: none where no message came.
    pub fn receive_within<R: Wait + Clock>(
        &self,
        rt: &R,
        client: ClientId,
        time: Duration,
    ) -> Result<Option<Bytes>, HostFault>
        ensures fault { IfErr result (λ fault. (fault ≡ faults.Closed) ⊎ (fault ≡ faults.Memory)) }
    {
        let Some(queue) = self.replies_to(client) else {
            return Err(HostFault::Closed);
        };
        match queue.recv_timeout(rt, time) {
            Ok(message) => Ok(Some(self.bytes_of(&message)?)),
            Err(RecvTimeoutError::Timeout) => Ok(None),
            Err(RecvTimeoutError::Disconnected) => Err(HostFault::Closed),
        }
    }

    fn replies_to(&self, client: ClientId) -> Option<&Receiver<Checked>> {
        let index = self
            .config
            .clients()
            .iter()
            .position(|entry| entry.id.0 == client.0)?;
        self.replies.get(index)
    }

    fn bytes_of(&self, message: &Checked) -> Result<Bytes, HostFault>
        ensures fault { IfErr result (λ fault. fault ≡ faults.Memory) }
    {
        let bytes = Vec::from_slice(self.alloc, message.bytes())?;
        Ok(Bytes::from_vec(bytes))
    }

    /// Stops all threads, waits until they have ended, and returns the journal of each replica, by its id.
    /// What waits to be opened is dropped; what a replica's thread was handed before is taken. Each is a lawful
    /// journal, from the signer on that the host was given. Where at most f replicas are faulty, each part of
    /// what they received that names a correct replica as its signer was signed in a row of these journals, and
    /// no digests collide, they agree; where nobody is faulty, an audit finds no fault in them. Later calls, and
    /// one whose journals are missing, answer `Closed`. `Memory` has closed nothing, and the call may be made
    /// again.
    pub fn close<R: Wait>(&self, rt: &R) -> Result<Vec<(ReplicaId, Vec<Row>)>, HostFault>
        ensures agree { IfOk result (λ journals. AgreeAtClose self.now (map (λ p. p.1.items) journals.items)) }
        ensures ids { IfOk result (λ journals. AreIdsFrom 0 (map (λ p. p.0) journals.items)) }
        ensures many { IfOk result (λ journals. length journals.items ≡ replicas_for self.now.config.f) }
        ensures fault { IfErr result (λ fault. (fault ≡ faults.Closed) ⊎ (fault ≡ faults.Memory)) }
    {
        Ok(self.close_with_halts(rt)?.journals)
    }

    /// Does what `close` does, and tells beside the journals why each replica has halted, if it has.
    pub fn close_with_halts<R: Wait>(&self, rt: &R) -> Result<Closed, HostFault>
        ensures agree { IfOk result (λ closed. AgreeAtClose self.now (map (λ p. p.1.items) closed.journals.items)) }
        ensures ids { IfOk result (λ closed. AreIdsFrom 0 (map (λ p. p.0) closed.journals.items)) }
        ensures many { IfOk result (λ closed. length closed.journals.items ≡ replicas_for self.now.config.f) }
        ensures halts { IfOk result (λ closed. length closed.halts.items ≡ replicas_for self.now.config.f) }
        ensures fault { IfErr result (λ fault. (fault ≡ faults.Closed) ⊎ (fault ≡ faults.Memory)) }
    {
        let mut journals = Vec::new(self.alloc);
        let mut halts = Vec::new(self.alloc);
        journals.reserve(usize::from(self.config.replica_count()))?;
        halts.reserve(usize::from(self.config.replica_count()))?;
        if self.board().close() {
            return Err(HostFault::Closed);
        }
        self.posts.stop(rt, self.openers);
        // It is disconnected once the overseer has joined the last thread.
        let _ = self.overseer.recv(rt);
        self.collect(rt, &mut journals, &mut halts)?;
        // What is proved of lawful journals of all replicas.
        journals_of_all_replicas_agree();
        Ok(Closed { journals, halts })
    }

    // The leaf that a replica's signer would have used next as it was given.
    fn first_leaf(&self, id: u8) -> Option<u32>
        ensures { IfSome result (λ leaf. slice_get self.now.leaves id ≡ Some leaf) }
    {
        self.leaves.get(usize::from(id)).copied()
    }

    fn board(&self) -> &Board {
        &self.posts.board
    }

    // Puts the journal of each replica behind none, and its halt.
    fn collect<R: Wait>(
        &self,
        rt: &R,
        journals: &mut Vec<(ReplicaId, Vec<Row>)>,
        halts: &mut Vec<Option<Halt>>,
    ) -> Result<(), HostFault>
        requires none { length journals.old.items ≡ 0 }
        requires no_halts { length halts.old.items ≡ 0 }
        ensures journals { OnOk result (AreRecords self.now 0 (map (λ p. p.1.items) journals.new.items)) }
        ensures ids { OnOk result (AreIdsFrom 0 (map (λ p. p.0) journals.new.items)) }
        ensures fault { IfErr result (λ fault. (fault ≡ faults.Closed) ⊎ (fault ≡ faults.Memory)) }
        ensures many { OnOk result (length journals.new.items ≡ replicas_for self.now.config.f) }
        ensures halts { OnOk result (length halts.new.items ≡ replicas_for self.now.config.f) }
    {
        for id in 0..self.config.replica_count() {
            let Some(record) = self.take_record(rt, id) else {
                return Err(HostFault::Closed);
            };
            halts.push(record.halted())?;
            journals.push((ReplicaId(id), record.into_rows()))?;
        }
        Ok(())
    }

    // The journal that the replica's thread filed, if it is this replica's under this configuration, from the signer on
    // that the host was given.
    fn take_record<R: Wait>(&self, rt: &R, id: u8) -> Option<JournalRecord>
        ensures { IfSome result (λ r. (r.config ≡ self.now.config) × (r.id ≡ id) × (slice_get self.now.leaves id ≡ Some r.leaf)) }
    {
        let first_leaf = self.first_leaf(id)?;
        let mut records = self.records.lock(rt);
        let record = records.get_mut(usize::from(id))?.take()?;
        if record.is_of(&self.config, id, first_leaf) {
            Some(record)
        } else {
            None
        }
    }
}

// Runs the overseer in a thread, and waits until it has made the others.
fn run_overseer<
    R: Threads + Wait + Copy + Send + Sync + 'static,
    G: Gate + Send + Sync + Drop + 'static,
>(
    rt: &R,
    alloc: Global,
    links: Arc<Links<G>>,
    desks: Vec<Desk>,
    openers: u8,
) -> Result<Receiver<bool>, AllocError> {
    let rt = *rt;
    let (started, overseer) = bounded(alloc, 1)?;
    let job = move || oversee(rt, alloc, links, desks, openers, started);
    thread::spawn(&rt, job)?;
    if overseer.recv(&rt) == Ok(true) {
        return Ok(overseer);
    }
    // What was made has ended once the overseer has.
    let _ = overseer.recv(&rt);
    Err(AllocError)
}
