//! The queues between replicas, openers and clients.

ghost use Rattle.std.specs.Prelude.{◌≡◌, ◌⊎◌, IfErr};
ghost use Rattle.replica_threads.specs.declared.fault.HostFault.TheVariants as faults;

use crate::board::Board;
use crate::fault::HostFault;
use crate::record::JournalRecord;
use byz_world::{Dest, Row};
use crossbeam_channel::{SendError, Sender};
use host_types::{Bytes, ClientId, Config, Gate, ReplicaId};
use seal::{Checked, open};
use std::alloc::Global;
use std::sync::{Arc, Mutex, Wait};
use std::thread;

/// What is posted to the openers of a replica.
#[derive(Drop)]
pub(crate) enum Parcel {
    /// Bytes from outside.
    Posted(Bytes),
    /// A message that another replica gave: its bytes are opened anew.
    Given(Checked),
    /// The last parcel that an opener reads.
    Stop,
}

/// What the thread of a replica is handed.
#[derive(Drop)]
pub(crate) enum Letter {
    Message(Checked),
    Timeout,
    /// The last letter that the thread reads.
    Stop,
}

/// The queues that lead to the replicas, by their ids. What goes through them is counted on the board, until it is done
/// with.
#[derive(Drop)]
pub(crate) struct Posts {
    pub(crate) board: Arc<Board>,
    pub(crate) parcels: Vec<Sender<Parcel>>,
    pub(crate) letters: Vec<Sender<Letter>>,
}

impl Posts {
    /// Posts to the openers of a replica.
    pub(crate) fn post<R: Wait>(
        &self,
        rt: &R,
        to: ReplicaId,
        parcel: Parcel,
    ) -> Result<(), HostFault>
        ensures { IfErr result (λ fault. (fault ≡ faults.Closed) ⊎ (fault ≡ faults.Memory)) }
    {
        match self.parcels.get(usize::from(to.0)) {
            Some(queue) => self.send_counted(rt, queue, parcel),
            None => Err(HostFault::Closed),
        }
    }

    /// Hands a letter to the thread of a replica.
    pub(crate) fn hand<R: Wait>(
        &self,
        rt: &R,
        to: ReplicaId,
        letter: Letter,
    ) -> Result<(), HostFault>
        ensures { IfErr result (λ fault. (fault ≡ faults.Closed) ⊎ (fault ≡ faults.Memory)) }
    {
        match self.letters.get(usize::from(to.0)) {
            Some(queue) => self.send_counted(rt, queue, letter),
            None => Err(HostFault::Closed),
        }
    }

    // What can't be sent isn't under way.
    fn send_counted<R: Wait, T: Drop>(
        &self,
        rt: &R,
        queue: &Sender<T>,
        item: T,
    ) -> Result<(), HostFault>
        ensures { IfErr result (λ fault. (fault ≡ faults.Closed) ⊎ (fault ≡ faults.Memory)) }
    {
        self.board.begin();
        let sent = send(rt, queue, item);
        if sent.is_err() {
            self.board.end();
        }
        sent
    }

    /// Tells all threads to end: each opener, so many for a replica, and each replica.
    pub(crate) fn stop<R: Wait>(&self, rt: &R, openers: u8) {
        for queue in &self.parcels {
            for _ in 0..openers {
                stop_opener(rt, queue);
            }
        }
        for queue in &self.letters {
            stop_replica(rt, queue);
        }
    }
}

fn send<R: Wait, T: Drop>(rt: &R, queue: &Sender<T>, item: T) -> Result<(), HostFault>
    ensures { IfErr result (λ fault. (fault ≡ faults.Closed) ⊎ (fault ≡ faults.Memory)) }
{
    match queue.send(rt, item) {
        Ok(()) => Ok(()),
        Err(SendError::OutOfMemory(_)) => Err(HostFault::Memory),
        Err(SendError::Disconnected(_)) => Err(HostFault::Closed),
    }
}

// Stops one opener. While the queue can't grow it is tried again.
fn stop_opener<R: Wait>(rt: &R, queue: &Sender<Parcel>) {
    for _ in rt.forever() {
        match send(rt, queue, Parcel::Stop) {
            Err(HostFault::Memory) => thread::yield_now(),
            _ => break,
        }
    }
}

// Stops a replica's thread. While the queue can't grow it is tried again.
fn stop_replica<R: Wait>(rt: &R, queue: &Sender<Letter>) {
    for _ in rt.forever() {
        match send(rt, queue, Letter::Stop) {
            Err(HostFault::Memory) => thread::yield_now(),
            _ => break,
        }
    }
}

/// What the threads of a host share. The queues that lead to clients are here alone: once the last thread
/// has ended, what waits at their other ends learns it.
#[derive(Drop)]
pub(crate) struct Links<G: Drop> {
    pub(crate) config: Arc<Config>,
    pub(crate) posts: Arc<Posts>,
    /// In the order in which the configuration lists the clients.
    pub(crate) replies: Vec<Sender<Checked>>,
    /// By the replicas' ids.
    pub(crate) records: Arc<Mutex<Vec<Option<JournalRecord>>>>,
    pub(crate) gate: Arc<G>,
}

impl<G: Gate + Drop> Links<G> {
    /// Passes on what a replica gave. A message that can't be copied or queued for lack of memory is lost,
    /// as one that the network loses.
    pub(crate) fn pass_on<R: Wait>(&self, rt: &R, from: ReplicaId, row: &Row) {
        for output in row.outputs() {
            match output.to {
                Dest::All => self.give_to_others(rt, from, &output.message),
                Dest::Replica(to) => self.give(rt, to, &output.message),
                Dest::Client(to) => self.reply(rt, to, &output.message),
            }
        }
    }

    /// Posts a message to all other replicas.
    pub(crate) fn give_to_others<R: Wait>(&self, rt: &R, from: ReplicaId, message: &Checked) {
        for id in 0..self.config.replica_count() {
            if id != from.0 {
                self.give(rt, ReplicaId(id), message);
            }
        }
    }

    fn give<R: Wait>(&self, rt: &R, to: ReplicaId, message: &Checked) {
        if let Ok(copy) = message.copy() {
            let _ = self.posts.post(rt, to, Parcel::Given(copy));
        }
    }

    fn reply<R: Wait>(&self, rt: &R, to: ClientId, message: &Checked) {
        let index = self
            .config
            .clients()
            .iter()
            .position(|client| client.id.0 == to.0);
        let Some(index) = index else {
            return;
        };
        if let (Some(queue), Ok(copy)) = (self.replies.get(index), message.copy()) {
            let _ = send(rt, queue, copy);
        }
    }

    /// Opens bytes that came to a replica, and hands what they are to its thread. No lock is held. Once the host is closed
    /// or the replica has halted, they are dropped unopened.
    pub(crate) fn open_for<R: Wait>(&self, rt: &R, alloc: Global, to: ReplicaId, bytes: &[u8]) {
        let board = &self.posts.board;
        if !board.is_closed() && !board.has_halted(to) {
            let opened = open(alloc, &self.config, bytes);
            self.gate.opened(u32::from(to.0));
            if let Ok(message) = opened {
                let _ = self.posts.hand(rt, to, Letter::Message(message));
            }
        }
        board.end();
    }

    /// Files the journal of a replica that has ended.
    pub(crate) fn file<R: Wait>(&self, rt: &R, id: ReplicaId, record: JournalRecord) {
        let mut records = self.records.lock(rt);
        if let Some(slot) = records.get_mut(usize::from(id.0)) {
            *slot = Some(record);
        }
    }
}
