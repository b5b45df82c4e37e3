//! A replica with its journal under a lock.

ghost use Rattle.std.specs.Prelude.{◌≡◌, ◌<◌, ◌≤◌, [], IfOk, IsSomeAnd};
ghost use Rattle.host_types.specs.Configuration.{replicas_for};
ghost use Rattle.lms_tree.specs.Keys.{IsKeyOf};
ghost use Rattle.pbft_codec.specs.declared.signed.Role.TheVariants as roles;
ghost use Rattle.seal.specs.Signers.{key_of};
ghost use Rattle.byz_world.specs.Input.TheVariants as inputs;
ghost use Rattle.byz_world.specs.Keeping.{first_journal};
ghost use Rattle.replica_threads.specs.Stations.{IsAnswered, IsClosed, IsReported, counted_by};

use crate::lane_gate::LaneGate;
use crate::locked::Locked;
use crate::named::Named;
use crate::record::JournalRecord;
use crate::seat::Seat;
use byz_world::{Halt, Journal, Row, Status};
use host_types::{Config, Gate, ReplicaId};
use lms_tree::Signer;
use seal::Checked;
use std::alloc::{AllocError, Global};
use std::sync::ledger::Blank;
use std::sync::{Arc, Mutex, Wait};
use std::thread::Threads;

/// The parts that a station's ledger is cut into, of which each seat has at least one.
pub const PARTS: u64 = 65_536;

/// A replica with its journal, which threads with seats of its own may call at the same time. Each call is
/// one step under the station's lock.
#[derive(Drop)]
pub struct Station<K: Named> {
    id: ReplicaId,
    locked: Mutex<Locked<K>>,
}

impl<K: Named> Station<K> {
    /// A station of the replica that its name stands for, before its first message, and a seat with all
    /// parts of its ledger. Its journal takes at most so many rows, 1 to 65,536. The signer's key is the
    /// one that the configuration lists for the replica; every journal that the station tells of begins with
    /// this signer, at the leaf that it has here. It is refused only where memory ran out, and the signer is
    /// then dropped.
    pub fn new(
        alloc: Global,
        blank: Blank,
        config: &Arc<Config>,
        id: ReplicaId,
        signer: Signer,
        limit: u32,
    ) -> Result<(Station<K>, Seat<K>), AllocError>
        requires name { blank.name ≡ K.name }
        requires parts { (blank.parts ≡ K.parts) × (blank.parts ≡ 65536) }
        requires config { config.now.value ≡ K.config }
        requires id { id.0 ≡ K.id }
        requires replica { id.0 < replicas_for config.now.value.f }
        requires key { IsSomeAnd (key_of config.now.value roles.Replica id.0) (λ key. IsKeyOf key signer) }
        requires signer { signer ≡ K.signer }
        requires limit { (limit ≡ K.limit) × (limit ≤ 65536) }
        ensures { IfOk result (λ made. made.1 ≡ record { rows = 0; parts = 65536 }) }
    {
        let journal = Journal::new(alloc, config, id, signer, limit as usize)?;
        Ok(Station::of(blank, id, journal))
    }

    /// A station of a replica that has made no step. It takes no memory.
    pub(crate) fn of(blank: Blank, id: ReplicaId, journal: Journal) -> (Station<K>, Seat<K>)
        requires name { blank.name ≡ K.name }
        requires parts { (blank.parts ≡ K.parts) × (blank.parts ≡ 65536) }
        requires fresh { journal ≡ first_journal K.config K.id K.signer K.limit }
        requires limit { journal.limit ≤ 65536 }
        ensures { result.1 ≡ record { rows = 0; parts = 65536 } }
    {
        let (book, share) = blank.open::<K>();
        let seat = Seat::first(share, PARTS);
        let locked = Mutex::new(Locked::new(journal, book));
        (Station { id, locked }, seat)
    }

    /// Takes a message that was opened under the station's configuration. The gate is called with the
    /// replica's number, under the station's lock, before a step of the replica. Requests of different
    /// tenants that are executed in it are at the same time, in two lanes: lane j of replica i calls the
    /// gate with 256 + 16 i + j, once before its first request of those that are executed together. The
    /// row is the journal's last one, and is counted in the seat. The halts are, in this order,
    /// `AlreadyHalted`, `JournalFull` and the replica's own; each is for good and counts nothing.
    pub fn take<R: Wait + Threads + Sync, G: Gate + Sync>(
        &self,
        rt: &R,
        seat: &mut Seat<K>,
        message: &Checked,
        gate: &G,
    ) -> Result<Row, Halt>
        requires config { message.now.config ≡ K.config }
        ensures answered { IfOk result (λ row. IsAnswered K.config K.id K.signer K.limit seat.old.rows (inputs.Message message.now) row) }
        ensures counted { seat.new ≡ counted_by seat.old result }
    {
        let mut locked = self.locked.lock(rt);
        if locked.can_step() {
            gate.step(u32::from(self.id.0));
        }
        locked.take(rt, seat, message, &LaneGate::new(gate, self.id))
    }

    /// Takes a timeout, as `take` takes a message.
    pub fn timeout<R: Wait, G: Gate>(
        &self,
        rt: &R,
        seat: &mut Seat<K>,
        gate: &G,
    ) -> Result<Row, Halt>
        ensures answered { IfOk result (λ row. IsAnswered K.config K.id K.signer K.limit seat.old.rows inputs.Timeout row) }
        ensures counted { seat.new ≡ counted_by seat.old result }
    {
        let mut locked = self.locked.lock(rt);
        if locked.can_step() {
            gate.step(u32::from(self.id.0));
        }
        locked.timeout(seat)
    }

    /// Where the replica stands after a journal with at least as many rows as the seat counts; and why the
    /// station has halted since, if it has. The seat stays as it was.
    pub fn report<R: Wait>(&self, rt: &R, seat: &mut Seat<K>) -> Status
        ensures reported { IsReported K.config K.id K.signer K.limit seat.old.rows result }
        ensures seat { seat.new ≡ seat.old }
    {
        self.locked.lock(rt).report(seat)
    }

    /// The journal, with at least as many rows as the seat counts, the oldest first. The replica is
    /// dropped. It takes no memory.
    pub fn close(self, seat: Seat<K>) -> Vec<Row>
        ensures { IsClosed K.config K.id K.signer K.limit seat.rows result.items }
    {
        self.locked.into_inner().into_rows(seat)
    }

    /// The journal, with whose it is. It takes no memory.
    pub(crate) fn into_record(
        self,
        config: Arc<Config>,
        id: ReplicaId,
        first_leaf: u32,
    ) -> JournalRecord
        requires config { config.value ≡ K.config }
        requires id { id.0 ≡ K.id }
        requires leaf { K.signer.next_leaf ≡ first_leaf }
        ensures config { result.config ≡ K.config }
        ensures id { result.id ≡ K.id }
        ensures leaf { result.leaf ≡ first_leaf }
    {
        self.locked.into_inner().into_record(config, id, first_leaf)
    }
}
