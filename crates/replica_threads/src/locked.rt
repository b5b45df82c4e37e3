//! What a station's lock keeps: the replica with its journal, and the ledger of what its seats count.
//! Only these methods reach its fields.

ghost use Rattle.std.specs.Prelude.{◌≡◌, ◌≤◌, ◌↔◌, IfOk, IsTrue};
ghost use Rattle.byz_world.specs.Input.TheVariants as inputs;
ghost use Rattle.byz_world.specs.Keeping.{Advances, MayStep, first_journal};
ghost use Rattle.replica_threads.specs.Stations.{IsAnswered, IsClosed, IsReported, counted_by};

use crate::lane_gate::LANES;
use crate::named::Named;
use crate::record::JournalRecord;
use crate::seat::Seat;
use byz_world::{Halt, Journal, Row, Status};
use host_types::{Config, Gate, ReplicaId};
use seal::Checked;
use std::marker::Model;
use std::sync::Arc;
use std::sync::ledger::Book;
use std::thread::Threads;

/// The inside of a station: whenever the lock is free, its rows are a lawful journal of the replica that
/// its name stands for, from its name's signer on, and while it has not halted, its core is the one after
/// them. Each row was answered through one of its seats.
#[derive(Drop)]
pub struct Locked<K: Named> {
    journal: Journal,
    book: Book<K>,
}

impl<K: Named> Model for Locked<K> {
    ghost use Rattle.std.specs.Prelude.{◌≡◌, ◌≤◌, length};
    ghost use Rattle.std.specs.Coded.{codes};
    ghost use Rattle.byz_world.specs.Equality.{service_code};
    ghost use Rattle.byz_world.specs.Keeping.{JournalFacts};
    ghost use Rattle.replica_threads.specs.Stations.{IsKeptBy};

    ghost Value = { JournalFacts };

    ghost coded = { Prim.hlevel (codes, service_code) };

    ghost view = { λ l. l.journal };

    ghost invariant = { λ l. (l.journal.replica.config ≡ K.config) × (l.journal.replica.me ≡ K.id)
        × (length l.journal.rows ≡ l.book.total) × (l.journal.limit ≡ K.limit) × (l.journal.limit ≤ 65536)
        × IsKeptBy K.config K.id K.signer l.journal };
}

impl<K: Named> Locked<K> {
    /// The inside of a station before its first step.
    pub(crate) fn new(journal: Journal, book: Book<K>) -> Locked<K>
        requires fresh { journal ≡ first_journal K.config K.id K.signer K.limit }
        requires limit { journal.limit ≤ 65536 }
        requires total { book.total ≡ 0 }
        ensures { result ≡ journal }
    {
        let _status = journal.status();
        Locked { journal, book }
    }

    /// Takes a message that was opened under the station's configuration. The row of the replica's step is
    /// appended to the journal and counted in the seat; or the station halts, as `Journal::take_lanes`
    /// says, and nothing is counted. Requests of different tenants are executed in two lanes, each of which
    /// calls the gate with its number.
    pub fn take<R: Threads + Sync, G: Gate + Sync>(
        &mut self,
        rt: &R,
        seat: &mut Seat<K>,
        message: &Checked,
        gate: &G,
    ) -> Result<Row, Halt>
        requires config { message.now.config ≡ K.config }
        ensures step { Advances self.old (inputs.Message message.now) result self.new }
        ensures answered { IfOk result (λ row. IsAnswered K.config K.id K.signer K.limit seat.old.rows (inputs.Message message.now) row) }
        ensures counted { seat.new ≡ counted_by seat.old result }
    {
        let Locked { journal, book } = self;
        let row = journal.take_lanes(rt, message, LANES, gate)?;
        seat.count(book);
        Ok(row)
    }

    /// Takes a timeout, as `take` takes a message.
    pub fn timeout(&mut self, seat: &mut Seat<K>) -> Result<Row, Halt>
        ensures step { Advances self.old inputs.Timeout result self.new }
        ensures answered { IfOk result (λ row. IsAnswered K.config K.id K.signer K.limit seat.old.rows inputs.Timeout row) }
        ensures counted { seat.new ≡ counted_by seat.old result }
    {
        let Locked { journal, book } = self;
        let row = journal.timeout()?;
        seat.count(book);
        Ok(row)
    }

    /// Whether the replica may step: it has not halted, and there is room for a row. It takes no memory.
    pub fn can_step(&self) -> bool
        ensures { IsTrue result ↔ MayStep self.now }
    {
        self.journal.can_step()
    }

    /// Where the replica stands after the last row, and why it has halted since, if it has. The seat stays
    /// as it was. It takes no memory.
    pub fn report(&mut self, seat: &mut Seat<K>) -> Status
        ensures reported { IsReported K.config K.id K.signer K.limit seat.old.rows result }
        ensures value { result ≡ self.old.status }
        ensures same { self.new ≡ self.old }
        ensures seat { seat.new ≡ seat.old }
    {
        seat.audit(&mut self.book);
        self.journal.status()
    }

    /// The journal's rows. It takes no memory.
    pub(crate) fn into_rows(self, seat: Seat<K>) -> Vec<Row>
        ensures rows { result.items ≡ self.rows }
        ensures closed { IsClosed K.config K.id K.signer K.limit seat.rows result.items }
    {
        let Locked { journal, mut book } = self;
        let mut seat = seat;
        seat.audit(&mut book);
        journal.into_rows()
    }

    /// The journal's rows, with whose they are, the leaf that the signer would have used next as it was given,
    /// and why the station has halted, if it has. It takes no memory.
    pub(crate) fn into_record(
        self,
        config: Arc<Config>,
        id: ReplicaId,
        first_leaf: u32,
    ) -> JournalRecord
        requires config { config.value ≡ K.config }
        requires id { id.0 ≡ K.id }
        requires leaf { K.signer.next_leaf ≡ first_leaf }
        ensures record { result ≡ record { config = K.config; id = K.id; leaf = first_leaf; rows = self.rows; halted = self.status.halted } }
    {
        let Locked { journal, book: _ } = self;
        let halted = journal.status().halted;
        JournalRecord::new(config, id, first_leaf, journal.into_rows(), halted)
    }
}
