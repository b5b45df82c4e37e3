//! A replica with its journal.

ghost use Rattle.std.specs.Prelude.{◌≡◌, ◌≤◌, ◌<◌, ◌↔◌, None, Some, Ok, IfErr, IfOk, IsSomeAnd, IsTrue, OnOk, map};
ghost use Rattle.host_types.specs.Configuration.{replicas_for};
ghost use Rattle.lms_tree.specs.Keys.{IsKeyOf};
ghost use Rattle.pbft_codec.specs.declared.signed.Role.TheVariants as roles;
ghost use Rattle.pbft_model.specs.Rows.{IsJournal};
ghost use Rattle.seal.specs.Signers.{key_of};
ghost use Rattle.pbft_model.specs.Setup.{setup_of};
ghost use Rattle.replica_core.specs.Facts.{row_of};
ghost use Rattle.replica_core.specs.declared.halt.Halt.TheVariants as halts;
ghost use Rattle.replica_core.specs.declared.row.Input.TheVariants as inputs;
ghost use Rattle.replica_journal.specs.Keeping.{Advances, CannotStep, IsHaltOf, IsKept, MayStep, first_journal};

use crate::keeper::Keeper;
use crate::unkept::Unkept;
use host_types::{Config, Gate, ReplicaId};
use lms_tree::Signer;
use replica_core::{Halt, Replica, Row, Status};
use seal::Checked;
use std::alloc::{AllocError, Global};
use std::marker::Model;
use std::sync::Arc;
use std::thread::Threads;

/// A replica with its journal. Once it has halted it gives no further row.
#[derive(Drop)]
pub struct Journal {
    keeper: Keeper,
    limit: usize,
    /// After the last row: where a row can't be kept, the replica itself stands further.
    status: Status,
}

impl Model for Journal {
    ghost use Rattle.std.specs.Coded.{codes};
    ghost use Rattle.pbft_model.specs.Equality.{service_code};
    ghost use Rattle.replica_journal.specs.Keeping.{IsKept, JournalFacts};

    ghost Value = { JournalFacts };

    ghost coded = { Prim.hlevel (codes, service_code) };

    ghost view = { λ j. record { replica = j.keeper.replica; rows = j.keeper.rows; limit = j.limit; status = j.status } };

    ghost invariant = { λ j. IsKept (record { replica = j.keeper.replica; rows = j.keeper.rows; limit = j.limit; status = j.status }) };
}

impl Journal {
    /// A replica before its first message, with an empty journal that has room for so many rows. The signer's key is the one that the configuration lists for the replica. It is refused only
    /// where memory ran out, and the signer is then dropped.
    pub fn new(
        alloc: Global,
        config: &Arc<Config>,
        id: ReplicaId,
        signer: Signer,
        limit: usize,
    ) -> Result<Journal, AllocError>
        requires replica { id.0 < replicas_for config.now.value.f }
        requires key { IsSomeAnd (key_of config.now.value roles.Replica id.0) (λ key. IsKeyOf key signer) }
        ensures { IfOk result (λ j. j ≡ first_journal config.now.value id.0 signer limit) }
    {
        let keeper = Keeper::new(alloc, config, id, signer)?;
        let status = keeper.replica().status();
        Ok(Journal {
            keeper,
            limit,
            status,
        })
    }

    /// Takes a message that was opened under the replica's configuration. Its row is appended to the
    /// journal. Requests of different tenants are executed at the same time: `Replica::take_lanes` says in
    /// how many lanes, of which there has to be one, and when each calls the gate. The halts are, in this
    /// order, `AlreadyHalted`, which changes nothing; `JournalFull`, where there are as many rows as the
    /// limit; those of the replica; and `Memory`, where the row can't be kept. A halt is for good: the rows
    /// and where the replica stood after them stay as they were.
    pub fn take_lanes<R: Threads + Sync, G: Gate + Sync>(
        &mut self,
        rt: &R,
        message: &Checked,
        workers: u8,
        gate: &G,
    ) -> Result<Row, Halt>
        requires config { message.now.config ≡ self.old.replica.config }
        requires workers { 0 < workers }
        ensures step { Advances self.old (inputs.Message message.now) result self.new }
        ensures kept { IsKept self.new }
    {
        let Journal {
            keeper,
            limit,
            status,
        } = self;
        may_step(keeper.rows().len(), *limit, status)?;
        let stepped = keeper.take_lanes(rt, message, workers, gate);
        finish(status, keeper.replica().status(), stepped)
    }

    /// Takes a timeout. Its row is appended to the journal; the halts are those of `take_lanes`.
    pub fn timeout(&mut self) -> Result<Row, Halt>
        ensures step { Advances self.old inputs.Timeout result self.new }
        ensures kept { IsKept self.new }
    {
        let Journal {
            keeper,
            limit,
            status,
        } = self;
        may_step(keeper.rows().len(), *limit, status)?;
        let stepped = keeper.timeout();
        finish(status, keeper.replica().status(), stepped)
    }

    /// Whether the replica may step: it has not halted, and there is room for a row. It takes no memory.
    pub fn can_step(&self) -> bool
        ensures { IsTrue result ↔ MayStep self.now }
    {
        self.status.halted.is_none() && self.keeper.rows().len() < self.limit
    }

    /// Where the replica stands after the last row, and why it has halted since, if it has. It takes no
    /// memory.
    pub fn status(&self) -> Status
        ensures value { result ≡ self.now.status }
        ensures kept { IsKept self.now }
    {
        self.status
    }

    /// The replica. It takes no memory.
    pub fn replica(&self) -> &Replica
        ensures { result.now ≡ self.now.replica }
    {
        self.keeper.replica()
    }

    /// The rows so far, the oldest first. It takes no memory.
    pub fn rows(&self) -> &[Row]
        ensures { result.now ≡ self.now.rows }
    {
        self.keeper.rows()
    }

    /// The rows, the oldest first: a lawful journal of the replica. The replica is dropped.
    pub fn into_rows(self) -> Vec<Row>
        ensures rows { result.items ≡ self.rows }
        ensures lawful { IsJournal (setup_of self.replica.config) self.replica.me (map row_of result.items) }
    {
        self.keeper.into_rows()
    }
}

// Whether a step may be made behind so many rows. A journal that is full is halted.
fn may_step(rows: usize, limit: usize, status: &mut Status) -> Result<(), Halt>
    ensures may { OnOk result ((status.old.halted ≡ None) × (rows < limit) × (status.new ≡ status.old)) }
    ensures not { IfErr result (λ halt. CannotStep rows limit status.old halt status.new) }
{
    if status.halted.is_some() {
        return Err(Halt::AlreadyHalted);
    }
    if rows >= limit {
        status.halted = Some(Halt::JournalFull);
        return Err(Halt::JournalFull);
    }
    Ok(())
}

// What a step answers that left the replica there: its row, or the halt.
fn finish(status: &mut Status, stands: Status, stepped: Result<Row, Unkept>) -> Result<Row, Halt>
    ensures row { IfOk result (λ row. (stepped ≡ Ok row) × (status.new ≡ stands)) }
    ensures halt { IfErr result (λ halt. IsHaltOf stepped halt × (status.new ≡ record status.old { halted = Some halt })) }
{
    let halt = match stepped {
        Ok(row) => {
            *status = stands;
            return Ok(row);
        }
        Err(Unkept::Halted(halt)) => halt,
        Err(Unkept::Memory) => Halt::Memory,
    };
    status.halted = Some(halt);
    Err(halt)
}
