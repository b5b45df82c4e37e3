//! A replica with the rows that it gave.

ghost use Rattle.std.specs.Prelude.{◌≡◌, ◌<◌, ◌++◌, ◌∷◌, [], IfErr, IfOk, IsSomeAnd};
ghost use Rattle.host_types.specs.Configuration.{replicas_for};
ghost use Rattle.lms_tree.specs.Keys.{IsKeyOf};
ghost use Rattle.pbft_codec.specs.declared.signed.Role.TheVariants as roles;
ghost use Rattle.seal.specs.Signers.{key_of};
ghost use Rattle.replica_core.specs.Steps.{first_with};
ghost use Rattle.replica_core.specs.declared.row.Input.TheVariants as inputs;
ghost use Rattle.replica_journal.specs.Keeping.{Keeps};
ghost use Rattle.replica_journal.specs.declared.unkept.Unkept.TheVariants as unkept;

use crate::unkept::Unkept;
use host_types::{Config, Gate, ReplicaId};
use lms_tree::Signer;
use replica_core::{Replica, Row};
use seal::Checked;
use std::alloc::{AllocError, Global};
use std::marker::Model;
use std::sync::Arc;
use std::thread::Threads;

/// A replica with the rows that it gave, the oldest first.
#[derive(Drop)]
pub struct Keeper {
    replica: Replica,
    rows: Vec<Row>,
}

impl Model for Keeper {
    ghost use Rattle.std.specs.Coded.{codes};
    ghost use Rattle.pbft_model.specs.Equality.{service_code};
    ghost use Rattle.replica_journal.specs.Keeping.{KeeperFacts};

    ghost Value = { KeeperFacts };

    ghost coded = { Prim.hlevel (codes, service_code) };

    ghost view = { λ k. record { replica = k.replica; rows = k.rows.items } };
}

impl Keeper {
    /// A replica before its first message, with no row. The signer's key is the one that the configuration
    /// lists for the replica. It is refused only where memory ran out, and the signer is then dropped.
    pub fn new(
        alloc: Global,
        config: &Arc<Config>,
        id: ReplicaId,
        signer: Signer,
    ) -> Result<Keeper, AllocError>
        requires replica { id.0 < replicas_for config.now.value.f }
        requires key { IsSomeAnd (key_of config.now.value roles.Replica id.0) (λ key. IsKeyOf key signer) }
        ensures { IfOk result (λ k. k ≡ record { replica = first_with config.now.value id.0 signer; rows = [] }) }
    {
        let replica = Replica::new(alloc, config, id, signer)?;
        let rows = Vec::new(alloc);
        Ok(Keeper { replica, rows })
    }

    /// Takes a message that was opened under the replica's configuration. The row of the replica's step is
    /// appended, and returned. `Halted` comes where the replica gives no row, and leaves the rows as they
    /// were; `Memory` where its row can't be kept, and then the replica stands behind a row that is lost.
    pub fn take(&mut self, message: &Checked) -> Result<Row, Unkept>
        requires config { message.now.config ≡ self.old.replica.config }
        ensures keeps { Keeps self.old (inputs.Message message.now) result self.new }
        ensures config { self.new.replica.config ≡ self.old.replica.config }
        ensures id { self.new.replica.me ≡ self.old.replica.me }
    {
        match self.replica.take(message) {
            Ok(row) => self.keep(row),
            Err(halt) => Err(Unkept::Halted(halt)),
        }
    }

    /// Takes a message as `take` does, where requests of different tenants are executed at the same time:
    /// `Replica::take_lanes` says in how many lanes, of which there has to be one, and when each calls the
    /// gate.
    pub fn take_lanes<R: Threads + Sync, G: Gate + Sync>(
        &mut self,
        rt: &R,
        message: &Checked,
        workers: u8,
        gate: &G,
    ) -> Result<Row, Unkept>
        requires config { message.now.config ≡ self.old.replica.config }
        requires workers { 0 < workers }
        ensures keeps { Keeps self.old (inputs.Message message.now) result self.new }
        ensures config { self.new.replica.config ≡ self.old.replica.config }
        ensures id { self.new.replica.me ≡ self.old.replica.me }
    {
        match self.replica.take_lanes(rt, message, workers, gate) {
            Ok(row) => self.keep(row),
            Err(halt) => Err(Unkept::Halted(halt)),
        }
    }

    /// Takes a timeout. The row of the replica's step is appended, and returned; the refusals are those of
    /// `take`.
    pub fn timeout(&mut self) -> Result<Row, Unkept>
        ensures keeps { Keeps self.old inputs.Timeout result self.new }
        ensures config { self.new.replica.config ≡ self.old.replica.config }
        ensures id { self.new.replica.me ≡ self.old.replica.me }
    {
        match self.replica.timeout() {
            Ok(row) => self.keep(row),
            Err(halt) => Err(Unkept::Halted(halt)),
        }
    }

    /// The replica. It takes no memory.
    pub fn replica(&self) -> &Replica
        ensures { result.now ≡ self.now.replica }
    {
        &self.replica
    }

    /// The rows so far, the oldest first. It takes no memory.
    pub fn rows(&self) -> &[Row]
        ensures { result.now ≡ self.now.rows }
    {
        &self.rows
    }

    /// The rows, the oldest first. The replica is dropped.
    pub fn into_rows(self) -> Vec<Row>
        ensures { result.items ≡ self.rows }
    {
        self.rows
    }

    // Appends a row, and returns one more handle of it.
    fn keep(&mut self, row: Row) -> Result<Row, Unkept>
        ensures row { IfOk result (λ kept. (kept ≡ row) × (self.new.rows ≡ self.old.rows ++ row ∷ [])) }
        ensures memory { IfErr result (λ why. (why ≡ unkept.Memory) × (self.new.rows ≡ self.old.rows)) }
        ensures replica { self.new.replica ≡ self.old.replica }
    {
        let copy = row.copy()?;
        self.rows.push(row)?;
        Ok(copy)
    }
}
