//! A correct replica and its rows.

ghost use Rattle.std.specs.Prelude.{◌≡◌, ◌<◌, [], slice_get, IfOk, IsSomeAnd};
ghost use Rattle.std.specs.Option.{option_copied};
ghost use Rattle.host_types.specs.Configuration.{replicas_for};
ghost use Rattle.lms_tree.specs.Keys.{IsKeyOf};
ghost use Rattle.pbft_codec.specs.declared.signed.Role.TheVariants as roles;
ghost use Rattle.seal.specs.Signers.{key_of};
ghost use Rattle.replica_journal.specs.Steps.{first_with};
ghost use Rattle.replica_journal.specs.Input.TheVariants as inputs;
ghost use Rattle.byz_world.specs.Handing.{IsAnswerOf, MemberSteps};
ghost use Rattle.byz_world.specs.Worlds.{facts_of, outcome_of, output_at};

use crate::fault::WorldFault;
use crate::report::Outcome;
use host_types::{Config, ReplicaId};
use lms_tree::Signer;
use replica_journal::{Keeper, Output, Replica, Row, Unkept};
use seal::Checked;
use std::alloc::{AllocError, Global};
use std::marker::Model;
use std::sync::Arc;

/// A correct replica and its rows.
#[derive(Drop)]
pub(crate) struct Member {
    id: ReplicaId,
    keeper: Keeper,
}

impl Model for Member {
    ghost use Rattle.std.specs.Prelude.{◌≡◌};
    ghost use Rattle.std.specs.Coded.{codes};
    ghost use Rattle.service_model.specs.Equality.{service_code};
    ghost use Rattle.byz_world.specs.Worlds.{MemberFacts};

    ghost Value = { MemberFacts };

    ghost coded = { Prim.hlevel (codes, service_code) };

    ghost view = { λ m. record { replica = m.keeper.replica; rows = m.keeper.rows } };

    ghost invariant = { λ m. m.id.0 ≡ m.keeper.replica.me };
}

impl Member {
    /// A replica before its first message.
    pub(crate) fn new(
        alloc: Global,
        config: &Arc<Config>,
        id: ReplicaId,
        signer: Signer,
    ) -> Result<Member, AllocError>
        requires replica { id.0 < replicas_for config.now.value.f }
        requires key { IsSomeAnd (key_of config.now.value roles.Replica id.0) (λ key. IsKeyOf key signer) }
        ensures { IfOk result (λ m. m ≡ record { replica = first_with config.now.value id.0 signer; rows = [] }) }
    {
        let keeper = Keeper::new(alloc, config, id, signer)?;
        Ok(Member { id, keeper })
    }

    pub(crate) fn id(&self) -> ReplicaId
        ensures { result.0 ≡ self.now.replica.me }
    {
        self.id
    }

    pub(crate) fn replica(&self) -> &Replica
        ensures { result.now ≡ self.now.replica }
    {
        self.keeper.replica()
    }

    /// Its id, and handles of its rows so far.
    pub(crate) fn record(&self, alloc: Global) -> Result<(ReplicaId, Vec<Row>), AllocError>
        ensures rows { IfOk result (λ r. r.1.items ≡ self.now.rows) }
        ensures id { IfOk result (λ r. r.0.0 ≡ self.now.replica.me) }
    {
        let mut record = Vec::new(alloc);
        for row in self.keeper.rows() {
            record.push(row.copy()?)?;
        }
        Ok((self.id, record))
    }

    /// Takes a message: the row that it gives, if it gives one.
    pub(crate) fn take(&mut self, message: &Checked) -> Result<Option<Row>, WorldFault>
        requires config { message.now.config ≡ self.old.replica.config }
        ensures steps { MemberSteps self.old (inputs.Message message.now) result self.new }
        ensures config { self.new.replica.config ≡ self.old.replica.config }
        ensures id { self.new.replica.me ≡ self.old.replica.me }
    {
        answer(self.keeper.take(message))
    }

    /// Takes a timeout: the row that it gives, if it gives one.
    pub(crate) fn timeout(&mut self) -> Result<Option<Row>, WorldFault>
        ensures steps { MemberSteps self.old inputs.Timeout result self.new }
        ensures config { self.new.replica.config ≡ self.old.replica.config }
        ensures id { self.new.replica.me ≡ self.old.replica.me }
    {
        answer(self.keeper.timeout())
    }

    /// The output of this number, over all rows.
    pub(crate) fn output(&self, number: u64) -> Option<&Output>
        ensures { option_copied result ≡ output_at self.now.rows number }
    {
        let mut left = number;
        for row in self.keeper.rows() {
            let outputs = row.outputs();
            if left < outputs.len() as u64 {
                return item_at(outputs, left);
            }
            left -= outputs.len() as u64;
        }
        None
    }

    /// What it did.
    pub(crate) fn outcome(self) -> Outcome
        ensures { facts_of result ≡ outcome_of self }
    {
        Outcome {
            id: self.id,
            halted: self.keeper.replica().status().halted,
            rows: self.keeper.into_rows(),
        }
    }
}

// What an event gives of a step.
fn answer(stepped: Result<Row, Unkept>) -> Result<Option<Row>, WorldFault>
    ensures { IsAnswerOf stepped result }
{
    match stepped {
        Ok(row) => Ok(Some(row)),
        Err(Unkept::Halted(_)) => Ok(None),
        Err(Unkept::Memory) => Err(WorldFault::Memory),
    }
}

fn item_at(outputs: &[Output], number: u64) -> Option<&Output>
    ensures { option_copied result ≡ slice_get outputs.now number }
{
    outputs.get(number as usize)
}
