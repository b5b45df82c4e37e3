//! A group of replicas under events.

ghost use Rattle.std.specs.Prelude.{◌≡◌, length, map, nat_lt, IfErr, IfOk};
ghost use Rattle.std.specs.Option.{option_and_then, option_copied, option_map};
ghost use Rattle.std.specs.FinSet as set;
ghost use Rattle.host_types.specs.Configuration.{IsConfiguration, replicas_for};
ghost use Rattle.pbft_agreement.specs.Journals.{Agrees, Journals};
ghost use Rattle.seal.specs.Opening.{opening};
ghost use Rattle.pbft_model.specs.Setup.{setup_of};
ghost use Rattle.replica_journal.specs.Input.TheVariants as inputs;
ghost use Rattle.byz_world.specs.Audits.{IsAudit};
ghost use Rattle.byz_world.specs.Handing.{UnlessMemory, index_in};
ghost use Rattle.byz_world.specs.Procedures.{StaysSafe};
ghost use Rattle.byz_world.specs.Worlds.{AreListed, Comes, Delivers, Gives, Happens, IsHonestReport, IsRefused, IsReported, IsSignedBy, Runs, WorldFacts, correct_ids, facts_of, first_members, first_world, member_of, outcome_of, output_of};
ghost use Rattle.byz_world.specs.declared.event.Event.TheVariants as events;
ghost use Rattle.byz_world.specs.declared.fault.WorldFault.TheVariants as faults;

use crate::audit_fault::AuditFault;
use crate::event::Event;
use crate::fault::WorldFault;
use crate::history::History;
use crate::member::Member;
use crate::records::audit;
use crate::report::{Outcome, Report};
use host_types::{Config, ReplicaId, ReplicaSet};
use lms_tree::Signer;
use replica_journal::{Output, Row, State, Status};
use seal::{Checked, SealFault, open};
use std::alloc::{AllocError, Global};
use std::marker::Model;
use std::sync::Arc;

/// The replicas of a configuration, some of them faulty. The correct ones are run.
#[derive(Drop)]
pub struct World {
    alloc: Global,
    config: Arc<Config>,
    // The correct replicas, ids ascending.
    members: Vec<Member>,
}

impl Model for World {
    ghost use Rattle.std.specs.Coded.{codes};
    ghost use Rattle.service_model.specs.Equality.{service_code};
    ghost use Rattle.byz_world.specs.Handing.{AreMembers};
    ghost use Rattle.byz_world.specs.Worlds.{WorldFacts};

    ghost Value = { WorldFacts };

    ghost coded = { Prim.hlevel (codes, service_code) };

    ghost view = { λ w. record { config = w.config.value; members = w.members.items } };

    ghost invariant = { λ w. AreMembers w.config.value w.members.items };
}

impl World {
    /// A world before its first event. The caller owes one signer for each replica that is not faulty,
    /// ids ascending, each with the key that is listed for it. It is refused only where memory ran out.
    pub fn new(
        alloc: Global,
        config: &Arc<Config>,
        faulty: &ReplicaSet,
        signers: Vec<Signer>,
    ) -> Result<World, WorldFault>
        requires many { length signers.items ≡ length (correct_ids config.now.value (λ i. set.contains faulty.now i)) }
        requires keys { AreListed config.now.value (correct_ids config.now.value (λ i. set.contains faulty.now i)) signers.items }
        ensures world { IfOk result (λ w. w ≡ first_world config.now.value (λ i. set.contains faulty.now i) signers.items) }
        ensures legal { IsConfiguration config.now.value }
        ensures memory { IfErr result (λ fault. fault ≡ faults.Memory) }
    {
        let count = config.replica_count();
        let members = first_members(alloc, config, count, faulty, signers)?;
        let config = Arc::try_clone(config)?;
        Ok(World {
            alloc,
            config,
            members,
        })
    }

    /// Lets an event happen, and returns the row that it gave. There is none where the replica is faulty
    /// or has stopped, where it stops at this event, and where it refuses the bytes. After
    /// `NoSuchReplica` and `NoSuchOutput` the world is as it was, after `Memory` only its configuration.
    pub fn event(&mut self, event: &Event) -> Result<Option<Row>, WorldFault>
        ensures happens { Happens self.old event.now result self.new }
        ensures config { self.new.config ≡ self.old.config }
    {
        match event {
            Event::Deliver { to, bytes } => self.deliver(*to, bytes.as_slice()),
            Event::Forward { to, from, output } => self.forward(*to, *from, *output),
            Event::Timeout { at } => self.time_out(*at),
        }
    }

    /// Where a correct replica stands. It takes no memory.
    pub fn status(&self, id: ReplicaId) -> Option<Status>
        ensures { result ≡ option_map (λ m. m.replica.status) (member_of self.now id.0) }
    {
        match self.member(id) {
            Some(member) => Some(member.replica().status()),
            None => None,
        }
    }

    /// The state of a correct replica, if it has not stopped. It takes no memory.
    pub fn state(&self, id: ReplicaId) -> Option<&State>
        ensures { option_copied result ≡ option_and_then (λ m. option_map (λ s. s.service) m.replica.core) (member_of self.now id.0) }
    {
        match self.member(id) {
            Some(member) => member.replica().state(),
            None => None,
        }
    }

    /// What each correct replica did so far, ids ascending: its id, and handles of its rows. The error is that memory ran out.
    pub fn records(&self) -> Result<Vec<(ReplicaId, Vec<Row>)>, AllocError>
        ensures ids { IfOk result (λ records. map (λ r. r.0.0) records.items ≡ map (λ m. m.replica.me) self.now.members) }
        ensures rows { IfOk result (λ records. map (λ r. r.1.items) records.items ≡ map (λ m. m.rows) self.now.members) }
    {
        records_of(self.alloc, &self.members)
    }

    /// What an audit of the correct replicas' rows so far answers.
    pub fn audit(&self) -> Result<History, AuditFault>
        ensures { IsAudit (map (λ m. m.rows) self.now.members) result }
    {
        let records = self.records()?;
        audit(self.alloc, &records)
    }

    /// What the correct replicas did. It is refused only where memory ran out.
    pub fn report(self) -> Result<Report, WorldFault>
        ensures report { IfOk result (λ outcomes. outcomes ≡ map outcome_of self.members) }
        ensures memory { IfErr result (λ fault. fault ≡ faults.Memory) }
    {
        let outcomes = outcomes_of(self.alloc, self.members)?;
        Ok(Report::new(outcomes))
    }

    fn deliver(&mut self, to: ReplicaId, bytes: &[u8]) -> Result<Option<Row>, WorldFault>
        ensures given { UnlessMemory result (Gives self.old (events.Deliver to bytes.now) result self.new) }
        ensures config { self.new.config ≡ self.old.config }
    {
        if !self.has(to) {
            return Err(WorldFault::NoSuchReplica);
        }
        self.open_at(to, bytes)
    }

    /// Opens bytes that come to a replica, and hands them to it.
    fn open_at(&mut self, to: ReplicaId, bytes: &[u8]) -> Result<Option<Row>, WorldFault>
        ensures given { UnlessMemory result (Delivers self.old to.0 (opening self.old.config bytes.now) result self.new) }
        ensures config { self.new.config ≡ self.old.config }
    {
        if self.member(to).is_none() {
            return Ok(None);
        }
        match open(self.alloc, &self.config, bytes) {
            Ok(message) => self.hand(to, &message),
            Err(SealFault::Memory) => Err(WorldFault::Memory),
            Err(_) => Ok(None),
        }
    }

    fn forward(
        &mut self,
        to: ReplicaId,
        from: ReplicaId,
        number: u64,
    ) -> Result<Option<Row>, WorldFault>
        ensures given { UnlessMemory result (Gives self.old (events.Forward to from number) result self.new) }
        ensures config { self.new.config ≡ self.old.config }
    {
        if !self.has(to) || !self.has(from) {
            return Err(WorldFault::NoSuchReplica);
        }
        let Some(output) = self.output(from, number) else {
            return Err(WorldFault::NoSuchOutput);
        };
        if self.member(to).is_none() {
            return Ok(None);
        }
        let message = output.message.copy()?;
        self.open_at(to, message.bytes())
    }

    fn time_out(&mut self, at: ReplicaId) -> Result<Option<Row>, WorldFault>
        ensures given { UnlessMemory result (Gives self.old (events.Timeout at) result self.new) }
        ensures config { self.new.config ≡ self.old.config }
    {
        if !self.has(at) {
            return Err(WorldFault::NoSuchReplica);
        }
        self.hand_timeout(at)
    }

    /// Hands an opened message to a replica; a faulty one gives nothing.
    fn hand(&mut self, id: ReplicaId, message: &Checked) -> Result<Option<Row>, WorldFault>
        requires config { message.now.config ≡ self.old.config }
        ensures given { UnlessMemory result (Comes self.old id.0 (inputs.Message message.now) result self.new) }
        ensures config { self.new.config ≡ self.old.config }
    {
        let Some(index) = self.index_of(id) else {
            return Ok(None);
        };
        let member = &mut self.members[index];
        member.take(message)
    }

    /// Hands a timeout to a replica; a faulty one gives nothing.
    fn hand_timeout(&mut self, id: ReplicaId) -> Result<Option<Row>, WorldFault>
        ensures given { UnlessMemory result (Comes self.old id.0 inputs.Timeout result self.new) }
        ensures config { self.new.config ≡ self.old.config }
    {
        let Some(index) = self.index_of(id) else {
            return Ok(None);
        };
        let member = &mut self.members[index];
        member.timeout()
    }

    /// Whether the configuration has the replica.
    fn has(&self, id: ReplicaId) -> bool
        ensures { result ≡ nat_lt id.0 (replicas_for self.now.config.f) }
    {
        id.0 < self.config.replica_count()
    }

    fn index_of(&self, id: ReplicaId) -> Option<usize>
        ensures { result ≡ index_in self.now.members id.0 }
    {
        self.members.iter().position(|member| member.id() == id)
    }

    fn member(&self, id: ReplicaId) -> Option<&Member>
        ensures { option_copied result ≡ member_of self.now id.0 }
    {
        self.members.iter().find(|member| member.id() == id)
    }

    /// The output of a replica, if it is correct and has given so many.
    fn output(&self, from: ReplicaId, number: u64) -> Option<&Output>
        ensures { option_copied result ≡ output_of self.now from.0 number }
    {
        match self.member(from) {
            Some(member) => member.output(number),
            None => None,
        }
    }
}

/// The correct replicas before the first event.
fn first_members(
    alloc: Global,
    config: &Arc<Config>,
    count: u8,
    faulty: &ReplicaSet,
    signers: Vec<Signer>,
) -> Result<Vec<Member>, AllocError>
    requires count { count ≡ replicas_for config.now.value.f }
    requires keys { AreListed config.now.value (correct_ids config.now.value (λ i. set.contains faulty.now i)) signers.items }
    ensures { IfOk result (λ members. members.items ≡ first_members config.now.value (correct_ids config.now.value (λ i. set.contains faulty.now i)) signers.items) }
{
    let mut members = Vec::new(alloc);
    let mut signers = signers.into_iter();
    for id in 0..count {
        let id = ReplicaId(id);
        if !faulty.contains(id) {
            let Some(signer) = signers.next() else {
                unreachable!()
            };
            members.push(Member::new(alloc, config, id, signer)?)?;
        }
    }
    Ok(members)
}

/// The id of each correct replica, and handles of its rows.
fn records_of(alloc: Global, members: &[Member]) -> Result<Vec<(ReplicaId, Vec<Row>)>, AllocError>
    ensures ids { IfOk result (λ records. map (λ r. r.0.0) records.items ≡ map (λ m. m.replica.me) members.now) }
    ensures rows { IfOk result (λ records. map (λ r. r.1.items) records.items ≡ map (λ m. m.rows) members.now) }
{
    let mut records = Vec::new(alloc);
    for member in members {
        records.push(member.record(alloc)?)?;
    }
    Ok(records)
}

/// What each correct replica did.
fn outcomes_of(alloc: Global, members: Vec<Member>) -> Result<Vec<Outcome>, AllocError>
    ensures { IfOk result (λ outcomes. map facts_of outcomes.items ≡ map outcome_of members.items) }
{
    let mut outcomes = Vec::new(alloc);
    for member in members {
        outcomes.push(member.outcome())?;
    }
    Ok(outcomes)
}

/// What the correct replicas do under these events, one after another. The signers are owed as to
/// `World::new`; the faults are those of `World::event`.
pub fn run_world(
    alloc: Global,
    config: &Arc<Config>,
    faulty: &ReplicaSet,
    signers: Vec<Signer>,
    events: &[Event],
) -> Result<Report, WorldFault>
    requires many { length signers.items ≡ length (correct_ids config.now.value (λ i. set.contains faulty.now i)) }
    requires keys { AreListed config.now.value (correct_ids config.now.value (λ i. set.contains faulty.now i)) signers.items }
    ensures report { IfOk result (λ outcomes. (t : WorldFacts) × Runs (first_world config.now.value (λ i. set.contains faulty.now i) signers.items) events.now t
        × (outcomes ≡ map outcome_of t.members)) }
    ensures refused { IfErr result (IsRefused (first_world config.now.value (λ i. set.contains faulty.now i) signers.items) events.now) }

    // Where at most f are faulty, nobody forged and no digests collided, one list of requests accounts for all that the report says.
    ensures agrees { IfOk result (λ outcomes. (j : Journals) → IsReported (λ i. set.contains faulty.now i) outcomes j
        → IsSignedBy (correct_ids config.now.value (λ i. set.contains faulty.now i)) signers.items j
        → IsHonestReport (setup_of config.now.value) j → Agrees (setup_of config.now.value) j) }

    // Whoever is faulty and whatever was forged, no procedure can go wrong that a correct replica has installed at any point.
    ensures safe { IfOk result (λ outcomes. (j : Journals) → IsReported (λ i. set.contains faulty.now i) outcomes j
        → IsSignedBy (correct_ids config.now.value (λ i. set.contains faulty.now i)) signers.items j
        → StaysSafe (setup_of config.now.value) j) }
{
    let mut world = World::new(alloc, config, faulty, signers)?;
    for event in events {
        world.event(event)?;
    }
    world.report()
}
