//! A watcher that notes what happens.

ghost use Rattle.std.specs.Prelude.{◌≡◌, ◌∷◌, ◌++◌, [], IfOk, OnOk, map};
ghost use Rattle.std.specs.Result.{result_err};
ghost use Rattle.std.specs.String.{string_bytes};
ghost use Rattle.seal.specs.Opening.{opening};
ghost use Rattle.world_chart.specs.Changes.{changes_from, doing};
ghost use Rattle.world_chart.specs.Happening.TheVariants as happens;
ghost use Rattle.world_script.specs.Seen as seen;
ghost use Rattle.world_trace.specs.Happenings.{Happens, HappensAt, InTurn, IsOne, IsRefused, IsRefusedFor, MayBeAccepted, MayBeRefused, cause_of, says, unqueued};
ghost use Rattle.world_trace.specs.Noting.{DoesAt, IsBlame, Notes};

use crate::cause::cause_in;
use crate::evidence::Evidence;
use crate::refusal::faulty_part;
use host_types::{ClientId, Config, ReplicaId};
use script_text::{Node, Step};
use seal::{SealFault, open};
use std::alloc::{AllocError, Global};
use std::sync::Arc;
use world_chart::{Blame, Happening, Saying, Standing, changes, saying_in};
use world_script::{Delivery, Done, Expiry, Letter, Row, Stage, Status, Watcher};

/// Notes what happens, in order.
#[derive(Drop)]
pub(crate) struct Tracer {
    alloc: Global,
    happened: Vec<Happening>,
    /// The lines of the replies that clients accepted.
    accepted: Vec<String>,
    evidence: Evidence,
}

impl Tracer {
    pub(crate) fn new(alloc: Global) -> Tracer
        ensures { result.happened.items ≡ [] }
    {
        Tracer {
            alloc,
            happened: Vec::new(alloc),
            accepted: Vec::new(alloc),
            evidence: Evidence::new(alloc),
        }
    }

    /// What has happened.
    pub(crate) fn happened(&self) -> &[Happening]
        ensures { result.now ≡ self.now.happened.items }
    {
        &self.happened
    }

    /// The lines of the replies that clients accepted meanwhile, one for each.
    pub(crate) fn accepted(&self) -> &[String]
        ensures { result.now ≡ self.now.accepted.items }
    {
        &self.accepted
    }

    /// Notes that a step begins.
    pub(crate) fn begin(
        &mut self,
        step: u32,
        line: Option<usize>,
        name: &'static str,
    ) -> Result<(), AllocError>
        ensures { OnOk result (self.new.happened.items ≡ self.old.happened.items ++ happens.Began step line name.entry ∷ []) }
    {
        self.happened.push(Happening::Began { step, line, name })?;
        Ok(())
    }

    /// Begins anew: what has happened is forgotten, but not what was said.
    pub(crate) fn clear(&mut self)
        ensures { self.new.happened.items ≡ [] }
    {
        self.happened.clear();
        self.accepted.clear();
    }

    // ---- letters

    /// Notes a letter that was handed over, and what came of it.
    fn note_delivery(&mut self, stage: &Stage, delivery: &Delivery) -> Result<(), AllocError>
        ensures { OnOk result (Notes (Happens (seen.Handed delivery.now.before delivery.now.letter delivery.now.passed delivery.now.row (string_bytes delivery.now.text) stage.now.world)) self.old.happened.items self.new.happened.items) }
    {
        self.note_handed(&delivery.letter)?;
        match delivery.letter.to() {
            Node::Replica(at) => self.note_at_replica(stage, at, delivery),
            Node::Client(client) => self.note_answer(client, &delivery.text),
        }
    }

    fn note_handed(&mut self, letter: &Letter) -> Result<(), AllocError>
        ensures { OnOk result (self.new.happened.items ≡ self.old.happened.items ++ happens.Handed letter.now.from letter.now.to (says letter.now) ∷ []) }
    {
        let (from, to) = (letter.from(), letter.to());
        let saying = self.saying_of(letter)?;
        self.happened.push(Happening::Handed { from, to, saying })?;
        Ok(())
    }

    fn note_lost(&mut self, letter: &Letter) -> Result<(), AllocError>
        ensures { OnOk result (self.new.happened.items ≡ self.old.happened.items ++ happens.Lost letter.now.from letter.now.to (says letter.now) ∷ []) }
    {
        let (from, to) = (letter.from(), letter.to());
        let saying = self.saying_of(letter)?;
        self.happened.push(Happening::Lost { from, to, saying })?;
        Ok(())
    }

    /// What a letter says.
    fn saying_of(&self, letter: &Letter) -> Result<Saying, AllocError>
        ensures { IfOk result (λ saying. saying ≡ says letter.now) }
    {
        saying_in(self.alloc, letter.kind(), letter.bytes())
    }

    /// Notes what came of a letter at a client, where this was printed.
    fn note_answer(&mut self, client: ClientId, text: &str) -> Result<(), AllocError>
        ensures { OnOk result (Notes (MayBeAccepted client text.now) self.old.happened.items self.new.happened.items) }
    {
        if text.is_empty() {
            return Ok(());
        }
        self.happened.push(Happening::Accepted { client })?;
        self.accepted.push(String::from_str(self.alloc, text)?)?;
        Ok(())
    }

    /// Notes what came of a letter at a replica.
    fn note_at_replica(
        &mut self,
        stage: &Stage,
        at: ReplicaId,
        delivery: &Delivery,
    ) -> Result<(), AllocError>
        ensures { OnOk result (Notes (InTurn (MayBeRefused at delivery.now.letter (string_bytes delivery.now.text) stage.now.world.config) (HappensAt at delivery.now.before delivery.now.row stage.now.world)) self.old.happened.items self.new.happened.items) }
    {
        self.note_refusal(stage.config(), at, &delivery.letter, &delivery.text)?;
        self.note_event(stage, at, delivery.before, &delivery.row)
    }

    /// Notes why a letter was refused, where this was printed.
    fn note_refusal(
        &mut self,
        config: &Arc<Config>,
        at: ReplicaId,
        letter: &Letter,
        text: &str,
    ) -> Result<(), AllocError>
        ensures { OnOk result (Notes (MayBeRefused at letter.now text.now config.now.value) self.old.happened.items self.new.happened.items) }
    {
        if text.is_empty() {
            return Ok(());
        }
        self.note_refused(config, at, letter)
    }

    /// Notes the fault that opening a letter finds.
    fn note_refused(
        &mut self,
        config: &Arc<Config>,
        at: ReplicaId,
        letter: &Letter,
    ) -> Result<(), AllocError>
        ensures { OnOk result (Notes (IsRefused at letter.now (opening config.now.value letter.now.bytes)) self.old.happened.items self.new.happened.items) }
    {
        match fault_of(self.alloc, config, letter.bytes())? {
            Some(fault) => self.note_fault(config, at, letter, fault),
            None => Ok(()),
        }
    }

    /// Notes that a letter was refused for this fault, and in which part.
    fn note_fault(
        &mut self,
        config: &Arc<Config>,
        at: ReplicaId,
        letter: &Letter,
        fault: SealFault,
    ) -> Result<(), AllocError>
        ensures { OnOk result (Notes (IsRefusedFor at letter.now fault) self.old.happened.items self.new.happened.items) }
    {
        let part = faulty_part(self.alloc, config, fault, letter.bytes())?;
        self.happened.push(Happening::Refused {
            at,
            from: letter.from(),
            kind: letter.kind(),
            fault,
            part,
        })?;
        Ok(())
    }

    // ---- events

    /// Notes a timer that expired, and what came of it.
    fn note_expiry(&mut self, stage: &Stage, expiry: &Expiry) -> Result<(), AllocError>
        ensures { OnOk result (Notes (Happens (seen.TimedOut expiry.now.before expiry.now.at expiry.now.row stage.now.world)) self.old.happened.items self.new.happened.items) }
    {
        self.happened.push(Happening::TimedOut { at: expiry.at })?;
        self.note_event(stage, expiry.at, expiry.before, &expiry.row)
    }

    /// Notes what an event did at a replica that stood there before, and gave this row.
    fn note_event(
        &mut self,
        stage: &Stage,
        at: ReplicaId,
        before: Option<Status>,
        row: &Option<Row>,
    ) -> Result<(), AllocError>
        ensures { OnOk result (Notes (HappensAt at before row.now stage.now.world) self.old.happened.items self.new.happened.items) }
    {
        self.note_changes(at, before, stage.world().status(at))?;
        self.note_row(at, row)
    }

    /// Notes what became of a replica's standing.
    fn note_changes(
        &mut self,
        at: ReplicaId,
        before: Option<Status>,
        after: Option<Status>,
    ) -> Result<(), AllocError>
        ensures { OnOk result (self.new.happened.items ≡ self.old.happened.items ++ changes_from at before after) }
    {
        match (before, after) {
            (Some(before), Some(after)) => {
                changes(&Standing { at, before, after }, &mut self.happened)
            }
            _ => Ok(()),
        }
    }

    /// Notes what a row did, and whom its message blames.
    fn note_row(&mut self, at: ReplicaId, row: &Option<Row>) -> Result<(), AllocError>
        ensures { OnOk result (Notes (DoesAt at row.now) self.old.happened.items self.new.happened.items) }
    {
        match row {
            Some(row) => {
                self.note_done(at, row.done())?;
                self.note_blame(row)
            }
            None => Ok(()),
        }
    }

    fn note_done(&mut self, at: ReplicaId, done: &[Done]) -> Result<(), AllocError>
        ensures { OnOk result (self.new.happened.items ≡ self.old.happened.items ++ map (doing at) done.now) }
    {
        for one in done {
            self.happened.push(happening_of(at, one))?;
        }
        Ok(())
    }

    /// Notes whom a row's message blames.
    fn note_blame(&mut self, row: &Row) -> Result<(), AllocError>
        ensures { OnOk result (Notes IsBlame self.old.happened.items self.new.happened.items) }
    {
        self.evidence.add(row)?;
        let news = self.evidence.news();
        self.note_blamed(&news)
    }

    fn note_blamed(&mut self, blamed: &[Blame]) -> Result<(), AllocError>
        ensures { OnOk result (self.new.happened.items ≡ self.old.happened.items ++ map happens.Blamed blamed.now) }
    {
        for blame in blamed {
            self.happened.push(Happening::Blamed(*blame))?;
        }
        Ok(())
    }

    // ---- what is printed

    /// Notes why a step queued nothing, where it is one that queues messages.
    fn note_cause(&mut self, stage: &Stage, step: &Step) -> Result<(), AllocError>
        ensures { OnOk result (self.new.happened.items ≡ self.old.happened.items ++ unqueued (cause_of stage.now step.now)) }
    {
        match cause_in(stage, step) {
            Some(cause) => {
                self.happened.push(Happening::Unqueued(cause))?;
                Ok(())
            }
            None => Ok(()),
        }
    }
}

/// The fault that opening bytes finds.
fn fault_of(
    alloc: Global,
    config: &Arc<Config>,
    bytes: &[u8],
) -> Result<Option<SealFault>, AllocError>
    ensures { IfOk result (λ fault. fault ≡ result_err (opening config.now.value bytes.now)) }
{
    match open(alloc, config, bytes) {
        Ok(_) => Ok(None),
        Err(SealFault::Memory) => Err(AllocError),
        Err(fault) => Ok(Some(fault)),
    }
}

/// What a replica did to its state.
fn happening_of(at: ReplicaId, done: &Done) -> Happening
    ensures { result ≡ doing at done.now }
{
    match done {
        Done::Executed { number, .. } => Happening::Executed {
            at,
            number: *number,
        },
        Done::Installed { number, .. } => Happening::Installed {
            at,
            number: *number,
        },
    }
}

impl Watcher for Tracer {
    ghost use Rattle.world_trace.specs.Telling.{AreNoted};

    ghost told = { λ t. AreNoted t.happened.items };

    fn handed(&mut self, stage: &Stage, delivery: &Delivery) -> Result<(), AllocError> {
        self.note_delivery(stage, delivery)
    }

    fn lost(&mut self, letter: &Letter) -> Result<(), AllocError> {
        self.note_lost(letter)
    }

    fn timed_out(&mut self, stage: &Stage, expiry: &Expiry) -> Result<(), AllocError> {
        self.note_expiry(stage, expiry)
    }

    fn printed(&mut self, stage: &Stage, step: &Step, _text: &str) -> Result<(), AllocError> {
        self.note_cause(stage, step)
    }
}
