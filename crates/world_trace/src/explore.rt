//! A script under many orders of its deliveries.

ghost use Rattle.std.specs.Prelude.{◌≡◌, [], IfOk, string_bytes};
ghost use Rattle.script_text.specs.Orders.{named_in, ordered, ordered_step, step_in};
ghost use Rattle.world_script.specs.Keys.{keys_of};
ghost use Rattle.world_script.specs.Starts.{start_of};
ghost use Rattle.world_trace.specs.Exploring.{IsOutcome};
ghost use Rattle.world_trace.specs.Searching.{IsUnder, Judges, StepExplored, differing_in};
ghost use Rattle.world_trace.specs.Shrinking.{drawn_for};

use crate::evidence::Evidence;
use crate::in_memory::run_in_memory;
use host_types::ClientId;
use pbft_codec::Sequence;
use script_text::{DeliveryOrder, Filter, NamedStep, Script, ScriptFault, ScriptKind, Step};
use std::alloc::{AllocError, Global};
use std::mem::replace;
use world_chart::{Blame, Claim};
use world_script::{
    AuditFault, Delivery, Expiry, KeySources, Letter, Played, Row, RunFault, Stage, Unwatched,
    Watcher, differing_line,
};

/// The seeds from the first on, without the last.
#[derive(Clone, Copy, Debug, PartialEq, Eq)]
pub struct Seeds {
    pub first: u64,
    pub end: u64,
}

/// What is to hold behind a script's steps.
#[derive(Clone, Copy, Debug, PartialEq, Eq)]
pub enum Wanted {
    /// The rows of the correct replicas agree.
    Agreement,
    /// They agree, and no client's request is open.
    Answers,
}

/// What came of a script under one order of its deliveries.
#[derive(Clone, Copy, Debug, PartialEq, Eq)]
pub enum Outcome {
    /// All its steps ran, and what is wanted holds.
    Agreed,
    /// All its steps ran, and the rows don't agree.
    Audited(AuditFault),
    /// All its steps ran, and the rows agree; this client, the first as the script lists them, has an open request, of this
    /// time.
    Unanswered { client: ClientId, time: u64 },
    /// The `expect` of this step found other lines; of its own, or behind them, this is the first that differs.
    Unexpected { step: u32, line: usize },
    /// It ended early.
    Faulted(ScriptFault),
}

/// What came of a script under one order, and whom signatures blame.
#[derive(Drop)]
pub struct Explored {
    pub outcome: Outcome,
    /// Of two claims that contradict each other the one with the lower digest stands first.
    pub blamed: Vec<Blame>,
    /// What was printed since the last `expect`, where one found other lines.
    pub printed: Vec<u8>,
}

/// Runs a script with all its deliveries in the order that a seed draws, their chances kept, and sees whether what is wanted holds
/// then. The keys are its head's, which were made before. The error is that memory ran out.
pub fn explore_seed(
    alloc: Global,
    script: &Script,
    sources: &KeySources,
    seed: u64,
    wanted: Wanted,
) -> Result<Explored, AllocError>
    requires { sources.now ≡ keys_of script.now.head }
    ensures { IfOk result (λ explored. IsOutcome (ordered seed script.now) wanted explored.outcome) }
{
    let mut explorer = Explorer::new(alloc, Stage::with_keys(alloc, &script.head, sources)?);
    let outcome = explorer.outcome(script, seed, wanted)?;
    explorer.explored(outcome)
}

/// A script that is run under an order of its deliveries.
#[derive(Drop)]
pub(crate) struct Explorer {
    alloc: Global,
    pub(crate) stage: Stage,
    /// What was printed since the last `expect`.
    unread: String,
    listener: Listener,
}

impl Explorer {
    pub(crate) fn new(alloc: Global, stage: Stage) -> Explorer
        ensures stage { result.stage ≡ stage }
        ensures unread { string_bytes result.unread ≡ [] }
    {
        Explorer {
            alloc,
            stage,
            unread: String::new(alloc),
            listener: Listener {
                evidence: Evidence::new(alloc),
                passed: Vec::new(alloc),
            },
        }
    }

    /// Runs the script from the stage of its head on. What came of it.
    fn outcome(&mut self, script: &Script, seed: u64, wanted: Wanted) -> Result<Outcome, AllocError>
        requires stage { self.old.stage ≡ start_of script.now.head }
        requires unread { string_bytes self.old.unread ≡ [] }
        ensures { IfOk result (IsOutcome (ordered seed script.now) wanted) }
    {
        let mut number: u32 = 0;
        for step in script.steps.as_slice() {
            number = number.saturating_add(1);
            if let Some(outcome) = self.step(number, step, order_under(seed, &step.step))? {
                return Ok(outcome);
            }
        }
        outcome_of(&self.stage, wanted)
    }

    /// Runs a step, its deliveries in this order. How the script ends there, if it does.
    pub(crate) fn step(
        &mut self,
        number: u32,
        step: &NamedStep,
        order: DeliveryOrder,
    ) -> Result<Option<Outcome>, AllocError>
        ensures { IfOk result (λ outcome. StepExplored number (record { stage = self.old.stage; unread = string_bytes self.old.unread }) (named_in order step.now) outcome (record { stage = self.new.stage; unread = string_bytes self.new.unread })) }
    {
        match under(self.alloc, step, order)? {
            Some(ordered) => self.run(number, &ordered),
            None => self.run(number, step),
        }
    }

    /// Runs a step as it stands.
    fn run(&mut self, number: u32, step: &NamedStep) -> Result<Option<Outcome>, AllocError>
        ensures { IfOk result (λ outcome. StepExplored number (record { stage = self.old.stage; unread = string_bytes self.old.unread }) step.now outcome (record { stage = self.new.stage; unread = string_bytes self.new.unread })) }
    {
        if let Some(line) = differing(&self.unread, &step.step) {
            return Ok(Some(Outcome::Unexpected { step: number, line }));
        }
        let mut printed: Vec<u8> = Vec::new(self.alloc);
        let ended = run_in_memory(
            &mut self.stage,
            &mut self.unread,
            number,
            step,
            &mut printed,
            &mut Unwatched,
            &mut self.listener,
        );
        match ended {
            Ok(_) => Ok(None),
            Err(RunFault::TooManyDeliveries) => {
                let kind = ScriptKind::TooManyDeliveries;
                Ok(Some(Outcome::Faulted(ScriptFault { kind, step: number })))
            }
            Err(RunFault::Memory | RunFault::Write) => Err(AllocError),
        }
    }

    /// How many letters were passed over at each letter that was handed over, at most 65,536 of them, since this was last asked.
    /// Each `deliver` has an order that is drawn or chosen here.
    pub(crate) fn take_passed(&mut self) -> Vec<u64>
        ensures stage { self.new.stage ≡ self.old.stage }
        ensures unread { string_bytes self.new.unread ≡ string_bytes self.old.unread }
    {
        replace(&mut self.listener.passed, Vec::new(self.alloc))
    }

    /// What came of the script, which ended so, and what was heard.
    fn explored(&mut self, outcome: Outcome) -> Result<Explored, AllocError>
        ensures { IfOk result (λ explored. explored.outcome ≡ outcome) }
    {
        let printed = match outcome {
            Outcome::Unexpected { .. } => Vec::from_slice(self.alloc, self.unread.as_bytes())?,
            _ => Vec::new(self.alloc),
        };
        Ok(Explored {
            outcome,
            blamed: in_order(self.alloc, &self.listener.evidence.news())?,
            printed,
        })
    }
}

/// The first line in which an `expect` finds other lines than were printed since the last one.
fn differing(unread: &str, step: &Step) -> Option<usize>
    ensures { result ≡ differing_in unread.now step.now }
{
    match step {
        Step::Expect(expected) => differing_line(expected.as_slice(), unread.as_bytes()),
        _ => None,
    }
}

/// The order of a step's deliveries under a seed.
pub(crate) fn order_under(seed: u64, step: &Step) -> DeliveryOrder
    ensures step { step_in result step.now ≡ ordered_step seed step.now }
    ensures order { result ≡ drawn_for seed step.now }
{
    match step {
        Step::Deliver { order, .. } => order.under(seed),
        _ => DeliveryOrder::Drawn(seed),
    }
}

/// A step that delivers, with its deliveries in this order; none where it delivers nothing.
fn under(
    alloc: Global,
    step: &NamedStep,
    order: DeliveryOrder,
) -> Result<Option<NamedStep>, AllocError>
    ensures { IfOk result (IsUnder order step.now) }
{
    let Step::Deliver { filter, .. } = &step.step else {
        return Ok(None);
    };
    let name = match &step.name {
        Some(name) => Some(name.try_clone(alloc)?),
        None => None,
    };
    let step = Step::Deliver {
        filter: copy_of(alloc, filter)?,
        order,
    };
    Ok(Some(NamedStep { name, step }))
}

fn copy_of(alloc: Global, filter: &Filter) -> Result<Filter, AllocError>
    ensures { IfOk result (λ copy. copy ≡ filter.now) }
{
    Ok(Filter {
        from: copy_of_list(alloc, &filter.from)?,
        to: copy_of_list(alloc, &filter.to)?,
        kinds: copy_of_list(alloc, &filter.kinds)?,
    })
}

fn copy_of_list<T: Copy>(
    alloc: Global,
    list: &Option<Sequence<T>>,
) -> Result<Option<Sequence<T>>, AllocError>
    ensures { IfOk result (λ copy. copy ≡ list.now) }
{
    match list {
        Some(list) => Ok(Some(Sequence::from_vec(Vec::from_slice(alloc, list.as_slice())?))),
        None => Ok(None),
    }
}

/// What has come of a script whose steps ran to this stage.
pub(crate) fn outcome_of(stage: &Stage, wanted: Wanted) -> Result<Outcome, AllocError>
    ensures { IfOk result (Judges wanted stage.now) }
{
    match stage.world().audit() {
        Ok(_) => {}
        Err(AuditFault::Memory) => return Err(AllocError),
        Err(fault) => return Ok(Outcome::Audited(fault)),
    }
    match (wanted, stage.first_open()) {
        (Wanted::Answers, Some((client, time))) => Ok(Outcome::Unanswered { client, time }),
        _ => Ok(Outcome::Agreed),
    }
}

/// Each pair of claims with the lower digest first.
fn in_order(alloc: Global, news: &[Blame]) -> Result<Vec<Blame>, AllocError> {
    let mut ordered = Vec::new(alloc);
    for blame in news {
        ordered.push(match blame {
            Blame::Twice { one, other } => lower_first(one, other),
            _ => *blame,
        })?;
    }
    Ok(ordered)
}

fn lower_first(one: &Claim, other: &Claim) -> Blame {
    let (first, second) = if one.digest.0 <= other.digest.0 {
        (*one, *other)
    } else {
        (*other, *one)
    };
    Blame::Twice {
        one: first,
        other: second,
    }
}

/// The most choices that are kept: a script takes no more in one step.
const MAX_CHOICES: usize = 65_536;

/// A watcher that only listens to what messages say, and which of them are delivered.
#[derive(Drop)]
struct Listener {
    evidence: Evidence,
    /// How many letters were passed over at each of the first deliveries.
    passed: Vec<u64>,
}

impl Listener {
    fn listen(&mut self, row: &Option<Row>) -> Result<(), AllocError> {
        match row {
            Some(row) => self.evidence.add(row),
            None => Ok(()),
        }
    }
}

impl Watcher for Listener {
    ghost told = { λ _ _. Unit {0} };

    fn handed(&mut self, _stage: &Stage, delivery: &Delivery) -> Result<(), AllocError> {
        if self.passed.len() < MAX_CHOICES {
            self.passed.push(delivery.passed as u64)?;
        }
        self.listen(&delivery.row)
    }

    fn lost(&mut self, _letter: &Letter) -> Result<(), AllocError> {
        Ok(())
    }

    fn timed_out(&mut self, _stage: &Stage, expiry: &Expiry) -> Result<(), AllocError> {
        self.listen(&expiry.row)
    }

    fn printed(&mut self, _stage: &Stage, _step: &Step, _text: &str) -> Result<(), AllocError> {
        Ok(())
    }
}
