//! How a replica answers a message or a timeout, and what else is read of it.

ghost use Rattle.std.specs.Prelude.{◌≡◌, ◌-◌, ◌<◌, [], Some, Ok, Err, true, false, IfErr, IfOk, OnOk};
ghost use Rattle.lms_tree.specs.Keys.{leaf_count};
ghost use Rattle.pbft_model.specs.Rows.{Received, TimedOut};
ghost use Rattle.replica_core.specs.Answering.{Answers, HasBegun, IsAtRest, IsRowOf, IsSound};
ghost use Rattle.replica_core.specs.declared.halt.Halt.TheVariants.{Memory};
ghost use Rattle.replica_core.specs.declared.row.Input.TheVariants as inputs;

use crate::halt::Halt;
use crate::kept::Core;
use crate::row::{Input, Row};
use host_types::Gate;
use seal::Checked;
use std::alloc::AllocError;
use std::thread::Threads;
use tenant_lanes::State;

impl Core {
    /// Takes a message, and does what it asks for, until nothing is due. After a halt the replica is of no
    /// use.
    pub(crate) fn answer(&mut self, message: &Checked) -> Result<Row, Halt>
        requires config { message.now.config ≡ self.old.config }
        requires reached { IsSound self.old }
        requires rest { IsAtRest self.old }
        ensures { Answers self.old (inputs.Message message.now) result self.new }
    {
        self.begin(message)?;
        self.settle()?;
        let input = Input::Message(message.copy()?);
        Ok(self.give_row(input)?)
    }

    /// Takes a message as `answer` does, and executes requests in lanes.
    pub(crate) fn answer_lanes<R: Threads + Sync, G: Gate + Sync>(
        mut self,
        rt: &R,
        message: &Checked,
        workers: u8,
        gate: &G,
    ) -> Result<(Core, Row), Halt>
        requires workers { 0 < workers }
        requires config { message.now.config ≡ self.config }
        requires reached { IsSound self }
        requires rest { IsAtRest self }
        ensures row { IfOk result (λ r. Answers self (inputs.Message message.now) (Ok r.1) r.0) }
        ensures halt { IfErr result (λ halt. Answers self (inputs.Message message.now) (Err halt) self) }
    {
        self.begin(message)?;
        let mut core = self.settle_lanes(rt, workers, gate)?;
        let row = core.give_row(Input::Message(message.copy()?))?;
        Ok((core, row))
    }

    /// Takes a timeout, and does what it asks for, until nothing is due. A halt is as at `answer`.
    pub(crate) fn answer_timeout(&mut self) -> Result<Row, Halt>
        requires reached { IsSound self.old }
        requires rest { IsAtRest self.old }
        ensures { Answers self.old inputs.Timeout result self.new }
    {
        self.begin_timeout();
        self.settle()?;
        Ok(self.give_row(Input::Timeout)?)
    }

    /// Records a message, and keeps it as the one just taken.
    fn begin(&mut self, message: &Checked) -> Result<(), Halt>
        requires config { message.now.config ≡ self.old.config }
        ensures begun { OnOk result (HasBegun self.old (Received message.now.message) self.new) }
        ensures memory { IfErr result (λ halt. halt ≡ Memory) }
    {
        let _ = message.message();
        self.record(message)?;
        let reading = self.reading_of(message)?;
        self.keep_taken(message.copy()?, reading);
        Ok(())
    }

    fn keep_taken(&mut self, message: Checked, reading: Option<State>)
        requires config { message.config ≡ self.old.config }
        ensures { self.new ≡ record self.old { core = record self.old.core { taken = Some message.message; reading = reading; is_fresh = true; timed_out = false } } }
    {
        self.step.taken = Some(message);
        self.step.reading = reading;
        self.step.is_fresh = true;
        self.step.timed_out = false;
    }

    fn begin_timeout(&mut self)
        ensures begun { HasBegun self.old TimedOut self.new }
    {
        self.step.taken = None;
        self.step.reading = None;
        self.step.is_fresh = false;
        self.step.timed_out = true;
    }

    /// Gives what was done for the input, as its row.
    fn give_row(&mut self, input: Input) -> Result<Row, AllocError>
        ensures row { IfOk result (IsRowOf self.old input) }
        ensures rest { self.new ≡ record self.old { outputs = []; done = []; leaves = 0 } }
    {
        let outputs = std::mem::replace(&mut self.step.outputs, Vec::new(self.alloc));
        let done = std::mem::replace(&mut self.step.done, Vec::new(self.alloc));
        let leaves = std::mem::replace(&mut self.step.leaves, 0);
        Row::new(self.alloc, input, outputs, done, leaves)
    }

    /// The state of the service.
    pub(crate) fn state(&self) -> &State
        ensures { result.now ≡ self.now.core.service }
    {
        &self.service
    }

    /// How many leaves have not signed.
    pub(crate) fn leaves_left(&self) -> u32
        ensures { result ≡ leaf_count self.now.core.signer - self.now.core.signer.next_leaf }
    {
        self.signer.leaves_left()
    }
}
