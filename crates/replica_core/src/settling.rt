//! How a replica does what is due, one duty after another.

ghost use Rattle.std.specs.Prelude.{◌≡◌, ◌<◌, ◌^◌, Some, true, IfErr, IfOk, OnOk};
ghost use Rattle.host_types.specs.Configuration.{IsConfiguration};
ghost use Rattle.pbft_model.specs.Duties.{due};
ghost use Rattle.pbft_model.specs.Setup.{setup_of};
ghost use Rattle.replica_core.specs.Batching.{IsExecuting};
ghost use Rattle.replica_core.specs.Doing.{Performs};
ghost use Rattle.replica_core.specs.Meanings.{IsDue};
ghost use Rattle.replica_core.specs.Replicas.{AreNumbered};
ghost use Rattle.replica_core.specs.Settling.{Advances, Comes, HaltsAfter, IsHaltedAt, IsReached, Settles};

use crate::duties::Duty;
use crate::halt::Halt;
use crate::kept::Core;
use host_types::Gate;
use std::thread::Threads;

impl Core {
    /// Does what is due, one duty after another, until nothing is.
    pub(crate) fn settle(&mut self) -> Result<(), Halt>
        requires reached { IsReached (setup_of self.old.config) self.old.me self.old.core }
        ensures settled { OnOk result (Settles self.old self.new) }
        ensures halted { IfErr result (HaltsAfter self.old) }
    {
        while let Some(duty) = self.due() {
            self.numbers();
            self.act(duty)?;
        }
        Ok(())
    }

    /// Does what is due, one duty after another, until nothing is: requests that can be executed together
    /// are, those of different tenants at the same time in at most so many lanes as workers.
    pub(crate) fn settle_lanes<R: Threads + Sync, G: Gate + Sync>(
        self,
        rt: &R,
        workers: u8,
        gate: &G,
    ) -> Result<Core, Halt>
        requires workers { 0 < workers }
        requires reached { IsReached (setup_of self.config) self.me self.core }
        ensures settled { IfOk result (Settles self) }
        ensures halted { IfErr result (HaltsAfter self) }
    {
        let mut core = self;
        while let Some(duty) = core.due() {
            core = core.act_lanes(rt, duty, workers, gate)?;
        }
        Ok(core)
    }

    /// Does what is due, or executes all that can be executed together.
    fn act_lanes<R: Threads + Sync, G: Gate + Sync>(
        self,
        rt: &R,
        duty: Duty,
        workers: u8,
        gate: &G,
    ) -> Result<Core, Halt>
        requires workers { 0 < workers }
        requires due { IsDue (setup_of self.config) self.me self.core (Some duty) }
        requires reached { IsReached (setup_of self.config) self.me self.core }
        ensures done { IfOk result (Comes self) }
        ensures halted { IfErr result (HaltsAfter self) }
    {
        if self.executes(duty) {
            return self.execute_batch(rt, workers, gate);
        }
        let mut core = self;
        core.numbers();
        core.act(duty)?;
        Ok(core)
    }

    /// Whether to execute is what is due.
    fn executes(&self, duty: Duty) -> bool
        requires due { IsDue (setup_of self.now.config) self.now.me self.now.core (Some duty) }
        ensures { result ≡ true → IsExecuting (setup_of self.now.config) self.now.me self.now.core }
    {
        matches!(duty, Duty::Execute(_, _))
    }

    /// Does what is due.
    pub(crate) fn act(&mut self, duty: Duty) -> Result<(), Halt>
        requires due { IsDue (setup_of self.old.config) self.old.me self.old.core (Some duty) }
        requires reached { IsReached (setup_of self.old.config) self.old.me self.old.core }
        ensures done { OnOk result (Advances self.old self.new) }
        ensures halted { IfErr result (IsHaltedAt (setup_of self.old.config) self.old.me self.old.core) }
    {
        self.fulfil(duty)?;
        self.note_act();
        let _ = self.signer.leaves_left();
        Ok(())
    }

    // The act of a duty.
    fn fulfil(&mut self, duty: Duty) -> Result<(), Halt>
        requires due { IsDue (setup_of self.old.config) self.old.me self.old.core (Some duty) }
        requires reached { IsReached (setup_of self.old.config) self.old.me self.old.core }
        ensures done { OnOk result (Performs self.old (due (setup_of self.old.config) self.old.me self.old.core) self.new) }
        ensures halted { IfErr result (IsHaltedAt (setup_of self.old.config) self.old.me self.old.core) }
    {
        self.numbers();
        match duty {
            Duty::ChangeTo(view) => self.change_to(view),
            Duty::Reply => self.send_reply(),
            Duty::Checkpoint => self.send_checkpoint(),
            Duty::AnswerAgain(client) => self.answer_again(client),
            Duty::Relay(digest, asker) => self.relay(&digest, asker),
            Duty::Supply(number, asker) => self.send_snapshot(number, asker),
            Duty::Enter => self.enter_taken(),
            Duty::Install => self.install(),
            Duty::Rise(number, digest) => {
                self.rise(number, digest);
                Ok(())
            }
            Duty::Propose(number, digest) => self.send_pre_prepare(number, digest),
            Duty::Prepare(number, digest) => self.send_prepare(number, digest),
            Duty::Commit(number, digest) => self.send_commit(number, digest),
            Duty::Execute(number, digest) => self.execute(number, digest),
            Duty::Open => self.open_view(),
            Duty::FetchState(number) => self.fetch_state(number),
            Duty::FetchRequest(digest) => self.fetch_request(digest),
            Duty::WornOut => Err(Halt::Worn),
        }
    }
    // What the parts know of numbers: those of recorded PrePrepares are sequence numbers, and the view is
    // of 32 bits.
    pub(crate) fn numbers(&self)
        ensures numbered { AreNumbered self.now.core }
        ensures legal { IsConfiguration self.now.config }
        ensures viewed { self.now.core.view < 2 ^ 32 }
    {
        let _ = self.log.low();
        let _ = self.view();
    }
}
