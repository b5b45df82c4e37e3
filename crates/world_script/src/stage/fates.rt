//! What becomes of the deliveries of a step.

ghost use Rattle.std.specs.Prelude.{◌≡◌, ◌<◌, IfOk, string_bytes};
ghost use Rattle.host_types.specs.Configuration.{replicas_for};
ghost use Rattle.world_queue.specs.Draws.{IsWithin};
ghost use Rattle.world_queue.specs.Letters.{meant_count};
ghost use Rattle.world_queue.specs.declared.fates.Fate.TheVariants as fates;
ghost use Rattle.world_script.specs.Parts.{IsLeft, TellsFate};

use crate::stage::Stage;
use crate::watcher::Watcher;
use host_types::ReplicaId;
use script_text::Filter;
use std::alloc::AllocError;
use world_queue::{Fate, Letter};

impl Stage {
    /// How many replicas there are.
    pub(super) fn replica_count(&self) -> u8
        ensures value { result ≡ replicas_for self.now.world.config.f }
        ensures some { 0 < result }
    {
        self.config.replica_count()
    }

    /// Does what becomes of a delivery, and tells of it. What is printed.
    pub(super) fn befall(
        &mut self,
        filter: &Filter,
        fate: Fate,
        watcher: &mut dyn Watcher,
    ) -> Result<String, AllocError>
        requires { IsWithin (meant_count filter.now self.old.queue) fate }
        ensures { IfOk result (λ text. TellsFate fate filter.now self.old (string_bytes text) self.new (told watcher.old) (told watcher.new)) }
    {
        match fate {
            Fate::Handed(passed) => self.deliver_at(filter, passed, watcher),
            Fate::Lost(passed) => self.lose_at(filter, passed, watcher),
            Fate::Repeated(passed) => self.repeat_at(filter, passed, watcher),
            Fate::TimedOut(at) => self.be_late(filter, at, watcher),
        }
    }

    /// Takes the letter out that is meant and has so many before it that are.
    fn take_meant(&mut self, filter: &Filter, passed: usize) -> Letter
        requires { passed < meant_count filter.now self.old.queue }
        ensures { IsLeft filter.now passed self.old result self.new }
    {
        match self.queue.take_meant(filter, passed) {
            Some(letter) => letter,
            None => unreachable!(),
        }
    }

    /// Delivers the letter that is meant and has so many before it that are. What is printed.
    fn deliver_at(
        &mut self,
        filter: &Filter,
        passed: usize,
        watcher: &mut dyn Watcher,
    ) -> Result<String, AllocError>
        requires { passed < meant_count filter.now self.old.queue }
        ensures { IfOk result (λ text. TellsFate (fates.Handed passed) filter.now self.old (string_bytes text) self.new (told watcher.old) (told watcher.new)) }
    {
        let letter = self.take_meant(filter, passed);
        self.hand_over(letter, passed, watcher)
    }

    /// Loses that letter, and tells of it. What is printed, which is nothing.
    fn lose_at(
        &mut self,
        filter: &Filter,
        passed: usize,
        watcher: &mut dyn Watcher,
    ) -> Result<String, AllocError>
        requires { passed < meant_count filter.now self.old.queue }
        ensures { IfOk result (λ text. TellsFate (fates.Lost passed) filter.now self.old (string_bytes text) self.new (told watcher.old) (told watcher.new)) }
    {
        let letter = self.take_meant(filter, passed);
        watcher.lost(&letter)?;
        Ok(String::new(self.alloc))
    }

    /// Queues that letter again, last, and hands a copy of it over. What is printed.
    fn repeat_at(
        &mut self,
        filter: &Filter,
        passed: usize,
        watcher: &mut dyn Watcher,
    ) -> Result<String, AllocError>
        requires { passed < meant_count filter.now self.old.queue }
        ensures { IfOk result (λ text. TellsFate (fates.Repeated passed) filter.now self.old (string_bytes text) self.new (told watcher.old) (told watcher.new)) }
    {
        let letter = self.take_meant(filter, passed);
        self.queue.send(&letter, &[letter.to()])?;
        self.hand_over(letter, passed, watcher)
    }

    /// Lets a replica time out while letters that are meant wait. What is printed, which is nothing.
    fn be_late(
        &mut self,
        filter: &Filter,
        at: ReplicaId,
        watcher: &mut dyn Watcher,
    ) -> Result<String, AllocError>
        requires { 0 < meant_count filter.now self.old.queue }
        ensures { IfOk result (λ text. TellsFate (fates.TimedOut at) filter.now self.old (string_bytes text) self.new (told watcher.old) (told watcher.new)) }
    {
        self.time_out_at(at, watcher)?;
        Ok(String::new(self.alloc))
    }
}
