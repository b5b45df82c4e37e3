//! Events as text: a table of what happens in a world, and what it answers.
//!
//!     request a to 0   => pre-prepare
//!     give 0.1 to 2    => reply, executed 1
//!     timeout 1        => view-change
//!     bytes to 0       => no row
//!     stands 2         => view 0 active low 0 executed 1
//!
//! `give 0.1 to 2` forwards output 1 of replica 0 to replica 2; `bytes` are no message. On the right: the
//! kinds of the row's messages and what it did, or the fault. `stands` is no event: it reports a status.

use crate::group::Group;
use crate::rows::answer_text;
use host_types::{Bytes, ReplicaId};
use std::test::Fail;
use world_script::{Event, World};

fn halves<'a>(text: &'a str, between: &str) -> Result<(&'a str, &'a str), Fail> {
    match text.split_once(between) {
        Some(halves) => Ok(halves),
        None => Err(Fail::new("half a text")),
    }
}

fn replica(text: &str) -> Result<ReplicaId, Fail> {
    Ok(ReplicaId(text.parse()?))
}

impl Group {
    /// Lets the events of a script happen. It fails with the first line that the world answers otherwise, and the answer.
    pub fn play(&self, world: &mut World, script: &str) -> Result<(), Fail> {
        for line in script.lines() {
            if !line.trim().is_empty() {
                let (given, expected) = halves(line, "=>")?;
                let answer = self.answer(world, given.trim())?;
                if answer.as_str() != expected.trim() {
                    return Err(format!(in self.alloc; "{line}: {answer}")?.into());
                }
            }
        }
        Ok(())
    }

    /// The events of a script.
    pub fn events(&self, script: &str) -> Result<Vec<Event>, Fail> {
        let mut events = Vec::new(self.alloc);
        for line in script.lines() {
            let line = line.trim();
            if !line.is_empty() && !line.starts_with("stands") {
                let (given, _) = halves(line, "=>")?;
                events.push(self.event(given.trim())?)?;
            }
        }
        Ok(events)
    }

    fn answer(&self, world: &mut World, given: &str) -> Result<String, Fail> {
        match given.strip_prefix("stands ") {
            Some(id) => self.stands(world, replica(id)?),
            None => answer_text(self.alloc, &world.event(&self.event(given)?)),
        }
    }

    fn stands(&self, world: &World, id: ReplicaId) -> Result<String, Fail> {
        let Some(status) = world.status(id) else {
            return Ok(format!(in self.alloc; "no replica")?);
        };
        let (view, low, executed) = (status.view.0, status.low.0, status.executed.0);
        let active = if status.active { "active" } else { "changing" };
        Ok(format!(in self.alloc; "view {view} {active} low {low} executed {executed}")?)
    }

    fn event(&self, given: &str) -> Result<Event, Fail> {
        if let Some(at) = given.strip_prefix("timeout ") {
            return Ok(Event::Timeout { at: replica(at)? });
        }
        let (what, to) = halves(given, " to ")?;
        let to = replica(to)?;
        if let Some(output) = what.strip_prefix("give ") {
            let (from, output) = halves(output, ".")?;
            return Ok(Event::Forward {
                to,
                from: replica(from)?,
                output: output.parse()?,
            });
        }
        let bytes = self.delivered(what)?;
        Ok(Event::Deliver { to, bytes })
    }

    fn delivered(&self, what: &str) -> Result<Bytes, Fail> {
        match what.strip_prefix("request ") {
            Some(name) => self.request(name),
            None => Ok(Bytes::from_vec(Vec::from_slice(self.alloc, what.as_bytes())?)),
        }
    }
}
