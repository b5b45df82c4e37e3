//! Scenarios as text: a table of what happens to one replica and what it does for that.
//!
//!     request b         => pre-prepare 0/1 b to all; leaves 1
//!     1 prepare 0/1 b   => leaves 0
//!     timeout           => view-change 1 low 0 to all; leaves 1
//!     stands            => view 1 changing low 0 executed 0 left 30 state s0
//!
//! On the left: the client's request of a name, a replica's message behind who sends it, a timeout, `echo`
//! (the messages of the last row come back to the replica) or `stands` (nothing happens). On the right:
//! the row, or where the replica stands. A proposal is view, number and the name of its digest. Blank
//! lines and those that begin with `#` say nothing.

use crate::messages::halves;
use crate::scene::Scene;
use std::alloc::Global;
use std::test::Fail;

/// What happens to one replica, whose signer has so many leaves left, and what it does for that.
pub struct Scenario {
    pub replica: u8,
    pub leaves: u32,
    pub lines: &'static str,
}

/// Lets scenarios happen, each to a replica of its own. It fails with the first line that a replica
/// answers otherwise, and the answer.
pub fn play_all(alloc: Global, scenarios: &[Scenario]) -> Result<(), Fail> {
    play_each(&mut Scene::new(alloc)?, scenarios)
}

fn play_each(scene: &mut Scene, scenarios: &[Scenario]) -> Result<(), Fail> {
    for scenario in scenarios {
        scene.play(scenario)?;
    }
    Ok(())
}

impl Scene {
    fn play(&mut self, scenario: &Scenario) -> Result<(), Fail> {
        self.begin(scenario.replica, scenario.leaves)?;
        for line in scenario.lines.lines() {
            let line = line.trim();
            if !line.is_empty() && !line.starts_with('#') {
                self.line(line)?;
            }
        }
        Ok(())
    }

    fn line(&mut self, line: &str) -> Result<(), Fail> {
        let (given, expected) = halves(line, "=>")?;
        let answer = self.step(given.trim())?;
        if answer.as_str() == expected.trim() {
            return Ok(());
        }
        Err(format!(in self.alloc; "{line}: {answer}")?.into())
    }

    // What the replica does for the left side of a line.
    fn step(&mut self, given: &str) -> Result<String, Fail> {
        match given {
            "timeout" => self.timeout(),
            "echo" => self.echo(),
            "stands" => self.stands(),
            _ => self.receive(given),
        }
    }

    fn receive(&mut self, given: &str) -> Result<String, Fail> {
        let (from, said) = halves(given, " ")?;
        let message = if from == "request" {
            self.request(said)?
        } else {
            let body = self.body(said)?;
            self.say(from.parse::<u8>()?, body)?
        };
        self.take(&message)
    }
}
