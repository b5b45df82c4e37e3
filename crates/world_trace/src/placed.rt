//! A script, and where its steps stand in its text.

ghost use Rattle.std.specs.Prelude.{◌≡◌, ◌<◌};
ghost use Rattle.script_text.specs.Orders.{ordered};
ghost use Rattle.world_trace.specs.Traces.{place_in};

use script_text::{Script, lines_of_steps};
use std::alloc::{AllocError, Global};

/// A script that was read, and the lines of its text on which its steps begin.
#[derive(Drop)]
pub struct PlacedScript {
    pub script: Script,
    /// None where they can't be told.
    lines: Vec<usize>,
}

impl PlacedScript {
    /// A script and its text. The error is that memory ran out.
    pub fn new(alloc: Global, script: Script, text: &[u8]) -> Result<PlacedScript, AllocError> {
        let lines = match str::from_utf8(text) {
            Ok(text) => lines_of_steps(alloc, text, script.steps.as_slice().len())?,
            Err(_) => Vec::new(alloc),
        };
        Ok(PlacedScript { script, lines })
    }

    /// The script under a seed, whose steps stand where they stood.
    pub fn ordered(self, seed: u64) -> PlacedScript
        ensures script { result.script ≡ ordered seed self.script }
        ensures places { result.lines ≡ self.lines }
    {
        let PlacedScript { script, lines } = self;
        PlacedScript {
            script: script.ordered(seed),
            lines,
        }
    }

    /// The line on which the step of this number begins, where it is known.
    pub(crate) fn line_of(&self, number: u32) -> Option<usize>
        requires { 0 < number }
        ensures { result ≡ place_in self.now.lines.items number }
    {
        let index = number as usize - 1;
        self.lines.get(index).copied()
    }
}
