//! What happened as a chart.

ghost use Rattle.std.specs.Prelude.{◌≡◌, IfOk, string_bytes};
ghost use Rattle.world_chart.specs.Charts.{Draws, diagram_of};

use crate::lanes::Lanes;
use crate::mermaid::mermaid;
use crate::picture::picture;
use crate::rows::{Row, rows_of};
use std::alloc::{AllocError, Global};
use world_lines::Happening;

/// What happened, as a chart of messages.
#[derive(Drop)]
pub struct Chart {
    lanes: Lanes,
    rows: Vec<Row>,
}

impl Chart {
    /// The chart of what happened, each thing once and in order, and of the lines that clients printed: one for each reply that was accepted, in order.
    /// More than 100 messages are folded: those that follow one another with nothing between them but accepted replies stand
    /// in one row, with what was accepted.
    pub fn new(
        alloc: Global,
        lanes: Lanes,
        happened: &[Happening],
        accepted: &[String],
    ) -> Result<Chart, AllocError>
        ensures { IfOk result (λ chart. Draws chart happened.now) }
    {
        let rows = rows_of(alloc, &lanes, happened, accepted)?;
        Ok(Chart { lanes, rows })
    }

    /// The chart as a sequence diagram of Mermaid.
    pub fn mermaid(&self, alloc: Global) -> Result<String, AllocError>
        ensures { IfOk result (λ text. string_bytes text ≡ diagram_of self.now) }
    {
        mermaid(alloc, self.lanes.names(), &self.rows)
    }

    /// The chart as a picture, an SVG that stands on its own.
    pub fn svg(&self, alloc: Global) -> Result<String, AllocError> {
        picture(alloc, self.lanes.names(), &self.rows)
    }
}
