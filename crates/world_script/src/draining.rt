//! The line of a message that has not come.

ghost use Rattle.std.specs.Prelude.{◌≡◌, IfOk, string_bytes};
ghost use Rattle.drained_records.specs.Coming.{output_named};
ghost use Rattle.world_script.specs.Printing.{IsDrainedLine, all_came_line, missing_line, missing_text};

use drained_records::{Missing, Output, Row, first_missing};
use host_types::ReplicaId;
use script_text::Kind;
use std::alloc::{AllocError, Global};

/// Whether each message has come that one of these replicas gave for another one, or the first that is missing. The error is that
/// memory ran out.
pub(crate) fn line_of_drained(
    alloc: Global,
    records: &[(ReplicaId, Vec<Row>)],
) -> Result<String, AllocError>
    ensures { IfOk result (λ line. IsDrainedLine records.now (string_bytes line)) }
{
    match first_missing(records) {
        None => line_of_all_came(alloc),
        Some(missing) => text_of_missing(alloc, records, &missing),
    }
}

fn line_of_all_came(alloc: Global) -> Result<String, AllocError>
    ensures { IfOk result (λ line. string_bytes line ≡ all_came_line) }
{
    String::from_str(alloc, "drained yes\n")
}

fn text_of_missing(
    alloc: Global,
    records: &[(ReplicaId, Vec<Row>)],
    missing: &Missing,
) -> Result<String, AllocError>
    ensures { IfOk result (λ text. string_bytes text ≡ missing_text missing.now (output_named records.now missing.now)) }
{
    match missing.output(records) {
        Some(output) => line_of_missing(alloc, missing, output),
        None => Ok(String::new(alloc)),
    }
}

/// A message that has not come: who gave it, to whom it has not come, its kind and its bytes.
fn line_of_missing(alloc: Global, missing: &Missing, output: &Output) -> Result<String, AllocError>
    ensures { IfOk result (λ line. string_bytes line ≡ missing_line missing.now output.now) }
{
    let from = missing.from.0;
    let to = missing.to.0;
    let kind = Kind::of(output.message.body()).name();
    let bytes = hex::encode(alloc, output.message.bytes())?;
    format!(in alloc; "drained no {from} {to} {kind} {bytes}\n")
}
