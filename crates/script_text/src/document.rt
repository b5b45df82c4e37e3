//! A script from its text.

ghost use Rattle.std.specs.Prelude.{◌≡◌, ◌≤◌, ◌⊎◌, ◌++◌, ◌∷◌, [], None, Ok, Some, IfErr, MatchResult, OnOk, Result};
ghost use Rattle.std.specs.Option.{option_map};
ghost use Rattle.toml.specs.Parse.{parse_document};
ghost use Rattle.toml.specs.View.{items_view, table_view};
ghost use Rattle.script_values.specs.Faults.{IsUnlessMemory, at_head};
ghost use Rattle.script_values.specs.declared.fault.TableFault.{TableFault};
ghost use Rattle.script_values.specs.declared.fault.ScriptKind.TheVariants.{Memory, NotToml};
ghost use Rattle.script_text.specs.declared.script.NamedStep.{NamedStep as StepSaid};
ghost use Rattle.script_text.specs.Scripts.{IsScriptUnlessMemory, count_in, document, items_in, listed_steps, next_step, script_for, script_in, script_of, steps_from, steps_in, steps_listed, thread_script_of, with_step};

use crate::dialect::Dialect;
use crate::files::NamedFile;
use crate::head::{Head, read_head};
use crate::script::{NamedStep, Script};
use crate::step_keys::read_step;
use pbft_codec::Sequence;
use script_values::{ScriptFault, ScriptKind, TableFault, value_at};
use std::alloc::{AllocError, Global};
use toml::{Table, Value};

/// The most bytes of a script.
pub const MAX_SCRIPT: usize = 1_048_576;

/// The script that a text is. Of several faults that of the least step is reported, the head being step
/// 0, and of those of one step the one of least number; a text of more than 1,048,576 bytes is
/// `TooLong`, whatever is in it. A request that names a file is a `WrongValue`, since the text is all that is read. `Memory` may
/// come instead of any of these, at step 0 or at a step that is listed.
pub fn read_script(alloc: Global, bytes: &[u8]) -> Result<Script, ScriptFault>
    ensures value { IsScriptUnlessMemory result (script_of bytes.now) }
    ensures listed { IfErr result (λ fault. fault.step ≤ steps_listed (document bytes.now)) }
{
    read_script_with(alloc, Dialect::World, &[], bytes)
}

/// The script for running threads that a text is: its steps are requests without `to` and timeouts, and
/// `faulty` is left out or empty; all else is `WrongValue`. The faults are otherwise those of `read_script`.
pub fn read_thread_script(alloc: Global, bytes: &[u8]) -> Result<Script, ScriptFault>
    ensures value { IsScriptUnlessMemory result (thread_script_of bytes.now) }
    ensures listed { IfErr result (λ fault. fault.step ≤ steps_listed (document bytes.now)) }
{
    read_script_with(alloc, Dialect::Threads, &[], bytes)
}

/// The script that a text is in a dialect, where its requests may name these files; of two of one name the first counts. A
/// request is a `WrongValue` where its file is not among them, has a name that is not plain or ends in neither `.hex` nor `.asm`,
/// has more than 1,048,576 bytes, or is no code. The faults are otherwise those of `read_script` and `read_thread_script`.
pub fn read_script_with(
    alloc: Global,
    dialect: Dialect,
    files: &[NamedFile],
    bytes: &[u8],
) -> Result<Script, ScriptFault>
    ensures value { IsScriptUnlessMemory result (script_for dialect files.now bytes.now) }
    ensures listed { IfErr result (λ fault. fault.step ≤ steps_listed (document bytes.now)) }
{
    if bytes.len() > MAX_SCRIPT {
        return Err(ScriptFault::at_head(ScriptKind::TooLong));
    }
    let table = read_document(alloc, bytes)?;
    read_table(alloc, dialect, files, &table)
}

/// The script that a document is.
fn read_table(
    alloc: Global,
    dialect: Dialect,
    files: &[NamedFile],
    table: &Table,
) -> Result<Script, ScriptFault>
    ensures value { IsScriptUnlessMemory result (script_in dialect files.now (Some (table_view table.now))) }
    ensures listed { IfErr result (λ fault. fault.step ≤ steps_listed (Some (table_view table.now))) }
{
    let head = match read_head(alloc, dialect, table) {
        Ok(head) => head,
        Err(fault) => return Err(fault.at_step(0)),
    };
    let steps = read_steps(alloc, dialect, files, &head, table)?;
    Ok(Script {
        head,
        steps: Sequence::from_vec(steps),
    })
}

/// The document that a text is.
#[tactic(auto, using(crate::proofs::Documents::document_of_text, crate::proofs::Documents::document_of_others))]
pub(crate) fn read_document(alloc: Global, bytes: &[u8]) -> Result<Table, ScriptFault>
    ensures head { IfErr result (λ fault. fault.step ≡ 0) }
    ensures value { MatchResult result (λ table. document bytes.now ≡ Some (table_view table)) (λ fault. (fault.kind ≡ Memory) ⊎ ((document bytes.now ≡ None) × (fault ≡ at_head NotToml))) }
{
    match str::from_utf8(bytes) {
        Ok(text) => parsed(alloc, text),
        Err(_) => Err(ScriptFault::at_head(ScriptKind::NotToml)),
    }
}

fn parsed(alloc: Global, text: &str) -> Result<Table, ScriptFault>
    ensures head { IfErr result (λ fault. fault.step ≡ 0) }
    ensures value { MatchResult result (λ table. parse_document text.now ≡ Some (table_view table)) (λ fault. (fault.kind ≡ Memory) ⊎ ((parse_document text.now ≡ None) × (fault ≡ at_head NotToml))) }
{
    match toml::table_from_str(alloc, text) {
        Ok(table) => Ok(table),
        Err(error) if error.is_memory() => Err(ScriptFault::at_head(ScriptKind::Memory)),
        Err(_) => Err(ScriptFault::at_head(ScriptKind::NotToml)),
    }
}

/// The steps of a document, none of which has a fault.
fn read_steps(
    alloc: Global,
    dialect: Dialect,
    files: &[NamedFile],
    head: &Head,
    table: &Table,
) -> Result<Vec<NamedStep>, ScriptFault>
    ensures value { IsScriptUnlessMemory (items_in result) (steps_in dialect files.now head.now (listed_steps (table_view table.now))) }
    ensures listed { IfErr result (λ fault. fault.step ≤ steps_listed (Some (table_view table.now))) }
{
    match listed_steps(table) {
        Some(values) => read_each_step(alloc, dialect, files, head, values),
        None => Ok(Vec::new(alloc)),
    }
}

/// The values of a document's steps.
pub(crate) fn listed_steps(table: &Table) -> Option<&Vec<Value>>
    ensures { option_map (λ values. items_view values.now.items) result ≡ listed_steps (table_view table.now) }
{
    value_at(table, "step")?.as_array()
}

#[tactic(auto, using(crate::proofs::Counting::counted, crate::proofs::Counting::next_within))]
fn read_each_step(
    alloc: Global,
    dialect: Dialect,
    files: &[NamedFile],
    head: &Head,
    values: &[Value],
) -> Result<Vec<NamedStep>, ScriptFault>
    ensures value { IsScriptUnlessMemory (items_in result) (steps_from dialect files.now head.now 0 (Ok []) (items_view values.now)) }
    ensures listed { IfErr result (λ fault. fault.step ≤ count_in (items_view values.now)) }
{
    let mut steps = Vec::new(alloc);
    let mut number = 0;
    for value in values {
        number = next_step(number);
        let step = read_step(alloc, dialect, files, head, &steps, value);
        steps = with_step(steps, number, step)?;
    }
    Ok(steps)
}

/// The number behind a step's; the last of 32 bits stays.
pub(crate) fn next_step(number: u32) -> u32
    ensures { result ≡ next_step number }
{
    number.saturating_add(1)
}

/// Steps with one more, of this number.
fn with_step(
    mut steps: Vec<NamedStep>,
    number: u32,
    step: Result<NamedStep, TableFault>,
) -> Result<Vec<NamedStep>, ScriptFault>
    ensures value { (s : Result StepSaid TableFault) → IsUnlessMemory step s → IsScriptUnlessMemory (items_in result) (with_step steps.items number s) }
    ensures at { IfErr result (λ fault. fault.step ≡ number) }
{
    match step {
        Ok(step) => match add_step(&mut steps, step) {
            Ok(()) => Ok(steps),
            Err(_) => Err(TableFault::Memory.at_step(number)),
        },
        Err(fault) => Err(fault.at_step(number)),
    }
}

/// Adds a step.
fn add_step(steps: &mut Vec<NamedStep>, step: NamedStep) -> Result<(), AllocError>
    ensures { OnOk result (steps.new.items ≡ steps.old.items ++ step ∷ []) }
{
    Ok(steps.push(step)?)
}
