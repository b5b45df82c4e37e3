//! Which files a text names, before it is read as a script.

ghost use Rattle.std.specs.Prelude.{◌≡◌, [], IfOk, OnOk, Some, option_and_then};
ghost use Rattle.std.specs.Option.{option_copied};
ghost use Rattle.toml.specs.Data.{as_table};
ghost use Rattle.toml.specs.View.{items_view, table_view, view};
ghost use Rattle.script_text.specs.FileUses.{asked_in, text_at, uses_from, uses_in, with_use};
ghost use Rattle.script_text.specs.Scripts.{document};

use crate::document::{listed_steps, next_step, read_document};
use crate::files::{FileName, is_code_name};
use script_values::{ScriptKind, value_at};
use std::alloc::{AllocError, Global};
use toml::{Table, Value};

/// A file that a step names.
#[derive(Debug, Drop)]
pub struct FileUse {
    /// The number of the step, counted from 1.
    pub step: u32,
    pub name: FileName,
}

/// The files that the requests of a text name, by their steps, a file once for each: who runs the script reads them first. A
/// name that is not plain, or ends in neither `.hex` nor `.asm`, is none; a text that is no document names none. The error is
/// that memory ran out.
pub fn files_named_in(alloc: Global, bytes: &[u8]) -> Result<Vec<FileUse>, AllocError>
    ensures { IfOk result (λ uses. uses.items ≡ uses_in (document bytes.now)) }
{
    match read_document(alloc, bytes) {
        Ok(table) => uses_in(alloc, &table),
        Err(fault) if fault.kind == ScriptKind::Memory => Err(AllocError),
        Err(_) => Ok(Vec::new(alloc)),
    }
}

/// Those of a document.
fn uses_in(alloc: Global, table: &Table) -> Result<Vec<FileUse>, AllocError>
    ensures { IfOk result (λ uses. uses.items ≡ uses_in (Some (table_view table.now))) }
{
    match listed_steps(table) {
        Some(values) => uses_of(alloc, values),
        None => Ok(Vec::new(alloc)),
    }
}

/// Those of its steps.
fn uses_of(alloc: Global, values: &[Value]) -> Result<Vec<FileUse>, AllocError>
    ensures { IfOk result (λ uses. uses.items ≡ uses_from 0 [] (items_view values.now)) }
{
    let mut uses = Vec::new(alloc);
    let mut number = 0;
    for value in values {
        number = next_step(number);
        add_use(alloc, &mut uses, number, value)?;
    }
    Ok(uses)
}

/// Adds the file that a step names, if it names one.
fn add_use(
    alloc: Global,
    uses: &mut Vec<FileUse>,
    step: u32,
    value: &Value,
) -> Result<(), AllocError>
    ensures { OnOk result (uses.new.items ≡ with_use step (option_and_then asked_in (as_table (view value.now))) uses.old.items) }
{
    match asked_by(value) {
        Some(name) if is_code_name(name) => {
            let name = FileName::new(alloc, name)?;
            uses.push(FileUse { step, name })?;
            Ok(())
        }
        _ => Ok(()),
    }
}

/// The file that a step names.
fn asked_by(value: &Value) -> Option<&str>
    ensures { option_copied result ≡ option_and_then asked_in (as_table (view value.now)) }
{
    asked_in(value.as_table()?)
}

/// The file that a request names.
fn asked_in(table: &Table) -> Option<&str>
    ensures { option_copied result ≡ asked_in (table_view table.now) }
{
    match text_at(table, "do") {
        Some("request") => text_at(table, "file"),
        _ => None,
    }
}

/// The text at a key.
fn text_at<'a>(table: &'a Table, key: &str) -> Option<&'a str>
    ensures { option_copied result ≡ text_at key.now (table_view table.now) }
{
    value_at(table, key)?.as_str()
}
