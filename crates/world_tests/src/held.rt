//! Calls that repeat contracts of script_text which no proof above it uses: a clause that says less fails here.

ghost use Rattle.std.specs.Prelude.{◌≡◌, ◌≤◌, IfErr, IfOk};
ghost use Rattle.script_text.specs.FileUses.{uses_in};
ghost use Rattle.script_text.specs.Scripts.{IsScriptUnlessMemory, document, script_for, steps_listed};

use script_text::{
    Dialect, FileUse, NamedFile, Script, ScriptFault, files_named_in, read_script_with,
};
use std::alloc::{AllocError, Global};

/// The script that a text is, with these files.
pub fn script_with(
    alloc: Global,
    dialect: Dialect,
    files: &[NamedFile],
    bytes: &[u8],
) -> Result<Script, ScriptFault>
    ensures value { IsScriptUnlessMemory result (script_for dialect files.now bytes.now) }
    ensures listed { IfErr result (λ fault. fault.step ≤ steps_listed (document bytes.now)) }
{
    read_script_with(alloc, dialect, files, bytes)
}

/// The files that a text names.
pub fn files_in(alloc: Global, bytes: &[u8]) -> Result<Vec<FileUse>, AllocError>
    ensures { IfOk result (λ uses. uses.items ≡ uses_in (document bytes.now)) }
{
    files_named_in(alloc, bytes)
}
