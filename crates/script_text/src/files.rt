//! The files that a script names, and the code in them.

ghost use Rattle.std.specs.Prelude.{◌≡◌, ◌==◌, IfOk, bytes_eq};
ghost use Rattle.std.specs.List.{list_any};
ghost use Rattle.std.specs.Option.{option_copied};
ghost use Rattle.script_values.specs.Faults.{IsUnlessMemory};
ghost use Rattle.script_text.specs.Files.{code_in, code_named, file_named, has_assembler, has_digits, is_code_name, is_plain};

use host_types::Bytes;
use script_values::{AssemblerText, Form, HexBytes, ScriptBytes, TableFault, is_among};
use std::alloc::{AllocError, Global};
use std::marker::Model;
use toml::Value;

/// The most bytes of a file that a script names.
pub const MAX_FILE: usize = 1_048_576;

/// The name of a file, as a script gives it.
#[derive(Debug, Drop)]
pub struct FileName {
    text: String,
}

impl Model for FileName {
    ghost use Rattle.std.specs.Prelude.{ℕ, List, string_bytes};

    ghost Value = { List ℕ };

    ghost view = { λ n. string_bytes n.text };
}

impl FileName {
    /// The name that this text is. The error is that memory ran out.
    pub fn new(alloc: Global, text: &str) -> Result<FileName, AllocError>
        ensures { IfOk result (λ n. n ≡ text.now) }
    {
        Ok(FileName {
            text: String::from_str(alloc, text)?,
        })
    }

    /// The name as a text.
    pub fn as_str(&self) -> &str
        ensures { result.now ≡ self.now }
    {
        self.text.as_str()
    }
}

/// A file that a script may name, as it was read.
#[derive(Debug, Drop)]
pub struct NamedFile {
    pub name: FileName,
    pub bytes: Bytes,
}

/// The name of one of these files, as the code in it.
#[derive(Clone, Copy)]
pub(crate) struct FileCode<'a> {
    pub files: &'a [NamedFile],
}

impl<'a> Form for FileCode<'a> {
    ghost use Rattle.script_text.specs.Files.{file_code};

    ghost reads = { λ f d. file_code f.files.now d };

    type Says = ScriptBytes;

    fn read(&self, alloc: Global, value: &Value) -> Result<ScriptBytes, TableFault> {
        let Some(name) = value.as_str() else {
            return Err(TableFault::WrongValue);
        };
        code_named(alloc, self.files, name)
    }
}

/// The code in the file of this name.
fn code_named(alloc: Global, files: &[NamedFile], name: &str) -> Result<ScriptBytes, TableFault>
    ensures { IsUnlessMemory result (code_named files.now name.now) }
{
    if !is_plain(name) {
        return Err(TableFault::WrongValue);
    }
    match file_named(files, name) {
        Some(file) => code_in(alloc, file),
        None => Err(TableFault::WrongValue),
    }
}

/// The first file of this name.
fn file_named<'a>(files: &'a [NamedFile], name: &str) -> Option<&'a NamedFile>
    ensures { option_copied result ≡ file_named files.now name.now }
{
    files.iter().find(|file| has_name(file, name))
}

/// Whether a file has this name.
fn has_name(file: &NamedFile, name: &str) -> bool
    ensures { result ≡ bytes_eq file.now.name name.now }
{
    file.name.as_str() == name
}

/// The code in a file, by the ending of its name.
fn code_in(alloc: Global, file: &NamedFile) -> Result<ScriptBytes, TableFault>
    ensures { IsUnlessMemory result (code_in file.now) }
{
    let bytes = file.bytes.as_slice();
    if bytes.len() > MAX_FILE {
        return Err(TableFault::WrongValue);
    }
    if has_digits(file.name.as_str()) {
        HexBytes::decode(alloc, bytes)
    } else if has_assembler(file.name.as_str()) {
        AssemblerText::code(alloc, bytes)
    } else {
        Err(TableFault::WrongValue)
    }
}

/// Whether a script may give this name to a file: a plain one that ends in `.hex` or `.asm`.
pub fn is_code_name(name: &str) -> bool
    ensures { result ≡ is_code_name name.now }
{
    is_plain(name) && (has_digits(name) || has_assembler(name))
}

/// Whether a name leads into no other folder.
fn is_plain(name: &str) -> bool
    ensures { result ≡ is_plain name.now }
{
    !has_slash(name.as_bytes()) && !is_among(&["", ".", ".."], name)
}

fn has_slash(name: &[u8]) -> bool
    ensures { result ≡ list_any (λ b. b == 47) name.now }
{
    name.iter().any(|byte| *byte == b'/')
}

/// Whether the file of this name has hex digits.
fn has_digits(name: &str) -> bool
    ensures { result ≡ has_digits name.now }
{
    name.as_bytes().ends_with(b".hex")
}

/// Whether the file of this name has an assembler text.
fn has_assembler(name: &str) -> bool
    ensures { result ≡ has_assembler name.now }
{
    name.as_bytes().ends_with(b".asm")
}
