//! Code as an assembler text.

use crate::fault::TableFault;
use crate::form::Form;
use crate::said::ScriptBytes;
use crate::values::MAX_HEX_BYTES;
use bpf_asm::{AsmKind, assemble};
use bpf_decode::encode_all;
use host_types::Bytes;
use std::alloc::Global;
use toml::Value;

/// An assembler text that is code, of no more bytes than hex digits give.
#[derive(Clone, Copy)]
pub struct AssemblerText;

impl Form for AssemblerText {
    ghost use Rattle.script_values.specs.Forms.{assembler_text};

    ghost reads = { λ _ d. assembler_text d };

    type Says = ScriptBytes;

    fn read(&self, alloc: Global, value: &Value) -> Result<ScriptBytes, TableFault> {
        match value.as_str() {
            Some(text) => AssemblerText::code(alloc, text.as_bytes()),
            None => Err(TableFault::WrongValue),
        }
    }
}

impl AssemblerText {
    ghost use Rattle.script_values.specs.Faults.{IsUnlessMemory};
    ghost use Rattle.script_values.specs.Forms.{assembler_code};

    /// The code of an assembler text: `WrongValue` where it is none, or has more than 524,288 bytes. `Memory` may come instead.
    pub fn code(alloc: Global, text: &[u8]) -> Result<ScriptBytes, TableFault>
        ensures { IsUnlessMemory result (assembler_code text.now) }
    {
        match assemble(alloc, text) {
            Ok(code) => {
                let bytes = encode_all(alloc, &code)?;
                if bytes.len() <= MAX_HEX_BYTES {
                    Ok(ScriptBytes::new(Bytes::from_vec(bytes)))
                } else {
                    Err(TableFault::WrongValue)
                }
            }
            Err(fault) => match fault.kind {
                AsmKind::Memory => Err(TableFault::Memory),
                _ => Err(TableFault::WrongValue),
            },
        }
    }
}
