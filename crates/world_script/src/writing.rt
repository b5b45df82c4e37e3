//! Text on its way to a writer.

ghost use Rattle.std.specs.Prelude.{◌≡◌, IfErr, OnErr, OnOk};
ghost use Rattle.std.specs.Io.KnownBytes.{Appends};
ghost use Rattle.world_script.specs.declared.fault.RunFault.TheVariants.{Write as write_failed};
ghost use Rattle.world_script.specs.Scripts.{fault_line};
ghost use Rattle.world_script.specs.Writing.{AppendsFront};

use crate::fault::RunFault;
use itoa::Buffer;
use script_text::ScriptFault;
use std::io::{ErrorKind, Write};

/// Writes text whole. A write that was interrupted is tried again. Where one fails, or takes nothing, the
/// writer has the first bytes of the text, and some are left.
pub fn write_text<O: Write>(writer: &mut O, text: &str) -> Result<(), RunFault>
    ensures whole { OnOk result (Appends (O.contents writer.old) (O.contents writer.new) text.now) }
    ensures front { OnErr result (AppendsFront (O.contents writer.old) (O.contents writer.new) text.now) }
    ensures fault { IfErr result (λ fault. fault ≡ write_failed) }
{
    write_bytes(writer, text.as_bytes())
}

/// Writes bytes whole, as `write_text` writes text.
pub fn write_bytes<O: Write>(writer: &mut O, bytes: &[u8]) -> Result<(), RunFault>
    ensures whole { OnOk result (Appends (O.contents writer.old) (O.contents writer.new) bytes.now) }
    ensures front { OnErr result (AppendsFront (O.contents writer.old) (O.contents writer.new) bytes.now) }
    ensures fault { IfErr result (λ fault. fault ≡ write_failed) }
{
    let mut at = 0;
    for _ in 0..u64::MAX {
        if at == bytes.len() {
            return Ok(());
        }
        match writer.write(&bytes[at..]) {
            Ok(0) => return Err(RunFault::Write),
            Ok(count) => at += count,
            Err(error) => {
                if error.kind() != ErrorKind::Interrupted {
                    return Err(RunFault::Write);
                }
            }
        }
    }
    if at == bytes.len() {
        return Ok(());
    }
    Err(RunFault::Write)
}

/// Writes the line of a fault, without memory, as `write_text` writes text.
pub(crate) fn write_fault<O: Write>(writer: &mut O, fault: ScriptFault) -> Result<(), RunFault>
    ensures whole { OnOk result (Appends (O.contents writer.old) (O.contents writer.new) (fault_line fault)) }
    ensures front { OnErr result (AppendsFront (O.contents writer.old) (O.contents writer.new) (fault_line fault)) }
{
    let mut number = Buffer::new();
    let mut step = Buffer::new();
    write_text(writer, "script fault ")?;
    write_text(writer, number.format(fault.kind.number()))?;
    write_text(writer, " ")?;
    write_text(writer, fault.kind.name())?;
    write_text(writer, " step ")?;
    write_text(writer, step.format(fault.step))?;
    write_text(writer, "\n")
}
