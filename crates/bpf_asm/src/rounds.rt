//! The two rounds over a text's lines.

ghost use Rattle.std.specs.Prelude.{◌≡◌, ◌+◌, ◌⊎◌, IfOk, IfErr, MatchResult, Ok, Err, Some, None, length, find, [], ◌-ℤ◌, pos};
ghost use Rattle.std.specs.Option.{option_map};
ghost use Rattle.std.specs.Str.{bytes_eq};
ghost use Rattle.bpf_decode.specs.Encoding.{insn_slots};
ghost use Rattle.bpf_asm.specs.declared.fault.AsmKind.TheVariants.{Memory};
ghost use Rattle.bpf_asm.specs.Assembly.{assembly, first_fault, code_from, aimed};
ghost use Rattle.bpf_asm.specs.Operands.{◌>>?◌};
ghost use Rattle.bpf_asm.specs.Rounds.{texts, table_slot, IsTable};

use crate::fault::{AsmFault, AsmKind};
use crate::line::{Statement, defined_name, read_line, target_name};
use crate::text::text_lines;
use bpf_decode::Insn;
use std::alloc::Global;

/// A label and its slot.
#[derive(Clone, Copy, Debug)]
pub struct Label<'a> {
    name: &'a [u8],
    slot: u64,
}

/// Reads an assembler text, or reports its first fault: of the first round over the lines words,
/// operands, numbers and labels that are defined twice; only if it finds none, of the second labels
/// that aren't defined or stand too far away. `Memory` says that memory ran out, and nothing of the text.
pub fn assemble(alloc: Global, text: &[u8]) -> Result<Vec<Insn>, AsmFault>
    ensures found { IfOk result (λ code. assembly text.now ≡ Ok code.items) }
    ensures refused { IfErr result (λ fault.
        (fault.kind ≡ Memory) ⊎ (assembly text.now ≡ Err fault)) }
{
    let lines = text_lines(alloc, text)?;
    let labels = find_labels(alloc, &lines)?;
    write_code(alloc, &lines, &labels)
}

/// The first round: the labels, or the first fault.
fn find_labels<'a>(alloc: Global, lines: &[&'a [u8]]) -> Result<Vec<Label<'a>>, AsmFault>
    ensures none { IfOk result (λ labels. first_fault [] (texts lines.now) ≡ None) }
    ensures table { IfOk result (λ labels. IsTable labels.items (texts lines.now)) }
    ensures refused { IfErr result (λ fault.
        (fault.kind ≡ Memory) ⊎ (first_fault [] (texts lines.now) ≡ Some fault)) }
{
    let mut labels = Vec::new(alloc);
    let mut slot = 0;
    let mut number: u32 = 0;
    for line in lines {
        number = number.saturating_add(1);
        let statement = match read_line(line) {
            Ok(statement) => statement,
            Err(kind) => return Err(AsmFault { kind, line: number }),
        };
        match statement {
            Statement::Blank => {}
            Statement::Label => {
                if let Some(name) = defined_name(line) {
                    if find_label(&labels, name).is_some() {
                        return Err(AsmFault {
                            kind: AsmKind::Label,
                            line: number,
                        });
                    }
                    labels.push(Label { name, slot })?;
                }
            }
            Statement::Insn(insn) => slot = behind(slot, &insn)?,
            Statement::Aimed(insn) => slot = behind(slot, &insn)?,
        }
    }
    Ok(labels)
}

/// The slot behind an instruction. Code of 2^64 slots fits no memory.
fn behind(slot: u64, insn: &Insn) -> Result<u64, AsmFault>
    ensures { MatchResult result (λ next. next ≡ slot + length (insn_slots insn.now))
        (λ fault. fault.kind ≡ Memory) }
{
    let slots = match insn {
        Insn::LoadImm { .. } => 2,
        _ => 1,
    };
    match slot.checked_add(slots) {
        Some(next) => Ok(next),
        None => Err(AsmFault {
            kind: AsmKind::Memory,
            line: 0,
        }),
    }
}

/// The slot of a label.
#[tactic(auto, using(crate::proofs::Stepping::stepping))]
fn find_label(labels: &[Label<'_>], name: &[u8]) -> Option<u64>
    ensures { result ≡ table_slot name.now labels.now }
{
    for label in labels {
        if label.name == name {
            return Some(label.slot);
        }
    }
    None
}

/// The second round: the instructions, or the first target that is no label or too far away.
fn write_code(alloc: Global, lines: &[&[u8]], labels: &[Label<'_>]) -> Result<Vec<Insn>, AsmFault>
    requires { IsTable labels.now (texts lines.now) }
    ensures found { IfOk result (λ code. code_from (texts lines.now) [] (texts lines.now) ≡ Ok code.items) }
    ensures refused { IfErr result (λ fault. (fault.kind ≡ Memory)
        ⊎ (code_from (texts lines.now) [] (texts lines.now) ≡ Err fault)) }
{
    let mut code = Vec::new(alloc);
    let mut slot = 0;
    let mut number: u32 = 0;
    for line in lines {
        number = number.saturating_add(1);
        let Ok(statement) = read_line(line) else {
            continue;
        };
        match statement {
            Statement::Blank => {}
            Statement::Label => {}
            Statement::Insn(insn) => {
                slot = behind(slot, &insn)?;
                code.push(insn)?;
            }
            Statement::Aimed(insn) => {
                slot = behind(slot, &insn)?;
                match aim(labels, target_name(line), insn, slot) {
                    Some(insn) => code.push(insn)?,
                    None => return Err(AsmFault {
                        kind: AsmKind::Label,
                        line: number,
                    }),
                }
            }
        }
    }
    Ok(code)
}

/// The instruction, ended at a slot, with its target at a label.
fn aim(labels: &[Label<'_>], name: &[u8], insn: Insn, slot: u64) -> Option<Insn>
    ensures { result ≡ (table_slot name.now labels.now >>? (λ at. aimed insn (pos at -ℤ pos slot))) }
{
    let at = find_label(labels, name)?;
    aimed(insn, i128::from(at) - i128::from(slot))
}

/// A jump or a call with its offset, if the field holds it.
fn aimed(insn: Insn, distance: i128) -> Option<Insn>
    ensures { result ≡ aimed insn distance }
{
    match insn {
        Insn::Jump { .. } => {
            let offset = i16::try_from(distance).ok()?;
            Some(Insn::Jump { offset })
        }
        Insn::JumpLong { .. } => {
            let offset = i32::try_from(distance).ok()?;
            Some(Insn::JumpLong { offset })
        }
        Insn::CallLocal { .. } => {
            let offset = i32::try_from(distance).ok()?;
            Some(Insn::CallLocal { offset })
        }
        Insn::Test {
            narrow,
            test,
            dst,
            src,
            ..
        } => {
            let offset = i16::try_from(distance).ok()?;
            Some(Insn::Test {
                narrow,
                test,
                dst,
                src,
                offset,
            })
        }
        _ => None,
    }
}
