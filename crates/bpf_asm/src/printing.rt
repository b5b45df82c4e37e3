//! The text of instructions.

ghost use Rattle.std.specs.Prelude.{◌≡◌, ◌++◌, [], ◌∷◌, IfOk, OnOk};
ghost use Rattle.std.specs.String.{string_bytes};
ghost use Rattle.std.specs.Fmt.{decimal, signed_decimal};
ghost use Rattle.bpf_asm.specs.Operands.{register_text};
ghost use Rattle.bpf_asm.specs.Printing.{printed, ended_line, source_text, with_sign, memory_operand_text, behind_word_text, operands_of, alu_operands};

use crate::form::Form;
use bpf_decode::{Insn, Reg, Source};
use bpf_num::AluOp;
use std::alloc::{AllocError, Global};

/// The text of instructions: a line for each, ended by LF. Numbers are in decimal, targets have a
/// sign, and memory operands their offset. It is refused only where memory ran out.
pub fn print(alloc: Global, code: &[Insn]) -> Result<String, AllocError>
    ensures { IfOk result (λ text. string_bytes text ≡ printed code.now) }
{
    let mut text = String::new(alloc);
    for insn in code {
        push_line(alloc, &mut text, insn)?;
    }
    Ok(text)
}

fn push_line(alloc: Global, text: &mut String, insn: &Insn) -> Result<(), AllocError>
    ensures { OnOk result (string_bytes text.new ≡ string_bytes text.old ++ ended_line insn.now) }
{
    text.push_str(Form::of(insn).word())?;
    push_operands(alloc, text, *insn)?;
    text.push('\n')
}

fn push_operands(alloc: Global, text: &mut String, insn: Insn) -> Result<(), AllocError>
    ensures { OnOk result (string_bytes text.new ≡ string_bytes text.old ++ behind_word_text (operands_of insn)) }
{
    match insn {
        Insn::Alu { op, dst, src, .. } => push_alu(alloc, text, op, dst, src),
        Insn::Swap { dst, .. } => push_register(text, " ", dst),
        Insn::LoadImm { dst, value } => {
            push_register(text, " ", dst)?;
            push_wide_immediate(alloc, text, value)
        }
        Insn::Load {
            dst,
            base,
            offset,
            ..
        } => push_load(alloc, text, dst, base, offset),
        Insn::StoreImm {
            base,
            offset,
            imm,
            ..
        } => push_store_number(alloc, text, base, offset, imm),
        Insn::Store {
            base,
            offset,
            src,
            ..
        } => push_store(alloc, text, base, offset, src),
        Insn::Jump { offset } => push_target(alloc, text, " ", i32::from(offset)),
        Insn::JumpLong { offset } => push_target(alloc, text, " ", offset),
        Insn::CallLocal { offset } => push_target(alloc, text, " ", offset),
        Insn::Test {
            dst,
            src,
            offset,
            ..
        } => push_test(alloc, text, dst, src, offset),
        Insn::CallHelper { helper } => push_number(alloc, text, " ", helper),
        Insn::Exit => Ok(()),
    }
}

fn push_load(
    alloc: Global,
    text: &mut String,
    dst: Reg,
    base: Reg,
    offset: i16,
) -> Result<(), AllocError>
    ensures { OnOk result (string_bytes text.new ≡ string_bytes text.old ++ behind_word_text (register_text dst ∷ memory_operand_text base offset ∷ [])) }
{
    push_register(text, " ", dst)?;
    push_memory_operand(alloc, text, ", ", base, offset)
}

fn push_store_number(
    alloc: Global,
    text: &mut String,
    base: Reg,
    offset: i16,
    imm: i32,
) -> Result<(), AllocError>
    ensures { OnOk result (string_bytes text.new ≡ string_bytes text.old ++ behind_word_text (memory_operand_text base offset ∷ signed_decimal imm ∷ [])) }
{
    push_memory_operand(alloc, text, " ", base, offset)?;
    push_number(alloc, text, ", ", imm)
}

fn push_store(
    alloc: Global,
    text: &mut String,
    base: Reg,
    offset: i16,
    src: Reg,
) -> Result<(), AllocError>
    ensures { OnOk result (string_bytes text.new ≡ string_bytes text.old ++ behind_word_text (memory_operand_text base offset ∷ register_text src ∷ [])) }
{
    push_memory_operand(alloc, text, " ", base, offset)?;
    push_register(text, ", ", src)
}

fn push_test(
    alloc: Global,
    text: &mut String,
    dst: Reg,
    src: Source,
    offset: i16,
) -> Result<(), AllocError>
    ensures { OnOk result (string_bytes text.new ≡ string_bytes text.old ++ behind_word_text (register_text dst ∷ source_text src ∷ with_sign offset ∷ [])) }
{
    push_register(text, " ", dst)?;
    push_source(alloc, text, src)?;
    push_target(alloc, text, ", ", i32::from(offset))
}

fn push_alu(
    alloc: Global,
    text: &mut String,
    op: AluOp,
    dst: Reg,
    src: Source,
) -> Result<(), AllocError>
    ensures { OnOk result (string_bytes text.new ≡ string_bytes text.old ++ behind_word_text (alu_operands op dst src)) }
{
    push_register(text, " ", dst)?;
    match op {
        AluOp::Neg => Ok(()),
        _ => push_source(alloc, text, src),
    }
}

/// Adds `between` and a register.
fn push_register(text: &mut String, between: &str, reg: Reg) -> Result<(), AllocError>
    ensures { OnOk result (string_bytes text.new ≡ string_bytes text.old ++ (between.now ++ register_text reg)) }
{
    text.push_str(between)?;
    if reg.number < 10 {
        text.push('r')?;
        text.push(char::from(b'0' + reg.number))
    } else {
        text.push_str("r10")
    }
}

/// Adds a comma and the second operand of arithmetic or a test.
fn push_source(alloc: Global, text: &mut String, src: Source) -> Result<(), AllocError>
    ensures { OnOk result (string_bytes text.new ≡ string_bytes text.old ++ (44 ∷ 32 ∷ source_text src)) }
{
    match src {
        Source::Imm(value) => push_number(alloc, text, ", ", value),
        Source::Reg(reg) => push_register(text, ", ", reg),
    }
}

/// Adds `between` and a number.
fn push_number(
    alloc: Global,
    text: &mut String,
    between: &str,
    value: i32,
) -> Result<(), AllocError>
    ensures { OnOk result (string_bytes text.new ≡ string_bytes text.old ++ (between.now ++ signed_decimal value)) }
{
    text.push_str(between)?;
    let digits = value.to_string(alloc)?;
    text.push_str(&digits)
}

/// Adds a comma and a wide immediate.
fn push_wide_immediate(alloc: Global, text: &mut String, value: u64) -> Result<(), AllocError>
    ensures { OnOk result (string_bytes text.new ≡ string_bytes text.old ++ (44 ∷ 32 ∷ decimal value)) }
{
    text.push_str(", ")?;
    let wide_immediate = value.to_string(alloc)?;
    text.push_str(&wide_immediate)
}

/// Adds `between` and a number with its sign.
fn push_target(
    alloc: Global,
    text: &mut String,
    between: &str,
    offset: i32,
) -> Result<(), AllocError>
    ensures { OnOk result (string_bytes text.new ≡ string_bytes text.old ++ (between.now ++ with_sign offset)) }
{
    text.push_str(between)?;
    if offset >= 0 {
        text.push('+')?;
    }
    push_number(alloc, text, "", offset)
}

/// Adds `between` and a memory operand.
fn push_memory_operand(
    alloc: Global,
    text: &mut String,
    between: &str,
    base: Reg,
    offset: i16,
) -> Result<(), AllocError>
    ensures { OnOk result (string_bytes text.new ≡ string_bytes text.old ++ (between.now ++ memory_operand_text base offset)) }
{
    text.push_str(between)?;
    push_register(text, "[", base)?;
    push_target(alloc, text, "", i32::from(offset))?;
    text.push(']')
}
