//! What a line says.

ghost use Rattle.std.specs.Prelude.{◌≡◌, nat_le};
ghost use Rattle.std.specs.List.{list_all};
ghost use Rattle.std.specs.Option.{option_map};
ghost use Rattle.bpf_asm.specs.Text.{operand_texts};
ghost use Rattle.bpf_asm.specs.Lines.{line_statement, body_statement, instruction, statement_of, alu_statement, neg_statement, extend_statement, wide_immediate_statement, load_statement, store_number_statement, store_statement, test_statement, defined_name, target_name};

use crate::fault::AsmKind;
use crate::form::Form;
use crate::number::label_name;
use crate::operand::{
    Target, far_target, immediate, near_target, pair, read_memory_operand, register,
    second_operand, wide_immediate,
};
use crate::text::{
    body_of, last_operand, no_operand, one_operand, split_word, three_operands, two_operands,
};
use bpf_decode::{Insn, Size, Source};
use bpf_num::{AluOp, AluWidth, SwapKind, Test, Width};

/// What a line says.
#[derive(Clone, Copy, Debug, PartialEq, Eq)]
pub enum Statement {
    /// Nothing.
    Blank,
    /// It defines a label.
    Label,
    /// An instruction.
    Insn(Insn),
    /// An instruction whose target is a label; its offset is 0 here.
    Aimed(Insn),
}

/// What a line says, or its first fault.
#[tactic(auto, using(crate::proofs::Statements::ascii_line))]
pub(crate) fn read_line(line: &[u8]) -> Result<Statement, AsmKind>
    ensures { result ≡ line_statement line.now }
{
    if is_ascii(line) {
        read_body(body_of(line))
    } else {
        Err(AsmKind::Word)
    }
}

/// Whether no byte is past 127.
#[tactic(auto, using(crate::proofs::Stepping::stepping))]
fn is_ascii(line: &[u8]) -> bool
    ensures { result ≡ list_all (λ b. nat_le b 127) line.now }
{
    for byte in line {
        if *byte > 127 {
            return false;
        }
    }
    true
}

fn read_body(body: &[u8]) -> Result<Statement, AsmKind>
    ensures { result ≡ body_statement body.now }
{
    if body.is_empty() {
        Ok(Statement::Blank)
    } else if label_name(body).is_some() {
        Ok(Statement::Label)
    } else {
        read_instruction(body)
    }
}

#[tactic(auto, using(crate::proofs::Statements::instructions))]
fn read_instruction(body: &[u8]) -> Result<Statement, AsmKind>
    ensures { result ≡ instruction body.now }
{
    let (word, operands) = split_word(body);
    match Form::from_word(word) {
        Some(form) => read_operands(form, operands),
        None => Err(AsmKind::Word),
    }
}

/// What a line of this form says, with these texts of operands.
fn read_operands(form: Form, text: &[u8]) -> Result<Statement, AsmKind>
    ensures { result ≡ statement_of form (operand_texts text.now) }
{
    match form {
        Form::Alu(op, width) => read_alu(op, width, text),
        Form::Neg(width) => read_neg(width, text),
        Form::Extend(op, width) => read_extend(op, width, text),
        Form::Swap(kind, width) => read_swap(kind, width, text),
        Form::LoadImm => read_wide_immediate(text),
        Form::Load(size, signed) => read_load(size, signed, text),
        Form::StoreImm(size) => read_store_number(size, text),
        Form::Store(size) => read_store(size, text),
        Form::Jump => read_jump(text),
        Form::JumpLong => read_long_jump(text),
        Form::Test(test, narrow) => read_test(test, narrow, text),
        Form::CallHelper => read_call(text),
        Form::CallLocal => read_local_call(text),
        Form::Exit => read_exit(text),
    }
}

fn read_alu(op: AluOp, width: AluWidth, text: &[u8]) -> Result<Statement, AsmKind>
    ensures { result ≡ alu_statement op width (operand_texts text.now) }
{
    let (first, second) = two_operands(text)?;
    let (dst, src) = pair(register(first), second_operand(second))?;
    Ok(Statement::Insn(Insn::Alu {
        width,
        op,
        dst,
        src,
    }))
}

fn read_neg(width: AluWidth, text: &[u8]) -> Result<Statement, AsmKind>
    ensures { result ≡ neg_statement width (operand_texts text.now) }
{
    let dst = register(one_operand(text)?)?;
    let src = Source::Imm(0);
    Ok(Statement::Insn(Insn::Alu {
        width,
        op: AluOp::Neg,
        dst,
        src,
    }))
}

fn read_extend(op: AluOp, width: AluWidth, text: &[u8]) -> Result<Statement, AsmKind>
    ensures { result ≡ extend_statement op width (operand_texts text.now) }
{
    let (first, second) = two_operands(text)?;
    let (dst, src) = pair(register(first), register(second))?;
    let src = Source::Reg(src);
    Ok(Statement::Insn(Insn::Alu {
        width,
        op,
        dst,
        src,
    }))
}

fn read_swap(kind: SwapKind, width: Width, text: &[u8]) -> Result<Statement, AsmKind>
    ensures { result ≡ statement_of (Form.Swap kind width) (operand_texts text.now) }
{
    let dst = register(one_operand(text)?)?;
    Ok(Statement::Insn(Insn::Swap { kind, width, dst }))
}

fn read_wide_immediate(text: &[u8]) -> Result<Statement, AsmKind>
    ensures { result ≡ wide_immediate_statement (operand_texts text.now) }
{
    let (first, second) = two_operands(text)?;
    let (dst, value) = pair(register(first), wide_immediate(second))?;
    Ok(Statement::Insn(Insn::LoadImm { dst, value }))
}

fn read_load(size: Size, signed: bool, text: &[u8]) -> Result<Statement, AsmKind>
    ensures { result ≡ load_statement size signed (operand_texts text.now) }
{
    let (first, second) = two_operands(text)?;
    let (dst, from) = pair(register(first), read_memory_operand(second))?;
    Ok(Statement::Insn(Insn::Load {
        size,
        signed,
        dst,
        base: from.base,
        offset: from.offset,
    }))
}

fn read_store_number(size: Size, text: &[u8]) -> Result<Statement, AsmKind>
    ensures { result ≡ store_number_statement size (operand_texts text.now) }
{
    let (first, second) = two_operands(text)?;
    let (to, imm) = pair(read_memory_operand(first), immediate(second))?;
    Ok(Statement::Insn(Insn::StoreImm {
        size,
        base: to.base,
        offset: to.offset,
        imm,
    }))
}

fn read_store(size: Size, text: &[u8]) -> Result<Statement, AsmKind>
    ensures { result ≡ store_statement size (operand_texts text.now) }
{
    let (first, second) = two_operands(text)?;
    let (to, src) = pair(read_memory_operand(first), register(second))?;
    Ok(Statement::Insn(Insn::Store {
        size,
        base: to.base,
        offset: to.offset,
        src,
    }))
}

fn read_jump(text: &[u8]) -> Result<Statement, AsmKind>
    ensures { result ≡ statement_of Form.Jump (operand_texts text.now) }
{
    match near_target(one_operand(text)?)? {
        Target::Offset(offset) => Ok(Statement::Insn(Insn::Jump {
            offset: offset as i16,
        })),
        Target::Label => Ok(Statement::Aimed(Insn::Jump { offset: 0 })),
    }
}

fn read_long_jump(text: &[u8]) -> Result<Statement, AsmKind>
    ensures { result ≡ statement_of Form.JumpLong (operand_texts text.now) }
{
    match far_target(one_operand(text)?)? {
        Target::Offset(offset) => Ok(Statement::Insn(Insn::JumpLong { offset })),
        Target::Label => Ok(Statement::Aimed(Insn::JumpLong { offset: 0 })),
    }
}

fn read_test(test: Test, narrow: bool, text: &[u8]) -> Result<Statement, AsmKind>
    ensures { result ≡ test_statement test narrow (operand_texts text.now) }
{
    let (first, second, third) = three_operands(text)?;
    let compared = pair(register(first), second_operand(second));
    let ((dst, src), target) = pair(compared, near_target(third))?;
    match target {
        Target::Offset(offset) => {
            let offset = offset as i16;
            Ok(Statement::Insn(Insn::Test {
                narrow,
                test,
                dst,
                src,
                offset,
            }))
        }
        Target::Label => {
            Ok(Statement::Aimed(Insn::Test {
                narrow,
                test,
                dst,
                src,
                offset: 0,
            }))
        }
    }
}

fn read_call(text: &[u8]) -> Result<Statement, AsmKind>
    ensures { result ≡ statement_of Form.CallHelper (operand_texts text.now) }
{
    let helper = immediate(one_operand(text)?)?;
    Ok(Statement::Insn(Insn::CallHelper { helper }))
}

fn read_local_call(text: &[u8]) -> Result<Statement, AsmKind>
    ensures { result ≡ statement_of Form.CallLocal (operand_texts text.now) }
{
    match far_target(one_operand(text)?)? {
        Target::Offset(offset) => Ok(Statement::Insn(Insn::CallLocal { offset })),
        Target::Label => Ok(Statement::Aimed(Insn::CallLocal { offset: 0 })),
    }
}

fn read_exit(text: &[u8]) -> Result<Statement, AsmKind>
    ensures { result ≡ statement_of Form.Exit (operand_texts text.now) }
{
    no_operand(text)?;
    Ok(Statement::Insn(Insn::Exit))
}

/// The name of the label that a line defines, if it defines one.
pub(crate) fn defined_name(line: &[u8]) -> Option<&[u8]>
    ensures { option_map (λ name. name.now) result ≡ defined_name line.now }
{
    label_name(body_of(line))
}

/// The name of the label that a line aims at: its last operand.
pub(crate) fn target_name(line: &[u8]) -> &[u8]
    ensures { result.now ≡ target_name line.now }
{
    let (_, operands) = split_word(body_of(line));
    last_operand(operands)
}
