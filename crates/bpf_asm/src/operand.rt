//! What the text of an operand says: a register, a number, a memory operand or a target.

ghost use Rattle.std.specs.Prelude.{◌≡◌, ◌≤◌, ◌^◌, IfOk};
ghost use Rattle.bpf_asm.specs.Rounds.{IsNear};
ghost use Rattle.bpf_asm.specs.Operands.{◌>>?◌, pair, register, immediate, wide_immediate, second_operand, target_of, memory_operand, memory_operand_within, offset_of_text, numeral, within_half};

use crate::fault::AsmKind;
use crate::number::{self, begins_number, is_letter, is_name, is_sign};
use crate::text::trim;
use bpf_decode::{Reg, Source};

/// Half of the range of a target of 16 bits.
const NEAR: u64 = 32_768;

/// Half of the range of a target of 32 bits.
const FAR: u64 = 2_147_483_648;

/// The target of a jump or of a local call.
#[derive(Clone, Copy, Debug, PartialEq, Eq)]
pub enum Target {
    /// A number of slots from the following one.
    Offset(i32),
    /// A label.
    Label,
}

/// A memory operand.
#[derive(Clone, Copy, Debug, PartialEq, Eq)]
pub struct MemoryOperand {
    pub(crate) base: Reg,
    pub(crate) offset: i16,
}

/// Both of two operands of a line, or the fault that is reported.
pub(crate) fn pair<A: Drop, B: Drop>(
    first: Result<A, AsmKind>,
    second: Result<B, AsmKind>,
) -> Result<(A, B), AsmKind>
    ensures { result ≡ pair first second }
{
    match (first, second) {
        (Ok(first), Ok(second)) => Ok((first, second)),
        (Ok(_), Err(kind)) | (Err(kind), Ok(_)) => Err(kind),
        (Err(AsmKind::Operand), Err(_)) => Err(AsmKind::Operand),
        (Err(_), Err(kind)) => Err(kind),
    }
}

/// A register, r0 to r10.
pub(crate) fn register(text: &[u8]) -> Result<Reg, AsmKind>
    ensures { result ≡ register text.now }
{
    number::register(text).ok_or(AsmKind::Operand)
}

/// A number of -2,147,483,648 to 4,294,967,295, its 32 bits taken.
pub(crate) fn immediate(text: &[u8]) -> Result<i32, AsmKind>
    ensures { result ≡ immediate text.now }
{
    if !begins_number(text) {
        return Err(AsmKind::Operand);
    }
    match number::signed(text) {
        Some(written) => number::immediate_of(written).ok_or(AsmKind::Number),
        None => Err(AsmKind::Number),
    }
}

/// A number of 0 to 18,446,744,073,709,551,615.
pub(crate) fn wide_immediate(text: &[u8]) -> Result<u64, AsmKind>
    ensures { result ≡ wide_immediate text.now }
{
    if !begins_number(text) {
        return Err(AsmKind::Operand);
    }
    match number::signed(text) {
        Some(written) => number::wide_immediate_of(written).ok_or(AsmKind::Number),
        None => Err(AsmKind::Number),
    }
}

/// A number or a register.
pub(crate) fn second_operand(text: &[u8]) -> Result<Source, AsmKind>
    ensures { result ≡ second_operand text.now }
{
    if begins_number(text) {
        let value = immediate(text)?;
        Ok(Source::Imm(value))
    } else {
        let reg = register(text)?;
        Ok(Source::Reg(reg))
    }
}

/// A label, or a sign and decimal digits of 16 bits.
#[tactic(auto, using(crate::proofs::Statements::near_target_is))]
pub(crate) fn near_target(text: &[u8]) -> Result<Target, AsmKind>
    ensures value { result ≡ target_of (2 ^ 15) text.now }
    ensures near { IfOk result (λ t. IsNear t) }
{
    read_target(text, NEAR)
}

/// A label, or a sign and decimal digits of 32 bits.
pub(crate) fn far_target(text: &[u8]) -> Result<Target, AsmKind>
    ensures { result ≡ target_of (2 ^ 31) text.now }
{
    read_target(text, FAR)
}

fn read_target(text: &[u8], half: u64) -> Result<Target, AsmKind>
    requires { half ≤ 2 ^ 31 }
    ensures { result ≡ target_of half text.now }
{
    match text.first() {
        Some(first) if is_letter(*first) => {
            if is_name(text) {
                Ok(Target::Label)
            } else {
                Err(AsmKind::Operand)
            }
        }
        Some(first) if is_sign(*first) => match signed_offset(*first == b'-', &text[1..], half) {
            Some(offset) => Ok(Target::Offset(offset)),
            None => Err(AsmKind::Number),
        },
        _ => Err(AsmKind::Operand),
    }
}

/// The offset of a sign and decimal digits.
fn signed_offset(minus: bool, digits: &[u8], half: u64) -> Option<i32>
    requires { half ≤ 2 ^ 31 }
    ensures { result ≡ (numeral 10 digits.now >>? within_half half minus) }
{
    let magnitude = number::numeral(digits, 10)?;
    number::within_half(half, minus, magnitude)
}

/// A memory operand: `[r1]`, `[r1+n]` or `[r1-n]`.
#[tactic(auto, using(crate::proofs::Statements::memory_operand_in))]
pub(crate) fn read_memory_operand(text: &[u8]) -> Result<MemoryOperand, AsmKind>
    ensures { result ≡ memory_operand text.now }
{
    if text.len() >= 2 && text[0] == b'[' && text[text.len() - 1] == b']' {
        memory_operand_within(trim(&text[1..text.len() - 1]))
    } else {
        Err(AsmKind::Operand)
    }
}

fn memory_operand_within(inside: &[u8]) -> Result<MemoryOperand, AsmKind>
    ensures { result ≡ memory_operand_within inside.now }
{
    let at = match number::find_sign(inside) {
        Some(at) => at,
        None => inside.len(),
    };
    let (base, offset) = pair(
        register(trim(&inside[..at])),
        memory_operand_offset(&inside[at..]),
    )?;
    Ok(MemoryOperand { base, offset })
}

/// The offset of a memory operand: a sign and a number without one of its own, or none for 0.
fn memory_operand_offset(text: &[u8]) -> Result<i16, AsmKind>
    ensures { result ≡ offset_of_text text.now }
{
    let Some((sign, rest)) = text.split_first() else {
        return Ok(0);
    };
    let digits = trim(rest);
    if !begins_number(digits) {
        return Err(AsmKind::Operand);
    }
    match number::unsigned(digits) {
        Some(magnitude) => number::within_16(*sign == b'-', magnitude).ok_or(AsmKind::Number),
        None => Err(AsmKind::Number),
    }
}
