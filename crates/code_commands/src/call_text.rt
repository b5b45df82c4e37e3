//! The text of calls: the argument bytes of each in hex, a line for each call.

ghost use Rattle.std.specs.Prelude.{◌≡◌, ◌⊎◌, ◌<◌, ◌≤◌, IfOk, IfErr, IfSome, MatchResult, Ok, Err, [], drop, length, map, take};
ghost use Rattle.std.specs.List.{position};
ghost use Rattle.bpf_asm.specs.Operands.{numeral};
ghost use Rattle.code_commands.specs.declared.call_text.CallKind.TheVariants.{Memory};
ghost use Rattle.code_commands.specs.Folds.{folded, texts};
ghost use Rattle.code_commands.specs.Calls.{call_of, called_by, called_with, calls_of_text, is_blank, name_end, said, with_line};

use crate::call::Call;
use crate::decimal::decimal;
use crate::input::{hex_bytes, is_blank};
use crate::lines::text_lines;
use bpf_model::layout::ARGUMENTS_SIZE;
use host_types::ClientId;
use std::alloc::{AllocError, Global};
use thiserror::Error;

/// What is wrong with a line of a text of calls.
#[derive(Clone, Copy, Debug, Error)]
pub enum CallKind {
    /// Behind `@` stands no decimal number below 2^32.
    #[error("BadClient")]
    BadClient = 1,
    /// The arguments aren't hex.
    #[error("NotHex")]
    NotHex = 2,
    /// There are more than 256 argument bytes.
    #[error("TooLong")]
    TooLong = 3,
    /// Memory ran out. It says nothing of the text.
    #[error("Memory")]
    Memory = 4,
}

impl CallKind {
    ghost use Rattle.code_commands.specs.Faults.{number_of_call_kind};

    /// The fault's number.
    pub fn number(&self) -> u8
        ensures { result ≡ number_of_call_kind self.now }
    {
        *self as u8
    }
}

/// A fault of a text of calls, and its line, counted from 1. Where memory ran out the line says nothing.
#[derive(Clone, Copy, Debug, Error)]
#[error("call line {line} fault {} {kind}", .kind.number())]
pub struct CallFault {
    pub kind: CallKind,
    pub line: usize,
}

impl From<AllocError> for CallFault {
    ghost use Rattle.std.specs.Prelude.{◌≡◌};
    ghost use Rattle.code_commands.specs.declared.call_text.CallKind.TheVariants.{Memory};

    ghost from_gives = { λ _ fault. fault.kind ≡ Memory };

    fn from(_: AllocError) -> CallFault {
        CallFault {
            kind: CallKind::Memory,
            line: 0,
        }
    }
}

/// The calls that a text has: a line for each, the argument bytes as hex, with blanks where one likes. `@N` and a blank before
/// them say that client N calls, where it isn't the one that is given. An empty line is a call without arguments. An error
/// names the first line that is none: its client is no number below 2^32, its arguments are no hex, or more than 256 bytes.
/// `Memory` may come instead of any of these.
pub fn read_calls(alloc: Global, client: ClientId, text: &str) -> Result<Vec<Call>, CallFault>
    ensures found { IfOk result (λ calls. calls_of_text client text.now ≡ Ok (map said calls.items)) }
    ensures refused { IfErr result (λ fault.
        (fault.kind ≡ Memory) ⊎ (calls_of_text client text.now ≡ Err (fault.kind, fault.line))) }
{
    let lines = text_lines(alloc, text)?;
    calls_of(alloc, client, &lines)
}

/// The calls of lines.
fn calls_of(alloc: Global, client: ClientId, lines: &[&str]) -> Result<Vec<Call>, CallFault>
    ensures found { IfOk result (λ calls. folded (with_line client) [] 1 (texts lines.now) ≡ Ok (map said calls.items)) }
    ensures refused { IfErr result (λ fault.
        (fault.kind ≡ Memory) ⊎ (folded (with_line client) [] 1 (texts lines.now) ≡ Err (fault.kind, fault.line))) }
{
    let mut calls = Vec::new(alloc);
    for (index, line) in lines.iter().enumerate() {
        if let Err(kind) = add_call(alloc, client, &mut calls, line.as_bytes()) {
            return Err(CallFault {
                kind,
                line: index + 1,
            });
        }
    }
    Ok(calls)
}

/// Adds the call of a line.
fn add_call(
    alloc: Global,
    client: ClientId,
    calls: &mut Vec<Call>,
    line: &[u8],
) -> Result<(), CallKind>
    ensures { MatchResult result
        (λ _. with_line client (map said calls.old.items) line.now ≡ Ok (map said calls.new.items))
        (λ kind. (kind ≡ Memory) ⊎ (with_line client (map said calls.old.items) line.now ≡ Err kind)) }
{
    let call = read_call(alloc, client, line)?;
    match calls.push(call) {
        Ok(()) => Ok(()),
        Err(_) => Err(CallKind::Memory),
    }
}

/// The call of a line.
fn read_call(alloc: Global, client: ClientId, line: &[u8]) -> Result<Call, CallKind>
    ensures { MatchResult result
        (λ call. call_of client line.now ≡ Ok (said call))
        (λ kind. (kind ≡ Memory) ⊎ (call_of client line.now ≡ Err kind)) }
{
    match line.first() {
        Some(b'@') => read_named(alloc, &line[1..]),
        _ => call_with(alloc, client, line),
    }
}

/// The call of a line that names its client, behind the `@`.
fn read_named(alloc: Global, text: &[u8]) -> Result<Call, CallKind>
    ensures { MatchResult result
        (λ call. called_by (numeral 10 (take (name_end text.now) text.now)) (drop (name_end text.now) text.now) ≡ Ok (said call))
        (λ kind. (kind ≡ Memory)
        ⊎ (called_by (numeral 10 (take (name_end text.now) text.now)) (drop (name_end text.now) text.now) ≡ Err kind)) }
{
    let end = name_end(text);
    match decimal(&text[..end]) {
        Some(number) if number <= u64::from(u32::MAX) => {
            call_with(alloc, ClientId(number as u32), &text[end..])
        }
        _ => Err(CallKind::BadClient),
    }
}

/// Where the first blank stands, or the text's length where there is none.
fn name_end(text: &[u8]) -> usize
    ensures at { result ≡ name_end text.now }
    ensures within { result ≤ length text.now }
{
    first_blank(text).unwrap_or(text.len())
}

/// Where the first blank stands.
fn first_blank(text: &[u8]) -> Option<usize>
    ensures found { result ≡ position is_blank text.now }
    ensures within { IfSome result (λ at. at < length text.now) }
{
    text.iter().position(|byte| is_blank(*byte))
}

/// A client's call with the argument bytes of a text of hex.
fn call_with(alloc: Global, client: ClientId, text: &[u8]) -> Result<Call, CallKind>
    ensures { MatchResult result
        (λ call. called_with client text.now ≡ Ok (said call))
        (λ kind. (kind ≡ Memory) ⊎ (called_with client text.now ≡ Err kind)) }
{
    match hex_bytes(alloc, text) {
        Ok(arguments) if arguments.len() <= ARGUMENTS_SIZE => Ok(Call { client, arguments }),
        Ok(_) => Err(CallKind::TooLong),
        Err(hex::FromHexError::OutOfMemory) => Err(CallKind::Memory),
        Err(_) => Err(CallKind::NotHex),
    }
}
