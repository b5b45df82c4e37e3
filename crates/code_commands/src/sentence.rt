//! What is wrong with an input that a command over code refuses, as a sentence.

use crate::asm_sentence::line_sentence;
use crate::call_text::{CallFault, CallKind};
use crate::decimal::{NumberFault, NumberKind};
use crate::explain::why_refused;
use crate::failure::CodeFailure;
use crate::input::{CodeForm, HexSlip, read_hex};
use crate::map_text::{MapFault, MapKind};
use crate::object_hints::{is_object_elsewhere, object_sentence};
use bpf_asm::assemble;
use bpf_verifier::Profile;
use std::alloc::{AllocError, Global};

/// What is wrong with the input of a command over code that ended early, without a full stop or a line end: of refused
/// code what `verify --explain` says behind `why:`, and of an ELF object that is given as code how it is taken. None where there
/// is no more to say than the failure does. The error is that memory ran out.
pub fn sentence_for(
    alloc: Global,
    form: CodeForm,
    profile: Profile,
    input: &[u8],
    failure: &CodeFailure,
) -> Result<Option<String>, AllocError> {
    if is_object_elsewhere(alloc, form, input, failure)? {
        return said(
            alloc,
            "the input begins like an ELF file; verify, exec and disasm read the code of one with --object",
        );
    }
    match failure {
        CodeFailure::InputTooLong => { said(alloc, "the input has more than 1,048,576 bytes") }
        CodeFailure::NotHex => Ok(Some(input_sentence(alloc, input)?)),
        CodeFailure::ArgsNotHex(slip) => Ok(Some(slip_sentence(alloc, *slip, "--args")?)),
        CodeFailure::ArgsTooLong => said(alloc, "a call has at most 256 bytes of arguments"),
        CodeFailure::Number(fault) => Ok(Some(number_sentence(alloc, *fault)?)),
        CodeFailure::Call(fault) => Ok(Some(call_sentence(alloc, *fault)?)),
        CodeFailure::Map(fault) => Ok(Some(map_sentence(alloc, *fault)?)),
        CodeFailure::Object(fault) => said(alloc, object_sentence(alloc, input, *fault)?),
        CodeFailure::Refused(_) | CodeFailure::NoCode(_) => {
            refused_sentence(alloc, form, profile, input)
        }
        CodeFailure::Assembler(fault) => Ok(Some(line_sentence(alloc, input, *fault)?)),
        CodeFailure::Explained(_) | CodeFailure::Memory | CodeFailure::Stream(_) => Ok(None),
    }
}

fn said(alloc: Global, text: &str) -> Result<Option<String>, AllocError> {
    Ok(Some(String::from_str(alloc, text)?))
}

/// Why a profile refuses the code that an input has.
fn refused_sentence(
    alloc: Global,
    form: CodeForm,
    profile: Profile,
    input: &[u8],
) -> Result<Option<String>, AllocError> {
    match form.code_in(alloc, input) {
        Ok(code) => why_refused(alloc, profile, &code),
        Err(CodeFailure::Memory) => Err(AllocError),
        Err(_) => Ok(None),
    }
}

/// What is wrong with one of `--numbers`.
fn number_sentence(alloc: Global, fault: NumberFault) -> Result<String, AllocError> {
    let NumberFault { kind, place } = fault;
    let why = match kind {
        NumberKind::NotNumber => {
            "is no decimal number from -9223372036854775808 to 18446744073709551615"
        }
        NumberKind::TooMany => {
            "is one too many: a call has at most 256 bytes, and a number takes 8"
        }
        NumberKind::Memory => "was not read for lack of memory",
    };
    format!(in alloc; "number {place} of --numbers {why}")
}

/// What is wrong with a line of `--calls`.
fn call_sentence(alloc: Global, fault: CallFault) -> Result<String, AllocError> {
    let CallFault { kind, line } = fault;
    let why = match kind {
        CallKind::BadClient => "has no number of a client, below 4294967296, behind its @",
        CallKind::NotHex => {
            "has arguments that are not hex; @N and a blank may stand before them, and nothing else"
        }
        CallKind::TooLong => "has more than 256 bytes of arguments",
        CallKind::Memory => "was not read for lack of memory",
    };
    format!(in alloc; "line {line} of --calls {why}")
}

/// What is wrong with a line of `--map`.
fn map_sentence(alloc: Global, fault: MapFault) -> Result<String, AllocError> {
    let MapFault { kind, line } = fault;
    let why = match kind {
        MapKind::WrongLength => {
            "is not 32 hex digits, one blank and 64 hex digits; `entry` and a blank may stand before them"
        }
        MapKind::NotHex => "has a byte that is no hex digit in its key or its value",
        MapKind::KeyTwice => "has the key of a line before it",
        MapKind::TooMany => "is one too many: a map has at most 4,096 entries",
        MapKind::Memory => "was not read for lack of memory",
    };
    format!(in alloc; "line {line} of --map {why}")
}

/// Where an input is no hex, and by which command or option it would be read.
fn input_sentence(alloc: Global, input: &[u8]) -> Result<String, AllocError> {
    let Some(slip) = HexSlip::of(input) else {
        return String::from_str(alloc, "the input is no hex");
    };
    let sentence = slip_sentence(alloc, slip, "the input")?;
    match slip {
        HexSlip::Byte { byte, .. } if byte < b' ' || byte > b'~' => {
            format!(in alloc; "{sentence}; --raw reads code as bytes")
        }
        HexSlip::Byte { .. } if assemble(alloc, input).is_ok() => {
            format!(in alloc;
                "{sentence}; it is an assembler text, of which bpf_host asm makes code"
            )
        }
        _ => Ok(sentence),
    }
}

/// Where a text of this name is no hex.
fn slip_sentence(alloc: Global, slip: HexSlip, name: &str) -> Result<String, AllocError> {
    match slip {
        HexSlip::Byte { place, byte } => {
            let shown = char::from(byte);
            let more = match byte {
                b'x' if place > 1 => "; hex is written without 0x",
                b',' => "; blanks may stand between digits, and no commas",
                _ => "",
            };
            format!(in alloc; "byte {place} of {name}, {shown:?}, is no hex digit{more}")
        }
        HexSlip::Odd { digits: 1 } => format!(in alloc;
            "{name} has one hex digit, which is no whole byte"
        ),
        HexSlip::Odd { digits } => format!(in alloc;
            "{name} has {digits} hex digits, which are no whole bytes"
        ),
    }
}
