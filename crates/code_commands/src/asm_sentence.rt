//! What is wrong with a line of an assembler text, as a sentence. The assembler is asked which words and which operands it takes.

use bpf_asm::{AsmFault, AsmKind, assemble};
use std::alloc::{AllocError, Global};

/// The most bytes of a line that a sentence shows.
const MAX_SHOWN: usize = 60;

/// The greatest register.
const LAST_REGISTER: u32 = 10;

/// Operands by which the assembler is asked what a word takes.
const OPERANDS: [&str; 11] = [
    "",
    " r1",
    " 5",
    " name",
    " r1, r2",
    " r1, 5",
    " r1, [r2+4]",
    " [r1-8], r2",
    " [r1-8], 5",
    " r1, r2, name",
    " r1, 5, name",
];

/// What is wrong with the line of an assembler text that has a fault.
pub(crate) fn line_sentence(
    alloc: Global,
    input: &[u8],
    fault: AsmFault,
) -> Result<String, AllocError> {
    let AsmFault { line, kind } = fault;
    let Some(text) = line_at(input, line) else {
        return format!(in alloc; "line {line} has bytes that are no text");
    };
    let code = code_of(text);
    let why = match kind {
        AsmKind::Word => why_no_word(alloc, code)?,
        AsmKind::Operand => why_no_operands(alloc, code)?,
        AsmKind::Number => String::from_str(
            alloc,
            "has a number that is malformed or out of range: an immediate is from -2147483648 to 4294967295, an offset from -32768 to 32767",
        )?,
        AsmKind::Label => why_no_label(alloc, input, code)?,
        AsmKind::Memory => String::from_str(alloc, "was not read for lack of memory")?,
    };
    if text.len() <= MAX_SHOWN {
        return format!(in alloc; "line {line}, {text:?}, {why}");
    }
    format!(in alloc; "line {line} {why}")
}

/// The line of this number, counted from 1, without blanks at its ends.
fn line_at(input: &[u8], number: u32) -> Option<&str> {
    let text = str::from_utf8(input).ok()?;
    let line = text.lines().nth((number as usize).checked_sub(1)?)?;
    Some(line.trim())
}

/// What stands before a comment.
fn code_of(text: &str) -> &str {
    match text.split_once(';') {
        Some((code, _)) => code.trim(),
        None => text,
    }
}

/// The word with which a line begins.
fn word_of(text: &str) -> &str {
    text.split_whitespace().next().unwrap_or(text)
}

/// That a line begins with no word, and which one may be meant.
fn why_no_word(alloc: Global, text: &str) -> Result<String, AllocError> {
    let begins = "begins with no word of the assembler and is no label";
    let word = word_of(text).to_ascii_lowercase(alloc)?;
    let mut meant = String::new(alloc);
    for width in ["", "64", "32"] {
        let other = format!(in alloc; "{word}{width}")?;
        if is_word(alloc, &other)? {
            meant.push_str(if meant.is_empty() { "" } else { " or " })?;
            meant.push_str(&other)?;
        }
    }
    if !meant.is_empty() {
        return format!(in alloc; "{begins}; did you mean {meant}?");
    }
    if text.contains('=') {
        return format!(in alloc; "{begins}: what others write r0 = 7 is mov64 r0, 7 here");
    }
    if text
        .bytes()
        .all(|byte| byte.is_ascii_hexdigit() || byte == b' ')
    {
        return format!(in alloc; "{begins}; of hex bpf_host disasm makes a text");
    }
    if word_of(text) == text {
        return format!(in alloc; "{begins}, behind which a colon stands");
    }
    String::from_str(alloc, begins)
}

/// Whether the assembler has a word.
fn is_word(alloc: Global, word: &str) -> Result<bool, AllocError> {
    Ok(fault_of(alloc, word)? != Some(AsmKind::Word))
}

/// What the assembler refuses a text for, if it does.
fn fault_of(alloc: Global, text: &str) -> Result<Option<AsmKind>, AllocError> {
    match assemble(alloc, text.as_bytes()) {
        Ok(_) => Ok(None),
        Err(
            AsmFault {
                kind: AsmKind::Memory,
                ..
            },
        ) => Err(AllocError),
        Err(fault) => Ok(Some(fault.kind)),
    }
}

/// That a line has other operands than its word takes, and which these are.
fn why_no_operands(alloc: Global, text: &str) -> Result<String, AllocError> {
    if text.contains('#') || text.contains("//") {
        return String::from_str(
            alloc,
            "has no comment as this assembler reads one, behind a ;",
        );
    }
    if let Some(register) = register_above(text) {
        return format!(in alloc; "names r{register}, and registers are r0 to r{LAST_REGISTER}");
    }
    let word = word_of(text);
    let mut taken = String::new(alloc);
    for operands in OPERANDS {
        let line = format!(in alloc; "{word}{operands}")?;
        if matches!(fault_of(alloc, &line)?, None | Some(AsmKind::Label)) {
            taken.push_str(if taken.is_empty() { "" } else { " or " })?;
            write!(taken, "{line:?}")?;
        }
    }
    format!(in alloc; "has other operands than its word takes: {taken}")
}

/// The first register above the last one that a line names.
fn register_above(text: &str) -> Option<u32> {
    for word in text.split([' ', ',', '[', ']', '+', '-']) {
        if let Some(Ok(number)) = word.strip_prefix('r').map(|digits| digits.parse::<u32>()) {
            if number > LAST_REGISTER {
                return Some(number);
            }
        }
    }
    None
}

/// That a line defines a label once more, or names one that isn't there, or is too far away.
fn why_no_label(alloc: Global, input: &[u8], text: &str) -> Result<String, AllocError> {
    if let Some(name) = text.strip_suffix(':') {
        return format!(in alloc; "defines the label {name}, as a line before does");
    }
    let name = text.rsplit([' ', ',']).next().unwrap_or(text);
    if defines(input, name) {
        return format!(in alloc; "leads to the label {name}, which is too far away");
    }
    format!(in alloc; "leads to the label {name}, which no line `{name}:` defines")
}

/// Whether a line of a text defines a label.
fn defines(input: &[u8], name: &str) -> bool {
    let Ok(text) = str::from_utf8(input) else {
        return false;
    };
    for line in text.lines() {
        if code_of(line.trim()).strip_suffix(':') == Some(name) {
            return true;
        }
    }
    false
}
