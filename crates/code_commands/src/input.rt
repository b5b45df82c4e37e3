//! What the commands read, up to the program's limit, and hex.

ghost use Rattle.std.specs.Prelude.{◌≡◌, ◌⊎◌, IfOk, IfErr, Some, Ok, Err, filter, not};
ghost use Rattle.hex.specs.Hex.{decode_of};
ghost use Rattle.hex.specs.declared.FromHexError.TheVariants.{OutOfMemory};
ghost use Rattle.code_commands.specs.declared.failure.CodeFailure.TheVariants as failure;
ghost use Rattle.code_commands.specs.Calls.{is_blank};
ghost use Rattle.code_commands.specs.Forms.{IsFaultOf, code_in};

use crate::failure::CodeFailure;
use elf_object::text_of;
use hex::FromHexError;
use std::alloc::{AllocError, Global};
use std::io::Read;

/// The most bytes of input that the program takes.
const MAX_INPUT: usize = 1_048_576;

/// How many bytes are asked for at a time.
const CHUNK: usize = 4096;

/// How code stands in an input.
#[derive(Clone, Copy)]
pub enum CodeForm {
    /// As hex digits of either case, with blanks and line ends where one likes.
    Hex,
    /// As the bytes that it is.
    Raw,
    /// As the section `.text` of an ELF object (`elf_object::text_of`).
    Object,
}

impl CodeForm {
    /// The code that the input has.
    pub(crate) fn read<I: Read>(
        self,
        alloc: Global,
        reader: &mut I,
    ) -> Result<Vec<u8>, CodeFailure> {
        let input = read_input(alloc, reader)?;
        self.code_in(alloc, &input)
    }

    /// The code that these bytes have.
    pub(crate) fn code_in(self, alloc: Global, input: &[u8]) -> Result<Vec<u8>, CodeFailure>
        ensures found { IfOk result (λ code. code_in self input.now ≡ Some code.items) }
        ensures refused { IfErr result (λ error. (error ≡ failure.Memory) ⊎ IsFaultOf self input.now error) }
    {
        match self {
            CodeForm::Hex => match hex_bytes(alloc, input) {
                Ok(code) => Ok(code),
                Err(FromHexError::OutOfMemory) => Err(CodeFailure::Memory),
                Err(_) => Err(CodeFailure::NotHex),
            },
            CodeForm::Raw => copied(alloc, input),
            CodeForm::Object => match text_of(input) {
                Ok(text) => copied(alloc, text),
                Err(fault) => Err(CodeFailure::Object(fault)),
            },
        }
    }
}

/// The same bytes.
fn copied(alloc: Global, bytes: &[u8]) -> Result<Vec<u8>, CodeFailure>
    ensures copy { IfOk result (λ code. code.items ≡ bytes.now) }
    ensures refused { IfErr result (λ error. error ≡ failure.Memory) }
{
    match Vec::from_slice(alloc, bytes) {
        Ok(code) => Ok(code),
        Err(_) => Err(CodeFailure::Memory),
    }
}

/// Reads to the end, or refuses what is longer than the program takes.
pub(crate) fn read_input<I: Read>(alloc: Global, reader: &mut I) -> Result<Vec<u8>, CodeFailure> {
    let mut input = Vec::new(alloc);
    let mut chunk = [0; CHUNK];
    for _ in 0..=MAX_INPUT {
        let count = reader.read(&mut chunk)?;
        if count == 0 {
            return Ok(input);
        }
        input.extend_from_slice(&chunk[..count])?;
        if input.len() > MAX_INPUT {
            break;
        }
    }
    Err(CodeFailure::InputTooLong)
}

/// Reads hex digits of either case; spaces, tabs and line ends are skipped.
pub(crate) fn read_hex(alloc: Global, text: &[u8]) -> Result<Vec<u8>, CodeFailure> {
    Ok(hex_bytes(alloc, text)?)
}

/// The bytes of hex digits of either case; spaces, tabs and line ends are skipped.
pub(crate) fn hex_bytes(alloc: Global, text: &[u8]) -> Result<Vec<u8>, FromHexError>
    ensures found { IfOk result (λ bytes. decode_of (filter (λ b. not (is_blank b)) text.now) ≡ Ok bytes.items) }
    ensures refused { IfErr result (λ error.
        (error ≡ OutOfMemory) ⊎ (decode_of (filter (λ b. not (is_blank b)) text.now) ≡ Err error)) }
{
    match without_blanks(alloc, text) {
        Ok(digits) => hex::decode(alloc, digits.as_slice()),
        Err(_) => Err(FromHexError::OutOfMemory),
    }
}

/// The bytes that are no blanks.
pub(crate) fn without_blanks(alloc: Global, text: &[u8]) -> Result<Vec<u8>, AllocError>
    ensures { IfOk result (λ v. v.items ≡ filter (λ b. not (is_blank b)) text.now) }
{
    text.iter()
        .copied()
        .filter(|byte| !is_blank(*byte))
        .collect(alloc)
}

/// Whether a byte is a space, a tab or part of a line end.
pub(crate) fn is_blank(byte: u8) -> bool
    ensures { result ≡ is_blank byte }
{
    byte == b' ' || byte == b'\t' || byte == b'\r' || byte == b'\n'
}

/// Where a text stops being hex.
#[derive(Clone, Copy, Debug, Drop, PartialEq, Eq)]
pub enum HexSlip {
    /// A byte that is neither a digit nor a blank, and its place, counted from 1.
    Byte { place: usize, byte: u8 },
    /// So many digits, which are no whole bytes.
    Odd { digits: usize },
}

impl HexSlip {
    /// The first byte of a text that is no hex, or how many digits it has; none where the text is hex.
    pub(crate) fn of(text: &[u8]) -> Option<HexSlip> {
        let mut digits: usize = 0;
        for (index, byte) in text.iter().enumerate() {
            if byte.is_ascii_hexdigit() {
                digits = digits.saturating_add(1);
            } else if !is_blank(*byte) {
                let place = index.saturating_add(1);
                return Some(HexSlip::Byte { place, byte: *byte });
            }
        }
        if digits % 2 != 0 {
            return Some(HexSlip::Odd { digits });
        }
        None
    }
}
