//! Decimal numbers as the bytes that a procedure reads: 8 for each, the least first.

ghost use Rattle.std.specs.Prelude.{◌≡◌, ◌≤◌, ◌⊎◌, IfOk, IfErr, MatchResult, Ok, Err, [], map};
ghost use Rattle.std.specs.Char.{digit_value};
ghost use Rattle.bpf_asm.specs.Operands.{numeral};
ghost use Rattle.code_commands.specs.declared.decimal.NumberKind.TheVariants.{Memory};
ghost use Rattle.code_commands.specs.Folds.{folded, texts};
ghost use Rattle.code_commands.specs.Numbers.{bytes_of_numbers, number_of, with_word, words};

use bpf_model::layout::ARGUMENTS_SIZE;
use std::alloc::{AllocError, Global};
use thiserror::Error;

/// The bytes of a number.
const NUMBER_SIZE: usize = 8;

/// The magnitude of the least number.
const LEAST: u64 = 1 << 63;

/// What is wrong with a word of a text of numbers.
#[derive(Clone, Copy, Debug, Error)]
pub enum NumberKind {
    /// The word isn't a decimal number from -2^63 to 2^64 - 1.
    #[error("NotNumber")]
    NotNumber = 1,
    /// 32 numbers stand before it, and a call has no more than 256 bytes.
    #[error("TooMany")]
    TooMany = 2,
    /// Memory ran out. It says nothing of the text.
    #[error("Memory")]
    Memory = 3,
}

impl NumberKind {
    ghost use Rattle.code_commands.specs.Faults.{number_of_number_kind};

    /// The fault's number.
    pub fn number(&self) -> u8
        ensures { result ≡ number_of_number_kind self.now }
    {
        *self as u8
    }
}

/// A fault of a text of numbers, and which of them it is, counted from 1. Where memory ran out the place says nothing.
#[derive(Clone, Copy, Debug, Error)]
#[error("number {place} fault {} {kind}", .kind.number())]
pub struct NumberFault {
    pub kind: NumberKind,
    pub place: usize,
}

impl From<AllocError> for NumberFault {
    ghost use Rattle.std.specs.Prelude.{◌≡◌};
    ghost use Rattle.code_commands.specs.declared.decimal.NumberKind.TheVariants.{Memory};

    ghost from_gives = { λ _ fault. fault.kind ≡ Memory };

    fn from(_: AllocError) -> NumberFault {
        NumberFault {
            kind: NumberKind::Memory,
            place: 0,
        }
    }
}

/// The bytes of decimal numbers, with blanks between them: 8 of each, the least first, as a procedure reads them. A number is
/// from -2^63 to 2^64 - 1; one below zero has the bits of its two's complement. An error names the first word that is no such
/// number, or is the 33rd. `Memory` may come instead of either.
pub fn read_numbers(alloc: Global, text: &str) -> Result<Vec<u8>, NumberFault>
    ensures found { IfOk result (λ bytes. bytes_of_numbers text.now ≡ Ok bytes.items) }
    ensures refused { IfErr result (λ fault.
        (fault.kind ≡ Memory) ⊎ (bytes_of_numbers text.now ≡ Err (fault.kind, fault.place))) }
{
    let words = words_of(alloc, text)?;
    bytes_of(alloc, &words)
}

/// The bytes of words that are numbers.
fn bytes_of(alloc: Global, words: &[&str]) -> Result<Vec<u8>, NumberFault>
    ensures found { IfOk result (λ bytes. folded with_word [] 1 (texts words.now) ≡ Ok bytes.items) }
    ensures refused { IfErr result (λ fault.
        (fault.kind ≡ Memory) ⊎ (folded with_word [] 1 (texts words.now) ≡ Err (fault.kind, fault.place))) }
{
    let mut bytes = Vec::new(alloc);
    for (index, word) in words.iter().enumerate() {
        if let Err(kind) = add_number(&mut bytes, word.as_bytes()) {
            return Err(NumberFault {
                kind,
                place: index + 1,
            });
        }
    }
    Ok(bytes)
}

/// What stands between blanks.
fn words_of<'a>(alloc: Global, text: &'a str) -> Result<Vec<&'a str>, AllocError>
    ensures { IfOk result (λ found. map (λ word. word.now) found.items ≡ words text.now) }
{
    text.split(' ')
        .filter(|word| !word.is_empty())
        .collect(alloc)
}

/// Adds the bytes of a number.
fn add_number(bytes: &mut Vec<u8>, word: &[u8]) -> Result<(), NumberKind>
    ensures { MatchResult result
        (λ _. with_word bytes.old.items word.now ≡ Ok bytes.new.items)
        (λ kind. (kind ≡ Memory) ⊎ (with_word bytes.old.items word.now ≡ Err kind)) }
{
    let Some(number) = number_of(word) else {
        return Err(NumberKind::NotNumber);
    };
    if bytes.len() > ARGUMENTS_SIZE - NUMBER_SIZE {
        return Err(NumberKind::TooMany);
    }
    match bytes.extend_from_slice(&number.to_le_bytes()) {
        Ok(()) => Ok(()),
        Err(_) => Err(NumberKind::Memory),
    }
}

/// The 64 bits of the number that a word writes.
fn number_of(word: &[u8]) -> Option<u64>
    ensures { result ≡ number_of word.now }
{
    match word.first() {
        Some(b'-') => {
            let magnitude = decimal(&word[1..])?;
            if magnitude <= LEAST {
                Some(magnitude.wrapping_neg())
            } else {
                None
            }
        }
        _ => decimal(word),
    }
}

/// The number that decimal digits write, if it is below 2^64.
pub(crate) fn decimal(digits: &[u8]) -> Option<u64>
    ensures { result ≡ numeral 10 digits.now }
{
    numeral(digits, 10)
}

/// The number that digits write in a radix, if it is below 2^64.
#[tactic(auto, using(bpf_asm::proofs::Numerals::numerals, bpf_asm::proofs::Stepping::stepping))]
fn numeral(digits: &[u8], radix: u8) -> Option<u64>
    requires low { 2 ≤ radix }
    requires high { radix ≤ 36 }
    ensures { result ≡ numeral radix digits.now }
{
    if digits.is_empty() {
        return None;
    }
    let mut value: u64 = 0;
    for digit in digits {
        let digit = digit_value(*digit);
        if digit >= radix {
            return None;
        }
        value = value
            .checked_mul(u64::from(radix))?
            .checked_add(u64::from(digit))?;
    }
    Some(value)
}

/// The value of a digit in the radixes up to 36, or 36 of a byte that is none.
fn digit_value(byte: u8) -> u8
    ensures { result ≡ digit_value byte }
{
    match byte {
        b'0'..=b'9' => byte - b'0',
        b'A'..=b'Z' => byte - b'A' + 10,
        b'a'..=b'z' => byte - b'a' + 10,
        _ => 36,
    }
}
