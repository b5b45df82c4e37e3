//! Lines, blanks, words and the texts of operands.

ghost use Rattle.std.specs.Prelude.{◌≡◌, ◌<◌, ◌==◌, IfOk, IfSome, MatchOption, MatchResult, [], ◌∷◌, length, map, reverse};
ghost use Rattle.std.specs.List.{position};
ghost use Rattle.std.specs.Str.Lines.{lines, strip_carriage_return};
ghost use Rattle.bpf_asm.specs.Text.{is_blank, trim, trim_start, body_of, ends_word, first_word, behind_word, pieces, operand_texts, last_text};
ghost use Rattle.bpf_asm.specs.Operands.{as_none, as_one, as_two, as_three};

use crate::fault::AsmKind;
use std::alloc::{AllocError, Global};

/// The lines of a text. Each ends at LF or CR LF, the last also at the end of the text.
pub(crate) fn text_lines<'a>(alloc: Global, text: &'a [u8]) -> Result<Vec<&'a [u8]>, AllocError>
    ensures { IfOk result (λ found. map (λ line. line.now) found.items ≡ lines text.now) }
{
    let mut found = Vec::new(alloc);
    let mut rest = text;
    while let Some((line, behind)) = next_line(rest) {
        found.push(line)?;
        rest = behind;
    }
    Ok(found)
}

/// The first line, and what stands behind its end.
#[tactic(auto, using(crate::proofs::Positions::line_ends))]
fn next_line(text: &[u8]) -> Option<(&[u8], &[u8])>
    ensures cases { MatchOption result (lines text.now ≡ [])
        (λ parts. lines text.now ≡ parts.0.now ∷ lines parts.1.now) }
    ensures shorter { MatchOption result (length text.now ≡ 0)
        (λ parts. length parts.1.now < length text.now) }
{
    if text.is_empty() {
        return None;
    }
    match find_byte(text, b'\n') {
        None => Some((text, &text[text.len()..])),
        Some(at) => Some((without_return(&text[..at]), &text[at + 1..])),
    }
}

/// The line without the CR of its end.
fn without_return(line: &[u8]) -> &[u8]
    ensures { result.now ≡ strip_carriage_return line.now }
{
    match line.split_last() {
        Some((b'\r', front)) => front,
        _ => line,
    }
}

/// Where a byte first stands.
pub(crate) fn find_byte(text: &[u8], byte: u8) -> Option<usize>
    ensures found { result ≡ position (λ b. b == byte) text.now }
    ensures within { IfSome result (λ at. at < length text.now) }
{
    text.iter().position(|b| *b == byte)
}

/// The text without the blanks at its ends.
pub(crate) fn trim(text: &[u8]) -> &[u8]
    ensures { result.now ≡ trim text.now }
{
    trim_end(trim_start(text))
}

fn is_blank(byte: u8) -> bool
    ensures { result ≡ is_blank byte }
{
    byte == b' ' || byte == b'\t'
}

fn trim_start(text: &[u8]) -> &[u8]
    ensures { result.now ≡ trim_start text.now }
{
    let mut rest = text;
    while let Some((first, behind)) = rest.split_first() {
        if !is_blank(*first) {
            break;
        }
        rest = behind;
    }
    rest
}

fn trim_end(text: &[u8]) -> &[u8]
    ensures { result.now ≡ reverse (trim_start (reverse text.now)) }
{
    let mut rest = text;
    while let Some((last, front)) = rest.split_last() {
        if !is_blank(*last) {
            break;
        }
        rest = front;
    }
    rest
}

/// A line without its comment and the blanks at its ends.
pub(crate) fn body_of(line: &[u8]) -> &[u8]
    ensures { result.now ≡ body_of line.now }
{
    match find_byte(line, b';') {
        Some(at) => trim(&line[..at]),
        None => trim(line),
    }
}

/// The word that a line begins with, and what stands behind it.
#[tactic(auto, using(crate::proofs::Positions::words))]
pub(crate) fn split_word(body: &[u8]) -> (&[u8], &[u8])
    ensures word { result.0.now ≡ first_word body.now }
    ensures behind { result.1.now ≡ behind_word body.now }
{
    match find_word_end(body) {
        Some(at) => (&body[..at], trim(&body[at..])),
        None => (body, trim(&body[body.len()..])),
    }
}

/// Where the word ends that a line begins with, if anything stands behind it.
fn find_word_end(text: &[u8]) -> Option<usize>
    ensures found { result ≡ position ends_word text.now }
    ensures within { IfSome result (λ at. at < length text.now) }
{
    text.iter().position(|b| ends_word(*b))
}

fn ends_word(byte: u8) -> bool
    ensures { result ≡ ends_word byte }
{
    is_blank(byte) || byte == b',' || byte == b'[' || byte == b']'
}

/// The first of the texts between commas, and what stands behind its comma.
#[tactic(auto, using(crate::proofs::Positions::positions))]
fn first_piece(text: &[u8]) -> (&[u8], Option<&[u8]>)
    ensures { MatchOption result.1 (pieces text.now ≡ result.0.now ∷ [])
        (λ rest. pieces text.now ≡ result.0.now ∷ pieces rest.now) }
{
    match find_byte(text, b',') {
        None => (trim(text), None),
        Some(at) => (trim(&text[..at]), Some(&text[at + 1..])),
    }
}

/// The last of the operands' texts, or nothing where there is none.
#[tactic(auto, using(crate::proofs::Positions::lasts))]
pub(crate) fn last_operand(text: &[u8]) -> &[u8]
    ensures { result.now ≡ last_text (operand_texts text.now) }
{
    let mut last = text;
    while let Some(rest) = behind_comma(last) {
        last = rest;
    }
    trim(last)
}

/// What stands behind the first comma.
#[tactic(auto, using(crate::proofs::Positions::lasts))]
fn behind_comma(text: &[u8]) -> Option<&[u8]>
    ensures last { MatchOption result (last_text (pieces text.now) ≡ trim text.now)
        (λ rest. last_text (pieces text.now) ≡ last_text (pieces rest.now)) }
    ensures shorter { IfSome result (λ rest. length rest.now < length text.now) }
{
    match find_byte(text, b',') {
        Some(at) => Some(&text[at + 1..]),
        None => None,
    }
}

/// No operand.
#[tactic(auto, using(crate::proofs::Positions::positions))]
pub(crate) fn no_operand(text: &[u8]) -> Result<(), AsmKind>
    ensures { result ≡ as_none (operand_texts text.now) }
{
    if text.is_empty() {
        Ok(())
    } else {
        Err(AsmKind::Operand)
    }
}

/// The one operand, or `Operand` where there is another number of them.
#[tactic(auto, using(crate::proofs::Positions::positions))]
pub(crate) fn one_operand(text: &[u8]) -> Result<&[u8], AsmKind>
    ensures { MatchResult result (λ a. as_one (operand_texts text.now) ≡ Ok a.now)
        (λ e. as_one (operand_texts text.now) ≡ Err e) }
{
    if text.is_empty() {
        return Err(AsmKind::Operand);
    }
    match first_piece(text) {
        (first, None) => Ok(first),
        _ => Err(AsmKind::Operand),
    }
}

/// The two operands, or `Operand` where there is another number of them.
#[tactic(auto, using(crate::proofs::Positions::positions))]
pub(crate) fn two_operands(text: &[u8]) -> Result<(&[u8], &[u8]), AsmKind>
    ensures { MatchResult result (λ p. as_two (operand_texts text.now) ≡ Ok (p.0.now, p.1.now))
        (λ e. as_two (operand_texts text.now) ≡ Err e) }
{
    let (first, Some(behind)) = first_piece(text) else {
        return Err(AsmKind::Operand);
    };
    match first_piece(behind) {
        (second, None) => Ok((first, second)),
        _ => Err(AsmKind::Operand),
    }
}

/// The three operands, or `Operand` where there is another number of them.
#[tactic(auto, using(crate::proofs::Positions::positions))]
pub(crate) fn three_operands(text: &[u8]) -> Result<(&[u8], &[u8], &[u8]), AsmKind>
    ensures { MatchResult result
        (λ p. as_three (operand_texts text.now) ≡ Ok (p.0.now, p.1.now, p.2.now))
        (λ e. as_three (operand_texts text.now) ≡ Err e) }
{
    let (first, Some(behind)) = first_piece(text) else {
        return Err(AsmKind::Operand);
    };
    let (second, Some(behind)) = first_piece(behind) else {
        return Err(AsmKind::Operand);
    };
    match first_piece(behind) {
        (third, None) => Ok((first, second, third)),
        _ => Err(AsmKind::Operand),
    }
}
