//! What a printed line means.

use crate::outcome::Outcome;
use crate::results::outcome_words;
use crate::states::state_words;
use crate::unclear::Unclear;
use hex::FromHexError;
use script_text::{Script, Step};
use std::alloc::{AllocError, Global};

/// What a line means that a script printed, without its line end: lines that are indented by four blanks, each with its end.
/// It is empty where the line says all itself. Of a client's line the script tells what was asked for. The error is that
/// memory ran out.
pub fn meaning_of(alloc: Global, script: &Script, line: &str) -> Result<String, AllocError> {
    match meaning(alloc, script, line) {
        Ok(text) => Ok(text),
        Err(Unclear::Memory) => Err(AllocError),
        Err(Unclear::Other) => Ok(String::new(alloc)),
    }
}

fn meaning(alloc: Global, script: &Script, line: &str) -> Result<String, Unclear> {
    match word_at(line, 0)? {
        "client" => accepted_words(alloc, script, line),
        "state" => state_words(alloc, &bytes_at(alloc, line, 2)?),
        "upgraded" => state_words(alloc, &bytes_at(alloc, line, 1)?),
        _ => Err(Unclear::Other),
    }
}

/// The result that a client accepted: `client 100 time 1 number 1 result 0000000000`.
fn accepted_words(alloc: Global, script: &Script, line: &str) -> Result<String, Unclear> {
    let client = number_at(line, 1)?;
    let time = number_at(line, 3)?;
    let result = bytes_at(alloc, line, 7)?;
    let Some(outcome) = Outcome::read(&result) else {
        return Err(Unclear::Other);
    };
    let words = outcome_words(alloc, asked_for(script, client, time), outcome)?;
    Ok(format!(in alloc; "    {words}\n")?)
}

/// What the request of this time asks for: a client's times count its requests.
fn asked_for(script: &Script, client: u64, time: u64) -> Option<&[u8]> {
    let mut passed: u64 = 0;
    for named in script.steps.as_slice() {
        if let Step::Request(order) = &named.step {
            if u64::from(order.client.0) == client {
                passed = passed.saturating_add(1);
                if passed == time {
                    return Some(order.op.as_slice());
                }
            }
        }
    }
    None
}

/// The word of a line that has so many before it.
fn word_at(line: &str, index: usize) -> Result<&str, Unclear> {
    match line.split(' ').nth(index) {
        Some(word) => Ok(word),
        None => Err(Unclear::Other),
    }
}

/// The number that a word is.
fn number_at(line: &str, index: usize) -> Result<u64, Unclear> {
    match word_at(line, index)?.parse::<u64>() {
        Ok(number) => Ok(number),
        Err(_) => Err(Unclear::Other),
    }
}

/// The bytes that a word has as hex.
fn bytes_at(alloc: Global, line: &str, index: usize) -> Result<Vec<u8>, Unclear> {
    match hex::decode(alloc, word_at(line, index)?.as_bytes()) {
        Ok(bytes) => Ok(bytes),
        Err(FromHexError::OutOfMemory) => Err(Unclear::Memory),
        Err(_) => Err(Unclear::Other),
    }
}
