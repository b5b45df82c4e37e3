//! What an `expect` compares.

ghost use Rattle.std.specs.Prelude.{◌≡◌, IfOk, string_bytes};
ghost use Rattle.world_script.specs.Expecting.{differing_line, unexpected_line};

use std::alloc::{AllocError, Global};

/// The number of the first line in which two texts differ, counted from 1.
pub fn differing_line(expected: &[u8], printed: &[u8]) -> Option<usize>
    ensures { result ≡ differing_line expected.now printed.now }
{
    let mut line: usize = 1;
    for index in 0..expected.len() {
        if index == printed.len() {
            return Some(line);
        }
        if expected[index] != printed[index] {
            return Some(line);
        }
        if expected[index] == b'\n' {
            line += 1;
        }
    }
    if expected.len() < printed.len() {
        return Some(line);
    }
    None
}

/// That a step finds other lines.
pub fn line_of_unexpected(alloc: Global, step: u32, line: usize) -> Result<String, AllocError>
    ensures { IfOk result (λ text. string_bytes text ≡ unexpected_line step line) }
{
    format!(in alloc; "expect fault step {step} line {line}\n")
}
