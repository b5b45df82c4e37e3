//! Names, registers and numbers.

ghost use Rattle.std.specs.Prelude.{◌≡◌, ◌≤◌, ◌<◌, ◌^◌, IfSome, find, map, length};
ghost use Rattle.std.specs.Option.{option_map};
ghost use Rattle.std.specs.List.{list_all, position};
ghost use Rattle.std.specs.Str.{bytes_eq};
ghost use Rattle.std.specs.Char.{digit_value};
ghost use Rattle.bpf_asm.specs.Text.{is_digit, is_letter, is_name_byte, is_name, label_name};
ghost use Rattle.bpf_asm.specs.Operands.{numeral, unsigned, signed, is_sign, begins_number, within_half, immediate_of, wide_immediate_of, register_text, number_text, registers};

use bpf_decode::Reg;

/// A number as it is written: whether a minus stands before it, and its magnitude.
#[derive(Clone, Copy, Debug, PartialEq, Eq)]
pub(crate) struct Written {
    pub(crate) minus: bool,
    pub(crate) magnitude: u64,
}

fn is_digit(byte: u8) -> bool
    ensures { result ≡ is_digit byte }
{
    byte >= b'0' && byte <= b'9'
}

pub(crate) fn is_letter(byte: u8) -> bool
    ensures { result ≡ is_letter byte }
{
    (byte >= b'A' && byte <= b'Z') || (byte >= b'a' && byte <= b'z')
}

pub(crate) fn is_sign(byte: u8) -> bool
    ensures { result ≡ is_sign byte }
{
    byte == b'+' || byte == b'-'
}

fn is_name_byte(byte: u8) -> bool
    ensures { result ≡ is_name_byte byte }
{
    is_letter(byte) || is_digit(byte) || byte == b'_'
}

/// Whether a text is a label's name.
pub(crate) fn is_name(text: &[u8]) -> bool
    ensures { result ≡ is_name text.now }
{
    match text.first() {
        Some(first) => is_letter(*first) && are_name_bytes(text),
        None => false,
    }
}

/// Whether all bytes are letters, digits or `_`.
#[tactic(auto, using(crate::proofs::Stepping::stepping))]
fn are_name_bytes(text: &[u8]) -> bool
    ensures { result ≡ list_all is_name_byte text.now }
{
    for byte in text {
        if !is_name_byte(*byte) {
            return false;
        }
    }
    true
}

/// The name of a line that is a label, `name:` alone.
pub(crate) fn label_name(body: &[u8]) -> Option<&[u8]>
    ensures { option_map (λ name. name.now) result ≡ label_name body.now }
{
    match body.split_last() {
        Some((b':', name)) if is_name(name) => Some(name),
        _ => None,
    }
}

/// Where the first sign stands.
pub(crate) fn find_sign(text: &[u8]) -> Option<usize>
    ensures found { result ≡ position is_sign text.now }
    ensures within { IfSome result (λ at. at < length text.now) }
{
    text.iter().position(|b| is_sign(*b))
}

/// Whether a text is meant as a number.
pub(crate) fn begins_number(text: &[u8]) -> bool
    ensures { result ≡ begins_number text.now }
{
    match text.first() {
        Some(first) => is_digit(*first) || is_sign(*first),
        None => false,
    }
}

/// The registers.
const REGISTERS: [Reg; 11] = [
    Reg { number: 0 },
    Reg { number: 1 },
    Reg { number: 2 },
    Reg { number: 3 },
    Reg { number: 4 },
    Reg { number: 5 },
    Reg { number: 6 },
    Reg { number: 7 },
    Reg { number: 8 },
    Reg { number: 9 },
    Reg { number: 10 },
];

/// The register of this name, or none.
pub(crate) fn register(text: &[u8]) -> Option<Reg>
    ensures { result ≡ find (λ r. bytes_eq (register_text r) text.now) registers }
{
    find_numbered(&REGISTERS, text)
}

/// The same, by the registers' numbers.
fn find_numbered(regs: &[Reg], text: &[u8]) -> Option<Reg>
    ensures { option_map (λ r. r.number) result ≡
        find (λ n. bytes_eq (number_text n) text.now) (map (λ r. r.number) regs.now) }
{
    find_register(regs, text)
}

/// The first of some registers that has this name.
#[tactic(auto, using(crate::proofs::Stepping::stepping))]
fn find_register(regs: &[Reg], text: &[u8]) -> Option<Reg>
    ensures { result ≡ find (λ r. bytes_eq (register_text r) text.now) regs.now }
{
    for reg in regs {
        if is_register(*reg, text) {
            return Some(*reg);
        }
    }
    None
}

fn is_register(reg: Reg, text: &[u8]) -> bool
    ensures { result ≡ bytes_eq (register_text reg) text.now }
{
    if reg.number < 10 {
        [b'r', b'0' + reg.number].as_slice() == text
    } else {
        b"r10".as_slice() == text
    }
}

/// The number that digits write, if it is below 2^64.
#[tactic(auto, using(crate::proofs::Numerals::numerals, crate::proofs::Stepping::stepping))]
pub(crate) fn numeral(digits: &[u8], radix: u8) -> Option<u64>
    requires low { 2 ≤ radix }
    requires high { radix ≤ 36 }
    ensures { result ≡ numeral radix digits.now }
{
    if digits.is_empty() {
        return None;
    }
    let mut value: u64 = 0;
    for digit in digits {
        let digit = digit_value(*digit);
        if digit >= radix {
            return None;
        }
        value = value
            .checked_mul(u64::from(radix))?
            .checked_add(u64::from(digit))?;
    }
    Some(value)
}

/// The value of a digit in the radixes up to 36, or 36 of a byte that is none.
fn digit_value(byte: u8) -> u8
    ensures { result ≡ digit_value byte }
{
    match byte {
        b'0'..=b'9' => byte - b'0',
        b'A'..=b'Z' => byte - b'A' + 10,
        b'a'..=b'z' => byte - b'a' + 10,
        _ => 36,
    }
}

/// A number without a sign: decimal digits, or `0x` and hex digits.
pub(crate) fn unsigned(text: &[u8]) -> Option<u64>
    ensures { result ≡ unsigned text.now }
{
    match text.strip_prefix(b"0x") {
        Some(digits) => numeral(digits, 16),
        None => numeral(text, 10),
    }
}

/// A number with its sign, if it has one.
pub(crate) fn signed(text: &[u8]) -> Option<Written>
    ensures { option_map (λ n. (n.minus, n.magnitude)) result ≡ signed text.now }
{
    match text.first() {
        Some(b'-') => {
            let magnitude = numeral(&text[1..], 10)?;
            Some(Written {
                minus: true,
                magnitude,
            })
        }
        _ => {
            let magnitude = unsigned(text)?;
            Some(Written {
                minus: false,
                magnitude,
            })
        }
    }
}

/// The immediate that a number stands for, its 32 bits taken, if it is in range.
pub(crate) fn immediate_of(number: Written) -> Option<i32>
    ensures { result ≡ immediate_of (number.minus, number.magnitude) }
{
    if number.minus {
        within_half(1 << 31, true, number.magnitude)
    } else if number.magnitude < 1 << 32 {
        Some((number.magnitude as u32).cast_signed())
    } else {
        None
    }
}

/// The wide immediate that a number stands for, if it is in range.
pub(crate) fn wide_immediate_of(number: Written) -> Option<u64>
    ensures { result ≡ wide_immediate_of (number.minus, number.magnitude) }
{
    if number.minus && number.magnitude > 0 {
        None
    } else {
        Some(number.magnitude)
    }
}

/// The signed number of a magnitude below half of a range, or at it under a minus.
pub(crate) fn within_half(half: u64, minus: bool, magnitude: u64) -> Option<i32>
    requires { half ≤ 2 ^ 31 }
    ensures { result ≡ within_half half minus magnitude }
{
    if minus && magnitude <= half {
        Some((-(magnitude as i64)) as i32)
    } else if !minus && magnitude < half {
        Some(magnitude as i32)
    } else {
        None
    }
}

/// The same of 16 bits.
pub(crate) fn within_16(minus: bool, magnitude: u64) -> Option<i16>
    ensures { result ≡ within_half (2 ^ 15) minus magnitude }
{
    if minus && magnitude <= 1 << 15 {
        Some((-(magnitude as i32)) as i16)
    } else if !minus && magnitude < 1 << 15 {
        Some(magnitude as i16)
    } else {
        None
    }
}
