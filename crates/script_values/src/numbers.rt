//! Lists of numbers: as the bytes that a procedure reads them from, and as choices.

ghost use Rattle.std.specs.Prelude.{◌≡◌, IfOk};
ghost use Rattle.script_values.specs.Forms.{packed};

use crate::fault::TableFault;
use crate::form::Form;
use crate::said::ScriptBytes;
use crate::values::{ListOf, MAX_HEX_BYTES, MAX_INTEGER, UpTo};
use host_types::Bytes;
use pbft_codec::Sequence;
use std::alloc::{AllocError, Global};
use toml::Value;

/// A list of numbers from 0 to 2^63 - 1 as bytes: 8 for each, the least significant first, and no more in all than hex
/// digits give.
#[derive(Clone, Copy)]
pub struct Numbers;

impl Form for Numbers {
    ghost use Rattle.script_values.specs.Forms.{numbers};

    ghost reads = { λ _ d. numbers d };

    type Says = ScriptBytes;

    fn read(&self, alloc: Global, value: &Value) -> Result<ScriptBytes, TableFault> {
        let numbers = ListOf(UpTo(MAX_INTEGER)).read(alloc, value)?;
        let bytes = packed(alloc, numbers.as_slice())?;
        if bytes.len() <= MAX_HEX_BYTES {
            Ok(ScriptBytes::new(Bytes::from_vec(bytes)))
        } else {
            Err(TableFault::WrongValue)
        }
    }
}

/// The most choices of a list.
const MAX_CHOICES: usize = 65_536;

/// A list of at most 65,536 numbers from 0 to 2^63 - 1.
#[derive(Clone, Copy)]
pub struct Choices;

impl Form for Choices {
    ghost use Rattle.script_values.specs.Forms.{choices};

    ghost reads = { λ _ d. choices d };

    type Says = Sequence<u64>;

    fn read(&self, alloc: Global, value: &Value) -> Result<Sequence<u64>, TableFault> {
        let numbers = ListOf(UpTo(MAX_INTEGER)).read(alloc, value)?;
        if numbers.as_slice().len() <= MAX_CHOICES {
            Ok(numbers)
        } else {
            Err(TableFault::WrongValue)
        }
    }
}

/// The bytes of numbers, one after another.
fn packed(alloc: Global, numbers: &[u64]) -> Result<Vec<u8>, AllocError>
    ensures { IfOk result (λ v. v.items ≡ packed numbers.now) }
{
    let mut bytes = Vec::new(alloc);
    for number in numbers {
        bytes.extend_from_slice(&number.to_le_bytes())?;
    }
    Ok(bytes)
}
