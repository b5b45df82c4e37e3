//! The names that steps give to messages.

ghost use Rattle.std.specs.Prelude.{◌≡◌, bytes_eq};
ghost use Rattle.std.specs.List.{list_any};
ghost use Rattle.script_text.specs.Naming.{is_given, is_name};

use crate::script::NamedStep;
use script_values::{Form, MessageName, TableFault};
use std::alloc::Global;
use toml::Value;

/// A name that an earlier step gives.
#[derive(Clone, Copy)]
pub(crate) struct GivenName<'a> {
    pub earlier: &'a [NamedStep],
}

impl<'a> Form for GivenName<'a> {
    ghost use Rattle.script_text.specs.Naming.{given_name};

    ghost reads = { λ f d. given_name f.earlier.now d };

    type Says = MessageName;

    fn read(&self, alloc: Global, value: &Value) -> Result<MessageName, TableFault> {
        let Some(text) = value.as_str() else {
            return Err(TableFault::WrongValue);
        };
        if !is_given(self.earlier, text) {
            return Err(TableFault::WrongValue);
        }
        Ok(MessageName::new(alloc, text)?)
    }
}

/// A name that no earlier step gives.
#[derive(Clone, Copy)]
pub(crate) struct NewName<'a> {
    pub earlier: &'a [NamedStep],
}

impl<'a> Form for NewName<'a> {
    ghost use Rattle.script_text.specs.Naming.{new_name};

    ghost reads = { λ f d. new_name f.earlier.now d };

    type Says = MessageName;

    fn read(&self, alloc: Global, value: &Value) -> Result<MessageName, TableFault> {
        let Some(text) = value.as_str() else {
            return Err(TableFault::WrongValue);
        };
        if is_given(self.earlier, text) {
            return Err(TableFault::WrongValue);
        }
        Ok(MessageName::new(alloc, text)?)
    }
}

/// Whether one of these steps gives this name.
fn is_given(earlier: &[NamedStep], text: &str) -> bool
    ensures { result ≡ is_given earlier.now text.now }
{
    earlier.iter().any(|step| is_name(&step.name, text))
}

/// Whether this is the name.
fn is_name(name: &Option<MessageName>, text: &str) -> bool
    ensures { result ≡ is_name name.now text.now }
{
    match name {
        Some(name) => text.as_bytes() == name.as_slice(),
        None => false,
    }
}
