//! Why a script is refused, or ends early.

use std::alloc::{AllocError, AllocFailed};
use std::error::Error;
use std::fmt::{self, Display, Formatter};

/// Why a script is refused, or ends early.
#[derive(Clone, Copy, Debug, PartialEq, Eq)]
pub enum ScriptKind {
    /// The text is no TOML document.
    NotToml = 1,
    /// A key that is needed is absent.
    MissingKey = 2,
    /// A value has the wrong type, or names what is not there.
    WrongValue = 3,
    /// A key has no meaning here.
    UnknownKey = 4,
    /// The head is that of no configuration.
    BadConfig = 5,
    /// A step would deliver more than 1,000,000 messages.
    TooManyDeliveries = 6,
    /// The script has more than 1,048,576 bytes.
    TooLong = 7,
    /// A read failed.
    Read = 8,
    /// A write failed.
    Write = 9,
    /// Memory ran out.
    Memory = 10,
}

impl ScriptKind {
    ghost use Rattle.std.specs.Prelude.{◌≡◌};
    ghost use Rattle.script_values.specs.Faults.{name_of, number_of};

    /// The fault's number.
    pub fn number(&self) -> u8
        ensures { result ≡ number_of self.now }
    {
        *self as u8
    }

    /// The fault's name.
    pub fn name(&self) -> &'static str
        ensures { result.now ≡ name_of self.now }
    {
        match self {
            ScriptKind::NotToml => "NotToml",
            ScriptKind::MissingKey => "MissingKey",
            ScriptKind::WrongValue => "WrongValue",
            ScriptKind::UnknownKey => "UnknownKey",
            ScriptKind::BadConfig => "BadConfig",
            ScriptKind::TooManyDeliveries => "TooManyDeliveries",
            ScriptKind::TooLong => "TooLong",
            ScriptKind::Read => "Read",
            ScriptKind::Write => "Write",
            ScriptKind::Memory => "Memory",
        }
    }
}

impl Display for ScriptKind {
    ghost use Rattle.std.specs.Prelude.{Some};
    ghost use Rattle.script_values.specs.Faults.{name_of};

    ghost output = { λ kind. Some (name_of kind) };

    fn fmt<W: fmt::Write>(&self, f: &mut Formatter<W>) -> fmt::Result {
        f.write_str(self.name())
    }
}

impl Error for ScriptKind {}

/// A fault of a script, and the step that has it: 0 for the head.
#[derive(Clone, Copy, Debug, PartialEq, Eq)]
pub struct ScriptFault {
    pub kind: ScriptKind,
    pub step: u32,
}

impl ScriptFault {
    ghost use Rattle.std.specs.Prelude.{◌≡◌};
    ghost use Rattle.script_values.specs.Faults.{at_head};

    /// A fault of the head, or before the first step.
    pub fn at_head(kind: ScriptKind) -> ScriptFault
        ensures { result ≡ at_head kind }
    {
        ScriptFault { kind, step: 0 }
    }
}

impl Display for ScriptFault {
    ghost use Rattle.std.specs.Prelude.{Some};
    ghost use Rattle.script_values.specs.Faults.{text_of};

    ghost output = { λ fault. Some (text_of fault) };

    fn fmt<W: fmt::Write>(&self, f: &mut Formatter<W>) -> fmt::Result {
        let number = self.kind.number();
        let kind = self.kind;
        let step = self.step;
        write!(f, "script fault {number} {kind} step {step}")
    }
}

impl Error for ScriptFault {}

/// Why a table of a document is refused. Of several faults the first of this list is reported.
#[derive(Clone, Copy, Debug, PartialEq, Eq)]
pub enum TableFault {
    /// Memory ran out.
    Memory = 0,
    /// A key that is needed is absent.
    MissingKey = 1,
    /// A value has the wrong type, or names what is not there.
    WrongValue = 2,
    /// A key has no meaning here.
    UnknownKey = 3,
    /// The head is that of no configuration.
    BadConfig = 4,
}

impl From<AllocError> for TableFault {
    ghost use Rattle.std.specs.Prelude.{◌≡◌};
    ghost use Rattle.script_values.specs.declared.fault.TableFault.TheVariants.{Memory};

    ghost from_gives = { λ _ gives. gives ≡ Memory };

    fn from(_: AllocError) -> TableFault {
        TableFault::Memory
    }
}

impl<T: Drop> From<AllocFailed<T>> for TableFault {
    ghost use Rattle.std.specs.Prelude.{◌≡◌};
    ghost use Rattle.script_values.specs.declared.fault.TableFault.TheVariants.{Memory};

    ghost from_gives = { λ _ gives. gives ≡ Memory };

    fn from(_: AllocFailed<T>) -> TableFault {
        TableFault::Memory
    }
}

impl TableFault {
    ghost use Rattle.std.specs.Prelude.{◌≡◌};
    ghost use Rattle.script_values.specs.Faults.{kind_of, least};

    /// The one of two faults that is reported.
    pub fn least(self, other: TableFault) -> TableFault
        ensures { result ≡ least self other }
    {
        if self as u8 <= other as u8 {
            self
        } else {
            other
        }
    }

    /// The fault, at a step.
    pub fn at_step(self, step: u32) -> ScriptFault
        ensures { result ≡ record { kind = kind_of self; step = step } }
    {
        ScriptFault {
            kind: self.into(),
            step,
        }
    }
}

impl From<TableFault> for ScriptKind {
    ghost use Rattle.std.specs.Prelude.{◌≡◌};
    ghost use Rattle.script_values.specs.Faults.{kind_of};

    ghost from_gives = { λ fault gives. gives ≡ kind_of fault };

    fn from(fault: TableFault) -> ScriptKind {
        match fault {
            TableFault::Memory => ScriptKind::Memory,
            TableFault::MissingKey => ScriptKind::MissingKey,
            TableFault::WrongValue => ScriptKind::WrongValue,
            TableFault::UnknownKey => ScriptKind::UnknownKey,
            TableFault::BadConfig => ScriptKind::BadConfig,
        }
    }
}
