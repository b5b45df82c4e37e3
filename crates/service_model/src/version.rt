//! The versions of a state's bytes.

ghost use Rattle.std.specs.Prelude.{◌≡◌};
ghost use Rattle.service_model.specs.Versions.{version_number, version_of};

/// The version of a state's bytes, which their first byte tells.
#[derive(Clone, Copy, Debug, PartialEq, Eq)]
pub enum Version {
    /// It tells of a procedure its code alone: all procedures are of the verifier's first profile.
    First,
    /// It tells each procedure's profile, too. States are written in it.
    Second,
}

impl Version {
    /// The version of a number, 1 or 2.
    pub fn of(number: u8) -> Option<Version>
        ensures { result ≡ version_of number }
    {
        match number {
            1 => Some(Version::First),
            2 => Some(Version::Second),
            _ => None,
        }
    }

    /// The version's number, 1 or 2.
    pub fn number(self) -> u8
        ensures { result ≡ version_number self }
    {
        match self {
            Version::First => 1,
            Version::Second => 2,
        }
    }
}
