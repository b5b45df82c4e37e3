//! How much the verifier follows.

ghost use Rattle.std.specs.Prelude.{◌≡◌};
ghost use Rattle.bpf_model.specs.Profiles.{number_of, profile_of};

/// How much the verifier follows of what code computes. Code that a compiler made without optimizing keeps its values
/// on the stack, and mostly passes under the second profile alone.
#[derive(Clone, Copy, Debug, PartialEq, Eq)]
pub enum Profile {
    /// The numbers that registers hold.
    One,
    /// The numbers that registers hold, and those of the stack's words of 8 bytes.
    Two,
}

impl Profile {
    /// The profile of a number, 1 or 2.
    pub fn of(number: u8) -> Option<Profile>
        ensures { result ≡ profile_of number }
    {
        match number {
            1 => Some(Profile::One),
            2 => Some(Profile::Two),
            _ => None,
        }
    }

    /// The profile's number, 1 or 2.
    pub fn number(self) -> u8
        ensures { result ≡ number_of self }
    {
        match self {
            Profile::One => 1,
            Profile::Two => 2,
        }
    }
}
