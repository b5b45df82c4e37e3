//! The table of helpers: their numbers, and what each takes, reads, writes and answers.

ghost use Rattle.std.specs.Prelude.{◌≡◌};
ghost use Rattle.map_helpers.specs.Helpers.{helper_of, arguments_of, reads, writes, max_answer};

/// The bytes of a key.
const KEY: u32 = 16;

/// The bytes of a value.
const VALUE: u32 = 32;

/// How many bytes an access has.
#[derive(Clone, Copy, Debug, PartialEq, Eq)]
pub enum Extent {
    /// So many.
    Fixed(u32),
    /// As many as r2 says.
    Second,
}

impl Extent {
    ghost use Rattle.std.specs.Prelude.{◌≡◌};
    ghost use Rattle.map_helpers.specs.Helpers.{fixed_size};

    /// How many bytes there are for certain: none where that is left to r2.
    pub fn fixed(self) -> u32
        ensures { result ≡ fixed_size self }
    {
        match self {
            Extent::Fixed(size) => size,
            Extent::Second => 0,
        }
    }
}

/// So many bytes, from the address on that a register holds.
#[derive(Clone, Copy, Debug, PartialEq, Eq)]
pub struct Access {
    /// The number of the register: 1 or 2.
    pub register: u8,
    /// How many bytes.
    pub size: Extent,
}

/// The key at r1.
static KEY_AT_R1: [Access; 1] = [Access {
    register: 1,
    size: Extent::Fixed(KEY),
}];

/// The key at r1 and the value at r2.
static KEY_AND_VALUE: [Access; 2] = [
    Access {
        register: 1,
        size: Extent::Fixed(KEY),
    },
    Access {
        register: 2,
        size: Extent::Fixed(VALUE),
    },
];

/// The key at r2.
static KEY_AT_R2: [Access; 1] = [Access {
    register: 2,
    size: Extent::Fixed(KEY),
}];

/// The value at r2.
static VALUE_AT_R2: [Access; 1] = [Access {
    register: 2,
    size: Extent::Fixed(VALUE),
}];

/// As many bytes at r1 as r2 says.
static BYTES_AT_R1: [Access; 1] = [Access {
    register: 1,
    size: Extent::Second,
}];

/// No bytes.
static NOTHING: [Access; 0] = [];

/// The registers r1 and r2.
static R1_AND_R2: [u8; 2] = [1, 2];

/// The register r1.
static R1: [u8; 1] = [1];

/// No register.
static NO_REGISTER: [u8; 0] = [];

/// A helper (RFC 9669, section 4.3.1), by its static number.
#[derive(Clone, Copy, Debug, PartialEq, Eq)]
pub enum Helper {
    /// Writes the value of the key at r1 to r2, or zeros. Answers 0 where the key was found, else 1.
    Get,
    /// Gives the key at r1 the value at r2. Answers 0, or 1 where the key is new and the map is full.
    Put,
    /// Takes the key at r1 out of the map. Answers 0 where it was there, else 1.
    Del,
    /// Answers the number of entries.
    Len,
    /// Writes the least key greater than the one at r1 to r2, or zeros. Answers 0 where there is one,
    /// else 1.
    Next,
    /// Appends as many bytes at r1 as r2 says to the output. Answers 0, or 1 where it would pass its limit.
    Emit,
    /// Answers the number of the client that calls.
    Caller,
}

impl Helper {
    /// The helper of a number, if this host has it.
    pub fn of(number: i32) -> Option<Helper>
        ensures { result ≡ helper_of number }
    {
        match number {
            1 => Some(Helper::Get),
            2 => Some(Helper::Put),
            3 => Some(Helper::Del),
            4 => Some(Helper::Len),
            5 => Some(Helper::Next),
            6 => Some(Helper::Emit),
            7 => Some(Helper::Caller),
            _ => None,
        }
    }

    /// The registers that it takes its arguments from, in the order in which they are checked.
    pub fn arguments(self) -> &'static [u8]
        ensures { result.now ≡ arguments_of self }
    {
        match self {
            Helper::Get | Helper::Put | Helper::Next | Helper::Emit => &R1_AND_R2,
            Helper::Del => &R1,
            Helper::Len | Helper::Caller => &NO_REGISTER,
        }
    }

    /// What it reads.
    pub fn reads(self) -> &'static [Access]
        ensures { result.now ≡ reads self }
    {
        match self {
            Helper::Get | Helper::Del | Helper::Next => &KEY_AT_R1,
            Helper::Put => &KEY_AND_VALUE,
            Helper::Emit => &BYTES_AT_R1,
            Helper::Len | Helper::Caller => &NOTHING,
        }
    }

    /// What it writes, after all that it reads.
    pub fn writes(self) -> &'static [Access]
        ensures { result.now ≡ writes self }
    {
        match self {
            Helper::Get => &VALUE_AT_R2,
            Helper::Next => &KEY_AT_R2,
            Helper::Put | Helper::Del | Helper::Len | Helper::Emit | Helper::Caller => &NOTHING,
        }
    }

    /// The greatest number that it answers; the least is 0.
    pub fn max_answer(self) -> u64
        ensures { result ≡ max_answer self }
    {
        match self {
            Helper::Get | Helper::Put | Helper::Del | Helper::Next | Helper::Emit => 1,
            Helper::Len => 4096,
            Helper::Caller => 0xffff_ffff,
        }
    }
}
