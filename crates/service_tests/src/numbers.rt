//! A generator of requests.

ghost use Rattle.std.specs.Prelude.{◌<◌};

use std::alloc::{AllocError, Global};

/// What is installed: code that puts an entry, returns 7, copies an entry, removes one, emits the arguments; code
/// that profile 2 alone accepts; and code that is refused, since it falls off its end.
const CODES: [&str; 7] = [
    "bf12000000000000070200001000000085000000020000009500000000000000",
    "b7000000070000009500000000000000",
    "bf16000000000000bf1200000000000007020000100000008500000001000000bf610000000000000701000030000000bf62000000000000070200001000000085000000020000009500000000000000",
    "85000000030000009500000000000000",
    "b70200000001000085000000060000009500000000000000",
    "71120000000000007b2af8ff0000000079a3f8ff000000000f3100000000000071100000000000009500000000000000",
    "b700000000000000",
];

/// A generator of numbers, at the last one that it gave.
#[derive(Drop)]
pub(crate) struct Numbers {
    pub(crate) last: u32,
}

impl Numbers {
    /// The next number.
    pub(crate) fn next(&mut self) -> u32 {
        self.last = self
            .last
            .wrapping_mul(1_664_525)
            .wrapping_add(1_013_904_223);
        self.last
    }

    /// The next number below this one.
    pub(crate) fn below(&mut self, limit: u32) -> u32
        requires { 0 < limit }
        ensures { result < limit }
    {
        (self.next() >> 8) % limit
    }

    /// An installation, a call, or an operation that there isn't.
    fn operation(&mut self, alloc: Global) -> Result<String, AllocError> {
        match self.below(8) {
            0 => String::from_str(alloc, "raw 09"),
            1 | 2 => {
                let code = CODES[self.below(7) as usize];
                let verb = ["install", "install2"][self.below(2) as usize];
                format!(in alloc; "{verb} {code}")
            }
            _ => {
                let (procedure, key, value) = (self.below(6), self.below(20), self.below(256));
                let front = format!(in alloc; "{key:02x}")?.repeat(alloc, 16)?;
                let back = format!(in alloc; "{value:02x}")?.repeat(alloc, 32)?;
                format!(in alloc; "call {procedure} {front}{back}")
            }
        }
    }

    /// The request of one of these clients, whose time may be above, at or below its last; or the null request.
    pub(crate) fn line(
        &mut self,
        alloc: Global,
        clients: &[u32],
        number: u64,
    ) -> Result<String, AllocError> {
        let at = (self.next() >> 8) as usize % clients.len().max(1);
        let client = clients.get(at).copied().unwrap_or(0);
        if self.below(12) == 0 {
            return String::from_str(alloc, "null");
        }
        let time = number.saturating_sub(u64::from(self.below(4)));
        let operation = self.operation(alloc)?;
        format!(in alloc; "{client} {time} {operation}")
    }
}
