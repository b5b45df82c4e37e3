//! Bytes that are read from front to back.

use crate::unclear::Unclear;

/// The bytes that are left to read.
#[derive(Clone, Copy)]
pub(crate) struct Cursor<'a> {
    rest: &'a [u8],
}

impl<'a> Cursor<'a> {
    pub(crate) fn new(bytes: &'a [u8]) -> Cursor<'a> {
        Cursor { rest: bytes }
    }

    /// The next bytes, so many of them.
    pub(crate) fn take(&mut self, count: usize) -> Result<&'a [u8], Unclear> {
        if count > self.rest.len() {
            return Err(Unclear::Other);
        }
        let (front, rest) = self.rest.split_at(count);
        self.rest = rest;
        Ok(front)
    }

    /// The next number, of so many bytes, the most significant first.
    pub(crate) fn number(&mut self, width: usize) -> Result<u64, Unclear> {
        let mut number: u64 = 0;
        for byte in self.take(width)? {
            number = number.wrapping_mul(256).wrapping_add(u64::from(*byte));
        }
        Ok(number)
    }

    /// The next bytes behind their length, which has four.
    pub(crate) fn sized(&mut self) -> Result<&'a [u8], Unclear> {
        match usize::try_from(self.number(4)?) {
            Ok(length) => self.take(length),
            Err(_) => Err(Unclear::Other),
        }
    }

    /// What is left.
    pub(crate) fn rest(&self) -> &'a [u8] {
        self.rest
    }
}
