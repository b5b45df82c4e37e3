//! What a message is made of: values that are read and written.

ghost use Rattle.std.specs.Prelude.{◌≡◌, List, ℕ, ◌++◌, Result, OnOk};
ghost use Rattle.codec_fields.specs.declared.fault.CodecFault.{CodecFault};
ghost use Rattle.codec_fields.specs.Fields.{Gives};

use codec_fields::ReadError;
use std::alloc::{AllocError, Global};

/// A value in a message: it is read from the front of bytes, and written at the end of them.
pub trait Codec: Sized + Drop {
    /// The value that bytes begin with and the bytes behind it, or the first fault.
    ghost reading: { List ℕ → Result (Self × List ℕ) CodecFault };

    ghost encoded: { Self → List ℕ };

    /// What the value's fields can hold.
    ghost fields_in_range: { Self → Type 0 };

    /// Reads a value and gives the bytes behind it.
    fn read(alloc: Global, bytes: &[u8]) -> Result<(Self, &[u8]), ReadError>
        ensures { Gives (λ x. (x.0, x.1.now)) result (reading bytes.now) };

    /// Writes the value at the end. A value that was written has its fields in range.
    fn put(&self, alloc: Global, out: &mut Vec<u8>) -> Result<(), AllocError>
        ensures text { OnOk result (out.new.items ≡ out.old.items ++ encoded self.now) }
        ensures fits { OnOk result (fields_in_range self.now) };
}
