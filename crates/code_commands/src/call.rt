//! A call of a procedure.

ghost use Rattle.std.specs.Prelude.{◌≤◌, length};

use host_types::ClientId;

/// A call of a procedure: who calls it, and the argument bytes, 256 at most.
#[derive(Drop)]
pub struct Call {
    pub client: ClientId,
    pub arguments: Vec<u8>,
    ghost fits: { length arguments.items ≤ 256 },
}
