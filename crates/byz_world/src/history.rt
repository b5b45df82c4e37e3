//! What records agree on.

ghost use Rattle.std.specs.Prelude.{◌≡◌, length};
ghost use Rattle.std.specs.Option.{option_map};
ghost use Rattle.byz_world.specs.Audits.{entry_at};
ghost use Rattle.byz_world.specs.declared.history.Execution.{Execution};

use host_types::{Bytes, Digest, SeqNo};
use std::marker::Model;

/// A request that was executed: its digest and its result.
#[derive(Drop)]
pub(crate) struct Execution {
    pub digest: Digest,
    pub result: Bytes,
}

/// What was executed at each number, from 1 up to the greatest.
#[derive(Drop)]
pub struct History {
    entries: Vec<Execution>,
}

impl Model for History {
    ghost use Rattle.std.specs.Prelude.{List};
    ghost use Rattle.byz_world.specs.declared.history.Execution.{Execution};

    ghost Value = { List Execution };

    ghost view = { λ h. h.entries.items };
}

impl History {
    pub(crate) fn new(entries: Vec<Execution>) -> History
        ensures { result ≡ entries.items }
    {
        History { entries }
    }

    /// The greatest number that was executed; 0 if none was. It takes no memory.
    pub fn greatest(&self) -> SeqNo
        ensures { result.0 ≡ length self.now }
    {
        SeqNo(self.entries.len() as u64)
    }

    /// The digest and the result at a number, if it was executed. It takes no memory.
    pub fn at(&self, number: SeqNo) -> Option<(&Digest, &[u8])>
        ensures { option_map (λ p. record { digest = p.0.now; result = p.1.now }) result ≡ entry_at self.now number.0 }
    {
        if number.0 == 0 {
            return None;
        }
        let entry = self.entries.get((number.0 - 1) as usize)?;
        Some((&entry.digest, entry.result.as_slice()))
    }
}
