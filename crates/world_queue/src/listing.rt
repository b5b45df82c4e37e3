//! The lines of messages on their way.

ghost use Rattle.std.specs.Prelude.{◌≡◌, IfOk, filter as kept, flat_map, string_bytes};
ghost use Rattle.world_queue.specs.Letters.{is_meant};
ghost use Rattle.world_queue.specs.Lines.{kind_or_dash, letter_line};

use crate::queue::{Letter, Queue};
use script_text::{Filter, Kind, node_text};
use std::alloc::{AllocError, Global};

impl Queue {
    /// The lines of the letters that are meant, the oldest first.
    pub fn lines(&self, filter: &Filter) -> Result<String, AllocError>
        ensures { IfOk result (λ text. string_bytes text ≡ flat_map letter_line (kept (is_meant filter.now) self.now)) }
    {
        let mut text = String::new(self.alloc);
        for index in 0..self.letters.len() {
            if let Some(letter) = self.letters.get(index) {
                if letter.is_meant_by(filter) {
                    text.push_str(&letter.line(self.alloc)?)?;
                }
            }
        }
        Ok(text)
    }
}

impl Letter {
    /// Its line: the sender, the addressee, the kind and the bytes.
    fn line(&self, alloc: Global) -> Result<String, AllocError>
        ensures { IfOk result (λ line. string_bytes line ≡ letter_line self.now) }
    {
        let from = node_text(alloc, self.from)?;
        let to = node_text(alloc, Some(self.to))?;
        let kind = kind_or_dash(self.kind);
        let bytes = hex::encode(alloc, self.bytes())?;
        format!(in alloc; "queue {from} {to} {kind} {bytes}\n")
    }
}

/// The name of a kind, or a dash where there is none.
fn kind_or_dash(kind: Option<Kind>) -> &'static str
    ensures { result.now ≡ kind_or_dash kind }
{
    match kind {
        Some(kind) => kind.name(),
        None => "-",
    }
}
